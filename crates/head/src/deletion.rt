//! The step of a deletion.

ghost use Rattle.std.specs.Prelude.{◌≡◌, ◌≤◌, ℕ, IfOk, OnOk, length, map};
ghost use Rattle.std.specs.List.{Contains};
ghost use Rattle.head.specs.Blocks.{part_in};
ghost use Rattle.head.specs.Removing.{block_kept, blocks_kept, head_kept, head_less, snapshot_less};
ghost use Rattle.head.specs.Removing.{survives};
ghost use Rattle.head.specs.Shown.{series_of, copied_of};

use crate::head::HeadView;
use crate::selection::struck_references;
use crate::series::SeriesList;
use crate::snapshot::Snapshot;
use block::Block;
use labels::SeriesRef;
use matchers::Matcher;
use std::alloc::{AllocError, Global};
use std::sync::Arc;

/// Drops the samples in the closed range of the series with these references, which count from 1.
/// The others stay shared.
fn drop_each(
    alloc: Global,
    series: &mut SeriesList,
    references: &[SeriesRef],
    from: i64,
    to: i64,
) -> Result<(), AllocError>
    requires { (r : ℕ) → Contains references.now r → (1 ≤ r) × (r ≤ length series.old) }
    ensures { OnOk result (series.new ≡ head_less references.now from to 1 series.old) }
{
    for reference in references {
        let place = reference.number() as usize - 1;
        let left = series.at(place).without(alloc, from, to)?;
        series.set(place, Arc::new(alloc, left)?)?;
    }
    Ok(())
}

/// The head without the samples that the deletion strikes.
fn head_without(
    alloc: Global,
    at: &Snapshot,
    matchers: &[Matcher],
    from: i64,
    to: i64,
) -> Result<HeadView, AllocError>
    ensures series { IfOk result (λ head. series_of head
        ≡ head_kept (survives matchers.now from to) at.now.head) }
    ensures copied { IfOk result (λ head. copied_of head ≡ 0) }
{
    let references = struck_references(alloc, &at.head(), matchers, from, to)?;
    let mut series = at.head.series().try_clone()?;
    drop_each(alloc, &mut series, references.as_slice(), from, to)?;
    let order = at.head.order().try_clone()?;
    let index = at.head.index_of(alloc, &series)?;
    Ok(HeadView::of(series, order, index, 0))
}

/// The block with a tombstone for each of its series that the deletion strikes.
fn block_without(
    alloc: Global,
    block: &Block,
    matchers: &[Matcher],
    from: i64,
    to: i64,
) -> Result<Block, AllocError>
    ensures { IfOk result (λ b. part_in b
        ≡ block_kept (survives matchers.now from to) (part_in block.now)) }
{
    let references = struck_references(alloc, &block.view(), matchers, from, to)?;
    block.without(alloc, references.as_slice(), from, to)
}

fn blocks_without(
    alloc: Global,
    blocks: &[Block],
    matchers: &[Matcher],
    from: i64,
    to: i64,
) -> Result<Vec<Block>, AllocError>
    ensures { IfOk result (λ left. map part_in left.items
        ≡ blocks_kept (survives matchers.now from to) (map part_in blocks.now)) }
{
    let mut left = Vec::new(alloc);
    for block in blocks {
        left.push(block_without(alloc, block, matchers, from, to)?)?;
    }
    Ok(left)
}

/// The snapshot without the samples that now stand in the closed range, of the series that satisfy
/// all matchers. The files of the blocks are shared, and so are the head's other series.
pub(crate) fn snapshot_without(
    alloc: Global,
    at: &Snapshot,
    matchers: &[Matcher],
    from: i64,
    to: i64,
) -> Result<Snapshot, AllocError>
    ensures { IfOk result (λ s. s ≡ snapshot_less (survives matchers.now from to) at.now) }
{
    let head = head_without(alloc, at, matchers, from, to)?;
    let blocks = blocks_without(alloc, at.blocks.as_slice(), matchers, from, to)?;
    Ok(Snapshot {
        blocks: Arc::new(alloc, blocks)?,
        head,
        floor: at.floor,
    })
}
