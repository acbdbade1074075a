//! The step of a cut.

ghost use Rattle.std.specs.Prelude.{◌≡◌, ◌≤◌, ◌++◌, true, [], ◌∷◌, Ok, length, map, int_lt};
ghost use Rattle.std.specs.Prelude.{IfOk, IfErr, OnOk};
ghost use Rattle.std.specs.Arc.{arc_value};
ghost use Rattle.labels.specs.Contents.{is_time, Content};
ghost use Rattle.labels.specs.Rows.{AreRows};
ghost use Rattle.block.specs.Ranges.{IsRange};
ghost use Rattle.block_writer.specs.SpellRows.{AreWithin};
ghost use Rattle.head.specs.Outcomes.{IsStepRefusal};
ghost use Rattle.head.specs.Blocks.{part_in};
ghost use Rattle.head.specs.Cuts.{leaving, AreLeaving, AreCutBlocks, written_if_fit};
ghost use Rattle.head.specs.Fits.{files_fit, fits};
ghost use Rattle.head.specs.HeadRows.{rows_within, with_row};
ghost use Rattle.head.specs.Heads.{world_of, IsSoundHead};
ghost use Rattle.head.specs.Kept.{IsBlockOf, KeepsBlocks};
ghost use Rattle.head.specs.Removing.{head_cut};
ghost use Rattle.head.specs.Shown.{series_of, copied_of};
ghost use Rattle.head.specs.Orders.{IsOrderOf};
ghost use Rattle.head.specs.declared.TheConstants.{MAX_SERIES};
ghost use Rattle.head.specs.Worlds.{cut, cut_at, cut_off};

use crate::MAX_SERIES;
use crate::draft::Draft;
use crate::error::CommitError;
use crate::head::HeadView;
use crate::joining::begin;
use crate::order::Order;
use crate::series::SeriesList;
use crate::snapshot::Snapshot;
use block::{Block, Range};
use block_writer::{BlockBytes, PartRows, WriteError, write};
use labels::{Row, sort_rows};
use pages::PagedList;
use std::alloc::{AllocError, Global};
use std::sync::Arc;

/// The greatest number of blocks of a store.
pub const MAX_BLOCKS: usize = 63;

/// Adds a row where it has a sample.
fn push_row(rows: &mut Vec<Row>, row: Row) -> Result<(), AllocError>
    ensures { OnOk result (rows.new.items ≡ rows.old.items ++ with_row row.0 row.1 []) }
{
    if row.samples().is_empty() {
        return Ok(());
    }
    rows.push(row)?;
    Ok(())
}

/// The rows of the series that have a sample in the closed range, each with its samples there.
fn rows_within(alloc: Global, head: &SeriesList, from: i64, to: i64) -> Result<Vec<Row>, AllocError>
    ensures { IfOk result (λ rows. rows.items ≡ rows_within from to head.now) }
{
    let mut rows = Vec::new(alloc);
    for place in 0..head.len() {
        let series = head.at(place);
        let labels = series.labels().try_clone()?;
        let samples = series.samples_within(alloc, from, to)?;
        push_row(&mut rows, Row::new(labels, samples))?;
    }
    Ok(rows)
}

/// The head's samples before a time, as rows in label order.
fn rows_below(alloc: Global, at: &Snapshot, time: i64) -> Result<Vec<Row>, AllocError>
    requires { int_lt at.now.floor time ≡ true }
    ensures { IfOk result (λ rows. AreLeaving time at.now rows.items) }
{
    let mut rows = rows_within(alloc, at.head.series(), at.floor, time - 1)?;
    sort_rows(&mut rows)?;
    Ok(rows)
}

/// The block of a range that is written for these rows, and read again.
fn block_of(alloc: Global, range: Range, rows: &PartRows) -> Result<Block, CommitError>
    requires ranged { IsRange range }
    requires within { AreWithin range rows.now }
    ensures block { IfOk result (λ b. (c : Content)
        → AreRows rows.now c → IsBlockOf range.0 range.1 c (part_in b)) }
    ensures fit { IfOk result (λ b. files_fit rows.now ≡ true) }
    ensures refused { IfErr result (λ e. IsStepRefusal e (written_if_fit rows.now)) }
{
    let files = match write(alloc, rows) {
        Ok(files) => files,
        Err(WriteError::Limit) => return Err(CommitError::Limit),
        Err(WriteError::Memory) => return Err(CommitError::Memory),
    };
    let BlockBytes {
        index,
        chunks,
        tombstones,
    } = files;
    match Block::open(alloc, range, &index, chunks, &tombstones) {
        Ok(block) => Ok(block),
        Err(_) => Err(CommitError::Memory),
    }
}

/// The blocks, and one more as the last.
fn with_block(alloc: Global, blocks: &[Block], last: Block) -> Result<Arc<Vec<Block>>, AllocError>
    ensures { IfOk result (λ all.
        map part_in (arc_value all).items ≡ map part_in blocks.now ++ part_in last ∷ []) }
{
    let mut all = Vec::new(alloc);
    for block in blocks {
        all.push(block.share(alloc)?)?;
    }
    all.push(last)?;
    Ok(Arc::new(alloc, all)?)
}

/// The blocks after a cut: as they were where no sample leaves the head, else one more, from the
/// floor up to the time.
fn blocks_after(alloc: Global, at: &Snapshot, time: i64) -> Result<Arc<Vec<Block>>, CommitError>
    requires timed { is_time time ≡ true }
    requires up { int_lt at.now.floor time ≡ true }
    ensures blocks { IfOk result (λ blocks.
        AreCutBlocks time at.now (map part_in (arc_value blocks).items)) }
    ensures refused { IfErr result (λ e.
        IsStepRefusal e (cut_off fits (world_of at.now) time (leaving time at.now))) }
{
    let rows = rows_below(alloc, at, time)?;
    if rows.is_empty() {
        return Ok(Arc::try_clone(&at.blocks)?);
    }
    if at.blocks.len() >= MAX_BLOCKS {
        return Err(CommitError::TooManyParts);
    }
    let range = Range::new(at.floor, time).unwrap();
    let rows = PartRows::new(rows).unwrap();
    let block = block_of(alloc, range, &rows)?;
    Ok(with_block(alloc, at.blocks.as_slice(), block)?)
}

/// The series whose newest sample is at the time or later, each with its samples from the time on,
/// and their order.
fn series_from(
    alloc: Global,
    head: &SeriesList,
    floor: i64,
    time: i64,
) -> Result<(SeriesList, Order), AllocError>
    requires few { length head.now ≤ MAX_SERIES }
    requires sound { IsSoundHead floor head.now }
    requires up { int_lt floor time ≡ true }
    ensures stay { IfOk result (λ made. made.0 ≡ head_cut time head.now) }
    ensures ordered { IfOk result (λ made. IsOrderOf made.1 made.0) }
{
    let mut draft = Draft::new(alloc, PagedList::new(alloc)?);
    let mut order = Order::new(alloc)?;
    for place in 0..head.len() {
        let series = head.at(place);
        if series.newest().t() < time {
            continue;
        }
        let left = series.without(alloc, floor, time - 1)?;
        begin(alloc, &mut draft, &mut order, left)?;
    }
    Ok((draft.into_list(alloc)?, order))
}

/// The head after a cut: the series that stay are numbered again from 1, in their old order.
fn head_from(alloc: Global, at: &Snapshot, time: i64) -> Result<HeadView, AllocError>
    requires { int_lt at.now.floor time ≡ true }
    ensures series { IfOk result (λ head. series_of head ≡ head_cut time at.now.head) }
    ensures copied { IfOk result (λ head. copied_of head ≡ 0) }
{
    let (series, order) = series_from(alloc, at.head.series(), at.floor, time)?;
    let index = HeadView::empty(alloc)?.index_of(alloc, &series)?;
    Ok(HeadView::of(series, order, index, 0))
}

/// The snapshot after a cut, whose floor is the time. The samples before it leave the head for a
/// block of their own.
pub(crate) fn cut_at(alloc: Global, at: &Snapshot, time: i64) -> Result<Snapshot, CommitError>
    requires { is_time time ≡ true }
    ensures ok { IfOk result (λ s. cut_at fits (world_of at.now) time ≡ Ok (world_of s)) }
    ensures refused { IfErr result (λ e. IsStepRefusal e (cut_at fits (world_of at.now) time)) }
    ensures kept { IfOk result (λ s. KeepsBlocks (cut time) at.now s.blocks) }
{
    if time <= at.floor {
        return Err(CommitError::CutTooLow);
    }
    let blocks = blocks_after(alloc, at, time)?;
    let head = head_from(alloc, at, time)?;
    Ok(Snapshot {
        blocks,
        head,
        floor: time,
    })
}
