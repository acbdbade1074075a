//! Snapshots, and the step of an event.

ghost use Rattle.std.specs.Prelude.{◌≡◌, ◌≤◌, ◌*◌, IsTrue, true, Ok, Some, IfOk, IfErr, IfSome};
ghost use Rattle.std.specs.Prelude.{IfNone, length, slice_get};
ghost use Rattle.labels.specs.Contents.{is_time};
ghost use Rattle.head.specs.Heads.{world_of, IsSoundSnapshot};
ghost use Rattle.head.specs.Batches.{is_batch, set_count, CopiesFew};
ghost use Rattle.head.specs.BatchRows.{batch_of_rows, batch_in};
ghost use Rattle.head.specs.Joins.{IsNoJoin};
ghost use Rattle.head.specs.Kept.{KeepsBlocks};
ghost use Rattle.head.specs.Worlds.{stepped, committed, batch};
ghost use Rattle.head.specs.OnWay.{with_slots, IsReached};
ghost use Rattle.head.specs.Orders.{IsOrderOf};
ghost use Rattle.head.specs.Outcomes.{IsStepRefusal};
ghost use Rattle.head.specs.Slots.{series_in_each};

use crate::adding::add_each;
use crate::cut::cut_at;
use crate::deletion::snapshot_without;
use crate::draft::{Draft, Samples};
use crate::error::CommitError;
use crate::event::{Event, EventView};
use crate::head::HeadView;
use crate::order::Order;
use crate::row_batch::RowBatch;
use block::Block;
use labels::MIN_TIME;
use postings::PartName;
use std::alloc::{AllocError, Global};
use std::marker::Model;
use std::sync::Arc;

/// An unchanging list of blocks and one head.
#[derive(Drop)]
pub struct Snapshot {
    pub(crate) blocks: Arc<Vec<Block>>,
    pub(crate) head: HeadView,
    pub(crate) floor: i64,
}

impl Model for Snapshot {
    ghost use Rattle.head.specs.Heads.{SnapshotParts, IsSoundSnapshot};

    ghost Value = { SnapshotParts };

    ghost use Rattle.head.specs.Snapshots.{parts_in};

    ghost view = { parts_in };

    ghost invariant = { λ s. IsSoundSnapshot (parts_in s) };
}

ghost use Rattle.head.specs.Blocks.{part_in, opening_of, opening_floor, EachInside, part_names};
ghost use Rattle.head.specs.Shown.{series_of, copied_of};
ghost use Rattle.std.specs.Prelude.{[], map};

/// The greatest end of the blocks' ranges, or the smallest time where there is no block.
pub(crate) fn floor_of(blocks: &[Block]) -> i64
    ensures floor { result ≡ opening_floor (map part_in blocks.now) }
    ensures time { is_time result ≡ true }
    ensures inside { EachInside blocks.now }
{
    let mut floor = MIN_TIME;
    for block in blocks {
        floor = floor.max(block.range().max());
    }
    floor
}

impl Snapshot {
    /// The snapshot of these blocks and an empty head. The floor is the greatest end of a block's
    /// range, or the smallest time where there is no block. There are at most 63 blocks (the
    /// caller's condition), in any order; their ranges may overlap, and where two have a sample of
    /// one label set at one time the later block's stands.
    pub fn opening(alloc: Global, blocks: Vec<Block>) -> Result<Snapshot, AllocError>
        requires { length blocks.items ≤ 63 }
        ensures { IfOk result (λ s. s ≡ opening_of (map part_in blocks.items)) }
    {
        let floor = floor_of(blocks.as_slice());
        let head = HeadView::empty(alloc)?;
        Ok(Snapshot {
            blocks: Arc::new(alloc, blocks)?,
            head,
            floor,
        })
    }

    /// The names of the parts, 64 at most: the blocks in their order, and then the head.
    pub fn parts(&self, alloc: Global) -> Result<Vec<PartName>, AllocError>
        ensures names { IfOk result (λ names. names.items ≡ part_names (length self.now.blocks)) }
        ensures few { IfOk result (λ names. length names.items ≤ 64) }
    {
        let mut names = Vec::new(alloc);
        for n in 0..self.blocks.len() {
            names.push(PartName::Block(n))?;
        }
        names.push(PartName::Head)?;
        Ok(names)
    }

    /// The blocks in their order.
    pub fn blocks(&self) -> &[Block]
        ensures { map part_in result.now ≡ self.now.blocks }
    {
        self.blocks.as_slice()
    }

    /// The block with this number.
    pub fn block(&self, n: usize) -> Option<&Block>
        ensures none { IfNone result (length self.now.blocks ≤ n) }
        ensures some { IfSome result (λ b. slice_get self.now.blocks n ≡ Some (part_in b.now)) }
    {
        self.blocks.get(n)
    }

    /// The floor, in milliseconds: a time. The range of each block ends at or below it, also of a
    /// block without a sample; no block has a sample from it on, and the head has none before it.
    pub fn floor(&self) -> i64
        ensures floor { result ≡ self.now.floor }
        ensures sound { IsSoundSnapshot self.now }
    {
        self.floor
    }

    /// The head.
    pub fn head(&self) -> &HeadView
        ensures series { series_of result.now ≡ self.now.head }
        ensures copied { copied_of result.now ≡ self.now.copied }
    {
        &self.head
    }
}

/// The snapshot with a version in the making for its head, which a batch has come to.
pub(crate) fn snapshot_of(
    alloc: Global,
    at: &Snapshot,
    draft: Draft,
    order: Order,
    copied: u64,
) -> Result<Snapshot, AllocError>
    requires ordered { IsOrderOf order (series_in_each draft) }
    requires reached { IsReached at.now draft }
    ensures world { IfOk result (λ s. world_of s ≡ world_of (with_slots at.now draft)) }
    ensures kept { IfOk result (λ s. s.blocks ≡ at.now.blocks) }
    ensures copied { IfOk result (λ s. s.copied ≡ copied) }
{
    let blocks = Arc::try_clone(&at.blocks)?;
    let series = draft.into_list(alloc)?;
    let index = at.head.index_of(alloc, &series)?;
    Ok(Snapshot {
        blocks,
        head: HeadView::of(series, order, index, copied),
        floor: at.floor,
    })
}

fn snapshot_with(alloc: Global, at: &Snapshot, batch: Samples<'_>) -> Result<Snapshot, CommitError>
    requires { IsTrue (is_batch (batch_in batch)) }
    ensures ok { IfOk result (λ s.
        committed (world_of at.now) (batch_in batch.entry) ≡ Ok (world_of s)) }
    ensures refused { IfErr result (λ e.
        IsStepRefusal e (committed (world_of at.now) (batch_in batch.entry))) }
    ensures kept { IfOk result (λ s. s.blocks ≡ at.now.blocks) }
    ensures copied { IfOk result (λ s. s.copied ≤ 119 * set_count (batch_in batch.entry)) }
{
    let last = at.head.series().try_clone()?;
    let mut order = at.head.order().try_clone()?;
    let mut draft = Draft::new(alloc, last);
    let copied = add_each(alloc, &mut draft, &mut order, at.floor, batch)?;
    let snapshot = snapshot_of(alloc, at, draft, order, copied)?;
    Ok(snapshot)
}

/// The snapshot after an event. It shares with the one before what the event leaves alone: a batch
/// reports at most 119 copied samples for each of its label sets and keeps the blocks; a cut keeps
/// the blocks too, and adds at most one. A refusal leaves no trace.
pub fn apply(alloc: Global, at: &Snapshot, event: &Event) -> Result<Snapshot, CommitError>
    ensures ok { IfOk result (λ s. stepped (world_of at.now) event.now ≡ Ok (world_of s)) }
    ensures refused { IfErr result (λ e.
        IsStepRefusal e (stepped (world_of at.now) event.now)) }
    ensures kept { IfOk result (λ s. KeepsBlocks event.now at.now s.blocks) }
    ensures copied { IfOk result (λ s. CopiesFew event.now s.copied) }
    ensures unjoined { IsNoJoin event.now }
{
    match event.view() {
        EventView::Batch(samples) => snapshot_with(alloc, at, Samples::Pairs(samples)),
        EventView::Deletion(matchers, from, to) => {
            Ok(snapshot_without(alloc, at, matchers, from, to)?)
        }
        EventView::Cut(time) => cut_at(alloc, at, time),
    }
}

/// The snapshot after a batch of rows: what [`apply`] gives for the batch of their samples in their
/// order, each with its label set. It looks for each label set once a row.
pub fn apply_rows(alloc: Global, at: &Snapshot, rows: &RowBatch) -> Result<Snapshot, CommitError>
    ensures ok { IfOk result (λ s.
        stepped (world_of at.now) (batch (batch_of_rows rows.now)) ≡ Ok (world_of s)) }
    ensures refused { IfErr result (λ e.
        IsStepRefusal e (stepped (world_of at.now) (batch (batch_of_rows rows.now)))) }
    ensures kept { IfOk result (λ s.
        KeepsBlocks (batch (batch_of_rows rows.now)) at.now s.blocks) }
    ensures copied { IfOk result (λ s. CopiesFew (batch (batch_of_rows rows.now)) s.copied) }
{
    snapshot_with(alloc, at, Samples::Rows(rows.rows()))
}
