//! The snapshot of a store with blocks beneath its own.

ghost use Rattle.std.specs.Prelude.{◌≡◌, ◌++◌, IfErr, IfOk, map};
ghost use Rattle.std.specs.Int.{int_max};
ghost use Rattle.head.specs.Blocks.{part_in};
ghost use Rattle.head.specs.Heads.{world_of};
ghost use Rattle.head.specs.Resuming.{Denies, MayStand};
ghost use Rattle.store_folder.specs.States.{started};
ghost use Rattle.store_joiner.specs.Adds.{beneath, with_beneath};

use block::Block;
use block_joiner::share_into;
use head::{ResumeError, Snapshot};
use head_record::HeadRecord;
use std::alloc::{AllocError, Global};
use store_folder::FoundStore;

/// Blocks, and others behind them. They share their files.
fn blocks_of(alloc: Global, first: &[Block], more: &[Block]) -> Result<Vec<Block>, AllocError>
    ensures { IfOk result (λ blocks.
        map part_in blocks.items ≡ map part_in first.now ++ map part_in more.now) }
{
    let mut blocks = Vec::new(alloc);
    share_into(alloc, first, &mut blocks)?;
    share_into(alloc, more, &mut blocks)?;
    Ok(blocks)
}

/// The greater floor.
fn floor_of(head: &HeadRecord, opening: &Snapshot) -> i64
    ensures { result ≡ int_max head.now.floor opening.now.floor }
{
    head.floor().max(opening.floor())
}

/// The snapshot of a store of which the journal has no events, with the blocks of an opening before
/// its own: where both have a sample of one label set at one time, the store's stands. The floor is
/// the greater one. `J17` refuses more than 63 blocks, and a floor above samples of the head.
pub fn added_snapshot(
    alloc: Global,
    opening: &Snapshot,
    store: &FoundStore,
) -> Result<Snapshot, ResumeError>
    ensures made { IfOk result (λ s. s ≡ beneath opening.now.blocks opening.now.floor
        store.now.journal.head (map part_in store.now.blocks.items)) }
    ensures world { IfOk result (λ s. world_of s ≡ with_beneath opening.now.blocks opening.now.floor
        (world_of (started store.now.journal.head (map part_in store.now.blocks.items)))) }
    ensures refused { IfErr result (λ e. Denies e (MayStand (beneath opening.now.blocks
        opening.now.floor store.now.journal.head (map part_in store.now.blocks.items)))) }
{
    let Ok(blocks) = blocks_of(alloc, opening.blocks(), &store.blocks) else {
        return Err(ResumeError::Memory);
    };
    let head = &store.journal.head;
    let floor = floor_of(head, opening);
    Snapshot::resumed(alloc, blocks, floor, head.series())
}
