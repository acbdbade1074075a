//! The snapshot of a store with its blocks joined.

ghost use Rattle.std.specs.Prelude.{◌≡◌, ◌≤◌, IfOk, length, map};
ghost use Rattle.head.specs.Blocks.{part_in};
ghost use Rattle.head.specs.Heads.{world_of};
ghost use Rattle.store_folder.specs.States.{started};
ghost use Rattle.store_joiner.specs.Joins.{with_blocks};

use block_joiner::join_blocks;
use head::{ResumeError, Snapshot};
use std::alloc::Global;
use store_folder::FoundStore;

/// The snapshot of a store of which the journal has no events, with its blocks joined into fewer,
/// if that can be.
pub fn joined_snapshot(alloc: Global, store: &FoundStore) -> Result<Snapshot, ResumeError>
    // Its world is the store's, but for the number of blocks.
    ensures world { IfOk result (λ s. world_of s ≡ with_blocks (length s.blocks)
        (world_of (started store.now.journal.head (map part_in store.now.blocks.items)))) }
    ensures few { IfOk result (λ s. length s.blocks ≤ length store.now.blocks.items) }
{
    let Ok(blocks) = join_blocks(alloc, &store.blocks) else {
        return Err(ResumeError::Memory);
    };
    let head = &store.journal.head;
    Snapshot::resumed(alloc, blocks, head.floor(), head.series())
}
