//! The step of a join.

ghost use Rattle.std.specs.Prelude.{◌≡◌, ◌≤◌, ◌<◌, ◌+◌, ◌++◌, Ok, IfOk, OnOk, drop, length};
ghost use Rattle.std.specs.Prelude.{map, take};
ghost use Rattle.std.specs.Arc.{arc_value};
ghost use Rattle.head.specs.Blocks.{part_in};
ghost use Rattle.head.specs.Heads.{EndBy, world_of};
ghost use Rattle.head.specs.Joins.{HoldSame, blocks_joined, snapshot_joined};
ghost use Rattle.head.specs.Kept.{KeepsBlocks};
ghost use Rattle.head.specs.Worlds.{joined, stepped};

use crate::snapshot::Snapshot;
use block::Block;
use std::alloc::{AllocError, Global};
use std::sync::Arc;

/// Adds blocks to others. They share their files.
fn share_into(alloc: Global, blocks: &[Block], all: &mut Vec<Block>) -> Result<(), AllocError>
    ensures { OnOk result (map part_in all.new.items
        ≡ map part_in all.old.items ++ map part_in blocks.now) }
{
    for block in blocks {
        all.push(block.share(alloc)?)?;
    }
    Ok(())
}

/// The blocks, with others in the place of so many from a place on.
fn blocks_with(
    alloc: Global,
    blocks: &[Block],
    place: usize,
    count: usize,
    made: &[Block],
) -> Result<Arc<Vec<Block>>, AllocError>
    requires { place + count ≤ length blocks.now }
    ensures { IfOk result (λ all. map part_in (arc_value all).items
        ≡ blocks_joined place count (map part_in made.now) (map part_in blocks.now)) }
{
    let mut all = Vec::new(alloc);
    share_into(alloc, blocks.split_at(place).0, &mut all)?;
    share_into(alloc, made, &mut all)?;
    share_into(alloc, blocks.split_at(place + count).1, &mut all)?;
    Ok(Arc::new(alloc, all)?)
}

/// The snapshot with blocks in the place of so many of its own from a place on. They are fewer,
/// hold the same and end at or below the floor (the caller's conditions): so it has the world that
/// the step of the join makes, which is that of the snapshot but for the number of blocks. It
/// shares the head, and the files of all its blocks.
pub fn apply_joined(
    alloc: Global,
    at: &Snapshot,
    place: usize,
    count: usize,
    made: &[Block],
) -> Result<Snapshot, AllocError>
    requires within { place + count ≤ length at.now.blocks }
    requires fewer { length made.now < count }
    requires same { HoldSame (take count (drop place at.now.blocks)) (map part_in made.now) }
    requires ends { EndBy at.now.floor (map part_in made.now) }
    ensures made { IfOk result (λ s.
        s ≡ snapshot_joined place count (map part_in made.now) at.now) }
    ensures ok { IfOk result (λ s.
        stepped (world_of at.now) (joined place count (length made.now)) ≡ Ok (world_of s)) }
    ensures kept { IfOk result (λ s.
        KeepsBlocks (joined place count (length made.now)) at.now s.blocks) }
{
    let blocks = blocks_with(alloc, at.blocks.as_slice(), place, count, made)?;
    let head = at.head.again()?;
    Ok(Snapshot {
        blocks,
        head,
        floor: at.floor,
    })
}
