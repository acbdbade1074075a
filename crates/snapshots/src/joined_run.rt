//! Blocks that are to be joined, and the snapshot after that.

ghost use Rattle.std.specs.Prelude.{◌≡◌, ◌⊎◌, ◌≤◌, ◌<◌, ◌+◌, IfErr, IfOk, MatchBool, drop, length};
ghost use Rattle.std.specs.Prelude.{map, take};
ghost use Rattle.std.specs.Arc.{arc_value};
ghost use Rattle.head.specs.Blocks.{part_in};
ghost use Rattle.head.specs.Heads.{EndBy};
ghost use Rattle.head.specs.Joins.{HoldSame};
ghost use Rattle.snapshots.specs.Replays.{Steps};
ghost use Rattle.snapshots.specs.Runs.{join_of};

use crate::change::AsEvent;
use crate::error::JoinError;
use block::Block;
use head::{Snapshot, apply_joined};
use std::alloc::Global;
use std::marker::Model;
use std::sync::Arc;

/// Blocks that are to take the place of some that stand side by side in a store. They are fewer,
/// and hold the same. Contracts see it as the place, the blocks that were there, and the new ones.
#[derive(Drop)]
pub struct JoinedRun {
    at: usize,
    was: Vec<Block>,
    made: Vec<Block>,
}

impl Model for JoinedRun {
    ghost use Rattle.std.specs.Prelude.{map};
    ghost use Rattle.head.specs.Blocks.{part_in};
    ghost use Rattle.snapshots.specs.Runs.{IsJoinable, RunView};

    ghost Value = { RunView };

    ghost view = { λ run. record {
      at = run.at;
      was = map part_in run.was.items;
      made = map part_in run.made.items;
    } };

    ghost invariant = { λ run. IsJoinable (record {
      at = run.at;
      was = map part_in run.was.items;
      made = map part_in run.made.items;
    }) };
}

impl AsEvent for JoinedRun {
    ghost event = { λ run. join_of run };
}

impl JoinedRun {
    /// The new blocks, in the place of those that stand from this one on.
    pub fn of(at: usize, was: Vec<Block>, made: Vec<Block>) -> JoinedRun
        requires fewer { length made.items < length was.items }
        requires same { HoldSame (map part_in was.items) (map part_in made.items) }
        ensures { result ≡ record {
          at = at;
          was = map part_in was.items;
          made = map part_in made.items;
        } }
    {
        JoinedRun { at, was, made }
    }
}

/// Whether the others stand from this place on.
fn stand_at(blocks: &[Block], place: usize, others: &[Block]) -> bool
    ensures { MatchBool result ((place + length others.now ≤ length blocks.now)
        × (take (length others.now) (drop place blocks.now) ≡ others.now)) (Unit {0}) }
{
    if place > blocks.len() {
        return false;
    }
    let behind = blocks.split_at(place).1;
    if others.len() > behind.len() {
        return false;
    }
    for at in 0..others.len() {
        if !behind[at].is_same(&others[at]) {
            return false;
        }
    }
    true
}

/// Whether the range of each block ends at or below the floor.
fn end_by(blocks: &[Block], floor: i64) -> bool
    ensures { MatchBool result (EndBy floor (map part_in blocks.now)) (Unit {0}) }
{
    for block in blocks {
        if block.range().max() > floor {
            return false;
        }
    }
    true
}

/// The snapshot after a join, to be shared. `E9` if other blocks stand at the place, or a new one
/// ends above the floor.
pub(crate) fn snapshot_with(
    alloc: Global,
    at: &Snapshot,
    run: &JoinedRun,
) -> Result<Arc<Snapshot>, JoinError>
    ensures ok { IfOk result (λ s. Steps at.now (join_of run.now) (arc_value s)) }
    ensures refused { IfErr result (λ e. (e ≡ JoinError.Stale) ⊎ (e ≡ JoinError.Memory)) }
{
    if !stand_at(at.blocks(), run.at, &run.was) {
        return Err(JoinError::Stale);
    }
    if !end_by(&run.made, at.floor()) {
        return Err(JoinError::Stale);
    }
    let Ok(snapshot) = apply_joined(alloc, at, run.at, run.was.len(), &run.made) else {
        return Err(JoinError::Memory);
    };
    match Arc::new(alloc, snapshot) {
        Ok(shared) => Ok(shared),
        Err(_) => Err(JoinError::Memory),
    }
}
