//! Events, one after another.

ghost use Rattle.std.specs.Prelude.{◌≡◌, Ok, IfOk, IfErr};
ghost use Rattle.head.specs.Heads.{world_of};
ghost use Rattle.head.specs.Replaying.{DeleteNothing, RefusesAt, StandFirst};
ghost use Rattle.head.specs.Worlds.{replayed};

use crate::error::RefusedEvent;
use crate::event::Event;
use crate::snapshot::{Snapshot, apply};
use std::alloc::Global;

/// The snapshot after events, each applied to what those before it made; or the first that is
/// refused.
pub fn replay(alloc: Global, at: Snapshot, events: &[Event]) -> Result<Snapshot, RefusedEvent>
    ensures ok { IfOk result (λ s. replayed (world_of at) events.now ≡ Ok (world_of s)) }
    ensures refused { IfErr result (λ refused.
        RefusesAt (world_of at) events.now refused.at refused.error) }
    // If none of the events is a deletion, the blocks stay as they were, and those that cuts add
    // stand after them.
    ensures blocks { IfOk result (λ s. DeleteNothing events.now → StandFirst at.blocks s.blocks) }
{
    let mut snapshot = at;
    for place in 0..events.len() {
        match apply(alloc, &snapshot, &events[place]) {
            Ok(next) => snapshot = next,
            Err(error) => return Err(RefusedEvent { at: place, error }),
        }
    }
    Ok(snapshot)
}
