//! All runs of a journal.

ghost use Rattle.std.specs.Prelude.{◌≡◌, ◌+◌, ◌<◌, ◌^◌, IfOk};
ghost use Rattle.kept_walk.specs.Kept.{event_of};
ghost use Rattle.kept_world.specs.Births.{AreBornBy};
ghost use Rattle.kept_world.specs.Changes.{events_of};
ghost use Rattle.state_search.specs.Firsts.{GrowsBetween};
ghost use Rattle.state_search.specs.Searching.{IsSearch, IsOfRun, IsLook, IsBefore};

use crate::run::find_in_run;
use crate::told::Told;
use kept_walk::Change;
use kept_world::World;
use std::alloc::{AllocError, Global};

/// What a search says.
#[derive(Clone, Copy, Debug, PartialEq, Eq, Drop)]
pub enum Search {
    /// The reply is right of the state after so many events.
    Found(usize),
    /// It is right of none.
    Nowhere,
    /// The event at this place, from 0, is one that no store accepted.
    Refused(usize),
}

/// After how many events the present run begins, and the newest right state of the runs before it.
#[derive(Clone, Copy, Debug, Drop)]
struct Progress {
    from: usize,
    found: Option<usize>,
}

/// A right state of a run that has ended.
fn find_of_run<T: Told>(
    alloc: Global,
    told: &T,
    world: &World,
    from: usize,
    since: usize,
) -> Result<Option<usize>, AllocError>
    requires { GrowsBetween from world.now.number world.now.head }
    ensures { IfOk result (λ found.
        IsOfRun (T.right told.now) (T.sound told.now) since from world.now found) }
{
    let until = world.number();
    let from = if from < since { since } else { from };
    if until < from {
        return Ok(None);
    }
    match find_in_run(alloc, world, told, from, until)? {
        Some(at) => {
            if told.is_right_of(alloc, world.blocks())? {
                return Ok(Some(at));
            }
            Ok(None)
        }
        None => Ok(None),
    }
}

/// The newest right state, once a run has ended.
fn look<T: Told>(
    alloc: Global,
    told: &T,
    world: &World,
    since: usize,
    progress: Progress,
) -> Result<Option<usize>, AllocError>
    requires { GrowsBetween progress.from world.now.number world.now.head }
    ensures { IfOk result (λ found.
        IsLook (T.right told.now) (T.sound told.now) since world.now progress found) }
{
    match find_of_run(alloc, told, world, progress.from, since)? {
        Some(at) => Ok(Some(at)),
        None => Ok(progress.found),
    }
}

/// What is known before the next change: a run ends before a deletion and before a cut.
fn before<T: Told>(
    alloc: Global,
    told: &T,
    world: &World,
    since: usize,
    progress: Progress,
    change: &Change,
) -> Result<Progress, AllocError>
    requires fits { world.now.number + 1 < 2 ^ 64 }
    requires grows { GrowsBetween progress.from world.now.number world.now.head }
    ensures { IfOk result (λ new. IsBefore (T.right told.now) (T.sound told.now) since world.now
        (event_of change.now) progress new) }
{
    match change {
        Change::Batch(_) => Ok(progress),
        Change::Deletion(_, _, _) | Change::Cut(_) => {
            let found = look(alloc, told, world, since, progress)?;
            let from = world.number() + 1;
            Ok(Progress { from, found })
        }
    }
}

/// The newest state of which what is told is right, not before `since` events: after how many
/// events of the changes it is. The world is one at which no event has happened.
///
/// Each change is replayed once. At the end of each run of batches the last state is tried, and
/// then the first whose head has all that is shown; the blocks are looked at where the head is
/// right.
pub fn find_state<T: Told>(
    alloc: Global,
    world: World,
    changes: &[Change],
    told: &T,
    since: usize,
) -> Result<Search, AllocError>
    requires begins { world.number ≡ 0 }
    requires born { AreBornBy 0 world.head }
    ensures { IfOk result (λ search. IsSearch (T.right told.now) (T.sound told.now) since world
        (events_of changes.now) search) }
{
    let mut world = world;
    let mut progress = Progress {
        from: 0,
        found: None,
    };
    for (i, change) in changes.iter().enumerate() {
        progress = before(alloc, told, &world, since, progress, change)?;
        match world.step(alloc, change)? {
            Some(next) => world = next,
            None => return Ok(Search::Refused(i)),
        }
    }
    match look(alloc, told, &world, since, progress)? {
        Some(at) => Ok(Search::Found(at)),
        None => Ok(Search::Nowhere),
    }
}
