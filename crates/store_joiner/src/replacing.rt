//! A store that was found, with another in its place.

ghost use Rattle.std.specs.Prelude.{◌≡◌, [], IfErr, IfOk, MatchResult, map, true};
ghost use Rattle.data_folder.specs.Folders.{LeavesOnly};
ghost use Rattle.data_folder.specs.Sweeping.{KeepsForeign};
ghost use Rattle.head.specs.Blocks.{part_in};
ghost use Rattle.head.specs.Heads.{world_of};
ghost use Rattle.head.specs.Resuming.{MayStand};
ghost use Rattle.store_folder.specs.Finding.{IsFoundStore};
ghost use Rattle.store_folder.specs.States.{MayStart, origin_of, started};
ghost use Rattle.store_folder.specs.Writing.{EachSays};
ghost use Rattle.store_joiner.specs.Finds.{BlocksSay, FindsEither, FindsNow, other_of};
ghost use Rattle.store_joiner.specs.Stores.{IsLater, LeavesNow, SaysAbove, SaysOne};

use crate::error::ChangeFault;
use crate::opened::Found;
use crate::storing::replace_store;
use data_folder::{Folder, RollError};
use head::{ResumeError, Snapshot};
use std::alloc::Global;
use store_folder::{Beginning, RollFault, StartError, StoreJournal};

/// Has a store of which the journal has no events begin with another snapshot. The folder.
pub(crate) fn replace<N: Beginning, F: Folder + Drop>(
    alloc: Global,
    found: Found<F>,
    next: &Snapshot,
) -> Result<F, (ChangeFault, F)>
    requires sound { F.sound found.folder ≡ true }
    requires found { IsFoundStore F.shows F.kept found.store.journal
        (map part_in found.store.blocks.items) found.folder }
    requires saved { found.store.journal.events.items ≡ [] }
    requires first { N.first ≡ origin_of found.store.journal.head
        (map part_in found.store.blocks.items) }
    // A crash at any moment of the call leaves a store without events: a start finds it as it was,
    // or the other. The values mean what they meant.
    ensures any_moment { MatchResult result
        (λ folder. FindsEither F.moment F.left_since found.folder folder N.first
        (world_of next.now))
        (λ e. FindsEither F.moment F.left_since found.folder e.1 N.first
        (world_of next.now)) }
    // If the head and the blocks that were found may be a snapshot, then so may those that a crash
    // at any moment of the call leaves.
    ensures starts { MayStand (started found.store.journal.head
        (map part_in found.store.blocks.items))
        → MatchResult result
        (λ x. LeavesOnly F.moment F.left_since found.folder x MayStart)
        (λ e. LeavesOnly F.moment F.left_since found.folder e.1 MayStart) }
    // After `Ok` it finds the other.
    ensures finds { IfOk result (λ folder.
        FindsNow F.moment F.left_since folder (other_of N.first (world_of next.now))) }
    ensures says { IfOk result (SaysOne F.shows F.kept) }
    ensures numbers { IfOk result (SaysAbove F.shows F.kept found.store.journal.head.places) }
    // After an `Err` it finds it as it was, unless the journal was lost.
    ensures stays { IfErr result (λ e.
        (e.0 ≡ ChangeFault.Roll (RollFault.Folder RollError.Lost) → ⊥)
        → FindsNow F.moment F.left_since e.1 N.first) }
    ensures says_stays { EachSays F.shows F.kept found.store.journal.head.values
        found.store.journal.head.places found.folder → IfErr result (λ e.
        (e.0 ≡ ChangeFault.Roll (RollFault.Folder RollError.Lost) → ⊥)
        → LeavesNow F.moment F.left_since e.1 BlocksSay) }
    ensures later { IfErr result (λ e. IsLater e.0) }
    ensures foreign { MatchResult result
        (λ x. KeepsForeign F.shows F.kept found.folder x)
        (λ e. KeepsForeign F.shows F.kept found.folder e.1) }
{
    let Found { folder, store } = found;
    let Ok(names) = store.journal.names.copied(alloc) else {
        let none = StartError::Head(ResumeError::Memory);
        return Err((ChangeFault::Resume(none), folder));
    };
    let journal: StoreJournal<N, F> = match StoreJournal::resume(folder, names, &store.journal) {
        Ok(journal) => journal,
        Err((_, folder)) => return Err((ChangeFault::Resume(StartError::Medium), folder)),
    };
    match replace_store(alloc, journal, store.journal.head.places(), next) {
        Ok(replaced) => Ok(replaced.folder),
        Err((fault, folder)) => Err((ChangeFault::Roll(fault), folder)),
    }
}
