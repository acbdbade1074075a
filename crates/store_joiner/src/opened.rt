//! The store of a folder, with what its journal has saved.

ghost use Rattle.std.specs.Prelude.{◌≡◌, ◌⊎◌, List, [], IfErr, IfOk, MatchResult, Ok, map, true};
ghost use Rattle.data_folder.specs.Folders.{LeavesOnly, Untouched};
ghost use Rattle.data_folder.specs.Sweeping.{KeepsForeign};
ghost use Rattle.head.specs.Blocks.{part_in};
ghost use Rattle.head.specs.Heads.{BlockPart};
ghost use Rattle.head.specs.Resuming.{MayStand};
ghost use Rattle.head.specs.Worlds.{Event as Change};
ghost use Rattle.head_record.specs.Saved.{Saved};
ghost use Rattle.store_folder.specs.Faults.{IsStoreOf, TellsFiles};
ghost use Rattle.store_folder.specs.Finding.{IsFoundStore};
ghost use Rattle.store_folder.specs.Starting.{StartFinds};
ghost use Rattle.store_folder.specs.States.{IsAfter, MayStart, origin_of, started};
ghost use Rattle.store_folder.specs.Writing.{EachSays};
ghost use Rattle.store_joiner.specs.Finds.{BlocksSay};
ghost use Rattle.store_joiner.specs.Joins.{AreRolled};
ghost use Rattle.store_joiner.specs.Stores.{HasStoreFor, HasStore, IsLater, LeavesNow};

use crate::error::ChangeFault;
use data_folder::{Folder, RollError};
use std::alloc::Global;
use std::marker::Brand;
use std::thread::Threads;
use store_folder::{Beginning, FoundStore, RollFault, StartedStore, read_store, resume_store};

/// A folder, and the store that was found in it.
#[derive(Drop)]
pub(crate) struct Found<F: Drop> {
    pub(crate) folder: F,
    pub(crate) store: FoundStore,
}

/// The store of a folder, of which the journal has no events. Nothing is changed.
pub(crate) fn read_again<R: Threads + Sync, F: Folder + Drop>(
    rt: &R,
    alloc: Global,
    folder: F,
) -> Result<Found<F>, (ChangeFault, F)>
    requires { F.sound folder ≡ true }
    ensures sound { IfOk result (λ found. F.sound found.folder ≡ true) }
    ensures found { IfOk result (λ found. IsFoundStore F.shows F.kept found.store.journal
        (map part_in found.store.blocks.items) found.folder) }
    ensures saved { IfOk result (λ found. found.store.journal.events.items ≡ []) }
    ensures untouched { MatchResult result
        (λ found. Untouched F.shows F.kept F.moment F.left_since folder found.folder)
        (λ e. Untouched F.shows F.kept F.moment F.left_since folder e.1) }
    // Of a folder that tells what its files have it is the store that lies there.
    ensures only { TellsFiles F.shows → (saved : Saved) (parts : List BlockPart)
        (events : List Change) → HasStore F.shows F.kept saved parts events folder
        → IfOk result (λ found. IsStoreOf saved parts events found.store) }
    ensures later { IfErr result (λ e. IsLater e.0) }
{
    let mut folder = folder;
    match read_store(rt, alloc, &mut folder) {
        Ok(found) => match found {
            Some(store) => {
                if store.journal.events.is_empty() {
                    Ok(Found { folder, store })
                } else {
                    Err((ChangeFault::Changed, folder))
                }
            }
            None => Err((ChangeFault::Changed, folder)),
        },
        Err(error) => Err((ChangeFault::Again(error), folder)),
    }
}

/// Saves what the events of a store's journal make, in their place. The folder.
fn save_events<N: Beginning, F: Folder + Drop>(
    alloc: Global,
    found: Found<F>,
) -> Result<F, (ChangeFault, F)>
    requires sound { F.sound found.folder ≡ true }
    requires found { IsFoundStore F.shows F.kept found.store.journal
        (map part_in found.store.blocks.items) found.folder }
    requires first { N.first ≡ origin_of found.store.journal.head
        (map part_in found.store.blocks.items) }
    ensures sound { IfOk result (λ folder. F.sound folder ≡ true) }
    // A crash at any moment of the call leaves what stands for the same events.
    ensures any_moment { MatchResult result
        (λ folder. StartFinds F.moment F.left_since found.folder folder N.first
        found.store.journal.events.items)
        (λ e. StartFinds F.moment F.left_since found.folder e.1 N.first
        found.store.journal.events.items) }
    // If the head and the blocks that were found may be a snapshot, then so may those that a crash
    // at any moment of the call leaves.
    ensures starts { MayStand (started found.store.journal.head
        (map part_in found.store.blocks.items))
        → MatchResult result
        (λ x. LeavesOnly F.moment F.left_since found.folder x MayStart)
        (λ e. LeavesOnly F.moment F.left_since found.folder e.1 MayStart) }
    ensures has { IfOk result (λ folder. HasStoreFor F.shows F.kept N.first
        found.store.journal.events.items folder) }
    // A start makes a snapshot of the new head and its blocks. If each block said what the head
    // said, so it is with the new one. The new blocks lie above those that were found.
    ensures stands { IfOk result (λ folder. (saved : Saved) × (parts : List BlockPart)
        × HasStore F.shows F.kept saved parts [] folder × MayStand (started saved parts)
        × (EachSays F.shows F.kept found.store.journal.head.values
        found.store.journal.head.places found.folder
        → EachSays F.shows F.kept saved.values saved.places folder)
        × AreRolled found.store.journal.head.places saved.places) }
    // So it is after an `Err`, whatever a crash leaves now, unless `Lost` is told.
    ensures says_stays { EachSays F.shows F.kept found.store.journal.head.values
        found.store.journal.head.places found.folder → IfErr result (λ e.
        (e.0 ≡ ChangeFault.Roll (RollFault.Folder RollError.Lost) → ⊥)
        → LeavesNow F.moment F.left_since e.1 BlocksSay) }
    ensures later { IfErr result (λ e. IsLater e.0) }
    ensures foreign { MatchResult result
        (λ x. KeepsForeign F.shows F.kept found.folder x)
        (λ e. KeepsForeign F.shows F.kept found.folder e.1) }
{
    let Found { folder, store } = found;
    let kept: StartedStore<N, F> = match resume_store(alloc, folder, store, 0) {
        Ok(kept) => kept,
        Err((error, folder)) => return Err((ChangeFault::Resume(error), folder)),
    };
    let StartedStore {
        snapshot,
        keeper,
        ..
    } = kept;
    let mut keeper = keeper;
    match keeper.roll(alloc, &snapshot) {
        Ok(_) => Ok(keeper.store.events.journal.medium.folder),
        Err(fault) => Err((
            ChangeFault::Roll(fault),
            keeper.store.events.journal.medium.folder,
        )),
    }
}

/// A store with what its journal has saved: the journal has no events.
pub(crate) fn save<R: Threads + Sync, F: Folder + Drop>(
    rt: &R,
    alloc: Global,
    found: Found<F>,
) -> Result<Found<F>, (ChangeFault, F)>
    requires sound { F.sound found.folder ≡ true }
    requires found { IsFoundStore F.shows F.kept found.store.journal
        (map part_in found.store.blocks.items) found.folder }
    ensures sound { IfOk result (λ x. F.sound x.folder ≡ true) }
    ensures found { IfOk result (λ x. IsFoundStore F.shows F.kept x.store.journal
        (map part_in x.store.blocks.items) x.folder) }
    ensures saved { IfOk result (λ x. x.store.journal.events.items ≡ []) }
    // A crash at any moment of the call leaves what stands for the same events.
    ensures any_moment { MatchResult result
        (λ x. StartFinds F.moment F.left_since found.folder x.folder
        (origin_of found.store.journal.head (map part_in found.store.blocks.items))
        found.store.journal.events.items)
        (λ e. StartFinds F.moment F.left_since found.folder e.1
        (origin_of found.store.journal.head (map part_in found.store.blocks.items))
        found.store.journal.events.items) }
    // If the head and the blocks that were found may be a snapshot, then so may those that a crash
    // at any moment of the call leaves.
    ensures starts { MayStand (started found.store.journal.head
        (map part_in found.store.blocks.items))
        → MatchResult result
        (λ x. LeavesOnly F.moment F.left_since found.folder x.folder MayStart)
        (λ e. LeavesOnly F.moment F.left_since found.folder e.1 MayStart) }
    // Of a folder that tells what its files have, the store then begins with the world that the
    // events make, and its values mean what they meant.
    ensures after { TellsFiles F.shows → IfOk result (λ x. IsAfter
        (origin_of found.store.journal.head (map part_in found.store.blocks.items))
        found.store.journal.events.items x.store.journal.head
        (map part_in x.store.blocks.items)) }
    // Its blocks lie where they lay, or the new ones above those.
    ensures numbers { TellsFiles F.shows → IfOk result (λ x.
        (x.store.journal.head.places ≡ found.store.journal.head.places)
        ⊎ AreRolled found.store.journal.head.places x.store.journal.head.places) }
    // If each block says what the head says, so it is then.
    ensures says { TellsFiles F.shows → EachSays F.shows F.kept
        found.store.journal.head.values found.store.journal.head.places found.folder
        → IfOk result (λ x. EachSays F.shows F.kept x.store.journal.head.values
        x.store.journal.head.places x.folder) }
    // A start makes a snapshot of it, if it does so of what was found, or there were events.
    ensures may { TellsFiles F.shows → (found.store.journal.events.items ≡ [] → MayStand
        (started found.store.journal.head (map part_in found.store.blocks.items)))
        → IfOk result (λ x. MayStand
        (started x.store.journal.head (map part_in x.store.blocks.items))) }
    // After an `Err` each block says so, whatever a crash leaves now, unless `Lost` is told.
    ensures says_stays { EachSays F.shows F.kept found.store.journal.head.values
        found.store.journal.head.places found.folder → IfErr result (λ e.
        (e.0 ≡ ChangeFault.Roll (RollFault.Folder RollError.Lost) → ⊥)
        → LeavesNow F.moment F.left_since e.1 BlocksSay) }
    ensures later { IfErr result (λ e. IsLater e.0) }
    ensures foreign { MatchResult result
        (λ x. KeepsForeign F.shows F.kept found.folder x.folder)
        (λ e. KeepsForeign F.shows F.kept found.folder e.1) }
{
    if found.store.journal.events.is_empty() {
        return Ok(found);
    }
    match save_events::<Brand, F>(alloc, found) {
        Ok(folder) => read_again(rt, alloc, folder),
        Err(fault) => Err(fault),
    }
}
