//! A store that begins with another snapshot.

ghost use Rattle.std.specs.Prelude.{◌≡◌, List, [], false, length, IfErr, IfOk, MatchResult};
ghost use Rattle.data_folder.specs.Folders.{LeavesOnly};
ghost use Rattle.data_folder.specs.Sweeping.{KeepsForeign};
ghost use Rattle.head.specs.Heads.{BlockPart, world_of};
ghost use Rattle.head.specs.Resuming.{MayStand};
ghost use Rattle.head.specs.Worlds.{Event};
ghost use Rattle.head_record.specs.Saved.{Saved};
ghost use Rattle.store_folder.specs.Holding.{HoldsAt, HoldsThese};
ghost use Rattle.store_folder.specs.States.{MayStart, started};
ghost use Rattle.store_folder.specs.Writing.{EachSays};
ghost use Rattle.store_joiner.specs.Finds.{BlocksSay, FindsEither, FindsNow, other_of};
ghost use Rattle.store_joiner.specs.Joins.{AreAbove};
ghost use Rattle.store_joiner.specs.Stores.{LeavesNow, SaysMeaning};

use data_folder::{Folder, RollError, roll};
use head::Snapshot;
use head_record::BlockPlace;
use std::alloc::Global;
use store_folder::{
    Beginning, RollFault, StoreJournal, head_journal, next_number, sweep_apart, write_saved,
};

/// A folder whose store is another.
#[derive(Drop)]
pub struct ReplacedStore<F: Drop> {
    /// The folder.
    pub folder: F,
    /// Where the blocks lie.
    pub places: Vec<BlockPlace>,
}

/// Has a store begin with another snapshot: the files of its blocks are written to folders with new
/// numbers, the journal is begun anew with a head that names them, and then what is no longer the
/// store's is removed. The journal has no events, and its head names the blocks at the held places.
///
/// A crash at any moment leaves a store that a start finds: as it was, or the other. An `Err` gives
/// the folder back. Unless it is `Folder(Lost)`, the store is as it was, and what was written may
/// go when the store is saved again.
pub fn replace_store<N: Beginning, F: Folder + Drop>(
    alloc: Global,
    store: StoreJournal<N, F>,
    held: &[BlockPlace],
    next: &Snapshot,
) -> Result<ReplacedStore<F>, (RollFault, F)>
    requires open { store.events.journal.closed ≡ false }
    requires held { (parts : List BlockPart) × HoldsAt F.shows F.kept F.sound F.moment F.left_since
        N.first store.events.journal.medium store.events.journal.len store.events.journal.closed []
        held.now parts }
    // A crash at any moment of the call leaves a store without events: a start finds it as it was,
    // or the other. The values mean what they meant.
    ensures any_moment { MatchResult result
        (λ x. FindsEither F.moment F.left_since store.events.journal.medium.folder x.folder N.first
        (world_of next.now))
        (λ e. FindsEither F.moment F.left_since store.events.journal.medium.folder e.1 N.first
        (world_of next.now)) }
    // If the head and its blocks may be a snapshot, then so may those that a crash at any moment of
    // the call leaves.
    ensures starts { (saved : Saved) (parts : List BlockPart) (late : List Event)
        → HoldsThese F.shows F.kept F.sound F.moment F.left_since N.first
        store.events.journal.medium store.events.journal.len store.events.journal.closed []
        saved parts late → saved.places ≡ held.now → MayStand (started saved parts)
        → MatchResult result
        (λ x. LeavesOnly F.moment F.left_since store.events.journal.medium.folder x.folder MayStart)
        (λ e. LeavesOnly F.moment F.left_since store.events.journal.medium.folder e.1 MayStart) }
    // After `Ok` it finds the other.
    ensures finds { IfOk result (λ x.
        FindsNow F.moment F.left_since x.folder (other_of N.first (world_of next.now))) }
    ensures places { IfOk result (λ x. length x.places.items ≡ length next.now.blocks) }
    // The blocks lie in folders of the least numbers that are above those of the held places.
    ensures numbers { IfOk result (λ x. AreAbove held.now x.places.items) }
    // Its head names the blocks there, and says what the values mean, as the `meta.json` of each.
    ensures says { IfOk result (λ x.
        SaysMeaning F.shows F.kept N.first.values x.places.items x.folder) }
    // After an `Err` it finds it as it was, unless the journal was lost.
    ensures stays { IfErr result (λ e. (e.0 ≡ RollFault.Folder RollError.Lost → ⊥)
        → FindsNow F.moment F.left_since e.1 N.first) }
    // If each block at the held places says what the values mean, then after an `Err` each block
    // that the head names does, whatever a crash leaves now, unless the journal was lost.
    ensures says_stays { EachSays F.shows F.kept N.first.values held.now
        store.events.journal.medium.folder
        → IfErr result (λ e. (e.0 ≡ RollFault.Folder RollError.Lost → ⊥)
        → LeavesNow F.moment F.left_since e.1 BlocksSay) }
    // What is none of the store's stays.
    ensures foreign { MatchResult result
        (λ x. KeepsForeign F.shows F.kept store.events.journal.medium.folder x.folder)
        (λ e. KeepsForeign F.shows F.kept store.events.journal.medium.folder e.1) }
{
    let values = store.values();
    let StoreJournal { events, .. } = store;
    let mut journal = events.journal;
    let folder = &mut journal.medium.folder;
    let head = match write_saved(alloc, folder, next, held, &[], next_number(held), values) {
        Ok(head) => head,
        Err(fault) => return Err((fault, journal.medium.folder)),
    };
    let Ok(places) = Vec::from_slice(alloc, head.places()) else {
        return Err((RollFault::Memory, journal.medium.folder));
    };
    let text = match head_journal(alloc, &head) {
        Ok(text) => text,
        Err(error) => return Err((RollFault::Text(error), journal.medium.folder)),
    };
    match roll(&mut journal, &text) {
        Ok(()) => {
            let _ = sweep_apart(alloc, &mut journal.medium.folder, &places);
            Ok(ReplacedStore {
                folder: journal.medium.folder,
                places,
            })
        }
        Err(error) => Err((RollFault::Folder(error), journal.medium.folder)),
    }
}
