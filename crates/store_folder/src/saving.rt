//! A snapshot that is saved in the place of the events that made it.

ghost use Rattle.std.specs.Prelude.{◌≡◌, ◌⊎◌, List, [], Err, false, true, length};
ghost use Rattle.std.specs.Prelude.{IfErr, IfOk, OnErr, OnOk};
ghost use Rattle.data_folder.specs.Folders.{LeavesOnly};
ghost use Rattle.data_folder.specs.States.{AreThere, Named};
ghost use Rattle.data_folder.specs.Sweeping.{AreAmong, KeepsForeign, KeepsStore};
ghost use Rattle.event_journal.specs.Holding.{contents_with};
ghost use Rattle.head.specs.Heads.{BlockPart};
ghost use Rattle.head.specs.Resuming.{MayStand};
ghost use Rattle.head.specs.Worlds.{Event as Change};
ghost use Rattle.head_record.specs.Saved.{save};
ghost use Rattle.head_record.specs.Spelling.{head_texts};
ghost use Rattle.journal.specs.Records.{file_of};
ghost use Rattle.store_folder.specs.Causes.{IsRollCause};
ghost use Rattle.store_folder.specs.Holding.{AreAt, HoldsStoreBetween, HoldsThese};
ghost use Rattle.store_folder.specs.Rolls.{HasHeadAlone};
ghost use Rattle.store_folder.specs.Saving.{IsOldOrSaved, MaySave};
ghost use Rattle.store_folder.specs.Starting.{StartFindsEither};
ghost use Rattle.store_folder.specs.States.{started};
ghost use Rattle.store_folder.specs.Sweeps.{names_at};
ghost use Rattle.store_folder.specs.Writing.{AreLike, AreRewritten, EachSays, places_from};
ghost use Rattle.store_folder.specs.Writing.{places_with, unfound};

use crate::error::RollFault;
use crate::store_journal::{Beginning, StoreJournal};
use crate::sweeping::file_names;
use crate::writing::write_blocks;
use block_folder::Values;
use data_folder::{Folder, RollError};
use head::Snapshot;
use head_record::{BlockPlace, HeadRecord};
use std::alloc::Global;

/// Writes the blocks of a snapshot for which no place is found, in folders of the numbers from
/// `next` on, and gives what is saved of it, with this meaning of its values: its head names all
/// blocks, those that are found at their places. All that is no block's stays, as the journal, also
/// one whose end is torn; and so do the files of blocks at the held places.
pub fn write_saved<F: Folder>(
    alloc: Global,
    folder: &mut F,
    snapshot: &Snapshot,
    held: &[BlockPlace],
    found: &[Option<BlockPlace>],
    next: u64,
    values: Values,
) -> Result<HeadRecord, RollFault>
    requires { F.sound folder.old ≡ true }
    ensures saved { IfOk result (λ head. head ≡ save values snapshot.now
        (places_with next found.now (length snapshot.now.blocks))) }
    ensures there { OnOk result ((parts : List BlockPart)
        × AreRewritten (unfound found.now snapshot.now.blocks) parts
        × AreAt F.shows F.kept
        (places_from next (length (unfound found.now snapshot.now.blocks))) parts folder.new) }
    // A start makes a snapshot of what is saved and of blocks like these, and refuses none: the
    // floor is a time, the blocks end by it, and the series of the head are sound and not too many.
    ensures stands { IfOk result (λ head. (made : List BlockPart)
        → AreLike snapshot.now.blocks made → MayStand (started head made)) }
    // The `meta.json` of each block that is written says what the values mean.
    ensures says { OnOk result (EachSays F.shows F.kept values
        (places_from next (length (unfound found.now snapshot.now.blocks))) folder.new) }
    ensures cause { IfErr result (λ e. IsRollCause false (F.failed folder.new) e) }
    ensures sound { F.sound folder.new ≡ true }
    ensures stays { KeepsStore F.shows F.kept F.sound F.moment F.left_since (names_at held.now)
        folder.old folder.new }
{
    let Ok(mut kept) = file_names(alloc, held) else {
        return Err(RollFault::Memory);
    };
    let blocks = snapshot.blocks();
    let places = match write_blocks(alloc, folder, &mut kept, blocks, found, next, values) {
        Ok(places) => places,
        Err(fault) => return Err(RollFault::Block(fault)),
    };
    let Ok(series) = snapshot.head().saved(alloc) else {
        return Err(RollFault::Memory);
    };
    Ok(HeadRecord::new(values, snapshot.floor(), places, series))
}

impl<N: Beginning, F: Folder + Drop> StoreJournal<N, F> {
    /// Saves a snapshot, and begins the journal anew with it. It is one of the world of all events
    /// so far, or of any others, which are kept by that in their place. The blocks that the
    /// journal's head names lie at the held places. The snapshot's blocks that are found at some of
    /// these keep them, and its others are written anew, in folders of the numbers from `next` on,
    /// of which none is in use. No event may be kept meanwhile. The places of the snapshot's
    /// blocks, which the head then names; what is at others is litter
    /// ([`StoreJournal::sweep_blocks`]).
    ///
    /// Where it fails the journal goes on as it was, unless the fault is `Folder(Lost)`: then it is
    /// closed.
    pub fn save(
        &mut self,
        alloc: Global,
        snapshot: &Snapshot,
        held: &[BlockPlace],
        found: &[Option<BlockPlace>],
        next: u64,
    ) -> Result<Vec<BlockPlace>, RollFault>
        requires { self.old.events.journal.closed ≡ false → (events after : List Change)
            × (parts : List BlockPart) × MaySave F.shows F.kept F.sound F.moment F.left_since
            N.first self.old.events.journal.medium self.old.events.journal.len
            self.old.events.journal.closed events after snapshot.now held.now parts found.now }
        // Where it fails the events before are held, or the journal is lost on the way from them to
        // those after.
        ensures held { OnErr result ((events after : List Change) (parts : List BlockPart)
            → MaySave F.shows F.kept F.sound F.moment F.left_since N.first
            self.old.events.journal.medium self.old.events.journal.len
            self.old.events.journal.closed events after snapshot.now held.now parts found.now
            → HoldsStoreBetween F.shows F.kept F.sound F.moment F.left_since N.first
            self.new.events.journal.medium self.new.events.journal.len
            self.new.events.journal.closed events after) }
        // After `Ok` the journal has what is saved of the snapshot, which names blocks like its own
        // at these places, and no events behind it: those after are held.
        ensures places { IfOk result (λ places. (events after : List Change)
            (parts : List BlockPart)
            → MaySave F.shows F.kept F.sound F.moment F.left_since N.first
            self.old.events.journal.medium self.old.events.journal.len
            self.old.events.journal.closed events after snapshot.now held.now parts found.now
            → (made : List BlockPart) × AreLike snapshot.now.blocks made
            × HoldsThese F.shows F.kept F.sound F.moment F.left_since N.first
            self.new.events.journal.medium self.new.events.journal.len
            self.new.events.journal.closed after
            (save N.first.values snapshot.now places.items) made []) }
        // They are those that are found, and folders of the numbers from the next one on.
        ensures numbers { IfOk result (λ places. places.items
            ≡ places_with next found.now (length snapshot.now.blocks)) }
        // Where it fails and goes on, the head is the one before, with the events after it.
        ensures same { OnErr result ((events after : List Change) (parts : List BlockPart)
            → (m : MaySave F.shows F.kept F.sound F.moment F.left_since N.first
            self.old.events.journal.medium self.old.events.journal.len
            self.old.events.journal.closed events after snapshot.now held.now parts found.now)
            → self.new.events.journal.closed ≡ false
            → HoldsThese F.shows F.kept F.sound F.moment F.left_since N.first
            self.new.events.journal.medium self.new.events.journal.len
            self.new.events.journal.closed events
            m.holds.0.saved m.holds.0.parts m.holds.0.late) }
        // After a crash at any moment of the call, a start finds the world of the events before, or
        // of those after.
        ensures any_moment { (events after : List Change) (parts : List BlockPart)
            → MaySave F.shows F.kept F.sound F.moment F.left_since N.first
            self.old.events.journal.medium self.old.events.journal.len
            self.old.events.journal.closed events after snapshot.now held.now parts found.now
            → self.old.events.journal.closed ≡ false
            → StartFindsEither F.moment F.left_since self.old.events.journal.medium.folder
            self.new.events.journal.medium.folder N.first events after }
        // Such a crash leaves the store as it was, or what is saved of the snapshot, and no events.
        ensures leaves { (events after : List Change) (parts : List BlockPart)
            → (m : MaySave F.shows F.kept F.sound F.moment F.left_since N.first
            self.old.events.journal.medium self.old.events.journal.len
            self.old.events.journal.closed events after snapshot.now held.now parts found.now)
            → self.old.events.journal.closed ≡ false
            → LeavesOnly F.moment F.left_since self.old.events.journal.medium.folder
            self.new.events.journal.medium.folder (IsOldOrSaved m.holds.0.saved m.holds.0.parts
            m.holds.0.late N.first.values snapshot.now) }
        ensures open { OnOk result (self.new.events.journal.closed ≡ false) }
        // Then it has what is saved and nothing more.
        ensures len { IfOk result (λ places. self.new.events.journal.len
            ≡ length (file_of (contents_with
            (head_texts (save N.first.values snapshot.now places.items)) []))) }
        ensures file { IfOk result (λ places. HasHeadAlone F.shows F.kept
            (save N.first.values snapshot.now places.items)
            self.new.events.journal.medium.folder) }
        // A start makes a snapshot of it and of blocks like these.
        ensures stands { IfOk result (λ places. (made : List BlockPart)
            → AreLike snapshot.now.blocks made
            → MayStand (started (save N.first.values snapshot.now places.items) made)) }
        ensures goes_on { IfErr result (λ e. (e ≡ RollFault.Folder RollError.Lost → ⊥)
            → self.old.events.journal.closed ≡ false → self.new.events.journal.closed ≡ false) }
        // It is closed for no cause but that writing failed.
        ensures lost { self.new.events.journal.closed ≡ true
            → (self.old.events.journal.closed ≡ true)
            ⊎ (F.failed self.new.events.journal.medium.folder ≡ true) }
        ensures closed { self.old.events.journal.closed ≡ true
            → (result ≡ Err (RollFault.Folder RollError.Closed)) × (self.new ≡ self.old) }
        // The fault tells that it was closed, or that the folder failed, where it is so.
        ensures cause { IfErr result (λ e. IsRollCause self.old.events.journal.closed
            (F.failed self.new.events.journal.medium.folder) e) }
        // What is none of the store's stays, and so do the files of the held blocks.
        ensures foreign { KeepsForeign F.shows F.kept self.old.events.journal.medium.folder
            self.new.events.journal.medium.folder }
        ensures blocks { (files : List Named) → AreAmong (names_at held.now) files
            → AreThere F.shows F.kept files self.old.events.journal.medium.folder
            → AreThere F.shows F.kept files self.new.events.journal.medium.folder }
        // The `meta.json` of each block that is written says what the values mean.
        ensures written { OnOk result (EachSays F.shows F.kept N.first.values
            (places_from next (length (unfound found.now snapshot.now.blocks)))
            self.new.events.journal.medium.folder) }
        // If that of each held block says so too, then so does that of each block that the head
        // names.
        ensures says { IfOk result (λ places.
            EachSays F.shows F.kept N.first.values held.now
            self.old.events.journal.medium.folder
            → EachSays F.shows F.kept N.first.values places.items
            self.new.events.journal.medium.folder) }
    {
        if self.events.journal.closed {
            return Err(RollFault::Folder(RollError::Closed));
        }
        let values = self.values();
        let folder = &mut self.events.journal.medium.folder;
        let head = match write_saved(alloc, folder, snapshot, held, found, next, values) {
            Ok(head) => head,
            Err(fault) => return Err(fault),
        };
        let Ok(places) = Vec::from_slice(alloc, head.places()) else {
            return Err(RollFault::Memory);
        };
        match self.roll(alloc, &head) {
            Ok(()) => Ok(places),
            Err(fault) => Err(fault),
        }
    }
}
