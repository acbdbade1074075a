//! A journal that begins with a new head.

ghost use Rattle.std.specs.Prelude.{◌≡◌, ◌⊎◌, List, [], false, true, Err, IfErr, OnErr, OnOk};
ghost use Rattle.std.specs.Prelude.{length};
ghost use Rattle.data_folder.specs.Folders.{KeepsOthers, LeavesOnly};
ghost use Rattle.data_folder.specs.JournalFile.{journal_name, next_name};
ghost use Rattle.event_journal.specs.Holding.{contents_with};
ghost use Rattle.head.specs.Heads.{BlockPart};
ghost use Rattle.head.specs.Worlds.{Event as Change};
ghost use Rattle.head_record.specs.Saved.{Saved};
ghost use Rattle.head_record.specs.Spelling.{head_texts};
ghost use Rattle.journal.specs.Records.{file_of};
ghost use Rattle.store_folder.specs.Causes.{IsRollCause};
ghost use Rattle.store_folder.specs.Holding.{HoldsStoreBetween, HoldsThese};
ghost use Rattle.store_folder.specs.Rolls.{HasHeadAlone, MayRoll};
ghost use Rattle.store_folder.specs.Starting.{StartFindsEither};
ghost use Rattle.store_folder.specs.States.{IsEither};

use crate::error::RollFault;
use crate::heads::head_journal;
use crate::store_journal::{Beginning, StoreJournal};
use data_folder::{Folder, RollError, roll};
use head_record::HeadRecord;
use std::alloc::Global;

impl<N: Beginning, F: Folder + Drop> StoreJournal<N, F> {
    /// Begins the journal anew with this head, which says the world of the events after it and what
    /// the values mean. These are all events so far, or any others: a head that says the world of
    /// more events keeps them all at once. The files of its blocks lie in the folder, and a start
    /// makes a snapshot of it and of them. No event may be kept meanwhile.
    ///
    /// The journal goes on as it was unless the error is `Lost`: then it is closed.
    pub fn roll(&mut self, alloc: Global, head: &HeadRecord) -> Result<(), RollFault>
        requires { (events after : List Change) × (parts : List BlockPart)
            × MayRoll F.shows F.kept F.sound F.moment F.left_since N.first
            self.old.events.journal.medium self.old.events.journal.len
            self.old.events.journal.closed events after head.now parts }
        // Where it fails the events before are held, or the journal is lost on the way from them to
        // those after.
        ensures held { OnErr result ((events after : List Change) (parts : List BlockPart)
            → MayRoll F.shows F.kept F.sound F.moment F.left_since N.first
            self.old.events.journal.medium self.old.events.journal.len
            self.old.events.journal.closed events after head.now parts
            → HoldsStoreBetween F.shows F.kept F.sound F.moment F.left_since N.first
            self.new.events.journal.medium self.new.events.journal.len
            self.new.events.journal.closed events after) }
        // After `Ok` the journal has the new head, and no events behind it: those after are held.
        ensures alone { OnOk result ((events after : List Change) (parts : List BlockPart)
            → MayRoll F.shows F.kept F.sound F.moment F.left_since N.first
            self.old.events.journal.medium self.old.events.journal.len
            self.old.events.journal.closed events after head.now parts
            → HoldsThese F.shows F.kept F.sound F.moment F.left_since N.first
            self.new.events.journal.medium self.new.events.journal.len
            self.new.events.journal.closed after head.now parts []) }
        // Where it fails and goes on, the head is the one before, with the events after it.
        ensures same { OnErr result ((events : List Change) (saved : Saved)
            (parts : List BlockPart) (late : List Change)
            → HoldsThese F.shows F.kept F.sound F.moment F.left_since N.first
            self.old.events.journal.medium self.old.events.journal.len
            self.old.events.journal.closed events saved parts late
            → self.new.events.journal.closed ≡ false
            → HoldsThese F.shows F.kept F.sound F.moment F.left_since N.first
            self.new.events.journal.medium self.new.events.journal.len
            self.new.events.journal.closed events saved parts late) }
        // After a crash at any moment of the call, a start finds the world of the events before, or
        // of those after.
        ensures any_moment { (events after : List Change) (parts : List BlockPart)
            → MayRoll F.shows F.kept F.sound F.moment F.left_since N.first
            self.old.events.journal.medium self.old.events.journal.len
            self.old.events.journal.closed events after head.now parts
            → self.old.events.journal.closed ≡ false
            → StartFindsEither F.moment F.left_since self.old.events.journal.medium.folder
            self.new.events.journal.medium.folder N.first events after }
        // Such a crash leaves the store as it was, or the new head with its blocks and no events.
        ensures leaves { (events after : List Change) (saved : Saved)
            (parts blocks : List BlockPart) (late : List Change)
            → HoldsThese F.shows F.kept F.sound F.moment F.left_since N.first
            self.old.events.journal.medium self.old.events.journal.len
            self.old.events.journal.closed events saved parts late
            → MayRoll F.shows F.kept F.sound F.moment F.left_since N.first
            self.old.events.journal.medium self.old.events.journal.len
            self.old.events.journal.closed events after head.now blocks
            → self.old.events.journal.closed ≡ false
            → LeavesOnly F.moment F.left_since self.old.events.journal.medium.folder
            self.new.events.journal.medium.folder (IsEither saved parts late head.now blocks) }
        ensures open { OnOk result (self.new.events.journal.closed ≡ false) }
        // Then it has the head and nothing more.
        ensures len { OnOk result (self.new.events.journal.len
            ≡ length (file_of (contents_with (head_texts head.now) []))) }
        ensures file { OnOk result (HasHeadAlone F.shows F.kept head.now
            self.new.events.journal.medium.folder) }
        ensures goes_on { IfErr result (λ e. (e ≡ RollFault.Folder RollError.Lost → ⊥)
            → self.old.events.journal.closed ≡ false → self.new.events.journal.closed ≡ false) }
        // It is closed for no cause but that writing failed.
        ensures lost { self.new.events.journal.closed ≡ true
            → (self.old.events.journal.closed ≡ true)
            ⊎ (F.failed self.new.events.journal.medium.folder ≡ true) }
        ensures closed { self.old.events.journal.closed ≡ true
            → (result ≡ Err (RollFault.Folder RollError.Closed)) × (self.new ≡ self.old) }
        // The fault tells that it was closed, or that the folder failed, where it is so.
        ensures cause { IfErr result (λ e. IsRollCause self.old.events.journal.closed
            (F.failed self.new.events.journal.medium.folder) e) }
        // All other files stay.
        ensures others { KeepsOthers F.shows F.kept next_name journal_name
            self.old.events.journal.medium.folder self.new.events.journal.medium.folder }
    {
        if self.events.journal.closed {
            return Err(RollFault::Folder(RollError::Closed));
        }
        let text = match head_journal(alloc, head) {
            Ok(text) => text,
            Err(error) => return Err(RollFault::Text(error)),
        };
        match roll(&mut self.events.journal, &text) {
            Ok(()) => Ok(()),
            Err(error) => Err(RollFault::Folder(error)),
        }
    }
}
