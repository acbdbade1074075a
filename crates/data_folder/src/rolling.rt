//! A journal that is begun anew.

ghost use Rattle.std.specs.Prelude.{◌≡◌, ℕ, List, [], None, true, false, Err, IfOk, IfErr, OnOk};
ghost use Rattle.std.specs.Prelude.{OnErr};
ghost use Rattle.std.specs.Prelude.{IsErrOf, MatchResult};
ghost use Rattle.std.specs.List.{AllByRecursion};
ghost use Rattle.journal.specs.Group.{IsJournalText};
ghost use Rattle.data_folder.specs.Folders.{KeepsOthers, LeavesOnly};
ghost use Rattle.data_folder.specs.JournalFile.{journal_name, next_name};
ghost use Rattle.data_folder.specs.Rolls.{Keeps};
ghost use Rattle.data_folder.specs.States.{AreThere, IsApart, IsNoneOrNew, IsOldOrNew, Named};

use crate::folder::Folder;
use crate::journal_file::{JOURNAL, JournalFile};
use journal::{Journal, MediumError};
use name_table::NameTable;
use std::alloc::Global;

/// The journal in the making.
pub const NEXT: &str = "journal.next";

/// Why a journal is not begun anew.
#[derive(Clone, Copy, Debug, PartialEq, Eq, Drop)]
pub enum RollError {
    /// The journal is closed.
    Closed,
    /// The next journal could not be written. The journal goes on.
    NotWritten,
    /// The next journal could not take the journal's name. The journal is closed: a start finds it
    /// as it was, or the next one.
    Lost,
}

/// Begins the journal anew by a text that is a whole journal. No event may be kept meanwhile.
pub fn roll<F: Folder + Drop>(
    journal: &mut Journal<JournalFile<F>>,
    text: &[u8],
) -> Result<(), RollError>
    requires kept { journal.old.closed ≡ false → (contents : List (List ℕ))
        × Keeps F.shows F.kept F.sound contents journal.old.medium.folder journal.old.len }
    requires whole { (contents : List (List ℕ)) × IsJournalText contents text.now }
    ensures ok { OnOk result ((new : List (List ℕ)) → IsJournalText new text.now
        → Keeps F.shows F.kept F.sound new journal.new.medium.folder journal.new.len) }
    ensures open { OnOk result (journal.new.closed ≡ false) }
    // Where it goes on, it has what it had.
    ensures err { OnErr result ((contents : List (List ℕ))
        → Keeps F.shows F.kept F.sound contents journal.old.medium.folder journal.old.len
        → journal.new.closed ≡ false
        → Keeps F.shows F.kept F.sound contents journal.new.medium.folder journal.new.len) }
    // The new one has named nothing.
    ensures named { OnOk result (journal.new.medium.names ≡ []) }
    ensures names { OnErr result (journal.new.medium.names ≡ journal.old.medium.names) }
    ensures closed { IsErrOf result RollError.Closed → journal.old.closed ≡ true }
    ensures not_written { IsErrOf result RollError.NotWritten
        → (journal.new.closed ≡ false) × (F.failed journal.new.medium.folder ≡ true) }
    ensures lost { IsErrOf result RollError.Lost → F.failed journal.new.medium.folder ≡ true }
    // All other files stay.
    ensures files { (files : List Named) → AllByRecursion IsApart files
        → AreThere F.shows F.kept files journal.old.medium.folder
        → AreThere F.shows F.kept files journal.new.medium.folder }
    ensures others { KeepsOthers F.shows F.kept next_name journal_name
        journal.old.medium.folder journal.new.medium.folder }
    // A crash at any moment of the call leaves the journal as it was or the new one, whole, and all
    // other files.
    ensures any_moment { (old new : List (List ℕ)) (files : List Named)
        → Keeps F.shows F.kept F.sound old journal.old.medium.folder journal.old.len
        → IsJournalText new text.now
        → AllByRecursion IsApart files
        → AreThere F.shows F.kept files journal.old.medium.folder
        → LeavesOnly F.moment F.left_since journal.old.medium.folder journal.new.medium.folder
        (IsOldOrNew files old new) }
{
    if journal.closed {
        return Err(RollError::Closed);
    }
    match journal.medium.folder.write(NEXT, text) {
        Err(_) => Err(RollError::NotWritten),
        Ok(()) => match journal.medium.folder.replace(NEXT, JOURNAL) {
            Err(_) => {
                journal.closed = true;
                Err(RollError::Lost)
            }
            Ok(()) => {
                journal.len = text.len();
                journal.medium.names.forget(0);
                Ok(())
            }
        },
    }
}

/// Begins the journal of a folder that has none, by a text that is a whole journal. An `Err` gives
/// the folder back: a start finds no journal in it, or this one.
pub fn begin<F: Folder + Drop>(
    alloc: Global,
    folder: F,
    text: &[u8],
) -> Result<Journal<JournalFile<F>>, (MediumError, F)>
    requires sound { F.sound folder ≡ true }
    requires none { F.shows folder journal_name None × F.kept folder journal_name 0 }
    requires whole { (contents : List (List ℕ)) × IsJournalText contents text.now }
    ensures keeps { IfOk result (λ j. (new : List (List ℕ)) → IsJournalText new text.now
        → Keeps F.shows F.kept F.sound new j.medium.folder j.len) }
    ensures open { IfOk result (λ j. j.closed ≡ false) }
    ensures named { IfOk result (λ j. j.medium.names ≡ []) }
    ensures failed { IfErr result (λ e. F.failed e.1 ≡ true) }
    // A crash at any moment of the call leaves no journal, or this one, whole.
    ensures any_moment { (new : List (List ℕ)) → IsJournalText new text.now → MatchResult result
        (λ j. LeavesOnly F.moment F.left_since folder j.medium.folder (IsNoneOrNew new))
        (λ e. LeavesOnly F.moment F.left_since folder e.1 (IsNoneOrNew new)) }
    // All other files stay.
    ensures others { MatchResult result
        (λ j. KeepsOthers F.shows F.kept next_name journal_name folder j.medium.folder)
        (λ e. KeepsOthers F.shows F.kept next_name journal_name folder e.1) }
{
    let mut folder = folder;
    match folder.write(NEXT, text) {
        Err(error) => Err((error, folder)),
        Ok(()) => match folder.replace(NEXT, JOURNAL) {
            Err(error) => Err((error, folder)),
            Ok(()) => Ok(Journal {
                medium: JournalFile {
                    folder,
                    names: NameTable::new(alloc),
                },
                len: text.len(),
                closed: false,
            }),
        },
    }
}
