//! A store that is begun with a snapshot, its journal last.

ghost use Rattle.std.specs.Prelude.{◌≡◌, ℕ, List, None, true, IfErr, IfOk, MatchResult, length};
ghost use Rattle.std.specs.List.{AllByRecursion};
ghost use Rattle.data_folder.specs.Folders.{KeepsOthers, LeavesOnly};
ghost use Rattle.data_folder.specs.JournalFile.{journal_name, next_name};
ghost use Rattle.data_folder.specs.Rolls.{Keeps};
ghost use Rattle.data_folder.specs.States.{AreThere, IsApart, Named};
ghost use Rattle.head.specs.Heads.{world_of};
ghost use Rattle.journal.specs.Group.{IsJournalText};
ghost use Rattle.store_backup.specs.Copies.{Begins, IsOfTarget, NoneOrWhole};
ghost use Rattle.store_joiner.specs.Finds.{FindsNow};
ghost use Rattle.store_folder.specs.Writing.{places_from};
ghost use Rattle.store_joiner.specs.Stores.{SaysMeaning};

use crate::error::CopyFault;
use block_folder::Values;
use data_folder::{Folder, JOURNAL, NEXT};
use head::Snapshot;
use std::alloc::Global;
use store_folder::{RollFault, head_journal, write_saved};

/// Begins the journal of a folder that has none, by a text that is a whole journal. An `Err` gives
/// the folder back.
fn begin_journal<F: Folder + Drop>(folder: F, text: &[u8]) -> Result<F, F>
    requires sound { F.sound folder ≡ true }
    requires none { F.shows folder journal_name None × F.kept folder journal_name 0 }
    requires whole { (contents : List (List ℕ)) × IsJournalText contents text.now }
    ensures keeps { IfOk result (λ f. (new : List (List ℕ)) → IsJournalText new text.now
        → Keeps F.shows F.kept F.sound new f (length text.now)) }
    ensures files { IfOk result (λ f. (files : List Named) → AllByRecursion IsApart files
        → AreThere F.shows F.kept files folder → AreThere F.shows F.kept files f) }
    // A crash at any moment of the call leaves no journal, or this one, whole, and all other files.
    ensures any_moment { (new : List (List ℕ)) (files : List Named) → IsJournalText new text.now
        → AllByRecursion IsApart files → AreThere F.shows F.kept files folder
        → MatchResult result
        (λ f. LeavesOnly F.moment F.left_since folder f (NoneOrWhole files new))
        (λ f. LeavesOnly F.moment F.left_since folder f (NoneOrWhole files new)) }
    ensures others { MatchResult result
        (λ f. KeepsOthers F.shows F.kept next_name journal_name folder f)
        (λ f. KeepsOthers F.shows F.kept next_name journal_name folder f) }
{
    let mut folder = folder;
    match folder.write(NEXT, text) {
        Err(_) => Err(folder),
        Ok(()) => match folder.replace(NEXT, JOURNAL) {
            Err(_) => Err(folder),
            Ok(()) => Ok(folder),
        },
    }
}

/// Begins the store of a folder without a journal with a snapshot, whose values mean this: first
/// the files of its blocks are written, and last the journal. An `Err` gives the folder back.
pub(crate) fn begin_with<F: Folder + Drop>(
    alloc: Global,
    folder: F,
    snapshot: &Snapshot,
    values: Values,
) -> Result<F, (CopyFault, F)>
    requires sound { F.sound folder ≡ true }
    requires none { F.shows folder journal_name None × F.kept folder journal_name 0 }
    ensures finds { IfOk result (λ f. FindsNow F.moment F.left_since f
        (record { world = world_of snapshot.now; values = values })) }
    ensures says { IfOk result (λ f. SaysMeaning F.shows F.kept values
        (places_from 1 (length snapshot.now.blocks)) f) }
    ensures begins { MatchResult result
        (λ f. Begins F.shows F.kept F.moment F.left_since
        (record { world = world_of snapshot.now; values = values }) folder f)
        (λ e. Begins F.shows F.kept F.moment F.left_since
        (record { world = world_of snapshot.now; values = values }) folder e.1) }
    ensures refused { IfErr result (λ e. IsOfTarget e.0) }
{
    let mut folder = folder;
    let head = match write_saved(alloc, &mut folder, snapshot, &[], &[], 1, values) {
        Ok(head) => head,
        Err(fault) => return Err((CopyFault::Write(fault), folder)),
    };
    let text = match head_journal(alloc, &head) {
        Ok(text) => text,
        Err(error) => return Err((CopyFault::Write(RollFault::Text(error)), folder)),
    };
    match begin_journal(folder, &text) {
        Ok(begun) => Ok(begun),
        Err(folder) => Err((CopyFault::Target, folder)),
    }
}
