//! A journal whose file is another one from then on.

ghost use Rattle.std.specs.Prelude.{◌≡◌, ◌⊎◌, ℕ, List, Some, true, OnOk, OnErr};
ghost use Rattle.data_folder.specs.Folders.{HasFile, KeepsOthers, LeavesOnly};
ghost use Rattle.data_folder.specs.JournalFile.{journal_name, next_name};

use crate::folder::Folder;
use crate::journal_file::JOURNAL;
use crate::rolling::NEXT;
use journal::MediumError;

/// Puts these bytes in the place of those that the journal of a folder has, whatever they are. All
/// other files stay, but for that of the journal in the making.
pub fn change_journal<F: Folder>(folder: &mut F, text: &[u8]) -> Result<(), MediumError>
    requires sound { F.sound folder.old ≡ true }
    requires has { (bytes : List ℕ) × HasFile F.shows F.kept journal_name bytes folder.old }
    ensures changed { OnOk result (HasFile F.shows F.kept journal_name text.now folder.new) }
    ensures sound { OnOk result (F.sound folder.new ≡ true) }
    ensures failed { OnErr result (F.failed folder.new ≡ true) }
    ensures others { KeepsOthers F.shows F.kept next_name journal_name folder.old folder.new }
    // A crash at any moment of the call leaves the bytes as they were or the new ones, all of them.
    ensures any_moment { (bytes : List ℕ)
        → HasFile F.shows F.kept journal_name bytes folder.old
        → LeavesOnly F.moment F.left_since folder.old folder.new
        (λ left. (left journal_name ≡ Some bytes) ⊎ (left journal_name ≡ Some text.now)) }
{
    match folder.write(NEXT, text) {
        Ok(()) => match folder.replace(NEXT, JOURNAL) {
            Ok(()) => Ok(()),
            Err(error) => Err(error),
        },
        Err(error) => Err(error),
    }
}
