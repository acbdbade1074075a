//! Files that come beside the journal.

ghost use Rattle.std.specs.Prelude.{◌≡◌, ℕ, List, true, false, OnOk, OnErr};
ghost use Rattle.data_folder.specs.Folders.{HasFile, KeepsAll, KeepsOthers};
ghost use Rattle.data_folder.specs.Sweeping.{KeepsStore, is_kept};

use crate::folder::Folder;
use journal::MediumError;

/// Writes a file beside the journal, for good. The journal stays, and so does each file of another
/// name, also if a crash comes on the way.
pub fn add<F: Folder>(folder: &mut F, name: &str, bytes: &[u8]) -> Result<(), MediumError>
    requires { F.sound folder.old ≡ true }
    ensures written { OnOk result (HasFile F.shows F.kept name.now bytes.now folder.new) }
    ensures sound { F.sound folder.new ≡ true }
    ensures failed { OnErr result (F.failed folder.new ≡ true) }
    ensures kept { (names : List (List ℕ)) → is_kept names name.now ≡ false
        → KeepsStore F.shows F.kept F.sound F.moment F.left_since names folder.old folder.new }
    ensures others { KeepsOthers F.shows F.kept name.now name.now folder.old folder.new }
{
    folder.write(name, bytes)
}

/// Makes a folder beside the journal, if it is not there. All files stay.
pub fn add_folder<F: Folder>(folder: &mut F, name: &str) -> Result<(), MediumError>
    requires { F.sound folder.old ≡ true }
    ensures sound { F.sound folder.new ≡ true }
    ensures failed { OnErr result (F.failed folder.new ≡ true) }
    ensures kept { (names : List (List ℕ))
        → KeepsStore F.shows F.kept F.sound F.moment F.left_since names folder.old folder.new }
    ensures all { KeepsAll F.shows F.kept folder.old folder.new }
{
    folder.make(name)
}
