//! What stands beside the journal.

ghost use Rattle.std.specs.Prelude.{◌≡◌, ℕ, List, true, IfOk, OnErr};
ghost use Rattle.data_folder.specs.Folders.{KeepsAll};
ghost use Rattle.data_folder.specs.Sweeping.{KeepsStore, names_in};

use crate::folder::Folder;
use journal::MediumError;
use std::alloc::Global;

/// What stands in a folder, by its names there, in no order; none if the folder is not there. All
/// files stay.
pub fn list_names<F: Folder>(
    alloc: Global,
    folder: &mut F,
    name: &str,
) -> Result<Vec<String>, MediumError>
    requires { F.sound folder.old ≡ true }
    ensures sound { F.sound folder.new ≡ true }
    ensures failed { OnErr result (F.failed folder.new ≡ true) }
    ensures lasting { F.failed folder.old ≡ true → F.failed folder.new ≡ true }
    ensures listed { IfOk result (λ names. F.lists folder.new name.now (names_in names.items)) }
    ensures all { KeepsAll F.shows F.kept folder.old folder.new }
    ensures kept { (names : List (List ℕ))
        → KeepsStore F.shows F.kept F.sound F.moment F.left_since names folder.old folder.new }
{
    folder.names(alloc, name)
}
