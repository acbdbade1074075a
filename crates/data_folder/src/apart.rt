//! Files that are written beside a store.

ghost use Rattle.std.specs.Prelude.{◌≡◌, ◌++◌, ◌∷◌, [], true, Err, IsErrOf, OnErr, OnOk};
ghost use Rattle.data_folder.specs.Folders.{HasFile};
ghost use Rattle.data_folder.specs.Sweeping.{KeepsStore, is_kept, names_in};

use crate::adding::add;
use crate::folder::Folder;
use crate::sweeping::is_kept;
use std::alloc::Global;

/// Why a file is not written beside a store.
#[derive(Clone, Copy, Debug, PartialEq, Eq, Drop)]
pub enum ApartError {
    /// The name is no block's, as the journal's, or is that of a file to be kept. Nothing was
    /// changed.
    Kept,
    /// No memory is left.
    Memory,
    /// The folder could not be written to.
    Medium,
}

/// Writes a file of a block beside the files to be kept, and keeps it from then on: its name is
/// then the last of theirs. A name of theirs, or that is no block's, as the journal's, is refused.
///
/// So after any number of such calls the journal, all that is no block's and all files that were to
/// be kept are as they were, and each file that was written is whole; a crash at any moment leaves
/// them so. After an `Err` nothing is known of this name, unless it was refused.
pub fn write_apart<F: Folder>(
    alloc: Global,
    folder: &mut F,
    kept: &mut Vec<String>,
    name: &str,
    bytes: &[u8],
) -> Result<(), ApartError>
    requires { F.sound folder.old ≡ true }
    ensures written { OnOk result (HasFile F.shows F.kept name.now bytes.now folder.new) }
    ensures kept { OnOk result (names_in kept.new.items
        ≡ names_in kept.old.items ++ name.now ∷ []) }
    ensures err { OnErr result (kept.new.items ≡ kept.old.items) }
    // A name is refused exactly where it is no block's or is one of those to be kept.
    ensures refused { IsErrOf result ApartError.Kept
        → (is_kept (names_in kept.old.items) name.now ≡ true) × (folder.new ≡ folder.old) }
    ensures taken { is_kept (names_in kept.old.items) name.now ≡ true
        → result ≡ Err ApartError.Kept }
    ensures failed { IsErrOf result ApartError.Medium → F.failed folder.new ≡ true }
    ensures sound { F.sound folder.new ≡ true }
    // All that is no block's and the files to be kept stay, whatever the answer, also in a crash.
    ensures stays { KeepsStore F.shows F.kept F.sound F.moment F.left_since
        (names_in kept.old.items) folder.old folder.new }
{
    if is_kept(kept.as_slice(), name) {
        return Err(ApartError::Kept);
    }
    let owned = match String::from_str(alloc, name) {
        Ok(owned) => owned,
        Err(_) => return Err(ApartError::Memory),
    };
    match add(folder, name, bytes) {
        Ok(()) => match kept.push(owned) {
            Ok(()) => Ok(()),
            Err(_) => Err(ApartError::Memory),
        },
        Err(_) => Err(ApartError::Medium),
    }
}
