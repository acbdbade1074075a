//! Files that no journal names.

ghost use Rattle.std.specs.Prelude.{◌≡◌, ◌≤◌, codes, option_map, true};
ghost use Rattle.data_folder.specs.Sweeping.{KeepsStore, after, after_digits, ends_block, is_among};
ghost use Rattle.data_folder.specs.Sweeping.{is_kept, is_lasting, is_numbered, is_of_block};
ghost use Rattle.data_folder.specs.Sweeping.{names_in};

use crate::folder::Folder;
use crate::rolling::NEXT;

fn is_among(names: &[String], name: &str) -> bool
    ensures { result ≡ is_among (names_in names.now) name.now }
{
    for other in names {
        if other.as_str() == name {
            return true;
        }
    }
    false
}

/// What follows digits.
fn after_digits(text: &[u8]) -> &[u8]
    ensures { result.now ≡ after_digits text.now }
{
    let mut rest = text;
    while let Some((byte, after)) = rest.split_first() {
        if !byte.is_ascii_digit() {
            return rest;
        }
        rest = after;
    }
    rest
}

/// Whether this follows the number of a block in the name of its folder, of a file of it, or of the
/// folder of its chunks.
fn ends_block(rest: &[u8]) -> bool
    ensures { result ≡ ends_block rest.now }
{
    rest == b"".as_slice()
        || rest == b"/meta.json".as_slice()
        || rest == b"/index".as_slice()
        || rest == b"/chunks".as_slice()
        || rest == b"/chunks/000001".as_slice()
        || rest == b"/tombstones".as_slice()
}

/// Whether this is the number of a block, which has a digit at least, and such an end.
fn is_numbered(path: &[u8]) -> bool
    ensures { result ≡ is_numbered path.now }
{
    match path.split_first() {
        Some((byte, after)) => byte.is_ascii_digit() && ends_block(after_digits(after)),
        None => false,
    }
}

fn after_blocks(name: &[u8]) -> Option<&[u8]>
    ensures { option_map (λ path. path.now) result ≡ after (codes "blocks/") name.now }
{
    name.strip_prefix(b"blocks/")
}

/// Whether a name is that of a file of a block, or of a folder of one.
fn is_of_block(name: &str) -> bool
    ensures { result ≡ is_of_block name.now }
{
    match after_blocks(name.as_bytes()) {
        Some(path) => is_numbered(path),
        None => false,
    }
}

/// Whether a name is neither of a block nor that of the journal in the making.
fn is_lasting(name: &str) -> bool
    ensures { result ≡ is_lasting name.now }
{
    !is_of_block(name) && name != NEXT
}

/// Whether a name is lasting, or is one of these.
pub(crate) fn is_kept(names: &[String], name: &str) -> bool
    ensures { result ≡ is_kept (names_in names.now) name.now }
{
    is_lasting(name) || is_among(names, name)
}

/// Removes what has a name, unless it is lasting or is one of those to be kept. How many could not
/// be removed.
fn remove_litter<F: Folder>(folder: &mut F, name: &str, kept: &[String]) -> usize
    requires { F.sound folder.old ≡ true }
    ensures few { result ≤ 1 }
    ensures sound { F.sound folder.new ≡ true }
    ensures lasting { F.failed folder.old ≡ true → F.failed folder.new ≡ true }
    ensures kept { KeepsStore F.shows F.kept F.sound F.moment F.left_since
        (names_in kept.now) folder.old folder.new }
{
    if is_kept(kept, name) {
        return 0;
    }
    match folder.remove(name) {
        Ok(()) => 0,
        Err(_) => 1,
    }
}

/// Removes, of these names, files of blocks that are not among those to be kept, folders of blocks
/// in which nothing stands, and the journal in the making. No other name is touched. How many could
/// not be removed.
///
/// The files to be kept are those that the head of the journal names, so whatever else stands in
/// the folder, nothing of the store is lost, also by a crash on the way.
pub fn sweep<F: Folder>(folder: &mut F, names: &[String], kept: &[String]) -> usize
    requires { F.sound folder.old ≡ true }
    ensures sound { F.sound folder.new ≡ true }
    ensures lasting { F.failed folder.old ≡ true → F.failed folder.new ≡ true }
    ensures kept { KeepsStore F.shows F.kept F.sound F.moment F.left_since
        (names_in kept.now) folder.old folder.new }
{
    let mut left = 0;
    for name in names {
        left += remove_litter(folder, name.as_str(), kept);
    }
    left
}
