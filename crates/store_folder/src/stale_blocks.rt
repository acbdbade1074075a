//! Blocks that are no longer the store's.

ghost use Rattle.std.specs.Prelude.{◌≡◌, List, false, true};
ghost use Rattle.std.specs.Char.{is_ascii_digit};
ghost use Rattle.std.specs.List.{list_all};
ghost use Rattle.block_folder.specs.declared.values.Values.{Values};
ghost use Rattle.data_folder.specs.Folders.{LeavesOnly};
ghost use Rattle.data_folder.specs.Sweeping.{KeepsForeign};
ghost use Rattle.head.specs.Heads.{BlockPart, SnapshotParts};
ghost use Rattle.head.specs.Worlds.{Event as Change};
ghost use Rattle.head_record.specs.Saved.{Saved};
ghost use Rattle.store_folder.specs.Holding.{HoldsAt, HoldsStoreBetween, HoldsThese};
ghost use Rattle.store_folder.specs.Saving.{IsOldOrSaved};
ghost use Rattle.store_folder.specs.Starting.{StartFinds};
ghost use Rattle.store_folder.specs.States.{IsState};

use crate::error::BlockFault;
use crate::store_journal::{Beginning, StoreJournal};
use crate::sweeping::file_names;
use data_folder::{Folder, NEXT, list_names, sweep};
use head_record::BlockPlace;
use std::alloc::{AllocError, Global};

fn are_digits(name: &str) -> bool
    ensures { result ≡ list_all is_ascii_digit name.now }
{
    for byte in name.as_bytes() {
        if !byte.is_ascii_digit() {
            return false;
        }
    }
    true
}

/// Whether a name is that of a number.
fn is_number(name: &str) -> bool
    ensures { result ≡ is_number name.now }
{
    !name.is_empty() && are_digits(name)
}

/// Whether one of these names is that of a number.
fn has_number(names: &[String]) -> bool
    ensures { result ≡ has_number (names_in names.now) }
{
    for name in names {
        if is_number(name.as_str()) {
            return true;
        }
    }
    false
}

/// Whether a name is that of the folder of one of these places.
fn is_place(alloc: Global, places: &[BlockPlace], name: &str) -> Result<bool, AllocError> {
    for place in places {
        let number = place.folder();
        let own = format!(in alloc; "{number}")?;
        if own.as_str() == name {
            return Ok(true);
        }
    }
    Ok(false)
}

/// Adds the names of what a block has in the folder of this name, and the folder behind them.
fn push_litter(alloc: Global, names: &mut Vec<String>, name: &str) -> Result<(), AllocError> {
    names.push(format!(in alloc; "blocks/{name}/chunks/000001")?)?;
    names.push(format!(in alloc; "blocks/{name}/chunks")?)?;
    names.push(format!(in alloc; "blocks/{name}/index")?)?;
    names.push(format!(in alloc; "blocks/{name}/meta.json")?)?;
    names.push(format!(in alloc; "blocks/{name}/tombstones")?)?;
    names.push(format!(in alloc; "blocks/{name}")?)?;
    Ok(())
}

/// The names of what a roll that failed and blocks at other places than these have left behind, of
/// the names of the folders of blocks.
fn litter_names(
    alloc: Global,
    folders: &[String],
    places: &[BlockPlace],
) -> Result<Vec<String>, AllocError> {
    let mut names = Vec::new(alloc);
    names.push(NEXT.to_string(alloc)?)?;
    for folder in folders {
        let name = folder.as_str();
        if is_number(name) && !is_place(alloc, places, name)? {
            push_litter(alloc, &mut names, name)?;
        }
    }
    Ok(names)
}

impl<N: Beginning, F: Folder + Drop> StoreJournal<N, F> {
    /// Removes what blocks at other places than these have left behind: the files of a block in
    /// each folder of `blocks` with the name of a number that none of the places has, and then this
    /// folder, unless something else stands in it; and a next journal beside the journal. The
    /// places are all that the journal's head names. How many files and folders could not be
    /// removed.
    pub fn sweep_blocks(
        &mut self,
        alloc: Global,
        places: &[BlockPlace],
    ) -> Result<usize, BlockFault>
        requires open { self.old.events.journal.closed ≡ false }
        requires held { (events : List Change) × (parts : List BlockPart)
            × HoldsAt F.shows F.kept F.sound F.moment F.left_since N.first
            self.old.events.journal.medium self.old.events.journal.len
            self.old.events.journal.closed events places.now parts }
        ensures held { (events : List Change) (parts : List BlockPart)
            → HoldsAt F.shows F.kept F.sound F.moment F.left_since N.first
            self.old.events.journal.medium self.old.events.journal.len
            self.old.events.journal.closed events places.now parts
            → HoldsAt F.shows F.kept F.sound F.moment F.left_since N.first
            self.new.events.journal.medium self.new.events.journal.len
            self.new.events.journal.closed events places.now parts }
        ensures open { self.new.events.journal.closed ≡ false }
        ensures lasting { F.failed self.old.events.journal.medium.folder ≡ true
            → F.failed self.new.events.journal.medium.folder ≡ true }
        ensures len { self.new.events.journal.len ≡ self.old.events.journal.len }
        // After a crash at any moment of the call, a start finds the world of the same events.
        ensures any_moment { (events : List Change) (parts : List BlockPart)
            → HoldsAt F.shows F.kept F.sound F.moment F.left_since N.first
            self.old.events.journal.medium self.old.events.journal.len
            self.old.events.journal.closed events places.now parts
            → StartFinds F.moment F.left_since self.old.events.journal.medium.folder
            self.new.events.journal.medium.folder N.first events }
        // Such a crash leaves the same head, with its blocks and the events after it.
        ensures leaves { (events : List Change) (saved : Saved) (parts : List BlockPart)
            (late : List Change)
            → HoldsThese F.shows F.kept F.sound F.moment F.left_since N.first
            self.old.events.journal.medium self.old.events.journal.len
            self.old.events.journal.closed events saved parts late
            → saved.places ≡ places.now
            → LeavesOnly F.moment F.left_since self.old.events.journal.medium.folder
            self.new.events.journal.medium.folder (IsState saved parts late) }
        // What is none of the store's stays, and so do the files of the blocks at these places.
        ensures foreign { KeepsForeign F.shows F.kept self.old.events.journal.medium.folder
            self.new.events.journal.medium.folder }
        ensures kept { KeepsStore F.shows F.kept F.sound F.moment F.left_since
            (names_at places.now) self.old.events.journal.medium.folder
            self.new.events.journal.medium.folder }
    {
        sweep_apart(alloc, &mut self.events.journal.medium.folder, places)
    }

    /// Removes what a roll that failed has left behind, as [`StoreJournal::sweep_blocks`] does, if
    /// the journal goes on.
    pub(crate) fn sweep_after(&mut self, alloc: Global, places: &[BlockPlace])
        requires { self.old.events.journal.closed ≡ false → (events : List Change)
            × (parts : List BlockPart) × HoldsAt F.shows F.kept F.sound F.moment F.left_since
            N.first self.old.events.journal.medium self.old.events.journal.len
            self.old.events.journal.closed events places.now parts }
        ensures closed { self.new.events.journal.closed ≡ self.old.events.journal.closed }
        ensures lasting { F.failed self.old.events.journal.medium.folder ≡ true
            → F.failed self.new.events.journal.medium.folder ≡ true }
        ensures rests { self.old.events.journal.closed ≡ true → self.new ≡ self.old }
        ensures at { self.old.events.journal.closed ≡ false → (events : List Change)
            → (parts : List BlockPart)
            → HoldsAt F.shows F.kept F.sound F.moment F.left_since N.first
            self.old.events.journal.medium self.old.events.journal.len
            self.old.events.journal.closed events places.now parts
            → HoldsAt F.shows F.kept F.sound F.moment F.left_since N.first
            self.new.events.journal.medium self.new.events.journal.len
            self.new.events.journal.closed events places.now parts }
        // What was held is held, and a journal that was lost stays as it was.
        ensures held { (events after : List Change) (parts : List BlockPart)
            → (self.old.events.journal.closed ≡ false
            → HoldsAt F.shows F.kept F.sound F.moment F.left_since N.first
            self.old.events.journal.medium self.old.events.journal.len
            self.old.events.journal.closed events places.now parts)
            → HoldsStoreBetween F.shows F.kept F.sound F.moment F.left_since N.first
            self.old.events.journal.medium self.old.events.journal.len
            self.old.events.journal.closed events after
            → HoldsStoreBetween F.shows F.kept F.sound F.moment F.left_since N.first
            self.new.events.journal.medium self.new.events.journal.len
            self.new.events.journal.closed events after }
        // After a crash at any moment since a folder, a start finds the same world.
        ensures any_moment { (events : List Change) (parts : List BlockPart) (before : F)
            → (self.old.events.journal.closed ≡ false
            → HoldsAt F.shows F.kept F.sound F.moment F.left_since N.first
            self.old.events.journal.medium self.old.events.journal.len
            self.old.events.journal.closed events places.now parts)
            → StartFinds F.moment F.left_since before self.old.events.journal.medium.folder
            N.first events
            → StartFinds F.moment F.left_since before self.new.events.journal.medium.folder
            N.first events }
        // Such a crash leaves what one before the call may leave.
        ensures leaves { (events : List Change) (saved : Saved) (parts : List BlockPart)
            (late : List Change) (values : Values) (s : SnapshotParts) (before : F)
            → (self.old.events.journal.closed ≡ false
            → HoldsThese F.shows F.kept F.sound F.moment F.left_since N.first
            self.old.events.journal.medium self.old.events.journal.len
            self.old.events.journal.closed events saved parts late)
            → saved.places ≡ places.now
            → LeavesOnly F.moment F.left_since before self.old.events.journal.medium.folder
            (IsOldOrSaved saved parts late values s)
            → LeavesOnly F.moment F.left_since before self.new.events.journal.medium.folder
            (IsOldOrSaved saved parts late values s) }
        ensures foreign { KeepsForeign F.shows F.kept self.old.events.journal.medium.folder
            self.new.events.journal.medium.folder }
        ensures blocks { (files : List Named) → AreAmong (names_at places.now) files
            → AreThere F.shows F.kept files self.old.events.journal.medium.folder
            → AreThere F.shows F.kept files self.new.events.journal.medium.folder }
    {
        if self.events.journal.closed {
            return;
        }
        let _ = self.sweep_blocks(alloc, places);
    }
}

ghost use Rattle.std.specs.Prelude.{IfOk, OnErr, true};
ghost use Rattle.data_folder.specs.Folders.{Untouched};
ghost use Rattle.data_folder.specs.States.{AreThere, Named};
ghost use Rattle.data_folder.specs.Sweeping.{AreAmong, KeepsStore, names_in};
ghost use Rattle.store_folder.specs.Sweeps.{ListsNumber, has_number, is_number, names_at};

/// Whether something lies in a folder under a name that a block of a store has: whether one of the
/// names that stand in `blocks` is that of a number. All files stay.
pub fn has_blocks<F: Folder>(alloc: Global, folder: &mut F) -> Result<bool, BlockFault>
    requires { F.sound folder.old ≡ true }
    ensures told { IfOk result (ListsNumber F.lists folder.new) }
    ensures failed { OnErr result (F.failed folder.new ≡ true) }
    ensures sound { F.sound folder.new ≡ true }
    ensures untouched { Untouched F.shows F.kept F.moment F.left_since
        folder.old folder.new }
{
    match folder.names(alloc, "blocks") {
        Ok(names) => Ok(has_number(&names)),
        Err(_) => Err(BlockFault::Medium),
    }
}

/// Removes what [`StoreJournal::sweep_blocks`] does from a folder of which no journal is open. All
/// that is no block's stays, as the journal, also one whose end is torn, but for a next journal;
/// and so do the files of blocks at these places.
pub fn sweep_apart<F: Folder>(
    alloc: Global,
    folder: &mut F,
    places: &[BlockPlace],
) -> Result<usize, BlockFault>
    requires { F.sound folder.old ≡ true }
    ensures sound { F.sound folder.new ≡ true }
    ensures lasting { F.failed folder.old ≡ true → F.failed folder.new ≡ true }
    ensures kept { KeepsStore F.shows F.kept F.sound F.moment F.left_since (names_at places.now)
        folder.old folder.new }
{
    let Ok(kept) = file_names(alloc, places) else {
        return Err(BlockFault::Memory);
    };
    let folders = match list_names(alloc, folder, "blocks") {
        Ok(folders) => folders,
        Err(_) => return Err(BlockFault::Medium),
    };
    let Ok(names) = litter_names(alloc, &folders, places) else {
        return Err(BlockFault::Memory);
    };
    Ok(sweep(folder, &names, &kept))
}
