//! A store that is read while another process may change it.

ghost use Rattle.std.specs.Prelude.{◌≡◌, IfErr, IfOk, OnOk, map, true};
ghost use Rattle.data_folder.specs.Folders.{HasFile, Untouched};
ghost use Rattle.data_folder.specs.JournalFile.{journal_name};
ghost use Rattle.head.specs.Blocks.{part_in};
ghost use Rattle.store_backup.specs.Reading.{DeniesSource, DeniesText, IsOfStart, IsRead};
ghost use Rattle.store_backup.specs.Reading.{IsSettled};
ghost use Rattle.store_folder.specs.Finding.{IsFoundStore};

use crate::error::CopyFault;
use data_folder::{Folder, JOURNAL};
use std::alloc::Global;
use std::thread::Threads;
use store_folder::{FoundStore, StartError, read_store};

/// The file of a folder's journal.
fn journal_of<F: Folder>(alloc: Global, folder: &mut F) -> Result<Vec<u8>, CopyFault>
    requires { F.sound folder.old ≡ true }
    ensures file { IfOk result (λ file.
        HasFile F.shows F.kept journal_name file.items folder.new) }
    ensures sound { OnOk result (F.sound folder.new ≡ true) }
    ensures untouched { Untouched F.shows F.kept F.moment F.left_since
        folder.old folder.new }
    ensures refused { IfErr result (DeniesText F.shows F.failed folder.new) }
{
    match folder.read(alloc, JOURNAL) {
        Ok(Some(file)) => Ok(file),
        Ok(None) => Err(CopyFault::NoStore),
        Err(_) => Err(CopyFault::Source(StartError::Medium)),
    }
}

/// The store of a folder, of which `source` and `again` are two views: it is read by the one, and
/// then its journal by the other. Nothing is changed. `Changed` where that journal does not begin
/// with what was read of it first, whatever was read in between.
pub(crate) fn read_settled<R: Threads + Sync, F: Folder>(
    rt: &R,
    alloc: Global,
    source: &mut F,
    again: &mut F,
) -> Result<FoundStore, CopyFault>
    requires source { F.sound source.old ≡ true }
    requires again { F.sound again.old ≡ true }
    ensures read { IfOk result (λ s. IsRead F.shows F.kept s.journal.head
        (map part_in s.blocks.items) s.journal.events.items source.old source.new) }
    ensures found { IfOk result (λ s. IsFoundStore F.shows F.kept s.journal
        (map part_in s.blocks.items) source.new) }
    ensures settled { OnOk result (IsSettled F.shows F.kept source.new again.new) }
    ensures untouched { Untouched F.shows F.kept F.moment F.left_since
        source.old source.new }
    ensures looked { Untouched F.shows F.kept F.moment F.left_since again.old again.new }
    ensures refused { IfErr result
        (DeniesSource F.shows F.kept F.failed source.new again.new) }
    ensures told { IfErr result IsOfStart }
{
    let first = match journal_of(alloc, source) {
        Ok(first) => first,
        Err(fault) => return Err(fault),
    };
    let read = read_store(rt, alloc, source);
    let last = match journal_of(alloc, again) {
        Ok(last) => last,
        Err(fault) => return Err(fault),
    };
    if !last.starts_with(first.as_slice()) {
        return Err(CopyFault::Changed);
    }
    match read {
        Ok(Some(store)) => Ok(store),
        Ok(None) => Err(CopyFault::NoStore),
        Err(error) => Err(CopyFault::Source(error)),
    }
}
