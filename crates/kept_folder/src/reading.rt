//! Reading the folder of a store.

ghost use Rattle.std.specs.Prelude.{◌≡◌, ◌↔◌, IsTrue, IfOk, IfErr, MatchBool, MatchOption};
ghost use Rattle.audit_command.specs.Reading.{AreFirstBytes};
ghost use Rattle.audit_command.specs.Walking.{AreTablesAt, IsFirstFault};
ghost use Rattle.kept_folder.specs.Heads.{IsMarked};
ghost use Rattle.kept_folder.specs.Folders.{HasChanged, IsBytesFault, IsChanging, IsFaultOf};
ghost use Rattle.kept_folder.specs.Folders.{IsJournalAt, IsJournalFault, IsStoreAt, IsStoreFault};
ghost use Rattle.kept_folder.specs.Folders.{IsStoreOf, IsUnreadJournal, StillBegins, block_paths};
ghost use Rattle.kept_folder.specs.Folders.{journal_path, most};

use crate::fault::StoreFault;
use crate::heads::head_sum;
use crate::paths::{block_paths, journal_path, lent};
use audit_command::{Fault, OneThread, ReadError, ReadFiles, Walker, tables_by};
use auditor::BlockTable;
use kept_walk::{Kept, KeptError};
use std::alloc::{AllocError, Global};

/// How many bytes of a journal are read at most.
const MOST: usize = 0x4000_0000_0000_0000;

/// How often a folder is read that changes.
const TURNS: usize = 8;

/// What is read of the folder of a store.
#[derive(Drop)]
pub struct FoundStore {
    /// What its journal says.
    pub kept: Kept,
    /// The checksum of the journal's head, which tells it from another.
    pub head: u32,
    /// What is known of the blocks that the journal's head names, in their order.
    pub tables: Vec<BlockTable>,
}

/// What is read of the journal of a store.
#[derive(Drop)]
pub struct FoundJournal {
    /// What it says.
    pub kept: Kept,
    /// The checksum of its head.
    pub head: u32,
}

fn read_journal<F: ReadFiles>(alloc: Global, files: &F, path: &str) -> Result<Vec<u8>, StoreFault>
    ensures ok { IfOk result (λ bytes.
        AreFirstBytes (F.may_read files.now) path.now most bytes.items) }
    ensures err { IfErr result (λ fault. IsJournalFault (F.may_read files.now) path.now fault) }
{
    match files.read_file(alloc, path, MOST) {
        Ok(bytes) => Ok(bytes),
        Err(ReadError::Memory) => Err(StoreFault::Files(Fault::Memory)),
        Err(ReadError::Unreadable) => {
            let path = String::from_str(alloc, path)?;
            Err(StoreFault::Files(Fault::CannotRead(path)))
        }
    }
}

fn is_same(a: &[u8], b: &[u8]) -> bool
    ensures { IsTrue result ↔ (a.now ≡ b.now) }
{
    a == b
}

/// Whether the file at a path still begins with these bytes.
fn still_begins<F: ReadFiles>(
    alloc: Global,
    files: &F,
    path: &str,
    bytes: &[u8],
) -> Result<bool, AllocError>
    ensures { IfOk result (λ same. MatchBool same
        (StillBegins (F.may_read files.now) path.now bytes.now)
        (HasChanged (F.may_read files.now) path.now bytes.now)) }
{
    match files.read_file(alloc, path, bytes.len()) {
        Ok(later) => Ok(is_same(&later, bytes)),
        Err(ReadError::Memory) => Err(AllocError),
        Err(ReadError::Unreadable) => Ok(false),
    }
}

/// What is known of the blocks that a head names.
fn tables_of<K: Walker, F: ReadFiles>(
    walker: &K,
    alloc: Global,
    files: &F,
    folder: &str,
    kept: &Kept,
) -> Result<Vec<BlockTable>, Fault>
    requires ready { K.is_ready walker.now }
    ensures ok { IfOk result (λ tables. AreTablesAt (F.may_read files.now)
        (block_paths folder.now kept.now.folders) tables.items) }
    ensures err { IfErr result (λ fault. IsFirstFault (F.may_read files.now)
        (block_paths folder.now kept.now.folders) fault) }
{
    let paths = block_paths(alloc, folder, kept.folders())?;
    let directories = lent(alloc, &paths)?;
    tables_by(walker, alloc, files, &directories)
}

/// What a journal of these bytes says.
fn journal_of(alloc: Global, bytes: &[u8]) -> Result<FoundJournal, StoreFault>
    ensures ok { IfOk result (λ found. IsMarked bytes.now found.kept found.head) }
    ensures err { IfErr result (λ fault. IsBytesFault bytes.now fault) }
{
    match Kept::read(alloc, bytes) {
        Ok(kept) => {
            let head = head_sum(alloc, bytes, kept.changes().len())?;
            Ok(FoundJournal { kept, head })
        }
        Err(KeptError::Memory) => Err(StoreFault::Files(Fault::Memory)),
        Err(error) => Err(StoreFault::Refused(error)),
    }
}

/// What a journal of these bytes says, and what is known of the blocks that its head names.
fn store_of<K: Walker, F: ReadFiles>(
    walker: &K,
    alloc: Global,
    files: &F,
    folder: &str,
    bytes: &[u8],
) -> Result<FoundStore, StoreFault>
    requires ready { K.is_ready walker.now }
    ensures ok { IfOk result (λ found. IsStoreOf (F.may_read files.now) folder.now bytes.now
        found) }
    ensures err { IfErr result (λ fault.
        IsFaultOf (F.may_read files.now) folder.now bytes.now fault) }
{
    let FoundJournal { kept, head } = journal_of(alloc, bytes)?;
    match tables_of(walker, alloc, files, folder, &kept) {
        Ok(tables) => Ok(FoundStore { kept, head, tables }),
        Err(fault) => Err(StoreFault::Files(fault)),
    }
}

/// What is read of a folder, unless its journal has changed behind that.
fn read_once<K: Walker, F: ReadFiles>(
    walker: &K,
    alloc: Global,
    files: &F,
    folder: &str,
    path: &str,
) -> Result<Option<FoundStore>, StoreFault>
    requires ready { K.is_ready walker.now }
    requires path { path.now ≡ journal_path folder.now }
    ensures ok { IfOk result (λ once. MatchOption once
        (IsChanging (F.may_read files.now) folder.now)
        (λ found. IsStoreAt (F.may_read files.now) folder.now found)) }
    ensures err { IfErr result (λ fault.
        IsStoreFault (F.may_read files.now) folder.now fault) }
{
    let bytes = read_journal(alloc, files, path)?;
    let store = store_of(walker, alloc, files, folder, &bytes);
    if !still_begins(alloc, files, path, &bytes)? {
        return Ok(None);
    }
    match store {
        Ok(found) => Ok(Some(found)),
        Err(fault) => Err(fault),
    }
}

/// Reads the folder of a store: its journal, then the files of the blocks that the journal's head
/// names, and then the front of the journal again. If that is another by then, all is read again,
/// eight times at most.
///
/// The store may run meanwhile. A journal that is refused, and a file that is missing, are told
/// only if the journal is still the same. It takes the memory of the journal twice, and of the
/// blocks.
pub fn read_store_by<K: Walker, F: ReadFiles>(
    walker: &K,
    alloc: Global,
    files: &F,
    folder: &str,
) -> Result<FoundStore, StoreFault>
    requires ready { K.is_ready walker.now }
    // What is read is one journal and the blocks of its head, which it had before and behind them.
    ensures ok { IfOk result (λ found. IsStoreAt (F.may_read files.now) folder.now found) }
    // A fault is of such a journal, or it changed.
    ensures err { IfErr result (λ fault.
        IsStoreFault (F.may_read files.now) folder.now fault) }
{
    let path = journal_path(alloc, folder)?;
    for turn in 0..TURNS {
        if let Some(found) = read_once(walker, alloc, files, folder, path.as_str())? {
            return Ok(found);
        }
    }
    Err(StoreFault::Changes)
}

/// The same as [`read_store_by`], by the calling thread alone.
pub fn read_store<F: ReadFiles>(
    alloc: Global,
    files: &F,
    folder: &str,
) -> Result<FoundStore, StoreFault>
    ensures ok { IfOk result (λ found. IsStoreAt (F.may_read files.now) folder.now found) }
    ensures err { IfErr result (λ fault.
        IsStoreFault (F.may_read files.now) folder.now fault) }
{
    read_store_by(&OneThread, alloc, files, folder)
}

/// Reads the journal of a store alone, once: an append that is seen half is a torn end, and a store
/// that begins its journal anew puts another file in its place.
pub fn read_kept<F: ReadFiles>(
    alloc: Global,
    files: &F,
    folder: &str,
) -> Result<FoundJournal, StoreFault>
    ensures ok { IfOk result (λ found. IsJournalAt (F.may_read files.now) folder.now found) }
    ensures err { IfErr result (λ fault.
        IsUnreadJournal (F.may_read files.now) folder.now fault) }
{
    let path = journal_path(alloc, folder)?;
    let bytes = read_journal(alloc, files, path.as_str())?;
    journal_of(alloc, &bytes)
}
