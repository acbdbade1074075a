//! The folder of a store that is kept: its lock, and where its files are.

ghost use Rattle.std.specs.Prelude.{◌≡◌, ◌++◌, codes, decimal, string_bytes, IfOk, IfErr};
ghost use Rattle.commands.specs.Keeping.{path_in, IsFolderFault};
ghost use Rattle.commands.specs.Keeping.{IsWriteFault, IsReadFault};

use crate::fault::Fault;
use folder_lock::{LockError, lock};
use std::alloc::{AllocError, Global};
use std::fs::{self, File};
use std::io::{self, ErrorKind};

pub(crate) fn path_in(alloc: Global, folder: &str, name: &str) -> Result<String, AllocError>
    ensures { IfOk result (λ path. string_bytes path ≡ path_in folder.now name.now) }
{
    format!(in alloc; "{folder}/{name}")
}

/// The path of the folder of the block with this number.
pub(crate) fn block_path_in(alloc: Global, folder: &str, number: u64) -> Result<String, AllocError>
    ensures { IfOk result (λ path.
        string_bytes path ≡ path_in folder.now (codes "blocks/" ++ decimal number)) }
{
    format!(in alloc; "{folder}/blocks/{number}")
}

/// The fault that what is at a path cannot be written.
pub(crate) fn cannot_write(alloc: Global, path: &str) -> Fault
    ensures { IsWriteFault path.now result }
{
    match path.to_string(alloc) {
        Ok(path) => Fault::CannotWriteAt(path),
        Err(_) => Fault::Memory,
    }
}

/// The fault that what is at a path cannot be read.
pub(crate) fn cannot_read(alloc: Global, path: &str) -> Fault
    ensures { IsReadFault path.now result }
{
    match path.to_string(alloc) {
        Ok(path) => Fault::CannotRead(path),
        Err(_) => Fault::Memory,
    }
}

/// The folder that another folder is in.
fn parent_of(folder: &str) -> &str {
    match folder.trim_end_matches('/').rsplit_once('/') {
        Some(("", _)) => "/",
        Some((parent, _)) => parent,
        None => ".",
    }
}

/// Syncs a folder, so that what was made and renamed in it stays.
fn sync_folder(host: &HostRuntime, folder: &str) -> io::Result<()> {
    File::open(host, folder)?.sync_all()
}

/// Makes a folder if there is nothing at its path, and syncs the folder that it is in, whoever made
/// it. A start that made it may have ended before the sync. If the folder was there, nothing fails
/// by that sync, since whoever may pass the folder above may not always open it.
fn make_folder(host: &HostRuntime, folder: &str) -> io::Result<()> {
    let stood = match fs::create_dir(host, folder) {
        Ok(()) => false,
        Err(error) if error.kind() == ErrorKind::AlreadyExists => true,
        Err(error) => return Err(error),
    };
    match sync_folder(host, parent_of(folder)) {
        Err(error) if !stood => Err(error),
        _ => Ok(()),
    }
}

/// Locks a folder by the lock file in it.
fn lock_folder(alloc: Global, host: &HostRuntime, folder: &str) -> Result<File, Fault>
    ensures { IfErr result (IsFolderFault folder.now) }
{
    let path = path_in(alloc, folder, "lock")?;
    match lock(host, path.as_str()) {
        Ok(file) => Ok(file),
        Err(LockError::Held(holder)) => Err(Fault::Locked(folder.to_string(alloc)?, holder)),
        Err(LockError::Failed) => Err(cannot_write(alloc, path.as_str())),
    }
}

/// Makes a folder if there is none, and locks it until what is returned is dropped.
pub(crate) fn lock_data(alloc: Global, host: &HostRuntime, folder: &str) -> Result<File, Fault>
    ensures { IfErr result (IsFolderFault folder.now) }
{
    if make_folder(host, folder).is_err() {
        return Err(cannot_write(alloc, folder));
    }
    lock_folder(alloc, host, folder)
}
