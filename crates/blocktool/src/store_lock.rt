//! Stores that are kept in folders, while no server runs.

use crate::fault::Fault;
use folder_lock::{LockError, lock};
use std::alloc::Global;
use std::fs::File;
use store_folder::{RollFault, StartCause, StartError};
use store_joiner::ChangeFault;

/// Locks the folder of a store until what is returned is dropped.
pub(crate) fn lock_store(alloc: Global, host: &HostRuntime, data: &str) -> Result<File, Fault> {
    let path = format!(in alloc; "{data}/lock")?;
    match lock(host, path.as_str()) {
        Ok(file) => Ok(file),
        Err(LockError::Held(holder)) => Err(Fault::Locked(String::from_str(alloc, data)?, holder)),
        Err(LockError::Failed) => Err(Fault::CannotWrite(path)),
    }
}

/// The fault that a folder has no store that can be read.
fn no_store(alloc: Global, data: &str) -> Fault {
    match format!(in alloc; "{data}/journal") {
        Ok(path) => Fault::CannotRead(path),
        Err(_) => Fault::Memory,
    }
}

/// Why a store is not read.
fn not_read(alloc: Global, data: &str, error: StartError) -> Fault {
    match error.cause() {
        StartCause::Memory => Fault::Memory,
        StartCause::Folder => no_store(alloc, data),
        StartCause::Refused => match String::from_str(alloc, data) {
            Ok(data) => Fault::Store(data, error),
            Err(_) => Fault::Memory,
        },
    }
}

/// Why a store is not begun.
fn not_begun(alloc: Global, data: &str, error: StartError) -> Fault {
    if matches!(error.cause(), StartCause::Memory) {
        return Fault::Memory;
    }
    match format!(in alloc; "{data}/journal") {
        Ok(path) => Fault::CannotWrite(path),
        Err(_) => Fault::Memory,
    }
}

/// Why a store is not written.
fn not_written(alloc: Global, data: &str, fault: RollFault) -> Fault {
    if matches!(fault, RollFault::Memory) {
        return Fault::Memory;
    }
    match String::from_str(alloc, data) {
        Ok(path) => Fault::CannotWrite(path),
        Err(_) => Fault::Memory,
    }
}

/// Why the store of a folder is not changed.
pub(crate) fn not_changed(alloc: Global, data: &str, fault: ChangeFault) -> Fault {
    match fault {
        ChangeFault::NoStore => no_store(alloc, data),
        ChangeFault::Open(error) | ChangeFault::Resume(error) | ChangeFault::Again(error) => {
            not_read(alloc, data, error)
        }
        ChangeFault::Begin(error) => not_begun(alloc, data, error),
        ChangeFault::Roll(fault) => not_written(alloc, data, fault),
        ChangeFault::Changed | ChangeFault::Meaning => Fault::Changed,
        ChangeFault::Unfit(error, _) => not_read(alloc, data, StartError::Head(error)),
    }
}
