//! A file that is locked.

use crate::holder::Holder;
use std::fs::{File, OpenOptions, TryLockError};
use std::io::{self, Read, Write};
use std::process;

/// Why a file is not locked.
#[derive(Clone, Copy, Debug, PartialEq, Eq, Drop)]
pub enum LockError {
    /// Another process has it.
    Held(Holder),
    /// The file can't be opened, or the system locks none.
    Failed,
}

/// The number that stands in a line.
fn number_in(line: &[u8]) -> Option<u64> {
    str::from_utf8(line).ok()?.trim_end().parse().ok()
}

/// The process that a lock file names, if it names one.
fn holder_in(file: &File) -> Holder {
    let mut line = [0u8; 20];
    let mut reader = file;
    let Ok(len) = reader.read(&mut line) else {
        return Holder::Another;
    };
    match line.get(..len).and_then(number_in) {
        Some(number) => Holder::Process(number),
        None => Holder::Another,
    }
}

/// Names this process in a lock file, for those that find it locked.
fn name_holder(host: &HostRuntime, file: &mut File) -> io::Result<()> {
    let number = process::id(host.process());
    file.set_len(0)?;
    writeln!(file, "{number}")
}

fn open_lock(host: &HostRuntime, path: &str) -> io::Result<File> {
    let mut how = OpenOptions::new();
    how.read(true).write(true).create(true);
    how.open(host, path)
}

/// Locks a file, which is made if it does not stand there, until what is given back is dropped. If
/// another process has it, the error tells which.
pub fn lock(host: &HostRuntime, path: &str) -> Result<File, LockError> {
    let Ok(mut file) = open_lock(host, path) else {
        return Err(LockError::Failed);
    };
    match file.try_lock() {
        Ok(()) => {
            let _ = name_holder(host, &mut file);
            Ok(file)
        }
        Err(TryLockError::WouldBlock) => Err(LockError::Held(holder_in(&file))),
        Err(TryLockError::Error(_)) => Err(LockError::Failed),
    }
}
