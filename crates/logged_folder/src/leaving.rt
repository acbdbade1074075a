//! What a crash leaves of a folder.

ghost use Rattle.std.specs.Prelude.{◌≡◌, IfOk, Some, take, true, string_bytes};
ghost use Rattle.data_folder.specs.Folders.{MayLeaveOf};
ghost use Rattle.logged_folder.specs.Logged.{IsLeftOf, MayLeaveAll, bytes_of, files_of};
ghost use Rattle.logged_folder.specs.Logged.{logged_sound};

use crate::{Entry, LoggedFolder};
use std::alloc::{AllocError, Global};

/// How many bytes of a file are not synced.
fn unsynced_of(entry: &Entry) -> usize {
    match &entry.bytes {
        Some(bytes) => bytes.len().saturating_sub(entry.synced),
        None => 0,
    }
}

/// What is left of a file: what is synced of it, and so many bytes more. All of that is synced.
fn file_left(
    alloc: Global,
    name: String,
    bytes: &[u8],
    synced: usize,
    unsynced: usize,
) -> Result<Entry, AllocError>
    ensures named { IfOk result (λ left. string_bytes left.name ≡ string_bytes name) }
    ensures bytes { IfOk result (λ left.
        MayLeaveOf synced (Some bytes.now) (bytes_of left.bytes)) }
{
    let mut left = bytes.to_vec(alloc)?;
    left.truncate(synced.saturating_add(unsynced));
    let len = left.len();
    Ok(Entry {
        name,
        bytes: Some(left),
        synced: len,
    })
}

/// What is left of an entry, with so many bytes that were not synced.
fn entry_left(alloc: Global, entry: &Entry, unsynced: usize) -> Result<Entry, AllocError>
    ensures { IfOk result (λ left. IsLeftOf entry.now left) }
{
    let name = entry.name.clone()?;
    match &entry.bytes {
        Some(bytes) => file_left(alloc, name, bytes, entry.synced, unsynced),
        None => Ok(Entry {
            name,
            bytes: None,
            synced: 0,
        }),
    }
}

impl LoggedFolder {
    /// How many changes there were.
    pub fn entries(&self) -> usize {
        self.log.len()
    }

    /// How many bytes are not synced of the file that the last of the first so many changes wrote.
    pub fn unsynced(&self, entries: usize) -> usize {
        match self.log.get(entries.saturating_sub(1)) {
            Some(entry) => unsynced_of(entry),
            None => 0,
        }
    }

    /// What a crash may leave after the first so many changes: of each file what is synced of it,
    /// and at most so many bytes more. In what is left all is synced, and no call fails.
    pub fn left(&self, entries: usize, unsynced: usize) -> Result<LoggedFolder, AllocError>
        ensures left { IfOk result (λ f.
            MayLeaveAll (take entries self.now.log.items) (files_of f.log.items)) }
        ensures sound { IfOk result (λ f. logged_sound f ≡ true) }
    {
        let mut log = Vec::new(self.alloc);
        for at in 0..self.log.len().min(entries) {
            log.push(entry_left(self.alloc, &self.log[at], unsynced)?)?;
        }
        Ok(LoggedFolder {
            alloc: self.alloc,
            log,
            before: 0,
            failing: 0,
            lost: false,
            failed: false,
        })
    }
}
