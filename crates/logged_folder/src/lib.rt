//! A folder in memory that tells what its files have, and what a crash leaves of them.
//!
//! [`LoggedFolder`] meets each clause of `Folder`, so the clauses of what is written over a folder,
//! as a journal that begins anew, are not those of a folder that cannot be; [`logged_journal`] is
//! such a journal. [`LoggedFolder::left`] is what a crash may leave of it: the crate is for this
//! proof and for tests. A store is kept in a `HostFolder`.
//!
//! It stands on `data_folder` and `journal`. A folder as a log of what was done to it, of which a
//! crash leaves a front, is how file systems with a journal are explained.
#![tactic(auto)]

ghost use Rattle.std.specs.Prelude.{◌≡◌, ◌++◌, ℕ, List, None, Some, true, false};
ghost use Rattle.std.specs.Prelude.{length, take, string_bytes, if◌then◌else◌, IfOk, IfSome};
ghost use Rattle.std.specs.Prelude.{IfNone};
ghost use Rattle.std.specs.Str.{bytes_eq};
ghost use Rattle.data_folder.specs.Rolls.{Keeps};
ghost use Rattle.journal.specs.Group.{IsJournalText};
ghost use Rattle.logged_folder.specs.Logged.{IsAt, MayGrowInPart, Pushes, logged_kept};
ghost use Rattle.logged_folder.specs.Logged.{logged_shows};
ghost use Rattle.logged_folder.specs.Logged.{logged_sound, state_of};

mod leaving;
mod listing;

use data_folder::{Folder, JournalFile, begin};
use journal::{Journal, MediumError};
use std::alloc::Global;

/// What a call made of a file: its bytes, and how many of them each crash leaves from then on.
#[derive(Drop)]
pub(crate) struct Entry {
    pub(crate) name: String,
    pub(crate) bytes: Option<Vec<u8>>,
    pub(crate) synced: usize,
}

/// Files in memory, as a log of what was done to them. A crash leaves what some front of the log
/// says, and of bytes that were not synced the first few. So many calls that change something go
/// well, and then so many fail, of which an append leaves half of its bytes and all others leave
/// nothing; after these each goes well.
///
/// It meets what [`Folder`] says of values and crashes: each of them can be met. A file that takes
/// another's place stays under its own name too.
#[derive(Drop)]
pub struct LoggedFolder {
    alloc: Global,
    log: Vec<Entry>,
    before: u64,
    failing: u64,
    lost: bool,
    failed: bool,
}

/// Where the last entry of a name stands, with one entry more.
fn later(entry: &Entry, name: &str, i: usize, found: Option<usize>) -> Option<usize>
    ensures { result ≡ (if bytes_eq (string_bytes entry.now.name) name.now then Some i else found) }
{
    if entry.name.as_str() == name {
        return Some(i);
    }
    found
}

/// Where the last entry of a name stands.
fn last_of(log: &[Entry], name: &str) -> Option<usize>
    ensures { IsAt log.now name.now result }
{
    let mut found = None;
    for i in 0..log.len() {
        found = later(&log[i], name, i, found);
    }
    found
}

impl LoggedFolder {
    ghost use Rattle.std.specs.Prelude.{max};
    ghost use Rattle.logged_folder.specs.Logged.{bytes_of, logged_kept, logged_shows, logged_sound};

    /// No files. So many calls that change something go well, and then so many fail.
    pub fn new(alloc: Global, before: u64, failing: u64) -> LoggedFolder
        ensures empty { (name : List ℕ)
            → logged_shows result name None × logged_kept result name 0 }
        ensures sound { logged_sound result ≡ true }
    {
        LoggedFolder {
            alloc,
            log: Vec::new(alloc),
            before,
            failing,
            lost: false,
            failed: false,
        }
    }

    fn goes_well(&mut self) -> bool
        ensures log { self.new.log ≡ self.old.log }
        ensures lost { self.new.lost ≡ self.old.lost }
        ensures failed { self.new.failed ≡ self.old.failed }
    {
        if self.before > 0 {
            self.before -= 1;
            return true;
        }
        if self.failing > 0 {
            self.failing -= 1;
            return false;
        }
        true
    }

    /// How many calls are still to fail, also those before which others go well.
    pub fn to_fail(&self) -> u64 {
        self.failing
    }

    /// Adds an entry.
    fn push(&mut self, name: &str, bytes: Option<Vec<u8>>, synced: usize) -> bool
        ensures done { result ≡ true → Pushes name.now
            (record { bytes = bytes_of bytes; synced = synced })
            self.old.log.items self.new.log.items }
        ensures not_done { result ≡ false → self.new.log.items ≡ self.old.log.items }
        ensures lost { self.new.lost ≡ self.old.lost }
        ensures failed { self.new.failed ≡ self.old.failed }
    {
        let Ok(name) = String::from_str(self.alloc, name) else {
            return false;
        };
        match self.log.push(Entry {
            name,
            bytes,
            synced,
        }) {
            Ok(()) => {}
            Err(_) => return false,
        }
        true
    }

    /// A copy of what a name has, and how much of it is there for good; `None` if it has nothing,
    /// or no memory is left.
    fn copy(&self, name: &str) -> Option<(Vec<u8>, usize)>
        ensures { IfSome result (λ x.
            ((state_of name.now self.now.log.items).bytes ≡ Some x.0.items)
            × ((state_of name.now self.now.log.items).synced ≡ x.1)) }
    {
        match last_of(&self.log, name) {
            Some(at) => match &self.log[at].bytes {
                Some(bytes) => match bytes.to_vec(self.alloc) {
                    Ok(copy) => Some((copy, self.log[at].synced)),
                    Err(_) => None,
                },
                None => None,
            },
            None => None,
        }
    }

    /// Whether a name has nothing.
    fn is_free(&self, name: &str) -> bool
        ensures { result ≡ true → (state_of name.now self.now.log.items).bytes ≡ None }
    {
        match last_of(&self.log, name) {
            Some(at) => self.log[at].bytes.is_none(),
            None => true,
        }
    }

    fn grow(&mut self, name: &str, more: &[u8]) -> bool
        ensures done { result ≡ true → (old : List ℕ)
            × ((state_of name.now self.old.log.items).bytes ≡ Some old)
            × Pushes name.now (record {
              bytes = Some (old ++ more.now);
              synced = (state_of name.now self.old.log.items).synced;
            }) self.old.log.items self.new.log.items }
        ensures not_done { result ≡ false → self.new.log.items ≡ self.old.log.items }
        ensures lost { self.new.lost ≡ self.old.lost }
        ensures failed { self.new.failed ≡ self.old.failed }
    {
        if !self.goes_well() {
            return false;
        }
        match self.copy(name) {
            Some((mut bytes, synced)) => {
                if bytes.extend_from_slice(more).is_err() {
                    return false;
                }
                self.push(name, Some(bytes), synced)
            }
            None => false,
        }
    }

    /// Adds the first half of some bytes to a file, as a write that fails may.
    fn grow_by_half(&mut self, name: &str, more: &[u8])
        ensures grown { MayGrowInPart name.now more.now self.old.log.items self.new.log.items }
        ensures lost { self.new.lost ≡ self.old.lost }
        ensures failed { self.new.failed ≡ self.old.failed }
    {
        let Some((mut bytes, synced)) = self.copy(name) else {
            return;
        };
        let half = more.len() / 2;
        if synced > bytes.len() || bytes.extend_from_slice(&more[..half]).is_err() {
            return;
        }
        self.push(name, Some(bytes), synced);
    }

    fn settle(&mut self, name: &str) -> bool
        ensures done { result ≡ true → (old : List ℕ)
            × ((state_of name.now self.old.log.items).bytes ≡ Some old)
            × Pushes name.now (record {
              bytes = Some old;
              synced = max (state_of name.now self.old.log.items).synced (length old);
            }) self.old.log.items self.new.log.items }
        ensures not_done { result ≡ false → self.new.log.items ≡ self.old.log.items }
        ensures lost { self.new.lost ≡ self.old.lost }
        ensures failed { self.new.failed ≡ self.old.failed }
    {
        if !self.goes_well() {
            return false;
        }
        match self.copy(name) {
            Some((bytes, synced)) => {
                let all = synced.max(bytes.len());
                self.push(name, Some(bytes), all)
            }
            None => false,
        }
    }

    /// Syncs a file, and gives a copy of it.
    fn settled(&mut self, name: &str) -> Option<Vec<u8>>
        ensures done { IfSome result (λ x.
            ((state_of name.now self.old.log.items).bytes ≡ Some x.items)
            × Pushes name.now (record {
              bytes = Some x.items;
              synced = max (state_of name.now self.old.log.items).synced (length x.items);
            }) self.old.log.items self.new.log.items) }
        ensures not_done { IfNone result (self.new.log.items ≡ self.old.log.items) }
        ensures lost { self.new.lost ≡ self.old.lost }
        ensures failed { self.new.failed ≡ self.old.failed }
    {
        match self.copy(name) {
            Some((bytes, _)) => {
                if self.settle(name) {
                    return Some(bytes);
                }
                None
            }
            None => None,
        }
    }

    fn shorten(&mut self, name: &str, len: usize) -> bool
        ensures done { result ≡ true → (old : List ℕ)
            × ((state_of name.now self.old.log.items).bytes ≡ Some old)
            × Pushes name.now (record { bytes = Some (take len old); synced = len })
            self.old.log.items self.new.log.items }
        ensures not_done { result ≡ false → self.new.log.items ≡ self.old.log.items }
        ensures lost { self.new.lost ≡ self.old.lost }
        ensures failed { self.new.failed ≡ self.old.failed }
    {
        if !self.goes_well() {
            return false;
        }
        match self.copy(name) {
            Some((mut bytes, _)) => {
                bytes.truncate(len);
                self.push(name, Some(bytes), len)
            }
            None => false,
        }
    }

    fn put(&mut self, name: &str, bytes: &[u8]) -> bool
        ensures done { result ≡ true → Pushes name.now
            (record { bytes = Some bytes.now; synced = length bytes.now })
            self.old.log.items self.new.log.items }
        ensures not_done { result ≡ false → self.new.log.items ≡ self.old.log.items }
        ensures lost { self.new.lost ≡ self.old.lost }
        ensures failed { self.new.failed ≡ self.old.failed }
    {
        if !self.goes_well() {
            return false;
        }
        match bytes.to_vec(self.alloc) {
            Ok(copy) => {
                let all = copy.len();
                self.push(name, Some(copy), all)
            }
            Err(_) => false,
        }
    }

    fn erase(&mut self, name: &str) -> bool
        ensures done { result ≡ true → Pushes name.now (record { bytes = None; synced = 0 })
            self.old.log.items self.new.log.items }
        ensures not_done { result ≡ false → self.new.log.items ≡ self.old.log.items }
        ensures lost { self.new.lost ≡ self.old.lost }
        ensures failed { self.new.failed ≡ self.old.failed }
    {
        if !self.goes_well() {
            return false;
        }
        self.push(name, None, 0)
    }

    fn link(&mut self, from: &str, to: &str) -> bool
        ensures done { result ≡ true → (old : List ℕ)
            × ((state_of from.now self.old.log.items).bytes ≡ Some old)
            × Pushes to.now (record {
              bytes = Some old;
              synced = (state_of from.now self.old.log.items).synced;
            }) self.old.log.items self.new.log.items }
        ensures not_done { result ≡ false → self.new.log.items ≡ self.old.log.items }
        ensures lost { self.new.lost ≡ self.old.lost }
        ensures failed { self.new.failed ≡ self.old.failed }
    {
        if !self.goes_well() {
            return false;
        }
        match self.copy(from) {
            Some((bytes, synced)) => self.push(to, Some(bytes), synced),
            None => false,
        }
    }
}

impl Folder for LoggedFolder {
    ghost use Rattle.logged_folder.specs.Logged.{logged_kept, logged_left, logged_shows};
    ghost use Rattle.logged_folder.specs.Logged.{logged_sound};
    ghost use Rattle.logged_folder.specs.LoggedLaws.{only_since, since_earlier};

    ghost shows = { λ f name x. logged_shows f name x };

    ghost lists = { λ f folder names. Unit {0} };

    ghost kept = { λ f name n. logged_kept f name n };

    ghost sound = { λ f. logged_sound f };

    ghost failed = { λ f. f.failed };

    ghost moment = { λ f. length f.log.items };

    ghost left_since = { λ f t left. logged_left f t left };

    fn append(&mut self, name: &str, bytes: &[u8]) -> Result<(), MediumError> {
        if self.grow(name, bytes) {
            return Ok(());
        }
        self.failed = true;
        self.grow_by_half(name, bytes);
        Err(MediumError)
    }

    fn sync(&mut self, name: &str) -> Result<(), MediumError> {
        if self.settle(name) {
            return Ok(());
        }
        self.lost = true;
        self.failed = true;
        Err(MediumError)
    }

    fn cut(&mut self, name: &str, len: usize) -> Result<(), MediumError> {
        if self.shorten(name, len) {
            return Ok(());
        }
        self.lost = true;
        self.failed = true;
        Err(MediumError)
    }

    fn write(&mut self, name: &str, bytes: &[u8]) -> Result<(), MediumError> {
        if self.put(name, bytes) {
            return Ok(());
        }
        self.failed = true;
        Err(MediumError)
    }

    fn replace(&mut self, from: &str, to: &str) -> Result<(), MediumError> {
        if self.link(from, to) {
            return Ok(());
        }
        self.lost = true;
        self.failed = true;
        Err(MediumError)
    }

    fn remove(&mut self, name: &str) -> Result<(), MediumError> {
        if self.erase(name) {
            return Ok(());
        }
        self.failed = true;
        Err(MediumError)
    }

    fn read(&mut self, _alloc: Global, name: &str) -> Result<Option<Vec<u8>>, MediumError> {
        if self.is_free(name) {
            return Ok(None);
        }
        match self.settled(name) {
            Some(bytes) => Ok(Some(bytes)),
            None => {
                self.lost = true;
                self.failed = true;
                Err(MediumError)
            }
        }
    }

    fn make(&mut self, _folder: &str) -> Result<(), MediumError> {
        Ok(())
    }

    fn names(&mut self, alloc: Global, folder: &str) -> Result<Vec<String>, MediumError> {
        match self.names_in(alloc, folder) {
            Ok(names) => Ok(names),
            Err(_) => {
                self.failed = true;
                Err(MediumError)
            }
        }
    }

    ghost only_now = { λ f name x n left shown kept had.
        only_since f.log.items name x n left shown kept had };

    ghost earlier = { λ f t u left le fits had. since_earlier f.log.items t u left le had };
}

/// A journal in memory that begins with a text.
pub fn logged_journal(
    alloc: Global,
    before: u64,
    failing: u64,
    text: &[u8],
) -> Result<Journal<JournalFile<LoggedFolder>>, (MediumError, LoggedFolder)>
    requires { (contents : List (List ℕ)) × IsJournalText contents text.now }
    ensures keeps { IfOk result (λ j. (new : List (List ℕ)) → IsJournalText new text.now
        → Keeps logged_shows logged_kept logged_sound new j.medium.folder j.len) }
    ensures open { IfOk result (λ j. j.closed ≡ false) }
{
    begin(alloc, LoggedFolder::new(alloc, before, failing), text)
}
