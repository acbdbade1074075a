//! A journal over a medium.

ghost use Rattle.std.specs.Prelude.{◌≡◌, ◌⊎◌, ◌<◌, ◌^◌, ◌++◌, ◌∷◌, [], ℕ, List, true, false};
ghost use Rattle.std.specs.Prelude.{length, Err, IfOk, OnOk, OnErr, IsErrOf};
ghost use Rattle.journal.specs.Contents.{contents_in};
ghost use Rattle.journal.specs.Group.{AreRecords, HasSomeMore};
ghost use Rattle.journal.specs.Media.{HasAll, IsBeforeOrAfter, IsJournal, Keeps, LeavesOnly};
ghost use Rattle.journal.specs.Outcome.{IsOfKeeping};
ghost use Rattle.journal.specs.Records.{file_of, is_length, header, Recovers};

use crate::durable_write::{Written, write};
use crate::error::JournalError;
use crate::medium::{Medium, MediumError};
use crate::recovery::recover;
use crate::texts::{HEADER, push_record};
use std::alloc::Global;

/// A journal takes no content where it is longer than this.
const MAX_LEN: usize = 1 << 62;

/// Cuts off what a crash left after the whole records, which take `len` bytes.
pub fn cut_end<M: Medium>(medium: &mut M, len: usize) -> Result<(), MediumError>
    requires { (contents : List (List ℕ)) × (file : List ℕ) × Recovers file contents
        × HasAll M.shows M.kept M.sound file medium.old × (len ≡ length (file_of contents)) }
    ensures ok { OnOk result ((contents : List (List ℕ)) (file : List ℕ) → Recovers file contents
        → HasAll M.shows M.kept M.sound file medium.old → len ≡ length (file_of contents)
        → Keeps M.shows M.kept M.sound contents medium.new len) }
    // A crash at any moment of the call leaves a file of the same contents.
    ensures any_moment { (contents : List (List ℕ)) (file : List ℕ) → Recovers file contents
        → HasAll M.shows M.kept M.sound file medium.old → len ≡ length (file_of contents)
        → LeavesOnly M.moment M.left_since medium.old medium.new (λ left. Recovers left contents) }
    ensures beside { M.beside medium.old medium.new }
{
    medium.cut(len)
}

/// A journal: contents, each on its medium for good before it is acknowledged.
#[derive(Drop)]
pub struct Journal<M: Medium + Drop> {
    /// What it is written to.
    pub medium: M,
    /// How many bytes it has.
    pub len: usize,
    /// Whether the medium failed in a way that leaves unknown what it has. Then the journal takes
    /// nothing more.
    pub closed: bool,
}

impl<M: Medium + Drop> Journal<M> {
    /// A journal of nothing, on a medium that has nothing.
    pub fn create(medium: M) -> Result<Journal<M>, (JournalError, M)>
        requires { HasAll M.shows M.kept M.sound [] medium }
        ensures keeps { IfOk result (λ j. Keeps M.shows M.kept M.sound [] j.medium j.len) }
        ensures open { IfOk result (λ j. j.closed ≡ false) }
    {
        let mut medium = medium;
        match write(&mut medium, 0, &HEADER) {
            Written::Done => Ok(Journal {
                medium,
                len: HEADER.len(),
                closed: false,
            }),
            Written::TakenBack | Written::Lost => Err((JournalError::Medium, medium)),
        }
    }

    /// The journal of the file that a medium has, and its contents. A torn end is cut off. `J1` to
    /// `J4` as [`recover`] has them, and nothing is changed then; `J6` where the cut fails.
    ///
    /// The medium has to be synced before the file is read: what a start reads may not be on the
    /// disk.
    pub fn open(
        alloc: Global,
        medium: M,
        file: &[u8],
    ) -> Result<(Journal<M>, Vec<Vec<u8>>), (JournalError, M)>
        requires { HasAll M.shows M.kept M.sound file.now medium }
        ensures contents { IfOk result (λ x. Recovers file.now (contents_in x.1.items)) }
        ensures keeps { IfOk result (λ x. Keeps M.shows M.kept M.sound
            (contents_in x.1.items) x.0.medium x.0.len) }
        ensures open { IfOk result (λ x. x.0.closed ≡ false) }
    {
        let mut medium = medium;
        let found = match recover(alloc, file) {
            Ok(found) => found,
            Err(error) => return Err((error, medium)),
        };
        if cut_end(&mut medium, found.len).is_err() {
            return Err((JournalError::Medium, medium));
        }
        let journal = Journal {
            medium,
            len: found.len,
            closed: false,
        };
        Ok((journal, found.contents))
    }

    /// Adds a content. At `Ok` it is acknowledged: it is on the medium for good. It takes one write
    /// and one sync.
    ///
    /// `J7` of a closed journal, `J5` of a content that is empty or longer than 2^26 bytes; `J6`
    /// where the medium fails: what was written is cut off again, or else the journal closes.
    pub fn append(&mut self, alloc: Global, content: &[u8]) -> Result<(), JournalError>
        requires { IsJournal M.shows M.kept M.sound self.old.medium self.old.len self.old.closed }
        ensures journal { IsJournal M.shows M.kept M.sound
            self.new.medium self.new.len self.new.closed }
        // At `Ok` it has one content more, and all of it is on the medium for good.
        ensures ok { OnOk result ((contents : List (List ℕ))
            → Keeps M.shows M.kept M.sound contents self.old.medium self.old.len
            → Keeps M.shows M.kept M.sound (contents ++ content.now ∷ [])
            self.new.medium self.new.len) }
        ensures open { OnOk result (self.new.closed ≡ false) }
        // At `Err` it has what it had, or it is closed.
        ensures err { OnErr result ((contents : List (List ℕ))
            → Keeps M.shows M.kept M.sound contents self.old.medium self.old.len
            → (self.new.closed ≡ false)
            → Keeps M.shows M.kept M.sound contents self.new.medium self.new.len) }
        // A crash at any moment of the call leaves a file of what it had, with the new content or
        // without.
        ensures any_moment { (contents : List (List ℕ))
            → Keeps M.shows M.kept M.sound contents self.old.medium self.old.len
            → LeavesOnly M.moment M.left_since self.old.medium self.new.medium
            (IsBeforeOrAfter contents content.now) }
        // A closed journal takes nothing, and writes nothing.
        ensures closed { self.old.closed ≡ true → (result ≡ Err JournalError.Closed)
            × (self.new ≡ self.old) }
        // It does not give up, nor close, by itself.
        ensures told { IsErrOf result JournalError.Closed → self.old.closed ≡ true }
        ensures size { IsErrOf result JournalError.Size
            → (is_length (length content.now) ≡ false) ⊎ (2 ^ 62 < self.old.len) }
        ensures medium { IsErrOf result JournalError.Medium → M.failed self.new.medium ≡ true }
        ensures lost { self.new.closed ≡ true → (self.old.closed ≡ true)
            ⊎ (M.failed self.new.medium ≡ true) }
        ensures other { IsOfKeeping result }
        // What is beside the journal stays.
        ensures beside { M.beside self.old.medium self.new.medium }
    {
        if self.closed {
            return Err(JournalError::Closed);
        }
        let mut records = Vec::new(alloc);
        match push_record(&mut records, content) {
            Ok(()) => self.append_records(&records),
            Err(error) => Err(error),
        }
    }

    /// Adds several contents, by their records. At `Ok` all of them are acknowledged. It takes one
    /// write and one sync.
    ///
    /// `J7` of a closed journal, `J5` of one that is longer than 2^62 bytes; `J6` where the medium
    /// fails, as in [`Journal::append`].
    pub fn append_records(&mut self, records: &[u8]) -> Result<(), JournalError>
        requires journal { IsJournal M.shows M.kept M.sound
            self.old.medium self.old.len self.old.closed }
        requires records { (more : List (List ℕ)) × AreRecords more records.now }
        ensures journal { IsJournal M.shows M.kept M.sound
            self.new.medium self.new.len self.new.closed }
        // At `Ok` it has these contents more, and all of it is on the medium for good.
        ensures ok { OnOk result ((contents more : List (List ℕ))
            → Keeps M.shows M.kept M.sound contents self.old.medium self.old.len
            → AreRecords more records.now
            → Keeps M.shows M.kept M.sound (contents ++ more) self.new.medium self.new.len) }
        ensures open { OnOk result (self.new.closed ≡ false) }
        // At `Err` it has what it had, or it is closed.
        ensures err { OnErr result ((contents : List (List ℕ))
            → Keeps M.shows M.kept M.sound contents self.old.medium self.old.len
            → (self.new.closed ≡ false)
            → Keeps M.shows M.kept M.sound contents self.new.medium self.new.len) }
        // A crash at any moment of the call leaves a file of what it had, and of the first few of
        // these contents.
        ensures any_moment { (contents more : List (List ℕ))
            → Keeps M.shows M.kept M.sound contents self.old.medium self.old.len
            → AreRecords more records.now
            → LeavesOnly M.moment M.left_since self.old.medium self.new.medium
            (HasSomeMore contents more) }
        // A closed journal takes nothing, and writes nothing.
        ensures closed { self.old.closed ≡ true → (result ≡ Err JournalError.Closed)
            × (self.new ≡ self.old) }
        // It does not give up, nor close, by itself.
        ensures told { IsErrOf result JournalError.Closed → self.old.closed ≡ true }
        ensures size { IsErrOf result JournalError.Size → 2 ^ 62 < self.old.len }
        ensures medium { IsErrOf result JournalError.Medium → M.failed self.new.medium ≡ true }
        ensures lost { self.new.closed ≡ true → (self.old.closed ≡ true)
            ⊎ (M.failed self.new.medium ≡ true) }
        ensures other { IsOfKeeping result }
        // What is beside the journal stays.
        ensures beside { M.beside self.old.medium self.new.medium }
    {
        if self.closed {
            return Err(JournalError::Closed);
        }
        if self.len > MAX_LEN {
            return Err(JournalError::Size);
        }
        match write(&mut self.medium, self.len, records) {
            Written::Done => {
                self.len += records.len();
                Ok(())
            }
            Written::TakenBack => Err(JournalError::Medium),
            Written::Lost => {
                self.closed = true;
                Err(JournalError::Medium)
            }
        }
    }
}
