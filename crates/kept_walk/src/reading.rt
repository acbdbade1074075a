//! Reading the journal of a store.

ghost use Rattle.std.specs.Prelude.{◌≡◌, ℕ, List, true, IfOk, IfErr};
ghost use Rattle.journal.specs.Contents.{contents_in};
ghost use Rattle.kept_walk.specs.Contents.{BeginsWithHead, IsKept, begins_event};
ghost use Rattle.kept_walk.specs.Kept.{Store};
ghost use Rattle.kept_walk.specs.Parts.{head_in};
ghost use Rattle.kept_walk.specs.Refusals.{Denies, FindsStore, GivesStore, of_records};

use crate::changes::each_change;
use crate::error::KeptError;
use crate::fault::Fault;
use crate::heads::read_head;
use crate::journal_state::{Kept, Values};
use crate::parts::HeadParts;
use journal::{JournalError, recover};
use labels::MIN_TIME;
use std::alloc::Global;

/// Whether the first content begins as that of an event.
fn begins_event(contents: &[Vec<u8>]) -> bool
    ensures { result ≡ begins_event (contents_in contents.now) }
{
    match contents.first().and_then(|content| content.first()) {
        Some(kind) => (1..=4).contains(kind),
        None => false,
    }
}

/// The store that had nothing before the events which all of the contents are.
fn read_events(alloc: Global, contents: &[Vec<u8>]) -> Result<Kept, KeptError>
    requires { begins_event (contents_in contents.now) ≡ true }
    ensures { FindsStore (contents_in contents.now) result }
{
    let changes = each_change(alloc, contents)?;
    let head = Vec::new(alloc);
    Ok(Kept::new(Values::Whole, MIN_TIME, Vec::new(alloc), head, changes))
}

/// The store with this head, behind which these contents stand.
fn with_changes(alloc: Global, head: HeadParts, behind: &[Vec<u8>]) -> Result<Kept, KeptError>
    ensures { (contents : List (List ℕ))
        → BeginsWithHead contents (head_in head) (contents_in behind.now)
        → FindsStore contents result }
{
    let changes = each_change(alloc, behind)?;
    Ok(Kept::new(head.values, head.floor, head.folders, head.series, changes))
}

/// The store whose head and changes contents are.
fn read_contents(alloc: Global, contents: &[Vec<u8>]) -> Result<Kept, KeptError>
    ensures { FindsStore (contents_in contents.now) result }
{
    if begins_event(contents) {
        return read_events(alloc, contents);
    }
    match read_head(alloc, contents) {
        Ok((head, behind)) => with_changes(alloc, head, behind),
        Err(Fault::Memory) => Err(KeptError::Memory),
        Err(Fault::Form) => Err(KeptError::Head),
    }
}

fn of_records(error: JournalError) -> KeptError
    ensures { result ≡ of_records error }
{
    match error {
        JournalError::Memory => KeptError::Memory,
        error => KeptError::Journal(error),
    }
}

impl Kept {
    /// What the file of a journal says, which a crash may have left; or the first fault.
    ///
    /// It takes a copy of each content, and time and memory in proportion to the file.
    pub fn read(alloc: Global, file: &[u8]) -> Result<Kept, KeptError>
        // What is read is what the file says.
        ensures found { IfOk result (λ kept. IsKept file.now kept) }
        // The journal of a store is read as that store, unless memory runs out or a matcher of a
        // deletion is refused.
        ensures only { (store : Store) → IsKept file.now store → GivesStore store result }
        // A refusal tells which check failed first, and where.
        ensures refused { IfErr result (λ e. Denies file.now e) }
    {
        match recover(alloc, file) {
            Ok(recovered) => read_contents(alloc, &recovered.contents),
            Err(error) => Err(of_records(error)),
        }
    }
}
