//! What the file of a journal has.

ghost use Rattle.std.specs.Prelude.{◌≡◌, ◌-◌, [], List, IfOk, IfErr};
ghost use Rattle.head.specs.Worlds.{Event as Change};
ghost use Rattle.head_record.specs.Outcome.{Begins};
ghost use Rattle.head_record.specs.Saved.{Saved};
ghost use Rattle.journal.specs.Contents.{contents_in};
ghost use Rattle.name_table.specs.Names.{Label};
ghost use Rattle.store_folder.specs.Journals.{AreContents, DeniesContents, DeniesJournal};
ghost use Rattle.store_folder.specs.Journals.{GivesContents, GivesJournal, IsFoundJournal};
ghost use Rattle.store_folder.specs.Journals.{IsJournalOf};

use crate::error::ReadError;
use event_journal::read_events;
use head::Event;
use head_record::{HeadRecord, read_head};
use journal::{Recovered, recover};
use name_table::NameTable;
use std::alloc::Global;

/// What a journal has.
#[derive(Drop)]
pub struct FoundJournal {
    /// The head that it begins with.
    pub head: HeadRecord,
    /// The events after it, in their order.
    pub events: Vec<Event>,
    /// The label sets that the contents of these have named.
    pub names: NameTable,
    /// How many bytes the header and the records of these take.
    pub len: usize,
    /// How many bytes of a torn end stand after them.
    pub torn: usize,
}

/// The events after a head, which takes so many contents.
fn with_events(
    alloc: Global,
    head: HeadRecord,
    count: usize,
    names: &mut NameTable,
    contents: &[Vec<u8>],
) -> Result<(HeadRecord, Vec<Event>), ReadError>
    requires begins { Begins (contents_in contents.now) head count }
    requires none { names.old ≡ [] }
    ensures found { IfOk result (λ x.
        AreContents (contents_in contents.now) x.0 x.1.items names.new) }
    ensures only { (events : List Change) (after : List Label)
        → AreContents (contents_in contents.now) head events after
        → GivesContents head events result }
    ensures refused { IfErr result (λ e. DeniesContents (contents_in contents.now) e) }
{
    match read_events(alloc, names, contents.split_at(count).1) {
        Ok(events) => Ok((head, events)),
        Err(refused) => Err(ReadError::Event(refused)),
    }
}

/// The head and the events that contents are, and the series that are named then.
fn read_contents(
    alloc: Global,
    names: &mut NameTable,
    contents: &[Vec<u8>],
) -> Result<(HeadRecord, Vec<Event>), ReadError>
    requires { names.old ≡ [] }
    ensures found { IfOk result (λ x.
        AreContents (contents_in contents.now) x.0 x.1.items names.new) }
    ensures only { (saved : Saved) (events : List Change) (after : List Label)
        → AreContents (contents_in contents.now) saved events after
        → GivesContents saved events result }
    ensures refused { IfErr result (λ e. DeniesContents (contents_in contents.now) e) }
{
    match read_head(alloc, contents) {
        Ok((head, count)) => with_events(alloc, head, count, names, contents),
        Err(refused) => Err(ReadError::Head(refused)),
    }
}

/// The head and the events of a file of so many bytes, of which these contents were recovered.
fn of_recovered(alloc: Global, recovered: Recovered, size: usize) -> Result<FoundJournal, ReadError>
    ensures found { IfOk result (λ j.
        AreContents (contents_in recovered.contents.items) j.head j.events.items j.names) }
    ensures len { IfOk result (λ j. j.len ≡ recovered.len) }
    ensures torn { IfOk result (λ j. j.torn ≡ size - recovered.len) }
    ensures only { (saved : Saved) (events : List Change) (after : List Label)
        → AreContents (contents_in recovered.contents.items) saved events after
        → GivesJournal saved events result }
    ensures refused { IfErr result (λ e.
        DeniesContents (contents_in recovered.contents.items) e) }
{
    let mut names = NameTable::new(alloc);
    match read_contents(alloc, &mut names, &recovered.contents) {
        Ok((head, events)) => Ok(FoundJournal {
            head,
            events,
            names,
            len: recovered.len,
            torn: size.saturating_sub(recovered.len),
        }),
        Err(error) => Err(error),
    }
}

/// The head and the events of a journal's file, which a crash may have left, or the first fault.
///
/// It takes a copy of each content, and time in proportion to the file.
pub fn read_journal(alloc: Global, file: &[u8]) -> Result<FoundJournal, ReadError>
    // What is answered is what the file stands for, and how many bytes of it.
    ensures found { IfOk result (λ j. IsFoundJournal file.now j) }
    // A file that stands for a head and events gives these, unless memory runs out or a matcher of
    // a deletion is refused.
    ensures only { (saved : Saved) (events : List Change) → IsJournalOf file.now saved events
        → GivesJournal saved events result }
    // A refusal tells which check failed first, and where.
    ensures refused { IfErr result (λ e. DeniesJournal file.now e) }
{
    match recover(alloc, file) {
        Ok(recovered) => of_recovered(alloc, recovered, file.len()),
        Err(error) => Err(ReadError::Journal(error)),
    }
}
