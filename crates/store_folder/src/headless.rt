//! Journals of events alone, as a store kept them before a journal had a head.

ghost use Rattle.std.specs.Prelude.{◌≡◌, ◌⊎◌, ◌-◌, ◌++◌, [], length, map, true, IfOk, IfErr, OnOk};
ghost use Rattle.data_folder.specs.Folders.{HasFile, KeepsOthers, LeavesOnly};
ghost use Rattle.data_folder.specs.JournalFile.{journal_name, next_name};
ghost use Rattle.event_journal.specs.Naming.{Spell};
ghost use Rattle.event_text.specs.declared.error.TextError.TheVariants.{Kind};
ghost use Rattle.head.specs.Blocks.{part_in};
ghost use Rattle.head_record.specs.Spelling.{head_texts, IsSaved};
ghost use Rattle.journal.specs.Contents.{contents_in};
ghost use Rattle.journal.specs.Group.{IsJournalText};
ghost use Rattle.journal.specs.Records.{file_of};
ghost use Rattle.journal.specs.declared.error.JournalError.TheVariants.{Memory as NoRecord};
ghost use Rattle.store_folder.specs.Finding.{IsFoundStore};
ghost use Rattle.store_folder.specs.Plain.{DeniesAdmitting, DeniesEvents, DeniesPlain, DeniesText};
ghost use Rattle.store_folder.specs.Plain.{AreAdmitted, HasEither, StandsAlone, begins_plain};
ghost use Rattle.store_folder.specs.declared.error.ReadError.TheVariants.{Head, Journal as Records};
ghost use Rattle.store_folder.specs.declared.error.StartError.TheVariants.{Journal};
ghost use Rattle.store_folder.specs.Starting.{nothing_saved};

use crate::error::{ReadError, StartError};
use crate::journals::FoundJournal;
use crate::reading::FoundStore;
use crate::starting::{no_memory, nothing};
use data_folder::{Folder, change_journal};
use event_journal::read_events;
use event_text::TextError;
use head::{Event, Snapshot, replay};
use head_record::{RefusedHead, head_contents};
use journal::{JournalError, file_text, recover};
use name_table::NameTable;
use std::alloc::{AllocError, Global};

/// Whether a file may be a journal of events alone: its first content begins as that of an event.
pub fn begins_plain(file: &[u8]) -> bool
    ensures { result ≡ begins_plain file.now }
{
    match file.get(13) {
        Some(kind) => 1 <= *kind && *kind <= 3,
        None => false,
    }
}

/// That a journal has no content to begin with.
fn no_head() -> ReadError
    ensures { result ≡ Head (record { at = 0; error = Kind }) }
{
    ReadError::Head(RefusedHead {
        at: 0,
        error: TextError::Kind,
    })
}

/// The events that all of the contents are, of which there are some.
fn plain_events(
    alloc: Global,
    names: &mut NameTable,
    contents: &[Vec<u8>],
) -> Result<Vec<Event>, ReadError>
    requires { names.old ≡ [] }
    ensures found { IfOk result (λ events.
        Spell (contents_in contents.now) events.items names.new) }
    ensures some { IfOk result (λ events. events.items ≡ [] → ⊥) }
    ensures refused { IfErr result (λ e. DeniesEvents (contents_in contents.now) e) }
{
    if contents.is_empty() {
        return Err(no_head());
    }
    match read_events(alloc, names, contents) {
        Ok(events) => Ok(events),
        Err(refused) => Err(ReadError::Event(refused)),
    }
}

/// The events of a journal's file that has no head, of which there are some, or the first fault.
/// The head is given as that of a store that has nothing.
pub fn read_plain(alloc: Global, file: &[u8]) -> Result<FoundJournal, ReadError>
    // What is answered is what the file stands for, and how many bytes of it.
    ensures found { IfOk result (λ j. (stands : StandsAlone file.now j.events.items)
        × (j.len ≡ length (file_of stands.0.contents)) × (j.names ≡ stands.0.names)) }
    ensures head { IfOk result (λ j. j.head ≡ nothing_saved) }
    ensures torn { IfOk result (λ j. j.torn ≡ length file.now - j.len) }
    // A refusal tells which check failed first, and where.
    ensures refused { IfErr result (λ e. DeniesPlain file.now e) }
{
    let mut names = NameTable::new(alloc);
    match recover(alloc, file) {
        Ok(recovered) => match plain_events(alloc, &mut names, &recovered.contents) {
            Ok(events) => Ok(FoundJournal {
                head: nothing(alloc),
                events,
                names,
                len: recovered.len,
                torn: file.len().saturating_sub(recovered.len),
            }),
            Err(error) => Err(error),
        },
        Err(error) => Err(ReadError::Journal(error)),
    }
}

/// The contents of a journal with the head of a store that has nothing in front of others.
fn with_head(alloc: Global, contents: Vec<Vec<u8>>) -> Result<Vec<Vec<u8>>, AllocError>
    ensures texts { IfOk result (λ all.
        contents_in all.items ≡ head_texts nothing_saved ++ contents_in contents.items) }
    ensures saved { OnOk result (IsSaved nothing_saved) }
{
    let mut rest = contents;
    let mut all = head_contents(alloc, &nothing(alloc))?;
    all.append(&mut rest)?;
    Ok(all)
}

/// The text of the journal that has the head of a store that has nothing, and then these contents.
/// Each of them was a record's, so there is no refusal but memory's.
fn text_with_head(alloc: Global, contents: Vec<Vec<u8>>) -> Result<Vec<u8>, StartError>
    ensures text { IfOk result (λ text. IsJournalText
        (head_texts nothing_saved ++ contents_in contents.items) text.items) }
    ensures saved { OnOk result (IsSaved nothing_saved) }
    ensures refused { IfErr result (λ e. e ≡ Journal (Records NoRecord)) }
{
    let all = match with_head(alloc, contents) {
        Ok(all) => all,
        Err(_) => return Err(no_memory()),
    };
    match file_text(alloc, &all) {
        Ok(text) => Ok(text),
        Err(_) => Err(no_memory()),
    }
}

/// That these events are accepted by a store that has nothing.
fn admit(alloc: Global, events: &[Event]) -> Result<(), StartError>
    ensures admitted { OnOk result (AreAdmitted events.now) }
    ensures refused { IfErr result (λ e. DeniesAdmitting events.now e) }
{
    let nothing = match Snapshot::opening(alloc, Vec::new(alloc)) {
        Ok(nothing) => nothing,
        Err(_) => return Err(no_memory()),
    };
    match replay(alloc, nothing, events) {
        Ok(_) => Ok(()),
        Err(refused) => Err(StartError::Event(refused)),
    }
}

/// The text that a journal of events alone has with the head of a store that has nothing, and these
/// events; or why the journal is refused.
fn plain_text(
    alloc: Global,
    names: &mut NameTable,
    file: &[u8],
) -> Result<(Vec<u8>, Vec<Event>), StartError>
    requires { names.old ≡ [] }
    ensures found { IfOk result (λ x. (stands : StandsAlone file.now x.1.items)
        × (names.new ≡ stands.0.names)
        × IsJournalText (head_texts nothing_saved ++ stands.0.contents) x.0.items) }
    ensures admitted { IfOk result (λ x. AreAdmitted x.1.items) }
    ensures saved { OnOk result (IsSaved nothing_saved) }
    ensures refused { IfErr result (λ e. DeniesText file.now e) }
{
    let recovered = match recover(alloc, file) {
        Ok(recovered) => recovered,
        Err(error) => return Err(StartError::Journal(ReadError::Journal(error))),
    };
    let events = match plain_events(alloc, names, &recovered.contents) {
        Ok(events) => events,
        Err(error) => return Err(StartError::Journal(error)),
    };
    match admit(alloc, &events) {
        Ok(()) => match text_with_head(alloc, recovered.contents) {
            Ok(text) => Ok((text, events)),
            Err(error) => Err(error),
        },
        Err(error) => Err(error),
    }
}

/// The store of a folder whose journal has this file and may be one of events alone. The journal is
/// given the head of a store that has nothing, if such a store accepts all of its events; a torn
/// end is left out. Where it is refused nothing is changed.
pub(crate) fn adopt<F: Folder>(
    alloc: Global,
    folder: &mut F,
    file: &[u8],
) -> Result<FoundStore, StartError>
    requires sound { F.sound folder.old ≡ true }
    requires has { HasFile F.shows F.kept journal_name file.now folder.old }
    requires plain { begins_plain file.now ≡ true }
    ensures found { IfOk result (λ s.
        IsFoundStore F.shows F.kept s.journal (map part_in s.blocks.items) folder.new) }
    ensures events { IfOk result (λ s. StandsAlone file.now s.journal.events.items) }
    ensures head { IfOk result (λ s. s.journal.head ≡ nothing_saved) }
    ensures admitted { IfOk result (λ s. AreAdmitted s.journal.events.items) }
    ensures sound { OnOk result (F.sound folder.new ≡ true) }
    ensures refused { IfErr result (λ e. ((e ≡ StartError.Medium) × (F.failed folder.new ≡ true))
        ⊎ ((folder.new ≡ folder.old) × DeniesText file.now e)) }
    // A crash at any moment of the call leaves the journal as it was or with the head.
    ensures any_moment { LeavesOnly F.moment F.left_since folder.old folder.new
        (HasEither file.now) }
    ensures others { KeepsOthers F.shows F.kept next_name journal_name folder.old folder.new }
{
    let mut names = NameTable::new(alloc);
    let (text, events) = match plain_text(alloc, &mut names, file) {
        Ok(plain) => plain,
        Err(error) => return Err(error),
    };
    match change_journal(folder, &text) {
        Ok(()) => Ok(FoundStore {
            journal: FoundJournal {
                head: nothing(alloc),
                events,
                names,
                len: text.len(),
                torn: 0,
            },
            blocks: Vec::new(alloc),
        }),
        Err(_) => Err(StartError::Medium),
    }
}
