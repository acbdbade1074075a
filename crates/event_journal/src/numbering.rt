//! Records that name series by number.

ghost use Rattle.std.specs.Prelude.{◌≡◌, ◌++◌, ℕ, List, IfOk, OnErr};
ghost use Rattle.wire.specs.Outcome.{Answers};
ghost use Rattle.head.specs.Worlds.{Event as Change};
ghost use Rattle.journal.specs.Records.{record_of};
ghost use Rattle.keeper.specs.Together.{SpellTogether};
ghost use Rattle.name_table.specs.Names.{BeginWith};
ghost use Rattle.event_journal.specs.Naming.{AreNext, IsNumbered, IsPlain};
ghost use Rattle.event_journal.specs.Splitting.{split_at};

use journal::push_record;
use name_table::NameTable;
use numbered_text::numbered_text;
use std::alloc::{AllocError, Global};
use wire::{Cut, WireError};

/// The content of the record in front, whose checksums are not looked at, and the bytes after it.
#[tactic(auto, unfolding(crate::specs::Splitting::split_at))]
fn split_record(bytes: &[u8]) -> Result<(&[u8], &[u8]), WireError>
    ensures { Answers (λ x. (x.0.now, x.1.now)) result (split_at bytes.now) }
{
    let mut cut = Cut::new(bytes);
    let len = cut.be32()?;
    let _sum = cut.be32()?;
    let content = cut.bytes(len as usize)?;
    let _last = cut.be32()?;
    Ok((content, cut.rest()))
}

/// Adds the record of the content in front, by number. The bytes after it.
fn number_record<'a>(
    alloc: Global,
    out: &mut Vec<u8>,
    names: &mut NameTable,
    bytes: &'a [u8],
) -> Result<&'a [u8], AllocError>
    requires { (content rest : List ℕ) × IsPlain content × (bytes.now ≡ record_of content ++ rest) }
    ensures ok { IfOk result (λ after. (content rest : List ℕ) → IsPlain content
        → bytes.now ≡ record_of content ++ rest → (after.now ≡ rest)
        × IsNumbered names.old content names.new out.old.items out.new.items) }
    ensures begins { BeginWith names.old names.new }
{
    match split_record(bytes) {
        Ok((content, rest)) => {
            let text = numbered_text(alloc, names, content)?;
            match push_record(out, &text) {
                Ok(()) => Ok(rest),
                Err(_) => Err(AllocError),
            }
        }
        Err(_) => Err(AllocError),
    }
}

fn number_records(
    alloc: Global,
    names: &mut NameTable,
    records: &[u8],
) -> Result<Vec<u8>, AllocError>
    requires { (events : List Change) × SpellTogether records.now events }
    ensures ok { IfOk result (λ numbered. (events : List Change)
        → SpellTogether records.now events
        → AreNext names.old numbered.items events names.new) }
    ensures begins { BeginWith names.old names.new }
{
    let mut out = Vec::new(alloc);
    let mut rest = records;
    while rest.len() > 0 {
        let after = number_record(alloc, &mut out, names, rest)?;
        rest = after;
    }
    Ok(out)
}

/// The records of events, with their series by number as far as they are named; those that are not
/// get the next numbers. After an `Err` the names are as they were.
pub fn numbered_records(
    alloc: Global,
    names: &mut NameTable,
    records: &[u8],
) -> Result<Vec<u8>, AllocError>
    requires { (events : List Change) × SpellTogether records.now events }
    ensures ok { IfOk result (λ numbered. (events : List Change)
        → SpellTogether records.now events
        → AreNext names.old numbered.items events names.new) }
    ensures err { OnErr result (names.new ≡ names.old) }
    ensures begins { BeginWith names.old names.new }
{
    let count = names.len();
    match number_records(alloc, names, records) {
        Ok(numbered) => Ok(numbered),
        Err(error) => {
            names.forget(count);
            Err(error)
        }
    }
}
