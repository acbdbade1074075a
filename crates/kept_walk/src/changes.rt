//! Reading changes.

ghost use Rattle.std.specs.Prelude.{◌≡◌, ◌∷◌, false, IfOk, IsErrOf, MatchOption};
ghost use Rattle.journal.specs.Contents.{contents_in};
ghost use Rattle.kept_walk.specs.Numbered.{AreBytes};
ghost use Rattle.kept_walk.specs.Parts.{event_in, is_numbered, matcher_in, matchers_in};
ghost use Rattle.kept_walk.specs.Refusals.{Builds, FindsChange, FindsChanges, FindsPlain};
ghost use Rattle.kept_walk.specs.Refusals.{HasRefused};
ghost use Rattle.kept_walk.specs.Refusals.{MayBeRefused, refused_at};

use crate::error::KeptError;
use crate::events::read_event;
use crate::fault::{EventFault, Fault};
use crate::journal_state::Change;
use crate::numbers::numbered_of;
use crate::parts::{EventParts, MatcherParts};
use matchers::{Matcher, MatcherError};
use name_table::NameTable;
use std::alloc::Global;

fn built_matcher(alloc: Global, parts: &MatcherParts<'_>) -> Result<Matcher, EventFault>
    ensures ok { IfOk result (λ m. m ≡ matcher_in parts.now) }
    ensures formed { IsErrOf result EventFault.Form → ⊥ }
    ensures refused { IsErrOf result EventFault.Matcher → MayBeRefused (matcher_in parts.now) }
{
    let name = String::from_str(alloc, parts.name)?;
    let text = String::from_str(alloc, parts.text)?;
    match Matcher::new(alloc, name, parts.op, text) {
        Ok(matcher) => Ok(matcher),
        Err(MatcherError::Memory) => Err(EventFault::Memory),
        Err(MatcherError::BadName) => Err(EventFault::Matcher),
        Err(MatcherError::PatternTooLong) => Err(EventFault::Matcher),
        Err(MatcherError::PatternRefused) => Err(EventFault::Matcher),
    }
}

fn built_matchers(alloc: Global, parts: &[MatcherParts<'_>]) -> Result<Vec<Matcher>, EventFault>
    ensures ok { IfOk result (λ ms. ms.items ≡ matchers_in parts.now) }
    ensures formed { IsErrOf result EventFault.Form → ⊥ }
    ensures refused { IsErrOf result EventFault.Matcher → HasRefused (matchers_in parts.now) }
{
    let mut matchers = Vec::new(alloc);
    for part in parts {
        matchers.push(built_matcher(alloc, part)?)?;
    }
    Ok(matchers)
}

fn built(alloc: Global, parts: EventParts<'_>) -> Result<Change, EventFault>
    ensures { Builds (event_in parts.entry) result }
{
    match parts {
        EventParts::Batch(runs) => Ok(Change::Batch(runs)),
        EventParts::Deletion(parts, from, to) => {
            let matchers = built_matchers(alloc, &parts)?;
            Ok(Change::Deletion(matchers, from, to))
        }
        EventParts::Cut(time) => Ok(Change::Cut(time)),
    }
}

/// What stands behind the kind of a batch whose series are named by number.
fn fields_of(content: &[u8]) -> Option<&[u8]>
    ensures { MatchOption result (is_numbered content.now ≡ false)
        (λ fields. content.now ≡ 4 ∷ fields.now) }
{
    match content {
        [4, fields @ ..] => Some(fields),
        _ => None,
    }
}

/// The change that a content spells, which names no series by number.
fn plain_change(alloc: Global, content: &[u8]) -> Result<Change, EventFault>
    ensures { FindsPlain content.now result }
{
    match read_event(alloc, content) {
        Ok(parts) => built(alloc, parts),
        Err(Fault::Memory) => Err(EventFault::Memory),
        Err(Fault::Form) => Err(EventFault::Form),
    }
}

/// The batch whose fields these are.
fn numbered_change(
    alloc: Global,
    names: &mut NameTable,
    fields: &[u8],
) -> Result<Change, EventFault>
    requires { AreBytes names.old }
    ensures found { FindsChange names.old (4 ∷ fields.now) names.new result }
    ensures bytes { IfOk result (λ change. AreBytes names.new) }
{
    match numbered_of(alloc, names, fields) {
        Ok(runs) => Ok(Change::Batch(runs)),
        Err(Fault::Memory) => Err(EventFault::Memory),
        Err(Fault::Form) => Err(EventFault::Form),
    }
}

/// The change that a content spells after the names that there are.
fn read_change(alloc: Global, names: &mut NameTable, content: &[u8]) -> Result<Change, EventFault>
    requires { AreBytes names.old }
    ensures found { FindsChange names.old content.now names.new result }
    ensures bytes { IfOk result (λ change. AreBytes names.new) }
{
    match fields_of(content) {
        Some(fields) => numbered_change(alloc, names, fields),
        None => plain_change(alloc, content),
    }
}

/// The refusal of the content behind so many events.
fn refused_at(at: usize, fault: EventFault) -> KeptError
    ensures { result ≡ refused_at at fault }
{
    match fault {
        EventFault::Memory => KeptError::Memory,
        EventFault::Form => KeptError::Change(at),
        EventFault::Matcher => KeptError::Matcher(at),
    }
}

/// The changes that contents spell, in their order.
pub(crate) fn each_change(alloc: Global, contents: &[Vec<u8>]) -> Result<Vec<Change>, KeptError>
    ensures { FindsChanges (contents_in contents.now) result }
{
    let mut changes = Vec::new(alloc);
    let mut names = NameTable::new(alloc);
    for content in contents {
        match read_change(alloc, &mut names, content) {
            Ok(change) => changes.push(change)?,
            Err(fault) => return Err(refused_at(changes.len(), fault)),
        }
    }
    Ok(changes)
}
