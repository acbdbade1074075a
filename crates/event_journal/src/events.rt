//! The events that contents spell.

ghost use Rattle.std.specs.Prelude.{◌≡◌, ◌++◌, ◌∷◌, [], ℕ, List, Err, IfOk, IfErr, OnOk};
ghost use Rattle.head.specs.Worlds.{Event as Change};
ghost use Rattle.journal.specs.Contents.{contents_in};
ghost use Rattle.name_table.specs.Names.{Label};
ghost use Rattle.wire.specs.Spelling.{IsBytes};
ghost use Rattle.event_journal.specs.Holding.{Stands};
ghost use Rattle.event_journal.specs.Naming.{FollowsBy, Spell, SpellsBy, content_error};
ghost use Rattle.event_journal.specs.Outcome.{GivesEvents, MayRefuse, RefusesAt};

use crate::error::ContentError;
use event_text::{EventError, TextError, read_event};
use head::Event;
use name_table::NameTable;
use numbered_text::{NumberError, plain_text};
use std::alloc::Global;

/// A content that is read as no event, by its number from 0, and why.
#[derive(Clone, Copy, Debug, PartialEq, Eq, Drop)]
pub struct Refused {
    /// How many contents stand before it.
    pub at: usize,
    /// `J8` to `J14`, `J19`, `J20`, or that no memory was left.
    pub error: ContentError,
}

/// The fault of a content by number, as it is told.
fn content_error(error: NumberError) -> ContentError
    ensures { result ≡ content_error error }
{
    match error {
        NumberError::Memory => ContentError::Event(EventError::Text(TextError::Memory)),
        NumberError::Field => ContentError::Event(EventError::Text(TextError::Field)),
        NumberError::Bounds => ContentError::Event(EventError::Text(TextError::Bounds)),
        NumberError::Rest => ContentError::Event(EventError::Text(TextError::Rest)),
        NumberError::Number => ContentError::Number,
        NumberError::Named => ContentError::Named,
    }
}

/// The event that a content spells by the names that there are, and its names after them.
fn event_by(alloc: Global, names: &mut NameTable, content: &[u8]) -> Result<Event, ContentError>
    ensures found { IfOk result (λ e. SpellsBy names.old content.now e names.new) }
    ensures only { (e : Change) (after : List Label) → SpellsBy names.old content.now e after
        → IfErr result (λ error. MayRefuse (e ∷ []) error) }
    ensures refused { FollowsBy names.old content.now result }
{
    match plain_text(alloc, names, content) {
        Ok(text) => match read_event(alloc, &text) {
            Ok(event) => Ok(event),
            Err(error) => Err(ContentError::Event(error)),
        },
        Err(error) => Err(content_error(error)),
    }
}

/// Adds the event that a content spells.
fn push_event(
    alloc: Global,
    names: &mut NameTable,
    events: &mut Vec<Event>,
    content: &[u8],
) -> Result<(), ContentError>
    ensures ok { OnOk result ((e : Change) × SpellsBy names.old content.now e names.new
        × (events.new.items ≡ events.old.items ++ e ∷ [])) }
    ensures only { (e : Change) (after : List Label) → SpellsBy names.old content.now e after
        → IfErr result (λ error. MayRefuse (e ∷ []) error) }
    ensures refused { IfErr result (λ error. FollowsBy names.old content.now (Err error)) }
{
    match event_by(alloc, names, content) {
        Ok(event) => match events.push(event) {
            Ok(()) => Ok(()),
            Err(_) => Err(ContentError::Event(EventError::Text(TextError::Memory))),
        },
        Err(error) => Err(error),
    }
}

/// The events that the contents after a head spell, and the series that are named then; or the
/// first content that is refused.
pub fn read_events(
    alloc: Global,
    names: &mut NameTable,
    contents: &[Vec<u8>],
) -> Result<Vec<Event>, Refused>
    requires { names.old ≡ [] }
    // What is answered is what the contents spell.
    ensures found { IfOk result (λ events.
        Spell (contents_in contents.now) events.items names.new) }
    // Contents that spell some events give these, unless memory runs out or a matcher is refused.
    ensures only { (events : List Change) (after : List Label)
        → Spell (contents_in contents.now) events after → GivesEvents events result }
    // A refusal tells which content is wrong, and how.
    ensures refused { IfErr result (λ refused.
        RefusesAt (contents_in contents.now) refused.at refused.error) }
{
    let mut events = Vec::new(alloc);
    for content in contents {
        let at = events.len();
        match push_event(alloc, names, &mut events, content) {
            Ok(()) => {}
            Err(error) => return Err(Refused { at, error }),
        }
    }
    Ok(events)
}

/// One file stands for one list of events, after the same contents.
pub fn one_list()
    ensures { (file : List ℕ) (f g : List (List ℕ)) (a b : List Change) → IsBytes file
        → Stands f file a → Stands g file b → (f ≡ g) × (a ≡ b) }
{}
