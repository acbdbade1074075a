//! Choices of texts with dots.

ghost use Rattle.std.specs.Prelude.{◌≡◌, None, Some, IfOk, IfNone, IfSome};
ghost use Rattle.text_choices.specs.Alternatives.{fits, accepts, choice_of, spelled_from};
ghost use Rattle.text_choices.specs.Alternatives.{MeansPattern};
ghost use Rattle.text_choices.specs.Shared.{AreShared};
ghost use Rattle.std.specs.Prelude.{[], chars};
ghost use Rattle.std.specs.List.{list_any};

use crate::alternative::{Alternative, add, lead_from};
use crate::atom::Atom;
use crate::reading::{Place, Step};
use std::alloc::{AllocError, Global};
use std::marker::Model;
use std::mem;

/// A choice of texts, seen as its alternatives.
#[derive(Drop)]
pub struct Choice {
    alternatives: Vec<Alternative>,
}

impl Model for Choice {
    ghost use Rattle.std.specs.Prelude.{[], map};
    ghost use Rattle.text_choices.specs.Alternatives.{Choice};

    ghost Value = { Choice };

    ghost use Rattle.text_choices.specs.Shared.{AreShared};

    ghost view = { λ c. map (λ one. one.atoms.items) c.alternatives.items };

    ghost invariant = { λ c. AreShared [] c.alternatives.items };
}

/// Whether the atoms stand for these characters, one for one.
fn fits(atoms: &[Atom], value: &str) -> bool
    ensures { result ≡ fits atoms.now (chars value.now) }
{
    let mut rest = value.chars();
    for atom in atoms {
        let Some(c) = rest.next() else {
            return false;
        };
        if !atom.takes(c) {
            return false;
        }
    }
    rest.next().is_none()
}

fn any_fits(alternatives: &[Alternative], value: &str) -> bool
    ensures { result ≡ list_any (λ one. fits one.atoms.items (chars value.now)) alternatives.now }
{
    alternatives.iter().any(|one| fits(&one.atoms, value))
}

/// The same for bytes that are characters. What an alternative shares with the one before is not
/// read again: it fails there too, or is tried from behind it.
fn any_fits_ascii(alternatives: &[Alternative], value: &[u8]) -> bool
    requires { AreShared [] alternatives.now }
    ensures { result ≡ list_any (λ one. fits one.atoms.items value.now) alternatives.now }
{
    let mut lead = 0usize;
    for one in alternatives {
        if one.shared <= lead {
            lead = lead_from(&one.atoms, value, one.shared);
            if lead == one.atoms.len() && lead == value.len() {
                return true;
            }
        }
    }
    false
}

/// The alternatives that the rest of a pattern spells.
fn read_from(alloc: Global, grouped: bool, rest: &str) -> Result<Option<Choice>, AllocError>
    ensures some { IfOk result (λ found. IfSome found (λ c.
        spelled_from grouped Place.Inside (chars rest.now) ≡ Some c)) }
    ensures none { IfOk result (λ found. IfNone found (
        spelled_from grouped Place.Inside (chars rest.now) ≡ None)) }
{
    let mut alternatives: Vec<Alternative> = Vec::new(alloc);
    let mut atoms: Vec<Atom> = Vec::new(alloc);
    let mut place = Place::Inside;
    for c in rest.chars() {
        match place.step(grouped, c) {
            Step::Refuse => return Ok(None),
            Step::Goes(next) => place = next,
            Step::Bar => {
                add(&mut alternatives, mem::replace(&mut atoms, Vec::new(alloc)))?;
                place = Place::Inside;
            }
            Step::Put(atom) => {
                atoms.push(atom)?;
                place = Place::Inside;
            }
        }
    }
    if !place.may_end(grouped) {
        return Ok(None);
    }
    add(&mut alternatives, atoms)?;
    Ok(Some(Choice { alternatives }))
}

/// The choice that a pattern is, `None` of another pattern.
pub fn read_choice(alloc: Global, pattern: &str) -> Result<Option<Choice>, AllocError>
    ensures some { IfOk result (λ found. IfSome found (λ c. choice_of pattern.now ≡ Some c)) }
    ensures none { IfOk result (λ found. IfNone found (choice_of pattern.now ≡ None)) }
    ensures means { IfOk result (λ found. IfSome found (λ c. MeansPattern pattern.now c)) }
{
    match pattern.strip_prefix('(') {
        Some(rest) => read_from(alloc, true, rest),
        None => read_from(alloc, false, pattern),
    }
}

impl Choice {
    /// Whether it accepts a value.
    pub fn accepts(&self, value: &str) -> bool
        ensures { result ≡ accepts self.now value.now }
    {
        if value.is_ascii() {
            any_fits_ascii(&self.alternatives, value.as_bytes())
        } else {
            any_fits(&self.alternatives, value)
        }
    }
}
