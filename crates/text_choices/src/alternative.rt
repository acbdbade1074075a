//! The texts of a choice.

ghost use Rattle.std.specs.Prelude.{◌≡◌, ◌≤◌, ◌++◌, ◌∷◌, [], map, OnOk};
ghost use Rattle.text_choices.specs.Shared.{Share, AreShared, lead};

use crate::atom::Atom;
use std::alloc::AllocError;

/// A text of a choice, and how many atoms it shares at its front with the one before.
#[derive(Drop)]
pub struct Alternative {
    pub shared: usize,
    pub atoms: Vec<Atom>,
}

/// How many atoms both begin with.
fn shared(before: &[Atom], atoms: &[Atom]) -> usize
    ensures { Share result before.now atoms.now }
{
    let end = before.len().min(atoms.len());
    for i in 0..end {
        if !before[i].is(atoms[i]) {
            return i;
        }
    }
    end
}

/// Adds a text.
pub fn add(alternatives: &mut Vec<Alternative>, atoms: Vec<Atom>) -> Result<(), AllocError>
    requires { AreShared [] alternatives.old.items }
    ensures added { OnOk result (map (λ one. one.atoms.items) alternatives.new.items
        ≡ map (λ one. one.atoms.items) alternatives.old.items ++ atoms.items ∷ []) }
    ensures shared { OnOk result (AreShared [] alternatives.new.items) }
{
    let shared = match alternatives.last() {
        Some(before) => shared(&before.atoms, &atoms),
        None => 0,
    };
    alternatives.push(Alternative { shared, atoms })?;
    Ok(())
}

/// How many atoms at the front stand for the bytes at the front, where these first ones do.
pub fn lead_from(atoms: &[Atom], value: &[u8], first: usize) -> usize
    requires { first ≤ lead atoms.now value.now }
    ensures { result ≡ lead atoms.now value.now }
{
    let end = atoms.len().min(value.len());
    for i in first..end {
        if !atoms[i].takes(value[i] as char) {
            return i;
        }
    }
    end
}
