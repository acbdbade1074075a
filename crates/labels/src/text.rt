//! Pairs of texts, one after the other in one buffer.

ghost use Rattle.std.specs.Prelude.{◌≡◌, ◌<◌, ◌+◌, length, map, slice_get, Some, IfOk, OnOk, OnErr};
ghost use Rattle.std.specs.Prelude.{string_bytes, IsTrue};
ghost use Rattle.labels.specs.Pairs.{pairs_of};

use std::alloc::{AllocError, Global};
use std::marker::Model;

/// Where a pair stands in the text.
#[derive(Clone, Copy, Debug, PartialEq, Eq)]
struct Place {
    start: usize,
    middle: usize,
    end: usize,
}

fn len_of(text: &String) -> usize
    ensures { result ≡ length (string_bytes text.now) }
{
    text.as_str().len()
}

/// Pairs of texts in one buffer.
#[derive(Debug, Drop)]
pub struct Pairs {
    text: String,
    places: Vec<Place>,
}

impl Model for Pairs {
    ghost use Rattle.std.specs.Prelude.{List, ℕ, string_bytes};

    ghost Value = { List (List ℕ × List ℕ) };

    ghost use Rattle.labels.specs.Places.{pairs_at, AllPlaced};

    ghost view = { λ p. pairs_at (string_bytes p.text) p.places.items };

    ghost invariant = { λ p. AllPlaced (string_bytes p.text) p.places.items };
}

impl Pairs {
    ghost use Rattle.std.specs.Prelude.{List, [], ◌++◌, ◌∷◌};

    /// None, with room for so many bytes and so many pairs.
    pub fn with_room(alloc: Global, bytes: usize, pairs: usize) -> Result<Pairs, AllocError>
        ensures { IfOk result (λ p. p ≡ []) }
    {
        Ok(Pairs {
            text: String::with_capacity(alloc, bytes)?,
            places: Vec::with_capacity(alloc, pairs)?,
        })
    }

    pub fn len(&self) -> usize
        ensures { result ≡ length self.now }
    {
        self.places.len()
    }

    /// Whether both have one text, cut at the same places. Equal pairs may be cut otherwise.
    pub fn is_cut_alike(&self, other: &Pairs) -> bool
        ensures { IsTrue result → self.now ≡ other.now }
    {
        self.text.as_str() == other.text.as_str()
            && self.places.as_slice() == other.places.as_slice()
    }

    pub fn pair(&self, i: usize) -> (&str, &str)
        requires { i < length self.now }
        ensures { slice_get self.now i ≡ Some (result.0.now, result.1.now) }
    {
        let place = self.places[i];
        let text = self.text.as_str();
        (
            &text[place.start..place.middle],
            &text[place.middle..place.end],
        )
    }

    /// Adds a pair at the end. An `Err` changes nothing.
    pub fn push(&mut self, name: &str, value: &str) -> Result<(), AllocError>
        ensures ok { OnOk result (self.new ≡ self.old ++ (name.now, value.now) ∷ []) }
        ensures err { OnErr result (self.new ≡ self.old) }
    {
        let start = len_of(&self.text);
        self.text.push_str(name)?;
        let middle = len_of(&self.text);
        self.text.push_str(value)?;
        let end = len_of(&self.text);
        self.places.push(Place { start, middle, end })?;
        Ok(())
    }
}
