//! The list of one pair.

ghost use Rattle.std.specs.Prelude.{◌≡◌, ◌<◌, ℕ, List, [], ◌∷◌, ◌++◌, length, get_or, IfOk, OnOk};
ghost use Rattle.std.specs.Prelude.{OnErr};
ghost use Rattle.std.specs.Ordering.{nat_cmp};
ghost use Rattle.std.specs.Cmp.Lexicographic.{slice_cmp};
ghost use Rattle.labels.specs.Labels.{pair_cmp};

use crate::references::References;
use labels::{LabelSet, SeriesRef};
use std::alloc::{AllocError, Global};
use std::cmp::Ordering;
use std::marker::Model;

/// The pair at a place of a label set, with the references of the series that carry it.
#[derive(Drop)]
pub struct Listed {
    labels: LabelSet,
    place: usize,
    references: References,
}

impl Model for Listed {
    ghost use Rattle.std.specs.Prelude.{ℕ, List, [], ◌<◌, length, get_or};

    ghost Value = { (List ℕ × List ℕ) × List ℕ };

    ghost view = { λ l. (get_or l.labels l.place ([], []), l.references) };

    ghost invariant = { λ l. l.place < length l.labels };
}

/// How two pairs lie: by name, and then by value.
pub fn order_of(a: (&str, &str), b: (&str, &str)) -> Ordering
    ensures { result ≡ pair_cmp (a.entry.0.now, a.entry.1.now) (b.entry.0.now, b.entry.1.now) }
{
    match a.0.as_bytes().cmp(b.0.as_bytes()) {
        Ordering::Equal => a.1.as_bytes().cmp(b.1.as_bytes()),
        other => other,
    }
}

impl Listed {
    /// A list of one reference.
    pub fn new(
        alloc: Global,
        labels: &LabelSet,
        place: usize,
        reference: SeriesRef,
    ) -> Result<Listed, AllocError>
        requires { place < length labels.now }
        ensures { IfOk result (λ l. l ≡ (get_or labels.now place ([], []), reference ∷ [])) }
    {
        Ok(Listed {
            labels: labels.try_clone()?,
            place,
            references: References::new(alloc, reference)?,
        })
    }

    pub fn pair(&self) -> (&str, &str)
        ensures name { result.0.now ≡ self.now.0.0 }
        ensures value { result.1.now ≡ self.now.0.1 }
    {
        self.labels.pair(self.place)
    }

    /// How the name of the pair lies to another name.
    pub fn name_order(&self, name: &str) -> Ordering
        ensures { result ≡ slice_cmp nat_cmp self.now.0.0 name.now }
    {
        self.pair().0.as_bytes().cmp(name.as_bytes())
    }

    pub fn references(&self) -> &References
        ensures { result.now ≡ self.now.1 }
    {
        &self.references
    }

    /// A copy with one reference more. The two share the pages of their references.
    pub fn with(&self, alloc: Global, reference: SeriesRef) -> Result<Listed, AllocError>
        ensures { IfOk result (λ l. l ≡ (self.now.0, self.now.1 ++ reference ∷ [])) }
    {
        let mut references = self.references.try_clone(alloc)?;
        references.push(alloc, reference)?;
        Ok(Listed {
            labels: self.labels.try_clone()?,
            place: self.place,
            references,
        })
    }

    /// Adds a reference at the end.
    pub fn push(&mut self, alloc: Global, reference: SeriesRef) -> Result<(), AllocError>
        ensures ok { OnOk result (self.new ≡ (self.old.0, self.old.1 ++ reference ∷ [])) }
        ensures err { OnErr result (self.new ≡ self.old) }
    {
        self.references.push(alloc, reference)?;
        Ok(())
    }
}
