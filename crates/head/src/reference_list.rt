//! The references of one pair as a list.

ghost use Rattle.std.specs.Prelude.{◌≡◌, ℕ, ◌<◌, ◌≤◌, ◌+◌, length, take, drop, max, slice_index};
ghost use Rattle.std.specs.List.Sorted.{IsStrictlyIncreasing};
ghost use Rattle.labels.specs.Ascending.{first_of, rest_of, not_below};

use crate::references::References;
use labels::SeriesRef;
use postings::Postings;
use std::cmp::min;

/// A list over the references of a pair. It stands at a place and holds the rest of its piece, so a
/// step is no search. A seek past `n` references takes a number of steps that grows with the
/// logarithm of `n`.
#[derive(Drop)]
pub struct ReferenceList<'a> {
    references: &'a References,
    place: usize,
    piece: &'a [u32],
    ghost increasing: { IsStrictlyIncreasing references.now },
    ghost within: { place ≤ length references.now },
    ghost some: { place < length references.now → 0 < length piece.now },
    ghost front: { piece.now ≡ take (length piece.now) (drop place references.now) },
}

impl<'a> ReferenceList<'a> {
    /// The list of all references, which have to ascend strictly.
    pub fn new(references: &'a References) -> ReferenceList<'a>
        requires { IsStrictlyIncreasing references.now }
        ensures { ⟦<ReferenceList<'a> as Postings>⟧.remaining result ≡ references.now }
    {
        ReferenceList {
            references,
            place: 0,
            piece: references.piece_from(0),
        }
    }

    /// The references from a place that is not passed to the end of the piece that holds it.
    fn piece_from(&self, place: usize) -> &'a [u32]
        requires ahead { self.now.place ≤ place }
        requires within { place ≤ length self.now.references.now }
        ensures some { place < length self.now.references.now → 0 < length result.now }
        ensures front { result.now
            ≡ take (length result.now) (drop place self.now.references.now) }
    {
        let ahead = place - self.place;
        if ahead < self.piece.len() {
            return &self.piece[ahead..];
        }
        self.references.piece_from(place)
    }

    /// The reference at a place that is not passed.
    fn at(&self, place: usize) -> SeriesRef
        requires ahead { self.now.place ≤ place }
        requires within { place < length self.now.references.now }
        ensures { result ≡ slice_index self.now.references.now place }
    {
        SeriesRef::new(self.piece_from(place)[0])
    }

    /// A place at which no reference is below the target, or the end. It is found in doubled steps,
    /// so it is at most about twice as far as the first such place.
    fn place_past(&self, target: SeriesRef) -> usize
        ensures ahead { self.now.place ≤ result }
        ensures within { result ≤ length self.now.references.now }
        ensures above { result < length self.now.references.now
            → target ≤ slice_index self.now.references.now result }
    {
        let end = self.references.len();
        let mut place = self.place;
        while place < end && self.at(place) < target {
            place += min(place - self.place + 1, end - place);
        }
        place
    }

    /// The first place at which the reference is not below the target, or the end.
    fn place_of(&self, target: SeriesRef) -> usize
        ensures ahead { self.now.place ≤ result }
        ensures within { result ≤ length self.now.references.now }
        ensures below { (k : ℕ) → self.now.place ≤ k → k < result
            → slice_index self.now.references.now k < target }
        ensures above { result < length self.now.references.now
            → target ≤ slice_index self.now.references.now result }
    {
        let mut start = self.place;
        let mut end = self.place_past(target);
        while start < end {
            let middle = start + (end - start) / 2;
            if self.at(middle) < target {
                start = middle + 1;
            } else {
                end = middle;
            }
        }
        start
    }

    /// Goes on to a place.
    fn go_on_to(&mut self, place: usize)
        requires ahead { self.old.place ≤ place }
        requires within { place ≤ length self.old.references.now }
        ensures place { self.new.place ≡ place }
        ensures references { self.new.references ≡ self.old.references }
    {
        let piece = self.piece_from(place);
        self.place = place;
        self.piece = piece;
    }
}

impl<'a> Postings for ReferenceList<'a> {
    ghost use Rattle.std.specs.Prelude.{drop};
    ghost use Rattle.labels.proofs.Lists.{not_below-twice, rising-drop};

    ghost remaining = { λ list. drop list.place list.references.now };

    fn current(&self) -> Option<SeriesRef> {
        match self.piece {
            [] => None,
            [first, ..] => Some(SeriesRef::new(*first)),
        }
    }

    fn advance(&mut self) {
        if self.place < self.references.len() {
            self.go_on_to(self.place + 1);
        }
    }

    fn seek(&mut self, target: SeriesRef) {
        let place = self.place_of(target);
        self.go_on_to(place);
    }

    ghost ascending = { λ list. rising-drop list.references.now list.place list.increasing };

    ghost two_seeks = { λ list a b. not_below-twice a b (drop list.place list.references.now) };
}
