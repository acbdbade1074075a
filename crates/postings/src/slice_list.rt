//! Lists over slices.

ghost use Rattle.std.specs.Prelude.{◌≡◌, ◌↔◌, ℕ, ◌<◌, ◌≤◌, length, slice_index, IsTrue};
ghost use Rattle.std.specs.List.Sorted.{IsStrictlyIncreasing};
ghost use Rattle.labels.proofs.Lists.{not_below-twice};

use crate::Postings;
use labels::SeriesRef;
use std::cmp::min;

/// A list over a slice. A seek over `n` references takes a number of steps that grows with the
/// logarithm of `n`.
#[derive(Drop)]
pub struct SliceList<'a> {
    rest: &'a [SeriesRef],
    ghost increasing: { IsStrictlyIncreasing rest.now },
}

impl<'a> SliceList<'a> {
    /// Whether the references of a slice ascend strictly, as those of a list do.
    pub fn is_ascending(list: &[SeriesRef]) -> bool
        ensures { IsTrue result ↔ IsStrictlyIncreasing list.now }
    {
        list.is_sorted_by(|a, b| a < b)
    }

    /// The list of all references of the slice.
    pub fn new(list: &'a [SeriesRef]) -> SliceList<'a>
        requires { IsStrictlyIncreasing list.now }
        ensures { ⟦<SliceList<'a> as Postings>⟧.remaining result ≡ list.now }
    {
        SliceList { rest: list }
    }
}

/// A place at which no reference is below the target, or the end. It is found in doubled steps,
/// so it is at most about twice as far as the first such place.
fn place_past(list: &[SeriesRef], target: SeriesRef) -> usize
    ensures within { result ≤ length list.now }
    ensures above { result < length list.now → target ≤ slice_index list.now result }
{
    let mut place = 0;
    while place < list.len() && list[place] < target {
        place += min(place + 1, list.len() - place);
    }
    place
}

/// How many at the front are below the target.
fn count_below(list: &[SeriesRef], target: SeriesRef) -> usize
    requires { IsStrictlyIncreasing list.now }
    ensures within { result ≤ length list.now }
    ensures below { (k : ℕ) → k < result → slice_index list.now k < target }
    ensures above { result < length list.now → target ≤ slice_index list.now result }
{
    list[..place_past(list, target)].partition_point(|reference| *reference < target)
}

impl<'a> Postings for SliceList<'a> {
    ghost remaining = { λ list. list.rest.now };

    fn current(&self) -> Option<SeriesRef> {
        match self.rest {
            [] => None,
            [first, ..] => Some(*first),
        }
    }

    fn advance(&mut self) {
        if let [_, rest @ ..] = self.rest {
            self.rest = rest;
        }
    }

    fn seek(&mut self, target: SeriesRef) {
        let below = count_below(self.rest, target);
        self.rest = &self.rest[below..];
    }

    ghost ascending = { λ list. list.increasing };

    ghost two_seeks = { λ list a b. not_below-twice a b list.rest.now };
}
