//! The series of a block with an undeleted sample in a range.

ghost use Rattle.std.specs.Prelude.{◌≡◌, ℕ, ◌<◌, ◌≤◌, List, drop, length};
ghost use Rattle.std.specs.List.Sorted.{IsStrictlyIncreasing};
ghost use Rattle.labels.specs.Ascending.{first_of};
ghost use Rattle.labels.specs.Parts.{references, live_references};

use crate::blocks::Block;
use crate::samples::Times;
use labels::SeriesRef;
use postings::Postings;

/// The place of the first series, from a place on, that has an undeleted sample in the range, or
/// the end.
fn next_live(block: &Block, start: usize, times: Times) -> usize
    requires { start ≤ length block.now.part }
    ensures within { result ≤ length block.now.part }
    ensures moved { live_references times.from times.to (drop result block.now.part)
        ≡ live_references times.from times.to (drop start block.now.part) }
    ensures settled { first_of (live_references times.from times.to (drop result block.now.part))
        ≡ first_of (references (drop result block.now.part)) }
{
    let mut place = start;
    while place < block.series_count() && !block.is_live_at(place, times) {
        place += 1;
    }
    place
}

/// The list of the series that have an undeleted sample in a closed range. It stands at such a
/// series, or at the end, and looks at the series only as it goes on: it finds the chunks whose
/// times meet the range by halving, looks at their ends first, and reads a chunk only where the
/// ends leave it open.
#[derive(Drop)]
pub struct LiveList<'a> {
    block: &'a Block,
    place: usize,
    times: Times,
    ghost within: { place ≤ length block.now.part },
    ghost rising: { IsStrictlyIncreasing (references block.now.part) },
    ghost settled: { first_of (live_references times.from times.to (drop place block.now.part))
        ≡ first_of (references (drop place block.now.part)) },
}

impl<'a> LiveList<'a> {
    ghost use Rattle.block.specs.LiveLists.{live_in};

    /// The list over the series of a block.
    pub(crate) fn new(block: &'a Block, times: Times) -> LiveList<'a>
        requires { IsStrictlyIncreasing (references block.now.part) }
        ensures { live_in result ≡ live_references times.from times.to block.now.part }
    {
        LiveList {
            block,
            place: next_live(block, 0, times),
            times,
        }
    }
}

impl<'a> Postings for LiveList<'a> {
    ghost use Rattle.labels.proofs.Lists.{not_below-twice};
    ghost use Rattle.block.specs.ListLaws.{live_rises};
    ghost use Rattle.block.specs.LiveLists.{live_in};

    ghost remaining = { λ live. live_in live };

    fn current(&self) -> Option<SeriesRef> {
        if self.place < self.block.series_count() {
            return Some(self.block.reference_at(self.place));
        }
        None
    }

    fn advance(&mut self) {
        if self.place < self.block.series_count() {
            self.place = next_live(self.block, self.place + 1, self.times);
        }
    }

    fn seek(&mut self, target: SeriesRef) {
        let start = self.block.place_from(self.place, target);
        if start > self.place {
            self.place = next_live(self.block, start, self.times);
        }
    }

    ghost ascending = { λ live. live_rises live };

    ghost two_seeks = { λ live a b. not_below-twice a b (live_in live) };
}
