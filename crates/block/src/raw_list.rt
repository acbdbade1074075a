//! A list of references that are read in place.

ghost use Rattle.std.specs.Prelude.{◌≡◌, ℕ, ◌+◌, ◌-◌, ◌<◌, ◌≤◌, length, drop, get_or, slice_get};
ghost use Rattle.std.specs.List.Sorted.{IsStrictlyIncreasing};
ghost use Rattle.block.specs.Remaining.{IsAtPlace, HasReadOne, HasReadWithinDigits};

use index_reader::Entries;
use labels::SeriesRef;
use postings::Postings;

/// A list over entries. It keeps the reference at its place, so that `current` reads none, and it
/// tells how many the last move read.
#[derive(Drop)]
pub struct RawList<'a> {
    entries: Entries<'a>,
    at: usize,
    head: Option<SeriesRef>,
    last_reads: u64,
    ghost placed: { IsAtPlace entries.0 at head },
}

/// The first place, from a place on, of a reference that is not below the target, and that
/// reference.
fn place_of(entries: &mut Entries, from: usize, target: SeriesRef) -> (usize, Option<SeriesRef>)
    requires within { from ≤ length entries.old.0 }
    requires increasing { IsStrictlyIncreasing entries.old.0 }
    ensures same { entries.new.0 ≡ entries.old.0 }
    ensures few { HasReadWithinDigits (length entries.old.0 - from) entries.old.1 entries.new.1 }
    ensures place { (from ≤ result.0) × (result.0 ≤ length entries.old.0) }
    ensures below { (k : ℕ) → from ≤ k → k < result.0 → get_or entries.old.0 k 0 < target }
    ensures above { result.0 < length entries.old.0 → target ≤ get_or entries.old.0 result.0 0 }
    ensures head { result.1 ≡ slice_get entries.old.0 result.0 }
{
    let mut low = from;
    let mut high = entries.len();
    let mut head = None;
    while low < high {
        let middle = low + (high - low) / 2;
        let reference = entries.get(middle);
        if reference.number() < target.number() {
            low = middle + 1;
        } else {
            high = middle;
            head = Some(reference);
        }
    }
    (high, head)
}

fn head_of(entries: &mut Entries, at: usize) -> Option<SeriesRef>
    ensures same { entries.new.0 ≡ entries.old.0 }
    ensures few { HasReadOne entries.old.1 entries.new.1 }
    ensures head { result ≡ slice_get entries.old.0 at }
{
    if at >= entries.len() {
        return None;
    }
    Some(entries.get(at))
}

impl<'a> RawList<'a> {
    ghost use Rattle.block.specs.RawLists.{last_reads_of, reads_of, remaining_of};

    /// The list of all these references. It reads the first.
    pub fn new(entries: Entries<'a>) -> RawList<'a>
        requires { IsStrictlyIncreasing entries.0 }
        ensures list { remaining_of result ≡ entries.entry.0 }
        ensures few { HasReadOne entries.entry.1 (reads_of result) }
        ensures last { last_reads_of result ≡ reads_of result - entries.entry.1 }
    {
        let mut entries = entries;
        let before = entries.reads();
        let head = head_of(&mut entries, 0);
        let last_reads = entries.reads() - before;
        RawList {
            entries,
            at: 0,
            head,
            last_reads,
        }
    }

    /// How many references the last move read, or the making where there was none.
    pub fn last_reads(&self) -> u64
        ensures { result ≡ last_reads_of self.now }
    {
        self.last_reads
    }
}

impl<'a> Postings for RawList<'a> {
    ghost use Rattle.labels.specs.Ascending.{first_or_end, rest_of, not_below};
    ghost use Rattle.labels.proofs.Lists.{not_below-twice, rising-drop};
    ghost use Rattle.block.specs.RawLists.{last_reads_of, reads_of, remaining_of};

    ghost remaining = { λ list. remaining_of list };

    fn current(&self) -> Option<SeriesRef> {
        self.head
    }

    /// It reads at most one reference.
    fn advance(&mut self)
        ensures list { remaining_of self.new ≡ rest_of (remaining_of self.old) }
        ensures few { HasReadOne (reads_of self.old) (reads_of self.new) }
        ensures last { last_reads_of self.new ≡ reads_of self.new - reads_of self.old }
    {
        self.last_reads = 0;
        if self.at < self.entries.len() {
            let before = self.entries.reads();
            self.at += 1;
            self.head = head_of(&mut self.entries, self.at);
            self.last_reads = self.entries.reads() - before;
        }
    }

    /// It reads at most as many references as the length of what remained has binary digits, and
    /// none where the target is not above the first.
    fn seek(&mut self, target: SeriesRef)
        ensures list { remaining_of self.new ≡ not_below target (remaining_of self.old) }
        ensures few { HasReadWithinDigits (length (remaining_of self.old)) (reads_of self.old)
            (reads_of self.new) }
        ensures still { target ≤ first_or_end (remaining_of self.old)
            → reads_of self.new ≡ reads_of self.old }
        ensures last { last_reads_of self.new ≡ reads_of self.new - reads_of self.old }
    {
        self.last_reads = 0;
        let Some(head) = self.head else {
            return;
        };
        if target.number() > head.number() {
            let before = self.entries.reads();
            let (at, head) = place_of(&mut self.entries, self.at, target);
            self.at = at;
            self.head = head;
            self.last_reads = self.entries.reads() - before;
        }
    }

    ghost ascending = { λ list. rising-drop list.entries.0 list.at list.placed.increasing };

    ghost two_seeks = { λ list a b. not_below-twice a b (drop list.at list.entries.0) };
}
