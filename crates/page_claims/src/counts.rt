//! How many intervals have each verdict.

ghost use Rattle.std.specs.Prelude.{◌≡◌, ◌+◌, ◌<◌, ◌≤◌, ◌++◌, ℕ, List, [], length};
ghost use Rattle.cover.specs.declared.certificate.Interval.{Interval};
ghost use Rattle.page_claims.specs.Counting.{slot_of, count_in};

use cover::{Interval, Verdict};

/// How many slots there are: match, matchers 0 to 15, a matcher that no selector has, and none.
pub const SLOTS: usize = 19;

/// The slot of a verdict, in the order in which layers stand from the bottom.
pub fn slot_of(verdict: Verdict) -> usize
    ensures value { result ≡ slot_of verdict }
    ensures within { result < 19 }
{
    match verdict {
        Verdict::Match => 0,
        Verdict::Rejected(matcher) => if matcher < 16 { matcher + 1 } else { 17 },
        Verdict::NoSample => 18,
    }
}

/// How many intervals have a verdict of this slot.
pub fn count_in(intervals: &[Interval], slot: usize) -> usize
    ensures value { result ≡ count_in slot intervals.now }
    ensures within { result ≤ length intervals.now }
{
    let mut count = 0;
    for interval in intervals {
        if slot_of(interval.verdict) == slot {
            count += 1;
        }
    }
    count
}

/// The first of some things, at most so many, which are shown; and those that are left out.
pub fn shown_of<T>(things: &[T], most: usize) -> (&[T], &[T])
    ensures all { result.0.now ++ result.1.now ≡ things.now }
    ensures few { length result.0.now ≤ most }
    // Something is left out only if so many are shown.
    ensures full { length result.0.now < most → result.1.now ≡ [] }
{
    things.split_at(most.min(things.len()))
}

/// The law of counts: those of a list are the sums of those of its pieces, so what columns, groups
/// or what is shown and what is left out count adds up.
pub fn counts_law()
    ensures { (slot : ℕ) (xs ys : List Interval)
        → count_in slot (xs ++ ys) ≡ count_in slot xs + count_in slot ys }
{}
