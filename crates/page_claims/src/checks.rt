//! What a reply shows of a part by itself.

ghost use Rattle.std.specs.Prelude.{◌≡◌, ◌==◌, ◌≤◌, length};
ghost use Rattle.page_claims.specs.Checking.{next_from, is_chain, is_named, are_named, is_match};
ghost use Rattle.page_claims.specs.Checking.{matches_in, are_separated, is_checked};

use cover::{Interval, PartAnswer, Verdict};
use labels::{END, SeriesRef};

/// Which checks an answer passes.
#[derive(Clone, Copy, Debug, PartialEq, Eq, Drop)]
pub struct Checks {
    /// The intervals form a chain without a hole, up to the end of all references.
    pub chain: bool,
    /// Each verdict names a matcher that is there, or none.
    pub names: bool,
    /// There are as many rows as matches.
    pub rows: bool,
    /// There are as many separators as intervals, one in each.
    pub separators: bool,
}

/// Where the next interval begins, or the end of all references.
fn next_from(later: &[Interval]) -> u64
    ensures { result ≡ next_from later.now }
{
    match later.first() {
        Some(next) => u64::from(next.from.number()),
        None => END,
    }
}

/// Whether the intervals form a chain without a hole, up to the end of all references.
fn is_chain(intervals: &[Interval]) -> bool
    ensures { result ≡ is_chain intervals.now }
{
    let mut rest = intervals;
    while let Some((first, later)) = rest.split_first() {
        if u64::from(first.from.number()) >= first.until || first.until != next_from(later) {
            return false;
        }
        rest = later;
    }
    true
}

fn is_named(verdict: Verdict, matchers: usize) -> bool
    ensures { result ≡ is_named matchers verdict }
{
    match verdict {
        Verdict::Rejected(matcher) => matcher < matchers,
        Verdict::Match | Verdict::NoSample => true,
    }
}

/// Whether each verdict names a matcher that is there, or none.
fn are_named(intervals: &[Interval], matchers: usize) -> bool
    ensures { result ≡ are_named matchers intervals.now }
{
    let mut rest = intervals;
    while let Some((first, later)) = rest.split_first() {
        if !is_named(first.verdict, matchers) {
            return false;
        }
        rest = later;
    }
    true
}

fn is_match(verdict: Verdict) -> bool
    ensures { result ≡ is_match verdict }
{
    match verdict {
        Verdict::Match => true,
        Verdict::Rejected(_) | Verdict::NoSample => false,
    }
}

/// How many intervals are matches.
fn matches_in(intervals: &[Interval]) -> usize
    ensures value { result ≡ matches_in intervals.now }
    ensures within { result ≤ length intervals.now }
{
    let mut count = 0;
    for interval in intervals {
        if is_match(interval.verdict) {
            count += 1;
        }
    }
    count
}

/// Whether there are as many separators as intervals, one in each, in their order.
fn are_separated(intervals: &[Interval], separators: &[SeriesRef]) -> bool
    ensures { result ≡ are_separated intervals.now separators.now }
{
    let (mut rest, mut others) = (intervals, separators);
    while let Some((interval, later)) = rest.split_first() {
        let Some((separator, following)) = others.split_first() else {
            return false;
        };
        let number = separator.number();
        if number < interval.from.number() || u64::from(number) >= interval.until {
            return false;
        }
        rest = later;
        others = following;
    }
    others.is_empty()
}

/// The checks of an answer that need no series.
pub fn checks_of(answer: &PartAnswer, matchers: usize) -> Checks
    ensures chain { result.chain ≡ is_chain answer.now.cover.certificate.items }
    ensures names { result.names ≡ are_named matchers answer.now.cover.certificate.items }
    ensures rows { result.rows
        ≡ (matches_in answer.now.cover.certificate.items == length answer.now.rows.items) }
    ensures separators { result.separators
        ≡ are_separated answer.now.cover.certificate.items answer.now.cover.separators.items }
{
    let intervals = answer.cover.certificate.as_slice();
    Checks {
        chain: is_chain(intervals),
        names: are_named(intervals, matchers),
        rows: matches_in(intervals) == answer.rows.len(),
        separators: are_separated(intervals, answer.cover.separators.as_slice()),
    }
}

/// Whether an answer passes all of them.
pub(crate) fn is_checked(answer: &PartAnswer, matchers: usize) -> bool
    ensures { result ≡ is_checked matchers answer.now }
{
    let checks = checks_of(answer, matchers);
    checks.chain && checks.names && checks.rows && checks.separators
}
