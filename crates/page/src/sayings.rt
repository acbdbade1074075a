//! What the checks of a part say, and the first place where one does not hold.

use crate::pen::Pen;
use crate::verdicts::MATCH;
use crate::words::plural;
use cover::{Interval, PartAnswer, Verdict};
use labels::SeriesRef;
use page_claims::{Checks, count_in};

/// A check that a reply alone allows.
#[derive(Clone, Copy)]
pub(crate) enum Check {
    Chain,
    Names,
    Rows,
    Separators,
}

/// Each check, and whether it holds.
pub(crate) fn sayings(checks: Checks) -> [(Check, bool); 4] {
    [
        (Check::Chain, checks.chain),
        (Check::Names, checks.names),
        (Check::Rows, checks.rows),
        (Check::Separators, checks.separators),
    ]
}

/// What a check says.
pub(crate) fn text_of(check: Check) -> &'static str {
    match check {
        Check::Chain =>
            "The intervals form a chain without a hole: each ends where the next begins, and the \
             last ends at the end of all references.",
        Check::Names =>
            "Each verdict names a matcher that the selector has, a match, or no sample.",
        Check::Rows => "There are as many rows as matches.",
        Check::Separators => "There are as many separators as intervals, one in each.",
    }
}

/// Where the chain breaks first.
fn chain_seen(pen: &mut Pen, intervals: &[Interval]) {
    let mut before: Option<&Interval> = None;
    for interval in intervals {
        if let Some(earlier) = before {
            let from = u64::from(interval.from.number());
            if earlier.until != from || u64::from(earlier.from.number()) >= earlier.until {
                pen.bounds(earlier.from, earlier.until);
                pen.word(" is followed by ");
                pen.bounds(interval.from, interval.until);
                return;
            }
        }
        before = Some(interval);
    }
    if let Some(last) = before {
        pen.word("the last interval is ");
        pen.bounds(last.from, last.until);
    }
}

/// The first verdict that names no matcher.
fn names_seen(pen: &mut Pen, intervals: &[Interval], matchers: usize) {
    for interval in intervals {
        if let Verdict::Rejected(named) = interval.verdict {
            if named >= matchers {
                pen.bounds(interval.from, interval.until);
                pen.word(" names matcher ");
                pen.number(named as u64);
                return;
            }
        }
    }
}

fn rows_seen(pen: &mut Pen, answer: &PartAnswer) {
    let matches = count_in(answer.cover.certificate.as_slice(), MATCH);
    pen.word("there are ");
    plural(pen, matches as u64, " match", " matches");
    pen.word(" and ");
    plural(pen, answer.rows.len() as u64, " row", " rows");
}

fn is_outside(interval: &Interval, separator: SeriesRef) -> bool {
    separator.number() < interval.from.number() || u64::from(separator.number()) >= interval.until
}

/// The first separator that is not in its interval, or how many there are.
fn separators_seen(pen: &mut Pen, answer: &PartAnswer) {
    let intervals = answer.cover.certificate.as_slice();
    let separators = answer.cover.separators.as_slice();
    if intervals.len() != separators.len() {
        pen.word("there are ");
        plural(pen, separators.len() as u64, " separator", " separators");
        pen.word(" and ");
        plural(pen, intervals.len() as u64, " interval", " intervals");
        return;
    }
    for at in 0..intervals.len() {
        if let (Some(interval), Some(separator)) = (intervals.get(at), separators.get(at)) {
            if is_outside(interval, *separator) {
                pen.word("separator ");
                pen.number(u64::from(separator.number()));
                pen.word(", number ");
                pen.counted((at as u64).saturating_add(1));
                pen.word(", is not in interval ");
                pen.bounds(interval.from, interval.until);
                return;
            }
        }
    }
}

/// What is seen where a check does not hold.
pub(crate) fn seen(pen: &mut Pen, check: Check, answer: &PartAnswer, matchers: usize) {
    let intervals = answer.cover.certificate.as_slice();
    match check {
        Check::Chain => chain_seen(pen, intervals),
        Check::Names => names_seen(pen, intervals, matchers),
        Check::Rows => rows_seen(pen, answer),
        Check::Separators => separators_seen(pen, answer),
    }
}
