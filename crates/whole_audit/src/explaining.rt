//! Whether an answer is right of a part's samples, whatever references its series have.

ghost use Rattle.std.specs.Prelude.{◌≡◌, ◌↔◌, ◌==◌, not, true, length, IsTrue, IfOk, option_map};
ghost use Rattle.std.specs.Prelude.{Some};
ghost use Rattle.labels.specs.Parts.{Part, IsPart, rows_in};
ghost use Rattle.matchers.specs.Views.{QueryView};
ghost use Rattle.cover.specs.declared.part_cover.PartAnswer.{PartAnswer as Answer};
ghost use Rattle.cover.specs.Certificates.{is_match, next_from};
ghost use Rattle.auditor.specs.Auditing.{names_known, all_known, IsSoundAnswer};
ghost use Rattle.whole_audit.specs.Explaining.{is_sampled, sampled, IsExplained};
ghost use Rattle.whole_audit.specs.Taking.{after_taking, are_taken_from, have_no_match, is_chained};
ghost use Rattle.whole_audit.specs.Taking.{lie_within, is_shaped};

use crate::looks::Looks;
use crate::selection::are_selected;
use auditor::Table;
use cover::{Interval, PartAnswer, Verdict};
use labels::{END, Row, SeriesRef};
use matchers::Query;
use std::alloc::{AllocError, Global};

fn names_known(verdict: Verdict, matchers: usize) -> bool
    ensures { result ≡ names_known matchers verdict }
{
    match verdict {
        Verdict::Match | Verdict::NoSample => true,
        Verdict::Rejected(number) => number < matchers,
    }
}

/// Whether no verdict names a missing matcher.
fn all_known(certificate: &[Interval], matchers: usize) -> bool
    ensures { result ≡ all_known matchers certificate.now }
{
    certificate
        .iter()
        .all(|interval| names_known(interval.verdict, matchers))
}

/// Where the first of these intervals begins, or the end of all references.
fn begin_of(intervals: &[Interval]) -> u64
    ensures { result ≡ next_from intervals.now }
{
    match intervals.first() {
        Some(interval) => u64::from(interval.from.number()),
        None => END,
    }
}

/// Whether each interval ends where the next begins, the last one at the end of all references.
fn is_chained(certificate: &[Interval]) -> bool
    ensures { result ≡ is_chained certificate.now }
{
    for (at, interval) in certificate.iter().enumerate() {
        if interval.until != begin_of(&certificate[at + 1..]) {
            return false;
        }
    }
    true
}

/// Whether each number lies in its own interval.
fn lie_within(numbers: &[SeriesRef], certificate: &[Interval]) -> bool
    ensures { result ≡ lie_within numbers.now certificate.now }
{
    let mut rest = numbers;
    for interval in certificate {
        let Some((number, later)) = rest.split_first() else {
            return false;
        };
        if number.number() < interval.from.number()
            || interval.until <= u64::from(number.number())
        {
            return false;
        }
        rest = later;
    }
    rest.is_empty()
}

/// Whether no verdict names a missing matcher, the intervals are a chain, and each separator lies
/// in its own interval.
fn is_shaped(certificate: &[Interval], separators: &[SeriesRef], matchers: usize) -> bool
    ensures { result ≡ is_shaped matchers certificate.now separators.now }
{
    all_known(certificate, matchers)
        && is_chained(certificate)
        && lie_within(separators, certificate)
}

fn is_match(verdict: Verdict) -> bool
    ensures { result ≡ is_match verdict }
{
    match verdict {
        Verdict::Match => true,
        Verdict::NoSample | Verdict::Rejected(_) => false,
    }
}

/// Whether no interval is a match.
fn have_no_match(certificate: &[Interval]) -> bool
    ensures { result ≡ have_no_match certificate.now }
{
    certificate
        .iter()
        .all(|interval| !is_match(interval.verdict))
}

/// The intervals that are left once a series is taken by the first that may take it.
fn after_taking<'a>(
    looks: &mut Looks<'_>,
    certificate: &'a [Interval],
    entry: &(SeriesRef, Row),
) -> Option<&'a [Interval]>
    requires { all_known (length looks.old.matchers) certificate.now ≡ true }
    ensures left { option_map (λ s. s.now) result
        ≡ after_taking looks.old entry.now certificate.now }
    ensures same { looks.new ≡ looks.old }
{
    for (at, interval) in certificate.iter().enumerate() {
        let is_one = is_match(interval.verdict);
        if looks.fits_alone(interval.verdict, entry) {
            return Some(if is_one {
                &certificate[at + 1..]
            } else {
                &certificate[at..]
            });
        }
        if is_one {
            return None;
        }
    }
    None
}

fn is_sampled(entry: &(SeriesRef, Row)) -> bool
    ensures { result ≡ is_sampled entry.now }
{
    !entry.1.samples().is_empty()
}

/// Whether the intervals take the series that have samples in turn.
fn are_taken(looks: &mut Looks<'_>, series: &[(SeriesRef, Row)], certificate: &[Interval]) -> bool
    requires { all_known (length looks.old.matchers) certificate.now ≡ true }
    ensures taken { result ≡ are_taken_from looks.old (Some certificate.now) (sampled series.now) }
    ensures same { looks.new ≡ looks.old }
{
    let mut rest = certificate;
    for entry in series {
        if is_sampled(entry) {
            match after_taking(looks, rest, entry) {
                Some(left) => rest = left,
                None => return false,
            }
        }
    }
    have_no_match(rest)
}

/// Whether an answer is explained by a part: it is right of the samples of the part, whatever
/// references the series have.
///
/// No verdict names a missing matcher; each interval ends where the next begins, the last one at
/// 4,294,967,296; each separator lies in its own interval, as many as intervals; the intervals take
/// the series that have samples in turn, a match exactly one that answers, any other some or none
/// that fit under its verdict; and the rows are those that the query selects. It does not say that
/// the numbers are references of anything, or that no fewer intervals would do.
///
/// By design, and stated by no clause: with n series, m matchers and k intervals it makes at most
/// (m + 1)(2n + k) looks, as `auditor` counts them, and takes the memory of an audit.
pub fn is_explained(
    alloc: Global,
    table: &Table,
    query: &Query,
    answer: &PartAnswer,
) -> Result<bool, AllocError>
    ensures { IfOk result (λ b. IsTrue b ↔ IsExplained table.now query.now answer.now) }
{
    let series = table.series();
    let certificate = answer.cover.certificate.as_slice();
    let separators = answer.cover.separators.as_slice();
    if !is_shaped(certificate, separators, query.matchers().len()) {
        return Ok(false);
    }
    let mut looks = Looks::new(alloc, query)?;
    if !are_taken(&mut looks, series, certificate) {
        return Ok(false);
    }
    Ok(are_selected(alloc, &mut looks, series, answer.rows.as_slice())?)
}

/// The law of explained answers: an answer that is sound of a part is explained by each part whose
/// series have the same label sets and samples, in the same order. Series without samples do not
/// count, and references may be others.
pub fn explaining_laws()
    ensures { (part answered : Part) (query : QueryView) (answer : Answer) → IsPart answered
        → rows_in (sampled part) ≡ rows_in (sampled answered)
        → IsSoundAnswer answered query answer → IsExplained part query answer }
{}
