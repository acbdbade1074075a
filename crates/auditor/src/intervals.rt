//! Whether intervals are a partition of a part, and whether their runs fit.

ghost use Rattle.std.specs.Prelude.{◌≡◌, true, length};
ghost use Rattle.std.specs.List.Sorted.{IsStrictlyIncreasing};
ghost use Rattle.labels.specs.Parts.{references};
ghost use Rattle.auditor.specs.Auditing.{names_known, all_known};
ghost use Rattle.auditor.specs.Looking.{cuts, first_misfit};

use crate::looks::{Looks, first_or_end, split_at_bound};
use cover::{Interval, Verdict};
use labels::{END, Row, SeriesRef};

fn names_known(verdict: Verdict, matchers: usize) -> bool
    ensures { result ≡ names_known matchers verdict }
{
    match verdict {
        Verdict::Match | Verdict::NoSample => true,
        Verdict::Rejected(number) => number < matchers,
    }
}

/// Whether no verdict names a missing matcher.
pub(crate) fn all_known(certificate: &[Interval], matchers: usize) -> bool
    ensures { result ≡ all_known matchers certificate.now }
{
    certificate
        .iter()
        .all(|interval| names_known(interval.verdict, matchers))
}

/// Whether the intervals cut the series into runs, one after another.
pub(crate) fn are_cut(series: &[(SeriesRef, Row)], certificate: &[Interval]) -> bool
    requires { IsStrictlyIncreasing (references series.now) }
    ensures { result ≡ cuts certificate.now series.now }
{
    let mut rest = series;
    for interval in certificate {
        let from = u64::from(interval.from.number());
        if from != first_or_end(rest) || interval.until <= from {
            return false;
        }
        let (_, others) = split_at_bound(rest, interval.until);
        if interval.until != first_or_end(others) {
            return false;
        }
        rest = others;
    }
    first_or_end(rest) == END
}

/// The verdict of the first interval whose run does not fit under it.
pub(crate) fn first_misfit(
    looks: &mut Looks<'_>,
    series: &[(SeriesRef, Row)],
    certificate: &[Interval],
) -> Option<Verdict>
    requires rises { IsStrictlyIncreasing (references series.now) }
    requires known { all_known (length looks.old.matchers) certificate.now ≡ true }
    ensures misfit { result ≡ first_misfit looks.old certificate.now series.now }
    ensures same { looks.new ≡ looks.old }
{
    let mut rest = series;
    for interval in certificate {
        let (run, others) = split_at_bound(rest, interval.until);
        if !looks.fits(interval.verdict, run) {
            return Some(interval.verdict);
        }
        rest = others;
    }
    None
}
