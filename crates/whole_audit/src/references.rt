//! Whether numbers are references of a part, and whether neighbours share a fitting run.

ghost use Rattle.std.specs.Prelude.{◌≡◌, nat_lt, length};
ghost use Rattle.std.specs.List.{take_while};
ghost use Rattle.std.specs.List.Sorted.{IsStrictlyIncreasing};
ghost use Rattle.labels.specs.Parts.{references};
ghost use Rattle.auditor.specs.Looking.{rows_below, rows_from, are_picked, shared_at};

use crate::looks::Looks;
use labels::{Row, SeriesRef};

fn is_below(entry: &(SeriesRef, Row), bound: u64) -> bool
    ensures { result ≡ nat_lt entry.now.0 bound }
{
    u64::from(entry.0.number()) < bound
}

/// How many series stand before the first that is not below a bound.
fn count_below(series: &[(SeriesRef, Row)], bound: u64) -> usize
    ensures { result ≡ length (take_while (λ row. nat_lt row.0 bound) series.now) }
{
    series
        .iter()
        .take_while(|entry| is_below(*entry, bound))
        .count()
}

/// The series below a bound, and the others.
fn split_at_bound(
    series: &[(SeriesRef, Row)],
    bound: u64,
) -> (&[(SeriesRef, Row)], &[(SeriesRef, Row)])
    requires { IsStrictlyIncreasing (references series.now) }
    ensures below { result.0.now ≡ rows_below bound series.now }
    ensures others { result.1.now ≡ rows_from bound series.now }
    ensures rises { IsStrictlyIncreasing (references result.1.now) }
{
    series.split_at(count_below(series, bound))
}

/// Whether numbers are references of the series, in their order.
pub(crate) fn are_picked(series: &[(SeriesRef, Row)], numbers: &[SeriesRef]) -> bool
    requires { IsStrictlyIncreasing (references series.now) }
    ensures { result ≡ are_picked numbers.now series.now }
{
    let mut rest = series;
    for number in numbers {
        let (_, others) = split_at_bound(rest, u64::from(number.number()));
        let Some((first, later)) = others.split_first() else {
            return false;
        };
        if first.0 != *number {
            return false;
        }
        rest = later;
    }
    true
}

/// The first place at which a separator and the next share a fitting run. The separators are
/// references of the series, in their order.
pub(crate) fn first_shared(
    looks: &mut Looks<'_>,
    series: &[(SeriesRef, Row)],
    separators: &[SeriesRef],
) -> Option<usize>
    requires { IsStrictlyIncreasing (references series.now) }
    ensures shared { result ≡ shared_at looks.old separators.now series.now }
    ensures same { looks.new ≡ looks.old }
{
    let (first, later) = separators.split_first()?;
    let (_, mut rest) = split_at_bound(series, u64::from(first.number()));
    for (at, separator) in later.iter().enumerate() {
        let number = u64::from(separator.number());
        let (span, _) = split_at_bound(rest, number + 1);
        if looks.share_verdict(span) {
            return Some(at);
        }
        let (_, others) = split_at_bound(rest, number);
        rest = others;
    }
    None
}
