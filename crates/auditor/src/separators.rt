//! Whether separators are references of a part, and whether neighbours share a fitting run.

ghost use Rattle.std.specs.Prelude.{◌≡◌, ◌==◌, ◌&&◌, length};
ghost use Rattle.std.specs.List.Sorted.{IsStrictlyIncreasing};
ghost use Rattle.labels.specs.Parts.{references};
ghost use Rattle.auditor.specs.Looking.{are_picked, shared_at};

use crate::looks::{Looks, split_at_bound};
use labels::{Row, SeriesRef};

/// Whether the separators are references of the series, in their order.
fn are_picked(series: &[(SeriesRef, Row)], separators: &[SeriesRef]) -> bool
    requires { IsStrictlyIncreasing (references series.now) }
    ensures { result ≡ are_picked separators.now series.now }
{
    let mut rest = series;
    for separator in separators {
        let (_, others) = split_at_bound(rest, u64::from(separator.number()));
        let Some((first, later)) = others.split_first() else {
            return false;
        };
        if first.0 != *separator {
            return false;
        }
        rest = later;
    }
    true
}

/// Whether the separators are references of the series, in their order, and so many.
pub(crate) fn are_counted(
    series: &[(SeriesRef, Row)],
    separators: &[SeriesRef],
    count: usize,
) -> bool
    requires { IsStrictlyIncreasing (references series.now) }
    ensures { result ≡ ((length separators.now == count) && are_picked separators.now series.now) }
{
    separators.len() == count && are_picked(series, separators)
}

/// The first place at which a separator and the next share a fitting run. The separators are
/// references of the series, in their order.
pub(crate) fn first_shared(
    looks: &mut Looks<'_>,
    series: &[(SeriesRef, Row)],
    separators: &[SeriesRef],
) -> Option<usize>
    requires { IsStrictlyIncreasing (references series.now) }
    ensures shared { result ≡ shared_at looks.old separators.now series.now }
    ensures same { looks.new ≡ looks.old }
{
    let (first, later) = separators.split_first()?;
    let (_, mut rest) = split_at_bound(series, u64::from(first.number()));
    for (at, separator) in later.iter().enumerate() {
        let number = u64::from(separator.number());
        let (span, _) = split_at_bound(rest, number + 1);
        if looks.share_verdict(span) {
            return Some(at);
        }
        let (_, others) = split_at_bound(rest, number);
        rest = others;
    }
    None
}
