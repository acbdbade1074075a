//! A walk over the runs of several answers in label order, one label set after another.

ghost use Rattle.std.specs.Prelude.{◌≡◌, ◌++◌, ◌∷◌, [], List, map, IfOk, OnOk};
ghost use Rattle.std.specs.List.{All};
ghost use Rattle.std.specs.List.Sorted.{IsSortedBy};
ghost use Rattle.std.specs.Ordering.{is_lt};
ghost use Rattle.labels.specs.Labels.{labels_cmp};
ghost use Rattle.labels.specs.Rows.{AreRows, IsFull, Row as RowValue, points_of, row_before};
ghost use Rattle.labels.specs.Parts.{laid_over};
ghost use Rattle.series_merge.specs.Merging.{laid_all};
ghost use Rattle.series_merge.specs.Walking.{IsLeast, all_rows, behind, fronts};

use crate::laying::lay_rows;
use crate::remaining::Remaining;
use crate::run::Run;
use labels::{LabelSet, Row};
use std::alloc::{AllocError, Global};

/// Whether a label set is before another. Answers mostly have the same label sets, so it asks first
/// whether the two are equal, which costs less than their order.
fn is_less(labels: &LabelSet, others: &LabelSet) -> bool
    ensures { result ≡ is_lt (labels_cmp labels.now others.now) }
{
    labels != others && labels.cmp(others).is_lt()
}

/// The least label set with which some parts and one more begin, given that of the former.
fn least_with<'a>(least: Option<&'a LabelSet>, part: &Remaining<'a>) -> Option<&'a LabelSet>
    ensures { (parts : List (List RowValue)) → IsLeast least.entry parts
        → IsLeast result (parts ++ part.now ∷ []) }
{
    let Some(first) = part.first() else {
        return least;
    };
    let Some(labels) = least else {
        return Some(first);
    };
    if is_less(first, labels) {
        return Some(first);
    }
    least
}

/// The least label set with which parts begin; `None` if nothing is left of them.
fn least_labels<'a>(parts: &[Remaining<'a>]) -> Option<&'a LabelSet>
    ensures { IsLeast result parts.now }
{
    let mut least = None;
    for part in parts {
        least = least_with(least, part);
    }
    least
}

/// Takes the first runs of each part, as long as they have the label set, and puts them behind
/// `alike`, those of the first part first.
fn take_each<'a>(
    parts: &mut [Remaining<'a>],
    labels: &LabelSet,
    alike: &mut Vec<Run<'a>>,
) -> Result<(), AllocError>
    ensures alike { OnOk result
        (alike.new.items ≡ alike.old.items ++ fronts labels.now parts.old) }
    ensures left { OnOk result (parts.new ≡ map (behind labels.now) parts.old) }
{
    for part in parts.iter_mut() {
        part.take_alike(labels, alike)?;
    }
    Ok(())
}

/// The row that the runs of a label set make.
fn join_alike(alloc: Global, labels: &LabelSet, alike: &[Run]) -> Result<Row, AllocError>
    ensures { IfOk result (λ row. row ≡ (labels.now, laid_all alike.now)) }
{
    let samples = lay_rows(alloc, alike)?;
    Ok(Row::new(labels.try_clone()?, samples))
}

/// The rows that the parts list together, each part over those behind it.
pub(crate) fn walk(alloc: Global, parts: &mut [Remaining]) -> Result<Vec<Row>, AllocError>
    requires full { All IsFull (all_rows parts.old) }
    requires sorted { All (IsSortedBy row_before) parts.old }
    ensures { IfOk result (λ rows.
        AreRows rows.items (laid_over (points_of (all_rows parts.old)) [])) }
{
    let mut alike = Vec::new(alloc);
    let mut rows = Vec::new(alloc);
    'walk: while let Some(labels) = least_labels(parts) {
        alike.clear();
        take_each(parts, labels, &mut alike)?;
        rows.push(join_alike(alloc, labels, alike.as_slice())?)?;
    }
    Ok(rows)
}
