//! The rows of several answers, borrowed, those of each answer in label order.

ghost use Rattle.std.specs.Prelude.{◌≡◌, ◌++◌, IfOk, OnOk};
ghost use Rattle.std.specs.List.{All};
ghost use Rattle.std.specs.List.Sorted.{IsSortedBy};
ghost use Rattle.labels.specs.Rows.{IsFull, points_in, points_of, row_before};
ghost use Rattle.series_merge.specs.Merging.{ListAlike, row_lists, newest_first};
ghost use Rattle.series_merge.specs.Walking.{all_rows};

use crate::remaining::Remaining;
use crate::run::{Run, are_in_order, sort_runs};
use cover::PartAnswer;
use labels::Row;
use std::alloc::{AllocError, Global};

/// Adds a row at the end if it has samples.
fn push_row<'a>(all: &mut Vec<Run<'a>>, row: &'a Row) -> Result<(), AllocError>
    requires { All IsFull all.old.items }
    ensures points { OnOk result (points_of all.new.items
        ≡ points_of all.old.items ++ points_in row.now.0 row.now.1) }
    ensures full { OnOk result (All IsFull all.new.items) }
{
    let samples = row.samples();
    if samples.is_empty() {
        return Ok(());
    }
    all.push(Run::new(row.labels(), samples))?;
    Ok(())
}

/// Adds those of the rows at the end that have samples.
fn push_rows<'a>(all: &mut Vec<Run<'a>>, rows: &'a [Row]) -> Result<(), AllocError>
    requires { All IsFull all.old.items }
    ensures points { OnOk result (points_of all.new.items
        ≡ points_of all.old.items ++ points_of rows.now) }
    ensures full { OnOk result (All IsFull all.new.items) }
{
    for row in rows {
        push_row(all, row)?;
    }
    Ok(())
}

/// The rows of an answer that have samples, in label order; those of one label set keep theirs.
fn runs_of<'a>(alloc: Global, rows: &'a [Row]) -> Result<Vec<Run<'a>>, AllocError>
    ensures listed { IfOk result (λ runs. ListAlike runs.items rows.now) }
    ensures full { IfOk result (λ runs. All IsFull runs.items) }
    ensures sorted { IfOk result (λ runs. IsSortedBy row_before runs.items) }
{
    let mut runs = Vec::with_capacity(alloc, rows.len())?;
    push_rows(&mut runs, rows)?;
    if are_in_order(runs.as_slice()) {
        return Ok(runs);
    }
    sort_runs(&mut runs)?;
    Ok(runs)
}

/// The rows of all answers that have samples: a part for each answer, the last answer's first, and
/// in each the rows in label order.
pub(crate) fn gather_runs<'a>(
    alloc: Global,
    answers: &'a [PartAnswer],
) -> Result<Vec<Remaining<'a>>, AllocError>
    ensures listed { IfOk result (λ parts.
        ListAlike (all_rows parts.items) (newest_first (row_lists answers.now))) }
    ensures full { IfOk result (λ parts. All IsFull (all_rows parts.items)) }
    ensures sorted { IfOk result (λ parts. All (IsSortedBy row_before) parts.items) }
{
    let mut parts = Vec::with_capacity(alloc, answers.len())?;
    let mut left = answers.len();
    while left > 0 {
        left -= 1;
        let runs = runs_of(alloc, answers[left].rows.as_slice())?;
        parts.push(Remaining::new(runs))?;
    }
    Ok(parts)
}
