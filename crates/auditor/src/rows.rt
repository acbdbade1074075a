//! The rows that a query selects of a part.

ghost use Rattle.std.specs.Prelude.{◌≡◌, ◌↔◌, IsTrue, IfOk};
ghost use Rattle.labels.specs.Parts.{IsPart};
ghost use Rattle.labels.specs.Rows.{AreRows};
ghost use Rattle.auditor.specs.Auditing.{selected_content};
ghost use Rattle.auditor.specs.Looking.{row_within, rows_found};

use crate::looks::{Looks, is_in_range};
use labels::{LabelSet, Row, Sample, SeriesRef, sort_rows};
use std::alloc::{AllocError, Global};

fn row_within(alloc: Global, row: &Row, from: i64, to: i64) -> Result<Row, AllocError>
    ensures { IfOk result (λ r. r ≡ row_within from to row.now) }
{
    let samples = row
        .samples()
        .iter()
        .copied()
        .filter(|sample| is_in_range(*sample, from, to))
        .collect(alloc)?;
    Ok(Row::new(row.labels().try_clone()?, samples))
}

/// The rows of the series that answer, in the order of their references.
fn rows_found(
    alloc: Global,
    looks: &mut Looks<'_>,
    series: &[(SeriesRef, Row)],
) -> Result<Vec<Row>, AllocError>
    ensures { IfOk result (λ rows. rows.items ≡ rows_found looks.old series.now) }
{
    let mut rows = Vec::new(alloc);
    for entry in series {
        if looks.answers(entry) {
            rows.push(row_within(alloc, &entry.1, looks.from(), looks.to())?)?;
        }
    }
    Ok(rows)
}

/// The rows that a query selects of a part.
pub(crate) fn selected_rows(
    alloc: Global,
    looks: &mut Looks<'_>,
    series: &[(SeriesRef, Row)],
) -> Result<Vec<Row>, AllocError>
    requires { IsPart series.now }
    ensures { IfOk result (λ rows. AreRows rows.items (selected_content series.now looks.old)) }
{
    let mut rows = rows_found(alloc, looks, series)?;
    sort_rows(&mut rows)?;
    Ok(rows)
}

pub(crate) fn same_sample(a: Sample, b: Sample) -> bool
    ensures { IsTrue result ↔ (a ≡ b) }
{
    a.t() == b.t() && a.v() == b.v()
}

pub(crate) fn same_samples(a: &[Sample], b: &[Sample]) -> bool
    ensures { IsTrue result ↔ (a.now ≡ b.now) }
{
    if a.len() != b.len() {
        return false;
    }
    for (at, sample) in a.iter().enumerate() {
        if !same_sample(*sample, b[at]) {
            return false;
        }
    }
    true
}

pub(crate) fn same_labels(a: &LabelSet, b: &LabelSet) -> bool
    ensures { IsTrue result ↔ (a.now ≡ b.now) }
{
    a == b
}

fn same_row(a: &Row, b: &Row) -> bool
    ensures { IsTrue result ↔ (a.now ≡ b.now) }
{
    same_labels(a.labels(), b.labels()) && same_samples(a.samples(), b.samples())
}

/// Whether two lists of rows are the same.
pub(crate) fn same_rows(a: &[Row], b: &[Row]) -> bool
    ensures { IsTrue result ↔ (a.now ≡ b.now) }
{
    if a.len() != b.len() {
        return false;
    }
    for (at, row) in a.iter().enumerate() {
        if !same_row(row, &b[at]) {
            return false;
        }
    }
    true
}
