//! Whether rows are those that a query selects of a part.

ghost use Rattle.std.specs.Prelude.{◌≡◌, ◌↔◌, IsTrue, IfOk};
ghost use Rattle.labels.specs.Parts.{IsPart};
ghost use Rattle.labels.specs.Rows.{AreRows};
ghost use Rattle.auditor.specs.Auditing.{selected_content};
ghost use Rattle.auditor.specs.Looking.{row_within, rows_found};

use crate::looks::{Looks, is_in_range};
use auditor::{Flaw, audit_merge};
use cover::{PartAnswer, PartCover, PartName};
use labels::{Row, SeriesRef, sort_rows};
use std::alloc::{AllocError, Global};

fn row_within(alloc: Global, row: &Row, from: i64, to: i64) -> Result<Row, AllocError>
    ensures { IfOk result (λ r. r ≡ row_within from to row.now) }
{
    let samples = row
        .samples()
        .iter()
        .copied()
        .filter(|sample| is_in_range(*sample, from, to))
        .collect(alloc)?;
    Ok(Row::new(row.labels().try_clone()?, samples))
}

/// The rows of the series that answer, in the order of their references.
fn rows_found(
    alloc: Global,
    looks: &mut Looks<'_>,
    series: &[(SeriesRef, Row)],
) -> Result<Vec<Row>, AllocError>
    ensures { IfOk result (λ rows. rows.items ≡ rows_found looks.old series.now) }
{
    let mut rows = Vec::new(alloc);
    for entry in series {
        if looks.answers(entry) {
            rows.push(row_within(alloc, &entry.1, looks.from(), looks.to())?)?;
        }
    }
    Ok(rows)
}

/// The rows that a query selects of a part.
fn selected_rows(
    alloc: Global,
    looks: &mut Looks<'_>,
    series: &[(SeriesRef, Row)],
) -> Result<Vec<Row>, AllocError>
    requires { IsPart series.now }
    ensures { IfOk result (λ rows. AreRows rows.items (selected_content series.now looks.old)) }
{
    let mut rows = rows_found(alloc, looks, series)?;
    sort_rows(&mut rows)?;
    Ok(rows)
}

/// Rows that stand for an answer of their own.
fn listing(alloc: Global, rows: Vec<Row>) -> PartAnswer
    ensures { result.rows ≡ rows }
{
    PartAnswer {
        part: PartName::Head,
        rows,
        cover: PartCover {
            certificate: Vec::new(alloc),
            separators: Vec::new(alloc),
            moves: 0,
        },
    }
}

/// Whether rows are those that a query selects of a part.
pub(crate) fn are_selected(
    alloc: Global,
    looks: &mut Looks<'_>,
    series: &[(SeriesRef, Row)],
    rows: &[Row],
) -> Result<bool, AllocError>
    requires { IsPart series.now }
    ensures { IfOk result (λ b. IsTrue b
        ↔ AreRows rows.now (selected_content series.now looks.old)) }
{
    let selected = listing(alloc, selected_rows(alloc, looks, series)?);
    match audit_merge(alloc, &[selected], rows) {
        Ok(()) => Ok(true),
        Err(Flaw::WrongMerge) => Ok(false),
        Err(_) => Err(AllocError),
    }
}
