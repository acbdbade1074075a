//! Rows in any order as runs.

ghost use Rattle.std.specs.Prelude.{IfOk, OnOk};
ghost use Rattle.exposition.specs.Rows.{ArePut, ArePutOf, IsSameOf};

use crate::runs::Runs;
use labels::{LabelSet, Row, Sample};
use std::alloc::{AllocError, Global};

fn put_samples(
    alloc: Global,
    runs: &mut Runs,
    labels: &LabelSet,
    samples: &[Sample],
) -> Result<(), AllocError>
    ensures { OnOk result (ArePut labels.now samples.now runs.old runs.new) }
{
    for sample in samples {
        runs.put(alloc, labels, *sample)?;
    }
    Ok(())
}

fn put_row(alloc: Global, runs: &mut Runs, row: &Row) -> Result<(), AllocError>
    ensures { OnOk result (ArePut row.now.0 row.now.1 runs.old runs.new) }
{
    put_samples(alloc, runs, row.labels(), row.samples())
}

fn put_rows(alloc: Global, rows: &[Row]) -> Result<Runs, AllocError>
    ensures { IfOk result (ArePutOf rows.now) }
{
    let mut runs = Runs::new(alloc);
    for row in rows {
        put_row(alloc, &mut runs, row)?;
    }
    Ok(runs)
}

/// The samples of rows, in any order, in rows whose times ascend: what stands in a row counts
/// before what stands in rows behind it. Of several samples at one point the last stands.
pub fn runs_of(alloc: Global, rows: &[Row]) -> Result<Vec<Row>, AllocError>
    ensures { IfOk result (λ runs. IsSameOf rows.now runs.items) }
{
    let runs = put_rows(alloc, rows)?;
    Ok(runs.into_rows())
}
