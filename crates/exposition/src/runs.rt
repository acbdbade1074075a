//! Samples in runs: rows whose times ascend.

ghost use Rattle.std.specs.Prelude.{◌≡◌, ◌∷◌, [], ◌++◌, T, IfOk, OnOk, reverse};
ghost use Rattle.std.specs.Bool.{OnTrue};
ghost use Rattle.std.specs.Ordering.{int_cmp};
ghost use Rattle.std.specs.FinMap.Entries.{is_sorted};
ghost use Rattle.exposition.specs.Runs.{AreRising, GoesOn, IsPut};

use labels::{LabelSet, Row, Sample};
use std::alloc::{AllocError, Global};
use std::cmp::Ordering;
use std::marker::Model;

/// Rows whose times ascend. Of several samples at one point the last counts.
#[derive(Drop)]
pub struct Runs {
    rows: Vec<Row>,
}

impl Model for Runs {
    ghost use Rattle.std.specs.Prelude.{List};
    ghost use Rattle.labels.specs.Rows.{Row};
    ghost use Rattle.exposition.specs.Runs.{AreRising};

    ghost Value = { List Row };

    ghost view = { λ r. r.rows.items };

    ghost invariant = { λ r. AreRising r.rows.items };
}

fn order_of_times(a: Sample, b: Sample) -> Ordering
    ensures { result ≡ int_cmp a.0 b.0 }
{
    a.t().cmp(&b.t())
}

/// Whether a sample comes after others.
fn comes_after(samples: &[Sample], sample: Sample) -> bool
    requires { T (is_sorted int_cmp samples.now) }
    ensures { OnTrue result (T (is_sorted int_cmp (samples.now ++ sample ∷ []))) }
{
    let Some((last, _)) = samples.split_last() else {
        return true;
    };
    matches!(order_of_times(*last, sample), Ordering::Less)
}

/// Whether a row goes on with a sample.
fn goes_on(row: &Row, labels: &LabelSet, sample: Sample) -> bool
    requires { T (is_sorted int_cmp row.now.1) }
    ensures { OnTrue result (GoesOn row.now labels.now sample) }
{
    row.labels() == labels && comes_after(row.samples(), sample)
}

fn row_of(alloc: Global, labels: &LabelSet, sample: Sample) -> Result<Row, AllocError>
    ensures { IfOk result (λ row. row ≡ (labels.now, sample ∷ [])) }
{
    let mut samples = Vec::new(alloc);
    samples.push(sample)?;
    Ok(Row::new(labels.try_clone()?, samples))
}

fn with_sample(row: Row, sample: Sample) -> Result<Row, AllocError>
    ensures { IfOk result (λ r. r ≡ (row.0, row.1 ++ sample ∷ [])) }
{
    let (labels, samples) = row.into_parts();
    let mut samples = samples;
    samples.push(sample)?;
    Ok(Row::new(labels, samples))
}

// The run that goes on with a sample, or one of it alone behind the last.
fn last_run(
    alloc: Global,
    rows: &mut Vec<Row>,
    labels: &LabelSet,
    sample: Sample,
) -> Result<Row, AllocError>
    requires { AreRising rows.old.items }
    ensures put { IfOk result
        (λ row. IsPut labels.now sample rows.old.items (rows.new.items ++ row ∷ [])) }
    ensures rise { AreRising rows.new.items }
    ensures row_rises { IfOk result (λ row. T (is_sorted int_cmp row.1)) }
{
    let Some(last) = rows.pop() else {
        let row = row_of(alloc, labels, sample)?;
        return Ok(row);
    };
    if goes_on(&last, labels, sample) {
        let row = with_sample(last, sample)?;
        return Ok(row);
    }
    rows.push(last)?;
    let row = row_of(alloc, labels, sample)?;
    Ok(row)
}

impl Runs {
    /// No run.
    pub fn new(alloc: Global) -> Runs
        ensures { result ≡ [] }
    {
        Runs {
            rows: Vec::new(alloc),
        }
    }

    /// Puts a sample over the others: at the end of the last run, if it goes on there, or as a run
    /// of its own.
    pub fn put(
        &mut self,
        alloc: Global,
        labels: &LabelSet,
        sample: Sample,
    ) -> Result<(), AllocError>
        ensures { OnOk result (IsPut labels.now sample self.old self.new) }
    {
        let row = last_run(alloc, &mut self.rows, labels, sample)?;
        self.rows.push(row)?;
        Ok(())
    }

    /// The runs, of which the first counts.
    pub fn into_rows(self) -> Vec<Row>
        ensures is { result.items ≡ reverse self }
        ensures rise { AreRising result.items }
    {
        let mut rows = self.rows;
        rows.reverse();
        rows
    }
}
