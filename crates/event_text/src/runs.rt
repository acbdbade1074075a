//! Runs of a batch: samples of one label set that follow each other.

ghost use Rattle.std.specs.Prelude.{◌≡◌, ◌≤◌, ◌++◌, ◌∷◌, [], OnOk, IfOk, length};
ghost use Rattle.std.specs.List.{list_all};
ghost use Rattle.event_text.specs.Runs.{are_runs, batch_in, before, differ, is_filled, lead};
ghost use Rattle.event_text.specs.Runs.{runs_of};

use labels::{LabelSet, Row, Sample};
use std::alloc::{AllocError, Global};

/// How many samples in front have the label set.
pub(crate) fn lead(labels: &LabelSet, samples: &[(LabelSet, Sample)]) -> usize
    ensures count { result ≡ lead labels.now samples.now }
    ensures within { result ≤ length samples.now }
{
    let mut at = 0;
    'same: while at < samples.len() && samples[at].0 == *labels {
        at += 1;
    }
    at
}

/// How many runs a batch has.
pub(crate) fn run_count(samples: &[(LabelSet, Sample)]) -> usize
    ensures { result ≡ length (runs_of samples.now) }
{
    let mut count = 0;
    let mut rest = samples;
    'runs: while let Some((first, others)) = rest.split_first() {
        rest = others.split_at(lead(&first.0, others)).1;
        count += 1;
    }
    count
}

/// Whether each row has another label set than the one before it.
fn differ_after(first: &Row, others: &[Row]) -> bool
    ensures { result ≡ differ (first.now ∷ others.now) }
{
    let mut last = first;
    for row in others {
        if *last.labels() == *row.labels() {
            return false;
        }
        last = row;
    }
    true
}

/// Whether each row has another label set than the next.
pub(crate) fn differ(rows: &[Row]) -> bool
    ensures { result ≡ differ rows.now }
{
    match rows.split_first() {
        Some((first, others)) => differ_after(first, others),
        None => true,
    }
}

/// Whether each row has a sample.
fn are_filled(rows: &[Row]) -> bool
    ensures { result ≡ list_all is_filled rows.now }
{
    for row in rows {
        if row.samples().is_empty() {
            return false;
        }
    }
    true
}

/// Whether rows are the runs of a batch.
pub(crate) fn are_runs(rows: &[Row]) -> bool
    ensures { result ≡ are_runs rows.now }
{
    are_filled(rows) && differ(rows)
}

/// Appends samples, each with the label set.
fn push_each(
    out: &mut Vec<(LabelSet, Sample)>,
    labels: &LabelSet,
    samples: &[Sample],
) -> Result<(), AllocError>
    ensures { OnOk result (out.new.items ≡ out.old.items ++ before labels.now samples.now []) }
{
    for sample in samples {
        out.push((labels.try_clone()?, *sample))?;
    }
    Ok(())
}

/// The batch that rows are. Its samples share the label sets.
pub(crate) fn batch_in(alloc: Global, rows: &[Row]) -> Result<Vec<(LabelSet, Sample)>, AllocError>
    ensures { IfOk result (λ batch. batch.items ≡ batch_in rows.now) }
{
    let mut batch = Vec::new(alloc);
    for row in rows {
        push_each(&mut batch, row.labels(), row.samples())?;
    }
    Ok(batch)
}
