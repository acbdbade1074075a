//! What a snapshot has, as text. Two snapshots are alike if their texts are.

use crate::restarts::events::{PROBES, Wish, event_of};
use head::{SavedSeries, Snapshot, apply};
use history::{Reply, Step, run};
use labels::{LabelSet, MAX_TIME, MIN_TIME, Row, Sample};
use matchers::Query;
use std::alloc::{AllocError, Global};

fn put_labels(text: &mut String, labels: &LabelSet) -> Result<(), AllocError> {
    for at in 0..labels.len() {
        let (name, value) = labels.pair(at);
        write!(text, " {name}={value}")?;
    }
    Ok(())
}

fn put_samples(text: &mut String, samples: &[Sample]) -> Result<(), AllocError> {
    for sample in samples {
        write!(text, " {}:{}", sample.t(), sample.v())?;
    }
    Ok(())
}

/// Each row that has a sample: its label set and its samples.
fn put_rows(text: &mut String, rows: &[Row]) -> Result<(), AllocError> {
    for row in rows {
        text.push_str("\nrow")?;
        put_labels(text, row.labels())?;
        put_samples(text, row.samples())?;
    }
    Ok(())
}

/// A series of the head: its label set, its newest sample and its samples.
fn put_series(text: &mut String, series: &SavedSeries) -> Result<(), AllocError> {
    text.push_str("\nseries")?;
    put_labels(text, series.labels())?;
    let newest = series.newest();
    write!(text, " newest {}:{} of", newest.t(), newest.v())?;
    put_samples(text, series.samples())
}

/// The floor, the ranges of the blocks, and the series of the head.
fn put_parts(alloc: Global, text: &mut String, at: &Snapshot) -> Result<(), AllocError> {
    write!(text, "floor {}", at.floor())?;
    for block in at.blocks() {
        let range = block.range();
        write!(text, "\nblock {} {}", range.min(), range.max())?;
    }
    for series in &at.head().saved(alloc)? {
        put_series(text, series)?;
    }
    Ok(())
}

/// Whether a sample is taken, or why not.
fn put_probe(alloc: Global, text: &mut String, at: &Snapshot, probe: Wish) -> Option<()> {
    let event = event_of(alloc, probe)?;
    match apply(alloc, at, &event) {
        Ok(_) => text.push_str("\ntaken").ok(),
        Err(refused) => write!(text, "\n{refused}").ok(),
    }
}

/// Which samples are taken.
fn put_probes(alloc: Global, text: &mut String, at: &Snapshot) -> Option<()> {
    for probe in PROBES {
        put_probe(alloc, text, at, *probe)?;
    }
    Some(())
}

/// What all times and all label sets have, whatever block or head has it.
fn all_rows(alloc: Global, at: &Snapshot) -> Option<Reply> {
    let query = Query::new(Vec::new(alloc), MIN_TIME, MAX_TIME).ok()?;
    let steps = Vec::from_array(alloc, [Step::query(0, query)]).ok()?;
    run(alloc, at, &steps).ok()?.pop()
}

/// What a snapshot has: its floor, the ranges of its blocks, the series of its head with their
/// newest samples, which samples it takes, and all rows.
pub fn tell(alloc: Global, at: &Snapshot) -> Option<String> {
    let mut text = String::new(alloc);
    put_parts(alloc, &mut text, at).ok()?;
    put_probes(alloc, &mut text, at)?;
    match all_rows(alloc, at)? {
        Reply::Rows(rows) => put_rows(&mut text, &rows).ok()?,
        _ => return None,
    }
    Some(text)
}
