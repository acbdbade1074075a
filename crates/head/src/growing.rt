//! The samples that a batch adds to one series.

ghost use Rattle.std.specs.Prelude.{◌≡◌, ◌≤◌, ◌+◌, OnOk, length};
ghost use Rattle.head.specs.OwnSteps.{Takes, TakesEach};

use crate::error::CommitError;
use crate::judge::{Met, judge};
use crate::series::Series;
use labels::Sample;
use std::alloc::{AllocError, Global};

/// Adds a sample to a series. It has the number `at` in its batch.
fn add_to(
    alloc: Global,
    series: &mut Series,
    floor: i64,
    at: usize,
    sample: Sample,
) -> Result<(), CommitError>
    ensures step { Takes floor at sample result series.old series.new }
    ensures labels { OnOk result (series.new.labels ≡ series.old.labels) }
{
    match judge(floor, Some(series.newest()), series.is_full(), sample) {
        Met::Joins => match series.push(alloc, sample) {
            Ok(()) => Ok(()),
            Err(AllocError) => Err(CommitError::Memory),
        },
        Met::Held => Ok(()),
        Met::Refused(reason) => Err(reason.refusal(at)),
    }
}

/// Adds samples to a series, up to the first refused one; the first has the number `at` in its
/// batch.
pub(crate) fn add_to_each(
    alloc: Global,
    series: &mut Series,
    floor: i64,
    at: usize,
    samples: &[Sample],
) -> Result<(), CommitError>
    requires few { at + length samples.now ≤ 4096 }
    ensures step { TakesEach floor at samples.now result series.old series.new }
    ensures labels { OnOk result (series.new.labels ≡ series.old.labels) }
{
    let mut i = 0;
    while i < samples.len() {
        match add_to(alloc, series, floor, at + i, samples[i]) {
            Ok(()) => {}
            Err(refusal) => return Err(refusal),
        }
        i += 1;
    }
    Ok(())
}
