//! What the series of a write come to.

ghost use Rattle.std.specs.Prelude.{◌≡◌, true, map, IfOk, OnOk};
ghost use Rattle.remote_write.specs.Reading.{series_seen};
ghost use Rattle.remote_requests.specs.Left.{Adds};
ghost use Rattle.remote_requests.specs.Series.{are_few, points_in, series_refused, IsRowIn};
ghost use Rattle.remote_requests.specs.Writing.{IsReceived};

use crate::label_sets::label_set;
use crate::samples::kept_samples;
use crate::{Left, LeftOut, Received};
use labels::Row;
use remote_write::Series;
use std::alloc::{AllocError, Global};

/// The row of a series without its histograms, if it gives one; what is left out is added.
fn sample_row(
    alloc: Global,
    now: i64,
    series: &Series<'_>,
    left: &mut Left,
) -> Result<Option<Row>, AllocError>
    ensures row { IfOk result (IsRowIn now (series_seen series.now)) }
    ensures left { let seen = series_seen series.now in
        OnOk result (Adds left.old left.new
        (samples_refused now (labels_refused (label_pairs seen.labels)) seen.samples)) }
{
    let labels = match label_set(alloc, series.labels.as_slice())? {
        Ok(labels) => labels,
        Err(why) => {
            left.add(why, series.samples.len() as u64);
            return Ok(None);
        }
    };
    let samples = kept_samples(alloc, now, series.samples.as_slice(), left)?;
    if samples.is_empty() {
        return Ok(None);
    }
    Ok(Some(Row::new(labels, samples)))
}

ghost use Rattle.remote_requests.specs.Series.{samples_refused, labels_refused, label_pairs};

/// The row of a series, if it gives one; what is left out of it is added.
fn row_of(
    alloc: Global,
    now: i64,
    series: &Series<'_>,
    left: &mut Left,
) -> Result<Option<Row>, AllocError>
    ensures row { IfOk result (IsRowIn now (series_seen series.now)) }
    ensures left { OnOk result
        (Adds left.old left.new (series_refused now (series_seen series.now))) }
{
    let row = sample_row(alloc, now, series, left)?;
    left.add(LeftOut::Histogram, series.histograms);
    Ok(row)
}

/// What series come to, of which so many are samples and histograms.
pub fn received(
    alloc: Global,
    now: i64,
    all: &[Series<'_>],
    of: u64,
) -> Result<Received, AllocError>
    requires few { are_few (map series_seen all.now) ≡ true }
    requires of { of ≡ points_in (map series_seen all.now) }
    ensures { IfOk result (IsReceived now (map series_seen all.now)) }
{
    let mut rows = Vec::new(alloc);
    let mut left = Left::none();
    for series in all {
        if let Some(row) = row_of(alloc, now, series, &mut left)? {
            rows.push(row)?;
        }
    }
    Ok(Received { rows, left, of })
}
