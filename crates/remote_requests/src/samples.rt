//! The samples of a series.

ghost use Rattle.std.specs.Prelude.{◌≡◌, map, IfOk, OnOk};
ghost use Rattle.std.specs.List.{AllZip};
ghost use Rattle.remote_write.specs.Reading.{sample_seen};
ghost use Rattle.remote_requests.specs.Left.{Adds};
ghost use Rattle.remote_requests.specs.Series.{time_refused, times_refused, kept_of, IsSampleOf};

use crate::{Left, LeftOut};
use labels::{Sample, is_time};
use std::alloc::{AllocError, Global};
use stored_doubles::stored;

/// How far ahead of the clock a time may be, in milliseconds: a day.
const DAY: i64 = 86_400_000;

/// Why a sample is left out at this time of the clock, if it is.
fn time_refused(now: i64, sample: remote_write::Sample) -> Option<LeftOut>
    ensures { result ≡ time_refused now (sample_seen sample) }
{
    if !is_time(sample.time) {
        return Some(LeftOut::NoTime);
    }
    if now < sample.time - DAY {
        return Some(LeftOut::TooFarAhead);
    }
    None
}

fn kept(sample: remote_write::Sample) -> Sample
    ensures { IsSampleOf (sample_seen sample) result }
{
    Sample::new(sample.time, stored(sample.value))
}

/// The samples that are kept; the others are added to what is left out.
pub fn kept_samples(
    alloc: Global,
    now: i64,
    samples: &[remote_write::Sample],
    left: &mut Left,
) -> Result<Vec<Sample>, AllocError>
    ensures kept { IfOk result
        (λ v. AllZip IsSampleOf (kept_of now (map sample_seen samples.now)) v.items) }
    ensures left { OnOk result
        (Adds left.old left.new (times_refused now (map sample_seen samples.now))) }
{
    let mut found = Vec::with_capacity(alloc, samples.len())?;
    for sample in samples {
        match time_refused(now, *sample) {
            None => found.push(kept(*sample))?,
            Some(why) => left.add(why, 1),
        }
    }
    Ok(found)
}
