//! The body of a write.

ghost use Rattle.std.specs.Prelude.{◌≡◌, ◌<◌, ◌≤◌, ◌^◌, Ok, length, map, IfOk};
ghost use Rattle.remote_write.specs.Reading.{series_seen};
ghost use Rattle.snappy.specs.Format.{IsStream};
ghost use Rattle.snappy.specs.Reading.{text_at};
ghost use Rattle.remote_requests.specs.Counts.{AreCounts, has_few, counted_in};
ghost use Rattle.remote_requests.specs.Writing.{Told};
ghost use Rattle.remote_requests.specs.Writing.{Tells, WriteMeans, packed};

use crate::series::received;
use crate::{Asked, BodyFault, ReadError, Refusal};
use remote_write::{Series, next_series, read_request};
use snappy::{SnappyError, decompress};
use std::alloc::Global;

/// The most bytes of the text of a write.
const MAX_TEXT: usize = 16_777_216;

const MAX_SERIES: u64 = 65_536;

const MAX_POINTS: u64 = 65_536;

const MAX_LABELS: u64 = 1_048_576;

/// The text that a body is, compressed; `G6` where it is none of at most so many bytes.
pub fn unpacked(alloc: Global, body: &[u8], most: usize) -> Result<Vec<u8>, ReadError>
    ensures exact { Tells (λ v. v.items) result (packed (text_at most body.now)) }
    ensures found { IfOk result (λ v. IsStream body.now v.items × (length v.items ≤ most)) }
{
    match decompress(alloc, body, most) {
        Ok(text) => Ok(text),
        Err(SnappyError::Memory) => Err(ReadError::Memory),
        Err(SnappyError::Fault(fault, _)) => Err(ReadError::Refused(Refusal::BadBody(
            BodyFault::Packed(fault),
        ))),
    }
}

/// A fault of a message.
pub fn misspelled(error: remote_write::ReadError) -> ReadError
    ensures { result ≡ misspelled error }
{
    match error {
        remote_write::ReadError::Memory => ReadError::Memory,
        remote_write::ReadError::Fault(fault, _) => ReadError::Refused(Refusal::BadBody(
            BodyFault::Spelled(fault),
        )),
    }
}

ghost use Rattle.remote_requests.specs.Writing.{misspelled};

/// How many series there are so far, samples and histograms, and labels, each at most 2^64 - 1.
#[derive(Clone, Copy, Drop)]
pub struct Counts {
    pub series: u64,
    pub points: u64,
    pub labels: u64,
}

impl Counts {
    /// These, and one series more.
    fn with(self, series: &Series<'_>) -> Counts
        ensures { (front : List SeriesValue) → AreCounts self front
            → AreCounts result (front ++ series_seen series.now ∷ []) }
    {
        let points = (series.samples.len() as u64).saturating_add(series.histograms);
        Counts {
            series: self.series.saturating_add(1),
            points: self.points.saturating_add(points),
            labels: self.labels.saturating_add(series.labels.len() as u64),
        }
    }

    fn are_few(self) -> bool
        ensures { result ≡ has_few self }
    {
        self.series <= MAX_SERIES && self.points <= MAX_POINTS && self.labels <= MAX_LABELS
    }
}

ghost use Rattle.std.specs.Prelude.{List, ◌++◌, ◌∷◌, []};
ghost use Rattle.remote_write.specs.Format.{SeriesValue};

fn counts_of(alloc: Global, text: &[u8]) -> Result<Counts, ReadError>
    ensures { CountsTold text.now result }
{
    let mut series = Series {
        labels: Vec::new(alloc),
        samples: Vec::new(alloc),
        histograms: 0,
    };
    let mut counts = Counts {
        series: 0,
        points: 0,
        labels: 0,
    };
    let mut rest = text;
    loop {
        match next_series(rest, &mut series) {
            Ok(Some(after)) => {
                counts = counts.with(&series);
                rest = after;
            }
            Ok(None) => return Ok(counts),
            Err(error) => return Err(misspelled(error)),
        }
    }
}

ghost use Rattle.remote_requests.specs.Counts.{CountsTold};

/// How many samples and histograms a text has, after it was read to its end: `G6`, then `G7`.
fn points_of(alloc: Global, text: &[u8]) -> Result<u64, ReadError>
    ensures { Tells (λ n. n) result (points_at text.now) }
{
    let counts = counts_of(alloc, text)?;
    if counts.are_few() {
        Ok(counts.points)
    } else {
        Err(ReadError::Refused(Refusal::TooMany))
    }
}

ghost use Rattle.remote_requests.specs.Writing.{points_at};

fn all_series(alloc: Global, text: &[u8]) -> Result<Vec<Series<'_>>, ReadError>
    ensures { AllSeriesTold text.now (λ v. v.items) result }
{
    match read_request(alloc, text) {
        Ok(all) => Ok(all),
        Err(error) => Err(misspelled(error)),
    }
}

ghost use Rattle.remote_requests.specs.Writing.{AllSeriesTold};

/// What the body of a write asks: `G6`, then `G7`. It is read to its end before a row is made.
pub fn write(alloc: Global, now: i64, body: &[u8]) -> Result<Asked, ReadError>
    ensures { Told (WriteMeans now body.now) result }
{
    let text = unpacked(alloc, body, MAX_TEXT)?;
    let of = points_of(alloc, text.as_slice())?;
    let all = all_series(alloc, text.as_slice())?;
    Ok(Asked::Write(received(alloc, now, all.as_slice(), of)?))
}
