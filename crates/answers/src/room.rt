//! About how much memory an answer takes, told before it is made.

ghost use Rattle.std.specs.Prelude.{◌≡◌};
ghost use mathlib.Core.List.{IsPrefix};

use crate::error::AskError;
use block_search::{SearchedPart, is_skipped};
use cover::{Interval, Verdict, cover};
use head::Snapshot;
use labels::{LabelSet, SeriesRef};
use matchers::Query;
use snapshots::{Naming, Pass};
use std::alloc::{AllocError, Global};

/// What any answer takes, in bytes.
const LEAST: u64 = 4_096;

/// What an interval takes with its separator and its text, about.
const INTERVAL: u64 = 128;

/// What a row takes beside its labels and its samples, about.
const ROW: u64 = 160;

/// What a label takes beside two times its texts, about.
const LABEL: u64 = 24;

/// What a sample takes: 16 bytes, some more as a list of them grows, and about 32 of text.
const SAMPLE: u64 = 56;

/// What is counted of an answer.
#[derive(Clone, Copy, Debug, PartialEq, Eq, Drop)]
struct Extent {
    /// What the certificates take, in bytes.
    certificates: u64,
    /// What the rows of parts take, in bytes.
    rows: u64,
    /// How many parts have rows.
    parts: u64,
}

impl Extent {
    /// How many bytes the answer takes. If several parts have rows, all of them come twice.
    fn bytes(self) -> u64 {
        let times = if self.parts > 1 { 2 } else { 1 };
        self.certificates
            .saturating_add(self.rows.saturating_mul(times))
    }
}

fn bytes_of_labels(labels: &LabelSet) -> u64 {
    let mut bytes = 0u64;
    for at in 0..labels.len() {
        let (name, value) = labels.pair(at);
        let texts = (name.len() as u64).saturating_add(value.len() as u64);
        bytes = bytes.saturating_add(texts.saturating_mul(2).saturating_add(LABEL));
    }
    bytes
}

/// About how many bytes the row of a series takes.
fn bytes_of_row<S: SearchedPart>(
    alloc: Global,
    source: &S,
    reference: SeriesRef,
    query: &Query,
) -> Result<u64, AllocError> {
    let Some(labels) = source.labels_of(alloc, reference)? else {
        return Ok(0);
    };
    let samples = source.samples_of(alloc, reference, query.from(), query.to())?;
    let samples = (samples.len() as u64).saturating_mul(SAMPLE);
    Ok(
        samples
            .saturating_add(bytes_of_labels(&labels))
            .saturating_add(ROW),
    )
}

/// About how many bytes the rows take that a certificate calls matches. It stops once they take
/// more than `most`.
fn bytes_of_rows<S: SearchedPart>(
    alloc: Global,
    source: &S,
    certificate: &[Interval],
    query: &Query,
    most: u64,
) -> Result<u64, AllocError> {
    let mut bytes = 0u64;
    for interval in certificate {
        if bytes > most {
            break;
        }
        if matches!(interval.verdict, Verdict::Match) {
            let row = bytes_of_row(alloc, source, interval.from, query)?;
            bytes = bytes.saturating_add(row);
        }
    }
    Ok(bytes)
}

/// Adds what the answer of a part takes.
fn add_part<S: SearchedPart>(
    alloc: Global,
    extent: Extent,
    source: &S,
    query: &Query,
    most: u64,
) -> Result<Extent, AllocError> {
    let cover = cover(alloc, source, query)?;
    let intervals = cover.certificate.len() as u64;
    let rows = bytes_of_rows(alloc, source, cover.certificate.as_slice(), query, most)?;
    Ok(Extent {
        certificates: extent
            .certificates
            .saturating_add(intervals.saturating_mul(INTERVAL)),
        rows: extent.rows.saturating_add(rows),
        parts: if rows > 0 {
            extent.parts.saturating_add(1)
        } else {
            extent.parts
        },
    })
}

/// About how many bytes the answer of a snapshot and its text take together. Once they take more
/// than `most`, it looks no further.
///
/// It counts the intervals of the certificates, and the labels and the samples of each row, once
/// more if several parts have rows. For that it reads one row after another and lets it go. So it
/// takes about as long as one thread needs to make the rows, and the memory of one row and of one
/// certificate. No clause says how near the number comes.
pub fn room_of_answer(
    alloc: Global,
    snapshot: &Snapshot,
    query: &Query,
    most: u64,
) -> Result<u64, AllocError> {
    let mut extent = Extent {
        certificates: LEAST,
        rows: 0,
        parts: 0,
    };
    for block in snapshot.blocks() {
        if extent.bytes() > most {
            return Ok(extent.bytes());
        }
        if !is_skipped(block.range(), query) {
            extent = add_part(alloc, extent, &block.view(), query, most)?;
        }
    }
    extent = add_part(alloc, extent, &snapshot.head(), query, most)?;
    Ok(extent.bytes())
}

/// About how many bytes an answer of [`ask`](crate::ask) takes now, as [`room_of_answer`] tells.
/// The pass takes a snapshot for this and knows no less than before. An error is that of `ask`.
pub fn room_to_ask<J: Naming>(
    alloc: Global,
    pass: &mut Pass<J>,
    query: &Query,
    most: u64,
) -> Result<u64, AskError>
    ensures seen { IsPrefix pass.old.seen pass.new.seen }
    ensures told { pass.new.told ≡ pass.old.told }
{
    let snapshot = pass.snapshot()?;
    Ok(room_of_answer(alloc, &snapshot, query, most)?)
}
