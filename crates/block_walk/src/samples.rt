//! The rows of a block's series: their samples, less those that are deleted. One thread makes them,
//! or they are shared out over several.

ghost use Rattle.std.specs.Prelude.{◌≡◌, ◌<◌, ◌≤◌, ◌+◌, ◌^◌, ◌++◌, length, slice_get, not, Some};
ghost use Rattle.std.specs.Prelude.{IfOk, OnOk};
ghost use Rattle.std.specs.List.{AllByRecursion};
ghost use Rattle.std.specs.Thread.{IsSync};
ghost use Rattle.tombstones.specs.Covering.{covered};
ghost use Rattle.block_walk.specs.IndexFile.Series.{chunk_lists};
ghost use Rattle.block_walk.specs.BlockFiles.Samples.{chunk_samples, samples_in, undeleted};
ghost use Rattle.block_walk.specs.BlockFiles.Samples.{part_of};
ghost use Rattle.block_walk.specs.BlockFiles.Shared.{stretch};
ghost use Rattle.block_walk.specs.BlockFiles.Sound.{IsHeld};

use crate::chunk::Chunk;
use crate::series_entries::SeriesEntries;
use chunk_reader::{Chunks, Samples};
use labels::{Row, Sample, SeriesRef};
use std::alloc::{AllocError, Global};
use std::thread::{Threads, join};
use tombstones::Tombstones;

// The samples of a chunk, in place. No check of it is made again.
fn chunk_samples(chunks: &Chunks, chunk: Chunk) -> Samples<'_>
    requires { IsHeld chunks.now chunk }
    ensures { result ≡ chunk_samples chunks.now chunk }
{
    chunks.stored(chunk.reference, chunk.mint, chunk.maxt)
}

fn is_kept(tombstones: &Tombstones, reference: SeriesRef, sample: Sample) -> bool
    ensures { result ≡ not (covered tombstones.now reference sample.0) }
{
    !tombstones.deleted(reference, sample.t())
}

fn push_each(
    found: &mut Vec<Sample>,
    samples: &Samples<'_>,
    tombstones: &Tombstones,
    reference: SeriesRef,
) -> Result<(), AllocError>
    ensures { OnOk result
        (found.new.items ≡ found.old.items ++ undeleted tombstones.now reference samples.now) }
{
    for i in 0..samples.len() {
        let sample = samples.get(i);
        if is_kept(tombstones, reference, sample) {
            found.push(sample)?;
        }
    }
    Ok(())
}

// Adds the samples that are not deleted. Room for all of them is made at once.
fn push_undeleted(
    found: &mut Vec<Sample>,
    samples: &Samples<'_>,
    tombstones: &Tombstones,
    reference: SeriesRef,
) -> Result<(), AllocError>
    ensures { OnOk result
        (found.new.items ≡ found.old.items ++ undeleted tombstones.now reference samples.now) }
{
    found.reserve(samples.len())?;
    push_each(found, samples, tombstones, reference)
}

fn samples_of(
    alloc: Global,
    chunks: &Chunks,
    list: &[Chunk],
    tombstones: &Tombstones,
    reference: SeriesRef,
) -> Result<Vec<Sample>, AllocError>
    requires { AllByRecursion (IsHeld chunks.now) list.now }
    ensures { IfOk result
        (λ v. v.items ≡ undeleted tombstones.now reference (samples_in chunks.now list.now)) }
{
    let mut found = Vec::new(alloc);
    for chunk in list {
        push_undeleted(
            &mut found,
            &chunk_samples(chunks, *chunk),
            tombstones,
            reference,
        )?;
    }
    Ok(found)
}

// The reference and the row of the series at a place.
fn row_at(
    alloc: Global,
    entries: &SeriesEntries<'_>,
    chunks: &Chunks,
    tombstones: &Tombstones,
    i: usize,
) -> Result<(SeriesRef, Row), AllocError>
    requires inside { i < length entries.now }
    requires held { AllByRecursion (AllByRecursion (IsHeld chunks.now)) (chunk_lists entries.now) }
    ensures { IfOk result (λ row. slice_get (part_of chunks.now tombstones.now entries.now) i
        ≡ Some row) }
{
    let reference = entries.reference_at(i);
    let labels = entries.labels_at(alloc, i)?;
    let samples = samples_of(alloc, chunks, entries.chunks_at(i), tombstones, reference)?;
    Ok((reference, Row::new(labels, samples)))
}

/// The rows of `count` series, from a place on, each under its reference, with its label set and
/// its undeleted samples.
pub(crate) fn rows_between(
    alloc: Global,
    entries: &SeriesEntries<'_>,
    chunks: &Chunks,
    tombstones: &Tombstones,
    from: usize,
    count: usize,
) -> Result<Vec<(SeriesRef, Row)>, AllocError>
    requires within { from + count ≤ length entries.now }
    requires places { from + count < 2 ^ 64 }
    requires held { AllByRecursion (AllByRecursion (IsHeld chunks.now)) (chunk_lists entries.now) }
    ensures { IfOk result (λ v. v.items
        ≡ stretch from count (part_of chunks.now tombstones.now entries.now)) }
{
    let mut rows = Vec::with_capacity(alloc, count)?;
    for at in 0..count {
        let row = row_at(alloc, entries, chunks, tombstones, from + at)?;
        rows.push(row)?;
    }
    Ok(rows)
}

/// The same by at most so many threads, the calling one among them. Where a thread can't be
/// started, the calling one does its share.
#[cycle(halves)]
pub(crate) fn rows_among<R: Threads + Sync>(
    rt: &R,
    alloc: Global,
    entries: &SeriesEntries<'_>,
    chunks: &Chunks,
    tombstones: &Tombstones,
    from: usize,
    count: usize,
    threads: usize,
) -> Result<Vec<(SeriesRef, Row)>, AllocError>
    requires within { from + count ≤ length entries.now }
    requires places { from + count < 2 ^ 64 }
    requires held { AllByRecursion (AllByRecursion (IsHeld chunks.now)) (chunk_lists entries.now) }
    ensures { IfOk result (λ v. v.items
        ≡ stretch from count (part_of chunks.now tombstones.now entries.now)) }
{
    if threads < 2 || count < 2 {
        return rows_between(alloc, entries, chunks, tombstones, from, count);
    }
    let low = count / 2;
    let high = count - low;
    let up = from + low;
    let helpers = threads / 2;
    let rest = threads - helpers;
    let front = || -> Result<Vec<(SeriesRef, Row)>, AllocError>
        requires { IsSync R.row × (from + low ≤ length entries.now) × (from + low < 2 ^ 64)
            × AllByRecursion (AllByRecursion (IsHeld chunks.now)) (chunk_lists entries.now) }
        ensures { IfOk result (λ v. v.items ≡ stretch from low
            (part_of chunks.entry.now tombstones.entry.now entries.entry.now)) }
    { rows_among(rt, alloc, entries, chunks, tombstones, from, low, helpers) };
    let back = || -> Result<Vec<(SeriesRef, Row)>, AllocError>
        requires { IsSync R.row × (up + high ≤ length entries.now) × (up + high < 2 ^ 64)
            × AllByRecursion (AllByRecursion (IsHeld chunks.now)) (chunk_lists entries.now) }
        ensures { IfOk result (λ v. v.items ≡ stretch up high
            (part_of chunks.entry.now tombstones.entry.now entries.entry.now)) }
    { rows_among(rt, alloc, entries, chunks, tombstones, up, high, rest) };
    let (first, second) = join(rt, front, back);
    let mut rows = first?;
    let mut more = second?;
    rows.append(&mut more)?;
    Ok(rows)
}
