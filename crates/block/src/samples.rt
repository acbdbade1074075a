//! The samples of one series in a closed range of times, less those that are deleted.

ghost use Rattle.std.specs.Prelude.{◌≡◌, ◌<◌, ◌++◌, ℤ, filter, length, map, slice_get, OnOk, Some};
ghost use Rattle.std.specs.List.{list_any};
ghost use Rattle.block.specs.Kept.{source_in, AreKeptFrom};
ghost use Rattle.block.specs.Samples.{samples_in};
ghost use Rattle.block.specs.Sound.{AreInTurn, AreSamplesOf};
ghost use Rattle.block.specs.Wanted.{AreHeldChunks, AreSideBySide, meets, wants, wants_all};
ghost use Rattle.block.specs.Wanted.{wants_end};

use crate::files::Files;
use index_reader::Chunk;
use labels::{Sample, SeriesRef};
use packed_chunks::PackedSamples;
use std::alloc::AllocError;
use tombstones::Tombstones;

/// A closed range of times, in milliseconds.
#[derive(Clone, Copy)]
pub(crate) struct Times {
    pub(crate) from: i64,
    pub(crate) to: i64,
}

/// What is asked of a series: its samples in a range of times that are not deleted.
#[derive(Drop)]
pub(crate) struct Wanted<'a> {
    pub(crate) tombstones: &'a Tombstones,
    pub(crate) reference: SeriesRef,
    pub(crate) times: Times,
}

impl<'a> Wanted<'a> {
    fn wants(&self, t: i64) -> bool
        ensures { result ≡ wants self.now t }
    {
        self.times.from <= t && t <= self.times.to && !self.tombstones.deleted(self.reference, t)
    }

    fn has(&self, sample: Sample) -> bool
        ensures { result ≡ wants self.now sample.0 }
    {
        self.wants(sample.t())
    }

    /// Whether the first or the last time of the chunk is wanted.
    fn has_end(&self, chunk: Chunk) -> bool
        ensures { result ≡ wants_end self.now chunk }
    {
        self.wants(chunk.mint) || self.wants(chunk.maxt)
    }

    /// Whether all of the chunk's times are wanted: they lie in the range, and no deletion is of
    /// the series.
    fn has_all(&self, chunk: Chunk) -> bool
        ensures { result ≡ wants_all self.now chunk }
    {
        self.times.from <= chunk.mint
            && chunk.maxt <= self.times.to
            && !self.tombstones.has_deletion_of(self.reference)
    }
}

/// The chunks whose times meet the range, and the place of the first of them. They stand side by
/// side, and are found by halving.
fn meeting_chunks(series: &[Chunk], times: Times) -> (usize, &[Chunk])
    requires { AreInTurn series.now }
    ensures met { result.1.now ≡ filter (meets times.from times.to) series.now }
    ensures place { AreSideBySide result.0 result.1.now series.now }
{
    let end = series.partition_point(|chunk| chunk.mint <= times.to);
    let begun = &series[..end];
    let start = begun.partition_point(|chunk| chunk.maxt < times.from);
    (start, &begun[start..])
}

/// The samples of the chunk at a place among chunks of which the first has this number.
pub(crate) fn chunk_samples<'a>(
    files: &'a Files,
    first: usize,
    chunks: &[Chunk],
    k: usize,
) -> PackedSamples<'a>
    requires at { k < length chunks.now }
    requires kept { AreKeptFrom files.now first chunks.now }
    ensures { slice_get (map (source_in files.now) chunks.now) k ≡ Some result }
{
    files.packed.get(first + k)
}

fn push_wanted(
    found: &mut Vec<Sample>,
    samples: &PackedSamples<'_>,
    wanted: &Wanted<'_>,
) -> Result<(), AllocError>
    ensures { OnOk result (found.new.items
        ≡ found.old.items ++ filter (λ (s : ℤ × ℤ). wants wanted.now s.0) samples.now) }
{
    for i in 0..samples.len() {
        let sample = samples.get(i);
        if wanted.has(sample) {
            found.push(sample)?;
        }
    }
    Ok(())
}

/// Adds the samples of a chunk that are wanted.
fn push_chunk(
    found: &mut Vec<Sample>,
    samples: &PackedSamples<'_>,
    chunk: Chunk,
    wanted: &Wanted<'_>,
) -> Result<(), AllocError>
    requires { AreSamplesOf chunk samples.now }
    ensures { OnOk result (found.new.items ≡ found.old.items
        ++ filter (λ (s : ℤ × ℤ). wants wanted.now s.0) samples.now) }
{
    if wanted.has_all(chunk) {
        return samples.push_all(found);
    }
    push_wanted(found, samples, wanted)
}

/// Adds the samples that are wanted. It finds the chunks whose times meet the range by halving, and
/// reads no other.
pub(crate) fn push_each(
    found: &mut Vec<Sample>,
    files: &Files,
    first: usize,
    series: &[Chunk],
    wanted: &Wanted<'_>,
) -> Result<(), AllocError>
    requires held { AreHeldChunks (source_in files.now) series.now }
    requires in_turn { AreInTurn series.now }
    requires kept { AreKeptFrom files.now first series.now }
    ensures { OnOk result (found.new.items ≡ found.old.items
        ++ filter (λ (s : ℤ × ℤ). wants wanted.now s.0)
        (samples_in (source_in files.now) series.now)) }
{
    let (start, met) = meeting_chunks(series, wanted.times);
    for k in 0..met.len() {
        let samples = chunk_samples(files, first + start, met, k);
        push_chunk(found, &samples, met[k], wanted)?;
    }
    Ok(())
}

fn has_wanted(samples: &PackedSamples<'_>, wanted: &Wanted<'_>) -> bool
    ensures { result ≡ list_any (λ (s : ℤ × ℤ). wants wanted.now s.0) samples.now }
{
    for i in 0..samples.len() {
        if wanted.has(samples.get(i)) {
            return true;
        }
    }
    false
}

/// Whether a chunk begins or ends with a sample that is wanted. It reads no chunk.
fn has_wanted_end(series: &[Chunk], wanted: &Wanted<'_>) -> bool
    ensures { result ≡ list_any (wants_end wanted.now) series.now }
{
    for chunk in series {
        if wanted.has_end(*chunk) {
            return true;
        }
    }
    false
}

/// Whether one of the samples is wanted. It reads the chunks up to the first that has one.
fn has_wanted_within(files: &Files, first: usize, chunks: &[Chunk], wanted: &Wanted<'_>) -> bool
    requires { AreKeptFrom files.now first chunks.now }
    ensures { result ≡ list_any (λ (s : ℤ × ℤ). wants wanted.now s.0)
        (samples_in (source_in files.now) chunks.now) }
{
    for k in 0..chunks.len() {
        if has_wanted(&chunk_samples(files, first, chunks, k), wanted) {
            return true;
        }
    }
    false
}

/// Whether one of the samples is wanted. It finds the chunks whose times meet the range by halving;
/// where the first or the last time of one of them says so it reads no chunk.
pub(crate) fn is_any_wanted(
    files: &Files,
    first: usize,
    series: &[Chunk],
    wanted: &Wanted<'_>,
) -> bool
    requires held { AreHeldChunks (source_in files.now) series.now }
    requires in_turn { AreInTurn series.now }
    requires kept { AreKeptFrom files.now first series.now }
    ensures { result ≡ list_any (λ (s : ℤ × ℤ). wants wanted.now s.0)
        (samples_in (source_in files.now) series.now) }
{
    let (start, met) = meeting_chunks(series, wanted.times);
    if has_wanted_end(met, wanted) {
        return true;
    }
    has_wanted_within(files, first + start, met, wanted)
}
