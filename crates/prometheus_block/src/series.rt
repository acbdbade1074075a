//! The chunks of a series.

ghost use Rattle.std.specs.Prelude.{◌≡◌, ◌++◌, OnOk, IfOk};
ghost use Rattle.prometheus_block.specs.Series.{AreSamplesOf, AreSamplesIn, IsHeld};

use crate::chunk::{Counted, counts_of, read_chunk};
use crate::error::SourceError;
use crate::segments::{Held, ReadSegments};
use index_reader::Chunk;
use kept_samples::Times;
use std::alloc::Global;
use xor_reader::FloatSample;

// References of one segment.
const SEGMENT: u64 = 0x1_0000_0000;

/// The samples of the chunks that meet a closed range of times, one chunk after the other. Of each
/// such chunk they are all, also those outside the range.
pub fn read_series<S: ReadSegments>(
    alloc: Global,
    files: &S,
    held: &mut Held,
    chunks: &[Chunk],
    times: Times,
) -> Result<Vec<FloatSample>, SourceError>
    requires held { IsHeld (S.may_read files.now) held.old }
    ensures held { IsHeld (S.may_read files.now) held.new }
    // They are what the chunks hold in segments as they may be read.
    ensures found { IfOk result (λ v.
        AreSamplesIn (S.may_read files.now) times chunks.now v.items) }
{
    let mut samples = Vec::new(alloc);
    for chunk in chunks {
        push_chunk(alloc, files, held, *chunk, times, &mut samples)?;
    }
    Ok(samples)
}

// Appends the samples of a chunk, if it meets the range.
fn push_chunk<S: ReadSegments>(
    alloc: Global,
    files: &S,
    held: &mut Held,
    chunk: Chunk,
    times: Times,
    samples: &mut Vec<FloatSample>,
) -> Result<(), SourceError>
    requires held { IsHeld (S.may_read files.now) held.old }
    ensures held { IsHeld (S.may_read files.now) held.new }
    ensures found { OnOk result
        (AreSamplesOf (S.may_read files.now) times chunk samples.old.items samples.new.items) }
{
    if !times.meet(chunk) {
        return Ok(());
    }
    held.hold(alloc, files, chunk.reference / SEGMENT)?;
    let Some(segment) = &held.segment else {
        return Err(SourceError::Unreadable(chunk.reference / SEGMENT));
    };
    let content = read_chunk(alloc, segment, chunk)?;
    samples.extend_from_slice(content.floats.as_slice())?;
    Ok(())
}

/// What a chunk counts. None of its samples is read.
pub fn count_samples<S: ReadSegments>(
    alloc: Global,
    files: &S,
    held: &mut Held,
    chunk: Chunk,
) -> Result<Counted, SourceError>
    requires held { IsHeld (S.may_read files.now) held.old }
    ensures held { IsHeld (S.may_read files.now) held.new }
{
    held.hold(alloc, files, chunk.reference / SEGMENT)?;
    match &held.segment {
        Some(segment) => counts_of(segment, chunk),
        None => Err(SourceError::Unreadable(chunk.reference / SEGMENT)),
    }
}
