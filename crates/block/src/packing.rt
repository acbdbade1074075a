//! The samples of the chunks that an index names, taken from the bytes of their file by one thread
//! or by several.

ghost use Rattle.std.specs.Prelude.{◌≡◌, ◌+◌, ◌<◌, ◌≤◌, ◌^◌, ◌++◌, ◌∷◌, [], length, map, IfOk};
ghost use Rattle.std.specs.Prelude.{OnOk};
ghost use Rattle.std.specs.List.{AllByRecursion};
ghost use Rattle.std.specs.Thread.{IsSync};
ghost use Rattle.index_reader.specs.Indexes.{chunk_lists};
ghost use Rattle.block.specs.Packing.{AreStarts, IsPackOf};
ghost use Rattle.block.specs.Samples.{chunk_samples};
ghost use Rattle.block.specs.Shared.{lists_between};
ghost use Rattle.block.specs.Sound.{IsReadChunk};

use chunk_reader::{Chunks, Samples};
use index_reader::{Chunk, Index};
use labels::Sample;
use packed_chunks::PackedChunks;
use std::alloc::{AllocError, Global};
use std::thread::{Threads, join};

/// The samples of chunks, and the number of the first chunk of each series.
#[derive(Drop)]
pub(crate) struct Packed {
    pub(crate) chunks: PackedChunks,
    pub(crate) starts: Vec<usize>,
}

/// What is written over for each chunk.
#[derive(Drop)]
struct Scratch {
    samples: Vec<Sample>,
    rows: Vec<u8>,
}

fn copy_samples(found: &mut Vec<Sample>, samples: &Samples<'_>) -> Result<(), AllocError>
    ensures { OnOk result (found.new.items ≡ samples.now) }
{
    found.clear();
    for i in 0..samples.len() {
        found.push(samples.get(i))?;
    }
    Ok(())
}

fn pack_chunk(
    packed: &mut PackedChunks,
    scratch: &mut Scratch,
    chunks: &Chunks,
    chunk: &Chunk,
) -> Result<(), AllocError>
    requires { IsReadChunk chunks.now chunk.now }
    ensures { OnOk result (packed.new ≡ packed.old ++ chunk_samples chunks.now chunk.now ∷ []) }
{
    let samples = chunks.stored(chunk.reference, chunk.mint, chunk.maxt);
    copy_samples(&mut scratch.samples, &samples)?;
    packed.push(&mut scratch.rows, &scratch.samples)
}

fn pack_list(
    packed: &mut PackedChunks,
    scratch: &mut Scratch,
    chunks: &Chunks,
    list: &[Chunk],
) -> Result<(), AllocError>
    requires { AllByRecursion (IsReadChunk chunks.now) list.now }
    ensures { OnOk result (packed.new ≡ packed.old ++ map (chunk_samples chunks.now) list.now) }
{
    for chunk in list {
        pack_chunk(packed, scratch, chunks, chunk)?;
    }
    Ok(())
}

/// Packs the samples of the chunks of `count` series, from a place on, in the index's order. It
/// looks at each sample once, and makes none of the checks again.
pub(crate) fn pack_between(
    alloc: Global,
    index: &Index,
    chunks: &Chunks,
    from: usize,
    count: usize,
) -> Result<Packed, AllocError>
    requires within { from + count ≤ length index.now.series }
    requires places { from + count < 2 ^ 64 }
    requires read { AllByRecursion (AllByRecursion (IsReadChunk chunks.now))
        (chunk_lists index.now.series) }
    ensures pack { IfOk result (λ p. IsPackOf (chunk_samples chunks.now)
        (lists_between index.now.series from count) p.starts.items p.chunks) }
    ensures small { IfOk result (λ p. length p.chunks < 2 ^ 64) }
{
    let mut packed = PackedChunks::new(alloc);
    let mut starts = Vec::with_capacity(alloc, count)?;
    let mut scratch = Scratch {
        samples: Vec::new(alloc),
        rows: Vec::new(alloc),
    };
    for i in 0..count {
        let first = packed.len();
        starts.push(first)?;
        pack_list(&mut packed, &mut scratch, chunks, index.chunks_at(from + i))?;
    }
    // For the proof alone: the call says that there are fewer than 2^64.
    let _ = packed.len();
    Ok(Packed {
        chunks: packed,
        starts,
    })
}

/// What was packed of one run of series, and behind it that of the next run, whose chunks then
/// stand so much further on.
fn joined(alloc: Global, front: Packed, back: Packed) -> Result<Packed, AllocError>
    requires { AreStarts back.starts.items back.chunks }
    ensures chunks { IfOk result (λ p. p.chunks ≡ front.chunks ++ back.chunks) }
    ensures starts { IfOk result (λ p. p.starts.items
        ≡ front.starts.items ++ map (λ s. s + length front.chunks) back.starts.items) }
    ensures small { IfOk result (λ p. length p.chunks < 2 ^ 64) }
{
    let mut chunks = front.chunks;
    let mut starts = front.starts;
    let by = chunks.len();
    chunks.append(alloc, &back.chunks)?;
    // For the proof alone: the call says that there are fewer than 2^64.
    let _ = chunks.len();
    starts.reserve(back.starts.len())?;
    for i in 0..back.starts.len() {
        starts.push(back.starts[i] + by)?;
    }
    Ok(Packed { chunks, starts })
}

/// The same as [`pack_between`] by at most so many threads, the calling one among them. Where a
/// thread can't be started, the calling one does its share.
#[cycle(halves)]
pub(crate) fn pack_among<R: Threads + Sync>(
    rt: &R,
    alloc: Global,
    index: &Index,
    chunks: &Chunks,
    from: usize,
    count: usize,
    threads: usize,
) -> Result<Packed, AllocError>
    requires within { from + count ≤ length index.now.series }
    requires places { from + count < 2 ^ 64 }
    requires read { AllByRecursion (AllByRecursion (IsReadChunk chunks.now))
        (chunk_lists index.now.series) }
    ensures pack { IfOk result (λ p. IsPackOf (chunk_samples chunks.now)
        (lists_between index.now.series from count) p.starts.items p.chunks) }
    ensures small { IfOk result (λ p. length p.chunks < 2 ^ 64) }
{
    if threads < 2 || count < 2 {
        return pack_between(alloc, index, chunks, from, count);
    }
    let low = count / 2;
    let high = count - low;
    let up = from + low;
    let helpers = threads / 2;
    let rest = threads - helpers;
    let early = || -> Result<Packed, AllocError>
        requires { IsSync R.row × (from + low ≤ length index.now.series) × (from + low < 2 ^ 64)
            × AllByRecursion (AllByRecursion (IsReadChunk chunks.now))
            (chunk_lists index.now.series) }
        ensures { IfOk result (λ p. IsPackOf (chunk_samples chunks.entry.now)
            (lists_between index.entry.now.series from low) p.starts.items p.chunks) }
    { pack_among(rt, alloc, index, chunks, from, low, helpers) };
    let late = || -> Result<Packed, AllocError>
        requires { IsSync R.row × (up + high ≤ length index.now.series) × (up + high < 2 ^ 64)
            × AllByRecursion (AllByRecursion (IsReadChunk chunks.now))
            (chunk_lists index.now.series) }
        ensures { IfOk result (λ p. IsPackOf (chunk_samples chunks.entry.now)
            (lists_between index.entry.now.series up high) p.starts.items p.chunks) }
    { pack_among(rt, alloc, index, chunks, up, high, rest) };
    let (first, second) = join(rt, early, late);
    let front = first?;
    let back = second?;
    joined(alloc, front, back)
}
