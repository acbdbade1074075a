//! The chunks that an index names, looked at and packed by one thread or shared out over several.

ghost use Rattle.std.specs.Prelude.{◌≡◌, ◌+◌, ◌<◌, ◌≤◌, ◌^◌, ⊤, length, IfOk, OnOk};
ghost use Rattle.std.specs.List.{AllByRecursion};
ghost use Rattle.std.specs.Thread.{IsSync};
ghost use Rattle.index_reader.specs.Indexes.{chunk_lists};
ghost use Rattle.wire.specs.Outcome.{Answers};
ghost use Rattle.block.specs.Opening.{each, chunk_check, have_few};
ghost use Rattle.block.specs.Packing.{IsPackOf};
ghost use Rattle.block.specs.Samples.{chunk_samples};
ghost use Rattle.block.specs.Shared.{IsLookedAt, lists_between};
ghost use Rattle.block.specs.Sound.{IsReadChunk, IsCounted};

use crate::packing::{Packed, pack_among, pack_between};
use chunk_reader::{ChunkError, Chunks};
use index_reader::{Chunk, Index};
use std::alloc::{AllocError, Global};
use std::thread::{Threads, join};

const MAX_SAMPLES: u64 = 1_048_576;

// How many samples the chunk holds.
fn count_in(chunks: &Chunks, chunk: &Chunk) -> Result<u64, ChunkError>
    ensures exact { Answers (λ _. tt) result (chunk_check chunks.now chunk.now) }
    ensures counted { IfOk result (IsCounted chunks.now chunk.now) }
{
    let samples = chunks.find(chunk.reference, chunk.mint, chunk.maxt)?;
    Ok(samples.len() as u64)
}

// Whether the chunks of a series hold few samples.
fn are_few(chunks: &Chunks, list: &[Chunk]) -> Result<bool, ChunkError>
    ensures exact { Answers (λ _. tt) result (each (chunk_check chunks.now) list.now) }
    ensures few { IfOk result (λ few. few ≡ have_few chunks.now list.now) }
    ensures held { OnOk result (AllByRecursion (IsReadChunk chunks.now) list.now) }
{
    let mut count = 0u64;
    for chunk in list {
        let more = count_in(chunks, chunk)?;
        count = count.saturating_add(more);
    }
    Ok(count <= MAX_SAMPLES)
}

// Whether the chunks of each of `count` series, from a place on, hold few samples.
fn few_between(
    index: &Index,
    chunks: &Chunks,
    from: usize,
    count: usize,
) -> Result<bool, ChunkError>
    requires within { from + count ≤ length index.now.series }
    requires places { from + count < 2 ^ 64 }
    ensures { IsLookedAt chunks.now (lists_between index.now.series from count) result }
{
    let mut few = true;
    for at in 0..count {
        let these = are_few(chunks, index.chunks_at(from + at))?;
        few = few & these;
    }
    Ok(few)
}

// The same by at most so many threads, the calling one among them. Nothing is allocated; where a
// thread can't be started, the calling one does its share.
#[cycle(halves)]
fn few_among<R: Threads + Sync>(
    rt: &R,
    index: &Index,
    chunks: &Chunks,
    from: usize,
    count: usize,
    threads: usize,
) -> Result<bool, ChunkError>
    requires within { from + count ≤ length index.now.series }
    requires places { from + count < 2 ^ 64 }
    ensures { IsLookedAt chunks.now (lists_between index.now.series from count) result }
{
    if threads < 2 || count < 2 {
        return few_between(index, chunks, from, count);
    }
    let low = count / 2;
    let high = count - low;
    let up = from + low;
    let helpers = threads / 2;
    let rest = threads - helpers;
    let front = || -> Result<bool, ChunkError>
        requires { IsSync R.row × (from + low ≤ length index.now.series) × (from + low < 2 ^ 64) }
        ensures { IsLookedAt chunks.entry.now
            (lists_between index.entry.now.series from low) result }
    { few_among(rt, index, chunks, from, low, helpers) };
    let back = || -> Result<bool, ChunkError>
        requires { IsSync R.row × (up + high ≤ length index.now.series) × (up + high < 2 ^ 64) }
        ensures { IsLookedAt chunks.entry.now
            (lists_between index.entry.now.series up high) result }
    { few_among(rt, index, chunks, up, high, rest) };
    let (first, second) = join(rt, front, back);
    let few = first?;
    let more = second?;
    Ok(few & more)
}

/// Who looks at the chunks of a block, and packs their samples.
pub(crate) trait Checker {
    // What its looking takes: that threads may share what starts them.
    ghost is_ready: { Self → Type 0 };

    /// Looks at each chunk that the index names, in its order: the first that is refused, or else
    /// whether the chunks of each series hold few samples.
    fn check(&self, index: &Index, chunks: &Chunks) -> Result<bool, ChunkError>
        requires ready { is_ready self.now }
        ensures { IsLookedAt chunks.now (chunk_lists index.now.series) result };

    /// Packs the samples of all chunks that the index names, in its order.
    fn pack(&self, alloc: Global, index: &Index, chunks: &Chunks) -> Result<Packed, AllocError>
        requires ready { is_ready self.now }
        requires read { AllByRecursion (AllByRecursion (IsReadChunk chunks.now))
            (chunk_lists index.now.series) }
        ensures pack { IfOk result (λ p. IsPackOf (chunk_samples chunks.now)
            (chunk_lists index.now.series) p.starts.items p.chunks) }
        ensures small { IfOk result (λ p. length p.chunks < 2 ^ 64) };
}

/// The calling thread alone.
#[derive(Drop)]
pub(crate) struct OneThread;

impl Checker for OneThread {
    ghost is_ready = { λ _. ⊤ };

    fn check(&self, index: &Index, chunks: &Chunks) -> Result<bool, ChunkError> {
        few_between(index, chunks, 0, index.len())
    }

    fn pack(&self, alloc: Global, index: &Index, chunks: &Chunks) -> Result<Packed, AllocError> {
        pack_between(alloc, index, chunks, 0, index.len())
    }
}

/// At most so many threads, the calling one among them.
#[derive(Drop)]
pub(crate) struct Workers<'a, R> {
    pub(crate) rt: &'a R,
    pub(crate) threads: usize,
}

impl<'a, R: Threads + Sync> Checker for Workers<'a, R> {
    ghost is_ready = { λ _. IsSync R.row };

    fn check(&self, index: &Index, chunks: &Chunks) -> Result<bool, ChunkError> {
        few_among(self.rt, index, chunks, 0, index.len(), self.threads)
    }

    fn pack(&self, alloc: Global, index: &Index, chunks: &Chunks) -> Result<Packed, AllocError> {
        pack_among(self.rt, alloc, index, chunks, 0, index.len(), self.threads)
    }
}
