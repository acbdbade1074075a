//! The chunks that the series of an index name, looked at by one thread or shared out over several.

ghost use Rattle.std.specs.Prelude.{◌≡◌, ◌+◌, ◌<◌, ◌≤◌, ◌^◌, length, true, IfOk, OnOk};
ghost use Rattle.std.specs.List.{AllByRecursion, list_all};
ghost use Rattle.std.specs.Thread.{IsSync};
ghost use Rattle.wire.specs.Outcome.{Answers};
ghost use Rattle.block_walk.specs.IndexFile.Outcome.{Gives};
ghost use Rattle.block_walk.specs.IndexFile.Series.{chunk_lists};
ghost use Rattle.block_walk.specs.BlockFiles.Sound.{IsHeld, IsCounted};
ghost use Rattle.block_walk.specs.BlockFiles.Reading.{each_check, chunk_check, have_few, stored_of};
ghost use Rattle.block_walk.specs.BlockFiles.Shared.{AreLookedAt, stretch};

use crate::chunk::Chunk;
use crate::error::WalkError;
use crate::series_entries::SeriesEntries;
use crate::walker::Walker;
use chunk_reader::{ChunkError, Chunks};
use std::thread::{Threads, join};

const MAX_SAMPLES: u64 = 1_048_576;

// How many samples the chunk holds.
fn count_in(chunks: &Chunks, chunk: &Chunk) -> Result<u64, ChunkError>
    ensures exact { Answers (λ _. tt) result (chunk_check chunks.now chunk.now) }
    ensures counted { IfOk result (IsCounted chunks.now chunk.now) }
{
    let samples = chunks.find(chunk.reference, chunk.mint, chunk.maxt)?;
    Ok(samples.len() as u64)
}

// Whether the chunks of a series hold few samples.
fn are_few(chunks: &Chunks, list: &[Chunk]) -> Result<bool, ChunkError>
    ensures exact { Answers (λ _. tt) result (each_check (chunk_check chunks.now) list.now) }
    ensures few { IfOk result (λ few. few ≡ have_few chunks.now list.now) }
    ensures held { OnOk result (AllByRecursion (IsHeld chunks.now) list.now) }
{
    let mut count = 0u64;
    for chunk in list {
        let more = count_in(chunks, chunk)?;
        count = count.saturating_add(more);
    }
    Ok(count <= MAX_SAMPLES)
}

/// Whether the chunks of each of `count` series, from a place on, hold few samples: the first chunk
/// that is refused, in the order of the series, or else that.
pub(crate) fn few_between(
    entries: &SeriesEntries<'_>,
    chunks: &Chunks,
    from: usize,
    count: usize,
) -> Result<bool, ChunkError>
    requires within { from + count ≤ length entries.now }
    requires places { from + count < 2 ^ 64 }
    ensures { AreLookedAt chunks.now (stretch from count (chunk_lists entries.now)) result }
{
    let mut few = true;
    for at in 0..count {
        let these = are_few(chunks, entries.chunks_at(from + at))?;
        few = few & these;
    }
    Ok(few)
}

/// The same by at most so many threads, the calling one among them. Nothing is allocated; where a
/// thread can't be started, the calling one does its share.
#[cycle(halves)]
pub(crate) fn few_among<R: Threads + Sync>(
    rt: &R,
    entries: &SeriesEntries<'_>,
    chunks: &Chunks,
    from: usize,
    count: usize,
    threads: usize,
) -> Result<bool, ChunkError>
    requires within { from + count ≤ length entries.now }
    requires places { from + count < 2 ^ 64 }
    ensures { AreLookedAt chunks.now (stretch from count (chunk_lists entries.now)) result }
{
    if threads < 2 || count < 2 {
        return few_between(entries, chunks, from, count);
    }
    let low = count / 2;
    let high = count - low;
    let up = from + low;
    let helpers = threads / 2;
    let rest = threads - helpers;
    let front = || -> Result<bool, ChunkError>
        requires { IsSync R.row × (from + low ≤ length entries.now) × (from + low < 2 ^ 64) }
        ensures { AreLookedAt chunks.entry.now
            (stretch from low (chunk_lists entries.entry.now)) result }
    { few_among(rt, entries, chunks, from, low, helpers) };
    let back = || -> Result<bool, ChunkError>
        requires { IsSync R.row × (up + high ≤ length entries.now) × (up + high < 2 ^ 64) }
        ensures { AreLookedAt chunks.entry.now
            (stretch up high (chunk_lists entries.entry.now)) result }
    { few_among(rt, entries, chunks, up, high, rest) };
    let (first, second) = join(rt, front, back);
    let few = first?;
    let more = second?;
    Ok(few & more)
}

/// Looks at each chunk that the series name, in their order, and then whether a series has too many
/// samples.
///
/// `C3` to `C8` of the first chunk that is refused; `I15` where a series has more than 1,048,576
/// samples.
#[tactic(auto, unfolding(crate::specs::BlockFiles::Reading::stored_of))]
pub(crate) fn check_stored<W: Walker>(
    walker: &W,
    entries: &SeriesEntries<'_>,
    chunks: &Chunks,
) -> Result<(), WalkError>
    requires ready { W.is_ready walker.now }
    ensures exact { Gives (λ _. tt) result (stored_of chunks.now entries.now) }
    ensures held { OnOk result
        (AllByRecursion (AllByRecursion (IsHeld chunks.now)) (chunk_lists entries.now)) }
    ensures few { OnOk result (list_all (have_few chunks.now) (chunk_lists entries.now) ≡ true) }
{
    let few = walker.check(entries, chunks)?;
    if !few {
        return Err(WalkError::Limit);
    }
    Ok(())
}
