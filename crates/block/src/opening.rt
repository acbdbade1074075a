//! All checks of a block, in their order.

ghost use Rattle.std.specs.Prelude.{◌≡◌, true, OnOk};
ghost use Rattle.std.specs.List.{AllByRecursion, list_all};
ghost use Rattle.std.specs.List.Sorted.{IsStrictlyIncreasing};
ghost use Rattle.index_reader.specs.Indexes.{references, chunk_lists};
ghost use Rattle.block.specs.Outcome.{Gives, GivesAll};
ghost use Rattle.block.specs.Sound.{IsReadChunk, lies_in};
ghost use Rattle.block.specs.Opening.{have_few, is_known, stored_of, deleted_of};

use crate::checking::Checker;
use crate::error::BlockError;
use crate::range::Range;
use crate::series_places::place_of;
use chunk_reader::Chunks;
use index_reader::{Chunk, Index, IndexError};
use labels::SeriesRef;
use std::alloc::Global;
use tombstones::{Deletion, Tombstones};

/// Looks at each chunk that the index names, in its order, and then whether a series has too many
/// samples.
#[tactic(auto, unfolding(crate::specs::Opening::stored_of))]
pub(crate) fn check_stored<C: Checker>(
    checker: &C,
    index: &Index,
    chunks: &Chunks,
) -> Result<(), BlockError>
    requires ready { C.is_ready checker.now }
    ensures exact { Gives (λ _. tt) result (stored_of chunks.now index.now.series) }
    ensures held { OnOk result
        (AllByRecursion (AllByRecursion (IsReadChunk chunks.now)) (chunk_lists index.now.series)) }
    ensures few { OnOk result
        (list_all (have_few chunks.now) (chunk_lists index.now.series) ≡ true) }
{
    let few = checker.check(index, chunks)?;
    if !few {
        return Err(BlockError::Index(IndexError::Limit));
    }
    Ok(())
}

fn is_known(index: &Index, deletion: &Deletion) -> bool
    requires { IsStrictlyIncreasing (references index.now.series) }
    ensures { result ≡ is_known index.now.series deletion.now }
{
    place_of(index, SeriesRef::new(deletion.reference)).is_some()
}

fn are_known(index: &Index, deletions: &[Deletion]) -> bool
    requires { IsStrictlyIncreasing (references index.now.series) }
    ensures { result ≡ list_all (is_known index.now.series) deletions.now }
{
    for deletion in deletions {
        if !is_known(index, deletion) {
            return false;
        }
    }
    true
}

/// The deletions of a file, all of series of the index.
#[tactic(auto, unfolding(crate::specs::Opening::deleted_of))]
pub(crate) fn known_deletions(
    alloc: Global,
    index: &Index,
    file: &[u8],
) -> Result<Tombstones, BlockError>
    requires { IsStrictlyIncreasing (references index.now.series) }
    ensures { GivesAll result (deleted_of file.now index.now.series) }
{
    let tombstones = Tombstones::open(alloc, file)?;
    if !are_known(index, tombstones.deletions()) {
        return Err(BlockError::UnknownSeries);
    }
    Ok(tombstones)
}

fn lies_in(range: Range, chunk: &Chunk) -> bool
    ensures { result ≡ lies_in range chunk.now }
{
    range.min() <= chunk.mint && chunk.maxt < range.max()
}

fn all_inside(range: Range, list: &[Chunk]) -> bool
    ensures { result ≡ list_all (lies_in range) list.now }
{
    for chunk in list {
        if !lies_in(range, chunk) {
            return false;
        }
    }
    true
}

/// Whether the times of all chunks lie in the range.
pub(crate) fn are_inside(index: &Index, range: Range) -> bool
    ensures { result ≡ list_all (list_all (lies_in range)) (chunk_lists index.now.series) }
{
    for at in 0..index.len() {
        if !all_inside(range, index.chunks_at(at)) {
            return false;
        }
    }
    true
}
