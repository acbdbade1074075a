//! Who walks over the chunks of a block.

ghost use Rattle.std.specs.Prelude.{◌≡◌, ⊤, IfOk};
ghost use Rattle.std.specs.List.{AllByRecursion};
ghost use Rattle.std.specs.Thread.{IsSync};
ghost use Rattle.block_walk.specs.IndexFile.Series.{chunk_lists};
ghost use Rattle.block_walk.specs.BlockFiles.Samples.{part_of};
ghost use Rattle.block_walk.specs.BlockFiles.Shared.{AreLookedAt};
ghost use Rattle.block_walk.specs.BlockFiles.Sound.{IsHeld};

use crate::samples::{rows_among, rows_between};
use crate::series_entries::SeriesEntries;
use crate::stored::{few_among, few_between};
use chunk_reader::{ChunkError, Chunks};
use labels::{Row, SeriesRef};
use std::alloc::{AllocError, Global};
use std::thread::Threads;
use tombstones::Tombstones;

/// Who looks at the chunks of a block, and makes its rows.
pub(crate) trait Walker {
    // What its work takes: that threads may share what starts them.
    ghost is_ready: { Self → Type 0 };

    /// Looks at each chunk that the series name, in their order: the first that is refused, or else
    /// whether the chunks of each series hold few samples.
    fn check(&self, entries: &SeriesEntries<'_>, chunks: &Chunks) -> Result<bool, ChunkError>
        requires ready { is_ready self.now }
        ensures { AreLookedAt chunks.now (chunk_lists entries.now) result };

    /// The part: each series under its reference, with its label set and its undeleted samples.
    fn rows(
        &self,
        alloc: Global,
        entries: &SeriesEntries<'_>,
        chunks: &Chunks,
        tombstones: &Tombstones,
    ) -> Result<Vec<(SeriesRef, Row)>, AllocError>
        requires ready { is_ready self.now }
        requires held { AllByRecursion (AllByRecursion (IsHeld chunks.now))
            (chunk_lists entries.now) }
        ensures { IfOk result (λ v. v.items ≡ part_of chunks.now tombstones.now entries.now) };
}

/// The calling thread alone.
#[derive(Drop)]
pub(crate) struct OneThread;

impl Walker for OneThread {
    ghost is_ready = { λ _. ⊤ };

    fn check(&self, entries: &SeriesEntries<'_>, chunks: &Chunks) -> Result<bool, ChunkError> {
        few_between(entries, chunks, 0, entries.len())
    }

    fn rows(
        &self,
        alloc: Global,
        entries: &SeriesEntries<'_>,
        chunks: &Chunks,
        tombstones: &Tombstones,
    ) -> Result<Vec<(SeriesRef, Row)>, AllocError> {
        rows_between(alloc, entries, chunks, tombstones, 0, entries.len())
    }
}

/// At most so many threads, the calling one among them.
#[derive(Drop)]
pub(crate) struct Workers<'a, R> {
    pub(crate) rt: &'a R,
    pub(crate) threads: usize,
}

impl<'a, R: Threads + Sync> Walker for Workers<'a, R> {
    ghost is_ready = { λ _. IsSync R.row };

    fn check(&self, entries: &SeriesEntries<'_>, chunks: &Chunks) -> Result<bool, ChunkError> {
        few_among(self.rt, entries, chunks, 0, entries.len(), self.threads)
    }

    fn rows(
        &self,
        alloc: Global,
        entries: &SeriesEntries<'_>,
        chunks: &Chunks,
        tombstones: &Tombstones,
    ) -> Result<Vec<(SeriesRef, Row)>, AllocError> {
        let (rt, threads) = (self.rt, self.threads);
        rows_among(
            rt,
            alloc,
            entries,
            chunks,
            tombstones,
            0,
            entries.len(),
            threads,
        )
    }
}
