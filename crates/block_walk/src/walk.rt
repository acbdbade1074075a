//! The table of a block's files.

ghost use Rattle.std.specs.Prelude.{◌≡◌, Ok, IfErr, IfOk};
ghost use Rattle.wire.specs.Spelling.{IsBytes};
ghost use Rattle.labels.specs.Parts.{Part};
ghost use Rattle.block_walk.specs.IndexFile.Outcome.{Gives};
ghost use Rattle.block_walk.specs.BlockFiles.Checks.{IsWalkError};
ghost use Rattle.block_walk.specs.BlockFiles.Reading.{walked_of};
ghost use Rattle.block_walk.specs.BlockFiles.Spelled.{IsWalked};

use crate::deletions::known_deletions;
use crate::error::WalkError;
use crate::series_entries::SeriesEntries;
use crate::stored::check_stored;
use crate::table::Table;
use crate::walker::{OneThread, Walker, Workers};
use chunk_reader::Chunks;
use std::alloc::Global;
use std::thread::Threads;

// A law: a file is of bytes.
fn are_bytes(file: &[u8])
    ensures { IsBytes file.now }
{}

// The checks, and what they leave.
fn walk_table<W: Walker>(
    walker: &W,
    alloc: Global,
    index: &[u8],
    chunks: Vec<u8>,
    tombstones: &[u8],
) -> Result<Table, WalkError>
    requires ready { W.is_ready walker.now }
    ensures exact { Gives (λ t. t) result (walked_of index.now chunks.items tombstones.now) }
    ensures found { IfOk result (IsWalked index.now chunks.items tombstones.now) }
{
    let entries = SeriesEntries::read(alloc, index)?;
    let chunks = Chunks::open(chunks)?;
    check_stored(walker, &entries, &chunks)?;
    let deletions = known_deletions(alloc, &entries, tombstones)?;
    let rows = walker.rows(alloc, &entries, &chunks, &deletions)?;
    Ok(Table::of_series(rows))
}

impl Table {
    /// The part that the series entries of an index, a chunks file and a file of deletions say. The
    /// postings are not looked at, so a file whose lists lie gives the part of its series; nor is
    /// the range of the block.
    ///
    /// The first check that fails is answered, each over the whole file before the next: `I15`
    /// where the index is longer than 1 GiB; `I1` to `I10`; `I15` where there are more than
    /// 1,048,576 series, or one has more than 64 labels; `C7`, `C1`, `C2` of the chunks file; `C3`
    /// to `C8` of each chunk that the series name, in their order; `I15` where a series has more
    /// than 1,048,576 samples; `T1` to `T4` of the deletions; `T5` where one is of a series that
    /// the index does not have. Time in proportion to the files and to the samples; each chunk's
    /// checksum is taken once. It copies label sets and samples, and keeps none of the files.
    pub fn walk(
        alloc: Global,
        index: &[u8],
        chunks: Vec<u8>,
        tombstones: &[u8],
    ) -> Result<Table, WalkError>
        // Reading gives the first refusal, or the part that was read.
        ensures exact { Gives (λ t. t) result (walked_of index.now chunks.items tombstones.now) }
        // What is refused fails the check that is answered, and passes all before it.
        ensures refused { IfErr result
            (IsWalkError (record {
              index = index.now;
              chunks = chunks.items;
              tombstones = tombstones.now;
            })) }
        // The part is what the bytes of the files spell, whatever the postings are.
        ensures found { IfOk result (IsWalked index.now chunks.items tombstones.now) }
        // Files that spell a part give it, unless memory runs out.
        ensures only { (part : Part) → IsWalked index.now chunks.items tombstones.now part
            → Gives (λ t. t) result (Ok part) }
    {
        are_bytes(chunks.as_slice());
        walk_table(&OneThread, alloc, index, chunks, tombstones)
    }

    /// The same as [`Table::walk`], with the checks of the chunks and the rows shared out over at
    /// most `threads` threads, the calling one among them. The answer does not depend on their
    /// number, nor on whether they can be started. Ask for four for each processor: the shares are
    /// equal in series, not in work.
    pub fn walk_by<R: Threads + Sync>(
        rt: &R,
        threads: usize,
        alloc: Global,
        index: &[u8],
        chunks: Vec<u8>,
        tombstones: &[u8],
    ) -> Result<Table, WalkError>
        ensures exact { Gives (λ t. t) result (walked_of index.now chunks.items tombstones.now) }
        ensures refused { IfErr result
            (IsWalkError (record {
              index = index.now;
              chunks = chunks.items;
              tombstones = tombstones.now;
            })) }
        ensures found { IfOk result (IsWalked index.now chunks.items tombstones.now) }
        ensures only { (part : Part) → IsWalked index.now chunks.items tombstones.now part
            → Gives (λ t. t) result (Ok part) }
    {
        are_bytes(chunks.as_slice());
        walk_table(&Workers { rt, threads }, alloc, index, chunks, tombstones)
    }
}
