//! A block that was checked.

ghost use Rattle.std.specs.Prelude.{◌≡◌, length, IfOk, IfErr, Ok, true};
ghost use Rattle.labels.specs.Parts.{IsPart, Part};
ghost use Rattle.index_reader.specs.Indexes.{IsConsistent};
ghost use Rattle.index_reader.specs.Checks.{IsRefused};
ghost use Rattle.index_reader.specs.Spelled.{IsIndex};
ghost use Rattle.block.specs.Blocks.{AreInLabelOrder, AreInside, sample_count};
ghost use Rattle.block.specs.Fewer.{part_without};
ghost use Rattle.block.specs.Grammar.{IsBlock};
ghost use Rattle.block.specs.Opening.{block_of};
ghost use Rattle.block.specs.Outcome.{Gives};
ghost use Rattle.block.specs.Ranges.{IsRange};

use crate::checking::{Checker, OneThread, Workers};
use crate::comparing::are_same_chunks;
use crate::counting::count_live;
use crate::error::BlockError;
use crate::files::Files;
use crate::opening::{are_inside, check_stored, known_deletions};
use crate::range::Range;
use chunk_reader::Chunks;
use index_reader::{Index, IndexError};
use labels::SeriesRef;
use std::alloc::{AllocError, Global};
use std::marker::Model;
use std::sync::Arc;
use std::thread::Threads;
use tombstones::Tombstones;

/// A block of files that were checked, seen as the times that it covers, its part, and the pairs of
/// a name and a value that its series carry. It keeps its samples packed, and no bytes of its
/// files.
#[derive(Drop)]
pub struct Block {
    range: Range,
    pub(crate) files: Arc<Files>,
    pub(crate) tombstones: Tombstones,
}

impl Model for Block {
    ghost use Rattle.block.specs.Blocks.{Shown};

    ghost Value = { Shown };

    ghost use Rattle.std.specs.Arc.{arc_value};
    ghost use Rattle.block.specs.Blocks.{shown_of};
    ghost use Rattle.block.specs.Packing.{IsOpened, source_of};

    ghost view = { λ b.
        shown_of b.range (source_of (arc_value b.files).index (arc_value b.files).packed)
        (arc_value b.files).index b.tombstones };

    ghost invariant = { λ b.
        IsOpened b.range (arc_value b.files).starts.items (arc_value b.files).packed
        (arc_value b.files).index };
}

// The checks, and what they leave.
fn open_with_checker<C: Checker>(
    checker: &C,
    alloc: Global,
    range: Range,
    index: &[u8],
    read: Result<Index, IndexError>,
    chunks: Vec<u8>,
    tombstones: &[u8],
) -> Result<Block, BlockError>
    requires ready { C.is_ready checker.now }
    requires refused { IfErr read (IsRefused index.now) }
    requires spelled { IfOk read (IsIndex index.now) }
    requires consistent { IfOk read IsConsistent }
    ensures exact { Gives (λ b. b) result (block_of range index.now chunks.items tombstones.now) }
    ensures found { IfOk result (λ b. IsBlock range index.now chunks.items tombstones.now b.part) }
    ensures range { IfOk result (λ b. b.range ≡ range) }
{
    let index = read?;
    let chunks = Chunks::open(chunks)?;
    check_stored(checker, &index, &chunks)?;
    let deletions = known_deletions(alloc, &index, tombstones)?;
    if !are_inside(&index, range) {
        return Err(BlockError::OutsideRange);
    }
    let packed = checker.pack(alloc, &index, &chunks)?;
    let files = Arc::new(
        alloc,
        Files {
            index,
            packed: packed.chunks,
            starts: packed.starts,
        },
    )?;
    Ok(Block {
        range,
        files,
        tombstones: deletions,
    })
}

impl Block {
    /// The block of an index, a chunks file and a file of deletions, which covers `range`.
    ///
    /// The first check that fails is answered, each over the whole file before the next: those of
    /// the index, `I1` to `I15`; of the head of the chunks file, `C7`, `C1`, `C2`; of each chunk
    /// that the index names, in its order, `C3` to `C8`; `I15` where a series has more than
    /// 1,048,576 samples; of the deletions, `T1` to `T4`; `T5` where one is of a series that the
    /// index does not have; `B1` where a chunk begins before the range or does not end before its
    /// end. Time in proportion to the files, and to what the index names: a list or a chunk that it
    /// names twice is read twice, and a chunk's samples are kept twice. What is kept takes at most
    /// 16 bytes for a sample, mostly 1 to 8, and some 60 for a chunk. The chunks file is dropped.
    pub fn open(
        alloc: Global,
        range: Range,
        index: &[u8],
        chunks: Vec<u8>,
        tombstones: &[u8],
    ) -> Result<Block, BlockError>
        // The first check that fails is answered; where none does, the block shows what was read.
        ensures exact { Gives (λ b. b) result
            (block_of range index.now chunks.items tombstones.now) }
        // The part is what the bytes of the files spell.
        ensures found { IfOk result (λ b.
            IsBlock range index.now chunks.items tombstones.now b.part) }
        // Files that spell a block are opened, and show its part, unless memory runs out.
        ensures only { (part : Part) → IsBlock range index.now chunks.items tombstones.now part
            → Gives (λ b. b.part) result (Ok part) }
        ensures range { IfOk result (λ b. b.range ≡ range) }
    {
        let read = Index::open(alloc, index);
        open_with_checker(&OneThread, alloc, range, index, read, chunks, tombstones)
    }

    /// The same as [`Block::open`], with the bodies of the series, the checks of the chunks and the
    /// packing of their samples shared out over at most `threads` threads, the calling one among
    /// them. The answer does not depend on their number, nor on whether they can be started. Ask
    /// for four for each processor: the shares are equal in series, not in work.
    pub fn open_by<R: Threads + Sync>(
        rt: &R,
        threads: usize,
        alloc: Global,
        range: Range,
        index: &[u8],
        chunks: Vec<u8>,
        tombstones: &[u8],
    ) -> Result<Block, BlockError>
        ensures exact { Gives (λ b. b) result
            (block_of range index.now chunks.items tombstones.now) }
        ensures found { IfOk result (λ b.
            IsBlock range index.now chunks.items tombstones.now b.part) }
        ensures only { (part : Part) → IsBlock range index.now chunks.items tombstones.now part
            → Gives (λ b. b.part) result (Ok part) }
        ensures range { IfOk result (λ b. b.range ≡ range) }
    {
        let read = Index::open_by(rt, threads, alloc, index);
        let workers = Workers { rt, threads };
        open_with_checker(&workers, alloc, range, index, read, chunks, tombstones)
    }

    /// The same as [`Block::open_by`], where the index was opened before: `read` is what
    /// [`Index::open`] or [`Index::open_by`] gave for the bytes of `index`. So a caller can open
    /// the index while another thread reads the chunks file.
    pub fn open_with<R: Threads + Sync>(
        rt: &R,
        threads: usize,
        alloc: Global,
        range: Range,
        index: &[u8],
        read: Result<Index, IndexError>,
        chunks: Vec<u8>,
        tombstones: &[u8],
    ) -> Result<Block, BlockError>
        requires refused { IfErr read (IsRefused index.now) }
        requires spelled { IfOk read (IsIndex index.now) }
        requires consistent { IfOk read IsConsistent }
        ensures exact { Gives (λ b. b) result
            (block_of range index.now chunks.items tombstones.now) }
        ensures found { IfOk result (λ b.
            IsBlock range index.now chunks.items tombstones.now b.part) }
        ensures only { (part : Part) → IsBlock range index.now chunks.items tombstones.now part
            → Gives (λ b. b.part) result (Ok part) }
        ensures range { IfOk result (λ b. b.range ≡ range) }
    {
        let by = Workers { rt, threads };
        open_with_checker(&by, alloc, range, index, read, chunks, tombstones)
    }

    /// The times that the block covers.
    pub fn range(&self) -> Range
        ensures range { result ≡ self.now.range }
        ensures is_range { IsRange self.now.range }
        ensures inside { AreInside self.now.range self.now.part }
        ensures is_part { IsPart self.now.part }
    {
        // For the proof alone: the call says that the range begins below its end.
        let _ = self.range.min();
        self.range
    }

    /// A law: the series stand in the order of their label sets. It takes no time.
    pub fn are_in_label_order(&self)
        ensures { AreInLabelOrder self.now.part }
    {
        // What holds of a block is known where a field of it is named.
        let _ = &self.files;
    }

    /// How many series the block has, also those without a sample.
    pub fn series_count(&self) -> usize
        ensures { result ≡ length self.now.part }
    {
        self.files.index.len()
    }

    /// How many samples the block has that are not deleted. It looks at each chunk: at its length
    /// alone where the series has no deletions, else at each of its samples.
    pub fn sample_count(&self) -> u64
        ensures { result ≡ sample_count self.now.part }
    {
        count_live(&self.files, &self.tombstones)
    }

    /// Whether another block shows the same, as far as both are kept alike: then it does, and
    /// `false` may be said of one whose files were written otherwise. It takes time in proportion
    /// to their sizes, and no memory.
    pub fn is_same(&self, other: &Block) -> bool
        ensures { result ≡ true → self.now ≡ other.now }
    {
        if self.range != other.range {
            return false;
        }
        if !self.tombstones.is_same(&other.tombstones) {
            return false;
        }
        let (files, others) = (&self.files, &other.files);
        if !files.index.is_same(&others.index) {
            return false;
        }
        are_same_chunks(&files.packed, &others.packed)
    }

    /// An equal block. It shares the files, and takes memory for the deletions alone.
    pub fn share(&self, alloc: Global) -> Result<Block, AllocError>
        ensures { IfOk result (λ b. b ≡ self.now) }
    {
        self.without(alloc, &[], 0, 0)
    }

    /// The block without the samples of these series in the closed range of times, in milliseconds.
    /// It shares the files, and takes memory for the deletions alone.
    pub fn without(
        &self,
        alloc: Global,
        references: &[SeriesRef],
        from: i64,
        to: i64,
    ) -> Result<Block, AllocError>
        ensures part { IfOk result (λ b.
            b.part ≡ part_without references.now from to self.now.part) }
        ensures range { IfOk result (λ b. b.range ≡ self.now.range) }
        ensures pairs { IfOk result (λ b. b.pairs ≡ self.now.pairs) }
    {
        let tombstones = self.tombstones.with(alloc, references, from, to)?;
        let files = Arc::try_clone(&self.files)?;
        Ok(Block {
            range: self.range,
            files,
            tombstones,
        })
    }
}
