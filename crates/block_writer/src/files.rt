//! All files of a block.

ghost use Rattle.std.specs.Prelude.{◌≡◌, ◌≤◌, [], length, IfOk, IfErr};
ghost use Rattle.std.specs.List.{flat_map};
ghost use Rattle.block_writer.specs.Writing.{chunks_text};
ghost use Rattle.block_writer.specs.SpellRows.{SpellRowsAnywhere};
ghost use Rattle.block_writer.specs.Written.{limit, IsFileTooLong, IsWrittenIndex};
ghost use Rattle.tombstones.specs.Grammar.{IsTombstones};

use crate::chunk_pieces::chunk_pieces;
use crate::chunks::chunks_file;
use crate::error::WriteError;
use crate::index_file::index_file;
use crate::limits::MAX_LEN;
use crate::part_rows::PartRows;
use crate::tombstones_file::no_tombstones;
use std::alloc::Global;

/// The files of a block, as bytes.
#[derive(Drop)]
pub struct BlockBytes {
    /// The file `index`.
    pub index: Vec<u8>,
    /// The file `chunks/000001`.
    pub chunks: Vec<u8>,
    /// The file `tombstones`.
    pub tombstones: Vec<u8>,
}

/// The files of a block with exactly these rows, of which nothing is deleted. `N1` where the chunks
/// file or the index would be longer than 1,073,741,824 bytes. It takes time and memory in
/// proportion to the samples, and to the labels times the logarithm of their count.
///
/// `Block::open` refuses the files for want of memory alone, and shows a part with exactly the
/// rows, for each range that has their times, where there are at most 1,048,576 rows of at most
/// 1,048,576 samples.
pub fn write(alloc: Global, rows: &PartRows) -> Result<BlockBytes, WriteError>
    // The index lists exactly the rows, their labels and the places of their chunks.
    ensures index { IfOk result (λ files. IsWrittenIndex rows.now files.index.items) }
    // The chunks file has exactly the samples of the rows.
    ensures chunks { IfOk result (λ files. files.chunks.items ≡ chunks_text rows.now) }
    // Nothing is deleted.
    ensures tombstones { IfOk result (λ files. IsTombstones files.tombstones.items []) }
    // Both files are short enough to be read.
    ensures short { IfOk result (λ files. length files.index.items ≤ limit) }
    ensures chunks_short { IfOk result (λ files. length files.chunks.items ≤ limit) }
    // By the grammar of blocks, they are a block with exactly the rows, in each range that has
    // them.
    ensures block { IfOk result (λ files.
        SpellRowsAnywhere files.index.items files.chunks.items files.tombstones.items rows.now) }
    // Rows are refused only where a file of them is too long.
    ensures reason { IfErr result (IsFileTooLong rows.now) }
{
    let chunks = chunks_file(alloc, rows)?;
    if chunks.len() > MAX_LEN {
        return Err(WriteError::Limit);
    }
    let index = index_file(alloc, rows)?;
    let tombstones = no_tombstones(alloc)?;
    Ok(BlockBytes {
        index,
        chunks,
        tombstones,
    })
}

/// The files of a block, as bytes, the largest in pieces.
#[derive(Drop)]
pub struct BlockPieces {
    /// The file `index`.
    pub index: Vec<u8>,
    /// The file `chunks/000001`: these pieces, one after another.
    pub chunks: Vec<Vec<u8>>,
    /// The file `tombstones`.
    pub tombstones: Vec<u8>,
}

/// The files that [`write`] gives of rows, which are let go while their chunks are written: it
/// takes little more memory than the rows and the index take. `N1` as [`write`] says it.
pub fn write_pieces(alloc: Global, rows: PartRows) -> Result<BlockPieces, WriteError>
    // The index lists exactly the rows, their labels and the places of their chunks.
    ensures index { IfOk result (λ files. IsWrittenIndex rows files.index.items) }
    // The chunks file has exactly the samples of the rows.
    ensures chunks { IfOk result (λ files.
        flat_map (λ piece. piece.items) files.chunks.items ≡ chunks_text rows) }
    // Nothing is deleted.
    ensures tombstones { IfOk result (λ files. IsTombstones files.tombstones.items []) }
    // By the grammar of blocks, they are a block with exactly the rows, in each range that has
    // them.
    ensures block { IfOk result (λ files. SpellRowsAnywhere files.index.items
        (flat_map (λ piece. piece.items) files.chunks.items) files.tombstones.items rows) }
    // Rows are refused only where a file of them is too long.
    ensures reason { IfErr result (IsFileTooLong rows) }
{
    let Some(_len) = rows.chunks_len() else {
        return Err(WriteError::Limit);
    };
    let index = index_file(alloc, &rows)?;
    let undeleted = no_tombstones(alloc)?;
    let chunks = chunk_pieces(alloc, rows.into_rows())?;
    Ok(BlockPieces {
        index,
        chunks,
        tombstones: undeleted,
    })
}
