//! The files of a block that is written anew.

ghost use Rattle.std.specs.Prelude.{◌≡◌, ◌⊎◌, ℤ, [], Some, false, string_bytes, IfOk, IsErrOf};
ghost use Rattle.labels.specs.Parts.{rows_in};
ghost use Rattle.block.specs.Metas.{range_said};
ghost use Rattle.block.specs.Ranges.{IsRange};
ghost use Rattle.block_folder.specs.Meanings.{values_said};
ghost use Rattle.block_writer.specs.declared.error.WriteError.TheVariants.{Limit as TooLong};
ghost use Rattle.block_writer.specs.SpellRows.{AreWithin, SpellRows};
ghost use Rattle.block_writer.specs.Written.{IsFileTooLong};
ghost use Rattle.block_rewriter.specs.Rows.{are_few, full_rows};
ghost use Rattle.tombstones.specs.Grammar.{IsTombstones};

use crate::error::RewriteError;
use crate::few::are_few;
use crate::rows::full_rows;
use block::{Block, Range};
use block_folder::{Values, meta_text};
use block_writer::{BlockBytes, PartRows, WriteError, write};
use std::alloc::Global;

/// The files of a block, as bytes.
#[derive(Drop)]
pub struct Rewritten {
    /// The file `meta.json`.
    pub meta: String,
    /// The file `index`.
    pub index: Vec<u8>,
    /// The file `chunks/000001`.
    pub chunks: Vec<u8>,
    /// The file `tombstones`.
    pub tombstones: Vec<u8>,
}

fn meta_of(
    alloc: Global,
    range: Range,
    series: usize,
    samples: u64,
    values: Values,
) -> Result<String, RewriteError>
    ensures said { IfOk result (λ text. range_said (string_bytes text) ≡ Some range) }
    ensures values { IfOk result (λ text. values_said (string_bytes text) ≡ Some values) }
    ensures limit { IsErrOf result RewriteError.Limit → ⊥ }
{
    match meta_text(alloc, range, series, samples, 0, values)? {
        Some(text) => Ok(text),
        None => Err(RewriteError::Meta),
    }
}

fn bytes_of(alloc: Global, rows: &PartRows) -> Result<BlockBytes, RewriteError>
    ensures spelled { IfOk result (λ files. (range : ℤ × ℤ) → IsRange range
        → AreWithin range rows.now → SpellRows range files.index.items files.chunks.items
        files.tombstones.items rows.now) }
    ensures undeleted { IfOk result (λ files. IsTombstones files.tombstones.items []) }
    ensures limit { IsErrOf result RewriteError.Limit → IsFileTooLong rows.now TooLong }
{
    match write(alloc, rows) {
        Ok(files) => Ok(files),
        Err(WriteError::Limit) => Err(RewriteError::Limit),
        Err(WriteError::Memory) => Err(RewriteError::Memory),
    }
}

/// The files of a block of a range with exactly these rows, of so many samples.
fn files_of(
    alloc: Global,
    range: Range,
    samples: u64,
    values: Values,
    rows: &PartRows,
) -> Result<Rewritten, RewriteError>
    requires ranged { IsRange range }
    requires within { AreWithin range rows.now }
    ensures said { IfOk result (λ files. range_said (string_bytes files.meta) ≡ Some range) }
    ensures values { IfOk result (λ files. values_said (string_bytes files.meta) ≡ Some values) }
    ensures spelled { IfOk result (λ files. SpellRows range files.index.items files.chunks.items
        files.tombstones.items rows.now) }
    ensures undeleted { IfOk result (λ files. IsTombstones files.tombstones.items []) }
    ensures limit { IsErrOf result RewriteError.Limit → IsFileTooLong rows.now TooLong }
{
    let meta = meta_of(alloc, range, rows.rows().len(), samples, values)?;
    let BlockBytes {
        index,
        chunks,
        tombstones,
    } = bytes_of(alloc, rows)?;
    Ok(Rewritten {
        meta,
        index,
        chunks,
        tombstones,
    })
}

/// The files of a block that covers the same times and has exactly the rows of this one that have a
/// sample, so that nothing of it is deleted. Its `meta.json` says that values have no digits after
/// the point, and what they mean.
///
/// It takes memory in proportion to the samples of the block.
pub fn rewrite(alloc: Global, block: &Block, values: Values) -> Result<Rewritten, RewriteError>
    // They say the range of the block.
    ensures said { IfOk result (λ files.
        range_said (string_bytes files.meta) ≡ Some block.now.range) }
    // They say this meaning of the values.
    ensures values { IfOk result (λ files. values_said (string_bytes files.meta) ≡ Some values) }
    // By the grammar of blocks, they are a block of this range with exactly these rows.
    ensures spelled { IfOk result (λ files. SpellRows block.now.range files.index.items
        files.chunks.items files.tombstones.items (full_rows (rows_in block.now.part))) }
    // Nothing is deleted.
    ensures undeleted { IfOk result (λ files. IsTombstones files.tombstones.items []) }
    // Rows are refused only where they are too many, or a file of them is too long.
    ensures limit { IsErrOf result RewriteError.Limit
        → (are_few (full_rows (rows_in block.now.part)) ≡ false)
        ⊎ IsFileTooLong (full_rows (rows_in block.now.part)) TooLong }
{
    // A law: it takes no time.
    block.are_in_label_order();
    let range = block.range();
    let rows = full_rows(alloc, block)?;
    if !are_few(&rows) {
        return Err(RewriteError::Limit);
    }
    let rows = PartRows::new(rows).unwrap();
    files_of(alloc, range, block.sample_count(), values, &rows)
}
