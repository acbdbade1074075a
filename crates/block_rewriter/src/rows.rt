//! The rows of a block that have a sample.

ghost use Rattle.std.specs.Prelude.{◌≡◌, ◌∷◌, ◌++◌, [], map, IfOk, OnOk};
ghost use Rattle.labels.specs.Parts.{rows_in};
ghost use Rattle.block_rewriter.specs.Rows.{full_rows};

use block::Block;
use labels::{Row, SeriesRef};
use std::alloc::{AllocError, Global};

/// Adds a row if it has a sample.
fn push_full(rows: &mut Vec<Row>, row: Row) -> Result<(), AllocError>
    ensures { OnOk result (rows.new.items ≡ rows.old.items ++ full_rows (row ∷ [])) }
{
    if row.samples().is_empty() {
        return Ok(());
    }
    rows.push(row)?;
    Ok(())
}

/// The rows of listed series that have a sample.
fn keep_full(alloc: Global, listed: Vec<(SeriesRef, Row)>) -> Result<Vec<Row>, AllocError>
    ensures { IfOk result (λ rows. rows.items ≡ full_rows (rows_in listed.items)) }
{
    let mut rows = Vec::new(alloc);
    for (_, row) in listed {
        push_full(&mut rows, row)?;
    }
    Ok(rows)
}

/// The rows of a block that have a sample: they have all its samples (`full_rows_have_all`).
pub fn full_rows(alloc: Global, block: &Block) -> Result<Vec<Row>, AllocError>
    ensures { IfOk result (λ rows. rows.items ≡ full_rows (rows_in block.now.part)) }
{
    let listed = block.list_all(alloc)?;
    keep_full(alloc, listed)
}
