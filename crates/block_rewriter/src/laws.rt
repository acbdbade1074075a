//! What rows without a sample add.

ghost use Rattle.std.specs.Prelude.{◌≡◌, List};
ghost use Rattle.labels.specs.Rows.{Row as RowValue, points_of};
ghost use Rattle.block_rewriter.specs.Rows.{full_rows};

/// A law: rows without a sample add nothing, so the rows that have one have all samples.
pub fn full_rows_have_all()
    ensures { (rows : List RowValue) → points_of (full_rows rows) ≡ points_of rows }
{}
