//! How many rows a block may have.

ghost use Rattle.std.specs.Prelude.{◌≡◌};
ghost use Rattle.std.specs.List.{list_all};
ghost use Rattle.block_rewriter.specs.Rows.{are_few, is_few};

use labels::Row;

/// The most series of a block, and the most samples of a series.
const MOST: usize = 1_048_576;

fn is_few(row: &Row) -> bool
    ensures { result ≡ is_few row.now }
{
    row.samples().len() <= MOST
}

fn is_each_few(rows: &[Row]) -> bool
    ensures { result ≡ list_all is_few rows.now }
{
    rows.iter().all(is_few)
}

/// Whether there are no more rows than a block may have, and each has no more samples.
pub(crate) fn are_few(rows: &[Row]) -> bool
    ensures { result ≡ are_few rows.now }
{
    rows.len() <= MOST && is_each_few(rows)
}
