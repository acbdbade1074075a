//! Columns.

ghost use Rattle.std.specs.Prelude.{◌≡◌, ◌<◌, ◌≤◌, ◌+◌, ◌*◌, ◌/◌, ℕ};
ghost use Rattle.page_layout.specs.Columns.{edge, IsPartition};

/// How many of `count` things stand before a column, from 0, of so many:
/// `column * count / columns`, rounded down. The edge behind the last column is `count`.
#[tactic(auto, using(crate::proofs::Edges::edges))]
pub fn edge(column: usize, columns: usize, count: usize) -> usize
    requires some { 0 < columns }
    requires within { column ≤ columns }
    ensures value { result ≡ edge columns count column }
    ensures within { result ≤ count }
{
    (column as u128 * count as u128 / columns as u128) as usize
}

/// The things of a column, from 0, of so many: from which one, and to before which.
#[tactic(auto, using(crate::proofs::Edges::edges))]
pub fn range_of(column: usize, columns: usize, count: usize) -> (usize, usize)
    requires { column < columns }
    ensures from { result.0 ≡ edge columns count column }
    ensures until { result.1 ≡ edge columns count (column + 1) }
    ensures order { result.0 ≤ result.1 }
    ensures within { result.1 ≤ count }
{
    (
        edge(column, columns, count),
        edge(column + 1, columns, count),
    )
}

/// A share of `scale`, rounded down: `n * scale / of`; the whole scale if `n` is above `of`, and 0
/// if `of` is 0.
#[tactic(auto, using(crate::proofs::Edges::edges))]
pub fn share(n: u64, of: u64, scale: u64) -> u64
    ensures value { 0 < of → n ≤ of → result ≡ n * scale / of }
    ensures within { result ≤ scale }
{
    if of == 0 {
        return 0;
    }
    if n > of {
        return scale;
    }
    (n as u128 * scale as u128 / of as u128) as u64
}

/// The law of columns: they are a partition of the things, as even as can be.
pub fn columns_law()
    ensures { (columns count : ℕ) → 0 < columns → columns ≤ count → IsPartition columns count }
{}
