//! How long the chunks file of rows is.

ghost use Rattle.std.specs.Prelude.{◌≡◌, ◌*◌, ◌<◌, ◌≤◌, ℤ, List, length, IfSome, IfNone};
ghost use Rattle.block_writer.specs.Sizes.{chunk_size};
ghost use Rattle.block_writer.specs.Writing.{chunks_text, series_text};
ghost use Rattle.block_writer.specs.Written.{limit};

use crate::chunks::PIECE;
use crate::limits::MAX_LEN;
use crate::part_rows::PartRows;

const HEAD_LEN: usize = 8;

/// How many bytes a chunk of so many samples has.
pub(crate) fn chunk_len(count: usize) -> usize
    requires { count ≤ 120 }
    ensures { result ≡ chunk_size count }
{
    let body = 2 + 16 * count;
    let head = if body < 128 { 1 } else { 2 };
    head + 1 + body + 4
}

/// How many bytes the chunks of a series of so many samples take in a chunks file: no more than 24
/// a sample.
pub fn series_len(count: usize) -> usize
    requires few { count ≤ limit }
    ensures exact { (samples : List (ℤ × ℤ)) → length samples ≡ count
        → result ≡ length (series_text samples) }
    ensures small { result ≤ 24 * count }
{
    let full = count / PIECE * chunk_len(PIECE);
    let rest = count % PIECE;
    if rest == 0 {
        full
    } else {
        full + chunk_len(rest)
    }
}

impl PartRows {
    /// How long the chunks file is that [`write`](crate::write) gives of the rows, in bytes: 8, and
    /// [`series_len`] of each row. `None` where it would be longer than [`MAX_LEN`], so that
    /// [`write`](crate::write) answers `N1`. It takes time in proportion to the rows.
    pub fn chunks_len(&self) -> Option<usize>
        ensures exact { IfSome result (λ n. n ≡ length (chunks_text self.now)) }
        ensures short { IfSome result (λ n. n ≤ limit) }
        ensures long { IfNone result (limit < length (chunks_text self.now)) }
    {
        let mut len = HEAD_LEN;
        for row in self.rows() {
            let count = row.samples().len();
            if count > MAX_LEN {
                return None;
            }
            len += series_len(count);
            if len > MAX_LEN {
                return None;
            }
        }
        Some(len)
    }
}
