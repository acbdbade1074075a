//! A law of ranges of times.

ghost use Rattle.prometheus_block.specs.Narrowing.{PartsHaveTheRowsBetween};

use crate::segments::ReadSegments;

/// A law: where the segments of a block are read alike each time, its rows in a part of a range of
/// times are those in the whole range with their samples in that part. So nothing is lost or
/// doubled where a range is read in parts.
pub fn parts_have_the_rows_between<S: ReadSegments>(files: &S)
    ensures { PartsHaveTheRowsBetween (S.may_read files.now) }
{
    let _ = files;
}
