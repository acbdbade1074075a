//! A law of blocks of Prometheus.

ghost use Rattle.blocktool.specs.Prometheus.{BlocksGiveTheirContent};

use prometheus_block::{ReadSegments, parts_have_the_rows_between};

/// A law for a block of Prometheus whose segments are read alike each time. It gives of each part
/// of a range exactly what it gives of the whole range in that part, as a conversion asks of its
/// inputs.
pub fn blocks_give_their_content<S: ReadSegments>(files: &S)
    ensures { BlocksGiveTheirContent (S.may_read files.now) }
{
    parts_have_the_rows_between(files);
}
