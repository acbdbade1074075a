//! What gives rows.

ghost use Rattle.std.specs.Prelude.{List, IfOk};
ghost use Rattle.labels.specs.Rows.{Row as RowValue};
ghost use Rattle.kept_samples.specs.declared.keeping.Tally.{Tally as TallyValue};
ghost use Rattle.block_outputs.specs.declared.tiles.Stretch.{Stretch as StretchValue};

use crate::fault::Fault;
use block_outputs::{Counts, Stretch};
use kept_samples::Tally;
use labels::Row;
use prometheus_block::Counted;
use std::alloc::Global;

/// What gives rows in a range of times, and counts what it read.
pub(crate) trait Input {
    /// It may give these rows of this range. Its counts then go from the first tally to the second.
    ghost may_give: { Self → StretchValue → List RowValue → TallyValue → TallyValue → Type 0 };

    /// The rows in a closed range of times, each with samples.
    fn rows_in(&self, alloc: Global, times: Stretch, tally: &mut Tally) -> Result<Vec<Row>, Fault>
        ensures { IfOk result (λ rows.
            may_give self.now times rows.items tally.old tally.new) };

    /// The first and the last time of the samples in a range, and of others, if there are any.
    fn span(&self, times: Stretch, before: Option<Stretch>) -> Option<Stretch>;

    /// Counts how many samples there are, and when: all that are read.
    fn count(&self, alloc: Global, counts: &mut Counts) -> Result<Counted, Fault>;
}

/// The shortest range of times that has two.
pub(crate) fn joined(span: Option<Stretch>, other: Stretch) -> Option<Stretch> {
    Some(match span {
        Some(span) => Stretch {
            from: span.from.min(other.from),
            to: span.to.max(other.to),
        },
        None => other,
    })
}
