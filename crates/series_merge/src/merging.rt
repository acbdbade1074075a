//! The rows of several answers as one list of rows.

ghost use Rattle.std.specs.Prelude.{IfOk};
ghost use Rattle.labels.specs.Rows.{AreRows};
ghost use Rattle.series_merge.specs.Merging.{merged_content};

use crate::gathering::gather_runs;
use crate::walk::walk;
use cover::PartAnswer;
use labels::Row;
use std::alloc::{AllocError, Global};

/// The rows of several answers as one: in label order, one row for each label set, its samples in
/// time order; of the samples at one time the last answer's stands, and of several that one answer
/// lists there the first. Nothing is asked of the answers' rows.
///
/// It walks over the rows of all answers together, and takes the rows of one label set after
/// another. It costs a few comparisons for each label set and answer, 24 bytes for each row, and a
/// copy of each sample. The rows of an answer that is not in label order are sorted first. If times
/// of the rows of one label set meet, their samples are copied twice more, and as often again as
/// these rows can be halved. A row whose times do not ascend counts as one row for each run of
/// ascending times.
pub fn merge(alloc: Global, answers: &[PartAnswer]) -> Result<Vec<Row>, AllocError>
    ensures { IfOk result (λ rows. AreRows rows.items (merged_content answers.now)) }
{
    let mut parts = gather_runs(alloc, answers)?;
    walk(alloc, parts.as_mut_slice())
}
