//! Rows, cut into batches.

ghost use Rattle.std.specs.Prelude.{◌≡◌, ◌≤◌, [], ◌∷◌, ◌++◌, IfOk, OnOk, IsTrue, length};
ghost use Rattle.head.specs.BatchRows.{batch_of_rows, pairs_with};
ghost use Rattle.head.specs.Batches.{is_batch};
ghost use Rattle.remote_http.specs.Cutting.{are_timed, IsCutInto};
ghost use Rattle.remote_http.specs.Filling.{AreBatches, batches_of, filled, HasRoom};

use head::{MAX_BATCH, RowBatch};
use labels::{LabelSet, Row, Sample};
use std::alloc::{AllocError, Global};
use std::mem::replace;

/// Puts what is being filled behind the parts, as a batch, and begins anew.
fn end_part(alloc: Global, parts: &mut Vec<RowBatch>, rows: &mut Vec<Row>) -> Result<(), AllocError>
    requires { IsTrue (is_batch (batch_of_rows rows.old.items)) }
    ensures parts { OnOk result (parts.new.items ≡ parts.old.items ++ rows.old.items ∷ []) }
    ensures rows { rows.new.items ≡ [] }
{
    let whole = replace(rows, Vec::new(alloc));
    parts.push(RowBatch::new(whole))?;
    Ok(())
}

/// Adds a row that fits a batch. Returns for how many more samples the batch that is being filled
/// has room.
fn add_short(
    alloc: Global,
    parts: &mut Vec<RowBatch>,
    rows: &mut Vec<Row>,
    room: usize,
    row: Row,
) -> Result<usize, AllocError>
    requires room { HasRoom rows.old.items room }
    requires short { length row.1 ≤ 4096 }
    requires timed { IsTrue (are_timed (pairs_with row.0 row.1)) }
    ensures room { IfOk result (λ left. HasRoom rows.new.items left) }
    ensures filled { OnOk result (filled parts.new.items rows.new.items
        ≡ filled parts.old.items rows.old.items ++ pairs_with row.0 row.1) }
    ensures batches { AreBatches parts.old.items → OnOk result (AreBatches parts.new.items) }
{
    let count = row.samples().len();
    if count > room {
        end_part(alloc, parts, rows)?;
        rows.push(row)?;
        return Ok(MAX_BATCH - count);
    }
    rows.push(row)?;
    Ok(room - count)
}

/// Adds samples of a label set, in pieces if they are more than a batch takes.
fn add_samples(
    alloc: Global,
    parts: &mut Vec<RowBatch>,
    rows: &mut Vec<Row>,
    room: usize,
    labels: LabelSet,
    samples: Vec<Sample>,
) -> Result<usize, AllocError>
    requires room { HasRoom rows.old.items room }
    requires timed { IsTrue (are_timed (pairs_with labels samples.items)) }
    ensures room { IfOk result (λ left. HasRoom rows.new.items left) }
    ensures filled { OnOk result (filled parts.new.items rows.new.items
        ≡ filled parts.old.items rows.old.items ++ pairs_with labels samples.items) }
    ensures batches { AreBatches parts.old.items → OnOk result (AreBatches parts.new.items) }
{
    let mut samples = samples;
    let mut room = room;
    while samples.len() > MAX_BATCH {
        let later = samples.split_off(MAX_BATCH)?;
        let first = Row::new(labels.try_clone()?, samples);
        room = add_short(alloc, parts, rows, room, first)?;
        samples = later;
    }
    add_short(alloc, parts, rows, room, Row::new(labels, samples))
}

/// Adds the samples of a row.
fn add_row(
    alloc: Global,
    parts: &mut Vec<RowBatch>,
    rows: &mut Vec<Row>,
    room: usize,
    row: Row,
) -> Result<usize, AllocError>
    requires room { HasRoom rows.old.items room }
    requires timed { IsTrue (are_timed (pairs_with row.0 row.1)) }
    ensures room { IfOk result (λ left. HasRoom rows.new.items left) }
    ensures filled { OnOk result (filled parts.new.items rows.new.items
        ≡ filled parts.old.items rows.old.items ++ pairs_with row.0 row.1) }
    ensures batches { AreBatches parts.old.items → OnOk result (AreBatches parts.new.items) }
{
    let (labels, samples) = row.into_parts();
    add_samples(alloc, parts, rows, room, labels, samples)
}

/// The rows, cut in their order into batches of at most 4,096 samples. A row that does not fit what
/// is left of a batch begins the next one, and a longer one is cut.
pub(crate) fn cut(alloc: Global, rows: Vec<Row>) -> Result<Vec<RowBatch>, AllocError>
    requires { IsTrue (are_timed (batch_of_rows rows.items)) }
    ensures { IfOk result (λ parts. IsCutInto (batch_of_rows rows.items) (batches_of parts.items)) }
{
    let mut parts = Vec::new(alloc);
    let mut open = Vec::new(alloc);
    let mut room = MAX_BATCH;
    for row in rows {
        room = add_row(alloc, &mut parts, &mut open, room, row)?;
    }
    if open.is_empty() {
        return Ok(parts);
    }
    end_part(alloc, &mut parts, &mut open)?;
    Ok(parts)
}
