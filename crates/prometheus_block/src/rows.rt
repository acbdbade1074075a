//! The rows of a block in a range of times.

ghost use Rattle.std.specs.Prelude.{◌≡◌, ◌<◌, ◌==◌, length, slice_get, Some, IfOk, OnOk};
ghost use Rattle.index_reader.specs.Indexes.{Series};
ghost use Rattle.prometheus_block.specs.Series.{IsHeld};
ghost use Rattle.prometheus_block.specs.Rows.{AreRowsOf, IsRowAfter, ArePlaced, rows_kept};

use crate::error::SourceError;
use crate::segments::{Held, ReadSegments};
use crate::series::read_series;
use imported_values::Form;
use index_reader::Index;
use kept_samples::{Asked, KeepError, Tally, Times, keep_samples};
use labels::{Row, Sample};
use std::alloc::{AllocError, AllocFailed, Global};
use tombstones::Tombstones;

/// Why the rows of a block are not given.
#[derive(Clone, Copy, Debug, PartialEq, Eq, Drop)]
pub enum RowsError {
    /// The first check of the block that failed, or want of memory.
    Source(SourceError),
    /// A value of the series at this place of the index is refused.
    Value(usize, KeepError),
}

impl From<SourceError> for RowsError {
    fn from(error: SourceError) -> RowsError {
        RowsError::Source(error)
    }
}

impl From<AllocError> for RowsError {
    fn from(_error: AllocError) -> RowsError {
        RowsError::Source(SourceError::Memory)
    }
}

impl<T: Drop> From<AllocFailed<T>> for RowsError {
    fn from(_error: AllocFailed<T>) -> RowsError {
        RowsError::Source(SourceError::Memory)
    }
}

/// What is read of a block.
#[derive(Clone, Copy, Drop)]
pub struct Wanted<'a> {
    /// Its index.
    pub index: &'a Index,
    /// Its deletions.
    pub tombstones: &'a Tombstones,
    /// What values are kept as.
    pub form: Form,
    /// The times that are kept.
    pub times: Times,
}

/// The rows of a block: for each series of its index in their order, those of its samples in the
/// range that no deletion deletes and whose values the form keeps; a series without one has no
/// row. Each sample of the chunks that meet the range is told in one count of the tally. Label sets
/// are made once all samples are read and no segment is held any more.
pub fn read_rows<S: ReadSegments>(
    alloc: Global,
    files: &S,
    wanted: &Wanted<'_>,
    tally: &mut Tally,
) -> Result<Vec<Row>, RowsError>
    ensures found { IfOk result (λ rows. AreRowsOf (S.may_read files.now) wanted.now
        wanted.now.index.now.series rows.items tally.old tally.new) }
{
    let kept = keep_all(alloc, files, wanted, tally)?;
    let rows = rows_of(alloc, wanted.index, kept)?;
    Ok(rows)
}

/// What is kept of a series: its place in the index, and the samples.
#[derive(Drop)]
pub(crate) struct KeptSeries {
    pub(crate) at: usize,
    pub(crate) samples: Vec<Sample>,
}

// What is kept of each series that has some. No segment is held any more.
fn keep_all<S: ReadSegments>(
    alloc: Global,
    files: &S,
    wanted: &Wanted<'_>,
    tally: &mut Tally,
) -> Result<Vec<KeptSeries>, RowsError>
    ensures found { IfOk result (λ kept. AreRowsOf (S.may_read files.now) wanted.now
        wanted.now.index.now.series (rows_kept wanted.now.index.now.series kept.items)
        tally.old tally.new) }
    ensures placed { IfOk result (λ kept. ArePlaced wanted.now.index.now.series kept.items) }
{
    let mut held = Held::new();
    let mut all = Vec::new(alloc);
    for at in 0..wanted.index.len() {
        keep_series(alloc, files, &mut held, wanted, at, &mut all, tally)?;
    }
    Ok(all)
}

// Appends what is kept of the series at a place, if there is any.
fn keep_series<S: ReadSegments>(
    alloc: Global,
    files: &S,
    held: &mut Held,
    wanted: &Wanted<'_>,
    at: usize,
    all: &mut Vec<KeptSeries>,
    tally: &mut Tally,
) -> Result<(), RowsError>
    requires held { IsHeld (S.may_read files.now) held.old }
    requires inside { at < length wanted.now.index.now.series }
    ensures held { IsHeld (S.may_read files.now) held.new }
    ensures found { OnOk result
        ((s : Series) → slice_get wanted.now.index.now.series at ≡ Some s
        → IsRowAfter (S.may_read files.now) wanted.now s
        (rows_kept wanted.now.index.now.series all.old.items)
        (rows_kept wanted.now.index.now.series all.new.items) tally.old tally.new) }
    ensures placed { OnOk result (ArePlaced wanted.now.index.now.series all.old.items
        → ArePlaced wanted.now.index.now.series all.new.items) }
{
    let floats = read_series(alloc, files, held, wanted.index.chunks_at(at), wanted.times)?;
    let asked = Asked {
        form: wanted.form,
        times: wanted.times,
        tombstones: wanted.tombstones,
        reference: wanted.index.reference_at(at),
    };
    let mut samples = Vec::with_capacity(alloc, floats.len())?;
    if let Err(error) = keep_samples(&mut samples, tally, &asked, floats.as_slice()) {
        return Err(RowsError::Value(at, error));
    }
    if has_none(&samples) {
        return Ok(());
    }
    all.push(KeptSeries { at, samples })?;
    Ok(())
}

// The rows of what is kept of series.
fn rows_of(alloc: Global, index: &Index, kept: Vec<KeptSeries>) -> Result<Vec<Row>, RowsError>
    requires { ArePlaced index.now.series kept.items }
    ensures { IfOk result (λ rows. rows.items ≡ rows_kept index.now.series kept.items) }
{
    let mut rows = Vec::with_capacity(alloc, kept.len())?;
    let mut left = kept;
    left.reverse();
    while let Some(series) = left.pop() {
        let labels = index.labels_at(alloc, series.at)?;
        rows.push(Row::new(labels, series.samples))?;
    }
    Ok(rows)
}

fn has_none(samples: &[Sample]) -> bool
    ensures { result ≡ (length samples.now == 0) }
{
    samples.is_empty()
}
