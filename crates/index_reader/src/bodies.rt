//! The series of all entries, whose labels and chunks stand in flat vectors.

ghost use Rattle.std.specs.List.{list_all};
ghost use Rattle.std.specs.Prelude.{◌≡◌, ◌<◌, ◌^◌, length, slice_get, Some, All, IfOk};
ghost use Rattle.index_reader.specs.Reading.Agreement.{entry_references};
ghost use Rattle.index_reader.specs.Reading.Whole.{is_small};
ghost use Rattle.index_reader.specs.Reading.Flat.{AllIn, bodies_in, body_of_entry, label_sets_in};
ghost use Rattle.index_reader.specs.Reading.Flat.{labels_before, references_in_order};
ghost use Rattle.index_reader.specs.Layout.{rises};
ghost use Rattle.index_reader.specs.Outcome.{Gives};
ghost use Rattle.index_reader.specs.Seen.{bytes_of, entries_seen};
ghost use Rattle.index_reader.specs.Reading.Steps.{each};

use crate::body::body_into;
use crate::chunk::Chunk;
use crate::error::IndexError;
use crate::series::Series;
use crate::series_entries::{SeriesEntry, entry_at, reference_at};
use crate::symbols::SymbolTable;
use labels::SeriesRef;
use std::alloc::Global;
use std::cmp::Ordering;

/// The labels and the chunks of all bodies, one body after the other, and the series of each.
#[derive(Drop)]
pub struct Bodies {
    pub labels: Vec<(u32, u32)>,
    pub chunks: Vec<Chunk>,
    pub series: Vec<Series>,
    ghost inside: { AllIn labels.items chunks.items series.items },
}

/// The labels and the chunks of all bodies, and their series.
pub fn flat_parts(bodies: Bodies) -> (Vec<(u32, u32)>, Vec<Chunk>, Vec<Series>)
    ensures labels { result.0.items ≡ bodies.labels.items }
    ensures chunks { result.1.items ≡ bodies.chunks.items }
    ensures series { result.2.items ≡ bodies.series.items }
{
    let Bodies {
        labels,
        chunks,
        series,
    } = bodies;
    (labels, chunks, series)
}

/// How many labels most series have at most. Where they have more, the room for them grows.
const USUAL_LABELS: usize = 6;

/// A file is refused where it has more series, so there is no room for more at first.
const MOST_ROOM: usize = 1_048_576;

/// The bodies of all entries, with room for `room` bodies, or 1,048,576.
pub fn bodies_of(
    alloc: Global,
    symbols: &SymbolTable<'_>,
    entries: &[SeriesEntry<'_>],
    room: usize,
) -> Result<Bodies, IndexError>
    requires { All (λ e. e.offset < 2 ^ 32) entries.now }
    ensures exact { Gives (λ b. bodies_in b.labels.items b.chunks.items b.series.items) result
        (each (body_of_entry (bytes_of symbols.now.texts.items)) (entries_seen entries.now)) }
    ensures referred { IfOk result (λ b. references_in_order b.series.items
        ≡ entry_references (entries_seen entries.now)) }
{
    let room = room.min(MOST_ROOM);
    let mut labels = Vec::with_capacity(alloc, room.saturating_mul(USUAL_LABELS))?;
    let mut chunks = Vec::with_capacity(alloc, room)?;
    let mut series = Vec::with_capacity(alloc, room)?;
    for at in 0..entries.len() {
        let entry = entry_at(entries, at);
        let reference = reference_at(entries, at);
        let labels_start = labels.len();
        let chunks_start = chunks.len();
        body_into(symbols, entry.body, &mut labels, &mut chunks)?;
        series.push(Series {
            reference: SeriesRef::new(reference),
            labels_start,
            labels_end: labels.len(),
            chunks_start,
            chunks_end: chunks.len(),
        })?;
    }
    Ok(Bodies {
        labels,
        chunks,
        series,
    })
}

/// The reference of the series at a place.
pub fn reference_of(bodies: &Bodies, i: usize) -> u32
    requires { i < length bodies.now.series.items }
    ensures { slice_get (references_in_order bodies.now.series.items) i ≡ Some result }
{
    bodies.series[i].reference.number()
}

/// The labels of the series at a place.
pub fn label_set_at(bodies: &Bodies, i: usize) -> &[(u32, u32)]
    requires { i < length bodies.now.series.items }
    ensures { slice_get (label_sets_in bodies.now.labels.items bodies.now.series.items) i
        ≡ Some result.now }
{
    let series = bodies.series[i];
    &bodies.labels[series.labels_start..series.labels_end]
}

fn is_before(a: &[(u32, u32)], b: &[(u32, u32)]) -> bool
    ensures { result ≡ labels_before a.now b.now }
{
    matches!(a.cmp(b), Ordering::Less)
}

/// Whether each label set is below the next.
pub fn is_rising(bodies: &Bodies) -> bool
    ensures { result
        ≡ rises labels_before (label_sets_in bodies.now.labels.items bodies.now.series.items) }
{
    let mut at = 1;
    while at < bodies.series.len() {
        if !is_before(label_set_at(bodies, at - 1), label_set_at(bodies, at)) {
            return false;
        }
        at += 1;
    }
    true
}

fn is_small(labels: &[(u32, u32)]) -> bool
    ensures { result ≡ is_small labels.now }
{
    labels.len() <= 64
}

/// Whether no series has more than 64 labels.
pub fn are_small(bodies: &Bodies) -> bool
    ensures { result
        ≡ list_all is_small (label_sets_in bodies.now.labels.items bodies.now.series.items) }
{
    for at in 0..bodies.series.len() {
        if !is_small(label_set_at(bodies, at)) {
            return false;
        }
    }
    true
}
