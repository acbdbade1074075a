//! The bodies of all series entries, in flat vectors.

ghost use Rattle.std.specs.Prelude.{◌≡◌, ◌<◌, ◌^◌, length, slice_get, Some, IfOk, All, ◌≤◌, ◌==◌};
ghost use Rattle.std.specs.List.{list_all};
ghost use Rattle.block_walk.specs.IndexFile.Outcome.{Gives};
ghost use Rattle.block_walk.specs.IndexFile.Seen.{texts, entry_seen, entries_seen};
ghost use Rattle.block_walk.specs.IndexFile.Each.{each, rises};
ghost use Rattle.block_walk.specs.IndexFile.Whole.{is_small};
ghost use Rattle.block_walk.specs.IndexFile.Flat.{body_in, bodies_in, AllIn, body_of_entry};
ghost use Rattle.block_walk.specs.IndexFile.Flat.{label_sets_in, is_before, AreSpansIn};
ghost use Rattle.block_walk.specs.IndexFile.Flat.{zero_between};
ghost use Rattle.block_walk.specs.IndexFile.Flat.{gaps_zero};

use crate::body::body_into;
use crate::chunk::Chunk;
use crate::entries::{Entry, entry_in};
use crate::error::WalkError;
use std::alloc::Global;
use std::cmp::Ordering;

/// Where the parts of a body stand.
#[derive(Clone, Copy, Debug)]
pub struct Span {
    pub labels_start: usize,
    pub labels_end: usize,
    pub chunks_start: usize,
    pub chunks_end: usize,
}

/// All labels and all chunks, one series after the other.
#[derive(Drop)]
pub struct Bodies {
    pub labels: Vec<(u32, u32)>,
    pub chunks: Vec<Chunk>,
    pub rows: Vec<Span>,
}

/// The chunks of all bodies.
pub(crate) fn chunks_of(bodies: Bodies) -> Vec<Chunk>
    ensures { result.items ≡ bodies.chunks.items }
{
    let Bodies {
        labels: _labels,
        chunks,
        rows: _rows,
    } = bodies;
    chunks
}

/// The bodies of all entries.
pub(crate) fn bodies_of(
    alloc: Global,
    symbols: &[&str],
    entries: &[Entry<'_>],
) -> Result<Bodies, WalkError>
    requires { length symbols.now < 2 ^ 32 }
    ensures exact { Gives (λ b. bodies_in b.labels.items b.chunks.items b.rows.items) result
        (each (body_of_entry (texts symbols.now)) (entries_seen entries.now)) }
    ensures inside { IfOk result (λ b. AllIn b.labels.items b.chunks.items b.rows.items) }
    ensures counted { IfOk result (λ b. length b.rows.items ≡ length entries.now) }
{
    let mut labels = Vec::new(alloc);
    let mut chunks = Vec::new(alloc);
    let mut rows = Vec::with_capacity(alloc, entries.len())?;
    for at in 0..entries.len() {
        let entry = entry_in(entries, at);
        let labels_start = labels.len();
        let chunks_start = chunks.len();
        body_into(symbols, entry.body, &mut labels, &mut chunks)?;
        rows.push(Span {
            labels_start,
            labels_end: labels.len(),
            chunks_start,
            chunks_end: chunks.len(),
        })?;
    }
    Ok(Bodies {
        labels,
        chunks,
        rows,
    })
}

/// Where the parts of the body at a place stand.
pub(crate) fn row_at(rows: &[Span], i: usize) -> Span
    requires { i < length rows.now }
    ensures { slice_get rows.now i ≡ Some result }
{
    rows[i]
}

pub(crate) fn label_set_at<'a>(
    labels: &'a [(u32, u32)],
    rows: &[Span],
    i: usize,
) -> &'a [(u32, u32)]
    requires inside { AreSpansIn labels.now rows.now }
    requires i_in { i < length rows.now }
    ensures { slice_get (label_sets_in labels.now rows.now) i ≡ Some result.now }
{
    let row = rows[i];
    &labels[row.labels_start..row.labels_end]
}

fn is_before(a: &[(u32, u32)], b: &[(u32, u32)]) -> bool
    ensures { result ≡ is_before a.now b.now }
{
    matches!(a.cmp(b), Ordering::Less)
}

/// Whether each label set is below the next.
pub(crate) fn is_rising(labels: &[(u32, u32)], rows: &[Span]) -> bool
    requires { AreSpansIn labels.now rows.now }
    ensures { result ≡ rises is_before (label_sets_in labels.now rows.now) }
{
    let mut at = 1;
    while at < rows.len() {
        if !is_before(
            label_set_at(labels, rows, at - 1),
            label_set_at(labels, rows, at),
        ) {
            return false;
        }
        at += 1;
    }
    true
}

fn is_small(labels: &[(u32, u32)]) -> bool
    ensures { result ≡ is_small labels.now }
{
    labels.len() <= 64
}

/// Whether no series has more than 64 labels.
pub(crate) fn are_small(labels: &[(u32, u32)], rows: &[Span]) -> bool
    requires { AreSpansIn labels.now rows.now }
    ensures { result ≡ list_all is_small (label_sets_in labels.now rows.now) }
{
    for at in 0..rows.len() {
        if !is_small(label_set_at(labels, rows, at)) {
            return false;
        }
    }
    true
}

/// Whether all bytes are 0.
pub(crate) fn are_zero(bytes: &[u8]) -> bool
    ensures { result ≡ list_all (λ b. b == 0) bytes.now }
{
    bytes.iter().all(|b| *b == 0)
}

#[tactic(auto, using(crate::proofs::IndexFile::Gaps::nothing_between))]
fn zero_between(file: &[u8], from: usize, to: usize) -> bool
    requires { to ≤ length file.now }
    ensures { result ≡ zero_between file.now from to }
{
    if from >= to {
        return true;
    }
    are_zero(&file[from..to])
}

/// Whether each byte from `first` up to `end` that lies in no entry is 0.
pub(crate) fn gaps_are_zero(file: &[u8], first: usize, end: usize, entries: &[Entry<'_>]) -> bool
    requires within { end ≤ length file.now }
    requires inside { All (λ e. e.offset ≤ length file.now) entries.now }
    ensures { result ≡ gaps_zero file.now end first (entries_seen entries.now) }
{
    let mut from = first;
    for at in 0..entries.len() {
        let entry = entry_in(entries, at);
        if !zero_between(file, from, entry.offset) {
            return false;
        }
        from = entry.end;
    }
    zero_between(file, from, end)
}
