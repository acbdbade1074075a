//! The body of a series entry.

ghost use Rattle.std.specs.Prelude.{◌≡◌, ◌+◌, ◌<◌, ◌≤◌, ◌++◌, pos, ◌-ℤ◌, length, OnOk, IfOk};
ghost use Rattle.std.specs.List.{All};
ghost use Rattle.std.specs.List.Sorted.{IsStrictlySortedBy};
ghost use Rattle.index_reader.specs.Seen.{bytes_of};
ghost use Rattle.labels.specs.Labels.{text_cmp};
ghost use Rattle.block_writer.specs.EntryBodies.{apart, body_of, chunk_of, chunks_of, first_text};
ghost use Rattle.block_writer.specs.EntryBodies.{labels_text, later_text, places_text};
ghost use Rattle.block_writer.specs.Writing.{piece_text, series_text};
ghost use Rattle.block_writer.specs.Written.{limit};

use crate::chunks::first_piece;
use crate::file_length::chunk_len;
use crate::near::NearLabels;
use crate::symbols::number_near;
use index_reader::Chunk;
use labels::{LabelSet, Row, Sample};
use std::alloc::{AllocError, Global};
use wire::{put_uvarint, put_varint};

/// Appends the body of a row's entry, whose chunks stand from a place of the chunks file on, and
/// gives the place after them. The symbols of its labels are looked for where those of the row
/// before stand.
#[tactic(auto, unfolding(crate::specs::EntryBodies::body_of))]
pub fn put_body(
    alloc: Global,
    out: &mut Vec<u8>,
    symbols: &[&str],
    row: &Row,
    at: usize,
    near: &mut NearLabels,
) -> Result<usize, AllocError>
    requires ascending { IsStrictlySortedBy text_cmp (bytes_of symbols.now) }
    requires within { at + length (series_text row.now.1) ≤ limit }
    ensures text { OnOk result (out.new.items
        ≡ out.old.items ++ body_of (bytes_of symbols.now) at row.now) }
    ensures behind { IfOk result (λ place. place ≡ at + length (series_text row.now.1)) }
{
    put_labels(out, symbols, row.labels(), near)?;
    let (chunks, behind) = chunks_of(alloc, row.samples(), at)?;
    put_chunks(out, &chunks)?;
    Ok(behind)
}

fn put_labels(
    out: &mut Vec<u8>,
    symbols: &[&str],
    labels: &LabelSet,
    near: &mut NearLabels,
) -> Result<(), AllocError>
    requires { IsStrictlySortedBy text_cmp (bytes_of symbols.now) }
    ensures { OnOk result (out.new.items
        ≡ out.old.items ++ labels_text (bytes_of symbols.now) labels.now) }
{
    put_uvarint(out, labels.len() as u64)?;
    for i in 0..labels.len() {
        let (name, value) = labels.pair(i);
        let name_at = number_near(symbols, near.names.guess(i), name);
        let value_at = number_near(symbols, near.values.guess(i), value);
        put_uvarint(out, name_at as u64)?;
        put_uvarint(out, value_at as u64)?;
        near.names.keep(i, name_at)?;
        near.values.keep(i, value_at)?;
    }
    Ok(())
}

// The chunks of a series that stand from a place on, and the place after them.
fn chunks_of(
    alloc: Global,
    samples: &[Sample],
    at: usize,
) -> Result<(Vec<Chunk>, usize), AllocError>
    requires { at + length (series_text samples.now) ≤ limit }
    ensures chunks { IfOk result (λ x. x.0.items ≡ chunks_of at samples.now) }
    ensures behind { IfOk result (λ x. x.1 ≡ at + length (series_text samples.now)) }
    ensures small { IfOk result (λ x. All (λ c. c.reference ≤ limit) x.0.items) }
{
    let mut chunks = Vec::new(alloc);
    let mut place = at;
    let mut rest = samples;
    while !rest.is_empty() {
        let (piece, after) = first_piece(rest);
        chunks.push(chunk_of(piece, place))?;
        place += piece_len(piece);
        rest = after;
    }
    Ok((chunks, place))
}

fn chunk_of(samples: &[Sample], at: usize) -> Chunk
    requires { 0 < length samples.now }
    ensures { result ≡ chunk_of at samples.now }
{
    Chunk {
        mint: samples[0].t(),
        maxt: samples[samples.len() - 1].t(),
        reference: at as u64,
    }
}

// How many bytes the chunk of samples has.
fn piece_len(samples: &[Sample]) -> usize
    requires { length samples.now ≤ 120 }
    ensures { result ≡ length (piece_text samples.now) }
{
    chunk_len(samples.len())
}

fn put_chunks(out: &mut Vec<u8>, chunks: &[Chunk]) -> Result<(), AllocError>
    requires { All (λ c. c.reference ≤ limit) chunks.now }
    ensures { OnOk result (out.new.items ≡ out.old.items ++ places_text chunks.now) }
{
    put_uvarint(out, chunks.len() as u64)?;
    if chunks.is_empty() {
        return Ok(());
    }
    put_first(out, chunks[0])?;
    for i in 1..chunks.len() {
        put_later(out, chunks[i - 1], chunks[i])?;
    }
    Ok(())
}

fn put_first(out: &mut Vec<u8>, chunk: Chunk) -> Result<(), AllocError>
    ensures { OnOk result (out.new.items ≡ out.old.items ++ first_text chunk) }
{
    put_varint(out, chunk.mint)?;
    put_uvarint(out, chunk.maxt.abs_diff(chunk.mint))?;
    put_uvarint(out, chunk.reference)?;
    Ok(())
}

fn put_later(out: &mut Vec<u8>, before: Chunk, chunk: Chunk) -> Result<(), AllocError>
    requires before { before.reference ≤ limit }
    requires here { chunk.reference ≤ limit }
    ensures { OnOk result (out.new.items ≡ out.old.items ++ later_text before chunk) }
{
    put_uvarint(out, gap_of(before, chunk))?;
    put_uvarint(out, span_of(chunk))?;
    put_varint(out, step_of(before.reference, chunk.reference))?;
    Ok(())
}

// How much later a chunk begins than the one before it ends.
fn gap_of(before: Chunk, chunk: Chunk) -> u64
    ensures { result ≡ apart before.maxt chunk.mint }
{
    chunk.mint.abs_diff(before.maxt)
}

// How much later the last time of a chunk is than its first.
fn span_of(chunk: Chunk) -> u64
    ensures { result ≡ apart chunk.mint chunk.maxt }
{
    chunk.maxt.abs_diff(chunk.mint)
}

// How much further a place is than another.
fn step_of(before: u64, place: u64) -> i64
    requires before { before ≤ limit }
    requires place { place ≤ limit }
    ensures { result ≡ (pos place -ℤ pos before) }
{
    place as i64 - before as i64
}
