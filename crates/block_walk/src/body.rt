//! The body of a series entry: its labels and its chunks.

ghost use Rattle.std.specs.Prelude.{◌≡◌, ◌+◌, ◌<◌, ◌≤◌, ◌^◌, length, get_or, slice_get, Ok, true};
ghost use Rattle.std.specs.Prelude.{nat_le, IsTrue, IfOk};
ghost use Rattle.block_walk.specs.IndexFile.Outcome.{Gives};
ghost use Rattle.block_walk.specs.IndexFile.Seen.{texts};
ghost use Rattle.labels.specs.Contents.{is_time};
ghost use Rattle.block_walk.specs.IndexFile.Steps.{steps, with_front};
ghost use Rattle.block_walk.specs.IndexFile.Bodies.{is_label, label_at, labels_at, chunk_at};
ghost use Rattle.block_walk.specs.IndexFile.Bodies.{chunks_at, body_at, behind_both};

use crate::chunk::{Chunk, first_of, later_of};
use crate::error::WalkError;
use labels::is_name;
use wire::Cut;

#[tactic(auto, unfolding(crate::specs::IndexFile::Bodies::is_label))]
fn is_label(symbols: &[&str], low: u64, name: u64, value: u64) -> bool
    ensures exact { result ≡ is_label (texts symbols.now) low name value }
    ensures within { IsTrue result → (name < length symbols.now) × (value < length symbols.now) }
{
    let within = (low <= name) & (name < symbols.len() as u64) & (value < symbols.len() as u64);
    if !within {
        return false;
    }
    is_name(symbols[name as usize]) & !symbols[value as usize].is_empty()
}

#[tactic(auto, unfolding(crate::specs::IndexFile::Bodies::label_at))]
fn label_of<'a>(
    symbols: &[&str],
    low: u64,
    bytes: &'a [u8],
) -> Result<((u32, u32), (u64, &'a [u8])), WalkError>
    requires { length symbols.now < 2 ^ 32 }
    ensures { Gives (λ x. (x.0, (x.1.0, x.1.1.now))) result
        (label_at (texts symbols.now) (low, bytes.now)) }
{
    let mut cut = Cut::new(bytes);
    let name = cut.uvarint().or(Err(WalkError::Series))?;
    let value = cut.uvarint().or(Err(WalkError::Series))?;
    if !is_label(symbols, low, name, value) {
        return Err(WalkError::Series);
    }
    Ok(((name as u32, value as u32), (name + 1, cut.rest())))
}

fn more_labels<'a>(
    symbols: &[&str],
    count: u64,
    bytes: &'a [u8],
    labels: &mut Vec<(u32, u32)>,
) -> Result<(u64, &'a [u8]), WalkError>
    requires { length symbols.now < 2 ^ 32 }
    ensures { Gives (λ x. (labels.new.items, (x.0, x.1.now))) result
        (with_front labels.old.items (steps (label_at (texts symbols.now)) count (0, bytes.now))) }
{
    let mut low = 0;
    let mut rest = bytes;
    for _ in 0..count {
        let (label, after) = label_of(symbols, low, rest)?;
        labels.push(label)?;
        low = after.0;
        rest = after.1;
    }
    Ok((low, rest))
}

/// Adds the labels of a body, and gives what stands after them.
#[tactic(auto, unfolding(crate::specs::IndexFile::Bodies::labels_at))]
pub(crate) fn labels_into<'a>(
    symbols: &[&str],
    bytes: &'a [u8],
    labels: &mut Vec<(u32, u32)>,
) -> Result<(u64, &'a [u8]), WalkError>
    requires { length symbols.now < 2 ^ 32 }
    ensures { Gives (λ x. (labels.new.items, (x.0, x.1.now))) result
        (with_front labels.old.items (labels_at (texts symbols.now) bytes.now)) }
{
    let mut cut = Cut::new(bytes);
    let count = cut.uvarint().or(Err(WalkError::Series))?;
    more_labels(symbols, count, cut.rest(), labels)
}

#[tactic(auto, unfolding(crate::specs::IndexFile::Bodies::chunk_at))]
fn chunk_of(before: Chunk, bytes: &[u8]) -> Result<(Chunk, (Chunk, &[u8])), WalkError>
    requires { is_time before.maxt ≡ true }
    ensures exact { Gives (λ x. (x.0, (x.1.0, x.1.1.now))) result (chunk_at (before, bytes.now)) }
    ensures times { IfOk result (λ x. is_time x.1.0.maxt ≡ true) }
{
    let Some((chunk, after)) = later_of(before, bytes) else {
        return Err(WalkError::Series);
    };
    Ok((chunk, (chunk, after)))
}

fn more_chunks<'a>(
    first: Chunk,
    count: u64,
    bytes: &'a [u8],
    chunks: &mut Vec<Chunk>,
) -> Result<(Chunk, &'a [u8]), WalkError>
    requires { is_time first.maxt ≡ true }
    ensures { Gives (λ x. (chunks.new.items, (x.0, x.1.now))) result
        (with_front chunks.old.items (steps chunk_at count (first, bytes.now))) }
{
    let mut before = first;
    let mut rest = bytes;
    for _ in 0..count {
        let (chunk, after) = chunk_of(before, rest)?;
        chunks.push(chunk)?;
        before = after.0;
        rest = after.1;
    }
    Ok((before, rest))
}

/// Adds the chunks of a body, and gives what stands after them.
#[tactic(auto, using(crate::proofs::IndexFile::Stepping::behind_front), unfolding(crate::specs::IndexFile::Bodies::chunks_at))]
pub(crate) fn chunks_into<'a>(
    bytes: &'a [u8],
    chunks: &mut Vec<Chunk>,
) -> Result<(Chunk, &'a [u8]), WalkError>
    ensures { Gives (λ x. (chunks.new.items, (x.0, x.1.now))) result
        (with_front chunks.old.items (chunks_at bytes.now)) }
{
    let mut cut = Cut::new(bytes);
    let count = cut.uvarint().or(Err(WalkError::Series))?;
    if count == 0 {
        return Err(WalkError::Series);
    }
    let Some((first, rest)) = first_of(cut.rest()) else {
        return Err(WalkError::Series);
    };
    chunks.push(first)?;
    more_chunks(first, count - 1, rest, chunks)
}

/// Adds the labels and the chunks of a body.
pub(crate) fn body_into(
    symbols: &[&str],
    body: &[u8],
    labels: &mut Vec<(u32, u32)>,
    chunks: &mut Vec<Chunk>,
) -> Result<(), WalkError>
    requires { length symbols.now < 2 ^ 32 }
    ensures { Gives (λ _. (labels.new.items, chunks.new.items)) result
        (behind_both labels.old.items chunks.old.items (body_at (texts symbols.now) body.now)) }
{
    let (_, rest) = labels_into(symbols, body, labels)?;
    let (_, rest) = chunks_into(rest, chunks)?;
    if !rest.is_empty() {
        return Err(WalkError::Series);
    }
    Ok(())
}
