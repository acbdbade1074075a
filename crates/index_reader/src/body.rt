//! A body into flat vectors.

ghost use Rattle.std.specs.Prelude.{◌≡◌, ◌+◌, ◌<◌, ◌≤◌, ◌^◌, length, get_or, slice_get, Ok, true};
ghost use Rattle.std.specs.Prelude.{nat_le, IsTrue, IfOk};
ghost use Rattle.index_reader.specs.Outcome.{Gives};
ghost use Rattle.index_reader.specs.Seen.{bytes_of};
ghost use Rattle.labels.specs.Contents.{is_time};
ghost use Rattle.index_reader.specs.Reading.Steps.{steps, with_front};
ghost use Rattle.index_reader.specs.Reading.Bodies.{is_label, label_at, labels_at, chunk_at};
ghost use Rattle.index_reader.specs.Reading.Bodies.{chunks_at, body_at, behind_both};

use crate::chunk::{Chunk, read_first, read_later};
use crate::error::IndexError;
use crate::symbols::{SymbolTable, role_at};
use wire::Cut;

#[tactic(auto, unfolding(crate::specs::Reading::Bodies::is_label))]
fn is_label(symbols: &SymbolTable<'_>, low: u64, name: u64, value: u64) -> bool
    ensures exact { result ≡ is_label (bytes_of symbols.now.texts.items) low name value }
    ensures within { IsTrue result → (name < length symbols.now.texts.items)
        × (value < length symbols.now.texts.items) }
{
    let count = symbols.texts.len() as u64;
    let within = (low <= name) & (name < count) & (value < count);
    if !within {
        return false;
    }
    role_at(symbols, name as usize).is_name & role_at(symbols, value as usize).is_value
}

#[tactic(auto, unfolding(crate::specs::Reading::Bodies::label_at))]
fn read_label(
    symbols: &SymbolTable<'_>,
    low: u64,
    cut: &mut Cut<'_>,
) -> Result<(u32, u32), IndexError>
    ensures { Gives (λ l. (l, (l.0 + 1, cut.new))) result
        (label_at (bytes_of symbols.now.texts.items) (low, cut.old)) }
{
    let name = cut.uvarint().or(Err(IndexError::Series))?;
    let value = cut.uvarint().or(Err(IndexError::Series))?;
    if !is_label(symbols, low, name, value) {
        return Err(IndexError::Series);
    }
    Ok((name as u32, value as u32))
}

fn more_labels(
    symbols: &SymbolTable<'_>,
    count: u64,
    cut: &mut Cut<'_>,
    labels: &mut Vec<(u32, u32)>,
) -> Result<u64, IndexError>
    ensures { Gives (λ low. (labels.new.items, (low, cut.new))) result
        (with_front labels.old.items
        (steps (label_at (bytes_of symbols.now.texts.items)) count (0, cut.old))) }
{
    let mut low = 0;
    for _ in 0..count {
        let label = read_label(symbols, low, cut)?;
        labels.push(label)?;
        low = u64::from(label.0) + 1;
    }
    Ok(low)
}

/// Adds the labels of a body, and gives the least symbol that a further name may have.
#[tactic(auto, unfolding(crate::specs::Reading::Bodies::labels_at))]
pub fn labels_into(
    symbols: &SymbolTable<'_>,
    cut: &mut Cut<'_>,
    labels: &mut Vec<(u32, u32)>,
) -> Result<u64, IndexError>
    ensures { Gives (λ low. (labels.new.items, (low, cut.new))) result
        (with_front labels.old.items (labels_at (bytes_of symbols.now.texts.items) cut.old)) }
{
    let count = cut.uvarint().or(Err(IndexError::Series))?;
    more_labels(symbols, count, cut, labels)
}

#[tactic(auto, unfolding(crate::specs::Reading::Bodies::chunk_at))]
fn read_chunk(before: Chunk, cut: &mut Cut<'_>) -> Result<Chunk, IndexError>
    requires { is_time before.maxt ≡ true }
    ensures exact { Gives (λ c. (c, (c, cut.new))) result (chunk_at (before, cut.old)) }
    ensures times { IfOk result (λ c. is_time c.maxt ≡ true) }
{
    read_later(before, cut).ok_or(IndexError::Series)
}

fn more_chunks(
    first: Chunk,
    count: u64,
    cut: &mut Cut<'_>,
    chunks: &mut Vec<Chunk>,
) -> Result<Chunk, IndexError>
    requires { is_time first.maxt ≡ true }
    ensures { Gives (λ c. (chunks.new.items, (c, cut.new))) result
        (with_front chunks.old.items (steps chunk_at count (first, cut.old))) }
{
    let mut before = first;
    for _ in 0..count {
        let chunk = read_chunk(before, cut)?;
        chunks.push(chunk)?;
        before = chunk;
    }
    Ok(before)
}

/// Adds the chunks of a body, and gives the last.
#[tactic(auto, using(crate::proofs::Stepping::behind_front), unfolding(crate::specs::Reading::Bodies::chunks_at))]
pub fn chunks_into(cut: &mut Cut<'_>, chunks: &mut Vec<Chunk>) -> Result<Chunk, IndexError>
    ensures { Gives (λ c. (chunks.new.items, (c, cut.new))) result
        (with_front chunks.old.items (chunks_at cut.old)) }
{
    let count = cut.uvarint().or(Err(IndexError::Series))?;
    if count == 0 {
        return Err(IndexError::Series);
    }
    let first = read_first(cut).ok_or(IndexError::Series)?;
    chunks.push(first)?;
    more_chunks(first, count - 1, cut, chunks)
}

/// Adds the labels and the chunks of a body.
pub fn body_into(
    symbols: &SymbolTable<'_>,
    body: &[u8],
    labels: &mut Vec<(u32, u32)>,
    chunks: &mut Vec<Chunk>,
) -> Result<(), IndexError>
    ensures { Gives (λ _. (labels.new.items, chunks.new.items)) result
        (behind_both labels.old.items chunks.old.items
        (body_at (bytes_of symbols.now.texts.items) body.now)) }
{
    let mut cut = Cut::new(body);
    labels_into(symbols, &mut cut, labels)?;
    chunks_into(&mut cut, chunks)?;
    if !cut.is_empty() {
        return Err(IndexError::Series);
    }
    Ok(())
}
