//! Blocks that are made by a rule; below, what blocks lend. What is refused of their
//! files stands in `case_files`.

mod lent_lists;
mod opened_blocks;

use crate::draft::{Draft, align};
use crate::files::{CHUNKS, INDEX, SEGMENT, deletions_of, put_chunk};
use block::{Block, Range};
use std::alloc::{AllocError, Global};

/// The block of these files in a range, with these deletions, or the code of its refusal.
fn opened(
    alloc: Global,
    range: (i64, i64),
    index: &[u8],
    chunks: Vec<u8>,
    entries: &[u8],
) -> Result<Block, &'static str> {
    let Some(range) = Range::new(range.0, range.1) else {
        return Err("no range");
    };
    let Some(deletions) = deletions_of(alloc, entries) else {
        return Err("no memory");
    };
    match Block::open(alloc, range, index, chunks, &deletions) {
        Ok(block) => Ok(block),
        Err(error) => Err(error.code()),
    }
}

/// The worked block in a range, with these deletions.
fn worked(alloc: Global, range: (i64, i64), entries: &[u8]) -> Result<Block, &'static str> {
    match CHUNKS.to_vec(alloc) {
        Ok(chunks) => opened(alloc, range, INDEX, chunks, entries),
        Err(_) => Err("no memory"),
    }
}

/// The content of a chunk of so many samples from a time on, a millisecond apart. Each value is 7.
fn sevens(alloc: Global, from: u64, count: u64) -> Result<Vec<u8>, AllocError> {
    let mut content = Vec::from_array(alloc, [0xE0])?;
    let spelled = u16::try_from(count).unwrap_or(0).to_be_bytes();
    content.extend_from_slice(&spelled)?;
    for i in 0..count {
        content.extend_from_slice(&from.saturating_add(i).to_be_bytes())?;
        content.extend_from_slice(&[0, 0, 0, 0, 0, 0, 0, 7])?;
    }
    Ok(content)
}

/// A chunks file of one series with samples at the times 0, 1, .., in chunks of these lengths; and
/// behind what `body` has the numbers that spell these chunks in the series' body.
fn put_counted(alloc: Global, body: &mut Vec<u64>, lengths: &[u64]) -> Result<Vec<u8>, AllocError> {
    let mut chunks = SEGMENT.to_vec(alloc)?;
    let mut time = 0u64;
    let mut before = 0u64;
    for length in lengths {
        let place = chunks.len() as u64;
        let last = length.saturating_sub(1);
        if time == 0 {
            body.extend_from_slice(&[0, last, place])?;
        } else {
            let distance = place.saturating_sub(before);
            body.extend_from_slice(&[1, last, distance.saturating_mul(2)])?;
        }
        before = place;
        put_chunk(&mut chunks, &sevens(alloc, time, *length)?)?;
        time = time.saturating_add(*length);
    }
    Ok(chunks)
}

/// The index of one series without labels, whose reference is 2 and whose body is spelled by these
/// numbers.
fn one_series(alloc: Global, body: &[u64]) -> Result<Vec<u8>, AllocError> {
    let mut draft = Draft::new(alloc, &[])?;
    align(&mut draft.file)?;
    draft.contents[1] = draft.file.len() as u64;
    let reference = draft.series(alloc, body)?;
    draft.list(alloc, &[("", "")], &[reference])?;
    draft.whole(alloc)
}

/// The block from 0 up to a time of a series with samples in chunks of these lengths, with these
/// deletions.
fn counted(
    alloc: Global,
    lengths: &[u64],
    entries: &[u8],
    until: i64,
) -> Result<Block, &'static str> {
    let Ok(mut body) = Vec::from_array(alloc, [0, lengths.len() as u64]) else {
        return Err("no memory");
    };
    let Ok(chunks) = put_counted(alloc, &mut body, lengths) else {
        return Err("no memory");
    };
    match one_series(alloc, &body) {
        Ok(index) => opened(alloc, (0, until), &index, chunks, entries),
        Err(_) => Err("no memory"),
    }
}
