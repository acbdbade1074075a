//! What blocks of this project have.

use crate::fault::Fault;
use crate::own_blocks::{Opened, open_own};
use crate::target::send;
use labels::{Row, SeriesRef};
use std::alloc::{AllocError, Global};
use std::io::Write;
use std::rt::Files;

/// The pairs of a name and a value of rows, each once, ascending.
fn pairs_of<'a>(
    alloc: Global,
    rows: &'a [(SeriesRef, Row)],
) -> Result<Vec<(&'a str, &'a str)>, AllocError> {
    let mut pairs = Vec::new(alloc);
    for listed in rows {
        let labels = listed.1.labels();
        for at in 0..labels.len() {
            pairs.push(labels.pair(at))?;
        }
    }
    pairs.sort_unstable();
    pairs.dedup();
    Ok(pairs)
}

/// As `mine/0001: 10 series 1200 samples, 1700006400000 to 1700008185001, 0 deleted, 20841 bytes`.
/// The range is that of the block's `meta.json`.
fn line_of(alloc: Global, directory: &str, opened: &Opened) -> Result<String, AllocError> {
    let range = opened.block.range();
    let (first, last) = (range.min(), range.max().saturating_sub(1));
    let series = opened.block.series_count();
    let samples = opened.block.sample_count();
    let (deleted, bytes) = (opened.deleted, opened.bytes);
    format!(in alloc;
        "{directory}: {series} series {samples} samples, {first} to {last}, \
         {deleted} deleted, {bytes} bytes\n"
    )
}

/// As `  job: 3 values`, for each name.
fn names_of(alloc: Global, pairs: &[(&str, &str)]) -> Result<String, AllocError> {
    let mut text = String::new(alloc);
    let mut count = 0u64;
    for at in 0..pairs.len() {
        let name = pairs[at].0;
        count = count.saturating_add(1);
        let is_last = match pairs.get(at.saturating_add(1)) {
            Some(next) => next.0 != name,
            None => true,
        };
        if is_last {
            let line = format!(in alloc; "  {name}: {count} values\n")?;
            text.push_str(line.as_str())?;
            count = 0;
        }
    }
    Ok(text)
}

/// Lists what the blocks in directories have. For each block these are its range, series, samples,
/// how many are deleted and how many bytes it has, and for each name of labels how many values.
pub(crate) fn list<R: Files + AllocGlobal, W: Write>(
    alloc: Global,
    rt: &R,
    directories: &[&str],
    out: &mut W,
) -> Result<(), Fault> {
    for directory in directories {
        let opened = open_own(alloc, rt, *directory)?;
        let line = line_of(alloc, *directory, &opened)?;
        send(out, line.as_str())?;
        let rows = opened.block.list_all(alloc)?;
        let pairs = pairs_of(alloc, rows.as_slice())?;
        let names = names_of(alloc, pairs.as_slice())?;
        send(out, names.as_str())?;
    }
    Ok(())
}
