//! Blocks of Prometheus as inputs.

ghost use Rattle.std.specs.Prelude.{IfOk};
ghost use Rattle.prometheus_block.specs.Series.{IsHeld};
ghost use Rattle.blocktool.specs.Prometheus.{IsGivenBy};

use crate::fault::Fault;
use crate::files::read_file;
use crate::input::{Input, joined};
use block_outputs::{Counts, Stretch};
use imported_values::Form;
use index_reader::{Chunk, Index};
use kept_samples::{KeepError, Tally, Times};
use labels::{LabelSet, Row};
use prometheus_block::{
    Counted, Held, ReadSegments, RowsError, SourceError, Wanted, count_samples, read_rows,
};
use std::alloc::{AllocError, Global};
use std::fs;
use std::io::{self, ErrorKind};
use std::rt::Files;
use tombstones::Tombstones;

/// The segments of a block in a directory.
#[derive(Drop)]
pub(crate) struct Segments<'a, R> {
    rt: &'a R,
    directory: &'a str,
}

fn read_segment<R: Files + AllocGlobal>(
    alloc: Global,
    rt: &R,
    directory: &str,
    number: u64,
) -> io::Result<Vec<u8>> {
    let place = number.saturating_add(1);
    let path = format!(in alloc; "{directory}/chunks/{place:06}")?;
    fs::read(rt, path.as_str())
}

/// No clause can say what the files of a host hold.
impl<'a, R: Files + AllocGlobal> ReadSegments for Segments<'a, R> {
    ghost use Rattle.std.specs.Prelude.{⊤};

    ghost may_read = { λ _ _ _. ⊤ };

    fn read_segment(&self, alloc: Global, number: u64) -> Result<Vec<u8>, SourceError> {
        match read_segment(alloc, self.rt, self.directory, number) {
            Ok(bytes) => Ok(bytes),
            Err(error) if error.kind() == ErrorKind::OutOfMemory => Err(SourceError::Memory),
            Err(_) => Err(SourceError::Unreadable(number)),
        }
    }
}

/// A block of Prometheus: what reads its segments, what its index and its deletions say, and what
/// its values are kept as.
#[derive(Drop)]
pub(crate) struct Source<'a, S> {
    directory: &'a str,
    segments: S,
    index: Index,
    tombstones: Tombstones,
    form: Form,
}

/// The fault of a block that is refused.
fn refused(alloc: Global, directory: &str, error: SourceError) -> Fault {
    if error == SourceError::Memory {
        return Fault::Memory;
    }
    match String::from_str(alloc, directory) {
        Ok(directory) => Fault::Source(directory, error),
        Err(_) => Fault::Memory,
    }
}

fn open_index<R: Files + AllocGlobal>(
    alloc: Global,
    rt: &R,
    directory: &str,
) -> Result<Index, Fault> {
    let file = read_file(alloc, rt, directory, "index")?;
    match Index::open(alloc, file.as_slice()) {
        Ok(index) => Ok(index),
        Err(error) => Err(refused(alloc, directory, SourceError::from(error))),
    }
}

fn open_tombstones<R: Files + AllocGlobal>(
    alloc: Global,
    rt: &R,
    directory: &str,
) -> Result<Tombstones, Fault> {
    let file = read_file(alloc, rt, directory, "tombstones")?;
    match Tombstones::open(alloc, file.as_slice()) {
        Ok(tombstones) => Ok(tombstones),
        Err(error) => Err(refused(alloc, directory, SourceError::from(error))),
    }
}

/// Reads and opens the index and the deletions of the block in a directory.
pub(crate) fn open_source<'a, R: Files + AllocGlobal>(
    alloc: Global,
    rt: &'a R,
    directory: &'a str,
    form: Form,
) -> Result<Source<'a, Segments<'a, R>>, Fault> {
    let index = open_index(alloc, rt, directory)?;
    let tombstones = open_tombstones(alloc, rt, directory)?;
    Ok(Source {
        directory,
        segments: Segments { rt, directory },
        index,
        tombstones,
        form,
    })
}

/// Adds the value of a label, as it is written between quotes.
fn push_value(text: &mut String, value: &str) -> Result<(), AllocError> {
    for c in value.chars() {
        match c {
            '\\' => text.push_str("\\\\")?,
            '"' => text.push_str("\\\"")?,
            '\n' => text.push_str("\\n")?,
            _ => text.push(c)?,
        }
    }
    Ok(())
}

/// The text of a label set, as `{__name__="up",job="a"}`.
fn text_of(alloc: Global, labels: &LabelSet) -> Result<String, AllocError> {
    let mut text = String::from_str(alloc, "{")?;
    for at in 0..labels.len() {
        let (name, value) = labels.pair(at);
        if at > 0 {
            text.push(',')?;
        }
        text.push_str(name)?;
        text.push_str("=\"")?;
        push_value(&mut text, value)?;
        text.push('"')?;
    }
    text.push('}')?;
    Ok(text)
}

/// The text of the label set of the series at a place of an index.
fn series_text(alloc: Global, index: &Index, at: usize) -> Result<String, AllocError> {
    if at >= index.len() {
        return Ok(String::new(alloc));
    }
    let labels = index.labels_at(alloc, at)?;
    text_of(alloc, &labels)
}

fn value_fault(alloc: Global, index: &Index, at: usize, error: KeepError) -> Fault {
    match (error, series_text(alloc, index, at)) {
        (KeepError::Value { reason, t, bits }, Ok(series)) => Fault::Value {
            reason,
            series,
            t,
            bits,
        },
        _ => Fault::Memory,
    }
}

/// The times of a chunk in a range, if there are any.
fn times_within(times: Stretch, chunk: &Chunk) -> Option<Stretch> {
    if chunk.maxt < times.from || times.to < chunk.mint {
        return None;
    }
    Some(Stretch {
        from: chunk.mint.max(times.from),
        to: chunk.maxt.min(times.to),
    })
}

// Counts what a chunk of a block holds, and when.
fn count_chunk<S: ReadSegments>(
    alloc: Global,
    source: &Source<'_, S>,
    held: &mut Held,
    chunk: Chunk,
    counts: &mut Counts,
) -> Result<Counted, Fault>
    requires held { IsHeld (S.may_read source.now.segments) held.old }
    ensures held { IsHeld (S.may_read source.now.segments) held.new }
{
    match count_samples(alloc, &source.segments, held, chunk) {
        Ok(counted) => {
            counts.add(chunk.mint, chunk.maxt, counted.samples);
            Ok(counted)
        }
        Err(error) => Err(refused(alloc, source.directory, error)),
    }
}

// Counts what the chunks of a series hold.
fn count_series<S: ReadSegments>(
    alloc: Global,
    source: &Source<'_, S>,
    held: &mut Held,
    chunks: &[Chunk],
    counts: &mut Counts,
    all: &mut Counted,
) -> Result<(), Fault>
    requires held { IsHeld (S.may_read source.now.segments) held.old }
    ensures held { IsHeld (S.may_read source.now.segments) held.new }
{
    for chunk in chunks {
        let counted = count_chunk(alloc, source, held, *chunk, counts)?;
        all.samples = all.samples.saturating_add(counted.samples);
        all.histograms = all.histograms.saturating_add(counted.histograms);
    }
    counts.end_series();
    Ok(())
}

// Counts what the chunks of a block hold.
fn count_block<S: ReadSegments>(
    alloc: Global,
    source: &Source<'_, S>,
    counts: &mut Counts,
) -> Result<Counted, Fault> {
    let mut held = Held::new();
    let mut all = Counted {
        samples: 0,
        histograms: 0,
    };
    for at in 0..source.index.len() {
        let chunks = source.index.chunks_at(at);
        count_series(alloc, source, &mut held, chunks, counts, &mut all)?;
    }
    counts.end_input();
    Ok(all)
}

// The first and the last time of the chunks of an index in a range, and of others.
fn span_of(index: &Index, times: Stretch, before: Option<Stretch>) -> Option<Stretch> {
    let mut span = before;
    for at in 0..index.len() {
        for chunk in index.chunks_at(at) {
            if let Some(own) = times_within(times, chunk) {
                span = joined(span, own);
            }
        }
    }
    span
}

// The rows of a block in a range.
fn rows_of<S: ReadSegments>(
    alloc: Global,
    source: &Source<'_, S>,
    times: Stretch,
    tally: &mut Tally,
) -> Result<Vec<Row>, Fault>
    ensures { IfOk result (λ rows. IsGivenBy (S.may_read source.now.segments) source.now.index
        source.now.tombstones source.now.form times rows.items tally.old tally.new) }
{
    let wanted = Wanted {
        index: &source.index,
        tombstones: &source.tombstones,
        form: source.form,
        times: Times {
            from: times.from,
            to: times.to,
        },
    };
    match read_rows(alloc, &source.segments, &wanted, tally) {
        Ok(rows) => Ok(rows),
        Err(RowsError::Source(error)) => Err(refused(alloc, source.directory, error)),
        Err(RowsError::Value(at, error)) => Err(value_fault(alloc, &source.index, at, error)),
    }
}

impl<'a, S: ReadSegments> Input for Source<'a, S> {
    ghost may_give = { λ source times rows old new.
        IsGivenBy (S.may_read source.segments) source.index source.tombstones source.form times
        rows old new };

    fn rows_in(&self, alloc: Global, times: Stretch, tally: &mut Tally) -> Result<Vec<Row>, Fault> {
        rows_of(alloc, self, times, tally)
    }

    fn span(&self, times: Stretch, before: Option<Stretch>) -> Option<Stretch> {
        span_of(&self.index, times, before)
    }

    fn count(&self, alloc: Global, counts: &mut Counts) -> Result<Counted, Fault> {
        count_block(alloc, self, counts)
    }
}
