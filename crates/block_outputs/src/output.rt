//! Rows as the directory of a block.

ghost use Rattle.std.specs.Prelude.{◌≡◌, ◌^◌, ◌-◌, min, [], Some, IfOk, IfNone, OnOk};
ghost use Rattle.std.specs.Prelude.{string_bytes};
ghost use Rattle.std.specs.List.{list_all};
ghost use Rattle.block.specs.Metas.{range_said};
ghost use Rattle.block_folder.specs.Blocks.{IsPlace};
ghost use Rattle.block_folder.specs.Meanings.{values_said};
ghost use Rattle.block_writer.specs.SpellRows.{AreWithin};
ghost use Rattle.block_outputs.specs.Writing.{samples_in, are_inside, is_within, are_within};
ghost use Rattle.block_outputs.specs.Writing.{Writes, WritesBlock};

use crate::error::OutputError;
use crate::naming::{output_name, unfinished_name};
use block::Range;
use block_folder::{Disk, Files, Place, Values, meta_text, write_block};
use block_writer::{PartRows, write_pieces};
use labels::{Row, Sample};
use std::alloc::{AllocError, Global};

/// The most series of a block, and the most samples of a series.
const MOST: usize = 1_048_576;

/// What rows have.
#[derive(Clone, Copy, Debug, PartialEq, Eq, Drop)]
pub struct Extent {
    /// How many they are.
    pub series: usize,
    /// How many samples they have.
    pub samples: u64,
    /// The first time, in milliseconds.
    pub first: i64,
    /// The last time.
    pub last: i64,
}

/// An output that was written.
#[derive(Debug, Drop)]
pub struct Output {
    /// Its directory.
    pub name: String,
    /// What it has.
    pub extent: Extent,
}

/// How many samples rows have, up to the greatest number.
pub fn count_samples(rows: &[Row]) -> u64
    ensures { result ≡ min (samples_in rows.now) (2 ^ 64 - 1) }
{
    let mut count = 0u64;
    for row in rows {
        count = count.saturating_add(row.samples().len() as u64);
    }
    count
}

/// The first and the last time of rows, if they have a sample.
fn ends_of(rows: &[Row]) -> Option<(i64, i64)> {
    let mut ends: Option<(i64, i64)> = None;
    for row in rows {
        let (Some(first), Some(last)) = (row.samples().first(), row.samples().last()) else {
            continue;
        };
        ends = Some(match ends {
            Some((from, to)) => (from.min(first.t()), to.max(last.t())),
            None => (first.t(), last.t()),
        });
    }
    ends
}

fn are_inside(range: Range, samples: &[Sample]) -> bool
    ensures { result ≡ are_inside range samples.now }
{
    samples.iter().all(|sample| range.covers(sample.t()))
}

fn is_within(range: Range, row: &Row) -> bool
    ensures { result ≡ is_within range row.now }
{
    row.samples().len() <= MOST && are_inside(range, row.samples())
}

fn is_each_within(range: Range, rows: &[Row]) -> bool
    ensures { result ≡ list_all (is_within range) rows.now }
{
    rows.iter().all(|row| is_within(range, row))
}

/// Whether a block of a range may have rows: at most 1,048,576, each of as many samples, whose
/// times lie in the range.
pub fn are_within(range: Range, rows: &[Row]) -> bool
    ensures { result ≡ are_within range rows.now }
{
    rows.len() <= MOST && is_each_within(range, rows)
}

/// The range of a block with rows that begin and end at these times.
#[tactic(auto, using(crate::proofs::Within::rows_within))]
fn range_for(first: i64, last: i64, rows: &[Row]) -> Result<Range, OutputError>
    ensures { IfOk result (λ range. AreWithin range rows.now) }
{
    let Some(range) = Range::new(first, last.saturating_add(1)) else {
        return Err(OutputError::TooLarge);
    };
    if !are_within(range, rows) {
        return Err(OutputError::TooLarge);
    }
    Ok(range)
}

fn meta_for(
    alloc: Global,
    range: Range,
    extent: Extent,
    digits: u32,
    values: Values,
) -> Result<String, OutputError>
    ensures range { IfOk result (λ text. range_said (string_bytes text) ≡ Some range) }
    ensures values { IfOk result (λ text. values_said (string_bytes text) ≡ Some values) }
{
    let Extent {
        series,
        samples,
        ..
    } = extent;
    match meta_text(alloc, range, series, samples, digits, values)? {
        Some(text) => Ok(text),
        None => Err(OutputError::TooLarge),
    }
}

/// The names of a block's directory, and of the one in which it stands.
#[derive(Clone, Copy, Debug, Drop)]
struct Names<'a> {
    into: &'a str,
    block: &'a str,
    unfinished: &'a str,
}

/// Writes the block of rows in a range.
fn write_in<D: Disk>(
    alloc: Global,
    disk: &mut D,
    names: &Names<'_>,
    range: Range,
    values: Values,
    meta: &str,
    rows: PartRows,
) -> Result<(), OutputError>
    requires place { IsPlace (record {
      parent = names.now.into;
      block = names.now.block;
      unfinished = names.now.unfinished;
    }) }
    requires within { AreWithin range rows }
    requires said { range_said meta.now ≡ Some range }
    requires meaning { values_said meta.now ≡ Some values }
    ensures { OnOk result
        (WritesBlock D.did names.now.into.now values rows disk.old disk.new) }
{
    // For the proof alone: the call says that the range begins below its end.
    let _ = range.min();
    let bytes = write_pieces(alloc, rows)?;
    let place = Place {
        parent: names.into,
        block: names.block,
        unfinished: names.unfinished,
    };
    let files = Files {
        meta: meta.as_bytes(),
        index: bytes.index.as_slice(),
        chunks: bytes.chunks.as_slice(),
        tombstones: bytes.tombstones.as_slice(),
    };
    write_block(alloc, disk, place, files)?;
    Ok(())
}

/// Writes rows as the block `INTO/NNNN` of this number, and gives its name and what it has; where
/// there is no row nothing is written. Its `meta.json` says how many digits after the point the
/// values have, and what they mean. `TooLarge` where the rows are more than a block may have, or
/// the last time is the greatest of all; `Disk` where a call of the disk fails, after which no
/// further is made. The rows are let go while their chunks are written.
pub fn write_output<D: Disk>(
    alloc: Global,
    disk: &mut D,
    into: &str,
    number: usize,
    digits: u32,
    values: Values,
    rows: PartRows,
) -> Result<Option<Output>, OutputError>
    // Nothing is told of no rows alone.
    ensures none { IfOk result (λ output. IfNone output (rows ≡ [])) }
    // A block of exactly the rows is written, which are no more than a block may have: at whatever
    // moment the machine stops, its directory has all of it or is not there. For no row nothing is
    // called.
    ensures written { OnOk result (Writes D.did into.now values rows disk.old disk.new) }
{
    if rows.rows().is_empty() {
        return Ok(None);
    }
    let Some((first, last)) = ends_of(rows.rows()) else {
        return Err(OutputError::TooLarge);
    };
    let extent = Extent {
        series: rows.rows().len(),
        samples: count_samples(rows.rows()),
        first,
        last,
    };
    let range = range_for(first, last, rows.rows())?;
    let meta = meta_for(alloc, range, extent, digits, values)?;
    let name = output_name(alloc, into, number)?;
    let unfinished = unfinished_name(alloc, into, number)?;
    let names = Names {
        into,
        block: name.as_str(),
        unfinished: unfinished.as_str(),
    };
    write_in(alloc, disk, &names, range, values, meta.as_str(), rows)?;
    Ok(Some(Output { name, extent }))
}
