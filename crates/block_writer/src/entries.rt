//! The series entries.

ghost use Rattle.std.specs.Prelude.{◌≡◌, ◌≤◌, ◌++◌, length, IfErr, IfOk, OnOk};
ghost use Rattle.std.specs.List.Sorted.{IsStrictlySortedBy};
ghost use Rattle.index_reader.specs.Grammar.{entry};
ghost use Rattle.index_reader.specs.Seen.{bytes_of};
ghost use Rattle.labels.specs.Labels.{text_cmp};
ghost use Rattle.block_writer.specs.EntryBodies.{bodies_of};
ghost use Rattle.block_writer.specs.IndexText.{padded, references_from, with_entries};
ghost use Rattle.block_writer.specs.Writing.{chunks_text};
ghost use Rattle.block_writer.specs.Written.{limit, IsReason};

use crate::body::put_body;
use crate::error::WriteError;
use crate::limits::MAX_LEN;
use crate::near::NearLabels;
use labels::Row;
use std::alloc::{AllocError, Global};
use wire::{crc32c, put_be32, put_bytes, put_uvarint};

/// Appends the entries of rows, each at a multiple of 16, and gives their references.
pub fn put_entries(
    alloc: Global,
    out: &mut Vec<u8>,
    symbols: &[&str],
    rows: &[Row],
) -> Result<Vec<u32>, WriteError>
    requires ascending { IsStrictlySortedBy text_cmp (bytes_of symbols.now) }
    requires within { length (chunks_text rows.now) ≤ limit }
    ensures text { OnOk result (out.new.items
        ≡ with_entries out.old.items (bodies_of (bytes_of symbols.now) 8 rows.now)) }
    ensures references { IfOk result (λ v. v.items
        ≡ references_from (length out.old.items) (bodies_of (bytes_of symbols.now) 8 rows.now)) }
    ensures reason { IfErr result
        (IsReason (with_entries out.old.items (bodies_of (bytes_of symbols.now) 8 rows.now))) }
{
    let mut references = Vec::new(alloc);
    let mut place = 8;
    let mut body = Vec::new(alloc);
    let mut near = NearLabels::new(alloc);
    for row in rows {
        body.clear();
        place = put_body(alloc, &mut body, symbols, row, place, &mut near)?;
        pad(out)?;
        if out.len() > MAX_LEN {
            return Err(WriteError::Limit);
        }
        references.push((out.len() / 16) as u32)?;
        put_entry(out, &body)?;
    }
    Ok(references)
}

/// Appends zero bytes up to the next multiple of 16.
pub fn pad(out: &mut Vec<u8>) -> Result<(), AllocError>
    ensures { OnOk result (out.new.items ≡ padded out.old.items) }
{
    let end = (out.len() + 15) / 16 * 16;
    out.resize(end, 0)
}

fn put_entry(out: &mut Vec<u8>, body: &[u8]) -> Result<(), AllocError>
    ensures { OnOk result (out.new.items ≡ out.old.items ++ entry body.now) }
{
    put_uvarint(out, body.len() as u64)?;
    put_bytes(out, body)?;
    put_be32(out, crc32c(body))
}
