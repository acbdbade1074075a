//! The chunks file.

ghost use Rattle.std.specs.Prelude.{◌≡◌, ◌≤◌, ◌++◌, length, take, drop, OnOk, IfOk};
ghost use Rattle.std.specs.List.{All};
ghost use Rattle.block_writer.specs.Typed.{Have64Bits, IsOf64Bits};
ghost use Rattle.block_writer.specs.Writing.{chunks_text, series_text};

use crate::chunk::put_chunk;
use crate::part_rows::PartRows;
use labels::Sample;
use std::alloc::{AllocError, Global};
use wire::put_bytes;

pub(crate) const HEAD: [u8; 8] = [0x85, 0xBD, 0x40, 0xDD, 0x01, 0x00, 0x00, 0x00];

/// How many samples a chunk has, where it is not the last of its series.
pub(crate) const PIECE: usize = 120;

/// The bytes of the chunks file: the chunks of the rows in their order, 120 samples a chunk, the
/// last of a row with what is left, nothing between them. It takes time and memory in proportion to
/// the samples.
pub(crate) fn chunks_file(alloc: Global, rows: &PartRows) -> Result<Vec<u8>, AllocError>
    ensures spelled { IfOk result (λ file. file.items ≡ chunks_text rows.now) }
    ensures typed { OnOk result (Have64Bits rows.now) }
{
    let mut file = Vec::new(alloc);
    put_bytes(&mut file, &HEAD)?;
    for row in rows.rows() {
        put_series(&mut file, row.samples())?;
    }
    Ok(file)
}

/// Appends the chunks of a series.
pub(crate) fn put_series(out: &mut Vec<u8>, samples: &[Sample]) -> Result<(), AllocError>
    ensures text { OnOk result (out.new.items ≡ out.old.items ++ series_text samples.now) }
    ensures typed { OnOk result (All IsOf64Bits samples.now) }
{
    let mut rest = samples;
    while !rest.is_empty() {
        let (piece, after) = first_piece(rest);
        put_chunk(out, piece)?;
        rest = after;
    }
    Ok(())
}

/// The first 120 samples, and those after them.
pub fn first_piece(samples: &[Sample]) -> (&[Sample], &[Sample])
    ensures front { result.0.now ≡ take 120 samples.now }
    ensures back { result.1.now ≡ drop 120 samples.now }
    ensures few { length result.0.now ≤ 120 }
{
    if samples.len() <= PIECE {
        (samples, &[])
    } else {
        samples.split_at(PIECE)
    }
}
