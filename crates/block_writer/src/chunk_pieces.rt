//! The chunks file in pieces, which take the room of the rows that they are made of.

ghost use Rattle.std.specs.Prelude.{◌≡◌, ◌≤◌, ◌++◌, ◌∷◌, [], reverse, vec_len, OnOk, IfOk};
ghost use Rattle.std.specs.List.{flat_map};
ghost use Rattle.block_writer.specs.Typed.{Have64Bits};
ghost use Rattle.block_writer.specs.Writing.{chunks_text, rows_text, series_text};

use crate::chunks::{HEAD, put_series};
use crate::file_length::series_len;
use crate::limits::MAX_LEN;
use labels::Row;
use std::alloc::{AllocError, Global};
use wire::put_bytes;

/// A piece that has so many bytes takes no further row.
const ROOM: usize = 0x1_0000;

/// The bytes of the chunks file, as [`chunks_file`](crate::chunks::chunks_file) gives them, in
/// pieces. Each row is let go once its chunks are written, so that it takes little more memory than
/// the rows took.
pub(crate) fn chunk_pieces(alloc: Global, rows: Vec<Row>) -> Result<Vec<Vec<u8>>, AllocError>
    ensures spelled { IfOk result (λ pieces.
        flat_map (λ piece. piece.items) pieces.items ≡ chunks_text rows.items) }
    ensures typed { OnOk result (Have64Bits rows.items) }
{
    let mut left = rows;
    left.reverse();
    let mut pieces = Vec::new(alloc);
    pieces.push(head_of(alloc)?)?;
    while let Some(row) = left.pop() {
        let piece = piece_of(alloc, &row, &mut left)?;
        pieces.push(piece)?;
    }
    Ok(pieces)
}

fn head_of(alloc: Global) -> Result<Vec<u8>, AllocError>
    ensures { IfOk result (λ head.
        head.items ≡ 0x85 ∷ 0xBD ∷ 0x40 ∷ 0xDD ∷ 1 ∷ 0 ∷ 0 ∷ 0 ∷ []) }
{
    let mut head = Vec::new(alloc);
    put_bytes(&mut head, &HEAD)?;
    Ok(head)
}

// The chunks of a row, and of the rows that follow: of those left the last is the next.
fn piece_of(alloc: Global, row: &Row, left: &mut Vec<Row>) -> Result<Vec<u8>, AllocError>
    ensures text { IfOk result (λ piece. piece.items ++ rows_text (reverse left.new.items)
        ≡ series_text row.now.1 ++ rows_text (reverse left.old.items)) }
    ensures typed { OnOk result (Have64Bits (reverse left.new.items)
        → Have64Bits (row.now ∷ reverse left.old.items)) }
    ensures fewer { OnOk result (vec_len left.new ≤ vec_len left.old) }
{
    let mut piece = Vec::with_capacity(alloc, room_for(row, left.as_slice()))?;
    put_series(&mut piece, row.samples())?;
    while piece.len() < ROOM {
        let Some(next) = left.pop() else {
            return Ok(piece);
        };
        put_series(&mut piece, next.samples())?;
    }
    Ok(piece)
}

// How many bytes the piece has that begins with a row.
fn room_for(row: &Row, left: &[Row]) -> usize {
    let mut room = len_of(row);
    for passed in 0..left.len() {
        if room >= ROOM {
            return room;
        }
        room = room.saturating_add(len_of(&left[left.len() - 1 - passed]));
    }
    room
}

fn len_of(row: &Row) -> usize {
    series_len(row.samples().len().min(MAX_LEN))
}
