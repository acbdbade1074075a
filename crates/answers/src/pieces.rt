//! The text of rows in pieces. If the rows are many, several threads write a piece each.

ghost use Rattle.std.specs.Prelude.{◌≡◌, [], ◌++◌, IfOk};
ghost use Rattle.std.specs.Thread.{IsSync};
ghost use Rattle.answers.specs.AfterCommas.{run_text};
ghost use Rattle.answers.specs.Body.{row_data, json_list};
ghost use Rattle.answers.specs.Joined.{joined};

use crate::brackets::open_list;
use crate::rows::append_rows_after_commas;
use labels::Row;
use std::alloc::{AllocError, Global};
use std::thread::{Threads, join};

/// How many threads write the rows of one list.
const THREADS: usize = 4;

/// If the text of rows takes about this many bytes or more, several threads write it.
pub(crate) const LONG: usize = 262_144;

/// About as many bytes as rows take. The labels of most rows take 256, and most samples take 24.
pub(crate) fn room_of_rows(rows: &[Row]) -> usize {
    let mut room = 256usize;
    for row in rows {
        let samples = row.samples().len().saturating_mul(24);
        room = room.saturating_add(256).saturating_add(samples);
    }
    room
}

/// A run of rows in one piece. Its first byte comes before the first row, commas come before the
/// others, and its last bytes come behind them. What the room holds is dropped.
fn run_of(
    alloc: Global,
    room: Vec<u8>,
    rows: &[Row],
    first: u8,
    last: &[u8],
) -> Result<Vec<Vec<u8>>, AllocError>
    ensures { IfOk result (λ pieces. joined pieces.items ≡ run_text first rows.now ++ last.now) }
{
    let mut piece = room;
    piece.clear();
    piece.reserve(room_of_rows(rows))?;
    append_rows_after_commas(&mut piece, rows)?;
    open_list(&mut piece, 0, first)?;
    piece.extend_from_slice(last)?;
    let mut pieces = Vec::new(alloc);
    pieces.push(piece)?;
    Ok(pieces)
}

/// A run of rows in as many pieces as threads write it, the calling thread among them. If a thread
/// can't be started, the calling thread does its share.
#[cycle(runs)]
fn runs_of<R: Threads + Sync>(
    rt: &R,
    alloc: Global,
    rows: &[Row],
    first: u8,
    last: &[u8],
    threads: usize,
) -> Result<Vec<Vec<u8>>, AllocError>
    ensures { IfOk result (λ pieces. joined pieces.items ≡ run_text first rows.now ++ last.now) }
{
    let count = rows.len();
    if threads < 2 || count < 2 {
        return run_of(alloc, Vec::new(alloc), rows, first, last);
    }
    let helpers = threads / 2;
    let rest = threads - helpers;
    let (front, back) = rows.split_at(count / 2);
    let early = || -> Result<Vec<Vec<u8>>, AllocError>
        requires { IsSync R.row }
        ensures { IfOk result (λ pieces.
            joined pieces.items ≡ run_text first front.entry.now ++ []) }
    { runs_of(rt, alloc, front, first, b"", helpers) };
    let late = || -> Result<Vec<Vec<u8>>, AllocError>
        requires { IsSync R.row }
        ensures { IfOk result (λ pieces.
            joined pieces.items ≡ run_text 44 back.entry.now ++ last.entry.now) }
    { runs_of(rt, alloc, back, b',', last, rest) };
    let (early, late) = join(rt, early, late);
    let mut pieces = early?;
    let mut more = late?;
    pieces.append(&mut more)?;
    Ok(pieces)
}

/// The text of rows as a list, in pieces. Few rows are one piece, in the room that the caller has
/// at hand, whose bytes are dropped. Many rows are about as many pieces as threads write them.
pub(crate) fn rows_in_pieces<R: Threads + Sync>(
    rt: &R,
    alloc: Global,
    room: Vec<u8>,
    rows: &[Row],
) -> Result<Vec<Vec<u8>>, AllocError>
    ensures { IfOk result (λ pieces. joined pieces.items ≡ json_list row_data rows.now) }
{
    if room_of_rows(rows) >= LONG {
        runs_of(rt, alloc, rows, b'[', b"]", THREADS)
    } else {
        run_of(alloc, room, rows, b'[', b"]")
    }
}
