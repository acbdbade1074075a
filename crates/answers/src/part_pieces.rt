//! What an answer says of parts, in pieces. If a part has many rows, several threads write a piece
//! of it each.

ghost use Rattle.std.specs.Prelude.{◌≡◌, ◌∷◌, ◌++◌, IfOk, OnOk, codes};
ghost use Rattle.serde_json.specs.Written.{compact_text};
ghost use Rattle.answers.specs.AfterCommas.{after_commas, searched_front, searched_back};
ghost use Rattle.answers.specs.Body.{json_list, part_data, searched_data, skipped_data};
ghost use Rattle.answers.specs.Joined.{joined};

use crate::parts::{append_searched_back, append_searched_front, append_skipped};
use crate::pieces::rows_in_pieces;
use crate::told::with_pieces;
use block_search::AnsweredPart;
use cover::PartAnswer;
use postings::PartName;
use std::alloc::{AllocError, Global};
use std::thread::Threads;

/// What an answer says of a part before its rows, behind a byte.
fn front_of(alloc: Global, first: u8, answer: &PartAnswer) -> Result<Vec<u8>, AllocError>
    ensures { IfOk result (λ text. text.items ≡ first ∷ searched_front answer.now) }
{
    let mut text = Vec::new(alloc);
    text.push(first)?;
    append_searched_front(alloc, &mut text, answer)?;
    Ok(text)
}

/// What an answer says of a part behind its rows.
fn back_of(alloc: Global, answer: &PartAnswer) -> Result<Vec<u8>, AllocError>
    ensures { IfOk result (λ text. text.items ≡ searched_back answer.now) }
{
    let mut text = Vec::new(alloc);
    append_searched_back(&mut text, answer)?;
    Ok(text)
}

/// What an answer says of a part that was searched, behind a byte.
fn searched_in_pieces<R: Threads + Sync>(
    rt: &R,
    alloc: Global,
    first: u8,
    answer: &PartAnswer,
) -> Result<Vec<Vec<u8>>, AllocError>
    ensures { IfOk result (λ pieces.
        joined pieces.items ≡ first ∷ compact_text (searched_data answer.now)) }
{
    let front = front_of(alloc, first, answer)?;
    let rows = rows_in_pieces(rt, alloc, Vec::new(alloc), answer.rows.as_slice())?;
    let mut pieces = with_pieces(alloc, front, rows)?;
    pieces.push(back_of(alloc, answer)?)?;
    Ok(pieces)
}

/// The text that a part is skipped, behind a byte.
fn skipped_in_pieces(alloc: Global, first: u8, name: PartName) -> Result<Vec<Vec<u8>>, AllocError>
    ensures { IfOk result (λ pieces.
        joined pieces.items ≡ first ∷ compact_text (skipped_data name)) }
{
    let mut text = Vec::new(alloc);
    text.push(first)?;
    append_skipped(alloc, &mut text, name)?;
    with_pieces(alloc, text, Vec::new(alloc))
}

/// What an answer says of a part, behind a byte.
fn part_in_pieces<R: Threads + Sync>(
    rt: &R,
    alloc: Global,
    first: u8,
    part: &AnsweredPart,
) -> Result<Vec<Vec<u8>>, AllocError>
    ensures { IfOk result (λ pieces.
        joined pieces.items ≡ first ∷ compact_text (part_data part.now)) }
{
    match part {
        AnsweredPart::Searched(answer) => searched_in_pieces(rt, alloc, first, answer),
        AnsweredPart::Skipped(name) => skipped_in_pieces(alloc, first, *name),
    }
}

/// Adds what an answer says of each part, with a comma before it.
fn push_parts<R: Threads + Sync>(
    rt: &R,
    alloc: Global,
    pieces: &mut Vec<Vec<u8>>,
    parts: &[AnsweredPart],
) -> Result<(), AllocError>
    ensures { OnOk result (joined pieces.new.items
        ≡ joined pieces.old.items ++ after_commas part_data parts.now) }
{
    for part in parts {
        let mut more = part_in_pieces(rt, alloc, b',', part)?;
        pieces.append(&mut more)?;
    }
    Ok(())
}

/// Adds a text.
fn push_text(alloc: Global, pieces: &mut Vec<Vec<u8>>, text: &[u8]) -> Result<(), AllocError>
    ensures { OnOk result (joined pieces.new.items ≡ joined pieces.old.items ++ text.now) }
{
    pieces.push(text.to_vec(alloc)?)?;
    Ok(())
}

/// Adds what an answer says of each part as a list.
fn push_list<R: Threads + Sync>(
    rt: &R,
    alloc: Global,
    pieces: &mut Vec<Vec<u8>>,
    parts: &[AnsweredPart],
) -> Result<(), AllocError>
    ensures { OnOk result (joined pieces.new.items
        ≡ joined pieces.old.items ++ json_list part_data parts.now) }
{
    let Some((one, later)) = parts.split_first() else {
        return push_text(alloc, pieces, b"[]");
    };
    let mut more = part_in_pieces(rt, alloc, b'[', one)?;
    pieces.append(&mut more)?;
    push_parts(rt, alloc, pieces, later)?;
    push_text(alloc, pieces, b"]")
}

/// The text of an answer up to the rows of all parts, in pieces.
pub(crate) fn parts_in_pieces<R: Threads + Sync>(
    rt: &R,
    alloc: Global,
    parts: &[AnsweredPart],
) -> Result<Vec<Vec<u8>>, AllocError>
    ensures { IfOk result (λ pieces. joined pieces.items
        ≡ codes "{\"parts\":" ++ (json_list part_data parts.now ++ codes ",\"rows\":")) }
{
    let mut pieces = Vec::new(alloc);
    push_text(alloc, &mut pieces, b"{\"parts\":")?;
    push_list(rt, alloc, &mut pieces, parts)?;
    push_text(alloc, &mut pieces, b",\"rows\":")?;
    Ok(pieces)
}
