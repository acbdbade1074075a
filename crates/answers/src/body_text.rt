//! The text of an answer.
//!
//! Each item of a list is written with a comma before it. The first comma then becomes the opening
//! bracket.

ghost use Rattle.std.specs.Prelude.{◌≡◌, ◌+◌, ◌++◌, ◌∷◌, OnOk, IfOk, codes, length};
ghost use Rattle.block_search.specs.declared.answered.AnsweredPart.TheVariants.{Searched};
ghost use Rattle.answers.specs.AfterCommas.{after_commas, searched_front, searched_back};
ghost use Rattle.answers.specs.AfterCommas.{with_bracket};
ghost use Rattle.answers.specs.Body.{body_text, json_list, part_data};
ghost use Rattle.answers.specs.Joined.{joined};
ghost use Rattle.answers.specs.Kept.{whole_of};
ghost use Rattle.answers.specs.MergedRows.{rows_of};

use crate::audited::AuditedAnswer;
use crate::brackets::open_list;
use crate::part_pieces::parts_in_pieces;
use crate::parts::{
    append_parts, append_parts_after_commas, append_searched_back, append_searched_front,
};
use crate::pieces::{LONG, room_of_rows, rows_in_pieces};
use crate::rows::append_rows;
use crate::text_pieces::AnswerText;
use crate::told::{told_behind, told_once, told_twice};
use block_search::AnsweredPart;
use cover::PartAnswer;
use labels::Row;
use std::alloc::{AllocError, Global};
use std::thread::Threads;

/// About as many bytes as a certificate takes: an interval with its separator takes 80.
fn room_of_certificate(answer: &PartAnswer) -> usize {
    let intervals = answer.cover.certificate.len();
    intervals.saturating_mul(80).saturating_add(256)
}

/// About as many bytes as the parts take.
fn room_of(parts: &[AnsweredPart]) -> usize {
    let mut room = 256usize;
    for part in parts {
        room = room.saturating_add(match part {
            AnsweredPart::Searched(answer) => {
                room_of_rows(answer.rows.as_slice()).saturating_add(room_of_certificate(answer))
            }
            AnsweredPart::Skipped(_) => 64,
        });
    }
    room
}

/// The text of an answer up to the rows of all parts, in room that is at hand.
fn front_of_all(alloc: Global, room: Vec<u8>, parts: &[AnsweredPart]) -> Result<Vec<u8>, AllocError>
    ensures { IfOk result (λ text. text.items
        ≡ codes "{\"parts\":" ++ (json_list part_data parts.now ++ codes ",\"rows\":")) }
{
    let mut text = room;
    text.clear();
    text.reserve(room_of(parts))?;
    text.extend_from_slice(b"{\"parts\":")?;
    append_parts(alloc, &mut text, parts)?;
    text.extend_from_slice(b",\"rows\":")?;
    Ok(text)
}

/// The text of an answer up to the rows of a part, in room that is at hand.
fn front_of_one(
    alloc: Global,
    room: Vec<u8>,
    before: &[AnsweredPart],
    answer: &PartAnswer,
) -> Result<Vec<u8>, AllocError>
    ensures { IfOk result (λ text. text.items ≡ codes "{\"parts\":"
        ++ with_bracket 91 (after_commas part_data before.now ++ 44 ∷ searched_front answer.now)) }
{
    let mut text = room;
    text.clear();
    text.reserve(room_of(before).saturating_add(room_of_certificate(answer)))?;
    text.extend_from_slice(b"{\"parts\":")?;
    let start = text.len();
    append_parts_after_commas(alloc, &mut text, before)?;
    text.push(b',')?;
    append_searched_front(alloc, &mut text, answer)?;
    open_list(&mut text, start, b'[')?;
    Ok(text)
}

/// The text of an answer between the rows of a part and those of all parts.
fn between_rows(
    alloc: Global,
    answer: &PartAnswer,
    later: &[AnsweredPart],
) -> Result<Vec<u8>, AllocError>
    ensures { IfOk result (λ text. text.items
        ≡ searched_back answer.now ++ (after_commas part_data later.now ++ codes "],\"rows\":")) }
{
    let mut text = Vec::with_capacity(alloc, room_of(later))?;
    append_searched_back(&mut text, answer)?;
    append_parts_after_commas(alloc, &mut text, later)?;
    text.extend_from_slice(b"],\"rows\":")?;
    Ok(text)
}

/// The text of an answer whose rows are those of one part.
fn text_of_one<R: Threads + Sync>(
    rt: &R,
    alloc: Global,
    rooms: Rooms,
    before: &[AnsweredPart],
    answer: &PartAnswer,
    later: &[AnsweredPart],
) -> Result<AnswerText, AllocError>
    ensures { IfOk result (λ text. whole_of text
        ≡ body_text (before.now ++ Searched answer.now ∷ later.now) answer.now.rows.items) }
{
    let front = front_of_one(alloc, rooms.text, before, answer)?;
    let rows = rows_in_pieces(rt, alloc, rooms.rows, answer.rows.as_slice())?;
    let between = between_rows(alloc, answer, later)?;
    told_twice(alloc, front, rows, between)
}

/// The text of an answer with these rows of all parts.
fn text_of_all<R: Threads + Sync>(
    rt: &R,
    alloc: Global,
    rooms: Rooms,
    parts: &[AnsweredPart],
    rows: &[Row],
) -> Result<AnswerText, AllocError>
    ensures { IfOk result (λ text. whole_of text ≡ body_text parts.now rows.now) }
{
    let front = front_of_all(alloc, rooms.text, parts)?;
    let rows = rows_in_pieces(rt, alloc, rooms.rows, rows)?;
    told_once(alloc, front, rows)
}

/// The same if the rows of several parts are many: several threads write those of each.
fn long_text_of_all<R: Threads + Sync>(
    rt: &R,
    alloc: Global,
    parts: &[AnsweredPart],
    rows: &[Row],
) -> Result<AnswerText, AllocError>
    ensures { IfOk result (λ text. whole_of text ≡ body_text parts.now rows.now) }
{
    let front = parts_in_pieces(rt, alloc, parts)?;
    let rows = rows_in_pieces(rt, alloc, Vec::new(alloc), rows)?;
    told_behind(front, rows)
}

/// Room that a caller has at hand for the text of an answer. What it holds is dropped.
#[derive(Drop)]
pub struct Rooms {
    /// For what an answer says beside rows.
    pub text: Vec<u8>,
    /// For rows that one thread writes.
    pub rows: Vec<u8>,
}

impl Rooms {
    /// No room.
    pub fn none(alloc: Global) -> Rooms {
        Rooms {
            text: Vec::new(alloc),
            rows: Vec::new(alloc),
        }
    }
}

/// The text of an answer as [`body`] gives it, in pieces. If it is long, up to four threads write
/// them. If all rows are those of one part, they are written once, and are in memory once.
pub fn answer_text<R: Threads + Sync>(
    rt: &R,
    alloc: Global,
    rooms: Rooms,
    answer: &AuditedAnswer,
) -> Result<AnswerText, AllocError>
    ensures { IfOk result (λ text.
        whole_of text ≡ body_text answer.now.parts.items (rows_of answer.now)) }
{
    let parts = answer.parts();
    let (before, rest) = parts.split_at(answer.count_before_rows());
    match rest.split_first() {
        Some((AnsweredPart::Searched(first), later)) => {
            text_of_one(rt, alloc, rooms, before, first, later)
        }
        _ if room_of(parts) < LONG => text_of_all(rt, alloc, rooms, parts, answer.rows()),
        _ => long_text_of_all(rt, alloc, parts, answer.rows()),
    }
}

/// How many bytes these pieces and the ones before them have, if those before have `before` bytes.
/// If no number is large enough, there is no memory.
fn length_in(pieces: &[Vec<u8>], before: usize) -> Result<usize, AllocError>
    ensures { IfOk result (λ n. n ≡ before + length (joined pieces.now)) }
{
    let mut length = before;
    for piece in pieces {
        let Some(more) = length.checked_add(piece.len()) else {
            return Err(AllocError);
        };
        length = more;
    }
    Ok(length)
}

/// How many bytes the text of an answer has. If no number is large enough, there is no memory.
pub fn length_of(text: &AnswerText) -> Result<usize, AllocError>
    ensures { IfOk result (λ n. n ≡ length (whole_of text.now)) }
{
    let first = length_in(text.first(), 1)?;
    length_in(text.again(), first)
}

fn append_pieces(out: &mut Vec<u8>, pieces: &[Vec<u8>]) -> Result<(), AllocError>
    ensures { OnOk result (out.new.items ≡ out.old.items ++ joined pieces.now) }
{
    for piece in pieces {
        out.extend_from_slice(piece.as_slice())?;
    }
    Ok(())
}

/// Appends the text of an answer.
pub fn append_text(out: &mut Vec<u8>, text: &AnswerText) -> Result<(), AllocError>
    ensures { OnOk result (out.new.items ≡ out.old.items ++ whole_of text.now) }
{
    append_pieces(out, text.first())?;
    append_pieces(out, text.again())?;
    out.push(b'}')?;
    Ok(())
}

/// The text of the answer to a query: what it says of each part, and the rows of all. It is compact
/// JSON with the members in the order of their names. It takes time and memory in proportion to its
/// length, and at most a few allocations beside one for each part.
pub fn body(alloc: Global, parts: &[AnsweredPart], rows: &[Row]) -> Result<Vec<u8>, AllocError>
    ensures { IfOk result (λ text. text.items ≡ body_text parts.now rows.now) }
{
    let mut text = front_of_all(alloc, Vec::new(alloc), parts)?;
    append_rows(&mut text, rows)?;
    text.push(b'}')?;
    Ok(text)
}
