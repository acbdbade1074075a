//! Marks: what a tree tells of itself.

ghost use Rattle.std.specs.Prelude.{◌≡◌, ◌++◌, IsTrue, IfOk, OnOk};
ghost use Rattle.page_text.specs.Marks.{mark_in, marks_in};

use crate::piece::Piece;
use std::alloc::{AllocError, Global};

/// What a number counts. It is not printed.
#[derive(Clone, Copy, Debug, PartialEq, Eq, Drop)]
pub enum Subject {
    /// The intervals of the verdict at this place.
    Verdict(usize),
    Intervals,
    Separators,
    Parts,
    Rows,
    Samples,
    /// The rows of a table up to one, this included.
    Place,
}

/// A number or a rectangle that a tree tells of, so that what it shows can be compared.
#[derive(Clone, Copy, Debug, PartialEq, Eq, Drop)]
pub enum Mark {
    /// A number with commas, and what it counts.
    Count(Subject, u64),
    /// A rectangle with the fill of the verdict at a place: where it begins across and how wide it
    /// is, in hundredths of a percent; where it begins below and how high it is.
    Tile {
        slot: usize,
        x: u64,
        y: u64,
        width: u64,
        height: u64,
    },
}

/// Appends the mark that a piece is, if it is one.
fn append_mark(marks: &mut Vec<Mark>, piece: &Piece) -> Result<(), AllocError>
    ensures { OnOk result (marks.new.items ≡ marks.old.items ++ mark_in piece.now) }
{
    match piece {
        Piece::Mark(mark) => Ok(marks.push(*mark)?),
        Piece::Open(_, _)
        | Piece::Leaf(_, _)
        | Piece::Close(_)
        | Piece::Word(_)
        | Piece::Text(_)
        | Piece::Number(_)
        | Piece::Integer(_)
        | Piece::Counted(_)
        | Piece::Value(_)
        | Piece::Line => Ok(()),
    }
}

/// The marks of pieces, in their order.
pub fn marks_of(alloc: Global, pieces: &[Piece]) -> Result<Vec<Mark>, AllocError>
    ensures { IfOk result (λ marks. marks.items ≡ marks_in pieces.now) }
{
    let mut marks = Vec::new(alloc);
    for piece in pieces {
        append_mark(&mut marks, piece)?;
    }
    Ok(marks)
}

fn same_subject(a: Subject, b: Subject) -> bool
    ensures { IsTrue result → a ≡ b }
{
    match (a, b) {
        (Subject::Verdict(m), Subject::Verdict(n)) => m == n,
        (Subject::Intervals, Subject::Intervals)
        | (Subject::Separators, Subject::Separators)
        | (Subject::Parts, Subject::Parts)
        | (Subject::Rows, Subject::Rows)
        | (Subject::Samples, Subject::Samples)
        | (Subject::Place, Subject::Place) => true,
        _ => false,
    }
}

fn same_mark(a: Mark, b: Mark) -> bool
    ensures { IsTrue result → a ≡ b }
{
    match (a, b) {
        (Mark::Count(s, m), Mark::Count(t, n)) => same_subject(s, t) && m == n,
        (
            Mark::Tile {
                slot,
                x,
                y,
                width,
                height,
            },
            Mark::Tile {
                slot: other_slot,
                x: other_x,
                y: other_y,
                width: other_width,
                height: other_height,
            },
        ) => slot == other_slot
            && x == other_x
            && y == other_y
            && width == other_width
            && height == other_height,
        (Mark::Count(_, _), Mark::Tile { .. }) | (Mark::Tile { .. }, Mark::Count(_, _)) => false,
    }
}

/// Whether two lists of marks are found to be the same, place by place.
pub fn same_marks(a: &[Mark], b: &[Mark]) -> bool
    ensures { IsTrue result → a.now ≡ b.now }
{
    if a.len() != b.len() {
        return false;
    }
    for (at, mark) in a.iter().enumerate() {
        if !same_mark(*mark, b[at]) {
            return false;
        }
    }
    true
}
