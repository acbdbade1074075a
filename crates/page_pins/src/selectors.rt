//! The selector, as pieces show it.

ghost use Rattle.std.specs.Prelude.{◌≡◌, ◌++◌, IfOk, OnOk, IsTrue, take};
ghost use Rattle.std.specs.Str.{chars};
ghost use Rattle.page_pins.specs.Selectors.{chars_in, chars_of, ShowsFirst};

use page_text::Piece;
use std::alloc::{AllocError, Global};

/// Appends the characters of a piece, if it is a text from outside.
fn append_chars(chars: &mut Vec<char>, piece: &Piece) -> Result<(), AllocError>
    ensures { OnOk result (chars.new.items ≡ chars.old.items ++ chars_in piece.now) }
{
    match piece {
        Piece::Text(text) => chars.extend_from_slice(text.as_slice()),
        Piece::Open(_, _)
        | Piece::Leaf(_, _)
        | Piece::Close(_)
        | Piece::Word(_)
        | Piece::Number(_)
        | Piece::Integer(_)
        | Piece::Counted(_)
        | Piece::Mark(_)
        | Piece::Value(_)
        | Piece::Line => Ok(()),
    }
}

/// The characters of all texts from outside, in their order.
fn chars_of(alloc: Global, pieces: &[Piece]) -> Result<Vec<char>, AllocError>
    ensures { IfOk result (λ chars. chars.items ≡ chars_of pieces.now) }
{
    let mut chars = Vec::new(alloc);
    for piece in pieces {
        append_chars(&mut chars, piece)?;
    }
    Ok(chars)
}

/// The characters of a text.
fn all_chars(alloc: Global, text: &str) -> Result<Vec<char>, AllocError>
    ensures { IfOk result (λ all. all.items ≡ chars text.now) }
{
    text.chars().collect(alloc)
}

/// The first characters of a text.
fn first_chars(alloc: Global, text: &str, most: usize) -> Result<Vec<char>, AllocError>
    ensures { IfOk result (λ first. first.items ≡ take most (chars text.now)) }
{
    let mut first = all_chars(alloc, text)?;
    first.truncate(most);
    Ok(first)
}

/// Finds that the texts from outside in pieces are the first characters of a selector, so many at
/// most: others are refused as if there were no memory for them.
pub fn check_selector(
    alloc: Global,
    pieces: &[Piece],
    selector: &str,
    most: usize,
) -> Result<(), AllocError>
    ensures { OnOk result (ShowsFirst most selector.now pieces.now) }
{
    let shown = chars_of(alloc, pieces)?;
    let first = first_chars(alloc, selector, most)?;
    if shown.as_slice() != first.as_slice() {
        return Err(AllocError);
    }
    Ok(())
}
