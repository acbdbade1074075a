//! Boxes as that of a claim.

ghost use Rattle.std.specs.Prelude.{◌≡◌, OnOk};
ghost use Rattle.page_pins.specs.Boxes.{begins_say, has_say, names_box, name_box, draws_box};
ghost use Rattle.page_pins.specs.Boxes.{has_box, HasNoBox};

use page_text::{Attribute, Piece};
use std::alloc::AllocError;

fn begins_say(text: &[u8]) -> bool
    ensures { result ≡ begins_say text.now }
{
    match text {
        [a, b, c, ..] => *a == b's' && *b == b'a' && *c == b'y',
        _ => false,
    }
}

/// Whether `say` stands in a text.
fn has_say(text: &[u8]) -> bool
    ensures { result ≡ has_say text.now }
{
    let mut rest = text;
    while let Some((_, later)) = rest.split_first() {
        if begins_say(rest) {
            return true;
        }
        rest = later;
    }
    false
}

/// Whether an attribute may name the class of a claim's box.
fn names_box(attribute: &Attribute) -> bool
    ensures { result ≡ names_box attribute.now }
{
    match attribute {
        Attribute::Word(_, word) | Attribute::Named(_, word, _) => has_say(word.as_bytes()),
        Attribute::Number(_, _) | Attribute::Share(_, _) | Attribute::Path(_) => false,
    }
}

/// Whether one of the attributes may.
fn name_box(attributes: &[Attribute]) -> bool
    ensures { result ≡ name_box attributes.now }
{
    let mut rest = attributes;
    while let Some((first, later)) = rest.split_first() {
        if names_box(first) {
            return true;
        }
        rest = later;
    }
    false
}

/// Whether a piece begins such a box.
fn draws_box(piece: &Piece) -> bool
    ensures { result ≡ draws_box piece.now }
{
    match piece {
        Piece::Open(_, attributes) | Piece::Leaf(_, attributes) => name_box(attributes.as_slice()),
        Piece::Close(_)
        | Piece::Word(_)
        | Piece::Text(_)
        | Piece::Number(_)
        | Piece::Integer(_)
        | Piece::Counted(_)
        | Piece::Mark(_)
        | Piece::Value(_)
        | Piece::Line => false,
    }
}

/// Whether one of the pieces does.
fn has_box(pieces: &[Piece]) -> bool
    ensures { result ≡ has_box pieces.now }
{
    let mut rest = pieces;
    while let Some((first, later)) = rest.split_first() {
        if draws_box(first) {
            return true;
        }
        rest = later;
    }
    false
}

/// Finds that pieces draw no box as that of a claim: others are refused as if there were no memory
/// for them.
pub fn check_boxes(pieces: &[Piece]) -> Result<(), AllocError>
    ensures { OnOk result (HasNoBox pieces.now) }
{
    if has_box(pieces) {
        return Err(AllocError);
    }
    Ok(())
}
