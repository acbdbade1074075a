//! The print of a page.

ghost use Rattle.std.specs.Prelude.{◌≡◌, ◌++◌, ◌∷◌, decimal, OnOk};
ghost use Rattle.std.specs.List.{flat_map};
ghost use Rattle.page_text.specs.Markup.{key_name};
ghost use Rattle.page_text.specs.Printing.{place_text, move_text, value_front};
ghost use Rattle.page_text.specs.Printing.{open_attribute, attribute_text, head_text};
ghost use Rattle.page_text.specs.Printing.{close_text, piece_text, page_text};
ghost use Rattle.page_text.specs.Printing.{fill_text, tile_front, tile_place, tile_size, tile_text};
ghost use Rattle.page_text.specs.Printing.{mark_text};

use crate::attribute::{Attribute, Key, Move, key_name};
use crate::mark::Mark;
use crate::numbers::{append_counted, append_integer, append_number, append_share};
use crate::piece::Piece;
use crate::tag::{Tag, tag_name};
use page_escape::{append_leaf, append_word};
use std::alloc::AllocError;

/// Appends a letter and a place.
#[tactic(auto, unfolding(crate::specs::Printing::place_text))]
fn append_place(out: &mut Vec<u8>, letter: u8, x: u64, y: u64) -> Result<(), AllocError>
    ensures { OnOk result (out.new.items ≡ out.old.items ++ place_text letter x y) }
{
    out.push(letter)?;
    append_number(out, x)?;
    out.push(b' ')?;
    append_number(out, y)
}

/// Appends a letter and a number.
fn append_one(out: &mut Vec<u8>, letter: u8, n: u64) -> Result<(), AllocError>
    ensures { OnOk result (out.new.items ≡ out.old.items ++ letter ∷ decimal n) }
{
    out.push(letter)?;
    append_number(out, n)
}

fn append_move(out: &mut Vec<u8>, step: Move) -> Result<(), AllocError>
    ensures { OnOk result (out.new.items ≡ out.old.items ++ move_text step) }
{
    match step {
        Move::To(x, y) => append_place(out, b'M', x, y),
        Move::Line(x, y) => append_place(out, b'L', x, y),
        Move::Across(x) => append_one(out, b'H', x),
        Move::Down(y) => append_one(out, b'V', y),
        Move::Dot => out.extend_from_slice(b"h0"),
        Move::Back => out.extend_from_slice(b"z"),
    }
}

fn append_moves(out: &mut Vec<u8>, steps: &[Move]) -> Result<(), AllocError>
    ensures { OnOk result (out.new.items ≡ out.old.items ++ flat_map move_text steps.now) }
{
    for step in steps {
        append_move(out, *step)?;
    }
    Ok(())
}

/// Appends a space, a name and what begins its value.
#[tactic(auto, unfolding(crate::specs::Printing::value_front))]
fn append_front(out: &mut Vec<u8>, key: Key) -> Result<(), AllocError>
    ensures { OnOk result (out.new.items ≡ out.old.items ++ value_front (key_name key)) }
{
    out.push(b' ')?;
    out.extend_from_slice(key_name(key).as_bytes())?;
    out.extend_from_slice(b"=\"")
}

/// Appends the key and the value of an attribute, up to its last quote.
#[tactic(auto, unfolding(crate::specs::Printing::open_attribute))]
fn append_open_attribute(out: &mut Vec<u8>, attribute: &Attribute) -> Result<(), AllocError>
    ensures { OnOk result (out.new.items ≡ out.old.items ++ open_attribute attribute.now) }
{
    match attribute {
        Attribute::Word(key, word) => {
            append_front(out, *key)?;
            append_word(out, word)
        }
        Attribute::Number(key, n) => {
            append_front(out, *key)?;
            append_number(out, *n)
        }
        Attribute::Named(key, word, n) => {
            append_front(out, *key)?;
            append_word(out, word)?;
            append_number(out, *n)
        }
        Attribute::Share(key, n) => {
            append_front(out, *key)?;
            append_share(out, *n)
        }
        Attribute::Path(steps) => {
            append_front(out, Key::D)?;
            append_moves(out, steps.as_slice())
        }
    }
}

#[tactic(auto, unfolding(crate::specs::Printing::attribute_text))]
fn append_attribute(out: &mut Vec<u8>, attribute: &Attribute) -> Result<(), AllocError>
    ensures { OnOk result (out.new.items ≡ out.old.items ++ attribute_text attribute.now) }
{
    append_open_attribute(out, attribute)?;
    Ok(out.push(b'"')?)
}

fn append_attributes(out: &mut Vec<u8>, attributes: &[Attribute]) -> Result<(), AllocError>
    ensures { OnOk result
        (out.new.items ≡ out.old.items ++ flat_map attribute_text attributes.now) }
{
    for attribute in attributes {
        append_attribute(out, attribute)?;
    }
    Ok(())
}

/// Appends the name and the attributes of an element, and what ends its tag.
#[tactic(auto, unfolding(crate::specs::Printing::head_text))]
fn append_tag(
    out: &mut Vec<u8>,
    tag: Tag,
    attributes: &[Attribute],
    end: &[u8],
) -> Result<(), AllocError>
    ensures { OnOk result
        (out.new.items ≡ out.old.items ++ head_text tag attributes.now end.now) }
{
    out.push(b'<')?;
    out.extend_from_slice(tag_name(tag).as_bytes())?;
    append_attributes(out, attributes)?;
    out.extend_from_slice(end)
}

#[tactic(auto, unfolding(crate::specs::Printing::close_text))]
fn append_close(out: &mut Vec<u8>, tag: Tag) -> Result<(), AllocError>
    ensures { OnOk result (out.new.items ≡ out.old.items ++ close_text tag) }
{
    out.extend_from_slice(b"</")?;
    out.extend_from_slice(tag_name(tag).as_bytes())?;
    Ok(out.push(b'>')?)
}

/// Appends the class of what a verdict fills.
#[tactic(auto, unfolding(crate::specs::Printing::fill_text))]
fn append_fill(out: &mut Vec<u8>, slot: usize) -> Result<(), AllocError>
    ensures { OnOk result (out.new.items ≡ out.old.items ++ fill_text slot) }
{
    match slot {
        0 => out.extend_from_slice(b"c vm"),
        17 => out.extend_from_slice(b"c gap"),
        18 => out.extend_from_slice(b"c vn"),
        _ => {
            out.extend_from_slice(b"c v")?;
            append_number(out, slot.saturating_sub(1) as u64)
        }
    }
}

/// Appends what begins a tile, and what fills it.
#[tactic(auto, unfolding(crate::specs::Printing::tile_front))]
fn append_tile_front(out: &mut Vec<u8>, slot: usize) -> Result<(), AllocError>
    ensures { OnOk result (out.new.items ≡ out.old.items ++ tile_front slot) }
{
    out.extend_from_slice(b"<rect class=\"")?;
    append_fill(out, slot)
}

/// Appends where a tile stands.
#[tactic(auto, unfolding(crate::specs::Printing::tile_place))]
fn append_tile_place(out: &mut Vec<u8>, x: u64, y: u64) -> Result<(), AllocError>
    ensures { OnOk result (out.new.items ≡ out.old.items ++ tile_place x y) }
{
    out.extend_from_slice(b"\" x=\"")?;
    append_share(out, x)?;
    out.extend_from_slice(b"\" y=\"")?;
    append_number(out, y)
}

/// Appends how wide and how high a tile is.
#[tactic(auto, unfolding(crate::specs::Printing::tile_size))]
fn append_tile_size(out: &mut Vec<u8>, width: u64, height: u64) -> Result<(), AllocError>
    ensures { OnOk result (out.new.items ≡ out.old.items ++ tile_size width height) }
{
    out.extend_from_slice(b"\" width=\"")?;
    append_share(out, width)?;
    out.extend_from_slice(b"\" height=\"")?;
    append_number(out, height)
}

/// Appends a mark.
#[tactic(auto, unfolding(crate::specs::Printing::tile_text))]
fn append_mark(out: &mut Vec<u8>, mark: Mark) -> Result<(), AllocError>
    ensures { OnOk result (out.new.items ≡ out.old.items ++ mark_text mark) }
{
    match mark {
        Mark::Count(_, n) => append_counted(out, n),
        Mark::Tile {
            slot,
            x,
            y,
            width,
            height,
        } => {
            append_tile_front(out, slot)?;
            append_tile_place(out, x, y)?;
            append_tile_size(out, width, height)?;
            out.extend_from_slice(b"\"/>")
        }
    }
}

#[tactic(auto, unfolding(crate::specs::Printing::piece_text))]
fn append_piece(out: &mut Vec<u8>, piece: &Piece) -> Result<(), AllocError>
    ensures { OnOk result (out.new.items ≡ out.old.items ++ piece_text piece.now) }
{
    match piece {
        Piece::Open(tag, attributes) => append_tag(out, *tag, attributes.as_slice(), b">"),
        Piece::Leaf(tag, attributes) => append_tag(out, *tag, attributes.as_slice(), b"/>"),
        Piece::Close(tag) => append_close(out, *tag),
        Piece::Word(word) => append_word(out, word),
        Piece::Text(chars) => append_leaf(out, chars.as_slice()),
        Piece::Number(n) => append_number(out, *n),
        Piece::Integer(n) => append_integer(out, *n),
        Piece::Counted(n) => append_counted(out, *n),
        Piece::Mark(mark) => append_mark(out, *mark),
        Piece::Value(shown) => out.extend_from_slice(shown.text()),
        Piece::Line => Ok(out.push(b'\n')?),
    }
}

/// Appends the print of pieces.
///
/// Of an element its name and its attributes in order; of a text each character, as an entity if
/// it means something to HTML, and in a box with its code if it cannot be seen. It takes time and
/// memory in proportion to what is printed.
pub fn print(out: &mut Vec<u8>, pieces: &[Piece]) -> Result<(), AllocError>
    ensures { OnOk result (out.new.items ≡ out.old.items ++ page_text pieces.now) }
{
    for piece in pieces {
        append_piece(out, piece)?;
    }
    Ok(())
}
