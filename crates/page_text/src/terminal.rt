//! The texts of a page alone, for a terminal.

ghost use Rattle.std.specs.Prelude.{◌≡◌, ◌++◌, OnOk};
ghost use Rattle.std.specs.List.{flat_map};
ghost use Rattle.page_text.specs.Plain.{code_front, code_end, code_text, seen_char, plain_piece};
ghost use Rattle.page_text.specs.Plain.{plain_mark, plain_text};

use crate::mark::Mark;
use crate::numbers::{append_counted, append_integer, append_number};
use crate::piece::Piece;
use page_escape::{append_high_digits, append_low_digits, is_invisible};
use std::alloc::AllocError;

#[tactic(auto, unfolding(crate::specs::Plain::code_front))]
fn append_code_front(out: &mut Vec<u8>) -> Result<(), AllocError>
    ensures { OnOk result (out.new.items ≡ out.old.items ++ code_front) }
{
    out.extend_from_slice(b"<U+")
}

#[tactic(auto, unfolding(crate::specs::Plain::code_end))]
fn append_code_end(out: &mut Vec<u8>) -> Result<(), AllocError>
    ensures { OnOk result (out.new.items ≡ out.old.items ++ code_end) }
{
    out.extend_from_slice(b">")
}

/// Appends the code of a character that cannot be seen.
#[tactic(auto, unfolding(crate::specs::Plain::code_text))]
fn append_code(out: &mut Vec<u8>, c: char) -> Result<(), AllocError>
    ensures { OnOk result (out.new.items ≡ out.old.items ++ code_text c) }
{
    append_code_front(out)?;
    append_high_digits(out, c as u32)?;
    append_low_digits(out, c as u32)?;
    append_code_end(out)
}

/// Appends a character, or its code if it cannot be seen.
#[tactic(auto, unfolding(crate::specs::Plain::seen_char))]
fn append_seen(out: &mut Vec<u8>, c: char) -> Result<(), AllocError>
    ensures { OnOk result (out.new.items ≡ out.old.items ++ seen_char c) }
{
    if is_invisible(c) {
        append_code(out, c)
    } else {
        let mut room = [0; 4];
        let bytes = c.encode_utf8(&mut room);
        out.extend_from_slice(bytes.as_bytes())
    }
}

fn append_text(out: &mut Vec<u8>, chars: &[char]) -> Result<(), AllocError>
    ensures { OnOk result (out.new.items ≡ out.old.items ++ flat_map seen_char chars.now) }
{
    for c in chars {
        append_seen(out, *c)?;
    }
    Ok(())
}

fn append_plain_mark(out: &mut Vec<u8>, mark: Mark) -> Result<(), AllocError>
    ensures { OnOk result (out.new.items ≡ out.old.items ++ plain_mark mark) }
{
    match mark {
        Mark::Count(_, n) => append_counted(out, n),
        Mark::Tile { .. } => Ok(()),
    }
}

#[tactic(auto, unfolding(crate::specs::Plain::plain_piece))]
fn append_piece(out: &mut Vec<u8>, piece: &Piece) -> Result<(), AllocError>
    ensures { OnOk result (out.new.items ≡ out.old.items ++ plain_piece piece.now) }
{
    match piece {
        Piece::Open(_, _) | Piece::Leaf(_, _) | Piece::Close(_) => Ok(()),
        Piece::Word(word) => out.extend_from_slice(word.as_bytes()),
        Piece::Text(chars) => append_text(out, chars.as_slice()),
        Piece::Number(n) => append_number(out, *n),
        Piece::Integer(n) => append_integer(out, *n),
        Piece::Counted(n) => append_counted(out, *n),
        Piece::Mark(mark) => append_plain_mark(out, *mark),
        Piece::Value(shown) => out.extend_from_slice(shown.text()),
        Piece::Line => Ok(out.push(b'\n')?),
    }
}

/// Appends the texts and numbers of pieces, without their elements; a character that cannot be seen
/// or that moves the cursor by its code, as `<U+202E>`.
pub fn print_plain(out: &mut Vec<u8>, pieces: &[Piece]) -> Result<(), AllocError>
    ensures { OnOk result (out.new.items ≡ out.old.items ++ plain_text pieces.now) }
{
    for piece in pieces {
        append_piece(out, piece)?;
    }
    Ok(())
}
