//! How texts stand in a page.

ghost use Rattle.std.specs.Prelude.{◌≡◌, ◌<◌, ◌++◌, ◌∷◌, ◌%◌, [], OnOk};
ghost use Rattle.page_escape.specs.Escaping.{entity, is_within, is_invisible, hex_digit};
ghost use Rattle.page_escape.specs.Escaping.{high_digits, low_digits, box_front, box_end};
ghost use Rattle.page_escape.specs.Escaping.{box_text, char_text, word_text, leaf_text};

use std::alloc::AllocError;

/// Appends a byte, as an entity if it means something to HTML.
fn append_entity(out: &mut Vec<u8>, byte: u8) -> Result<(), AllocError>
    ensures { OnOk result (out.new.items ≡ out.old.items ++ entity byte) }
{
    match byte {
        b'&' => out.extend_from_slice(b"&amp;"),
        b'<' => out.extend_from_slice(b"&lt;"),
        b'>' => out.extend_from_slice(b"&gt;"),
        b'"' => out.extend_from_slice(b"&quot;"),
        b'\'' => out.extend_from_slice(b"&#39;"),
        _ => Ok(out.push(byte)?),
    }
}

fn is_within(low: u32, high: u32, c: u32) -> bool
    ensures { result ≡ is_within low high c }
{
    (low <= c) & (c <= high)
}

/// Whether a character cannot be seen, or changes how others are seen.
pub fn is_invisible(c: char) -> bool
    ensures { result ≡ is_invisible c }
{
    let c = c as u32;
    is_within(0, 31, c)
        | is_within(127, 159, c)
        | is_within(173, 173, c)
        | is_within(1564, 1564, c)
        | is_within(4447, 4448, c)
        | is_within(6158, 6158, c)
        | is_within(8203, 8207, c)
        | is_within(8232, 8238, c)
        | is_within(8288, 8303, c)
        | is_within(12644, 12644, c)
        | is_within(65024, 65039, c)
        | is_within(65279, 65279, c)
        | is_within(65440, 65440, c)
        | is_within(65520, 65531, c)
        | is_within(917_504, 921_599, c)
        | (65534 <= c % 65536)
}

fn hex_digit(digit: u8) -> u8
    requires { digit < 16 }
    ensures { result ≡ hex_digit digit }
{
    if digit < 10 { 48 + digit } else { 55 + digit }
}

fn append_digit(out: &mut Vec<u8>, digit: u32) -> Result<(), AllocError>
    ensures { OnOk result
        (out.new.items ≡ out.old.items ++ hex_digit (digit % 16) ∷ []) }
{
    Ok(out.push(hex_digit((digit % 16) as u8))?)
}

/// Appends the hexadecimal digits of a character above its last four, if it has any.
#[tactic(auto, unfolding(crate::specs::Escaping::high_digits))]
pub fn append_high_digits(out: &mut Vec<u8>, c: u32) -> Result<(), AllocError>
    ensures { OnOk result (out.new.items ≡ out.old.items ++ high_digits c) }
{
    if c >= 1_048_576 {
        append_digit(out, c / 1_048_576)?;
    }
    if c >= 65_536 {
        append_digit(out, c / 65_536)?;
    }
    Ok(())
}

/// Appends the last four hexadecimal digits of a character.
#[tactic(auto, unfolding(crate::specs::Escaping::low_digits))]
pub fn append_low_digits(out: &mut Vec<u8>, c: u32) -> Result<(), AllocError>
    ensures { OnOk result (out.new.items ≡ out.old.items ++ low_digits c) }
{
    append_digit(out, c / 4096)?;
    append_digit(out, c / 256)?;
    append_digit(out, c / 16)?;
    append_digit(out, c)
}

#[tactic(auto, unfolding(crate::specs::Escaping::box_front))]
fn append_box_front(out: &mut Vec<u8>) -> Result<(), AllocError>
    ensures { OnOk result (out.new.items ≡ out.old.items ++ box_front) }
{
    out.extend_from_slice(b"<i class=\"u\">U+")
}

#[tactic(auto, unfolding(crate::specs::Escaping::box_end))]
fn append_box_end(out: &mut Vec<u8>) -> Result<(), AllocError>
    ensures { OnOk result (out.new.items ≡ out.old.items ++ box_end) }
{
    out.extend_from_slice(b"</i>")
}

/// Appends a box with the code of a character that cannot be seen.
#[tactic(auto, unfolding(crate::specs::Escaping::box_text))]
fn append_box(out: &mut Vec<u8>, c: char) -> Result<(), AllocError>
    ensures { OnOk result (out.new.items ≡ out.old.items ++ box_text c) }
{
    append_box_front(out)?;
    append_high_digits(out, c as u32)?;
    append_low_digits(out, c as u32)?;
    append_box_end(out)
}

/// Appends a character of a text from outside.
#[tactic(auto, unfolding(crate::specs::Escaping::char_text))]
fn append_char(out: &mut Vec<u8>, c: char) -> Result<(), AllocError>
    ensures { OnOk result (out.new.items ≡ out.old.items ++ char_text c) }
{
    if is_invisible(c) {
        append_box(out, c)
    } else if (c as u32) < 128 {
        append_entity(out, c as u8)
    } else {
        let mut room = [0; 4];
        let bytes = c.encode_utf8(&mut room);
        out.extend_from_slice(bytes.as_bytes())
    }
}

/// Appends a constant of the program.
pub fn append_word(out: &mut Vec<u8>, word: &str) -> Result<(), AllocError>
    ensures { OnOk result (out.new.items ≡ out.old.items ++ word_text word.now) }
{
    for byte in word.as_bytes() {
        append_entity(out, *byte)?;
    }
    Ok(())
}

/// Appends a text from outside.
pub fn append_leaf(out: &mut Vec<u8>, chars: &[char]) -> Result<(), AllocError>
    ensures { OnOk result (out.new.items ≡ out.old.items ++ leaf_text chars.now) }
{
    for c in chars {
        append_char(out, *c)?;
    }
    Ok(())
}
