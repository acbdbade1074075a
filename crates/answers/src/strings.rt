//! Strings with their escapes.

ghost use Rattle.std.specs.Prelude.{◌≡◌, ◌+◌, ◌<◌, ◌≤◌, [], ◌∷◌, ◌++◌, length, take, drop, OnOk};
ghost use Rattle.std.specs.List.{prefix_len};
ghost use Rattle.std.specs.Char.{digit_char};
ghost use Rattle.json.specs.Run.{is_plain};
ghost use Rattle.json.specs.Print.{escape, escape_byte, escape_letter, quoted};

use crate::unescaped;
use std::alloc::AllocError;

/// Where the bytes end that need no escape.
#[inline]
fn plain_end(text: &[u8], from: usize) -> usize
    requires { from ≤ length text.now }
    ensures value { result ≡ from + prefix_len is_plain (drop from text.now) }
    ensures within { result ≤ length text.now }
{
    let mut i = from;
    while i < text.len() && text[i] != b'"' && text[i] != b'\\' && text[i] >= 0x20 {
        i += 1;
    }
    i
}

fn letter(byte: u8) -> u8
    ensures { result ≡ escape_letter byte }
{
    match byte {
        b'"' | b'\\' => byte,
        8 => b'b',
        12 => b'f',
        b'\n' => b'n',
        b'\r' => b'r',
        b'\t' => b't',
        _ => 0,
    }
}

fn hex(digit: u8) -> u8
    requires { digit < 16 }
    ensures { result ≡ digit_char digit }
{
    if digit < 10 {
        b'0' + digit
    } else {
        b'a' - 10 + digit
    }
}

fn escape_of(byte: u8) -> ([u8; 6], usize)
    ensures value { take result.1 result.0 ≡ escape_byte byte }
    ensures bound { result.1 ≤ 6 }
{
    let letter = letter(byte);
    if letter > 0 {
        return ([b'\\', letter, 0, 0, 0, 0], 2);
    }
    if byte < 0x20 {
        return ([b'\\', b'u', b'0', b'0', hex(byte / 16), hex(byte % 16)], 6);
    }
    ([byte, 0, 0, 0, 0, 0], 1)
}

/// Appends the text with its escapes, and then `close`.
#[inline(never)]
fn append_escaped(out: &mut Vec<u8>, text: &[u8], close: &[u8]) -> Result<(), AllocError>
    ensures { OnOk result (out.new.items ≡ out.old.items ++ (escape text.now ++ close.now)) }
{
    let mut at = 0;
    loop {
        let stop = plain_end(text, at);
        out.extend_from_slice(&text[at..stop])?;
        if stop == text.len() {
            out.extend_from_slice(close)?;
            return Ok(());
        }
        let (escape, len) = escape_of(text[stop]);
        out.extend_from_slice(&escape[..len])?;
        at = stop + 1;
    }
}

/// Appends the text with its escapes, and then `close`.
#[inline]
pub(crate) fn append_closed(out: &mut Vec<u8>, text: &[u8], close: &[u8]) -> Result<(), AllocError>
    ensures { OnOk result (out.new.items ≡ out.old.items ++ (escape text.now ++ close.now)) }
{
    if !unescaped::is_plain(text) {
        return append_escaped(out, text, close);
    }
    out.extend_from_slice(text)?;
    out.extend_from_slice(close)?;
    Ok(())
}

/// Appends the text as a JSON string.
pub fn append_string(out: &mut Vec<u8>, text: &str) -> Result<(), AllocError>
    ensures { OnOk result (out.new.items ≡ out.old.items ++ quoted text.now) }
{
    out.push(b'"')?;
    append_closed(out, text.as_bytes(), b"\"")
}
