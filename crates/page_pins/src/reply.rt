//! Which reply a page shows.

ghost use Rattle.std.specs.Prelude.{◌≡◌, ◌++◌, OnOk};
ghost use Rattle.hex.specs.Hex.{encode_lower};
ghost use Rattle.page_text.specs.Printing.{counted};
ghost use Rattle.page_pins.specs.Replies.{digest_end, digest_front, digest_text, length_front};
ghost use Rattle.page_pins.specs.Replies.{length_text, reply_text};

use page_text::{Piece, print};
use std::alloc::{AllocError, Global};

/// Appends a number with commas.
#[tactic(auto, unfolding(page_text::specs::Printing::piece_text))]
fn append_counted(out: &mut Vec<u8>, n: u64) -> Result<(), AllocError>
    ensures { OnOk result (out.new.items ≡ out.old.items ++ counted n) }
{
    print(out, &[Piece::Counted(n)])
}

/// Appends bytes in hexadecimal digits.
fn append_digits(alloc: Global, out: &mut Vec<u8>, bytes: [u8; 32]) -> Result<(), AllocError>
    ensures { OnOk result (out.new.items ≡ out.old.items ++ encode_lower bytes) }
{
    let digits = hex::encode(alloc, bytes)?;
    out.extend_from_slice(digits.as_bytes())
}

#[tactic(auto, unfolding(crate::specs::Replies::length_front))]
fn length_front() -> &'static [u8]
    ensures { result.now ≡ length_front }
{
    b"<p class=\"note\">This page shows a reply of "
}

#[tactic(auto, unfolding(crate::specs::Replies::digest_front))]
fn digest_front() -> &'static [u8]
    ensures { result.now ≡ digest_front }
{
    b" bytes; their SHA-256 is <code>"
}

#[tactic(auto, unfolding(crate::specs::Replies::digest_end))]
fn digest_end() -> &'static [u8]
    ensures { result.now ≡ digest_end }
{
    b"</code>.</p>\n"
}

#[tactic(auto, unfolding(crate::specs::Replies::length_text))]
fn append_length(out: &mut Vec<u8>, length: u64) -> Result<(), AllocError>
    ensures { OnOk result (out.new.items ≡ out.old.items ++ length_text length) }
{
    out.extend_from_slice(length_front())?;
    append_counted(out, length)
}

#[tactic(auto, unfolding(crate::specs::Replies::digest_text))]
fn append_digest(alloc: Global, out: &mut Vec<u8>, digest: [u8; 32]) -> Result<(), AllocError>
    ensures { OnOk result (out.new.items ≡ out.old.items ++ digest_text digest) }
{
    out.extend_from_slice(digest_front())?;
    append_digits(alloc, out, digest)?;
    out.extend_from_slice(digest_end())
}

/// Appends a paragraph with the length of the reply and its SHA-256.
#[tactic(auto, unfolding(crate::specs::Replies::reply_text))]
pub fn append_reply(
    alloc: Global,
    out: &mut Vec<u8>,
    length: u64,
    digest: [u8; 32],
) -> Result<(), AllocError>
    ensures { OnOk result (out.new.items ≡ out.old.items ++ reply_text length digest) }
{
    append_length(out, length)?;
    append_digest(alloc, out, digest)
}
