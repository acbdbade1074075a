//! One record: a length with a checksum of its own, a content, and its checksum.

ghost use Rattle.std.specs.Prelude.{◌≡◌, ◌++◌, OnOk, length, true};
ghost use Rattle.wire.specs.Outcome.{Answers};
ghost use Rattle.journal.specs.Records.{is_blank, is_length, length_text, record_of};
ghost use Rattle.journal.specs.Reading.{length_at, length_stop, record_at, sum_stop};

use std::alloc::AllocError;
use wire::{Cut, crc32c, put_be32, put_bytes};

/// The greatest number of bytes of a content.
const MAX_CONTENT: usize = 0x400_0000;

/// Why no record stands in front.
#[derive(Clone, Copy, Debug, PartialEq, Eq, Drop)]
pub(crate) enum Stop {
    Torn,
    Checksum,
    Length,
}

/// Whether a content may have so many bytes.
pub(crate) fn is_length(len: usize) -> bool
    ensures { result ≡ is_length len }
{
    0 < len && len <= MAX_CONTENT
}

fn is_blank(bytes: &[u8]) -> bool
    ensures { result ≡ is_blank bytes.now }
{
    bytes.iter().all(|byte| *byte == 0)
}

fn length_stop(bytes: &[u8]) -> Stop
    ensures { result ≡ length_stop bytes.now }
{
    if is_blank(bytes) {
        Stop::Torn
    } else {
        Stop::Length
    }
}

fn sum_stop(after: &[u8]) -> Stop
    ensures { result ≡ sum_stop after.now }
{
    match after {
        [] => Stop::Torn,
        [_, ..] => Stop::Checksum,
    }
}

/// The length in front and the bytes after its checksum, or why there is none.
#[tactic(auto, unfolding(crate::specs::Reading::length_at))]
fn length_of(bytes: &[u8]) -> Result<(usize, &[u8]), Stop>
    ensures { Answers (λ x. (x.0, x.1.now)) result (length_at bytes.now) }
{
    let mut cut = Cut::new(bytes);
    let len = cut.be32().or(Err(Stop::Torn))?;
    let sum = cut.be32().or(Err(Stop::Torn))?;
    if is_length(len as usize) && sum == crc32c(&len.to_be_bytes()) {
        Ok((len as usize, cut.rest()))
    } else {
        Err(length_stop(bytes))
    }
}

/// The content in front and the bytes after its record, or why there is none.
#[tactic(auto, unfolding(crate::specs::Reading::record_at))]
pub(crate) fn record_of(bytes: &[u8]) -> Result<(&[u8], &[u8]), Stop>
    ensures { Answers (λ x. (x.0.now, x.1.now)) result (record_at bytes.now) }
{
    let (len, rest) = length_of(bytes)?;
    let mut cut = Cut::new(rest);
    let content = cut.bytes(len).or(Err(Stop::Torn))?;
    let sum = cut.be32().or(Err(Stop::Torn))?;
    if sum != crc32c(content) {
        return Err(sum_stop(cut.rest()));
    }
    Ok((content, cut.rest()))
}

/// Appends a length and its checksum. Where memory runs out, some of it may stand there.
fn put_length(out: &mut Vec<u8>, len: u32) -> Result<(), AllocError>
    ensures { OnOk result (out.new.items ≡ out.old.items ++ length_text len) }
{
    put_be32(out, len)?;
    put_be32(out, crc32c(&len.to_be_bytes()))
}

/// Appends the record of a content. Where memory runs out, some of it may stand there.
#[tactic(auto, unfolding(crate::specs::Records::record_of))]
pub(crate) fn put_record(out: &mut Vec<u8>, content: &[u8]) -> Result<(), AllocError>
    requires { is_length (length content.now) ≡ true }
    ensures { OnOk result (out.new.items ≡ out.old.items ++ record_of content.now) }
{
    put_length(out, content.len() as u32)?;
    put_bytes(out, content)?;
    put_be32(out, crc32c(content))
}
