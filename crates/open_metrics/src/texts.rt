//! The texts of labels.

ghost use Rattle.std.specs.Prelude.{◌≡◌, length};
ghost use Rattle.open_metrics.specs.Outcome.{Gives};
ghost use Rattle.open_metrics.specs.Texts.{char_at, escape_at, escaped, text_at, until_end};

use crate::error::{Fault, Reason};
use std::alloc::Global;

// The character that an escape stands for, if this letter ends one.
fn escaped(c: u8) -> Option<u8>
    ensures { result ≡ escaped c }
{
    match c {
        b'\\' => Some(b'\\'),
        b'"' => Some(b'"'),
        b'n' => Some(b'\n'),
        _ => None,
    }
}

// What a backslash in front of these bytes stands for, and what stands behind it.
#[tactic(auto, unfolding(crate::specs::Texts::escape_at))]
fn cut_escape(bytes: &[u8]) -> (u8, &[u8])
    ensures { (result.0, result.1.now) ≡ escape_at bytes.now }
{
    let Some((first, rest)) = bytes.split_first() else {
        return (b'\\', bytes);
    };
    match escaped(*first) {
        Some(c) => (c, rest),
        None => (b'\\', bytes),
    }
}

// The next character of a text, or its end.
#[tactic(auto, unfolding(crate::specs::Texts::char_at))]
fn cut_char(bytes: &[u8]) -> Result<(Option<u8>, &[u8]), Fault>
    ensures { Gives (λ x. (x.0, x.1.now)) result (char_at bytes.now) }
{
    let Some((first, rest)) = bytes.split_first() else {
        return Err(Fault::At(Reason::Text, 0));
    };
    if *first == b'"' {
        return Ok((None, rest));
    }
    if *first == b'\\' {
        let (c, behind) = cut_escape(rest);
        return Ok((Some(c), behind));
    }
    if *first == b'\n' {
        return Err(Fault::At(Reason::Text, bytes.len()));
    }
    Ok((Some(*first), rest))
}

fn cut_chars(alloc: Global, bytes: &[u8], count: usize) -> Result<(Vec<u8>, &[u8]), Fault>
    ensures { Gives (λ x. (x.0.items, x.1.now)) result
        (until_end char_at Reason.Text count bytes.now) }
{
    let mut text = Vec::new(alloc);
    let mut rest = bytes;
    for counter in 0..count {
        let (next, after) = cut_char(rest)?;
        let Some(c) = next else {
            return Ok((text, after));
        };
        text.push(c)?;
        rest = after;
    }
    Err(Fault::At(Reason::Text, rest.len()))
}

/// The text after a quote, up to the next one that no backslash escapes, and what stands behind it.
/// A backslash that begins no escape stands for itself.
#[tactic(auto, unfolding(crate::specs::Texts::text_at))]
pub fn cut_text(alloc: Global, bytes: &[u8]) -> Result<(Vec<u8>, &[u8]), Fault>
    ensures { Gives (λ x. (x.0.items, x.1.now)) result (text_at bytes.now) }
{
    cut_chars(alloc, bytes, bytes.len())
}
