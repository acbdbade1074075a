//! Words of a line.

ghost use Rattle.std.specs.Prelude.{◌≡◌, ◌≤◌, length};
ghost use Rattle.open_metrics.specs.Outcome.{Gives};
ghost use Rattle.open_metrics.specs.Tokens.{after_blanks, behind, blanks_at, byte_at, count_front};
ghost use Rattle.open_metrics.specs.Tokens.{front, gap_at, goes_on, in_name, is_begun, name_at};

use crate::comments::Format;
use crate::error::{Fault, Reason};

/// Which bytes a word may have.
#[derive(Clone, Copy, Debug, PartialEq, Eq, Drop)]
pub enum Class {
    /// Those of the name of a metric.
    Metric,
    /// Those of the name of a label.
    Label,
    /// Digits.
    Digit,
    /// All but `e` and `E`.
    Mantissa,
    /// All but blanks.
    Word,
    /// Blanks: spaces and tabs.
    Blank,
}

fn in_name(c: u8) -> bool
    ensures { result ≡ in_name c }
{
    c.is_ascii_alphabetic() || (c.is_ascii_digit() || c == b'_')
}

fn goes_on(class: Class, c: u8) -> bool
    ensures { result ≡ goes_on class c }
{
    match class {
        Class::Metric => in_name(c) || c == b':',
        Class::Label => in_name(c),
        Class::Digit => c.is_ascii_digit(),
        Class::Mantissa => !(c == b'e' || c == b'E'),
        Class::Word => !(c == b' ' || c == b'\t'),
        Class::Blank => c == b' ' || c == b'\t',
    }
}

/// How many bytes of a word stand in front.
pub fn front_len(class: Class, bytes: &[u8]) -> usize
    ensures is { result ≡ count_front class bytes.now }
    ensures within { result ≤ length bytes.now }
{
    let mut n = 0;
    for c in bytes {
        if !goes_on(class, *c) {
            return n;
        }
        n += 1;
    }
    n
}

/// The word in front, and what stands behind it.
pub fn cut_word(class: Class, bytes: &[u8]) -> (&[u8], &[u8])
    ensures word { result.0.now ≡ front class bytes.now }
    ensures rest { result.1.now ≡ behind class bytes.now }
{
    bytes.split_at(front_len(class, bytes))
}

/// What stands behind blanks, which the older text may have.
pub fn skip_blanks(format: Format, bytes: &[u8]) -> &[u8]
    ensures { result.now ≡ after_blanks format bytes.now }
{
    match format {
        Format::OpenMetrics => bytes,
        Format::Prometheus => cut_word(Class::Blank, bytes).1,
    }
}

fn is_begun(name: &[u8]) -> bool
    ensures { result ≡ is_begun name.now }
{
    match name.split_first() {
        Some((first, _)) => !first.is_ascii_digit(),
        None => false,
    }
}

/// The name in front, and what stands behind it.
#[tactic(auto, unfolding(crate::specs::Tokens::name_at))]
pub fn cut_name(class: Class, reason: Reason, bytes: &[u8]) -> Result<(&[u8], &[u8]), Fault>
    ensures { Gives (λ x. (x.0.now, x.1.now)) result (name_at class reason bytes.now) }
{
    let (name, rest) = cut_word(class, bytes);
    if !is_begun(name) {
        return Err(Fault::At(reason, bytes.len()));
    }
    Ok((name, rest))
}

/// What stands after this byte.
#[tactic(auto, unfolding(crate::specs::Tokens::byte_at))]
pub fn cut_byte(c: u8, reason: Reason, bytes: &[u8]) -> Result<&[u8], Fault>
    ensures { Gives (λ x. x.now) result (byte_at c reason bytes.now) }
{
    let Some((first, rest)) = bytes.split_first() else {
        return Err(Fault::At(reason, 0));
    };
    if *first != c {
        return Err(Fault::At(reason, bytes.len()));
    }
    Ok(rest)
}

#[tactic(auto, unfolding(crate::specs::Tokens::blanks_at))]
fn cut_blanks(reason: Reason, bytes: &[u8]) -> Result<&[u8], Fault>
    ensures { Gives (λ x. x.now) result (blanks_at reason bytes.now) }
{
    let Some((first, rest)) = bytes.split_first() else {
        return Err(Fault::At(reason, 0));
    };
    if !goes_on(Class::Blank, *first) {
        return Err(Fault::At(reason, bytes.len()));
    }
    Ok(cut_word(Class::Blank, rest).1)
}

/// What stands after a space, in the older text after blanks.
pub fn cut_gap(format: Format, reason: Reason, bytes: &[u8]) -> Result<&[u8], Fault>
    ensures { Gives (λ x. x.now) result (gap_at format reason bytes.now) }
{
    match format {
        Format::OpenMetrics => cut_byte(b' ', reason, bytes),
        Format::Prometheus => cut_blanks(reason, bytes),
    }
}
