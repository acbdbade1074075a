//! Numbers, read exactly.

ghost use Rattle.std.specs.Prelude.{◌≡◌, ◌≤◌, ◌<◌, ◌+◌, ◌^◌, ℤ, IfOk, IfSome, unsigned_abs};
ghost use Rattle.std.specs.Str.{str_eq_ignore_ascii_case};
ghost use Rattle.wire.specs.Outcome.{Answers};
ghost use Rattle.open_metrics.specs.Numbers.{exponent_at, is_minus, is_special, number_at};
ghost use Rattle.open_metrics.specs.Numbers.{of_nearest, scaled_at, signed_at, small_at};
ghost use Rattle.open_metrics.specs.Numbers.{unsigned_of, value_of, with_sign};

use crate::tokens::{Class, cut_word, front_len};
use decimal_text::{DecimalError, Nearest, decimal, rounded};

/// What the text of a number says.
#[derive(Clone, Copy, Debug, PartialEq, Eq, Drop)]
pub enum Value {
    /// This whole number of parts, below 2^63 in size.
    Parts(i64),
    /// No whole number of parts. This is the nearest, of two the even one, below 2^63 in size.
    Near(i64),
    /// A number whose nearest whole number of parts is 2^63 or more in size, a NaN or an infinity.
    Other,
}

fn is_minus(text: &[u8]) -> bool
    ensures { result ≡ is_minus text.now }
{
    match text.split_first() {
        Some((first, _)) => *first == b'-',
        None => false,
    }
}

// What stands after a sign, or all where there is none.
fn unsigned(text: &[u8]) -> &[u8]
    ensures { result.now ≡ unsigned_of text.now }
{
    let Some((first, rest)) = text.split_first() else {
        return text;
    };
    if *first == b'-' || *first == b'+' {
        rest
    } else {
        text
    }
}

// A number of at most 999.
#[tactic(auto, unfolding(crate::specs::Numbers::small_at))]
fn small(digits: &[u8]) -> Option<u32>
    ensures is { result ≡ small_at digits.now }
    ensures few { IfSome result (λ n. n ≤ 999) }
{
    if front_len(Class::Digit, digits) != digits.len() {
        return None;
    }
    match decimal(digits, 0) {
        Ok(n) => { if n <= 999 { Some(n as u32) } else { None } }
        Err(_) => None,
    }
}

// The exponent after a mantissa: whether it is below 0, and its size.
#[tactic(auto, unfolding(crate::specs::Numbers::exponent_at))]
fn exponent(text: &[u8]) -> Option<(bool, u32)>
    ensures is { result ≡ exponent_at text.now }
    ensures few { IfSome result (λ e. e.1 ≤ 999) }
{
    let Some((_, rest)) = text.split_first() else {
        return Some((false, 0));
    };
    let size = small(unsigned(rest))?;
    Some((is_minus(rest), size))
}

// The size of a mantissa with an exponent, in parts of which 10^places make one.
#[tactic(auto, unfolding(crate::specs::Numbers::scaled_at))]
fn scaled(mantissa: &[u8], places: u32, down: bool, size: u32) -> Result<Nearest, DecimalError>
    requires places { places ≤ 9 }
    requires size { size ≤ 999 }
    ensures exact { Answers (λ n. n) result (scaled_at mantissa.now places down size) }
    ensures bound { IfOk result (λ n. n.size < 2 ^ 63) }
{
    if down {
        let n = rounded(mantissa, places, size)?;
        return Ok(n);
    }
    let n = rounded(mantissa, places + size, 0)?;
    Ok(n)
}

fn with_sign(minus: bool, size: u64) -> i64
    requires { size < 2 ^ 63 }
    ensures is { result ≡ with_sign minus size }
    ensures bound { unsigned_abs result < 2 ^ 63 }
{
    if minus { -(size as i64) } else { size as i64 }
}

fn of_nearest(minus: bool, n: Nearest) -> Value
    requires { n.size < 2 ^ 63 }
    ensures { result ≡ of_nearest minus n }
{
    let value = with_sign(minus, n.size);
    if n.exact {
        Value::Parts(value)
    } else {
        Value::Near(value)
    }
}

fn value_of(minus: bool, size: Result<Nearest, DecimalError>) -> Option<Value>
    requires { IfOk size (λ n. n.size < 2 ^ 63) }
    ensures { result ≡ value_of minus size }
{
    match size {
        Ok(n) => Some(of_nearest(minus, n)),
        Err(DecimalError::Form) => None,
        Err(DecimalError::Finer) => Some(Value::Other),
        Err(DecimalError::Large) => Some(Value::Other),
    }
}

// Whether two texts are the same but for the case of their letters.
fn is_word(text: &[u8], word: &[u8]) -> bool
    ensures { result ≡ str_eq_ignore_ascii_case text.now word.now }
{
    text.eq_ignore_ascii_case(word)
}

fn is_special(text: &[u8]) -> bool
    ensures { result ≡ is_special text.now }
{
    let size = unsigned(text);
    is_word(text, b"nan") || (is_word(size, b"inf") || is_word(size, b"infinity"))
}

#[tactic(auto, unfolding(crate::specs::Numbers::signed_at))]
fn signed(text: &[u8], places: u32) -> Option<Value>
    requires { places ≤ 9 }
    ensures { result ≡ signed_at text.now places }
{
    let (mantissa, rest) = cut_word(Class::Mantissa, unsigned(text));
    let (down, size) = exponent(rest)?;
    let size = scaled(mantissa, places, down, size);
    value_of(is_minus(text), size)
}

/// The number that a text writes, in parts of which 10^places make one, or `None` where it writes
/// no number.
///
/// The text is `nan`, or a sign or none and `inf` or `infinity`, in letters of either case; or a
/// sign or none, digits, perhaps with a point before, among or behind them, and perhaps `e` or `E`
/// and an exponent, whose size is at most 999. It is read exactly: if it is no whole number of
/// parts, the nearest is given as such.
#[tactic(auto, unfolding(crate::specs::Numbers::number_at))]
pub fn number(text: &[u8], places: u32) -> Option<Value>
    requires { places ≤ 9 }
    ensures { result ≡ number_at text.now places }
{
    if is_special(text) {
        return Some(Value::Other);
    }
    signed(text, places)
}
