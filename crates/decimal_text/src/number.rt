//! A number, read from the front of its text to its end.

ghost use Rattle.std.specs.Prelude.{◌≡◌, ◌<◌, ◌≤◌, ◌+◌, ◌-◌, ◌*◌, ◌^◌, [], ℕ, length, IfOk, IsTrue};
ghost use Rattle.std.specs.Prelude.{Ok};
ghost use Rattle.wire.specs.Outcome.{Answers};
ghost use Rattle.decimal_text.specs.Decimals.{is_digit, IsDecimal};
ghost use Rattle.decimal_text.specs.Reading.{digits_in_front, digits_at, fraction_at, with_digit};
ghost use Rattle.decimal_text.specs.Reading.{whole_at, part_at, parts_at, decimal_at};

use crate::error::DecimalError;

/// The number that a text writes, in parts of which 10^places make one.
///
/// The text is digits, perhaps with a point before, among or behind them; a sign is none of it.
/// Nothing is rounded: digits beyond the parts must be 0. The form is checked first, then digit
/// after digit the size and what stands beyond the parts ([`DecimalError`]). It takes time in
/// proportion to the text's length and the places, and no memory.
pub fn decimal(text: &[u8], places: u32) -> Result<u64, DecimalError>
    // The first check that fails is answered; if none does, what reading gives.
    ensures exact { Answers (λ n. n) result (decimal_at text.now places) }
    // What is given is the number that the text writes.
    ensures found { IfOk result (IsDecimal text.now places) }
    ensures bound { IfOk result (λ n. n < 2 ^ 63) }
    // A text that writes a number of parts below 2^63 gives it.
    ensures only { (n : ℕ) → n < 2 ^ 63 → IsDecimal text.now places n → result ≡ Ok n }
{
    read_decimal(text, places)
}

#[tactic(auto, unfolding(crate::specs::Reading::decimal_at))]
fn read_decimal(text: &[u8], places: u32) -> Result<u64, DecimalError>
    ensures exact { Answers (λ n. n) result (decimal_at text.now places) }
    ensures bound { IfOk result (λ n. n < 2 ^ 63) }
{
    let (whole, fraction) = digits_of(text)?;
    let value = whole_of(whole)?;
    let size = parts_of(value, places, fraction)?;
    Ok(size)
}

// `0` to `9`.
fn is_digit(c: u8) -> bool
    ensures { result ≡ is_digit c }
{
    (48 <= c) & (c <= 57)
}

// How many digits stand in front.
fn digits_in_front(text: &[u8]) -> usize
    ensures is { result ≡ digits_in_front text.now }
    ensures within { result ≤ length text.now }
{
    let mut n = 0;
    for c in text {
        if !is_digit(*c) {
            return n;
        }
        n += 1;
    }
    n
}

// The digits after the point, none where there is no point.
#[tactic(auto, unfolding(crate::specs::Reading::fraction_at))]
fn fraction_of(rest: &[u8]) -> Result<&[u8], DecimalError>
    ensures { Answers (λ f. f.now) result (fraction_at rest.now) }
{
    let Some((first, digits)) = rest.split_first() else {
        return Ok(rest);
    };
    let is_fraction = (*first == 46) & (digits_in_front(digits) == digits.len());
    if !is_fraction {
        return Err(DecimalError::Form);
    }
    Ok(digits)
}

/// The digits in front, and those after the point: at least one in all.
#[tactic(auto, unfolding(crate::specs::Reading::digits_at))]
pub fn digits_of(text: &[u8]) -> Result<(&[u8], &[u8]), DecimalError>
    ensures { Answers (λ d. (d.0.now, d.1.now)) result (digits_at text.now) }
{
    let (whole, rest) = text.split_at(digits_in_front(text));
    let fraction = fraction_of(rest)?;
    if whole.is_empty() && fraction.is_empty() {
        return Err(DecimalError::Form);
    }
    Ok((whole, fraction))
}

// A number with one digit more.
fn push(n: u64, digit: u64) -> Result<u64, DecimalError>
    requires { (n < 2 ^ 63) × (digit < 256) }
    ensures exact { Answers (λ m. m) result (with_digit n digit) }
    ensures bound { IfOk result (λ m. m < 2 ^ 63) }
{
    let m = u128::from(n) * 10 + u128::from(digit);
    if m >= 0x8000_0000_0000_0000 {
        return Err(DecimalError::Large);
    }
    Ok(m as u64)
}

// The number that digits write.
fn whole_of(digits: &[u8]) -> Result<u64, DecimalError>
    ensures exact { Answers (λ n. n) result (whole_at 0 digits.now) }
    ensures bound { IfOk result (λ n. n < 2 ^ 63) }
{
    let mut n = 0;
    for c in digits {
        n = push(n, u64::from(c.saturating_sub(48)))?;
    }
    Ok(n)
}

// A number of parts with one digit of the fraction more, and how many places are left.
fn part_of(n: u64, left: u32, c: u8) -> Result<(u64, u32), DecimalError>
    requires { n < 2 ^ 63 }
    ensures exact { Answers (λ x. x) result (part_at n left c) }
    ensures bound { IfOk result (λ x. x.0 < 2 ^ 63) }
{
    if left == 0 {
        if c != 48 {
            return Err(DecimalError::Finer);
        }
        return Ok((n, 0));
    }
    let m = push(n, u64::from(c.saturating_sub(48)))?;
    Ok((m, left - 1))
}

// A number with this many zeros more, for the places at which no digit stands.
fn with_zeros(n: u64, left: u32) -> Result<u64, DecimalError>
    requires { n < 2 ^ 63 }
    ensures exact { Answers (λ m. m) result (parts_at n left []) }
    ensures bound { IfOk result (λ m. m < 2 ^ 63) }
{
    let mut m = n;
    for _ in 0..left {
        m = push(m, 0)?;
    }
    Ok(m)
}

// A whole number in parts, with the digits of a fraction.
fn parts_of(value: u64, places: u32, digits: &[u8]) -> Result<u64, DecimalError>
    requires { value < 2 ^ 63 }
    ensures exact { Answers (λ n. n) result (parts_at value places digits.now) }
    ensures bound { IfOk result (λ n. n < 2 ^ 63) }
{
    let mut n = value;
    let mut left = places;
    for c in digits {
        let (m, fewer) = part_of(n, left, *c)?;
        n = m;
        left = fewer;
    }
    let size = with_zeros(n, left)?;
    Ok(size)
}
