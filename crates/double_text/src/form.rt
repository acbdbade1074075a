//! The form in which Prometheus prints a number.

use std::alloc::{AllocError, Global};

/// The digits of a number, the first and the last of which are not 0; none for 0.
#[derive(Drop)]
struct Decimal {
    digits: Vec<u8>,
    /// How many of them stand before the point; below 0, how many zeros stand behind it.
    point: i64,
}

/// What stands before a mark and behind it, if it is there; else all, and this.
fn parts_of<'a>(text: &'a str, mark: char, other: &'a str) -> (&'a str, &'a str) {
    match text.split_once(mark) {
        Some(parts) => parts,
        None => (text, other),
    }
}

/// The number that digits write, with a minus or none; 0 for other texts.
fn number_in(text: &str) -> i64 {
    fast_float::parse_i64(text.as_bytes()).unwrap_or(0)
}

/// Appends digits, without zeros in front; how many zeros were left out.
fn push_digits(digits: &mut Vec<u8>, more: &[u8]) -> Result<i64, AllocError> {
    let mut zeros = 0i64;
    for c in more {
        if digits.is_empty() && *c == b'0' {
            zeros = zeros.saturating_add(1);
        } else {
            digits.push(*c)?;
        }
    }
    Ok(zeros)
}

/// How many digits stand up to the last that is not 0.
fn kept(digits: &[u8]) -> usize {
    let mut kept = 0usize;
    let mut count = 0usize;
    for c in digits {
        count = count.saturating_add(1);
        if *c != b'0' {
            kept = count;
        }
    }
    kept
}

/// The digits of a decimal text without a sign.
fn decimal_in(alloc: Global, text: &str) -> Result<Decimal, AllocError> {
    let (mantissa, exponent) = parts_of(text, 'e', "0");
    let (whole, fraction) = parts_of(mantissa, '.', "");
    let mut digits = Vec::new(alloc);
    let before = push_digits(&mut digits, whole.as_bytes())?;
    let behind = push_digits(&mut digits, fraction.as_bytes())?;
    let length = kept(digits.as_slice());
    digits.truncate(length);
    let point = number_in(exponent)
        .saturating_add(whole.len() as i64)
        .saturating_sub(before)
        .saturating_sub(behind);
    Ok(Decimal { digits, point })
}

fn push_zeros(out: &mut Vec<u8>, count: u64) -> Result<(), AllocError> {
    for _ in 0..count {
        out.push(b'0')?;
    }
    Ok(())
}

/// Appends a number with its digits around the point.
fn push_near(out: &mut Vec<u8>, digits: &[u8], point: i64) -> Result<(), AllocError> {
    if point <= 0 {
        out.extend_from_slice(b"0.")?;
        push_zeros(out, point.unsigned_abs())?;
        return out.extend_from_slice(digits);
    }
    let before = point.unsigned_abs();
    if before >= digits.len() as u64 {
        out.extend_from_slice(digits)?;
        return push_zeros(out, before - digits.len() as u64);
    }
    let (whole, fraction) = digits.split_at(before as usize);
    out.extend_from_slice(whole)?;
    out.push(b'.')?;
    out.extend_from_slice(fraction)
}

/// Appends a number with one digit before its point, and an exponent of two digits at least.
fn push_far(
    alloc: Global,
    out: &mut Vec<u8>,
    digits: &[u8],
    exponent: i64,
) -> Result<(), AllocError> {
    let Some((first, rest)) = digits.split_first() else {
        return Ok(());
    };
    out.push(*first)?;
    if !rest.is_empty() {
        out.push(b'.')?;
        out.extend_from_slice(rest)?;
    }
    let sign = if exponent < 0 { '-' } else { '+' };
    let size = exponent.unsigned_abs();
    let text = format!(in alloc; "e{sign}{size:02}")?;
    out.extend_from_slice(text.as_bytes())
}

fn push_number(alloc: Global, out: &mut Vec<u8>, number: &Decimal) -> Result<(), AllocError> {
    let digits = number.digits.as_slice();
    if digits.is_empty() {
        return push_zeros(out, 1);
    }
    let exponent = number.point.saturating_sub(1);
    if exponent < -4 || exponent >= 6 {
        return push_far(alloc, out, digits, exponent);
    }
    push_near(out, digits, number.point)
}

/// A decimal text in the form in which Prometheus prints the number that it writes. The other texts
/// of doubles are `inf`, which it writes `+Inf`, and `-inf`, which it writes `-Inf`.
pub fn formed(alloc: Global, text: &str) -> Result<Vec<u8>, AllocError> {
    let mut out = Vec::new(alloc);
    let size = match text.strip_prefix('-') {
        Some(size) => {
            out.push(b'-')?;
            size
        }
        None => text,
    };
    if size == "inf" {
        let word = if out.is_empty() { "+Inf" } else { "Inf" };
        out.extend_from_slice(word.as_bytes())?;
        return Ok(out);
    }
    let number = decimal_in(alloc, size)?;
    push_number(alloc, &mut out, &number)?;
    Ok(out)
}
