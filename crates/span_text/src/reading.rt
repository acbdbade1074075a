//! How a span of time is read.

ghost use Rattle.std.specs.Prelude.{◌≡◌, ◌<◌, ◌^◌, ℕ, IfSome, IfNone};
ghost use Rattle.span_text.specs.Spans.{IsNumber, IsSpan, each_in, number_in, unit_of};

/// How many milliseconds a unit has, by its letter.
fn unit_of(letter: u8) -> Option<u64>
    ensures { result ≡ unit_of letter }
{
    match letter {
        b's' => Some(1_000),
        b'm' => Some(60_000),
        b'h' => Some(3_600_000),
        b'd' => Some(86_400_000),
        _ => None,
    }
}

/// The number in a text, and how many milliseconds its unit has.
fn parted(text: &[u8]) -> (&[u8], u64)
    ensures number { result.0.now ≡ number_in text.now }
    ensures each { result.1 ≡ each_in text.now }
{
    let Some((letter, front)) = text.split_last() else {
        return (text, 1);
    };
    match unit_of(*letter) {
        Some(each) => (front, each),
        None => (text, 1),
    }
}

/// The number that digits write.
fn number_of(digits: &[u8]) -> Option<u64>
    ensures some { IfSome result (IsNumber digits.now) }
    ensures none { IfNone result ((n : ℕ) → IsNumber digits.now n → n < 2 ^ 64 → ⊥) }
{
    let Ok(text) = std::str::from_utf8(digits) else {
        return None;
    };
    match text.parse::<u64>() {
        Ok(number) => Some(number),
        Err(_) => None,
    }
}

/// How many milliseconds a text writes, 1 or more: a number alone, or a number and behind it `s`,
/// `m`, `h` or `d`. None if it writes no such number, or one that needs more than 64 bits.
pub fn span_of(text: &str) -> Option<u64>
    ensures some { IfSome result (IsSpan text.now) }
    ensures none { IfNone result ((n : ℕ) → IsSpan text.now n → n < 2 ^ 64 → ⊥) }
{
    let (digits, each) = parted(text.as_bytes());
    let Some(number) = number_of(digits) else {
        return None;
    };
    match number.checked_mul(each) {
        Some(span) if span > 0 => Some(span),
        _ => None,
    }
}
