//! A number, rounded to the nearest whole number of parts.

ghost use Rattle.std.specs.Prelude.{◌≡◌, ◌<◌, ◌≤◌, ◌*◌, ◌^◌, IfOk, Ok};
ghost use Rattle.wire.specs.Outcome.{Answers};
ghost use Rattle.decimal_text.specs.Rounded.{IsNearest};
ghost use Rattle.decimal_text.specs.Tenths.{cut_after, cut_of, grown, is_exact, is_up, keep_of};
ghost use Rattle.decimal_text.specs.Tenths.{limit, nearest_at, nearest_of, of_cut, padded};
ghost use Rattle.decimal_text.specs.Tenths.{rounded_at, unread, with_next};
ghost use Rattle.decimal_text.specs.declared.rounding.Nearest.{Nearest};

use crate::error::DecimalError;
use crate::number::digits_of;

/// A whole number of parts, and whether it is just the number that was read.
#[derive(Clone, Copy, Debug, PartialEq, Eq, Drop)]
pub struct Nearest {
    /// The number of parts, below 2^63.
    pub size: u64,
    /// Whether nothing was rounded.
    pub exact: bool,
}

/// Tenths of parts while the digits of a number are read.
#[derive(Clone, Copy, Drop)]
struct Cut {
    /// The digits that are kept, up to the tenths of 2^63 parts.
    tenths: u128,
    /// How many digits more are kept.
    left: u64,
    /// Whether a digit other than 0 is not kept.
    more: bool,
}

/// The whole number nearest to the number that a text writes, times 10^places and divided by
/// 10^shift; of two that are as near it is the even one.
///
/// The text is that of [`decimal`](crate::decimal), and is refused for its form, or because the
/// nearest is 2^63 or more. It takes time in proportion to the text's length and the places, and no
/// memory.
pub fn rounded(text: &[u8], places: u32, shift: u32) -> Result<Nearest, DecimalError>
    // The first check that fails is answered; if none does, what reading gives.
    ensures exact { Answers (λ n. n) result (nearest_at text.now places shift) }
    // What is given is the nearest to the number that the text writes.
    ensures found { IfOk result (IsNearest text.now places shift) }
    ensures bound { IfOk result (λ n. n.size < 2 ^ 63) }
    // The nearest is given, if it is below 2^63.
    ensures only { (n : Nearest) → n.size < 2 ^ 63 → IsNearest text.now places shift n
        → result ≡ Ok n }
{
    read_rounded(text, places, shift)
}

#[tactic(auto, unfolding(crate::specs::Tenths::nearest_at))]
fn read_rounded(text: &[u8], places: u32, shift: u32) -> Result<Nearest, DecimalError>
    ensures exact { Answers (λ n. n) result (nearest_at text.now places shift) }
    ensures bound { IfOk result (λ n. n.size < 2 ^ 63) }
{
    let (whole, fraction) = digits_of(text)?;
    let cut = cut_of(whole, fraction, places, shift);
    let n = of_cut(cut)?;
    Ok(n)
}

// How many digits are kept: those of the parts, and one behind them.
fn keep_of(whole: &[u8], places: u32, shift: u32) -> u64
    ensures { result ≡ keep_of whole.now places shift }
{
    (whole.len() as u64 + u64::from(places) + 1).saturating_sub(u64::from(shift))
}

fn unread(keep: u64) -> Cut
    ensures exact { result ≡ unread keep }
    ensures bound { result.tenths ≤ limit }
{
    Cut {
        tenths: 0,
        left: keep,
        more: false,
    }
}

#[tactic(auto, unfolding(crate::specs::Tenths::cut_of))]
fn cut_of(whole: &[u8], fraction: &[u8], places: u32, shift: u32) -> Cut
    ensures exact { result ≡ cut_of whole.now fraction.now places shift }
    ensures bound { result.tenths ≤ limit }
{
    let none = unread(keep_of(whole, places, shift));
    cut_after(cut_after(none, whole), fraction)
}

// What is kept, with digits behind it.
fn cut_after(before: Cut, digits: &[u8]) -> Cut
    requires { before.tenths ≤ limit }
    ensures exact { result ≡ cut_after before digits.now }
    ensures bound { result.tenths ≤ limit }
{
    let mut cut = before;
    for c in digits {
        cut = with_next(cut, *c);
    }
    cut
}

fn with_next(cut: Cut, c: u8) -> Cut
    requires { cut.tenths ≤ limit }
    ensures exact { result ≡ with_next cut c }
    ensures bound { result.tenths ≤ limit }
{
    if cut.left == 0 {
        return Cut {
            tenths: cut.tenths,
            left: cut.left,
            more: cut.more | (c != 48),
        };
    }
    Cut {
        tenths: grown(cut.tenths, c.saturating_sub(48)),
        left: cut.left - 1,
        more: cut.more,
    }
}

// A number with one digit more, up to the limit.
#[tactic(auto, unfolding(crate::specs::Tenths::grown))]
fn grown(n: u128, digit: u8) -> u128
    requires { n ≤ limit }
    ensures exact { result ≡ grown n digit }
    ensures bound { result ≤ limit }
{
    let longer = n * 10 + u128::from(digit);
    if longer < 0x5_0000_0000_0000_0000 {
        longer
    } else {
        0x5_0000_0000_0000_0000
    }
}

// A number with this many zeros more.
fn padded(tenths: u128, zeros: u64) -> u128
    requires { tenths ≤ limit }
    ensures exact { result ≡ padded zeros tenths }
    ensures bound { result ≤ limit }
{
    let mut n = tenths;
    for _ in 0..zeros {
        n = grown(n, 0);
    }
    n
}

#[tactic(auto, unfolding(crate::specs::Tenths::of_cut))]
fn of_cut(cut: Cut) -> Result<Nearest, DecimalError>
    requires { cut.tenths ≤ limit }
    ensures exact { Answers (λ n. n) result (of_cut cut) }
    ensures bound { IfOk result (λ n. n.size < 2 ^ 63) }
{
    let tenths = padded(cut.tenths, cut.left);
    let n = to_parts(tenths, cut.more)?;
    Ok(n)
}

// Tenths as parts; if there is more, a rest stands behind the tenths.
#[tactic(auto, unfolding(crate::specs::Tenths::rounded_at))]
fn to_parts(tenths: u128, more: bool) -> Result<Nearest, DecimalError>
    requires { tenths ≤ limit }
    ensures exact { Answers (λ n. n) result (rounded_at tenths more) }
    ensures bound { IfOk result (λ n. n.size < 2 ^ 63) }
{
    let size = nearest_of(tenths, more);
    if size >= 0x8000_0000_0000_0000 {
        return Err(DecimalError::Large);
    }
    Ok(Nearest {
        size: size as u64,
        exact: is_exact(tenths, more),
    })
}

#[tactic(auto, unfolding(crate::specs::Tenths::nearest_of))]
fn nearest_of(tenths: u128, more: bool) -> u128
    requires { tenths ≤ limit }
    ensures { result ≡ nearest_of tenths more }
{
    if is_up(tenths, more) {
        tenths / 10 + 1
    } else {
        tenths / 10
    }
}

#[tactic(auto, unfolding(crate::specs::Tenths::is_up))]
fn is_up(tenths: u128, more: bool) -> bool
    ensures { result ≡ is_up tenths more }
{
    let last = tenths % 10;
    (last > 5) | ((last == 5) & (more | (tenths / 10 % 2 == 1)))
}

#[tactic(auto, unfolding(crate::specs::Tenths::is_exact))]
fn is_exact(tenths: u128, more: bool) -> bool
    ensures { result ≡ is_exact tenths more }
{
    (tenths % 10 == 0) & !more
}
