//! Doubles as whole numbers of parts.

ghost use Rattle.std.specs.Prelude.{◌≡◌, ◌^◌, ◌≤◌, ◌<◌, ◌*ℤ◌, pos, ℤ, Some, IfSome, unsigned_abs};
ghost use Rattle.imported_values.specs.Values.{IsExact};

use crate::digits::Digits;
use doubles::{decimal, power, whole};

/// The number that the double with these bits is in parts of which 10^digits make one.
///
/// A whole number below 2^63 in size is taken as it is, times 10^digits; another double as the
/// number of at most 15 digits whose decimal text is read as this double. `None` where there is no
/// such number, or it is not below 2^63 in size: for a NaN, an infinity, a number that needs more
/// digits, and a large one. Minus zero is 0.
pub fn exact(digits: Digits, bits: u64) -> Option<i64>
    // What is given is the double's number of parts.
    ensures found { IfSome result (IsExact digits bits) }
    ensures bound { IfSome result (λ v. unsigned_abs v < 2 ^ 63) }
    // Where it has one, it is given.
    ensures only { (v : ℤ) → IsExact digits bits v → result ≡ Some v }
{
    match whole(bits) {
        Some(n) => in_parts(n, digits),
        None => decimal(bits, digits.number()),
    }
}

// A whole number in parts, where this is below 2^63 in size.
fn in_parts(n: i64, digits: Digits) -> Option<i64>
    ensures found { IfSome result (λ v. v ≡ n *ℤ pos (10 ^ digits)) }
    ensures bound { IfSome result (λ v. unsigned_abs v < 2 ^ 63) }
    ensures only { unsigned_abs (n *ℤ pos (10 ^ digits)) < 2 ^ 63
        → result ≡ Some (n *ℤ pos (10 ^ digits)) }
{
    let parts = power(digits.number());
    let value = i128::from(n) * i128::from(parts);
    if value <= -0x8000_0000_0000_0000 || value >= 0x8000_0000_0000_0000 {
        return None;
    }
    Some(value as i64)
}
