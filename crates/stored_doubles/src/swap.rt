//! Doubles to whole numbers, and back.

ghost use Rattle.std.specs.Prelude.{◌≡◌, ◌<◌, ◌^◌, ℕ, ℤ, FitsSigned};
ghost use Rattle.std.specs.Int.{w64, cast_unsigned};
ghost use Rattle.stored_doubles.specs.Stored.{IsStoredFor};

use crate::bits::{bits_of_whole, is_small, small_whole};

/// The number that is kept for the double with these bits.
pub fn stored(bits: u64) -> i64
    ensures is { IsStoredFor bits result }
    ensures only { (number : ℤ) → FitsSigned w64 number → IsStoredFor bits number
        → number ≡ result }
{
    number_for(bits)
}

fn number_for(bits: u64) -> i64
    ensures { IsStoredFor bits result }
{
    if let Some(value) = small_whole(bits) {
        return value;
    }
    let place = bits.cast_signed();
    if is_small(place) {
        return bits_of_whole(place).cast_signed();
    }
    place
}

/// The number that is kept for the double with this number's bits: what changes places with it.
pub fn swapped(number: i64) -> i64
    ensures is { IsStoredFor (cast_unsigned w64 number) result }
    ensures back { IsStoredFor (cast_unsigned w64 result) number }
{
    stored(number.cast_unsigned())
}

/// The bits of the double for which this number is kept.
pub fn restored(number: i64) -> u64
    ensures is { IsStoredFor result number }
    ensures only { (bits : ℕ) → bits < 2 ^ 64 → IsStoredFor bits number → bits ≡ result }
{
    swapped(number).cast_unsigned()
}

/// The swap is its own inverse.
pub fn swapped_twice(number: i64) -> i64
    ensures { result ≡ number }
{
    swapped(swapped(number))
}

/// No bit of a double is lost.
pub fn stored_is_restored(bits: u64) -> u64
    ensures { result ≡ bits }
{
    restored(stored(bits))
}

/// No two doubles share a number, and none is left over.
pub fn restored_is_stored(number: i64) -> i64
    ensures { result ≡ number }
{
    stored(restored(number))
}
