//! The double that a text writes.

ghost use Rattle.std.specs.Prelude.{◌≡◌};
ghost use Rattle.double_text.specs.Texts.{bits_of, double_at};

const NAN: u64 = 0x7FF8_0000_0000_0001;

fn bits_of(x: f64) -> u64
    ensures { result ≡ bits_of x }
{
    if x.is_nan() { NAN } else { x.to_bits() }
}

/// The bits of the double nearest to the number that a text writes, of two that are as near the
/// even one; `None` where it writes none.
///
/// The text is a sign or none, and digits, perhaps with a point before, among or behind them, and
/// perhaps `e` or `E` and an exponent; or `inf`, `infinity` or `nan`, in letters of either case. A
/// number beyond the greatest double is an infinity. A NaN is the one that Prometheus has for a NaN
/// that it reads.
pub fn read_double(text: &[u8]) -> Option<u64>
    ensures { result ≡ double_at text.now }
{
    match fast_float::parse::<f64, _>(text) {
        Ok(x) => Some(bits_of(x)),
        Err(_) => None,
    }
}
