//! Decimals with a number of digits after the point.

ghost use Rattle.std.specs.Prelude.{◌≡◌, ◌≤◌, ◌^◌, ◌++◌, ℕ, decimal, OnOk};
ghost use Rattle.metrics_writer.specs.Numbers.{digit_at, fraction_of, last_digits};
ghost use Rattle.metrics_writer.specs.Numbers.{number_text, size_text};

use doubles::power;
use itoa::write_digits;
use std::alloc::AllocError;

/// Appends the number.
fn append_natural(out: &mut Vec<u8>, n: u64) -> Result<(), AllocError>
    ensures { OnOk result (out.new.items ≡ out.old.items ++ decimal n) }
{
    let mut buf = [0; 20];
    let start = write_digits(n, &mut buf, 20);
    out.extend_from_slice(&buf[start..])
}

// The digit that counts 10^k.
fn digit_at(k: u32, n: u64) -> u8
    requires { k ≤ 9 }
    ensures { result ≡ digit_at k n }
{
    b'0' + (n / power(k) % 10) as u8
}

// Appends the last digits of a number, with zeros in front.
fn append_last(out: &mut Vec<u8>, digits: u32, n: u64) -> Result<(), AllocError>
    requires { digits ≤ 9 }
    ensures { OnOk result (out.new.items ≡ out.old.items ++ last_digits digits n) }
{
    for i in 0..digits {
        out.push(digit_at(digits - 1 - i, n))?;
    }
    Ok(())
}

fn append_fraction(out: &mut Vec<u8>, places: u32, n: u64) -> Result<(), AllocError>
    requires { places ≤ 9 }
    ensures { OnOk result (out.new.items ≡ out.old.items ++ fraction_of places n) }
{
    if places == 0 {
        return Ok(());
    }
    out.push(b'.')?;
    append_last(out, places, n)
}

#[tactic(auto, unfolding(crate::specs::Numbers::size_text))]
fn append_size(out: &mut Vec<u8>, places: u32, n: u64) -> Result<(), AllocError>
    requires { places ≤ 9 }
    ensures { OnOk result (out.new.items ≡ out.old.items ++ size_text places n) }
{
    append_natural(out, n / power(places))?;
    append_fraction(out, places, n)
}

/// Appends the number n / 10^places, with so many digits after its point.
#[tactic(auto, unfolding(crate::specs::Numbers::number_text))]
pub fn append_number(out: &mut Vec<u8>, places: u32, n: i64) -> Result<(), AllocError>
    requires { places ≤ 9 }
    ensures { OnOk result (out.new.items ≡ out.old.items ++ number_text places n) }
{
    if n >= 0 {
        return append_size(out, places, n as u64);
    }
    out.push(b'-')?;
    append_size(out, places, n.unsigned_abs())
}
