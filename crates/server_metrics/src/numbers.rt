//! Numbers in decimal.

ghost use Rattle.std.specs.Prelude.{◌≡◌, ◌++◌, decimal, OnOk};
ghost use Rattle.server_metrics.specs.Numbers.{millis_text, micros_text, seconds_text};
ghost use Rattle.server_metrics.specs.Numbers.{signed_text, fraction_text};

use itoa::write_digits;
use std::alloc::AllocError;

/// Appends a number.
pub(crate) fn append_number(out: &mut Vec<u8>, n: u64) -> Result<(), AllocError>
    ensures { OnOk result (out.new.items ≡ out.old.items ++ decimal n) }
{
    let mut buf = [0; 20];
    let start = write_digits(n, &mut buf, 20);
    out.extend_from_slice(&buf[start..])
}

/// Appends a number with a sign.
#[tactic(auto, unfolding(crate::specs::Numbers::signed_text))]
pub(crate) fn append_integer(out: &mut Vec<u8>, n: i64) -> Result<(), AllocError>
    ensures { OnOk result (out.new.items ≡ out.old.items ++ signed_text n) }
{
    if n >= 0 {
        return append_number(out, n as u64);
    }
    out.push(b'-')?;
    append_number(out, n.unsigned_abs())
}

/// Appends the first three digits of a part of a second.
#[tactic(auto, unfolding(crate::specs::Numbers::millis_text))]
fn append_millis(out: &mut Vec<u8>, microseconds: u64) -> Result<(), AllocError>
    ensures { OnOk result (out.new.items ≡ out.old.items ++ millis_text microseconds) }
{
    append_number(out, microseconds / 100_000 % 10)?;
    append_number(out, microseconds / 10_000 % 10)?;
    append_number(out, microseconds / 1_000 % 10)
}

/// Appends the last three of its six digits.
#[tactic(auto, unfolding(crate::specs::Numbers::micros_text))]
fn append_micros(out: &mut Vec<u8>, microseconds: u64) -> Result<(), AllocError>
    ensures { OnOk result (out.new.items ≡ out.old.items ++ micros_text microseconds) }
{
    append_number(out, microseconds / 100 % 10)?;
    append_number(out, microseconds / 10 % 10)?;
    append_number(out, microseconds % 10)
}

/// Appends a point, and the part of a second with six digits.
#[tactic(auto, unfolding(crate::specs::Numbers::fraction_text))]
fn append_fraction(out: &mut Vec<u8>, microseconds: u64) -> Result<(), AllocError>
    ensures { OnOk result (out.new.items ≡ out.old.items ++ fraction_text microseconds) }
{
    out.push(b'.')?;
    append_millis(out, microseconds)?;
    append_micros(out, microseconds)
}

/// Appends microseconds as seconds, with six digits behind the point.
#[tactic(auto, unfolding(crate::specs::Numbers::seconds_text))]
pub(crate) fn append_seconds(out: &mut Vec<u8>, microseconds: u64) -> Result<(), AllocError>
    ensures { OnOk result (out.new.items ≡ out.old.items ++ seconds_text microseconds) }
{
    append_number(out, microseconds / 1_000_000)?;
    append_fraction(out, microseconds)
}
