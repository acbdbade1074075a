//! Numbers in decimal.

ghost use Rattle.std.specs.Prelude.{◌≡◌, ◌++◌, ◌∷◌, decimal, OnOk};
ghost use Rattle.std.specs.Fmt.{signed_decimal};
ghost use Rattle.page_text.specs.Printing.{comma_before, with_commas, counted};
ghost use Rattle.page_text.specs.Printing.{hundredths, share_text};

use itoa::write_digits;
use std::alloc::AllocError;

/// Appends a number.
pub(crate) fn append_number(out: &mut Vec<u8>, n: u64) -> Result<(), AllocError>
    ensures { OnOk result (out.new.items ≡ out.old.items ++ decimal n) }
{
    let mut buf = [0; 20];
    let start = write_digits(n, &mut buf, 20);
    out.extend_from_slice(&buf[start..])
}

/// Appends a number with a sign.
pub(crate) fn append_integer(out: &mut Vec<u8>, n: i64) -> Result<(), AllocError>
    ensures { OnOk result (out.new.items ≡ out.old.items ++ signed_decimal n) }
{
    if n < 0 {
        out.push(b'-')?;
    }
    append_number(out, n.unsigned_abs())
}

/// Appends a digit, with a comma behind it if three digits follow, or six, or more threes.
fn append_digit(out: &mut Vec<u8>, digit: u8, later: usize) -> Result<(), AllocError>
    ensures { OnOk result (out.new.items ≡ out.old.items ++ (digit ∷ comma_before later)) }
{
    out.push(digit)?;
    if later > 0 && later % 3 == 0 {
        out.push(b',')?;
    }
    Ok(())
}

/// Appends digits, with a comma before each three of them but the first.
fn append_digits(out: &mut Vec<u8>, digits: &[u8]) -> Result<(), AllocError>
    ensures { OnOk result (out.new.items ≡ out.old.items ++ with_commas digits.now) }
{
    let mut rest = digits;
    while let Some((digit, later)) = rest.split_first() {
        append_digit(out, *digit, later.len())?;
        rest = later;
    }
    Ok(())
}

/// Appends a number with commas.
pub(crate) fn append_counted(out: &mut Vec<u8>, n: u64) -> Result<(), AllocError>
    ensures { OnOk result (out.new.items ≡ out.old.items ++ counted n) }
{
    let mut buf = [0; 20];
    let start = write_digits(n, &mut buf, 20);
    append_digits(out, &buf[start..])
}

/// Appends a point and the last two digits of a number.
#[tactic(auto, unfolding(crate::specs::Printing::hundredths))]
fn append_hundredths(out: &mut Vec<u8>, n: u64) -> Result<(), AllocError>
    ensures { OnOk result (out.new.items ≡ out.old.items ++ hundredths n) }
{
    out.push(b'.')?;
    append_number(out, n % 100 / 10)?;
    append_number(out, n % 10)
}

/// Appends hundredths of a percent.
#[tactic(auto, unfolding(crate::specs::Printing::share_text))]
pub(crate) fn append_share(out: &mut Vec<u8>, n: u64) -> Result<(), AllocError>
    ensures { OnOk result (out.new.items ≡ out.old.items ++ share_text n) }
{
    append_number(out, n / 100)?;
    if n % 100 > 0 {
        append_hundredths(out, n)?;
    }
    Ok(out.push(b'%')?)
}
