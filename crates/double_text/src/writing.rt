//! The text of a double.

ghost use Rattle.std.specs.Prelude.{◌≡◌, ◌++◌, List, ℕ, Some, false, true, IfOk, OnOk};
ghost use Rattle.double_text.specs.Texts.{IsTextOf, double_at, is_nan_bits};

use crate::form::formed;
use crate::reading::read_double;
use ryu::Buffer;
use std::alloc::{AllocError, Global};

/// The bits of an infinity.
const INFINITY: u64 = 0x7FF0_0000_0000_0000;

fn is_nan(bits: u64) -> bool
    ensures { result ≡ is_nan_bits bits }
{
    bits % 0x8000_0000_0000_0000 > INFINITY
}

// Whether a text is read as the double with these bits.
fn is_read_as(text: &[u8], bits: u64) -> bool
    ensures { result ≡ true → double_at text.now ≡ Some bits }
{
    match read_double(text) {
        Some(read) => read == bits,
        None => false,
    }
}

// The shortest text that is read as the double: as Prometheus prints it, if this is read so too.
fn shortest(alloc: Global, bits: u64) -> Result<Vec<u8>, AllocError>
    requires { is_nan_bits bits ≡ false }
    ensures { IfOk result (λ text. double_at text.items ≡ Some bits) }
{
    let mut buffer = Buffer::new();
    let text = buffer.format(f64::from_bits(bits));
    let formed = formed(alloc, text)?;
    if is_read_as(formed.as_slice(), bits) {
        return Ok(formed);
    }
    Vec::from_slice(alloc, text.as_bytes())
}

/// Appends the text of the double with these bits, as Prometheus prints it: `NaN`, `+Inf`, `-Inf`,
/// or the shortest decimal that is read as it.
pub fn append_double(alloc: Global, out: &mut Vec<u8>, bits: u64) -> Result<(), AllocError>
    // What is appended is read again as the double, each bit of it.
    ensures { OnOk result ((text : List ℕ) × (out.new.items ≡ out.old.items ++ text)
        × IsTextOf bits text) }
{
    if is_nan(bits) {
        return out.extend_from_slice(b"NaN");
    }
    let text = shortest(alloc, bits)?;
    out.extend_from_slice(text.as_slice())
}
