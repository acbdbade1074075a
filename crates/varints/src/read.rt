//! Reading a number from the front of a slice.

ghost use Rattle.std.specs.Prelude.{◌≡◌, ◌++◌, ◌<◌, ◌^◌, List, ℕ, IfOk, Ok};
ghost use Rattle.wire.specs.Outcome.{Answers};
ghost use Rattle.varints.specs.Varint.{varint_at, IsVarint};

use crate::error::VarintError;

/// The number in front of the bytes, and the bytes after it: of 1 to 10 bytes, in any spelling.
#[inline(always)]
pub fn varint_of(bytes: &[u8]) -> Result<(u64, &[u8]), VarintError>
    ensures exact { Answers (λ x. (x.0, x.1.now)) result (varint_at bytes.now) }
    // What is given is what the bytes in front spell.
    ensures found { IfOk result (λ x.
        (text : List ℕ) × IsVarint text x.0 × (bytes.now ≡ text ++ x.1.now)) }
    // Where a number stands in front, it is given.
    ensures only { (text rest : List ℕ) (n : ℕ) → IsVarint text n → bytes.now ≡ text ++ rest
        → Answers {Y = ℕ × List ℕ} (λ x. (x.0, x.1.now)) result (Ok (n, rest)) }
{
    front_of(bytes)
}

#[inline(always)]
fn front_of(bytes: &[u8]) -> Result<(u64, &[u8]), VarintError>
    ensures { Answers (λ x. (x.0, x.1.now)) result (varint_at bytes.now) }
{
    if let Some((first, rest)) = bytes.split_first() {
        if *first < 128 {
            return Ok((u64::from(*first), rest));
        }
    }
    sevens(bytes)
}

fn sevens(bytes: &[u8]) -> Result<(u64, &[u8]), VarintError>
    ensures { Answers (λ x. (x.0, x.1.now)) result (varint_at bytes.now) }
{
    let mut low = 0u64;
    let mut rest = bytes;
    for place in 0..10u32 {
        let Some((first, after)) = rest.split_first() else {
            return Err(VarintError::Short);
        };
        let byte = *first;
        let too_big = (place == 9) & (byte > 1);
        if too_big {
            return Err(VarintError::TooBig);
        }
        if byte < 128 {
            return Ok((low + (u64::from(byte) << (7 * place)), after));
        }
        low += u64::from(byte - 128) << (7 * place);
        rest = after;
    }
    unreachable!()
}
