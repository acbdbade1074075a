//! Reading a field from the front of a slice.

ghost use Rattle.std.specs.Prelude.{◌≡◌, ◌+◌, ◌<◌, ◌≤◌, ◌++◌, length, IfOk, Ok, ℕ, List};
ghost use Rattle.wire.specs.Outcome.{Answers};
ghost use Rattle.protobuf_fields.specs.Format.{IsField, Value};
ghost use Rattle.protobuf_fields.specs.Reading.{body_at, bytes_at, field_at, number_at};
ghost use Rattle.protobuf_fields.specs.Reading.{or_fault, seen, text_len};
ghost use Rattle.varints.specs.Varint.{varint_at};

use crate::error::Fault;
use crate::field::Field;
use byteorder::{ByteOrder, LittleEndian};
use varints::{VarintError, varint_of};

#[inline(always)]
fn number_of(bytes: &[u8]) -> Result<(u64, &[u8]), Fault>
    ensures exact { Answers (λ x. (x.0, x.1.now)) result (or_fault (varint_at bytes.now)) }
    ensures shorter { IfOk result (λ x. length x.1.now < length bytes.now) }
{
    match varint_of(bytes) {
        Ok(x) => Ok(x),
        Err(VarintError::Short) => Err(Fault::Short),
        Err(VarintError::TooBig) => Err(Fault::TooBig),
    }
}

#[inline(always)]
fn eight_of(bytes: &[u8]) -> Result<(u64, &[u8]), Fault>
    ensures exact { Answers (λ x. (x.0, x.1.now)) result (number_at 8 bytes.now) }
    ensures shorter { IfOk result (λ x. length x.1.now ≤ length bytes.now) }
{
    if bytes.len() < 8 {
        return Err(Fault::Short);
    }
    Ok((LittleEndian::read_u64(bytes), bytes.split_at(8).1))
}

#[inline(always)]
fn four_of(bytes: &[u8]) -> Result<(u32, &[u8]), Fault>
    ensures exact { Answers (λ x. (x.0, x.1.now)) result (number_at 4 bytes.now) }
    ensures shorter { IfOk result (λ x. length x.1.now ≤ length bytes.now) }
{
    if bytes.len() < 4 {
        return Err(Fault::Short);
    }
    Ok((LittleEndian::read_u32(bytes), bytes.split_at(4).1))
}

#[inline(always)]
fn bytes_of(count: u64, bytes: &[u8]) -> Result<(&[u8], &[u8]), Fault>
    ensures exact { Answers (λ x. (x.0.now, x.1.now)) result (bytes_at count bytes.now) }
    ensures shorter { IfOk result (λ x. length x.0.now + length x.1.now ≤ length bytes.now) }
{
    if (bytes.len() as u64) < count {
        return Err(Fault::Short);
    }
    Ok(bytes.split_at(count as usize))
}

#[inline(always)]
#[tactic(auto, unfolding(crate::specs::Reading::body_at))]
fn body_of(number: u32, kind: u64, bytes: &[u8]) -> Result<(Field<'_>, &[u8]), Fault>
    ensures exact { Answers (λ x. (seen x.0, x.1.now)) result (body_at number kind bytes.now) }
    ensures shorter { IfOk result (λ x. text_len (seen x.0) + length x.1.now ≤ length bytes.now) }
{
    if kind == 0 {
        let (value, rest) = number_of(bytes)?;
        return Ok((Field::Number(number, value), rest));
    }
    if kind == 1 {
        let (value, rest) = eight_of(bytes)?;
        return Ok((Field::Eight(number, value), rest));
    }
    if kind == 2 {
        let (count, behind) = number_of(bytes)?;
        let (value, rest) = bytes_of(count, behind)?;
        return Ok((Field::Text(number, value), rest));
    }
    if kind == 5 {
        let (value, rest) = four_of(bytes)?;
        return Ok((Field::Four(number, value), rest));
    }
    Err(Fault::Kind)
}

#[inline(always)]
#[tactic(auto, unfolding(crate::specs::Reading::field_at))]
fn front_of(bytes: &[u8]) -> Result<(Field<'_>, &[u8]), Fault>
    ensures exact { Answers (λ x. (seen x.0, x.1.now)) result (field_at bytes.now) }
    ensures shorter { IfOk result (λ x. text_len (seen x.0) + length x.1.now < length bytes.now) }
{
    let (key, behind) = number_of(bytes)?;
    let number = key / 8;
    let outside = (number == 0) | (number > 0x1fff_ffff);
    if outside {
        return Err(Fault::Key);
    }
    body_of(number as u32, key % 8, behind)
}

/// The field in front of the bytes, and the bytes after it; or the first fault, `U1` to `U4`.
#[inline(always)]
pub fn field_of(bytes: &[u8]) -> Result<(Field<'_>, &[u8]), Fault>
    ensures exact { Answers (λ x. (seen x.0, x.1.now)) result (field_at bytes.now) }
    // What is given is what the bytes in front spell.
    ensures found { IfOk result (λ x.
        (text : List ℕ) × IsField text (seen x.0) × (bytes.now ≡ text ++ x.1.now)) }
    // Where a field stands in front, it is given.
    ensures only { (text rest : List ℕ) (value : Value) → IsField text value
        → bytes.now ≡ text ++ rest
        → Answers {Y = Value × List ℕ} (λ x. (seen x.0, x.1.now)) result (Ok (value, rest)) }
    // A text and what stands behind the field are less than the bytes.
    ensures shorter { IfOk result (λ x. text_len (seen x.0) + length x.1.now < length bytes.now) }
{
    front_of(bytes)
}
