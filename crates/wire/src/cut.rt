//! Reading from the front of a slice.

ghost use Rattle.std.specs.Prelude.{◌≡◌, ◌<◌, ◌≤◌, ◌^◌, ◌++◌, ◌∷◌, ◌↔◌, [], ℕ, ℤ, List, length};
ghost use Rattle.std.specs.Prelude.{IfOk, IsOk, IsTrue, Ok};
ghost use Rattle.byteorder.specs.Endian.{big_bytes};
ghost use Rattle.wire.specs.Outcome.{Answers, Reads, ReadsEach, Takes};
ghost use Rattle.wire.specs.Reading.{byte_at, bytes_at, number_at, unzigzag, uvarint_at, varint_at};
ghost use Rattle.wire.specs.Spelling.{uvarint, varint, zigzag};

use crate::error::WireError;
use byteorder::{BigEndian, ByteOrder};
use std::marker::Model;

/// What is left of a slice that is read from the front.
///
/// A read that is refused leaves the cut as it was.
#[derive(Drop)]
pub struct Cut<'a> {
    rest: &'a [u8],
}

impl<'a> Model for Cut<'a> {
    ghost Value = { List ℕ };

    ghost view = { λ c. c.rest.now };
}

impl<'a> Cut<'a> {
    /// The whole slice.
    pub fn new(bytes: &'a [u8]) -> Cut<'a>
        ensures { result ≡ bytes.now }
    {
        Cut { rest: bytes }
    }

    /// How many bytes are left.
    pub fn len(&self) -> usize
        ensures { result ≡ length self.now }
    {
        self.rest.len()
    }

    /// Whether nothing is left.
    pub fn is_empty(&self) -> bool
        ensures { IsTrue result ↔ (self.now ≡ []) }
    {
        self.rest.is_empty()
    }

    /// The bytes that are left, for as long as the slice lives.
    pub fn rest(&self) -> &'a [u8]
        ensures { result.now ≡ self.now }
    {
        self.rest
    }

    /// Takes one byte. `W1` where none is left.
    pub fn u8(&mut self) -> Result<u8, WireError>
        ensures exact { Reads (λ n. n) (byte_at self.old) result self.old self.new }
        ensures found { IfOk result (λ n. Takes (n ∷ []) self.old self.new) }
        ensures only { (n : ℕ) (rest : List ℕ) → self.old ≡ n ∷ rest → result ≡ Ok n }
    {
        let Some((first, after)) = self.rest.split_first() else {
            return Err(WireError::Short);
        };
        self.rest = after;
        Ok(*first)
    }

    /// Takes four bytes, the highest first. `W1` where fewer are left.
    pub fn be32(&mut self) -> Result<u32, WireError>
        ensures exact { Reads (λ n. n) (number_at 4 self.old) result self.old self.new }
        ensures found { IfOk result (λ n. Takes (big_bytes 4 n) self.old self.new) }
        ensures only { ReadsEach (λ n. n < 2 ^ 32) (big_bytes 4) self.old result }
    {
        let (n, after) = be32_of(self.rest)?;
        self.rest = after;
        Ok(n)
    }

    /// Takes eight bytes, the highest first. `W1` where fewer are left.
    pub fn be64(&mut self) -> Result<u64, WireError>
        ensures exact { Reads (λ n. n) (number_at 8 self.old) result self.old self.new }
        ensures found { IfOk result (λ n. Takes (big_bytes 8 n) self.old self.new) }
        ensures only { ReadsEach (λ n. n < 2 ^ 64) (big_bytes 8) self.old result }
    {
        let (n, after) = be64_of(self.rest)?;
        self.rest = after;
        Ok(n)
    }

    /// Takes a number of seven bits a byte, the lowest first.
    ///
    /// `W1` where the bytes end within it, `W3` where a tenth byte is above 1, `W2` where its last
    /// byte is 0 and not its only one; the first of these from the front.
    pub fn uvarint(&mut self) -> Result<u64, WireError>
        ensures exact { Reads (λ n. n) (uvarint_at self.old) result self.old self.new }
        ensures found { IfOk result (λ n. Takes (uvarint n) self.old self.new) }
        ensures only { ReadsEach (λ n. n < 2 ^ 64) uvarint self.old result }
    {
        let (n, after) = uvarint_of(self.rest)?;
        self.rest = after;
        Ok(n)
    }

    /// Takes a signed number: 0, -1, 1, -2 are spelled as [`Cut::uvarint`] spells 0, 1, 2, 3, and
    /// are refused alike.
    pub fn varint(&mut self) -> Result<i64, WireError>
        ensures exact { Reads (λ z. z) (varint_at self.old) result self.old self.new }
        ensures found { IfOk result (λ z. Takes (varint z) self.old self.new) }
        ensures only { ReadsEach (λ z. zigzag z < 2 ^ 64) varint self.old result }
    {
        let (z, after) = varint_of(self.rest)?;
        self.rest = after;
        Ok(z)
    }

    /// Takes `n` bytes as they stand. `W1` where fewer are left.
    pub fn bytes(&mut self, n: usize) -> Result<&'a [u8], WireError>
        ensures exact { Reads (λ s. s.now) (bytes_at n self.old) result self.old self.new }
        ensures found { IfOk result (λ s. Takes s.now self.old self.new) }
        ensures long { IfOk result (λ s. length s.now ≡ n) }
        ensures only { n ≤ length self.old → IsOk result }
    {
        let rest = self.rest;
        if rest.len() < n {
            return Err(WireError::Short);
        }
        let (front, after) = rest.split_at(n);
        self.rest = after;
        Ok(front)
    }
}

fn be32_of(bytes: &[u8]) -> Result<(u32, &[u8]), WireError>
    ensures exact { Answers (λ x. (x.0, x.1.now)) result (number_at 4 bytes.now) }
    ensures found { IfOk result (λ x. Takes (big_bytes 4 x.0) bytes.now x.1.now) }
{
    if bytes.len() < 4 {
        return Err(WireError::Short);
    }
    Ok((BigEndian::read_u32(bytes), bytes.split_at(4).1))
}

fn be64_of(bytes: &[u8]) -> Result<(u64, &[u8]), WireError>
    ensures exact { Answers (λ x. (x.0, x.1.now)) result (number_at 8 bytes.now) }
    ensures found { IfOk result (λ x. Takes (big_bytes 8 x.0) bytes.now x.1.now) }
{
    if bytes.len() < 8 {
        return Err(WireError::Short);
    }
    Ok((BigEndian::read_u64(bytes), bytes.split_at(8).1))
}

fn uvarint_of(bytes: &[u8]) -> Result<(u64, &[u8]), WireError>
    ensures exact { Answers (λ x. (x.0, x.1.now)) result (uvarint_at bytes.now) }
    ensures found { IfOk result (λ x. Takes (uvarint x.0) bytes.now x.1.now) }
{
    sevens(bytes)
}

#[tactic(auto, unfolding(crate::specs::Reading::varint_at))]
fn varint_of(bytes: &[u8]) -> Result<(i64, &[u8]), WireError>
    ensures exact { Answers (λ x. (x.0, x.1.now)) result (varint_at bytes.now) }
    ensures found { IfOk result (λ x. Takes (varint x.0) bytes.now x.1.now) }
{
    let (n, after) = uvarint_of(bytes)?;
    Ok((unzigzag(n), after))
}

fn unzigzag(n: u64) -> i64
    ensures { result ≡ unzigzag n }
{
    if n % 2 == 0 {
        (n / 2) as i64
    } else {
        -1 - (n / 2) as i64
    }
}

fn sevens(bytes: &[u8]) -> Result<(u64, &[u8]), WireError>
    ensures { Answers (λ x. (x.0, x.1.now)) result (uvarint_at bytes.now) }
{
    let mut low = 0u64;
    let mut rest = bytes;
    for place in 0..10u32 {
        let Some((first, after)) = rest.split_first() else {
            return Err(WireError::Short);
        };
        let byte = *first;
        let too_big = (place == 9) & (byte > 1);
        if too_big {
            return Err(WireError::TooBig);
        }
        if byte < 128 {
            let long_form = (byte == 0) & (place > 0);
            if long_form {
                return Err(WireError::LongForm);
            }
            return Ok((low + (u64::from(byte) << (7 * place)), after));
        }
        low += u64::from(byte - 128) << (7 * place);
        rest = after;
    }
    unreachable!()
}
