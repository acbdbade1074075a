//! Reading bits from the front of a slice, the highest of each byte first.

ghost use Rattle.std.specs.Prelude.{◌≡◌, ◌<◌, ◌≤◌, ◌-◌, ◌+◌, ◌*◌, ◌/◌, ◌%◌, ◌^◌, ◌++◌, Bool, []};
ghost use Rattle.std.specs.Prelude.{length, IfOk, ◌⊎◌};
ghost use Rattle.wire.specs.Outcome.{Answers};
ghost use Rattle.xor_reader.specs.Bits.{field, bits_of, bit_at, bits_at, is_padding};
ghost use Rattle.xor_reader.specs.Outcome.{ReadsFront};

use crate::error::XorError;
use byteorder::{BigEndian, ByteOrder};
use std::marker::Model;

/// The bits of a slice that were not read yet.
#[derive(Drop)]
pub struct Bits<'a> {
    /// The lowest `left` of these come next, then those of `rest`.
    word: u64,
    left: u32,
    rest: &'a [u8],
}

impl<'a> Model for Bits<'a> {
    ghost use Rattle.std.specs.Prelude.{◌≤◌, ◌<◌, ◌^◌, ◌++◌, Bool, List};
    ghost use Rattle.xor_reader.specs.Bits.{field, bits_of};

    ghost Value = { List Bool };

    ghost view = { λ b. field b.left b.word ++ bits_of b.rest.now };

    ghost invariant = { λ b. (b.left ≤ 64) × (b.word < 2 ^ b.left) };
}

impl<'a> Bits<'a> {
    /// The bits of these bytes.
    #[tactic(auto, unfolding(crate::specs::Bits::field))]
    pub fn new(bytes: &'a [u8]) -> Bits<'a>
        ensures { result ≡ bits_of bytes.now }
    {
        Bits {
            word: 0,
            left: 0,
            rest: bytes,
        }
    }

    /// Takes `n` bits as a number.
    pub fn bits(&mut self, n: u32) -> Result<u64, XorError>
        requires { (1 ≤ n) × (n ≤ 64) }
        ensures exact { ReadsFront (λ v. v) (bits_at n self.old) result self.new }
        ensures few { IfOk result (λ v. v < 2 ^ n) }
    {
        let (value, word, left, rest) = take(self.word, self.left, self.rest, n)?;
        self.word = word;
        self.left = left;
        self.rest = rest;
        Ok(value)
    }

    /// Whether up to eight bits are left, all of them 0.
    pub fn is_padding(&self) -> bool
        ensures { result ≡ is_padding self.now }
    {
        is_padding(self.word, self.left, self.rest)
    }

    /// Takes one bit.
    pub fn bit(&mut self) -> Result<bool, XorError>
        ensures { ReadsFront (λ b. b) (bit_at self.old) result self.new }
    {
        Ok(self.bits(1)? == 1)
    }
}

// The first n of the bits in hand, and the others.
fn split(word: u64, left: u32, n: u32) -> (u64, u64)
    requires few { (1 ≤ n) × (n ≤ left) × (left ≤ 64) }
    requires held { word < 2 ^ left }
    ensures { result ≡ (word / 2 ^ (left - n), word % 2 ^ (left - n)) }
{
    let low = left - n;
    (word >> low, word % (1 << low))
}

// Up to eight bytes as bits in hand.
fn load(rest: &[u8]) -> (u64, u32, &[u8])
    ensures held { (result.1 ≤ 64) × (result.0 < 2 ^ result.1) }
    ensures bits { bits_of rest.now ≡ field result.1 result.0 ++ bits_of result.2.now }
    ensures many { (64 ≤ result.1) ⊎ (result.2.now ≡ []) }
{
    if rest.len() >= 8 {
        return (BigEndian::read_u64(rest), 64, rest.split_at(8).1);
    }
    if rest.is_empty() {
        return (0, 0, rest);
    }
    let n = rest.len();
    (
        BigEndian::read_uint(rest, n),
        n as u32 * 8,
        rest.split_at(n).1,
    )
}

// The first n bits as a number, and the bits after them.
fn take(word: u64, left: u32, rest: &[u8], n: u32) -> Result<(u64, u64, u32, &[u8]), XorError>
    requires held { (left ≤ 64) × (word < 2 ^ left) }
    requires few { (1 ≤ n) × (n ≤ 64) }
    ensures exact { Answers (λ x. (x.0, field x.2 x.1 ++ bits_of x.3.now)) result
        (bits_at n (field left word ++ bits_of rest.now)) }
    ensures held { IfOk result (λ x. (x.2 ≤ 64) × (x.1 < 2 ^ x.2)) }
{
    if n <= left {
        let (value, after) = split(word, left, n);
        return Ok((value, after, left - n, rest));
    }
    let more = n - left;
    let (next, held, after) = load(rest);
    if held < more {
        return Err(XorError::Short);
    }
    let (low, last) = split(next, held, more);
    let value = if left == 0 { low } else { (word << more) + low };
    Ok((value, last, held - more, after))
}

// Whether up to eight bits are left, all of them 0.
fn is_padding(word: u64, left: u32, rest: &[u8]) -> bool
    requires { word < 2 ^ left }
    ensures { result ≡ is_padding (field left word ++ bits_of rest.now) }
{
    if rest.is_empty() {
        (left <= 8) & (word == 0)
    } else {
        (left == 0) & (rest.len() == 1) & (rest[0] == 0)
    }
}
