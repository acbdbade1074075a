//! Writing to the end of a vector. Where memory runs out the vector stays as it was.

ghost use Rattle.std.specs.Prelude.{◌≡◌, ◌<◌, ◌≤◌, ◌^◌, ◌++◌, ◌∷◌, [], length, take, OnErr, OnOk};
ghost use Rattle.byteorder.specs.Endian.{big_bytes};
ghost use Rattle.wire.specs.Spelling.{uvarint, varint, zigzag, BeginsNoOther};

use byteorder::{BigEndian, ByteOrder};
use std::alloc::AllocError;

/// Appends one byte.
pub fn put_u8(out: &mut Vec<u8>, byte: u8) -> Result<(), AllocError>
    ensures ok { OnOk result (out.new.items ≡ out.old.items ++ byte ∷ []) }
    ensures err { OnErr result (out.new.items ≡ out.old.items) }
{
    out.push(byte)?;
    Ok(())
}

/// Appends four bytes, the highest first.
pub fn put_be32(out: &mut Vec<u8>, n: u32) -> Result<(), AllocError>
    ensures ok { OnOk result (out.new.items ≡ out.old.items ++ big_bytes 4 n) }
    ensures err { OnErr result (out.new.items ≡ out.old.items) }
    ensures alone { BeginsNoOther (λ m. m < 2 ^ 32) (big_bytes 4) n }
{
    let mut bytes = [0u8; 4];
    BigEndian::write_u32(&mut bytes, n);
    out.extend_from_slice(&bytes)
}

/// Appends eight bytes, the highest first.
pub fn put_be64(out: &mut Vec<u8>, n: u64) -> Result<(), AllocError>
    ensures ok { OnOk result (out.new.items ≡ out.old.items ++ big_bytes 8 n) }
    ensures err { OnErr result (out.new.items ≡ out.old.items) }
    ensures alone { BeginsNoOther (λ m. m < 2 ^ 64) (big_bytes 8) n }
{
    let mut bytes = [0u8; 8];
    BigEndian::write_u64(&mut bytes, n);
    out.extend_from_slice(&bytes)
}

/// Appends a number, seven bits a byte, the lowest first: 1 to 10 bytes.
pub fn put_uvarint(out: &mut Vec<u8>, n: u64) -> Result<(), AllocError>
    ensures ok { OnOk result (out.new.items ≡ out.old.items ++ uvarint n) }
    ensures err { OnErr result (out.new.items ≡ out.old.items) }
    ensures alone { BeginsNoOther (λ m. m < 2 ^ 64) uvarint n }
{
    let mut bytes = [0u8; 10];
    let len = spell(n, &mut bytes);
    out.extend_from_slice(&bytes[..len])
}

/// Appends a signed number, of which 0, -1, 1, -2 are spelled as 0, 1, 2, 3: 1 to 10 bytes.
#[tactic(auto, unfolding(crate::specs::Spelling::varint))]
pub fn put_varint(out: &mut Vec<u8>, z: i64) -> Result<(), AllocError>
    ensures ok { OnOk result (out.new.items ≡ out.old.items ++ varint z) }
    ensures err { OnErr result (out.new.items ≡ out.old.items) }
    ensures alone { BeginsNoOther (λ y. zigzag y < 2 ^ 64) varint z }
{
    put_uvarint(out, zigzag(z))
}

/// Appends the bytes as they stand, without their length.
pub fn put_bytes(out: &mut Vec<u8>, bytes: &[u8]) -> Result<(), AllocError>
    ensures ok { OnOk result (out.new.items ≡ out.old.items ++ bytes.now) }
    ensures err { OnErr result (out.new.items ≡ out.old.items) }
{
    out.extend_from_slice(bytes)
}

fn zigzag(z: i64) -> u64
    ensures { result ≡ zigzag z }
{
    if z < 0 {
        (-1 - z) as u64 * 2 + 1
    } else {
        z as u64 * 2
    }
}

fn spell(n: u64, bytes: &mut [u8]) -> usize
    requires { length bytes.old ≡ 10 }
    ensures len { result ≤ 10 }
    ensures spelled { take result bytes.new ≡ uvarint n }
{
    let mut left = n;
    let mut len = 0;
    while left >= 128 {
        bytes[len] = (left % 128) as u8 + 128;
        left /= 128;
        len += 1;
    }
    bytes[len] = left as u8;
    len + 1
}
