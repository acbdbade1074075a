//! Writing a number at the end of a vector.

ghost use Rattle.std.specs.Prelude.{◌≡◌, ◌≤◌, ◌++◌, length, OnErr, OnOk};
ghost use Rattle.wire.specs.Spelling.{uvarint};
ghost use Rattle.varints.specs.Varint.{IsVarint};

use std::alloc::AllocError;
use wire::put_uvarint;

/// Appends a number in its shortest spelling, of 1 to 10 bytes. Where memory runs out the vector
/// stays as it was.
#[inline(always)]
pub fn put_varint(out: &mut Vec<u8>, n: u64) -> Result<(), AllocError>
    ensures ok { OnOk result (out.new.items ≡ out.old.items ++ uvarint n) }
    ensures err { OnErr result (out.new.items ≡ out.old.items) }
    // What is written spells the number.
    ensures spelled { IsVarint (uvarint n) n }
{
    if n < 128 {
        out.push(n as u8)?;
        return Ok(());
    }
    put_uvarint(out, n)
}

/// How many bytes the shortest spelling of a number has, 1 to 10.
pub fn varint_len(n: u64) -> usize
    ensures exact { result ≡ length (uvarint n) }
    ensures few { result ≤ 10 }
{
    let mut left = n;
    let mut len = 1;
    while left >= 128 {
        left /= 128;
        len += 1;
    }
    len
}
