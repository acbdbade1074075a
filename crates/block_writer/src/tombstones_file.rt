//! The tombstones file.

ghost use Rattle.std.specs.Prelude.{◌≡◌, [], IfOk};
ghost use Rattle.tombstones.specs.Grammar.{IsTombstones};

use std::alloc::{AllocError, Global};
use wire::put_bytes;

/// The tombstones file of a block of which nothing is deleted: 9 bytes.
pub(crate) fn no_tombstones(alloc: Global) -> Result<Vec<u8>, AllocError>
    ensures { IfOk result (λ file. IsTombstones file.items []) }
{
    let mut file = Vec::new(alloc);
    put_bytes(&mut file, &[0x01, 0x30, 0xBA, 0x30, 0x01, 0, 0, 0, 0])?;
    Ok(file)
}
