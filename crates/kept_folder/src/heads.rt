//! The checksum of a head, which tells it from another.

ghost use Rattle.std.specs.Prelude.{◌≡◌, IfOk};
ghost use Rattle.wire.specs.Checksum.{crc32c};
ghost use Rattle.journal.specs.Contents.{contents_in};
ghost use Rattle.kept_folder.specs.Heads.{IsHeadSum, front_of};

use journal::{file_text, recover};
use std::alloc::{AllocError, Global};
use wire::crc32c;

/// The CRC-32C of the journal of contents; of no bytes, if there are none.
fn front_sum(alloc: Global, contents: &[Vec<u8>]) -> Result<u32, AllocError>
    ensures { IfOk result (λ sum. sum ≡ crc32c (front_of (contents_in contents.now))) }
{
    if contents.is_empty() {
        return Ok(crc32c(&[]));
    }
    match file_text(alloc, contents) {
        Ok(text) => Ok(crc32c(&text)),
        Err(_) => Err(AllocError),
    }
}

/// The CRC-32C of a journal up to the end of the records of its head, which so many events follow;
/// of no bytes, if all records are events. The journal was read before, so its records are refused
/// for want of memory alone.
pub(crate) fn head_sum(alloc: Global, bytes: &[u8], events: usize) -> Result<u32, AllocError>
    ensures { IfOk result (λ sum. IsHeadSum bytes.now events sum) }
{
    match recover(alloc, bytes) {
        Ok(recovered) => {
            let own = recovered.contents.len().saturating_sub(events);
            front_sum(alloc, recovered.contents.split_at(own).0)
        }
        Err(_) => Err(AllocError),
    }
}
