//! The body of a reply.

ghost use Rattle.std.specs.Prelude.{List, IfOk};
ghost use Rattle.remote_rows.specs.Sent.{Answer, IsReplyTo, IsBodyOf};

use snappy::compress;
use std::alloc::{AllocError, Global};

/// The greatest text that can be compressed, in bytes: 2^32 - 1.
const MOST: usize = 4_294_967_295;

/// The text of a reply, compressed. There is no room for one of 2^32 bytes or more.
pub fn packed(alloc: Global, text: &[u8]) -> Result<Vec<u8>, AllocError>
    ensures { (answers : List Answer) → IsReplyTo answers text.now
        → IfOk result (λ bytes. IsBodyOf answers bytes.items) }
{
    if text.len() > MOST {
        return Err(AllocError);
    }
    compress(alloc, text)
}
