//! Numbers and bytes as the files of a block spell them, and the checksum that stands after them.
//!
//! A [`Cut`] is what is left of a slice. Each read gives the value whose one spelling stands in
//! front and leaves the bytes after it, or it names the refusal, `W1` to `W3` ([`WireError`]), and
//! leaves the cut as it was; no read takes memory. What a `put_` function appends to a vector is
//! that spelling, or nothing where memory runs out. [`crc32c`] is CRC-32C.
//!
//! ```
//! let mut out = Vec::new(rt.alloc());
//! put_uvarint(&mut out, 300)?;
//! put_bytes(&mut out, b"up")?;
//!
//! let mut cut = Cut::new(out.as_slice());
//! assert_eq!(rt; cut.uvarint(), Ok(300));
//! assert_eq!(rt; cut.bytes(2), Ok(b"up".as_slice()));
//! assert_eq!(rt; cut.u8(), Err(WireError::Short));
//! ```
//!
//! It stands on `byteorder`. The forms are those of Prometheus's TSDB format documents, which
//! take them from Go's `encoding/binary`; that a longer spelling of a number is refused is this
//! project's own rule. What every reader of such bytes says of its answers is in
//! `specs/Outcome.antt`.
#![tactic(auto)]

mod checksum;
mod cut;
mod error;
mod put;
mod tables;

pub use checksum::crc32c;
pub use cut::Cut;
pub use error::WireError;
pub use put::{put_be32, put_be64, put_bytes, put_u8, put_uvarint, put_varint};
