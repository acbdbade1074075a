//! Numbers of seven bits a byte, the lowest first, as Protocol Buffers and Snappy spell them: read
//! in any spelling of at most ten bytes, and written in the shortest.
//!
//! The files of a block have one spelling for each number, which is `wire`'s to read. Here bytes
//! come from other programs, some of which reserve a length and fill it later: `80 00` is 0.
//!
//! ```
//! assert_eq!(rt; varint_of(&[0xac, 0x02, 7]), Ok((300, [7].as_slice())));
//! assert_eq!(rt; varint_of(&[0xac, 0x82, 0x00]), Ok((300, [].as_slice())));
//! assert_eq!(rt; varint_of(&[0xac]), Err(VarintError::Short));
//!
//! let mut out = Vec::new(rt.alloc());
//! put_varint(&mut out, 300)?;
//! assert_eq!(rt; out.as_slice(), [0xac, 0x02].as_slice());
//! assert_eq!(rt; varint_len(300), 2);
//! ```
//!
//! No read takes memory, and each takes one step a byte. It stands on `wire`. The format is that
//! of the page "Encoding" of Protocol Buffers, "Base 128 Varints".
#![tactic(auto)]

mod error;
mod put;
mod read;

pub use error::VarintError;
pub use put::{put_varint, varint_len};
pub use read::varint_of;
