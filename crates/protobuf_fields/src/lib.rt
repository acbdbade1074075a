//! The fields of a message of Protocol Buffers, read where they stand, one at a time.
//!
//! [`field_of`] gives the field in front of the bytes and the bytes after it, or the first fault,
//! `U1` to `U5` ([`Fault`]). A message is its fields one after another; a message within it is a
//! field of bytes, which is read only by who knows it. So nothing is nested, and a field that is
//! not known is passed over by its length.
//!
//! ```
//! // Field 1, the bytes "up", and field 2, the number 150.
//! let bytes = [0x0a, 2, b'u', b'p', 0x10, 0x96, 0x01];
//! let (field, rest) = field_of(&bytes)?;
//! assert!(rt; matches!(field, Field::Text(1, text) if text == b"up".as_slice()));
//! assert_eq!(rt; rest, [0x10, 0x96, 0x01].as_slice());
//! assert_eq!(rt; field_of(&rest[..2]).err(), Some(Fault::Short));
//! ```
//!
//! It takes no memory. It stands on `varints` and `byteorder`. The format is that of the page
//! "Encoding" of Protocol Buffers. What a reader of a whole message says of itself is in
//! `specs/Format.antt` (the fields of bytes, the last of a number) and `specs/Reading.antt` (a
//! message read by any step, as far as the first fault), with laws in `proofs/Messages.antt`.
#![tactic(auto)]

mod error;
mod field;
mod reads;

pub use error::Fault;
pub use field::Field;
pub use reads::field_of;
