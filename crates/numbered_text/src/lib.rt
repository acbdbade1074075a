//! Batches whose series are named by number.
//!
//! A content of a journal is the text of an event, or a batch by number: its label sets stand there
//! by the numbers that contents before it gave them, or are given there, and each time is told by
//! how much later it is than the one before it. [`plain_text`] gives the text that a content stands
//! for, and the names after it, or the first fault ([`NumberError`]). [`numbered_text`] gives a
//! content by number that stands for a text.
//!
//! ```
//! let mut names = NameTable::new(rt.alloc());
//! let text = b"\x01\x01\x01\x01a\x01b\x01\xD0\x0F\x02";
//! let first = numbered_text(rt.alloc(), &mut names, text)?;
//! assert_eq!(rt; first.as_slice(), b"\x04\x01\x00\x01\x01a\x01b\x01\xD0\x0F\x02");
//! let again = numbered_text(rt.alloc(), &mut names, text)?;
//! assert_eq!(rt; again.as_slice(), b"\x04\x01\x00\x01\xD0\x0F\x02");
//! ```
//!
//! It stands on `wire` for numbers and on `name_table` for names. The form is this project's own,
//! and is in docs/FORMATS.md.
#![tactic(auto)]

mod error;
mod parts;
mod reading;
mod writing;

pub use error::NumberError;
pub use reading::plain_text;
pub use writing::numbered_text;
