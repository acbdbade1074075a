//! Texts of doubles: read as the nearest, and written as Prometheus prints them.
//!
//! [`read_double`] gives the bits of the double that is nearest to the number that a text writes.
//! [`append_double`] appends the text of a double: the shortest decimal that is read as it, with an
//! exponent below 0.0001 and from a million on, as Go's `strconv` has it in its form `g`. What is
//! appended is read again as the same bits; of a NaN no text tells the payload.
//!
//! ```
//! assert_eq!(rt; read_double(b"0.1"), Some(0x3FB9_9999_9999_999A));
//! let mut text = Vec::new(rt.alloc());
//! append_double(rt.alloc(), &mut text, 0x3FB9_9999_9999_999A)?;
//! assert_eq!(rt; text.as_slice(), b"0.1");
//! ```
//!
//! It stands on the kit's `fast_float`, whose contract says which double is nearest (IEEE 754,
//! rounded to the even one of two), and on `ryu` for the shortest digits.
#![tactic(auto)]

mod form;
mod reading;
mod writing;

pub use reading::read_double;
pub use writing::append_double;
