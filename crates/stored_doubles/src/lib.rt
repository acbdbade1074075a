//! Doubles kept as whole numbers of 64 bits, every bit of every double.
//!
//! A store's samples are whole numbers. [`stored`] gives the number that is kept for a double, and
//! [`restored`] the double's bits again. A whole double of size up to 2^53 is kept as itself, so
//! that counters read as they are; but its number is also the bits of some other double, which
//! takes the place of the whole one's bits. All else is kept by its bits: fractions, infinities,
//! minus zero, each NaN with its payload, and the mark that a series has ended.
//!
//! ```
//! // 42, 0.1 and minus zero.
//! assert_eq!(rt; stored(0x4045_0000_0000_0000), 42);
//! assert_eq!(rt; stored(0x3FB9_9999_9999_999A), 0x3FB9_9999_9999_999A);
//! assert_eq!(rt; stored(0x8000_0000_0000_0000), i64::MIN);
//! assert_eq!(rt; restored(42), 0x4045_0000_0000_0000);
//! ```
//!
//! Both are one swap of whole numbers, [`swapped`], which is its own inverse: each k of size 1 to
//! 2^53 changes places with the bits of the double k, and no such bits are so small a number. It
//! takes a few steps and no memory, and computes with no double. It stands on `doubles`, whose
//! definitions of a double's bits (IEEE 754, binary64) it cites.
#![tactic(auto)]

mod bits;
mod swap;

pub use swap::{restored, restored_is_stored, stored, stored_is_restored, swapped, swapped_twice};
