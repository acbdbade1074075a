//! The constant front of each page: its policy, its style and the patterns of verdicts.
//!
//! The policy lets nothing be fetched, no form be sent and no script run; it names the hash of the
//! style, so no other style counts.
//!
//! ```
//! let mut page = Vec::new(alloc);
//! append_front(&mut page)?;
//! append_back(&mut page)?;
//! ```
//!
//! It stands on nothing but std.
#![tactic(auto)]

mod front;
mod patterns;
mod style;

pub use front::{append_back, append_front};
