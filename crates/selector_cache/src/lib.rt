//! Selectors that are asked for again: what a few texts were read as.
//!
//! [`KeptSelectors::parse`] answers as [`Selector::parse`](matchers::Selector::parse) does, and
//! keeps the answers of the texts that it read last, so that their patterns are built once. No
//! clause depends on what is kept.
//!
//! ```
//! let alloc = rt.alloc();
//! let mut kept = KeptSelectors::new(alloc);
//! let first = kept.parse(alloc, "up{job=~\"a|b\"}")?;
//! let again = kept.parse(alloc, "up{job=~\"a|b\"}")?;
//! assert_eq!(rt; first.len(), again.len());
//! ```
//!
//! It stands on `matchers`.
#![tactic(auto)]

mod answer;
mod cache;

pub use cache::{KeptSelectors, MAX_KEPT_BYTES, MAX_KEPT_PATTERNS};
