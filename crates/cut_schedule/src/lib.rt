//! When a store is cut by itself.
//!
//! Cuts are at multiples of a number of milliseconds. One is [`due`] as soon as a sample that is
//! another number of milliseconds later has been committed, and the clock says as late a time: so a
//! sender that catches up is not refused, and one sample from tomorrow cuts nothing.
//! [`awaited`] says which time the newest sample needs at least.
//!
//! ```
//! assert_eq!(rt; due(1000, 500, -5, 2499, 9999), Some(1000));
//! assert_eq!(rt; due(1000, 500, -5, 9999, 2499), Some(1000));
//! assert_eq!(rt; due(1000, 500, 1000, 2499, 9999), None);
//! assert_eq!(rt; awaited(1000, 500, 1000), 2500);
//! ```
//!
//! It stands on nothing.
#![tactic(auto)]

mod times;

pub use times::{awaited, due};
