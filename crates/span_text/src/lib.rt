//! A span of time as a text.
//!
//! [`span_of`] reads a number of milliseconds, or a number and the letter of its unit: seconds,
//! minutes, hours or days.
//!
//! ```
//! assert_eq!(rt; span_of("90d"), Some(7_776_000_000));
//! assert_eq!(rt; span_of("36h"), Some(129_600_000));
//! assert_eq!(rt; span_of("30m"), Some(1_800_000));
//! assert_eq!(rt; span_of("45s"), Some(45_000));
//! assert_eq!(rt; span_of("1500"), Some(1_500));
//! assert_eq!(rt; span_of("0d"), None);
//! assert_eq!(rt; span_of("1.5h"), None);
//! ```
//!
//! It stands on nothing.
#![tactic(auto)]

mod reading;

pub use reading::span_of;
