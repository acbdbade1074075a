//! What becomes of a value of Prometheus in a store of whole numbers.
//!
//! A store's values are integers of 64 bits; Prometheus's are doubles. [`exact`] gives the integer
//! that a double is in parts of which 10^digits make one, exactly where there is one (`IsExact`);
//! [`judge`] says by a [`Policy`] whether a value is kept, rounded, left out or refused. A [`Form`]
//! is such a policy, or says that each value is kept as the number for its double, of which no bit
//! is lost: [`judge_in`] says what becomes of a value in it.
//!
//! ```
//! let policy = Policy {
//!     digits: Digits::new(2)?,
//!     rest: Rest::Refuse,
//!     stale: Stale::Drop,
//! };
//! // The double 1.25.
//! assert_eq!(rt; judge(policy, 0x3FF4_0000_0000_0000), Verdict::Kept(125));
//! // Prometheus's stale marker, and the double 0.125.
//! assert_eq!(rt; judge(policy, 0x7FF0_0000_0000_0002), Verdict::Left(Reason::Stale));
//! assert_eq!(rt; judge(policy, 0x3FC0_0000_0000_0000), Verdict::Refused(Reason::Rest));
//! ```
//!
//! It stands on `doubles`, and on `stored_doubles` for the number of a double. That values are kept
//! as whole numbers of parts is this project's own; the stale marker is that of Prometheus
//! (`model/value`).
#![tactic(auto)]

mod digits;
mod form;
mod policy;
mod values;

pub use digits::Digits;
pub use form::{Form, judge_in};
pub use policy::{Policy, Reason, Rest, Stale, Verdict, judge};
pub use values::exact;
