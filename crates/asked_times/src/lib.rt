//! The times that somebody asks for, cut to those of the store.
//!
//! A request of a Prometheus asks from any 64-bit time to any other, as its clients do who want
//! all. A store has the times from [`MIN_TIME`] to [`MAX_TIME`], so [`first_time`] and
//! [`last_time`] cut what is asked for to these; no range is refused.
//!
//! ```
//! assert_eq!(rt; (first_time(i64::MIN), last_time(i64::MAX)), (MIN_TIME, MAX_TIME));
//! assert_eq!(rt; (first_time(10), last_time(20)), (10, 20));
//! ```
//!
//! It stands on `labels`.
#![tactic(auto)]

ghost use Rattle.std.specs.Prelude.{◌≡◌};
ghost use Rattle.asked_times.specs.Times.{first_time, last_time};

use labels::{MAX_TIME, MIN_TIME};

/// The first time that is asked for, from [`MIN_TIME`] on.
pub fn first_time(start: i64) -> i64
    ensures { result ≡ first_time start }
{
    if start < MIN_TIME { MIN_TIME } else { start }
}

/// The last time that is asked for, up to [`MAX_TIME`].
pub fn last_time(end: i64) -> i64
    ensures { result ≡ last_time end }
{
    if MAX_TIME < end { MAX_TIME } else { end }
}
