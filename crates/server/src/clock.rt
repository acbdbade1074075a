//! The time of the clock.

use std::time::{Clock, SystemTime, UNIX_EPOCH};

/// The most seconds of a clock: they are a time of a store in milliseconds.
const LATEST: u64 = 4_000_000_000_000;

/// The time of the clock, in milliseconds since 1970, or 0 if it has none.
pub(crate) fn now_in(rt: &impl Clock) -> i64 {
    let Ok(now) = SystemTime::now(rt) else {
        return 0;
    };
    let Ok(since) = now.duration_since(UNIX_EPOCH) else {
        return 0;
    };
    let seconds = since.as_secs().min(LATEST) as i64;
    seconds * 1000 + i64::from(since.subsec_millis())
}
