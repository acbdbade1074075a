//! The times of cuts.

ghost use Rattle.std.specs.Prelude.{◌≡◌, ◌⊎◌, ◌<◌, ℤ, pos, negsuc, ◌+ℤ◌, ◌≤ℤ◌, ◌<ℤ◌};
ghost use Rattle.std.specs.Prelude.{IfSome, IfNone};
ghost use Rattle.cut_schedule.specs.Due.{IsMultiple, IsDue, IsLastDue, IsSpan};

/// The largest multiple up to a time; none if that has no room.
fn multiple_up_to(every: u64, time: i64) -> Option<i64>
    requires { (0 < every) × IsSpan every }
    ensures multiple { IfSome result (IsMultiple every) }
    ensures below { IfSome result (λ t. (t ≤ℤ time) × (time <ℤ (t +ℤ pos every))) }
    ensures none { IfNone result ((t : ℤ) → IsMultiple every t → t ≤ℤ time
        → t <ℤ negsuc 9223372036854775807) }
{
    let step = every as i64;
    time.checked_sub(time.rem_euclid(step))
}

/// The earlier of two times.
fn earlier(one: i64, other: i64) -> i64
    ensures { ((result ≡ one) × (one ≤ℤ other)) ⊎ ((result ≡ other) × (other ≤ℤ one)) }
{
    if one <= other { one } else { other }
}

/// The time at which a store with this floor is to be cut: the last multiple of `every`
/// milliseconds above the floor that lies `after` milliseconds, or more, before the newest sample,
/// and before the time of the clock. None if there is none.
pub fn due(every: u64, after: u64, floor: i64, newest: i64, now: i64) -> Option<i64>
    requires every { (0 < every) × IsSpan every }
    requires after { IsSpan after }
    ensures last { IfSome result (IsLastDue every after newest now floor) }
    ensures none { IfNone result ((t : ℤ) → IsDue every after newest now floor t → ⊥) }
{
    let latest = earlier(newest, now).checked_sub(after as i64)?;
    let time = multiple_up_to(every, latest)?;
    if time > floor { Some(time) } else { None }
}

/// The time before which the newest sample makes no cut due.
pub fn awaited(every: u64, after: u64, floor: i64) -> i64
    requires every { (0 < every) × IsSpan every }
    requires after { IsSpan after }
    ensures { (newest now t : ℤ) → newest <ℤ result → IsDue every after newest now floor t → ⊥ }
{
    match multiple_up_to(every, floor) {
        Some(time) => time
            .saturating_add(every as i64)
            .saturating_add(after as i64),
        None => floor,
    }
}
