//! The moves of what is published and of what waits.

ghost use Rattle.std.specs.Prelude.{◌≡◌, false, MatchBool, OnOk, OnErr};
ghost use Rattle.std.specs.Arc.{arc_value};
ghost use Rattle.snapshots.specs.Marks.{accepted, tried_of};
ghost use Rattle.snapshots.specs.Standings.{StandsFor, current};
ghost use Rattle.snapshots.specs.Tips.{IsBehind};

use crate::naming::Naming;
use crate::prefix::LogPrefix;
use crate::replayed_state::Standing;
use core::mem::swap;
use keeper::Keeper;
use std::alloc::{AllocError, Global};

/// Whether what waited was given up, and not all who tried know it yet.
pub fn is_given_up<J: Naming>(waits: bool, log: &LogPrefix<J>) -> bool
    ensures { MatchBool result (waits ≡ false)
        (MatchBool waits (Unit {0}) (accepted log.now ≡ tried_of log.now)) }
{
    if waits {
        return false;
    }
    !log.is_settled()
}

/// Makes ready for one more event to wait. If none does, what was tried is what is published, and
/// is set aside.
pub fn set_aside<J: Naming, K: Keeper>(
    alloc: Global,
    log: &LogPrefix<J>,
    waits: bool,
    ahead: &Standing,
    base: &mut Standing,
    records: &mut Vec<u8>,
) -> Result<(), AllocError>
    requires ahead { StandsFor J.opening (current waits log.now)
        (arc_value ahead.now.snapshot) ahead.now.counts.items }
    requires behind { MatchBool waits (IsBehind J.opening K.idle log.now
        (arc_value base.old.snapshot) base.old.counts.items records.old.items) (Unit {0}) }
    requires settled { MatchBool waits (Unit {0}) (accepted log.now ≡ tried_of log.now) }
    ensures behind { OnOk result (IsBehind J.opening K.idle log.now
        (arc_value base.new.snapshot) base.new.counts.items records.new.items) }
    ensures kept { OnErr result ((base.new ≡ base.old) × (records.new ≡ records.old)) }
{
    if waits {
        return Ok(());
    }
    let set = ahead.share(alloc)?;
    *base = set;
    records.clear();
    Ok(())
}

/// What is published, where what waits is given up; the other comes into its place.
pub fn put_back(waits: bool, ahead: &mut Standing, base: &mut Standing)
    ensures { MatchBool waits (ahead.new ≡ base.old) (ahead.new ≡ ahead.old) }
{
    if waits {
        swap(ahead, base);
    }
}
