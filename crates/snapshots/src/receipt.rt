//! What callers are told of the list that is published.

ghost use Rattle.std.specs.Prelude.{◌≡◌, length, IfSome};
ghost use mathlib.Core.List.{IsPrefix};
ghost use Rattle.snapshots.specs.Asking.{AreAsked};
ghost use Rattle.snapshots.specs.Marks.{accepted, tried_of};

use crate::naming::Naming;
use crate::prefix::LogPrefix;
use std::marker::Model;

/// What was published up to some event. Contracts see it as the events up to this one, each with
/// the number of its seat. The log that it holds may have accepted more.
#[derive(Drop)]
pub struct Receipt<J: Naming> {
    log: LogPrefix<J>,
    events: u64,
}

impl<J: Naming> Model for Receipt<J> {
    ghost use Rattle.std.specs.Prelude.{◌≤◌, List, length, take};
    ghost use Rattle.snapshots.specs.declared.entry.Entry.{Entry};
    ghost use Rattle.snapshots.specs.Marks.{accepted};

    ghost Value = { List Entry };

    ghost view = { λ r. take r.events (accepted r.log) };

    ghost invariant = { λ r. r.events ≤ length (accepted r.log) };
}

impl<J: Naming> Receipt<J> {
    /// The receipt of all that was tried at some place of the log, where the log is known to have
    /// accepted it.
    pub(crate) fn of(done: &LogPrefix<J>, trial: &LogPrefix<J>) -> Option<Receipt<J>>
        ensures list { IfSome result (λ r. r ≡ tried_of trial.now) }
        ensures done { IfSome result (λ r. IsPrefix r (accepted done.now)) }
        ensures asked { IfSome result (λ r. AreAsked J.asked r) }
    {
        if !done.accepts(trial) {
            return None;
        }
        Some(Receipt {
            log: done.share(),
            events: trial.tried(),
        })
    }

    /// The receipt of all that a log has accepted.
    pub(crate) fn whole(done: &LogPrefix<J>) -> Receipt<J>
        ensures list { result ≡ accepted done.now }
        ensures asked { AreAsked J.asked result }
    {
        Receipt {
            log: done.share(),
            events: done.accepted(),
        }
    }

    /// How many events its list has. It takes no memory.
    pub fn events(&self) -> u64
        ensures { result ≡ length self.now }
    {
        self.events
    }

    /// What was seen of the log.
    pub(crate) fn log(&self) -> &LogPrefix<J>
        ensures { IsPrefix self.now (accepted result.now) }
    {
        &self.log
    }
}
