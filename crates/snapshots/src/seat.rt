//! Seats, under whose numbers events are published.

ghost use Rattle.std.specs.Prelude.{◌≡◌, ◌+◌, ◌<◌, []};
ghost use mathlib.Core.List.{IsPrefix};
ghost use Rattle.snapshots.specs.Marks.{accepted};

use crate::naming::Naming;
use crate::prefix::LogPrefix;
use crate::receipt::Receipt;
use std::marker::Model;

/// The right to publish events under a number, with the count of those that were published. It
/// keeps what its last receipt knows: contracts see that list beside the number and the count.
#[derive(Drop)]
pub struct Seat<J: Naming> {
    number: usize,
    count: u64,
    events: u64,
    log: LogPrefix<J>,
}

impl<J: Naming> Model for Seat<J> {
    ghost use Rattle.std.specs.Prelude.{take};
    ghost use Rattle.snapshots.specs.Marks.{accepted};
    ghost use Rattle.snapshots.specs.Seats.{SeatView};

    ghost Value = { SeatView };

    ghost view = { λ s.
        record { number = s.number; count = s.count; seen = take s.events (accepted s.log) } };
}

impl<J: Naming> Seat<J> {
    /// A seat that has published nothing.
    pub(crate) fn new(number: usize, log: LogPrefix<J>) -> Seat<J>
        requires { log ≡ [] }
        ensures { result ≡ record { number = number; count = 0; seen = [] } }
    {
        Seat {
            number,
            count: 0,
            events: 0,
            log,
        }
    }

    /// Its number, from 0.
    pub fn number(&self) -> usize
        ensures { result ≡ self.now.number }
    {
        self.number
    }

    /// How many events were published under it.
    pub fn count(&self) -> u64
        ensures { result ≡ self.now.count }
    {
        self.count
    }

    /// What its last receipt knows of the log.
    pub(crate) fn log(&self) -> &LogPrefix<J>
        ensures { IsPrefix self.now.seen (accepted result.now) }
    {
        &self.log
    }

    /// One event more was published under it, and this is its receipt.
    pub(crate) fn add_one(&mut self, receipt: &Receipt<J>)
        requires { self.old.count < 18446744073709551615 }
        ensures { self.new ≡ record {
          number = self.old.number;
          count = self.old.count + 1;
          seen = receipt.now;
        } }
    {
        self.count += 1;
        self.events = receipt.events();
        self.log = receipt.log().share();
    }
}
