//! The time of the sample before.

ghost use Rattle.std.specs.Prelude.{◌≡◌};

use std::marker::Model;

/// The time of the sample before.
#[derive(Clone, Copy, Drop)]
pub(crate) struct Time {
    at: i64,
}

impl Model for Time {
    ghost use Rattle.std.specs.Prelude.{ℤ};

    ghost Value = { ℤ };

    ghost view = { λ t. t.at };

    ghost inverse = { λ t. record { at = t } };
}

impl Time {
    /// This time.
    pub(crate) fn new(at: i64) -> Time
        ensures { result ≡ at }
    {
        Time { at }
    }

    /// It as a number.
    pub(crate) fn at(self) -> i64
        ensures { result ≡ self }
    {
        self.at
    }
}
