//! Times, and values at them.

ghost use Rattle.std.specs.Prelude.{◌≡◌};
ghost use Rattle.labels.specs.Contents.{is_time};

use std::marker::Model;

/// The smallest time, in milliseconds: -2^62.
pub const MIN_TIME: i64 = -4_611_686_018_427_387_904;

/// The greatest time, in milliseconds: 2^62 - 1.
pub const MAX_TIME: i64 = 4_611_686_018_427_387_903;

/// Whether a number of milliseconds is a time: from `MIN_TIME` to `MAX_TIME`.
pub fn is_time(t: i64) -> bool
    ensures { result ≡ is_time t }
{
    (MIN_TIME..=MAX_TIME).contains(&t)
}

/// A value at a time.
#[derive(Clone, Copy, Debug, PartialEq, Eq, Drop)]
pub struct Sample {
    t: i64,
    v: i64,
}

impl Model for Sample {
    ghost use Rattle.std.specs.Prelude.{ℤ};

    ghost Value = { ℤ × ℤ };

    ghost view = { λ s. (s.t, s.v) };

    ghost inverse = { λ p. record { t = p.0; v = p.1 } };
}

impl Sample {
    /// The value `v` at the time `t`.
    pub fn new(t: i64, v: i64) -> Sample
        ensures { result ≡ (t, v) }
    {
        Sample { t, v }
    }

    /// The time, in milliseconds.
    pub fn t(self) -> i64
        ensures { result ≡ self.0 }
    {
        self.t
    }

    /// The value.
    pub fn v(self) -> i64
        ensures { result ≡ self.1 }
    {
        self.v
    }
}
