//! What a chunk holds.

ghost use Rattle.std.specs.Prelude.{◌≡◌};

use std::marker::Model;

/// A value of Prometheus at a time: the 64 bits of a double (IEEE 754, binary64).
#[derive(Clone, Copy, Debug, PartialEq, Eq, Drop)]
pub struct FloatSample {
    t: i64,
    bits: u64,
}

impl Model for FloatSample {
    ghost use Rattle.std.specs.Prelude.{ℤ, ℕ};

    ghost Value = { ℤ × ℕ };

    ghost view = { λ s. (s.t, s.bits) };

    ghost inverse = { λ p. record { t = p.0; bits = p.1 } };
}

impl FloatSample {
    /// The double with these bits at the time `t`.
    pub fn new(t: i64, bits: u64) -> FloatSample
        ensures { result ≡ (t, bits) }
    {
        FloatSample { t, bits }
    }

    /// The time, in milliseconds.
    pub fn t(self) -> i64
        ensures { result ≡ self.0 }
    {
        self.t
    }

    /// The bits of the value: the sign is the highest.
    pub fn bits(self) -> u64
        ensures { result ≡ self.1 }
    {
        self.bits
    }
}
