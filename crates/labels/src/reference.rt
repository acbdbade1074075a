//! Series references.

ghost use Rattle.std.specs.Prelude.{◌≡◌};

use std::marker::Model;

/// One past the greatest number of a reference, where the intervals of a certificate end.
pub const END: u64 = 4_294_967_296;

/// The number of a series in its part.
#[derive(Clone, Copy, Debug, PartialEq, Eq, PartialOrd, Ord, Drop)]
pub struct SeriesRef(u32);

impl Model for SeriesRef {
    ghost use Rattle.std.specs.Prelude.{ℕ};

    ghost Value = { ℕ };

    ghost view = { λ a. a.0 };

    ghost inverse = { λ n. record { 0 = n } };
}

impl SeriesRef {
    /// The reference of this number.
    pub fn new(number: u32) -> SeriesRef
        ensures { result ≡ number }
    {
        SeriesRef(number)
    }

    /// The number of the reference.
    pub fn number(self) -> u32
        ensures { result ≡ self }
    {
        self.0
    }
}
