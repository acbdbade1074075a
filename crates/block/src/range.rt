//! The range of times that a block covers.

ghost use Rattle.std.specs.Prelude.{◌≡◌};
ghost use Rattle.block.specs.Ranges.{range_of, IsRange};

use labels::is_time;
use std::marker::Model;

/// The times that a block covers, in milliseconds: from the first up to, not including, the end.
#[derive(Clone, Copy, Debug, PartialEq, Eq)]
pub struct Range {
    min: i64,
    max: i64,
}

impl Model for Range {
    ghost use Rattle.std.specs.Prelude.{ℤ};
    ghost use Rattle.block.specs.Ranges.{IsRange};

    ghost Value = { ℤ × ℤ };

    ghost view = { λ r. (r.min, r.max) };

    ghost invariant = { λ r. IsRange (r.min, r.max) };

    ghost inverse = { λ p. record { min = p.0; max = p.1 } };
}

impl Range {
    ghost use Rattle.block.specs.Ranges.{covers};

    /// The range from `min` up to, not including, `max`: exactly where `min` is below `max` and
    /// both are times.
    pub fn new(min: i64, max: i64) -> Option<Range>
        ensures { result ≡ range_of min max }
    {
        if min < max && is_time(min) && is_time(max) {
            Some(Range { min, max })
        } else {
            None
        }
    }

    /// The first time of the range, in milliseconds.
    pub fn min(self) -> i64
        ensures first { result ≡ self.0 }
        ensures range { IsRange self }
    {
        self.min
    }

    /// The first time after the range, in milliseconds.
    pub fn max(self) -> i64
        ensures end { result ≡ self.1 }
        ensures range { IsRange self }
    {
        self.max
    }

    /// Whether the time lies in the range.
    pub fn covers(self, t: i64) -> bool
        ensures { result ≡ covers self t }
    {
        self.min <= t && t < self.max
    }
}
