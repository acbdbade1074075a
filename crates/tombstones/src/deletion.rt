//! One deletion.

ghost use Rattle.std.specs.Prelude.{◌≡◌};

/// A closed interval of times, in milliseconds, in which the samples of one series are deleted.
#[derive(Clone, Copy, Debug, PartialEq, Eq)]
pub struct Deletion {
    /// The number of the series' reference.
    pub reference: u32,
    /// The first time of the interval.
    pub from: i64,
    /// The last time of the interval.
    pub to: i64,
}

impl Deletion {
    ghost use Rattle.tombstones.specs.Covering.{holds};
    ghost use Rattle.tombstones.specs.Order.{begins_by};

    /// Whether the time lies in the interval.
    pub fn holds(self, t: i64) -> bool
        ensures { result ≡ holds self t }
    {
        (self.from <= t) & (t <= self.to)
    }

    /// Whether it is of a series before this one, or of this one and begins by this time.
    pub(crate) fn begins_by(self, reference: u32, t: i64) -> bool
        ensures { result ≡ begins_by reference t self }
    {
        self.reference < reference || (self.reference == reference && self.from <= t)
    }
}
