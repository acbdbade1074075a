//! Stretches of time, and the limits of a part.

ghost use Rattle.std.specs.Prelude.{◌≡◌};

/// What a stretch of time has.
#[derive(Clone, Copy, Debug, PartialEq, Eq, Drop)]
pub struct Slot {
    /// How many samples begin in it, or are of chunks that begin in it.
    pub begun: u64,
    /// How many samples are of chunks that begin before it and end in it or after it.
    pub carried: u64,
    /// The most samples that one series may have in it.
    pub most: u64,
}

impl Slot {
    /// A stretch of time with so many samples.
    pub fn new(begun: u64, carried: u64, most: u64) -> Slot
        ensures { result ≡ record { begun = begun; carried = carried; most = most } }
    {
        Slot {
            begun,
            carried,
            most,
        }
    }
}

/// The limits of a part.
#[derive(Clone, Copy, Debug, PartialEq, Eq, Drop)]
pub struct Limits {
    /// The most samples.
    pub samples: u64,
    /// The most samples of one series.
    pub series: u64,
}
