//! A sample.

/// A sample: its time in milliseconds since 1970, and the 64 bits of its value, a double.
#[derive(Clone, Copy, Debug, PartialEq, Eq)]
pub struct Sample {
    pub time: i64,
    pub value: u64,
}
