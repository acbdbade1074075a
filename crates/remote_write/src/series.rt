//! A series, where it stands.

use crate::label::Label;
use crate::sample::Sample;

/// The labels of a series, where they stand, and its samples, each in the order of the message.
#[derive(Drop)]
pub struct Series<'a> {
    pub labels: Vec<Label<'a>>,
    pub samples: Vec<Sample>,
    /// How many native histograms it has, which are not looked into, and not written.
    pub histograms: u64,
}
