//! What is saved of a series.

ghost use Rattle.std.specs.Prelude.{◌≡◌};

use labels::{LabelSet, Sample};
use std::marker::Model;

/// One series of a head: its samples, and the newest sample that was committed, which a deletion
/// may have taken from them.
#[derive(Drop)]
pub struct SavedSeries {
    labels: LabelSet,
    samples: Vec<Sample>,
    newest: Sample,
}

impl Model for SavedSeries {
    ghost use Rattle.head.specs.Heads.{HeadSeries};

    ghost Value = { HeadSeries };

    ghost view = { λ s.
        record { labels = s.labels; samples = s.samples.items; newest = s.newest } };
}

impl SavedSeries {
    /// The series of a label set with these samples and this newest one.
    pub fn new(labels: LabelSet, samples: Vec<Sample>, newest: Sample) -> SavedSeries
        ensures { result
            ≡ record { labels = labels; samples = samples.items; newest = newest } }
    {
        SavedSeries {
            labels,
            samples,
            newest,
        }
    }

    /// The label set.
    pub fn labels(&self) -> &LabelSet
        ensures { result.now ≡ self.now.labels }
    {
        &self.labels
    }

    /// The samples.
    pub fn samples(&self) -> &[Sample]
        ensures { result.now ≡ self.now.samples }
    {
        self.samples.as_slice()
    }

    /// The newest committed sample.
    pub fn newest(&self) -> Sample
        ensures { result ≡ self.now.newest }
    {
        self.newest
    }
}
