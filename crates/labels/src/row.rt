//! Rows: label sets with samples.

ghost use Rattle.std.specs.Prelude.{◌≡◌, List};
ghost use Rattle.labels.specs.Contents.{Content};
ghost use Rattle.labels.specs.Rows.{AreRows, Row as RowValue};

use crate::{LabelSet, Sample};
use std::marker::Model;

/// A label set with samples.
#[derive(Drop)]
pub struct Row {
    labels: LabelSet,
    samples: Vec<Sample>,
}

impl Model for Row {
    ghost use Rattle.labels.specs.Rows.{Row as RowValue};

    ghost Value = { RowValue };

    ghost view = { λ r. (r.labels, r.samples.items) };
}

impl Row {
    /// These samples of this label set.
    pub fn new(labels: LabelSet, samples: Vec<Sample>) -> Row
        ensures { result ≡ (labels, samples.items) }
    {
        Row { labels, samples }
    }

    /// The label set.
    pub fn labels(&self) -> &LabelSet
        ensures { result.now ≡ self.now.0 }
    {
        &self.labels
    }

    /// The samples.
    pub fn samples(&self) -> &[Sample]
        ensures { result.now ≡ self.now.1 }
    {
        self.samples.as_slice()
    }

    /// The label set and the samples.
    pub fn into_parts(self) -> (LabelSet, Vec<Sample>)
        ensures { (result.0, result.1.items) ≡ self }
    {
        (self.labels, self.samples)
    }
}

/// A law: a content has one list of rows.
pub fn rows_are_unique()
    ensures { (xs ys : List RowValue) (c : Content) → AreRows xs c → AreRows ys c → xs ≡ ys }
{}
