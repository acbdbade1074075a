//! A part, as an auditor knows it.

ghost use Rattle.std.specs.Prelude.{◌≡◌};
ghost use Rattle.labels.specs.Parts.{IsPart};

use labels::{Row, SeriesRef};
use std::marker::Model;

/// A part: references, each with its label set and its undeleted samples, seen by contracts as the
/// list of them.
#[derive(Drop)]
pub struct Table {
    series: Vec<(SeriesRef, Row)>,
}

impl Model for Table {
    ghost use Rattle.labels.specs.Parts.{Part, IsPart};

    ghost Value = { Part };

    ghost view = { λ t. t.series.items };

    ghost invariant = { λ t. IsPart t.series.items };
}

impl Table {
    /// The part of these series. References ascend strictly, no label set stands twice, and the
    /// times of each series ascend strictly (the caller's condition); a series may have no samples.
    /// It takes no memory.
    pub fn of_series(series: Vec<(SeriesRef, Row)>) -> Table
        requires { IsPart series.items }
        ensures { result ≡ series.items }
    {
        Table { series }
    }

    /// The series, in the order of their references.
    pub fn series(&self) -> &[(SeriesRef, Row)]
        ensures items { result.now ≡ self.now }
        ensures part { IsPart self.now }
    {
        self.series.as_slice()
    }

    /// The series, in the order of their references. It takes no memory.
    pub fn into_series(self) -> Vec<(SeriesRef, Row)>
        ensures items { result.items ≡ self }
        ensures part { IsPart self }
    {
        self.series
    }
}
