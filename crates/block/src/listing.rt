//! A block as a list of its rows.

ghost use Rattle.std.specs.Prelude.{◌≡◌, ◌<◌, length, slice_get, Some, IfOk};

use crate::blocks::Block;
use crate::samples::Times;
use labels::{Row, SeriesRef};
use std::alloc::{AllocError, Global};

impl Block {
    /// The series at a place, from 0: its reference, its label set and its undeleted samples.
    fn row_at(&self, alloc: Global, i: usize) -> Result<(SeriesRef, Row), AllocError>
        requires { i < length self.now.part }
        ensures { IfOk result (λ row. slice_get self.now.part i ≡ Some row) }
    {
        let range = self.range();
        let times = Times {
            from: range.min(),
            to: range.max(),
        };
        let samples = self.samples_at(alloc, i, times)?;
        let labels = self.labels_at(alloc, i)?;
        Ok((self.reference_at(i), Row::new(labels, samples)))
    }

    /// Each series of the block, ascending by reference, with its label set and its undeleted
    /// samples; also a series without a sample.
    ///
    /// It reads each chunk once. It takes memory in proportion to the series, the texts of their
    /// labels and the samples.
    pub fn list_all(&self, alloc: Global) -> Result<Vec<(SeriesRef, Row)>, AllocError>
        ensures { IfOk result (λ rows. rows.items ≡ self.now.part) }
    {
        let mut rows = Vec::with_capacity(alloc, self.series_count())?;
        for i in 0..self.series_count() {
            rows.push(self.row_at(alloc, i)?)?;
        }
        Ok(rows)
    }
}
