//! Batches whose samples stand in rows.

ghost use Rattle.std.specs.Prelude.{◌≡◌, IsTrue};
ghost use Rattle.head.specs.Batches.{is_batch};
ghost use Rattle.head.specs.BatchRows.{batch_of_rows};

use labels::Row;
use std::marker::Model;

/// A batch of at most 4,096 samples, each at a time, in rows: the samples of a row follow each
/// other in the batch, and a label set may have more than one row. Contracts see it as its rows.
#[derive(Drop)]
pub struct RowBatch {
    rows: Vec<Row>,
}

impl Model for RowBatch {
    ghost use Rattle.std.specs.Prelude.{IsTrue, List};
    ghost use Rattle.labels.specs.Rows.{Row as RowValue};
    ghost use Rattle.head.specs.Batches.{is_batch};
    ghost use Rattle.head.specs.BatchRows.{batch_of_rows};

    ghost Value = { List RowValue };

    ghost view = { λ b. b.rows.items };

    ghost invariant = { λ b. IsTrue (is_batch (batch_of_rows b.rows.items)) };
}

impl RowBatch {
    /// The batch of these rows, in this order.
    pub fn new(rows: Vec<Row>) -> RowBatch
        requires { IsTrue (is_batch (batch_of_rows rows.items)) }
        ensures { result ≡ rows.items }
    {
        RowBatch { rows }
    }

    /// The rows, as they were handed over.
    pub fn into_rows(self) -> Vec<Row>
        ensures rows { result.items ≡ self }
        ensures kept { IsTrue (is_batch (batch_of_rows self)) }
    {
        self.rows
    }

    /// The rows, lent.
    pub fn rows(&self) -> &[Row]
        ensures rows { result.now ≡ self.now }
        ensures kept { IsTrue (is_batch (batch_of_rows self.now)) }
    {
        self.rows.as_slice()
    }
}
