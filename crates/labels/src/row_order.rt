//! Rows in the order of their label sets.

ghost use Rattle.std.specs.Prelude.{◌≡◌, OnOk};
ghost use Rattle.std.specs.List.Sorted.{IsPermutation, IsSortedBy, IsStableBy};
ghost use Rattle.labels.specs.Labels.{labels_cmp};
ghost use Rattle.labels.specs.Rows.{row_before};

use crate::Row;
use std::alloc::AllocError;
use std::cmp::Ordering;

/// Puts rows into the order of their label sets. Rows of one label set keep their order.
pub fn sort_rows(rows: &mut Vec<Row>) -> Result<(), AllocError>
    ensures moved { IsPermutation rows.old.items rows.new.items }
    ensures sorted { OnOk result (IsSortedBy row_before rows.new.items) }
    ensures stable { IsStableBy row_before rows.old.items rows.new.items }
{
    rows.sort_by(
        |a: &Row, b: &Row| -> Ordering
            ensures { result ≡ labels_cmp a.now.0 b.now.0 }
        { a.labels().cmp(b.labels()) },
    )
}
