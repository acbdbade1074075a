//! The laws of the counts.

ghost use Rattle.std.specs.Prelude.{◌≡◌, ◌+◌, ◌<◌, ◌≤◌, ◌++◌, ℕ, List, length};
ghost use Rattle.cover.specs.declared.certificate.Interval.{Interval};
ghost use Rattle.labels.specs.Rows.{Row as RowValue};
ghost use Rattle.page_claims.specs.Counting.{count_in};
ghost use Rattle.page_marks.specs.Columns.{column_of};
ghost use Rattle.page_marks.specs.Gathering.{total};
ghost use Rattle.page_marks.specs.Tables.{samples_in};
ghost use Rattle.page_marks.specs.Tiles.{kinds_below, IsStack};

/// The laws of what a page shows: a column's layers fill a height that has a unit for each of them,
/// each with at least one; the counts of the columns sum to those of the part, and the counts of
/// all verdicts to the intervals; the samples of the rows that are shown and of those that are left
/// out are all.
pub fn marks_law()
    ensures stacks { (height : ℕ) (is : List Interval) → 0 < length is
        → kinds_below is 19 ≤ height → IsStack height is }
    ensures columns { (slot columns : ℕ) (is : List Interval) → 0 < columns
        → total (λ at. count_in slot (column_of columns is at)) columns ≡ count_in slot is }
    ensures verdicts { (is : List Interval) → total (λ slot. count_in slot is) 19 ≡ length is }
    ensures samples { (xs ys : List RowValue)
        → samples_in (xs ++ ys) ≡ samples_in xs + samples_in ys }
{}
