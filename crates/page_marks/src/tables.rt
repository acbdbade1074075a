//! The tables of a page: what they show and what they leave out.

ghost use Rattle.std.specs.Prelude.{◌≡◌, ◌+◌, ◌++◌, ◌∷◌, [], length, IfOk, OnOk};
ghost use Rattle.page_text.specs.declared.mark.Mark.TheVariants.{Count};
ghost use Rattle.page_text.specs.declared.mark.Subject.TheVariants.{Place, Samples};
ghost use Rattle.page_marks.specs.Gathering.{gather};
ghost use Rattle.page_marks.specs.Tables.{place_mark, left_intervals, table_marks};
ghost use Rattle.page_marks.specs.Tables.{samples_in, rows_from, left_rows, row_marks};

use crate::tallies::{append_tallies, sum_of};
use cover::Interval;
use labels::Row;
use page_text::{Mark, Subject};
use std::alloc::AllocError;

/// Most rows that are shown.
pub const MOST_ROWS: usize = 50;

/// Appends the row of a table at a place, from 0.
#[tactic(auto, unfolding(crate::specs::Tables::place_mark))]
fn append_place(marks: &mut Vec<Mark>, at: usize) -> Result<(), AllocError>
    ensures { OnOk result (marks.new.items ≡ marks.old.items ++ place_mark at) }
{
    let place = sum_of(1, at)?;
    Ok(marks.push(Mark::Count(Subject::Place, place))?)
}

#[tactic(auto, using(crate::proofs::Steps::steps))]
fn append_places(marks: &mut Vec<Mark>, rows: usize) -> Result<(), AllocError>
    ensures { OnOk result (marks.new.items ≡ marks.old.items ++ gather place_mark rows) }
{
    for at in 0..rows {
        append_place(marks, at)?;
    }
    Ok(())
}

/// Appends what a table of intervals leaves out: how many, and how many of each verdict.
#[tactic(auto, unfolding(crate::specs::Tables::left_intervals))]
fn append_left(marks: &mut Vec<Mark>, rest: &[Interval]) -> Result<(), AllocError>
    ensures { OnOk result (marks.new.items ≡ marks.old.items ++ left_intervals rest.now) }
{
    if rest.is_empty() {
        return Ok(());
    }
    marks.push(Mark::Count(Subject::Intervals, rest.len() as u64))?;
    append_tallies(marks, rest)
}

/// Appends a table that shows the first intervals, at most so many.
#[tactic(auto, unfolding(crate::specs::Tables::table_marks))]
pub(crate) fn append_table(
    marks: &mut Vec<Mark>,
    intervals: &[Interval],
    most: usize,
) -> Result<(), AllocError>
    ensures { OnOk result (marks.new.items ≡ marks.old.items ++ table_marks most intervals.now) }
{
    let shown = most.min(intervals.len());
    append_places(marks, shown)?;
    append_left(marks, &intervals[shown..])
}

/// How many samples rows have.
pub(crate) fn samples_in(rows: &[Row]) -> Result<u64, AllocError>
    ensures { IfOk result (λ count. count ≡ samples_in rows.now) }
{
    let mut count = 0;
    for row in rows {
        count = sum_of(count, row.samples().len())?;
    }
    Ok(count)
}

/// Appends a row at a place, from 0, and how many samples it has.
#[tactic(auto, unfolding(crate::specs::Tables::place_mark))]
fn append_row(marks: &mut Vec<Mark>, at: usize, row: &Row) -> Result<(), AllocError>
    ensures { OnOk result (marks.new.items ≡ marks.old.items
        ++ Count Place (1 + at) ∷ Count Samples (length row.now.1) ∷ []) }
{
    append_place(marks, at)?;
    Ok(marks.push(Mark::Count(Subject::Samples, row.samples().len() as u64))?)
}

/// Appends rows of a table, each with how many samples it has.
fn append_shown(marks: &mut Vec<Mark>, rows: &[Row]) -> Result<(), AllocError>
    ensures { OnOk result (marks.new.items ≡ marks.old.items ++ rows_from 0 rows.now) }
{
    for at in 0..rows.len() {
        append_row(marks, at, &rows[at])?;
    }
    Ok(())
}

/// Appends what a table of rows leaves out: how many, and how many samples they have.
#[tactic(auto, unfolding(crate::specs::Tables::left_rows))]
fn append_left_rows(marks: &mut Vec<Mark>, rest: &[Row]) -> Result<(), AllocError>
    ensures { OnOk result (marks.new.items ≡ marks.old.items ++ left_rows rest.now) }
{
    if rest.is_empty() {
        return Ok(());
    }
    let samples = samples_in(rest)?;
    marks.push(Mark::Count(Subject::Rows, rest.len() as u64))?;
    Ok(marks.push(Mark::Count(Subject::Samples, samples))?)
}

/// Appends a table that shows the first rows.
#[tactic(auto, unfolding(crate::specs::Tables::row_marks))]
pub(crate) fn append_rows(marks: &mut Vec<Mark>, rows: &[Row]) -> Result<(), AllocError>
    ensures { OnOk result (marks.new.items ≡ marks.old.items ++ row_marks rows.now) }
{
    let shown = MOST_ROWS.min(rows.len());
    append_shown(marks, &rows[..shown])?;
    append_left_rows(marks, &rows[shown..])
}
