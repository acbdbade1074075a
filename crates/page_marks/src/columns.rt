//! The columns of a strip, and the groups of its table.

ghost use Rattle.std.specs.Prelude.{◌≡◌, ◌<◌, ◌≤◌, ◌^◌, ◌++◌, length, OnOk};
ghost use Rattle.page_marks.specs.Columns.{columns_of, column_of, hover, column_marks};
ghost use Rattle.page_marks.specs.Columns.{strip_marks, group_marks, groups_marks};
ghost use Rattle.page_marks.specs.Gathering.{gather};

use crate::tallies::{append_group, append_tallies};
use crate::tiles::{Frame, append_tiles};
use cover::Interval;
use page_layout::range_of;
use page_text::Mark;
use std::alloc::AllocError;

/// The width of a strip, in hundredths of a percent.
pub const FULL: usize = 10_000;

/// Most intervals that a strip shows in a box each.
pub const MOST_BOXES: usize = 240;

/// How many groups the table of a strip of more intervals has.
pub const GROUPS: usize = 20;

/// How many columns a strip of so many intervals has, of few parts or of many.
pub fn columns_of(intervals: usize, few: bool) -> usize
    ensures value { result ≡ columns_of intervals few }
    ensures within { result ≤ intervals }
{
    if intervals <= MOST_BOXES {
        intervals
    } else if few {
        240
    } else {
        60
    }
}

/// The intervals of a column.
fn column_of(intervals: &[Interval], columns: usize, at: usize) -> &[Interval]
    requires { at < columns }
    ensures { result.now ≡ column_of columns intervals.now at }
{
    let (from, until) = range_of(at, columns, intervals.len());
    &intervals[from..until]
}

/// Appends how many of a column's intervals have each verdict, if it has several.
#[tactic(auto, unfolding(crate::specs::Columns::hover))]
fn append_hover(marks: &mut Vec<Mark>, intervals: &[Interval]) -> Result<(), AllocError>
    ensures { OnOk result (marks.new.items ≡ marks.old.items ++ hover intervals.now) }
{
    if intervals.len() > 1 {
        append_tallies(marks, intervals)
    } else {
        Ok(())
    }
}

/// Appends a column: its tallies, and its tiles between its edges.
#[tactic(auto, unfolding(crate::specs::Columns::column_marks))]
fn append_column(
    marks: &mut Vec<Mark>,
    intervals: &[Interval],
    columns: usize,
    at: usize,
    foot: u64,
    height: u64,
) -> Result<(), AllocError>
    requires within { at < columns }
    requires small { height < 2 ^ 32 }
    ensures { OnOk result (marks.new.items
        ≡ marks.old.items ++ column_marks columns foot height intervals.now at) }
{
    let own = column_of(intervals, columns, at);
    let (x, end) = range_of(at, columns, FULL);
    append_hover(marks, own)?;
    let frame = Frame {
        x: x as u64,
        width: (end - x) as u64,
        foot,
        height,
    };
    append_tiles(marks, own, frame)
}

#[tactic(auto, using(crate::proofs::Steps::steps))]
fn append_columns(
    marks: &mut Vec<Mark>,
    intervals: &[Interval],
    columns: usize,
    foot: u64,
    height: u64,
) -> Result<(), AllocError>
    requires { height < 2 ^ 32 }
    ensures { OnOk result (marks.new.items
        ≡ marks.old.items ++ gather (column_marks columns foot height intervals.now) columns) }
{
    for at in 0..columns {
        append_column(marks, intervals, columns, at, foot, height)?;
    }
    Ok(())
}

/// Appends the columns of a strip: a box for each interval, or high columns of several; lower if a
/// map stands above, as over each box of few parts.
pub(crate) fn append_strip(
    marks: &mut Vec<Mark>,
    intervals: &[Interval],
    columns: usize,
    few: bool,
) -> Result<(), AllocError>
    ensures { OnOk result (marks.new.items
        ≡ marks.old.items ++ strip_marks columns few intervals.now) }
{
    if columns < intervals.len() {
        append_columns(marks, intervals, columns, 114, 96)
    } else if few {
        append_columns(marks, intervals, columns, 106, 44)
    } else {
        append_columns(marks, intervals, columns, 62, 44)
    }
}

/// Appends how many intervals of a group have each verdict that occurs in all.
#[tactic(auto, unfolding(crate::specs::Columns::group_marks))]
fn append_group_at(
    marks: &mut Vec<Mark>,
    intervals: &[Interval],
    at: usize,
) -> Result<(), AllocError>
    requires { at < 20 }
    ensures { OnOk result (marks.new.items ≡ marks.old.items ++ group_marks intervals.now at) }
{
    append_group(marks, intervals, column_of(intervals, GROUPS, at))
}

#[tactic(auto, using(crate::proofs::Steps::steps))]
fn append_all_groups(marks: &mut Vec<Mark>, intervals: &[Interval]) -> Result<(), AllocError>
    ensures { OnOk result (marks.new.items
        ≡ marks.old.items ++ gather (group_marks intervals.now) 20) }
{
    for at in 0..GROUPS {
        append_group_at(marks, intervals, at)?;
    }
    Ok(())
}

/// Appends the groups of more than 240 intervals.
#[tactic(auto, unfolding(crate::specs::Columns::groups_marks))]
pub(crate) fn append_groups(marks: &mut Vec<Mark>, intervals: &[Interval]) -> Result<(), AllocError>
    ensures { OnOk result (marks.new.items ≡ marks.old.items ++ groups_marks intervals.now) }
{
    if intervals.len() <= MOST_BOXES {
        return Ok(());
    }
    append_all_groups(marks, intervals)
}
