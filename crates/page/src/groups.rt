//! The strip of many intervals as a table of groups.

use crate::pen::Pen;
use crate::verdicts::{chip, slot_name};
use crate::words::{head_cell, open_head, word};
use cover::Interval;
use page_claims::count_in;
use page_layout::range_of;
use page_marks::{GROUPS, tallies_of};
use page_text::{Mark, Subject, Tag};

fn heads(pen: &mut Pen, tallies: &[Mark]) {
    pen.open(Tag::TableHead);
    pen.open(Tag::Tr);
    head_cell(pen, "n", "Intervals");
    head_cell(pen, "n", "from");
    head_cell(pen, "n", "until");
    for tally in tallies {
        if let Mark::Count(Subject::Verdict(slot), _) = *tally {
            open_head(pen, "col", "n");
            chip(pen, slot);
            pen.word(" ");
            slot_name(pen, slot);
            pen.close();
        }
    }
    pen.close();
    pen.close();
}

fn group_head(pen: &mut Pen, first: usize, last: usize) {
    open_head(pen, "row", "n");
    pen.counted((first as u64).saturating_add(1));
    pen.word(" to ");
    pen.counted(last as u64);
    pen.close();
}

fn group(pen: &mut Pen, intervals: &[Interval], tallies: &[Mark]) {
    if let (Some(first), Some(last)) = (intervals.first(), intervals.last()) {
        pen.number_cell(u64::from(first.from.number()));
        pen.number_cell(last.until);
    }
    for tally in tallies {
        if let Mark::Count(Subject::Verdict(slot), _) = *tally {
            pen.count_cell(Subject::Verdict(slot), count_in(intervals, slot) as u64);
        }
    }
}

/// How many intervals of each group have each verdict.
pub(crate) fn groups(pen: &mut Pen, intervals: &[Interval]) {
    let groups = intervals.len().min(GROUPS);
    let Ok(tallies) = tallies_of(pen.alloc(), intervals) else {
        return pen.fail();
    };
    pen.open(Tag::Details);
    word(
        pen,
        Tag::Summary,
        "The strip as a table: groups of intervals",
    );
    pen.begin(Tag::Div, "scroll");
    pen.begin(Tag::Table, "iv");
    heads(pen, tallies.as_slice());
    pen.open(Tag::TableBody);
    pen.line();
    for at in 0..groups {
        let (from, until) = range_of(at, groups, intervals.len());
        pen.open(Tag::Tr);
        group_head(pen, from, until);
        group(pen, &intervals[from..until], tallies.as_slice());
        pen.close();
        pen.line();
    }
    pen.close();
    pen.close();
    pen.close();
    pen.close();
    pen.line();
}
