//! The same for a terminal of 80 columns.

use crate::asked::Asked;
use crate::header::{auditor_text, part_name, state_line_text, state_lines};
use crate::judgements::{Finding, finding_of};
use crate::pen::Pen;
use crate::sayings::{Check, sayings, seen};
use crate::shown::View;
use crate::strip::END;
use crate::verdicts::{MATCH, NONE, UNKNOWN, op_text, slot_name};
use crate::words::{left_box, long_text, plural_of};
use cover::{Interval, PartAnswer};
use matchers::Matcher;
use page_claims::{Place, SLOTS, checks_of, slot_of};
use page_layout::range_of;
use page_text::Subject;
use postings::PartName;

/// Most letters of a line.
const WIDTH: usize = 76;

/// Most lines of a selector before its last.
const MOST_LINES: u64 = 54;

/// Most characters of a selector that are shown.
pub(crate) const MOST_SHOWN: usize = 4180;

fn matcher_text(pen: &mut Pen, matcher: &Matcher) {
    long_text(pen, matcher.name(), 24);
    pen.word(op_text(matcher.op()));
    pen.word("\"");
    long_text(pen, matcher.text(), 24);
    pen.word("\"");
}

/// The letter of a slot: one character for each.
fn letter(pen: &mut Pen, slot: usize) {
    match slot {
        MATCH => pen.word("✓"),
        NONE => pen.word("."),
        UNKNOWN => pen.word("?"),
        11 => pen.word("a"),
        12 => pen.word("b"),
        13 => pen.word("c"),
        14 => pen.word("d"),
        15 => pen.word("e"),
        16 => pen.word("f"),
        _ => pen.number(slot.saturating_sub(1) as u64),
    }
}

fn key_line(pen: &mut Pen, view: &View<'_>, slot: usize, n: u64) {
    pen.word("  ");
    letter(pen, slot);
    pen.word("  ");
    plural_of(
        pen,
        Subject::Verdict(slot),
        n,
        " interval  ",
        " intervals  ",
    );
    slot_name(pen, slot);
    if slot != MATCH && slot != NONE {
        if let Some(failed) = view.matchers().get(slot.saturating_sub(1)) {
            pen.word(": ");
            matcher_text(pen, failed);
        }
    }
    pen.line();
}

fn key(pen: &mut Pen, view: &View<'_>) {
    for slot in 0..SLOTS {
        let n = view.count(slot);
        if slot == MATCH || slot == NONE || slot <= view.matchers().len() || n > 0 {
            key_line(pen, view, slot, n);
        }
    }
}

/// The slot that stands for a column: match if it has one, else its first.
fn slot_for(intervals: &[Interval]) -> usize {
    let mut slot = UNKNOWN;
    let mut first = true;
    for interval in intervals {
        let its = slot_of(interval.verdict);
        if first || its == MATCH {
            slot = its;
        }
        first = false;
    }
    slot
}

/// A letter for each interval, or for each of some columns of them.
fn letters(pen: &mut Pen, intervals: &[Interval]) {
    let columns = intervals.len().min(WIDTH);
    if columns == 0 {
        return;
    }
    pen.word("  ");
    for at in 0..columns {
        let (from, until) = range_of(at, columns, intervals.len());
        letter(pen, slot_for(&intervals[from..until]));
    }
    pen.line();
    if columns < intervals.len() {
        pen.word("  a letter for several intervals: ✓ if one of them is a match, else their first");
        pen.line();
    }
}

/// What a check that does not hold would have said, in few words.
fn short_text(check: Check) -> &'static str {
    match check {
        Check::Chain => "  ✗ the intervals are no chain without a hole: ",
        Check::Names => "  ✗ a verdict names a matcher that is not there: ",
        Check::Rows => "  ✗ there are not as many rows as matches: ",
        Check::Separators => "  ✗ the separators do not lie one in each: ",
    }
}

fn flaws(pen: &mut Pen, view: &View<'_>, answer: &PartAnswer) {
    let matchers = view.matchers().len();
    for (check, holds) in sayings(checks_of(answer, matchers)) {
        if !holds {
            pen.word(short_text(check));
            pen.line();
            pen.word("    ");
            seen(pen, check, answer, matchers);
            pen.line();
        }
    }
}

/// What is told of a part that no judge found valid.
fn unjudged(pen: &mut Pen, view: &View<'_>, at: usize, answer: &PartAnswer) {
    match finding_of(view, at, answer.part) {
        Some(Finding::NumberedOtherwise) => {
            pen.word("  judged for what is missing, and not for how few its intervals are");
            return pen.line();
        }
        Some(Finding::Valid | Finding::Flawed) => return,
        None => {}
    }
    pen.word(if answer.cover.certificate.is_empty() {
        "  told to have no series, which nobody judged"
    } else {
        "  nobody judged it"
    });
    pen.line();
}

fn part(pen: &mut Pen, view: &View<'_>, at: usize, answer: &PartAnswer) {
    let intervals = answer.cover.certificate.as_slice();
    part_name(pen, answer.part);
    pen.word(": ");
    let count = intervals.len() as u64;
    plural_of(pen, Subject::Intervals, count, " interval", " intervals");
    if let (Some(first), Some(last)) = (intervals.first(), intervals.last()) {
        pen.word(" from ");
        pen.number(u64::from(first.from.number()));
        pen.word(" to ");
        if last.until == END {
            pen.word("the end");
        } else {
            pen.number(last.until);
        }
    }
    pen.line();
    unjudged(pen, view, at, answer);
    letters(pen, intervals);
    flaws(pen, view, answer);
}

fn parts(pen: &mut Pen, view: &View<'_>) {
    let mut answers = view.shown.told.answers.as_slice();
    for (at, place) in view.shown.told.places.iter().enumerate() {
        match *place {
            Place::Skipped(number) => {
                part_name(pen, PartName::Block(number));
                pen.word(if view.is_silent(at, number) {
                    ": skipped, the query selects nothing of it"
                } else {
                    ": told to be skipped"
                });
                pen.line();
            }
            Place::Searched => {
                if let Some((answer, later)) = answers.split_first() {
                    answers = later;
                    part(pen, view, at, answer);
                }
            }
        }
    }
}

/// The matchers that do not accept the label set that somebody asks about.
fn rejecting(pen: &mut Pen, view: &View<'_>, places: &[usize]) {
    pen.word("The series is not in the answer: these reject it, whatever the store holds.");
    pen.line();
    for at in places {
        if let Some(failed) = view.matchers().get(*at) {
            pen.word("  ");
            letter(pen, at.saturating_add(1).min(UNKNOWN));
            pen.word("  ");
            matcher_text(pen, failed);
            pen.line();
        }
    }
}

fn about(pen: &mut Pen, view: &View<'_>, asked: &Asked) {
    match asked {
        Asked::Row(at) => {
            pen.word("The series is in the answer, as row ");
            pen.counted((*at as u64).saturating_add(1));
            pen.word(".");
            pen.line()
        }
        Asked::Rejected(places) => rejecting(pen, view, places.as_slice()),
        Asked::Accepted => {
            pen.word("Every matcher accepts these labels, and they are no row: if the");
            pen.line();
            pen.word("certificate is right, no part holds a sample of them in the range.");
            pen.line()
        }
    }
}

/// What is wrong with the rows of all, and what the auditor found.
fn faults(pen: &mut Pen, view: &View<'_>) {
    if !view.claim.is_merged {
        pen.word("  ✗ the rows of the answer are not the merged rows of the parts");
        pen.line();
    }
    for line in view.shown.lines {
        if line.judgement.is_fault() {
            pen.word("  ✗ the auditor found a flaw: ");
            auditor_text(pen, line);
            pen.line();
        }
    }
    for line in state_lines(view) {
        if !line.grade.is_right() {
            pen.word("  ✗ the auditor found a flaw: ");
            state_line_text(pen, line);
            pen.line();
        }
    }
}

/// A text from outside, broken into lines.
fn broken_text(pen: &mut Pen, text: &str) {
    let alloc = pen.alloc();
    let mut chars = Vec::new(alloc);
    let (mut lines, mut left) = (0u64, 0u64);
    for c in text.chars() {
        if chars.len() == WIDTH && lines < MOST_LINES {
            pen.text(chars);
            pen.line();
            chars = Vec::new(alloc);
            lines = lines.saturating_add(1);
        }
        if chars.len() == WIDTH {
            left = left.saturating_add(1);
        } else if chars.push(c).is_err() {
            return pen.fail();
        }
    }
    pen.text(chars);
    left_box(pen, left, " character", " characters");
    pen.line();
}

/// The question.
pub(crate) fn question(pen: &mut Pen, view: &View<'_>) {
    broken_text(pen, view.shown.selector);
}

/// The key, a strip of letters for each part, and the sentence about a series.
pub(crate) fn terminal(pen: &mut Pen, view: &View<'_>, asked: Option<&Asked>) {
    faults(pen, view);
    pen.line();
    key(pen, view);
    pen.line();
    parts(pen, view);
    if let Some(asked) = asked {
        pen.line();
        about(pen, view, asked);
    }
}
