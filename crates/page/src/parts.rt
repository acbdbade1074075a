//! The certificates: an article for each searched part.

use crate::groups::groups;
use crate::header::part_name;
use crate::judgements::{Finding, finding_of, first_series, judgement, table_of};
use crate::map::draw_map;
use crate::pen::Pen;
use crate::sayings::{sayings, seen, text_of};
use crate::shapes::open_small;
use crate::shown::View;
use crate::strip::{END, Strip, WIDE_COLUMNS, caption, draw_strip, summary};
use crate::verdicts::{chip, row_class, slot_name, why};
use crate::words::{classed, head_cell, open_section, plural, plural_of, word};
use cover::{Interval, PartAnswer, Verdict};
use labels::SeriesRef;
use page_claims::{Checks, Place, checks_of, shown_of, slot_of};
use page_marks::{MOST_BOXES, columns_of, most_intervals, tallies_of};
use page_text::{Attribute, Key, Mark, Subject, Tag};
use postings::PartName;

fn strip_of<'a>(answer: &'a PartAnswer, few: bool) -> Strip<'a> {
    let intervals = answer.cover.certificate.as_slice();
    let columns = columns_of(intervals.len(), few);
    Strip {
        intervals,
        separators: answer.cover.separators.as_slice(),
        columns,
        top: if few && columns == intervals.len() {
            62
        } else {
            18
        },
        height: if columns < intervals.len() { 96 } else { 44 },
    }
}

/// What a figure shows, in words.
fn figure_title(pen: &mut Pen, shown: &Strip<'_>, name: PartName) {
    pen.open(Tag::Title);
    pen.word("Certificate of ");
    part_name(pen, name);
    pen.close();
    pen.open(Tag::Description);
    let intervals = shown.intervals.len() as u64;
    plural_of(
        pen,
        Subject::Intervals,
        intervals,
        " interval: ",
        " intervals: ",
    );
    summary(pen, shown.intervals);
    pen.word(". The table below has the same.");
    pen.close();
    pen.line();
}

fn figure(pen: &mut Pen, shown: &Strip<'_>, name: PartName) {
    pen.with(Attribute::Word(Key::Class, "fig"));
    pen.with(Attribute::Word(Key::Width, "100%"));
    pen.with(Attribute::Number(
        Key::Height,
        shown.top.saturating_add(shown.height).saturating_add(34),
    ));
    pen.with(Attribute::Word(Key::Role, "img"));
    pen.open(Tag::Svg);
    figure_title(pen, shown, name);
    if shown.top > 18 {
        draw_map(pen, shown);
    } else {
        caption(pen, shown);
        pen.line();
    }
    draw_strip(pen, shown);
    pen.close();
    pen.line();
}

fn head(pen: &mut Pen, answer: &PartAnswer) {
    let Ok(tallies) = tallies_of(pen.alloc(), answer.cover.certificate.as_slice()) else {
        return pen.fail();
    };
    pen.open(Tag::H3);
    part_name(pen, answer.part);
    pen.word(" ");
    pen.begin(Tag::Span, "counts");
    for tally in tallies.as_slice() {
        if let Mark::Count(Subject::Verdict(slot), _) = *tally {
            pen.open(Tag::Span);
            chip(pen, slot);
            pen.word(" ");
            pen.mark(*tally);
            pen.close();
            pen.word(" ");
        }
    }
    pen.close();
    pen.close();
    pen.line();
}

fn flaws(pen: &mut Pen, answer: &PartAnswer, matchers: usize) {
    for (check, holds) in sayings(checks_of(answer, matchers)) {
        if !holds {
            pen.begin(Tag::P, "flaw");
            word(pen, Tag::B, "✗ Not so:");
            pen.word(" ");
            pen.word(text_of(check));
            pen.word(" But ");
            seen(pen, check, answer, matchers);
            pen.word(".");
            pen.close();
            pen.line();
        }
    }
}

/// What a tick of a separator looks like.
fn tick_key(pen: &mut Pen, wide: bool) {
    open_small(pen, "tickkey", 14, 12);
    pen.with(Attribute::Word(Key::Class, "sep"));
    pen.with(Attribute::Word(Key::D, if wide { "M7 1l5 9H2z" } else { "M6 1h2v9h-2z" }));
    pen.leaf(Tag::Path);
    pen.close();
    pen.word(" ");
}

fn least(pen: &mut Pen, answer: &PartAnswer, checks: Checks, finding: Option<Finding>) {
    let otherwise = matches!(finding, Some(Finding::NumberedOtherwise));
    pen.begin(Tag::P, "least");
    tick_key(pen, answer.cover.certificate.len() <= WIDE_COLUMNS);
    let separators = answer.cover.separators.len() as u64;
    plural(pen, separators, " separator, ", " separators, ");
    let intervals = answer.cover.certificate.len() as u64;
    plural(pen, intervals, " interval: ", " intervals: ");
    pen.word(if !otherwise && checks.chain && checks.names && checks.separators {
        "no valid certificate has fewer."
    } else {
        "this does not show that no valid certificate has fewer."
    });
    pen.close();
    pen.line();
}

/// The separators that lie from one reference to before another, at most four of them, and how many
/// more there are; and whether there is one.
fn some_separators(pen: &mut Pen, separators: &[SeriesRef], from: u64, until: u64) -> bool {
    let mut found = 0u64;
    for separator in separators {
        let number = u64::from(separator.number());
        if from <= number && number < until {
            if found > 0 && found < 4 {
                pen.word(", ");
            }
            if found < 4 {
                pen.number(number);
            }
            found = found.saturating_add(1);
        }
    }
    if found > 4 {
        pen.word(" +");
        pen.counted(found.saturating_sub(4));
    }
    found > 0
}

/// The cell of the separators of an interval; none is red.
fn separators(pen: &mut Pen, separators: &[SeriesRef], from: u64, until: u64) {
    pen.begin(Tag::Td, "n");
    if !some_separators(pen, separators, from, until) {
        classed(pen, Tag::B, "no", "none");
    }
    pen.close();
}

/// The row of a hole or an overlap before an interval, with the separators that lie in the hole.
fn hole(pen: &mut Pen, answer: &PartAnswer, before: u64, from: u64) {
    if before == from {
        return;
    }
    pen.begin(Tag::Tr, "no");
    word(pen, Tag::Td, "");
    pen.number_cell(before);
    pen.number_cell(from);
    pen.begin(Tag::Td, "n x");
    pen.close();
    pen.begin(Tag::Td, "n");
    some_separators(pen, answer.cover.separators.as_slice(), before, from);
    pen.close();
    pen.with(Attribute::Number(Key::Colspan, 2));
    pen.open(Tag::Td);
    pen.word(if before < from {
        "a hole: in no interval"
    } else {
        "an overlap: out of order"
    });
    pen.close();
    pen.close();
    pen.line();
}

/// The first series of an interval that is no match, if the auditor knows them.
fn examples(pen: &mut Pen, view: &View<'_>, answer: &PartAnswer, interval: &Interval) {
    match (table_of(view.shown.tables, answer.part), interval.verdict) {
        (Some(table), Verdict::Rejected(_)) => first_series(pen, table, interval),
        (Some(table), Verdict::NoSample) => first_series(pen, table, interval),
        _ => {}
    }
}

/// How many references an interval spans.
fn span(pen: &mut Pen, from: u64, until: u64) {
    pen.begin(Tag::Td, "n x");
    if until == END {
        pen.word("open end");
    } else {
        pen.counted(until.saturating_sub(from));
    }
    pen.close();
}

fn interval_row(
    pen: &mut Pen,
    view: &View<'_>,
    answer: &PartAnswer,
    at: usize,
    interval: &Interval,
) {
    let slot = slot_of(interval.verdict);
    let from = u64::from(interval.from.number());
    pen.with(row_class(slot));
    pen.open(Tag::Tr);
    pen.count_cell(Subject::Place, (at as u64).saturating_add(1));
    pen.number_cell(from);
    pen.number_cell(interval.until);
    span(pen, from, interval.until);
    let all = answer.cover.separators.as_slice();
    separators(pen, all, from, interval.until);
    pen.begin(Tag::Td, "vd");
    chip(pen, slot);
    pen.word(" ");
    slot_name(pen, slot);
    pen.close();
    pen.open(Tag::Td);
    why(pen, interval.verdict, view.matchers());
    examples(pen, view, answer, interval);
    pen.close();
    pen.close();
    pen.line();
}

fn heads(pen: &mut Pen) {
    pen.open(Tag::TableHead);
    pen.open(Tag::Tr);
    head_cell(pen, "n", "No.");
    head_cell(pen, "n", "from");
    head_cell(pen, "n", "until");
    head_cell(pen, "n x", "Span");
    head_cell(pen, "n", "Separator");
    head_cell(pen, "", "Verdict");
    head_cell(pen, "", "Why");
    pen.close();
    pen.close();
}

fn table_summary(pen: &mut Pen, shown: usize, all: usize) {
    pen.open(Tag::Summary);
    if shown < all {
        pen.word("The first ");
        pen.counted(shown as u64);
        pen.word(" of ");
        plural(pen, all as u64, " interval", " intervals");
    } else {
        pen.word("Interval by interval");
    }
    pen.close();
}

/// What is left out of a table, by verdict.
fn left_out(pen: &mut Pen, rest: &[Interval]) {
    if rest.is_empty() {
        return;
    }
    pen.begin(Tag::P, "left");
    let (one, many) = (" more interval is", " more intervals are");
    plural_of(pen, Subject::Intervals, rest.len() as u64, one, many);
    pen.word(" left out of this table: ");
    summary(pen, rest);
    pen.word(". The strip and the counts have all of them.");
    pen.close();
}

/// The rows of intervals, and of holes and overlaps between them.
fn interval_rows(pen: &mut Pen, view: &View<'_>, answer: &PartAnswer, shown: &[Interval]) {
    let mut before = None;
    for (at, interval) in shown.iter().enumerate() {
        if let Some(until) = before {
            hole(pen, answer, until, u64::from(interval.from.number()));
        }
        before = Some(interval.until);
        interval_row(pen, view, answer, at, interval);
    }
}

fn table(pen: &mut Pen, view: &View<'_>, answer: &PartAnswer) {
    let intervals = answer.cover.certificate.as_slice();
    let (shown, rest) = shown_of(intervals, most_intervals(view.few));
    if intervals.len() <= 16 {
        pen.with(Attribute::Word(Key::Open, ""));
    }
    pen.open(Tag::Details);
    table_summary(pen, shown.len(), intervals.len());
    pen.begin(Tag::Div, "scroll");
    pen.begin(Tag::Table, "iv");
    heads(pen);
    pen.open(Tag::TableBody);
    pen.line();
    interval_rows(pen, view, answer, shown);
    pen.close();
    pen.close();
    pen.close();
    left_out(pen, rest);
    pen.close();
    pen.line();
}

fn is_valid(finding: Option<Finding>) -> bool {
    match finding {
        Some(finding) => finding.is_valid(),
        None => false,
    }
}

fn article(pen: &mut Pen, view: &View<'_>, at: usize, answer: &PartAnswer) {
    let checks = checks_of(answer, view.matchers().len());
    let finding = finding_of(view, at, answer.part);
    pen.with(Attribute::Word(Key::Class, "part"));
    pen.with(Attribute::Named(Key::Id, "p", at as u64));
    pen.open(Tag::Article);
    head(pen, answer);
    flaws(pen, answer, view.matchers().len());
    judgement(pen, view, finding);
    if answer.cover.certificate.is_empty() {
        let none = if is_valid(finding) {
            "This part has no series, so it needs no interval."
        } else {
            "This part is told to have no series, so it needs no interval."
        };
        word(pen, Tag::P, none);
    } else {
        figure(pen, &strip_of(answer, view.few), answer.part);
        least(pen, answer, checks, finding);
        if answer.cover.certificate.len() > MOST_BOXES {
            groups(pen, answer.cover.certificate.as_slice());
        }
        table(pen, view, answer);
    }
    pen.close();
    pen.line();
}

/// The names of the parts that were skipped.
fn skipped_names(pen: &mut Pen, view: &View<'_>) {
    let mut first = true;
    for (at, place) in view.shown.told.places.iter().enumerate() {
        if let Place::Skipped(number) = *place {
            pen.word(if first { "Told to be skipped: " } else { ", " });
            first = false;
            pen.with(Attribute::Named(Key::Id, "p", at as u64));
            pen.open(Tag::Span);
            part_name(pen, PartName::Block(number));
            pen.close();
        }
    }
}

/// What the auditor found of a block that was skipped at a place of the reply.
fn skip_judged(view: &View<'_>, at: usize, number: usize) -> &'static str {
    if view.is_silent(at, number) {
        ": the auditor found that the query selects nothing of it."
    } else if finding_of(view, at, PartName::Block(number)).is_some() {
        ": the auditor names a flaw of this: see above."
    } else {
        ": not judged, as the auditor was given no block for it."
    }
}

/// Which skips the auditor judged, and which it could not.
fn skips_judged(pen: &mut Pen, view: &View<'_>) {
    if !view.is_audited() {
        return pen.word(" Nobody judged it; the auditor checks a skip against the block.");
    }
    for (at, place) in view.shown.told.places.iter().enumerate() {
        if let Place::Skipped(number) = *place {
            pen.word(" ");
            part_name(pen, PartName::Block(number));
            pen.word(skip_judged(view, at, number));
        }
    }
}

/// The parts that were skipped.
fn skipped(pen: &mut Pen, view: &View<'_>) {
    if view.shown.told.places.len() == view.shown.told.answers.len() {
        return;
    }
    pen.begin(Tag::Article, "part skip");
    pen.open(Tag::H3);
    skipped_names(pen, view);
    pen.close();
    pen.open(Tag::P);
    pen.word("The reply has no certificate for a block that is told to be skipped.");
    skips_judged(pen, view);
    pen.close();
    pen.close();
    pen.line();
}

fn articles(pen: &mut Pen, view: &View<'_>) {
    let mut answers = view.shown.told.answers.as_slice();
    for (at, place) in view.shown.told.places.iter().enumerate() {
        if let Place::Searched = *place {
            if let Some((answer, later)) = answers.split_first() {
                answers = later;
                article(pen, view, at, answer);
            }
        }
    }
}

/// The certificates.
pub(crate) fn certificates(pen: &mut Pen, view: &View<'_>) {
    open_section(pen, "cert", "Certificates");
    classed(
        pen,
        Tag::P,
        "note",
        "Read from left to right: every series of the part lies in one box, and the box says why \
         it is a row (✓) or not. Point at a box for its numbers.",
    );
    pen.line();
    articles(pen, view);
    skipped(pen, view);
    pen.close();
    pen.line();
}
