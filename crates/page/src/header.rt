//! The head of a page: the question, the claim, what somebody asks about, and counts.

use crate::asked::Asked;
use crate::judgements::is_judged;
use crate::pen::Pen;
use crate::sayings::{sayings, seen, text_of};
use crate::shown::View;
use crate::times::range;
use crate::verdicts::{MATCH, UNKNOWN, chip, matcher, series};
use crate::words::{classed, long_text, plural, word};
use auditor::Line;
use cover::PartAnswer;
use labels::LabelSet;
use page_claims::{Completeness, Place, checks_of};
use page_text::{Attribute, Key, Subject, Tag};
use postings::PartName;
use whole_audit::StateLine;

/// The name of a part.
pub(crate) fn part_name(pen: &mut Pen, name: PartName) {
    match name {
        PartName::Head => pen.word("head"),
        PartName::Block(number) => {
            pen.word("block ");
            pen.number(number as u64)
        }
    }
}

/// A link to the article of the part at a place.
pub(crate) fn part_link(pen: &mut Pen, at: usize, name: PartName) {
    pen.with(Attribute::Named(Key::Href, "#p", at as u64));
    pen.open(Tag::A);
    part_name(pen, name);
    pen.close();
}

/// What the intervals say.
fn intervals_say(pen: &mut Pen, view: &View<'_>) {
    let searched = view.shown.told.answers.len() as u64;
    let matches = view.count(MATCH);
    let reasons = view.intervals.saturating_sub(matches);
    if searched == 1 {
        pen.word("All series of the searched part lie in ");
    } else {
        pen.word("All series of the ");
        pen.counted(searched);
        pen.word(" searched parts lie in ");
    }
    plural(pen, view.intervals, " interval", " intervals");
    pen.word(", without a hole. ");
    pen.open(Tag::B);
    plural(pen, matches, " is", " are");
    pen.close();
    matches_say(pen, view, matches);
    pen.open(Tag::B);
    plural(pen, reasons, " gives", " give");
    pen.close();
    pen.word(if reasons == 1 {
        " the reason why none of its series is a row. "
    } else {
        " the reason why none of their series is a row. "
    })
}

/// What becomes of the matches.
fn matches_say(pen: &mut Pen, view: &View<'_>, matches: u64) {
    let told = view.shown.told;
    pen.word(if matches == 1 {
        " one matching series"
    } else {
        " one matching series each"
    });
    if told.answers.len() == 1 {
        return pen.word(if matches == 1 {
            ": the row. "
        } else {
            ": the rows. "
        });
    }
    pen.word(": they merge into the ");
    plural(pen, told.rows.len() as u64, " row. ", " rows. ");
}

/// How many blocks were skipped of which a judge found that the query selects nothing, and how many
/// are told to be skipped.
fn skips_say(pen: &mut Pen, view: &View<'_>) {
    let (mut silent, mut told) = (0u64, 0u64);
    for (at, place) in view.shown.told.places.iter().enumerate() {
        if let Place::Skipped(number) = *place {
            if view.is_silent(at, number) {
                silent = silent.saturating_add(1);
            } else {
                told = told.saturating_add(1);
            }
        }
    }
    if silent == 0 && told == 0 {
        return pen.word("No part was skipped.");
    }
    if silent > 0 {
        let one = " part was skipped: the query selects nothing of it. ";
        let many = " parts were skipped: the query selects nothing of them. ";
        plural(pen, silent, one, many);
    }
    if told > 0 {
        let (one, many) = (
            " part is told to be skipped.",
            " parts are told to be skipped.",
        );
        plural(pen, told, one, many);
    }
}

fn counts(pen: &mut Pen, view: &View<'_>) {
    let told = view.shown.told;
    let searched = told.answers.len() as u64;
    pen.open(Tag::P);
    if searched == 0 {
        pen.word("No part was searched. ");
    } else if view.intervals == 0 {
        pen.word(if matches!(view.claim.completeness, Completeness::Judged) {
            "The searched parts have no series. "
        } else {
            "The searched parts are told to have no series. "
        });
    } else {
        intervals_say(pen, view);
    }
    skips_say(pen, view);
    pen.close();
}

/// The checks that an answer does not pass, each with the first place.
fn failing(pen: &mut Pen, view: &View<'_>, at: usize, answer: &PartAnswer) {
    let matchers = view.matchers().len();
    for (check, holds) in sayings(checks_of(answer, matchers)) {
        if !holds {
            pen.open(Tag::Item);
            part_link(pen, at, answer.part);
            pen.word(": not so: “");
            pen.word(text_of(check));
            pen.word("” But ");
            seen(pen, check, answer, matchers);
            pen.word(".");
            pen.close();
        }
    }
}

fn all_failing(pen: &mut Pen, view: &View<'_>) {
    let mut answers = view.shown.told.answers.as_slice();
    for (at, place) in view.shown.told.places.iter().enumerate() {
        if let Place::Searched = *place {
            if let Some((answer, later)) = answers.split_first() {
                answers = later;
                failing(pen, view, at, answer);
            }
        }
    }
}

/// The lines of the auditor that name a flaw or a refusal.
fn faults(pen: &mut Pen, view: &View<'_>) {
    for line in view.shown.lines {
        if line.judgement.is_fault() {
            pen.open(Tag::Item);
            pen.word("The auditor found a flaw: ");
            auditor_line(pen, line);
            pen.close();
        }
    }
    for line in state_lines(view) {
        if !line.grade.is_right() {
            pen.open(Tag::Item);
            pen.word("The auditor found a flaw: ");
            state_line(pen, line);
            pen.close();
        }
    }
}

/// What does not hold, each with the first place.
fn failures(pen: &mut Pen, view: &View<'_>) {
    pen.open(Tag::Ul);
    all_failing(pen, view);
    faults(pen, view);
    if !view.claim.is_merged {
        word(
            pen,
            Tag::Item,
            "The rows of the answer are not the merged rows of the parts.",
        );
    }
    pen.close();
}

/// What stands below the claim: counts, or what does not hold.
pub(crate) fn details(pen: &mut Pen, view: &View<'_>) {
    if view.claim.completeness.is_shown() {
        counts(pen, view)
    } else {
        failures(pen, view)
    }
}

/// A line of the auditor, as it prints it.
pub(crate) fn auditor_text(pen: &mut Pen, line: &Line) {
    let alloc = pen.alloc();
    let Ok(text) = format!(in alloc; "{line}") else {
        return pen.fail();
    };
    long_text(pen, text.as_str(), 120);
}

/// The lines over a state of a store; none, if no store was looked at.
pub(crate) fn state_lines<'a>(view: &View<'a>) -> &'a [StateLine] {
    match view.shown.state {
        Some(state) => state.lines,
        None => &[],
    }
}

/// A line over a state of a store, as it is printed.
pub(crate) fn state_line_text(pen: &mut Pen, line: &StateLine) {
    let alloc = pen.alloc();
    let Ok(text) = format!(in alloc; "{line}") else {
        return pen.fail();
    };
    long_text(pen, text.as_str(), 120);
}

fn state_line(pen: &mut Pen, line: &StateLine) {
    pen.open(Tag::Code);
    state_line_text(pen, line);
    pen.close();
}

fn auditor_line(pen: &mut Pen, line: &Line) {
    pen.open(Tag::Code);
    auditor_text(pen, line);
    pen.close();
}

/// The parts that the auditor did not judge.
fn unjudged(pen: &mut Pen, view: &View<'_>) {
    let mut named = false;
    for name in view.claim.unjudged.as_slice() {
        if !is_judged(view, *name) {
            pen.word(if named { ", " } else { " Not judged: " });
            part_name(pen, *name);
            named = true;
        }
    }
    if named {
        pen.word(".");
    }
}

fn judged(pen: &mut Pen, view: &View<'_>) {
    if !view.is_audited() {
        return;
    }
    pen.begin(Tag::P, "audit");
    word(pen, Tag::B, "The auditor said:");
    let mut first = true;
    for line in view.shown.lines {
        pen.word(if first { " " } else { " · " });
        first = false;
        auditor_line(pen, line);
    }
    for line in state_lines(view) {
        pen.word(if first { " " } else { " · " });
        first = false;
        state_line(pen, line);
    }
    pen.word(".");
    pen.begin(Tag::Span, "mute");
    unjudged(pen, view);
    pen.close();
    pen.close();
    pen.line();
}

fn rejected(pen: &mut Pen, view: &View<'_>, places: &[usize]) {
    let mut first = true;
    for at in places {
        pen.word(if first {
            "It is not in the answer, since "
        } else {
            " and "
        });
        first = false;
        chip(pen, at.saturating_add(1).min(UNKNOWN));
        if let Some(failed) = view.matchers().get(*at) {
            pen.word(" ");
            matcher(pen, failed);
        }
    }
    pen.word(if places.len() == 1 {
        " rejects"
    } else {
        " reject"
    });
    pen.word(" these labels, whatever the store holds.");
}

/// What is said of the label set that somebody asks about.
fn said(pen: &mut Pen, view: &View<'_>, asked: &Asked) {
    match asked {
        Asked::Row(at) => {
            pen.word("It is in the answer, as row ");
            pen.counted((*at as u64).saturating_add(1));
            pen.word(".")
        }
        Asked::Rejected(places) => rejected(pen, view, places.as_slice()),
        Asked::Accepted => pen.word(
            "Every matcher accepts these labels, and it is not a row. So, if the certificate is \
             right, no part holds a sample of it in the range: nothing was written under exactly \
             these labels then, or it was deleted.",
        ),
    }
}

fn about(pen: &mut Pen, view: &View<'_>, labels: &LabelSet, asked: &Asked) {
    pen.begin(Tag::Div, "about");
    pen.open(Tag::P);
    word(pen, Tag::B, "Asked about");
    pen.word(" ");
    series(pen, labels);
    pen.close();
    pen.open(Tag::P);
    said(pen, view, asked);
    pen.close();
    pen.close();
    pen.line();
}

fn open_number(pen: &mut Pen, href: &'static str) {
    pen.open(Tag::Div);
    pen.open(Tag::Term);
    pen.with(Attribute::Word(Key::Href, href));
    pen.open(Tag::A);
}

fn close_number(pen: &mut Pen, subject: Subject, n: u64) {
    pen.close();
    pen.close();
    pen.open(Tag::DescriptionText);
    pen.count(subject, n);
    pen.close();
    pen.close();
}

fn number(pen: &mut Pen, subject: Subject, n: u64, href: &'static str, what: &'static str) {
    open_number(pen, href);
    pen.word(what);
    close_number(pen, subject, n);
}

fn searched_number(pen: &mut Pen, view: &View<'_>) {
    let told = view.shown.told;
    open_number(pen, "#time");
    pen.word("of ");
    plural(pen, told.places.len() as u64, " part", " parts");
    pen.word(" searched");
    close_number(pen, Subject::Parts, told.answers.len() as u64);
}

fn numbers(pen: &mut Pen, view: &View<'_>) {
    let told = view.shown.told;
    let mut separators = 0u64;
    for answer in told.answers.as_slice() {
        separators = separators.saturating_add(answer.cover.separators.len() as u64);
    }
    pen.begin(Tag::DescriptionList, "nums");
    let rows = told.rows.len() as u64;
    number(pen, Subject::Rows, rows, "#rows", "series");
    number(pen, Subject::Samples, view.samples, "#rows", "samples");
    searched_number(pen, view);
    number(
        pen,
        Subject::Intervals,
        view.intervals,
        "#cert",
        "intervals",
    );
    number(pen, Subject::Separators, separators, "#cert", "separators");
    pen.close();
    pen.line();
}

/// Most characters of a selector that are shown.
pub(crate) const MOST_SHOWN: usize = 4096;

/// The head of a page: what was asked.
pub(crate) fn heading(pen: &mut Pen, view: &View<'_>) {
    pen.open(Tag::Header);
    classed(pen, Tag::P, "kicker", "Audited answer");
    pen.open(Tag::H1);
    pen.open(Tag::Code);
    long_text(pen, view.shown.selector, MOST_SHOWN as u64);
    pen.close();
    pen.close();
    pen.line();
    range(pen, view.shown.query.from(), view.shown.query.to());
    pen.close();
    pen.line();
}

/// What the auditor said, what is said of a label set, and counts.
pub(crate) fn summary(pen: &mut Pen, view: &View<'_>, asked: Option<&Asked>) {
    judged(pen, view);
    if let (Some(labels), Some(asked)) = (view.shown.about, asked) {
        about(pen, view, labels, asked);
    }
    numbers(pen, view);
}
