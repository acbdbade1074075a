//! The key: what each verdict says, and how many intervals have it.

use crate::pen::Pen;
use crate::shapes::open_small;
use crate::shown::View;
use crate::verdicts::{MATCH, NONE, UNKNOWN, chip, matcher, plain_fill, slot_name};
use crate::words::{classed, head_cell, open_section, word};
use page_claims::SLOTS;
use page_layout::share;
use page_text::{Attribute, Key, Subject, Tag};

/// What a slot says of each series of its intervals.
fn meaning(pen: &mut Pen, view: &View<'_>, slot: usize) {
    match slot {
        MATCH => {
            pen.word("Every matcher accepts it and it has a sample in the range: ");
            word(pen, Tag::B, "a row");
            pen.word(".")
        }
        NONE => pen.word("It has no sample in the range."),
        _ => match view.matchers().get(slot.saturating_sub(1)) {
            Some(failed) => {
                pen.word("It fails ");
                matcher(pen, failed)
            }
            None => classed(pen, Tag::B, "no", "The selector has no such matcher."),
        },
    }
}

/// A share in tenths of a percent, rounded down; never 0 for something, nor all for less.
fn percent(pen: &mut Pen, n: u64, of: u64) {
    pen.begin(Tag::Span, "pct");
    let tenths = share(n, of, 1000);
    if n == 0 {
        pen.word("0 %");
    } else if n >= of {
        pen.word("100 %");
    } else if tenths == 0 {
        pen.word("< 0.1 %");
    } else {
        pen.number(tenths / 10);
        pen.word(".");
        pen.number(tenths % 10);
        pen.word(" %");
    }
    pen.close();
}

fn bar(pen: &mut Pen, slot: usize, n: u64, of: u64) {
    open_small(pen, "bar", 100, 12);
    pen.with(Attribute::Word(Key::Class, "track"));
    pen.with(Attribute::Number(Key::Width, 100));
    pen.with(Attribute::Number(Key::Height, 12));
    pen.leaf(Tag::Rect);
    let width = if n == 0 { 0 } else { share(n, of, 100).max(1) };
    pen.with(plain_fill(slot));
    pen.with(Attribute::Number(Key::Width, width));
    pen.with(Attribute::Number(Key::Height, 12));
    pen.leaf(Tag::Rect);
    pen.close();
}

/// How many references the intervals of a slot span that have an end, and how many have none.
fn span_of(view: &View<'_>, slot: usize) -> (u64, u64) {
    let (mut sum, mut open) = (0u64, 0u64);
    for answer in view.shown.told.answers.as_slice() {
        for interval in answer.cover.certificate.as_slice() {
            if page_claims::slot_of(interval.verdict) != slot {
                continue;
            }
            if interval.until == 4_294_967_296 {
                open = open.saturating_add(1);
            } else {
                let from = u64::from(interval.from.number());
                sum = sum.saturating_add(interval.until.saturating_sub(from));
            }
        }
    }
    (sum, open)
}

fn span(pen: &mut Pen, view: &View<'_>, slot: usize) {
    let (sum, open) = span_of(view, slot);
    pen.begin(Tag::Td, "n");
    if sum > 0 || open == 0 {
        pen.counted(sum);
    }
    if sum > 0 && open > 0 {
        pen.word(" + ");
    }
    if open > 1 {
        pen.counted(open);
        pen.word(" × ");
    }
    if open > 0 {
        pen.word("open end");
    }
    pen.close();
}

/// The name of the radio button that shows a slot alone.
fn radio_name(slot: usize) -> Attribute {
    match slot {
        MATCH => Attribute::Word(Key::Id, "s-vm"),
        NONE => Attribute::Word(Key::Id, "s-vn"),
        UNKNOWN => Attribute::Word(Key::Id, "s-no"),
        _ => Attribute::Named(Key::Id, "s-v", slot.saturating_sub(1) as u64),
    }
}

fn radio_label(slot: usize) -> Attribute {
    match slot {
        MATCH => Attribute::Word(Key::AriaLabel, "Show match alone"),
        NONE => Attribute::Word(Key::AriaLabel, "Show no sample alone"),
        UNKNOWN => Attribute::Word(Key::AriaLabel, "Show unknown matchers alone"),
        _ => Attribute::Named(
            Key::AriaLabel,
            "Show alone what is rejected by ",
            slot.saturating_sub(1) as u64,
        ),
    }
}

fn radio(pen: &mut Pen, slot: usize) {
    pen.begin(Tag::Td, "hl");
    pen.with(Attribute::Word(Key::Type, "radio"));
    pen.with(Attribute::Word(Key::Name, "s"));
    pen.with(radio_name(slot));
    pen.with(radio_label(slot));
    pen.leaf(Tag::Input);
    pen.close();
}

fn row(pen: &mut Pen, view: &View<'_>, slot: usize, n: u64) {
    pen.open(Tag::Tr);
    pen.with(Attribute::Word(Key::Scope, "row"));
    pen.open(Tag::Th);
    chip(pen, slot);
    pen.word(" ");
    slot_name(pen, slot);
    pen.close();
    pen.open(Tag::Td);
    meaning(pen, view, slot);
    pen.close();
    pen.count_cell(Subject::Verdict(slot), n);
    pen.begin(Tag::Td, "wide");
    bar(pen, slot, n, view.intervals);
    pen.word(" ");
    percent(pen, n, view.intervals);
    pen.close();
    span(pen, view, slot);
    radio(pen, slot);
    pen.close();
    pen.line();
}

fn show_all(pen: &mut Pen) {
    pen.begin(Tag::Th, "hl");
    pen.word("Show ");
    pen.open(Tag::Label);
    pen.with(Attribute::Word(Key::Type, "radio"));
    pen.with(Attribute::Word(Key::Name, "s"));
    pen.with(Attribute::Word(Key::Id, "s-all"));
    pen.with(Attribute::Word(Key::Checked, ""));
    pen.leaf(Tag::Input);
    pen.word(" all");
    pen.close();
    pen.close();
}

fn heads(pen: &mut Pen) {
    pen.open(Tag::TableHead);
    pen.open(Tag::Tr);
    head_cell(pen, "", "Verdict");
    head_cell(pen, "", "What it says of each series of its interval");
    head_cell(pen, "n", "Intervals");
    head_cell(pen, "wide", "Share of intervals");
    head_cell(pen, "n", "Span of references");
    show_all(pen);
    pen.close();
    pen.close();
}

/// The key.
pub(crate) fn key(pen: &mut Pen, view: &View<'_>) {
    open_section(pen, "why", "Why a series is in the answer, or not");
    pen.begin(Tag::Div, "scroll");
    pen.begin(Tag::Table, "key");
    heads(pen);
    pen.open(Tag::TableBody);
    pen.line();
    for slot in 0..SLOTS {
        let n = view.count(slot);
        let there = slot == MATCH || slot == NONE || slot <= view.matchers().len();
        if there || n > 0 {
            row(pen, view, slot, n);
        }
    }
    pen.close();
    pen.close();
    pen.close();
    let note = "A span counts reference numbers, not series: numbers in between may be unused.";
    classed(pen, Tag::P, "note", note);
    pen.close();
    pen.line();
}
