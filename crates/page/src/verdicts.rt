//! Verdicts: their classes, chips and words.

use crate::pen::Pen;
use crate::shapes::open_small;
use crate::words::{left_box, name, quoted};
use cover::Verdict;
use labels::LabelSet;
use matchers::{Matcher, Op};
use page_text::{Attribute, Key, Tag};

/// The slot of a match.
pub(crate) const MATCH: usize = 0;

/// The slot of verdicts that name a matcher that is not there.
pub(crate) const UNKNOWN: usize = 17;

/// The slot of no sample.
pub(crate) const NONE: usize = 18;

/// The class of what is filled for a slot, in a figure.
pub(crate) fn fill(slot: usize) -> Attribute {
    match slot {
        MATCH => Attribute::Word(Key::Class, "c vm"),
        NONE => Attribute::Word(Key::Class, "c vn"),
        UNKNOWN => Attribute::Word(Key::Class, "c gap"),
        _ => Attribute::Named(Key::Class, "c v", slot.saturating_sub(1) as u64),
    }
}

/// The class of what is filled for a slot, in a table.
pub(crate) fn plain_fill(slot: usize) -> Attribute {
    match slot {
        MATCH => Attribute::Word(Key::Class, "vm"),
        NONE => Attribute::Word(Key::Class, "vn"),
        UNKNOWN => Attribute::Word(Key::Class, "gap"),
        _ => Attribute::Named(Key::Class, "v", slot.saturating_sub(1) as u64),
    }
}

/// The class of a slot's letter.
pub(crate) fn letter_class(slot: usize) -> Attribute {
    match slot {
        MATCH => Attribute::Word(Key::Class, "l wm"),
        NONE => Attribute::Word(Key::Class, "l wn"),
        UNKNOWN => Attribute::Word(Key::Class, "l no"),
        _ => Attribute::Named(Key::Class, "l w", slot.saturating_sub(1) as u64),
    }
}

/// The class of a slot's letter that is seen on wide screens alone.
pub(crate) fn wide_letter_class(slot: usize) -> Attribute {
    match slot {
        MATCH => Attribute::Word(Key::Class, "l lw wm"),
        NONE => Attribute::Word(Key::Class, "l lw wn"),
        UNKNOWN => Attribute::Word(Key::Class, "l lw no"),
        _ => Attribute::Named(Key::Class, "l lw w", slot.saturating_sub(1) as u64),
    }
}

/// The class of the row of an interval.
pub(crate) fn row_class(slot: usize) -> Attribute {
    match slot {
        MATCH => Attribute::Word(Key::Class, "i r-vm"),
        NONE => Attribute::Word(Key::Class, "i r-vn"),
        UNKNOWN => Attribute::Word(Key::Class, "i no"),
        _ => Attribute::Named(Key::Class, "i r-v", slot.saturating_sub(1) as u64),
    }
}

/// The letter of a slot.
pub(crate) fn letter(pen: &mut Pen, slot: usize) {
    match slot {
        MATCH => pen.word("✓"),
        NONE => pen.word("∅"),
        UNKNOWN => pen.word("?"),
        _ => pen.number(slot.saturating_sub(1) as u64),
    }
}

/// A box with the fill and the letter of a slot.
pub(crate) fn chip(pen: &mut Pen, slot: usize) {
    open_small(pen, "chip", 22, 18);
    pen.with(plain_fill(slot));
    pen.with(Attribute::Number(Key::Width, 22));
    pen.with(Attribute::Number(Key::Height, 18));
    pen.with(Attribute::Number(Key::Rx, 2));
    pen.leaf(Tag::Rect);
    pen.with(letter_class(slot));
    pen.with(Attribute::Number(Key::X, 11));
    pen.with(Attribute::Word(Key::Y, "13.5"));
    pen.with(Attribute::Word(Key::TextAnchor, "middle"));
    pen.open(Tag::Text);
    letter(pen, slot);
    pen.close();
    pen.close();
}

/// What a slot says, in a few words.
pub(crate) fn said(pen: &mut Pen, slot: usize) {
    match slot {
        MATCH => pen.word("match"),
        NONE => pen.word("no sample in the range"),
        UNKNOWN => pen.word("rejected by a matcher that is not there"),
        _ => {
            pen.word("rejected by ");
            pen.number(slot.saturating_sub(1) as u64)
        }
    }
}

/// The name of a slot.
pub(crate) fn slot_name(pen: &mut Pen, slot: usize) {
    match slot {
        MATCH => pen.word("match"),
        NONE => pen.word("none"),
        UNKNOWN => pen.word("no such matcher"),
        _ => {
            pen.word("matcher ");
            pen.number(slot.saturating_sub(1) as u64)
        }
    }
}

/// An operator, as selectors write it.
pub(crate) fn op_text(op: Op) -> &'static str {
    match op {
        Op::Equal => "=",
        Op::NotEqual => "!=",
        Op::Like => "=~",
        Op::NotLike => "!~",
    }
}

/// A matcher, as selectors write it.
pub(crate) fn matcher(pen: &mut Pen, matcher: &Matcher) {
    pen.open(Tag::Code);
    name(pen, matcher.name());
    pen.word(op_text(matcher.op()));
    quoted(pen, matcher.text());
    pen.close();
}

/// Why the series of an interval are no rows, or the row.
pub(crate) fn why(pen: &mut Pen, verdict: Verdict, matchers: &[Matcher]) {
    match verdict {
        Verdict::Match => pen.word("is a row of the answer"),
        Verdict::NoSample => pen.word("no sample in the range"),
        Verdict::Rejected(at) => match matchers.get(at) {
            Some(failed) => {
                pen.word("fails ");
                matcher(pen, failed)
            }
            None => pen.word("no such matcher"),
        },
    }
}

/// Most labels of a series that are shown, besides its name.
const MOST_LABELS: usize = 16;

fn is_first(c: char) -> bool {
    c.is_ascii_alphabetic() || c == '_' || c == ':'
}

/// Whether the name of a metric can stand before the braces.
fn is_plain_name(text: &str) -> bool {
    if text.is_empty() || text.len() > 120 {
        return false;
    }
    let mut first = true;
    for c in text.chars() {
        if !is_first(c) && (first || !c.is_ascii_digit()) {
            return false;
        }
        first = false;
    }
    true
}

fn pair(pen: &mut Pen, label: &str, value: &str, last: bool) {
    pen.begin(Tag::Span, "lb");
    name(pen, label);
    pen.word("=");
    pen.begin(Tag::Span, "v");
    quoted(pen, value);
    pen.close();
    if !last {
        pen.word(",");
    }
    pen.close();
}

fn pairs(pen: &mut Pen, labels: &LabelSet, named: bool) {
    let all = if named {
        labels.len().saturating_sub(1)
    } else {
        labels.len()
    };
    let most = all.min(MOST_LABELS);
    let mut shown = 0usize;
    pen.word("{");
    for at in 0..labels.len() {
        let (label, value) = labels.pair(at);
        if shown < most && !(named && label == "__name__") {
            if shown > 0 {
                pen.leaf(Tag::Wbr);
            }
            shown += 1;
            pair(pen, label, value, shown == most);
        }
    }
    left_box(pen, all.saturating_sub(most) as u64, " label", " labels");
    pen.word("}");
}

/// A series, as selectors write it.
pub(crate) fn series(pen: &mut Pen, labels: &LabelSet) {
    let metric = labels.value("__name__");
    let named = is_plain_name(metric);
    pen.begin(Tag::Code, "lbs");
    if named {
        pen.open(Tag::B);
        name(pen, metric);
        pen.close();
    }
    if !named || labels.len() > 1 {
        pairs(pen, labels, named);
    }
    pen.close();
}
