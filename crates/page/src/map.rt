//! The map of a part: its references to scale, and the lines from it to the boxes.

use crate::pen::Pen;
use crate::shapes::{Area, class_line, line, open_text, rect};
use crate::strip::{Strip, WIDE_COLUMNS};
use crate::verdicts::{MATCH, fill};
use cover::Interval;
use page_claims::{SLOTS, slot_of};
use page_layout::{edge, share};
use page_marks::FULL;
use page_text::{Attribute, Key, Tag};
use std::alloc::{AllocError, Global};

/// How many columns a map has.
const COLUMNS: u64 = 480;

/// Where its open end begins, which is not to scale.
const CLOSED: u64 = 9400;

/// What meets a column of a map: a match, and the first other verdict.
#[derive(Clone, Copy)]
struct Spot {
    has_match: bool,
    other: Option<usize>,
}

/// The references of a map: from the first interval to the last.
#[derive(Clone, Copy)]
struct Scale {
    from: u64,
    span: u64,
    closed: u64,
}

fn scale_of(intervals: &[Interval]) -> Option<Scale> {
    let from = u64::from(intervals.first()?.from.number());
    let last = u64::from(intervals.last()?.from.number());
    let span = last.saturating_sub(from);
    Some(Scale {
        from,
        span,
        closed: if span > 0 { CLOSED } else { 0 },
    })
}

impl Scale {
    fn place(self, reference: u64) -> u64 {
        share(reference.saturating_sub(self.from), self.span, self.closed)
    }
}

fn meet(spots: &mut Vec<Spot>, scale: Scale, interval: &Interval) {
    if scale.span == 0 {
        return;
    }
    let from = u64::from(interval.from.number()).saturating_sub(scale.from);
    let until = interval.until.saturating_sub(scale.from);
    let first = share(from, scale.span, COLUMNS);
    let last = until.saturating_mul(COLUMNS).saturating_sub(1) / scale.span;
    let its = slot_of(interval.verdict);
    for at in first..last.min(COLUMNS - 1).saturating_add(1) {
        if let Some(spot) = spots.get_mut(at as usize) {
            if its == MATCH {
                spot.has_match = true;
            } else if spot.other.is_none() {
                spot.other = Some(its);
            }
        }
    }
}

fn spots_of(alloc: Global, scale: Scale, intervals: &[Interval]) -> Result<Vec<Spot>, AllocError> {
    let empty = Spot {
        has_match: false,
        other: None,
    };
    let mut spots = vec![in alloc; empty; COLUMNS as usize]?;
    if let Some((_, earlier)) = intervals.split_last() {
        for interval in earlier {
            meet(&mut spots, scale, interval);
        }
    }
    Ok(spots)
}

/// What fills a column: the first other verdict, or match; `SLOTS` if nothing does.
fn whole_of(spot: &Spot) -> usize {
    match spot.other {
        Some(other) => other,
        None => if spot.has_match { MATCH } else { SLOTS },
    }
}

/// What fills the upper half of a column: a match that another verdict hides.
fn half_of(spot: &Spot) -> usize {
    if spot.has_match && spot.other.is_some() {
        MATCH
    } else {
        SLOTS
    }
}

fn run(pen: &mut Pen, scale: Scale, its: usize, columns: (u64, u64), height: u64) {
    if its >= SLOTS {
        return;
    }
    let x = share(columns.0, COLUMNS, scale.closed);
    let end = share(columns.1, COLUMNS, scale.closed);
    let area = Area {
        x,
        y: 17,
        width: end.saturating_sub(x),
        height,
    };
    rect(pen, fill(its), area);
}

/// Equal neighbours as one rectangle.
fn runs(pen: &mut Pen, scale: Scale, spots: &[Spot], halves: bool) {
    let height = if halves { 7 } else { 13 };
    let (mut its, mut start) = (SLOTS, 0u64);
    for (at, spot) in spots.iter().enumerate() {
        let next = if halves {
            half_of(spot)
        } else {
            whole_of(spot)
        };
        if next != its {
            run(pen, scale, its, (start, at as u64), height);
            its = next;
            start = at as u64;
        }
    }
    run(pen, scale, its, (start, spots.len() as u64), height);
}

/// What stands above a map.
fn captions(pen: &mut Pen, scale: Scale) {
    open_text(pen, Attribute::Word(Key::Class, "cap"), 0, 11, "start");
    if scale.closed > 0 {
        pen.word("to scale: references ");
        pen.number(scale.from);
        pen.word(" to ");
        pen.number(scale.from.saturating_add(scale.span));
        pen.word(", then the open end");
    } else {
        pen.word("references: one interval");
    }
    pen.close();
    open_text(
        pen,
        Attribute::Word(Key::Class, "cap"),
        FULL as u64,
        11,
        "end",
    );
    pen.word("below: a box for each interval");
    pen.close();
}

/// The part of a map from a place to another.
fn band(x: u64, end: u64) -> Area {
    Area {
        x,
        y: 17,
        width: end.saturating_sub(x),
        height: 13,
    }
}

fn map_strip(pen: &mut Pen, strip: &Strip<'_>, scale: Scale) {
    captions(pen, scale);
    pen.begin(Tag::G, "map");
    rect(
        pen,
        Attribute::Word(Key::Class, "hole"),
        band(0, FULL as u64),
    );
    let Ok(spots) = spots_of(pen.alloc(), scale, strip.intervals) else {
        return pen.fail();
    };
    runs(pen, scale, spots.as_slice(), false);
    runs(pen, scale, spots.as_slice(), true);
    if let Some(last) = strip.intervals.last() {
        let open = band(scale.closed, FULL as u64);
        rect(pen, fill(slot_of(last.verdict)), open);
    }
    if scale.closed > 0 {
        class_line(pen, "brk", (scale.closed, 14), (scale.closed, 33));
    }
    pen.close();
    pen.line();
}

/// The lines from the map to the boxes: to each if they are at most 64, else at both ends.
fn fan(pen: &mut Pen, strip: &Strip<'_>, scale: Scale) {
    pen.begin(
        Tag::G,
        if strip.columns <= WIDE_COLUMNS {
            "fan"
        } else {
            "fan fine"
        },
    );
    for (at, interval) in strip.intervals.iter().enumerate() {
        if at < strip.columns && (at == 0 || strip.columns <= 64) {
            let from = scale.place(u64::from(interval.from.number()));
            let to = edge(at, strip.columns, FULL) as u64;
            line(pen, (from, 30), (to, strip.top));
        }
    }
    line(pen, (FULL as u64, 30), (FULL as u64, strip.top));
    pen.close();
    pen.line();
}

/// The map and its lines.
pub(crate) fn draw_map(pen: &mut Pen, strip: &Strip<'_>) {
    let Some(scale) = scale_of(strip.intervals) else {
        return;
    };
    map_strip(pen, strip, scale);
    fan(pen, strip, scale);
}
