//! The strip of a part: a box for each interval, or a column for several.

ghost use Rattle.std.specs.Prelude.{◌<◌};

use crate::pen::Pen;
use crate::shapes::{Area, class_line, line, open_text, rect};
use crate::verdicts::{letter, letter_class, said, wide_letter_class};
use cover::Interval;
use labels::SeriesRef;
use page_claims::slot_of;
use page_layout::{edge, range_of, share};
use page_marks::{FULL, Frame, tallies_of, tiles_of};
use page_text::{Attribute, Key, Mark, Subject, Tag};
use std::alloc::{AllocError, Global};

/// The end of all references.
pub(crate) const END: u64 = 4_294_967_296;

/// Most columns of a strip that are wide.
pub(crate) const WIDE_COLUMNS: usize = 32;

/// A strip: its intervals, in how many columns, from where and how high.
#[derive(Drop)]
pub(crate) struct Strip<'a> {
    pub(crate) intervals: &'a [Interval],
    pub(crate) separators: &'a [SeriesRef],
    pub(crate) columns: usize,
    pub(crate) top: u64,
    pub(crate) height: u64,
}

/// Some intervals of a strip and where they stand.
#[derive(Clone, Copy)]
struct Column<'a> {
    at: usize,
    from: usize,
    intervals: &'a [Interval],
    // Where the next column's first interval begins.
    next: u64,
    x: u64,
    width: u64,
}

impl<'a> Strip<'a> {
    /// Whether a column has several intervals.
    pub(crate) fn is_aggregated(&self) -> bool {
        self.columns < self.intervals.len()
    }

    // Where the interval at a place begins, or the end of all references.
    fn from_at(&self, at: usize) -> u64 {
        match self.intervals.get(at) {
            Some(interval) => u64::from(interval.from.number()),
            None => END,
        }
    }

    fn column(&self, at: usize) -> Column<'a>
        requires { at < self.now.columns }
    {
        let (from, until) = range_of(at, self.columns, self.intervals.len());
        let (x, end) = range_of(at, self.columns, FULL);
        Column {
            at,
            from,
            intervals: &self.intervals[from..until],
            next: self.from_at(until),
            x: x as u64,
            width: (end - x) as u64,
        }
    }
}

/// How many intervals have each verdict, in words.
pub(crate) fn summary(pen: &mut Pen, intervals: &[Interval]) {
    let Ok(tallies) = tallies_of(pen.alloc(), intervals) else {
        return pen.fail();
    };
    let mut first = true;
    for tally in tallies.as_slice() {
        if let Mark::Count(Subject::Verdict(slot), _) = *tally {
            if !first {
                pen.word(", ");
            }
            first = false;
            pen.mark(*tally);
            pen.word(" ");
            said(pen, slot);
        }
    }
}

fn hover(pen: &mut Pen, column: &Column<'_>) {
    pen.open(Tag::Title);
    if let (Some(first), Some(last)) = (column.intervals.first(), column.intervals.last()) {
        if column.intervals.len() == 1 {
            pen.bounds(first.from, first.until);
            pen.word(" ");
            said(pen, slot_of(first.verdict));
        } else {
            pen.word("intervals ");
            pen.counted((column.from as u64).saturating_add(1));
            pen.word(" to ");
            pen.counted((column.from as u64).saturating_add(column.intervals.len() as u64));
            pen.word(", ");
            pen.bounds(first.from, last.until);
            pen.word(": ");
            summary(pen, column.intervals);
        }
    }
    pen.close();
}

/// Whether a hole or an overlap is in a column or behind it.
fn is_broken(column: &Column<'_>) -> bool {
    let mut before: Option<u64> = None;
    for interval in column.intervals {
        if let Some(until) = before {
            if until != u64::from(interval.from.number()) {
                return true;
            }
        }
        before = Some(interval.until);
    }
    match before {
        Some(until) => until != column.next,
        None => false,
    }
}

fn gap(pen: &mut Pen, strip: &Strip<'_>, column: &Column<'_>) {
    let (mut x, mut width) = (column.x, column.width);
    if let (Some(only), false) = (column.intervals.first(), strip.is_aggregated()) {
        if only.until >= column.next {
            return;
        }
        width = (column.width / 3).min(150);
        x = column.x.saturating_add(column.width.saturating_sub(width));
    }
    let area = Area {
        x,
        y: strip.top,
        width,
        height: strip.height,
    };
    rect(pen, Attribute::Word(Key::Class, "gap"), area);
}

fn middle(column: &Column<'_>) -> u64 {
    column.x.saturating_add(column.width / 2)
}

/// Whether the layers of a column of several intervals bear their letters, if they are high.
fn is_lettered(strip: &Strip<'_>, at: usize) -> bool {
    let every = strip.columns / 4;
    strip.is_aggregated() && every > 0 && at % every == strip.columns / 8
}

fn layer_letter(pen: &mut Pen, strip: &Strip<'_>, slot: usize, place: (u64, u64)) {
    let class = if strip.is_aggregated() || strip.columns <= WIDE_COLUMNS {
        letter_class(slot)
    } else {
        wide_letter_class(slot)
    };
    open_text(pen, class, place.0, place.1, "middle");
    letter(pen, slot);
    pen.close();
}

/// The letter of a box that holds one interval.
fn box_letter(pen: &mut Pen, strip: &Strip<'_>, column: &Column<'_>) {
    match column.intervals.first() {
        Some(only) if strip.columns <= 64 && !strip.is_aggregated() => {
            let y = strip.top.saturating_add(strip.height / 2).saturating_add(6);
            layer_letter(pen, strip, slot_of(only.verdict), (middle(column), y))
        }
        _ => {}
    }
}

/// The tiles of a column, from the bottom.
fn tiles_in(
    alloc: Global,
    strip: &Strip<'_>,
    column: &Column<'_>,
) -> Result<Vec<Mark>, AllocError> {
    let frame = Frame {
        x: column.x,
        width: column.width,
        foot: strip.top.saturating_add(strip.height),
        height: strip.height.min(1000),
    };
    tiles_of(alloc, column.intervals, frame)
}

fn tiles(pen: &mut Pen, strip: &Strip<'_>, column: &Column<'_>) {
    let Ok(tiles) = tiles_in(pen.alloc(), strip, column) else {
        return pen.fail();
    };
    for tile in tiles.as_slice() {
        pen.mark(*tile);
    }
}

/// The letters of the high tiles of a column of several intervals.
fn tile_letters(pen: &mut Pen, strip: &Strip<'_>, column: &Column<'_>) {
    let Ok(tiles) = tiles_in(pen.alloc(), strip, column) else {
        return pen.fail();
    };
    for tile in tiles.as_slice() {
        match *tile {
            Mark::Tile {
                slot,
                y,
                height,
                ..
            } if height >= 14 => {
                let y = y.saturating_add(height / 2).saturating_add(5);
                layer_letter(pen, strip, slot, (middle(column), y))
            }
            _ => {}
        }
    }
}

/// What stands over the columns of several intervals: letters, and a line at half the height.
fn over_columns(pen: &mut Pen, strip: &Strip<'_>) {
    if !strip.is_aggregated() {
        return;
    }
    for at in 0..strip.columns {
        if is_lettered(strip, at) {
            tile_letters(pen, strip, &strip.column(at));
        }
    }
    let y = strip.top.saturating_add(strip.height / 2);
    class_line(pen, "half", (0, y), (FULL as u64, y));
    pen.line();
}

fn draw(pen: &mut Pen, strip: &Strip<'_>, column: &Column<'_>) {
    pen.open(Tag::G);
    hover(pen, column);
    tiles(pen, strip, column);
    if is_broken(column) {
        gap(pen, strip, column);
    }
    box_letter(pen, strip, column);
    pen.close();
    pen.line();
}

fn cuts(pen: &mut Pen, strip: &Strip<'_>) {
    let wide = strip.columns <= WIDE_COLUMNS;
    pen.begin(Tag::G, if wide { "cut" } else { "cut fine" });
    for at in 1..strip.columns {
        let x = edge(at, strip.columns, FULL) as u64;
        line(
            pen,
            (x, strip.top),
            (x, strip.top.saturating_add(strip.height)),
        );
    }
    pen.close();
    pen.line();
}

/// A tick at a place below the strip: a triangle if columns are wide.
fn tick(pen: &mut Pen, strip: &Strip<'_>, x: u64) {
    let y = below(strip);
    if strip.columns <= WIDE_COLUMNS && !strip.is_aggregated() {
        pen.with(Attribute::Share(Key::X, x));
        pen.with(Attribute::Number(Key::Y, y));
        pen.with(Attribute::Number(Key::Width, 12));
        pen.with(Attribute::Number(Key::Height, 10));
        pen.with(Attribute::Word(Key::Overflow, "visible"));
        pen.open(Tag::Svg);
        pen.with(Attribute::Word(Key::D, "M0 0l5 9H-5z"));
        pen.leaf(Tag::Path);
        pen.close();
        return;
    }
    pen.with(Attribute::Share(Key::X, x));
    pen.with(Attribute::Number(Key::Y, y));
    pen.with(Attribute::Word(Key::Width, "1.5"));
    pen.with(Attribute::Number(Key::Height, 7));
    pen.leaf(Tag::Rect);
}

/// Where ticks stand.
fn below(strip: &Strip<'_>) -> u64 {
    strip.top.saturating_add(strip.height).saturating_add(2)
}

/// Most ticks of a box.
const MOST_TICKS: u64 = 4;

/// The ticks of the separators that lie in the interval of a box.
fn box_ticks(pen: &mut Pen, strip: &Strip<'_>, column: &Column<'_>) {
    let Some(only) = column.intervals.first() else {
        return;
    };
    let from = u64::from(only.from.number());
    let span = only.until.saturating_sub(from);
    let mut drawn = 0u64;
    for separator in strip.separators {
        let number = u64::from(separator.number());
        if from <= number && number < only.until && drawn < MOST_TICKS {
            drawn += 1;
            let across = share(number.saturating_sub(from), span, column.width);
            tick(pen, strip, column.x.saturating_add(across));
        }
    }
}

/// How many separators lie in a column's intervals.
fn separators_in(strip: &Strip<'_>, column: &Column<'_>) -> u64 {
    let (Some(first), Some(last)) = (column.intervals.first(), column.intervals.last()) else {
        return 0;
    };
    let mut count = 0u64;
    for separator in strip.separators {
        let number = u64::from(separator.number());
        if u64::from(first.from.number()) <= number && number < last.until {
            count = count.saturating_add(1);
        }
    }
    count
}

/// One tick where a column has as many separators as intervals, else a red bar.
fn column_tick(pen: &mut Pen, strip: &Strip<'_>, column: &Column<'_>) {
    if separators_in(strip, column) == column.intervals.len() as u64 {
        return tick(pen, strip, column.x);
    }
    let area = Area {
        x: column.x,
        y: below(strip),
        width: column.width,
        height: 7,
    };
    rect(pen, Attribute::Word(Key::Class, "gap"), area);
}

/// The ticks of the separators.
fn ticks(pen: &mut Pen, strip: &Strip<'_>) {
    pen.begin(
        Tag::G,
        if strip.is_aggregated() {
            "sep many"
        } else {
            "sep"
        },
    );
    for at in 0..strip.columns {
        let column = strip.column(at);
        if strip.is_aggregated() {
            column_tick(pen, strip, &column);
        } else {
            box_ticks(pen, strip, &column);
        }
    }
    pen.close();
    pen.line();
}

/// How many digits a number has.
fn digits(n: u64) -> u64 {
    let (mut rest, mut count) = (n, 0u64);
    for _ in 0..20 {
        rest /= 10;
        count = count.saturating_add(1);
        if rest == 0 {
            return count;
        }
    }
    count
}

/// Begins a number below a strip.
fn open_number(pen: &mut Pen, x: u64, y: u64, anchor: &'static str) {
    open_text(pen, Attribute::Word(Key::Class, "no-i"), x, y, anchor);
}

/// Where the last interval ends.
fn last_number(pen: &mut Pen, strip: &Strip<'_>, y: u64) {
    open_number(pen, FULL as u64, y, "end");
    match strip.intervals.last() {
        Some(last) if last.until != END => pen.number(last.until),
        _ => pen.word("end"),
    }
    pen.close();
}

/// Where columns begin, wherever there is room for the number.
fn numbers(pen: &mut Pen, strip: &Strip<'_>) {
    let y = strip.top.saturating_add(strip.height).saturating_add(26);
    let mut free = 0u64;
    pen.begin(Tag::G, "num");
    for at in 0..strip.columns {
        let column = strip.column(at);
        let Some(first) = column.intervals.first() else {
            continue;
        };
        let number = u64::from(first.from.number());
        let width = digits(number).saturating_mul(130).saturating_add(130);
        let half = if at == 0 { 0 } else { width / 2 };
        if column.x < free.saturating_add(half) || column.x.saturating_add(width / 2) > 9200 {
            continue;
        }
        let anchor = if at == 0 { "start" } else { "middle" };
        open_number(pen, column.x, y, anchor);
        pen.number(number);
        pen.close();
        free = column
            .x
            .saturating_add(width.saturating_sub(half))
            .saturating_add(60);
    }
    last_number(pen, strip, y);
    pen.close();
}

/// The boxes or columns of a strip, the lines between them, the ticks and the numbers.
pub(crate) fn draw_strip(pen: &mut Pen, strip: &Strip<'_>) {
    let area = Area {
        x: 0,
        y: strip.top,
        width: 10_000,
        height: strip.height,
    };
    rect(pen, Attribute::Word(Key::Class, "hole"), area);
    pen.line();
    for at in 0..strip.columns {
        draw(pen, strip, &strip.column(at));
    }
    over_columns(pen, strip);
    if strip.columns <= 120 {
        cuts(pen, strip);
    }
    ticks(pen, strip);
    numbers(pen, strip);
}

/// A caption of a figure.
pub(crate) fn caption(pen: &mut Pen, strip: &Strip<'_>) {
    open_text(pen, Attribute::Word(Key::Class, "cap"), 0, 11, "start");
    if strip.is_aggregated() && strip.columns > 0 {
        let each = strip.intervals.len() / strip.columns;
        pen.word("each column: ");
        pen.counted(each as u64);
        if strip.intervals.len() % strip.columns > 0 {
            pen.word(" or ");
            pen.counted((each as u64).saturating_add(1));
        }
        pen.word(" intervals, in order; heights: how many of each verdict");
    } else {
        pen.word("a box for each interval");
    }
    pen.close();
}
