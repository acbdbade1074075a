//! Which part has samples of the answer, and when.

use crate::header::part_link;
use crate::pen::Pen;
use crate::shapes::{class_line, open_text, open_wide};
use crate::shown::{View, samples_in, times_of};
use crate::times::{civil_of, ends, tick, when};
use crate::words::{classed, head_cell, open_section, plural, word};
use cover::PartAnswer;
use labels::{Row, Sample};
use page_claims::Place;
use page_layout::share;
use page_text::{Attribute, Key, Move, Subject, Tag};
use postings::PartName;
use std::alloc::{AllocError, Global};

/// How many columns the figures of parts have.
const COLUMNS: u64 = 120;

/// The column of a time, of so many over an axis.
pub(crate) fn column_of(axis: (i64, i64), t: i64, columns: u64) -> Option<u64> {
    let (from, to) = axis;
    if t < from || to < t {
        return None;
    }
    let column = share(
        t.abs_diff(from),
        to.abs_diff(from).saturating_add(1),
        columns,
    );
    if column < columns { Some(column) } else { None }
}

/// Counts a row in each column in which it has a sample.
fn count_row(columns: &mut Vec<u64>, axis: (i64, i64), samples: &[Sample]) {
    let mut last = None;
    for sample in samples {
        let column = column_of(axis, sample.t(), COLUMNS);
        if column == last {
            continue;
        }
        last = column;
        if let Some(at) = column {
            if let Some(count) = columns.get_mut(at as usize) {
                *count = count.saturating_add(1);
            }
        }
    }
}

/// How many rows have a sample in each column.
fn columns_of(alloc: Global, axis: (i64, i64), rows: &[Row]) -> Result<Vec<u64>, AllocError> {
    let mut columns = vec![in alloc; 0u64; COLUMNS as usize]?;
    for row in rows {
        count_row(&mut columns, axis, row.samples());
    }
    Ok(columns)
}

fn most_of(columns: &[u64], most: u64) -> u64 {
    let mut greatest = most;
    for count in columns {
        greatest = greatest.max(*count);
    }
    greatest
}

/// The greatest number of rows in a column of a part or of the answer; 0 if there is no time.
fn most_rows(view: &View<'_>) -> Result<u64, AllocError> {
    let Some(axis) = view.axis else {
        return Ok(0);
    };
    let rows = view.shown.told.rows.as_slice();
    let mut most = most_of(columns_of(view.alloc, axis, rows)?.as_slice(), 0);
    for answer in view.shown.told.answers.as_slice() {
        let columns = columns_of(view.alloc, axis, answer.rows.as_slice())?;
        most = most_of(columns.as_slice(), most);
    }
    Ok(most)
}

/// Steps between the ticks of an axis in UTC, in milliseconds.
const STEPS: [u64; 22] = [
    1000,
    2000,
    5000,
    10_000,
    15_000,
    30_000,
    60_000,
    120_000,
    300_000,
    600_000,
    900_000,
    1_800_000,
    3_600_000,
    7_200_000,
    10_800_000,
    21_600_000,
    43_200_000,
    86_400_000,
    172_800_000,
    432_000_000,
    864_000_000,
    8_640_000_000,
];

/// How far apart ticks are: the least step that fits at most five times.
fn step_of(axis: (i64, i64)) -> u64 {
    let span = axis.1.abs_diff(axis.0);
    if civil_of(axis.0).is_some() && civil_of(axis.1).is_some() {
        for step in STEPS {
            if span / step <= 5 {
                return step;
            }
        }
        return 864_000_000_000;
    }
    let mut step = 1u64;
    for _ in 0..18 {
        for times in [1u64, 2, 5] {
            let longer = step.saturating_mul(times).max(1);
            if span / longer <= 5 {
                return longer;
            }
        }
        step = step.saturating_mul(10);
    }
    u64::MAX
}

/// The ticks of an axis, from its first.
fn ticks_of(alloc: Global, axis: (i64, i64)) -> Result<Vec<i64>, AllocError> {
    let mut ticks = Vec::new(alloc);
    let step = i64::try_from(step_of(axis)).unwrap_or(i64::MAX).max(1);
    let rest = axis.0.rem_euclid(step);
    let mut t = if rest == 0 {
        axis.0
    } else {
        axis.0.saturating_add(step.saturating_sub(rest))
    };
    for _ in 0..7 {
        if t > axis.1 {
            return Ok(ticks);
        }
        ticks.push(t)?;
        t = t.saturating_add(step);
    }
    Ok(ticks)
}

fn place_of(axis: (i64, i64), t: i64) -> u64 {
    share(t.abs_diff(axis.0), axis.1.abs_diff(axis.0), 10_000)
}

/// The numbers of an axis: of all its ticks, or of the first and the last.
pub(crate) fn axis_text(pen: &mut Pen, axis: (i64, i64), all: bool) {
    let alloc = pen.alloc();
    let Ok(ticks) = ticks_of(alloc, axis) else {
        return pen.fail();
    };
    let step = step_of(axis);
    pen.with(Attribute::Word(Key::Width, "100%"));
    pen.with(Attribute::Number(Key::Height, 16));
    pen.with(Attribute::Word(Key::AriaHidden, "true"));
    pen.with(Attribute::Word(Key::Class, "ax"));
    pen.open(Tag::Svg);
    for (at, t) in ticks.iter().enumerate() {
        if all || at == 0 || at.saturating_add(1) == ticks.len() {
            let x = place_of(axis, *t);
            let anchor = if x < 300 {
                "start"
            } else if x > 9700 {
                "end"
            } else {
                "middle"
            };
            open_text(pen, Attribute::Word(Key::Class, "at"), x, 12, anchor);
            tick(pen, *t, step);
            pen.close();
        }
    }
    pen.close();
}

/// How high a bar of so many rows is, rounded up, where the most has 22 units.
fn height_of(count: u64, most: u64) -> u64 {
    let height = share(count, most, 22);
    if share(height, 22, most) < count {
        height.saturating_add(1).min(22)
    } else {
        height
    }
}

/// Draws one bar over columns of equally many rows.
fn push_bar(
    moves: &mut Vec<Move>,
    columns: (u64, u64),
    count: u64,
    most: u64,
) -> Result<(), AllocError> {
    if count == 0 {
        return Ok(());
    }
    moves.push(Move::To(columns.0, 22u64.saturating_sub(height_of(count, most))))?;
    moves.push(Move::Across(columns.1))?;
    moves.push(Move::Down(22))?;
    moves.push(Move::Across(columns.0))?;
    Ok(moves.push(Move::Back)?)
}

/// The moves that draw bars of columns, equal neighbours as one.
fn moves_of(alloc: Global, columns: &[u64], most: u64) -> Result<Vec<Move>, AllocError> {
    let mut moves = Vec::new(alloc);
    let (mut begun, mut held, mut at) = (0u64, 0u64, 0u64);
    for count in columns {
        if *count != held {
            push_bar(&mut moves, (begun, at), held, most)?;
            begun = at;
            held = *count;
        }
        at = at.saturating_add(1);
    }
    push_bar(&mut moves, (begun, at), held, most)?;
    Ok(moves)
}

/// The ticks of an axis behind bars, and the line that these stand on.
fn grid(pen: &mut Pen, axis: (i64, i64)) {
    let Ok(ticks) = ticks_of(pen.alloc(), axis) else {
        return pen.fail();
    };
    for t in ticks.as_slice() {
        let x = place_of(axis, *t);
        class_line(pen, "grid", (x, 0), (x, 30));
    }
    class_line(pen, "base", (0, 26), (10_000, 26));
}

fn bar_path(pen: &mut Pen, columns: &[u64], most: u64) {
    let Ok(moves) = moves_of(pen.alloc(), columns, most) else {
        return pen.fail();
    };
    pen.with(Attribute::Number(Key::Y, 4));
    pen.with(Attribute::Word(Key::Width, "100%"));
    pen.with(Attribute::Number(Key::Height, 22));
    pen.with(Attribute::Word(Key::ViewBox, "0 0 120 22"));
    pen.with(Attribute::Word(Key::PreserveAspectRatio, "none"));
    pen.open(Tag::Svg);
    pen.with(Attribute::Word(Key::Class, "bars"));
    pen.with(Attribute::Path(moves));
    pen.leaf(Tag::Path);
    pen.close();
}

fn bars(pen: &mut Pen, axis: (i64, i64), rows: &[Row], most: u64) {
    let Ok(columns) = columns_of(pen.alloc(), axis, rows) else {
        return pen.fail();
    };
    open_wide(pen, 30);
    grid(pen, axis);
    bar_path(pen, columns.as_slice(), most);
    pen.close();
}

fn cells(pen: &mut Pen, view: &View<'_>, rows: &[Row], intervals: u64, most: u64) {
    pen.begin(Tag::Td, "when");
    if let Some(axis) = view.axis {
        bars(pen, axis, rows, most);
    }
    pen.close();
    pen.begin(Tag::Td, "n iw");
    pen.count(Subject::Intervals, intervals);
    pen.close();
    pen.count_cell(Subject::Rows, rows.len() as u64);
    pen.count_cell(Subject::Samples, samples_in(rows));
    pen.begin(Tag::Td, "fl");
    match times_of(rows) {
        Some((from, to)) => ends(pen, from, to),
        None => pen.word("no sample"),
    }
    pen.close();
    pen.close();
    pen.line();
}

fn open_row(pen: &mut Pen, class: &'static str) {
    pen.begin(Tag::Tr, class);
    pen.with(Attribute::Word(Key::Scope, "row"));
    pen.open(Tag::Th);
}

fn part_row(pen: &mut Pen, view: &View<'_>, at: usize, answer: &PartAnswer, most: u64) {
    open_row(pen, "searched");
    part_link(pen, at, answer.part);
    pen.close();
    let intervals = answer.cover.certificate.len() as u64;
    cells(pen, view, answer.rows.as_slice(), intervals, most);
}

fn skipped_row(pen: &mut Pen, view: &View<'_>, at: usize, number: usize) {
    open_row(pen, "unsearched");
    part_link(pen, at, PartName::Block(number));
    pen.close();
    pen.begin(Tag::Td, "when");
    open_wide(pen, 30);
    pen.with(Attribute::Word(Key::Class, "skipped"));
    pen.with(Attribute::Number(Key::X, 0));
    pen.with(Attribute::Number(Key::Y, 3));
    pen.with(Attribute::Word(Key::Width, "100%"));
    pen.with(Attribute::Number(Key::Height, 24));
    pen.leaf(Tag::Rect);
    pen.close();
    pen.close();
    pen.with(Attribute::Word(Key::Class, "skipw"));
    pen.with(Attribute::Number(Key::Colspan, 4));
    pen.open(Tag::Td);
    pen.word(if view.is_silent(at, number) {
        "skipped: the query selects nothing of it"
    } else {
        "told to be skipped"
    });
    pen.close();
    pen.close();
    pen.line();
}

fn axis_note(pen: &mut Pen, view: &View<'_>, axis: (i64, i64), most: u64) {
    let (from, to) = (view.shown.query.from(), view.shown.query.to());
    pen.begin(Tag::P, "note");
    pen.word("All figures of time, here and in the rows, go from ");
    when(pen, axis.0);
    pen.word(" to ");
    when(pen, axis.1);
    pen.word(if axis.0 == from && axis.1 == to {
        ", the range of the query"
    } else {
        ", the first and the last sample, as the range of the query is much wider"
    });
    pen.word(
        ". The height over each of 120 equal times is the number of rows with a sample in it; full \
         height is ",
    );
    plural(pen, most, " row.", " rows.");
    pen.close();
    pen.line();
}

fn heads(pen: &mut Pen, view: &View<'_>) {
    pen.open(Tag::TableHead);
    pen.open(Tag::Tr);
    head_cell(pen, "", "Part");
    pen.begin(Tag::Th, "when");
    if let Some(axis) = view.axis {
        axis_text(pen, axis, true);
    }
    pen.close();
    head_cell(pen, "n iw", "Intervals");
    head_cell(pen, "n", "Rows");
    head_cell(pen, "n", "Samples");
    head_cell(pen, "fl", "First and last sample");
    pen.close();
    pen.close();
}

fn part_rows(pen: &mut Pen, view: &View<'_>, most: u64) {
    let mut answers = view.shown.told.answers.as_slice();
    for (at, place) in view.shown.told.places.iter().enumerate() {
        match *place {
            Place::Skipped(number) => skipped_row(pen, view, at, number),
            Place::Searched => {
                if let Some((answer, later)) = answers.split_first() {
                    answers = later;
                    part_row(pen, view, at, answer, most);
                }
            }
        }
    }
}

/// How many samples stand in more than one part.
fn twice(pen: &mut Pen, view: &View<'_>) {
    let mut listed = 0u64;
    for answer in view.shown.told.answers.as_slice() {
        listed = listed.saturating_add(samples_in(answer.rows.as_slice()));
    }
    let more = listed.saturating_sub(view.samples);
    if more == 0 {
        return;
    }
    pen.begin(Tag::P, "note");
    pen.word("The parts list ");
    plural(pen, listed, " sample", " samples");
    pen.word(", the answer ");
    pen.counted(view.samples);
    pen.word(": ");
    plural(pen, more, " sample stands", " samples stand");
    pen.word(" in more than one part, and of these the later part’s counts.");
    pen.close();
    pen.line();
}

/// The section of times.
pub(crate) fn time(pen: &mut Pen, view: &View<'_>) {
    let rows = view.shown.told.rows.as_slice();
    let Ok(most) = most_rows(view) else {
        return pen.fail();
    };
    open_section(
        pen,
        "time",
        "Which part has samples of the answer, and when",
    );
    match view.axis {
        Some(axis) => axis_note(pen, view, axis, most),
        None => classed(pen, Tag::P, "note", "The answer has no sample."),
    }
    pen.begin(Tag::Table, "time");
    heads(pen, view);
    pen.open(Tag::TableBody);
    pen.line();
    part_rows(pen, view, most);
    open_row(pen, "sum");
    pen.word("answer");
    pen.close();
    cells(pen, view, rows, view.intervals, most);
    pen.close();
    pen.close();
    twice(pen, view);
    pen.close();
    pen.line();
}
