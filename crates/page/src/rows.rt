//! The rows of the answer.

use crate::header::part_name;
use crate::pen::Pen;
use crate::scale::Scale;
use crate::shown::{View, samples_in};
use crate::spark::spark;
use crate::time::axis_text;
use crate::verdicts::series;
use crate::words::{head_cell, open_head, open_section, plural_of, word};
use labels::{LabelSet, Row};
use page_claims::{row_with, shown_of};
use page_marks::{MOST_ROWS, figures_of};
use page_text::{Subject, Tag, Values};
use postings::PartName;

/// Most parts of a row that are named.
const MOST_PARTS: u64 = 6;

/// The name of a part; behind another name, of a block its number alone.
fn later_name(pen: &mut Pen, name: PartName, later: bool) {
    match name {
        PartName::Block(number) if later => pen.number(number as u64),
        _ => part_name(pen, name),
    }
}

/// The parts that list a row.
fn parts(pen: &mut Pen, view: &View<'_>, labels: &LabelSet) {
    let mut named = 0u64;
    pen.labelled("pt", "parts");
    for answer in view.shown.told.answers.as_slice() {
        if row_with(answer.rows.as_slice(), labels).is_some() {
            if named > 0 && named < MOST_PARTS {
                pen.word(", ");
            }
            if named < MOST_PARTS {
                later_name(pen, answer.part, named > 0);
            }
            named = named.saturating_add(1);
        }
    }
    if named > MOST_PARTS {
        pen.word(" +");
        pen.counted(named.saturating_sub(MOST_PARTS));
    }
    pen.close();
}

fn row(pen: &mut Pen, view: &View<'_>, at: usize, row: &Row) {
    pen.open(Tag::Tr);
    open_head(pen, "row", "n");
    pen.count(Subject::Place, (at as u64).saturating_add(1));
    pen.close();
    pen.begin(Tag::Td, "s");
    series(pen, row.labels());
    pen.close();
    pen.begin(Tag::Td, "sp");
    let values = view.shown.values;
    let figures = figures_of(values, row.samples());
    if let (Some(axis), Some(figures)) = (view.axis, figures) {
        spark(pen, axis, row.samples(), Scale::new(values, figures));
    }
    pen.close();
    pen.labelled("n", "samples");
    pen.count(Subject::Samples, row.samples().len() as u64);
    pen.close();
    if let Some(figures) = figures {
        pen.value("first", values.of(figures.first));
        pen.value("last", values.of(figures.last));
        pen.value("least", values.of(figures.least));
        pen.value("greatest", values.of(figures.greatest));
    }
    parts(pen, view, row.labels());
    pen.close();
    pen.line();
}

fn heads(pen: &mut Pen, view: &View<'_>) {
    pen.open(Tag::TableHead);
    pen.open(Tag::Tr);
    head_cell(pen, "n", "No.");
    head_cell(pen, "", "Series");
    pen.begin(Tag::Th, "sp");
    if let Some(axis) = view.axis {
        axis_text(pen, axis, false);
    }
    pen.close();
    head_cell(pen, "n", "Samples");
    head_cell(pen, "n", "First");
    head_cell(pen, "n", "Last");
    head_cell(pen, "n", "Least");
    head_cell(pen, "n", "Greatest");
    head_cell(pen, "", "Parts");
    pen.close();
    pen.close();
}

fn left_out(pen: &mut Pen, rest: &[Row]) {
    if rest.is_empty() {
        return;
    }
    pen.begin(Tag::P, "left");
    let (one, many) = (" more series is", " more series are");
    plural_of(pen, Subject::Rows, rest.len() as u64, one, many);
    pen.word(" left out of this table, with ");
    let samples = samples_in(rest);
    plural_of(pen, Subject::Samples, samples, " sample.", " samples.");
    pen.close();
    pen.line();
}

const NOTE: &str =
    "Rows stand in the order of their labels. First and last are values in the order of time; \
     least and greatest are over all samples of the row. A sparkline goes from its own least to \
     its own greatest value and over the time above; two samples are joined if they are at most \
     three times the row’s mean step apart.";

const NOTE_OF_DOUBLES: &str =
    " The values are doubles, written as Prometheus prints them; a NaN is neither least nor greatest \
     beside a number, and a sparkline has none.";

/// What is said below the table.
fn note(pen: &mut Pen, values: Values) {
    pen.begin(Tag::P, "note");
    pen.word(NOTE);
    if values == Values::Doubles {
        pen.word(NOTE_OF_DOUBLES);
    }
    pen.close();
}

/// The section of the rows.
pub(crate) fn rows(pen: &mut Pen, view: &View<'_>) {
    let all = view.shown.told.rows.as_slice();
    let (shown, rest) = shown_of(all, MOST_ROWS);
    open_section(pen, "rows", "The rows of the answer");
    if shown.is_empty() {
        word(pen, Tag::P, "No series answers.");
        pen.close();
        pen.line();
        return;
    }
    pen.begin(Tag::Table, "rows");
    heads(pen, view);
    pen.open(Tag::TableBody);
    pen.line();
    for (at, one) in shown.iter().enumerate() {
        row(pen, view, at, one);
    }
    pen.close();
    pen.close();
    pen.line();
    left_out(pen, rest);
    note(pen, view.shown.values);
    pen.close();
    pen.line();
}
