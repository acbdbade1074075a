//! Sparklines.

use crate::pen::Pen;
use crate::scale::Scale;
use crate::time::column_of;
use labels::Sample;
use page_text::{Attribute, Key, Move, Tag};
use std::alloc::{AllocError, Global};

/// How many columns a sparkline has.
const COLUMNS: u64 = 180;

/// What a column of a sparkline shows of its samples.
#[derive(Clone, Copy)]
struct Bar {
    column: u64,
    highest: u64,
    lowest: u64,
    first: u64,
    last: u64,
    from: i64,
    to: i64,
}

impl Bar {
    /// The bar of one sample, which stands at `y`.
    fn new(column: u64, y: u64, t: i64) -> Bar {
        Bar {
            column,
            highest: y,
            lowest: y,
            first: y,
            last: y,
            from: t,
            to: t,
        }
    }

    /// Adds a later sample.
    fn add(&mut self, y: u64, t: i64) {
        self.highest = self.highest.min(y);
        self.lowest = self.lowest.max(y);
        self.last = y;
        self.to = t;
    }
}

fn bars_of(
    alloc: Global,
    axis: (i64, i64),
    samples: &[Sample],
    scale: Scale,
) -> Result<Vec<Bar>, AllocError> {
    let mut bars: Vec<Bar> = Vec::new(alloc);
    for sample in samples {
        let Some(column) = column_of(axis, sample.t(), COLUMNS) else {
            continue;
        };
        let Some(y) = scale.height_of(sample.v()) else {
            continue;
        };
        match bars.last_mut() {
            Some(bar) if bar.column == column => bar.add(y, sample.t()),
            _ => bars.push(Bar::new(column, y, sample.t()))?,
        }
    }
    Ok(bars)
}

/// Whether two neighbours are joined: they are at most three mean steps apart.
fn are_joined(before: &Bar, after: &Bar, samples: &[Sample]) -> bool {
    let (Some(first), Some(last)) = (samples.first(), samples.last()) else {
        return false;
    };
    let span = last.t().abs_diff(first.t());
    let steps = (samples.len() as u64).saturating_sub(1).max(1);
    let gap = after.from.abs_diff(before.to);
    gap <= span.saturating_mul(3) / steps
}

fn lines_of(alloc: Global, bars: &[Bar], samples: &[Sample]) -> Result<Vec<Move>, AllocError> {
    let mut moves = Vec::new(alloc);
    let mut before: Option<&Bar> = None;
    for bar in bars {
        let joined = match before {
            Some(earlier) => are_joined(earlier, bar, samples),
            None => false,
        };
        if joined {
            moves.push(Move::Line(bar.column, bar.first))?;
        } else {
            moves.push(Move::To(bar.column, bar.first))?;
        }
        if bar.highest < bar.lowest {
            moves.push(Move::Down(bar.highest))?;
            moves.push(Move::Down(bar.lowest))?;
            moves.push(Move::Down(bar.last))?;
        }
        before = Some(bar);
    }
    Ok(moves)
}

/// Whether a bar stands alone: it is joined to no neighbour.
fn is_alone(bars: &[Bar], at: usize, samples: &[Sample]) -> bool {
    let Some(bar) = bars.get(at) else {
        return false;
    };
    let before = match bars.get(at.wrapping_sub(1)) {
        Some(earlier) => at > 0 && are_joined(earlier, bar, samples),
        None => false,
    };
    let after = match bars.get(at.saturating_add(1)) {
        Some(later) => are_joined(bar, later, samples),
        None => false,
    };
    !before && !after && bar.highest == bar.lowest
}

/// A dot for each bar that is joined to none, and for each if there are few.
fn dots_of(alloc: Global, bars: &[Bar], samples: &[Sample]) -> Result<Vec<Move>, AllocError> {
    let mut moves = Vec::new(alloc);
    for at in 0..bars.len() {
        if bars.len() <= 12 || is_alone(bars, at, samples) {
            moves.push(Move::To(bars[at].column, bars[at].last))?;
            moves.push(Move::Dot)?;
        }
    }
    Ok(moves)
}

fn path(pen: &mut Pen, class: &'static str, moves: Result<Vec<Move>, AllocError>) {
    let Ok(moves) = moves else {
        return pen.fail();
    };
    if moves.is_empty() {
        return;
    }
    pen.with(Attribute::Word(Key::Class, class));
    pen.with(Attribute::Path(moves));
    pen.leaf(Tag::Path);
}

/// The samples of a row over an axis, from its own least value to its own greatest.
pub(crate) fn spark(pen: &mut Pen, axis: (i64, i64), samples: &[Sample], scale: Scale) {
    let alloc = pen.alloc();
    let Ok(bars) = bars_of(alloc, axis, samples, scale) else {
        return pen.fail();
    };
    pen.with(Attribute::Number(Key::Width, 180));
    pen.with(Attribute::Number(Key::Height, 32));
    pen.with(Attribute::Word(Key::ViewBox, "-2 -2 184 32"));
    pen.with(Attribute::Word(Key::PreserveAspectRatio, "none"));
    pen.with(Attribute::Word(Key::AriaHidden, "true"));
    pen.open(Tag::Svg);
    path(pen, "ln", lines_of(alloc, bars.as_slice(), samples));
    path(pen, "dt", dots_of(alloc, bars.as_slice(), samples));
    pen.close();
}
