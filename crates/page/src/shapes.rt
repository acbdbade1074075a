//! Shapes of figures: places across are hundredths of a percent.

use crate::pen::Pen;
use page_text::{Attribute, Key, Tag};

/// A rectangle: where it begins across and how wide it is, where it begins below and how high it
/// is.
#[derive(Clone, Copy)]
pub(crate) struct Area {
    pub(crate) x: u64,
    pub(crate) y: u64,
    pub(crate) width: u64,
    pub(crate) height: u64,
}

/// Begins a figure of a class, of this width and height, for eyes alone.
pub(crate) fn open_small(pen: &mut Pen, class: &'static str, width: u64, height: u64) {
    pen.with(Attribute::Word(Key::Class, class));
    pen.with(Attribute::Number(Key::Width, width));
    pen.with(Attribute::Number(Key::Height, height));
    pen.with(Attribute::Word(Key::AriaHidden, "true"));
    pen.open(Tag::Svg);
}

/// Begins a figure of this height that is as wide as there is room, for eyes alone.
pub(crate) fn open_wide(pen: &mut Pen, height: u64) {
    pen.with(Attribute::Word(Key::Width, "100%"));
    pen.with(Attribute::Number(Key::Height, height));
    pen.with(Attribute::Word(Key::AriaHidden, "true"));
    pen.open(Tag::Svg);
}

/// A rectangle with what fills it.
pub(crate) fn rect(pen: &mut Pen, fill: Attribute, area: Area) {
    pen.with(fill);
    pen.with(Attribute::Share(Key::X, area.x));
    pen.with(Attribute::Number(Key::Y, area.y));
    pen.with(Attribute::Share(Key::Width, area.width));
    pen.with(Attribute::Number(Key::Height, area.height));
    pen.leaf(Tag::Rect);
}

/// A line from one place to another.
pub(crate) fn line(pen: &mut Pen, from: (u64, u64), to: (u64, u64)) {
    pen.with(Attribute::Share(Key::X1, from.0));
    pen.with(Attribute::Number(Key::Y1, from.1));
    pen.with(Attribute::Share(Key::X2, to.0));
    pen.with(Attribute::Number(Key::Y2, to.1));
    pen.leaf(Tag::Line);
}

/// A line of a class from one place to another.
pub(crate) fn class_line(pen: &mut Pen, class: &'static str, from: (u64, u64), to: (u64, u64)) {
    pen.with(Attribute::Word(Key::Class, class));
    pen.with(Attribute::Share(Key::X1, from.0));
    pen.with(Attribute::Number(Key::Y1, from.1));
    pen.with(Attribute::Share(Key::X2, to.0));
    pen.with(Attribute::Number(Key::Y2, to.1));
    pen.leaf(Tag::Line);
}

/// Begins a text of a figure, of a class, at a place.
pub(crate) fn open_text(pen: &mut Pen, class: Attribute, x: u64, y: u64, anchor: &'static str) {
    pen.with(class);
    pen.with(Attribute::Share(Key::X, x));
    pen.with(Attribute::Number(Key::Y, y));
    pen.with(Attribute::Word(Key::TextAnchor, anchor));
    pen.open(Tag::Text);
}
