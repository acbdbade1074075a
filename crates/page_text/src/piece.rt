//! Pieces of pages.

use crate::attribute::Attribute;
use crate::mark::Mark;
use crate::tag::Tag;
use crate::value::ValueText;

/// A piece of a page. Texts from outside stand in `Text` alone: all else is a number or a constant
/// of the program.
#[derive(Drop)]
pub enum Piece {
    /// An element begins, with these attributes.
    Open(Tag, Vec<Attribute>),
    /// An element that holds nothing.
    Leaf(Tag, Vec<Attribute>),
    /// An element ends.
    Close(Tag),
    /// A constant text.
    Word(&'static str),
    /// A text from outside, as its characters.
    Text(Vec<char>),
    /// A number, in decimal.
    Number(u64),
    /// A number with a sign, in decimal.
    Integer(i64),
    /// A number in decimal, with a comma before each three digits but the first.
    Counted(u64),
    /// A number or a rectangle that the tree tells of.
    Mark(Mark),
    /// A value of a sample, by its text.
    Value(ValueText),
    /// The end of a line.
    Line,
}
