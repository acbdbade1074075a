//! Pages as trees: elements with attributes, numbers, and texts from outside, which stand only as
//! leaves; and their print as HTML.
//!
//! A [`Tree`] grows by elements that are opened and closed. What it has grown to is a list of
//! [`Piece`]s in which each element that is opened is closed in turn (`IsTree`). [`print`] writes
//! it: names and constants, numbers in decimal, and of a text each character, `& < > " '` as
//! entities, and a character that cannot be seen as a box with its code (`U+202E`). So a text
//! changes what is read, and never an element or an attribute. [`print_plain`] writes its texts and
//! numbers alone, for a terminal.
//!
//! A [`Mark`] is a piece that the tree tells of: a number with what it counts, or a rectangle that
//! a verdict fills. [`marks_of`] reads them back, so that whoever draws can be held to a list; and
//! [`values_of`] the values of samples, which stand there as whole numbers or as the doubles for
//! which these are kept ([`Values`]).
//!
//! ```
//! let mut tree = Tree::new(alloc);
//! tree.open(Tag::Code, Vec::new(alloc))?;
//! tree.text("a<b")?;
//! let pieces = tree.finish()?;
//! assert_eq!(rt; print(alloc, pieces.as_slice())?.as_str(), "<code>a&lt;b</code>");
//! ```
//!
//! It stands on `page_escape` for texts, on `itoa` for digits, and on `stored_doubles` and
//! `double_text` for doubles.
#![tactic(auto)]

mod attribute;
mod mark;
mod numbers;
mod piece;
mod printing;
mod read_back;
mod tag;
mod terminal;
mod tree;
mod value;

pub use attribute::{Attribute, Key, Move};
pub use mark::{Mark, Subject, marks_of, same_marks};
pub use piece::Piece;
pub use printing::print;
pub use read_back::{same_values, values_of};
pub use tag::Tag;
pub use terminal::print_plain;
pub use tree::{MOST_PIECES, Tree};
pub use value::{Value, ValueText, Values};
