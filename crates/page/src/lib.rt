//! Pages that show an audited answer: one HTML file made of a question, the reply to it, and what
//! the auditor said of it.
//!
//! [`write_page`] makes the page as the pieces of trees, in which texts from outside (the selector,
//! label names and values) are texts alone, and prints them between a constant front and a constant
//! end; [`write_text`] writes the same for a terminal. The claim between them is that of
//! `page_claims::find_claim`, or over a kept store that of `state_claims::find_state_claim`, with
//! the event and the mark of the state. What is said of a label set is [`ask`]'s. What was drawn is
//! read back before it is handed out: no box is as that of the claim; above it stands the selector
//! (`page_pins`); below it the marks (counts and tiles) are those of the reply (`page_marks`), and
//! the values of the rows are its values, as whole numbers or as the doubles for which these are
//! kept.
//!
//! ```
//! let (tables, lines, state, about) = (&[], &[], None, None);
//! let (query, told) = (&query, &told);
//! let values = Values::Whole;
//! let shown = Shown {
//!     selector, query, told, tables, lines, state, values, about, length, digest,
//! };
//! let page = write_page(alloc, &shown)?;
//! ```
//!
//! It stands on `page_claims`, `state_claims`, `page_layout`, `page_marks`, `page_pins`,
//! `page_style` and `page_text`, and on the types of the crates below them.
#![tactic(auto)]

mod asked;
mod cells;
mod claim_text;
mod groups;
mod header;
mod help;
mod judgements;
mod key;
mod map;
mod parts;
mod pen;
mod rows;
mod said;
mod sayings;
mod scale;
mod shapes;
mod shown;
mod spark;
mod strip;
mod terminal;
mod time;
mod times;
mod verdicts;
mod words;
mod write;

pub use asked::{Asked, ask};
pub use said::places_laws;
pub use shown::Shown;
pub use write::{MOST_BYTES, Page, write_page, write_text};
