//! The answers of a snapshot's parts to a query.
//!
//! A part's rows are exactly those of its content that satisfy all matchers, with their samples in
//! the range, in label order; there are as many as its certificate has matches, and the certificate
//! is the leftmost one, so that no valid one has fewer intervals, shown by its separators. There is
//! one answer for each part that the query does not skip, in the order of the parts: the blocks and
//! then the head. A block is skipped where its range has no time of the query's; it has no sample
//! there, so nothing is lost. A part is a [`SearchedPart`]; [`search`] gives each part a worker,
//! and the rows of a part's many matches several, with a [`Gate`] that learns of each part.
//! [`search_in_turn`] goes through all in the calling thread, and shares out the rows alone;
//! [`search_one_by_one`] starts no thread. The three agree in all but the moves.
//! [`answered_parts`] makes of the answers what is told of each part: its answer, or that it is
//! skipped.
//!
//! ```
//! let labels = LabelSet::of_sorted_texts(alloc, &[("__name__", "up")]).ok()?;
//! let batch = Vec::from_array(alloc, [(labels, Sample::new(10, 1))]).ok()?;
//! assert!(rt; Event::is_batch(&batch));
//! let empty = Snapshot::opening(alloc, Vec::new(alloc)).ok()?;
//! let snapshot = apply(alloc, &empty, &Event::batch(batch)).ok()?;
//!
//! let query = Query::new(Selector::parse(alloc, "up").ok()?, 0, 20).ok()?;
//! let answers = search_one_by_one(alloc, &snapshot, &query).ok()?;
//! let answer = answers.first()?;
//! assert_eq!(rt; (answer.part, answer.rows.len()), (PartName::Head, 1));
//! ```
#![tactic(auto)]

mod answered;
mod gate;
mod laws;
mod many_rows;
mod one_part;
mod parts;
mod skipping;

pub use answered::{AnsweredPart, answered_parts};
pub use gate::{Gate, OpenGate};
pub use laws::searches_agree;
pub use one_part::{SearchedPart, search_part};
pub use parts::{search, search_in_turn, search_one_by_one};
pub use skipping::is_skipped;
