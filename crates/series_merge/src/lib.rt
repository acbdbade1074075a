//! The rows of several parts' answers as one list of rows.
//!
//! An answer is a [`PartAnswer`](cover::PartAnswer), and [`merge`] gives a [`Row`](labels::Row) for
//! each label set: it stands once, in label order, its samples in time order; of the samples at one
//! time the last answer's stands. So where the answers are those of the parts of a store, in
//! their order, the merged rows are the rows of the content of all parts, in which a later part
//! wins.
//!
//! Of a `snapshot` with two blocks and an empty head, where each block has one sample of the series
//! that the `query` asks for:
//!
//! ```
//! let answers = search_one_by_one(alloc, snapshot, query)?;
//! let rows = merge(alloc, answers.as_slice())?;
//! assert_eq!(rt; (answers.len(), rows.len()), (3, 1));
//! ```
//!
//! [`merged_rows`] keeps none a second time where one answer alone has rows.
//!
//! It stands on `labels` and `cover`.
#![tactic(auto)]

mod gathering;
mod laying;
mod merging;
mod one_part;
mod remaining;
mod run;
mod walk;

pub use merging::merge;
pub use one_part::{MergedRows, merged_rows};
