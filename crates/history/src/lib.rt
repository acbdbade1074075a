//! What several actors are answered, over every interleaving of their steps.
//!
//! A [`Step`] is one actor's: it adds a sample to its buffer, commits the buffer as one batch,
//! deletes, cuts, or asks. [`run`] gives one [`Reply`] a step, from a snapshot on. Its contract is
//! a machine of one world and a buffer for each actor: for every list of steps the replies are the
//! machine's. Rows are found by a walk over all samples of all parts, which shares nothing with the
//! searches by lists.
//!
//! ```
//! let labels = LabelSet::of_sorted_texts(alloc, &[("__name__", "up")]).ok()?;
//! let append = Step::append(1, labels, Sample::new(10, 1));
//! let query = Query::new(Selector::parse(alloc, "up").ok()?, 0, 30).ok()?;
//! let steps = Vec::from_array(alloc, [append, Step::commit(1), Step::query(2, query)]).ok()?;
//! let opening = Snapshot::opening(alloc, Vec::new(alloc)).ok()?;
//! let replies = run(alloc, &opening, &steps).ok()?;
//! assert!(rt; matches!(replies.get(1), Some(Reply::Done)));
//! assert!(rt; matches!(replies.get(2), Some(Reply::Rows(rows)) if rows.len() == 1));
//! ```
//!
//! It stands on `labels`, `matchers`, `block` and `head`.
#![tactic(auto)]

mod buffers;
mod machine;
mod reply;
mod step;
mod walk;

pub use machine::run;
pub use reply::Reply;
pub use step::Step;
