//! A right store is never refused: laws that hold between the store and its auditor.
//!
//! The two share no search, no merge and no reader of an index, and this crate stands above both.
//! [`answers_are_sound`] is the law of answers, over all of them. [`open_and_walk`] opens the files
//! of a block and walks them without the postings; its contract says that the walk gives the part
//! that the block shows. [`blocks_are_walked`] is that law itself, over all files.
//! [`search_and_audit`] searches a snapshot and audits what its parts answer: it fails for want of
//! memory alone.
//!
//! A law is a function without arguments that does nothing: who calls `answers_are_sound()` has its
//! clauses from there on, in a proof as `c.answers_are_sound.ensures.sound`. The rest can be run:
//!
//! ```
//! let query = Query::new(Selector::parse(alloc, "up").ok()?, 0, 100).ok()?;
//! let empty = Snapshot::opening(alloc, Vec::new(alloc)).ok()?;
//! let SoundAnswers { answers, rows } = search_and_audit(alloc, &empty, &query).ok()?;
//! assert_eq!(rt; (answers.len(), rows.len()), (1, 0));
//! ```
#![tactic(auto)]

mod auditing;
mod judging;
mod tables;
mod walking;

pub use auditing::{SoundAnswers, search_and_audit, search_and_audit_by_workers};
pub use judging::answers_are_sound;
pub use walking::{Opened, blocks_are_walked, open_and_walk};
