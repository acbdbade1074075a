//! The state of a kept store of which a reply is right, found in one replay.
//!
//! A [`Told`] is a reply, as the search asks it: whether a head has all that the reply shows of it,
//! whether that is sound of the head, and whether what the reply says of blocks is right. Its laws
//! are why few states need to be looked at: in a run of batches the head only grows, and of the
//! states of a run the first whose head has all that is shown decides. [`find_in_run`] finds it by
//! halving; [`find_state`] goes through all runs of a journal.
//!
//! The crate stands on `kept_world`, and on the types of `kept_walk` and `block_walk`.
#![tactic(auto)]

mod run;
mod search;
mod told;

pub use run::find_in_run;
pub use search::{Search, find_state};
pub use told::Told;
