//! Where the events of a store are kept before they are published.
//!
//! A [`Keeper`] keeps events for good, several at a time, by their records ([`push_text`]). Its
//! clauses speak of the events that it holds, and of the world that a start finds after a crash at
//! any moment: that of all that was kept, and at most of the first few that were being kept. So a
//! store that keeps its events and then publishes them loses nothing by a crash that anyone has
//! seen. [`NoKeeper`] is for a store in memory alone: it is idle, holds any events, never fails,
//! and says nothing of crashes.
//!
//! It stands on `head`, for what an event is, on `event_text`, for its text, and on `journal`, for
//! records. That a change is written before it is shown is the rule of write-ahead logs (ARIES;
//! PostgreSQL and SQLite keep it).
#![tactic(auto)]

mod error;
mod records;
mod trait_keeper;

pub use error::{KeepError, keep_error};
pub use records::push_text;
pub use trait_keeper::{Keeper, NoKeeper};
