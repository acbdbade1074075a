//! The folder of a kept store, as an auditor reads it while the store may run.
//!
//! [`read_store`] gives what the journal in a folder says ([`kept_walk::Kept`]), and what is known
//! of the block in each folder that its head names. It takes no lock. What is read counts once the
//! journal begins as it did before the blocks were read: events are only added to a journal, and a
//! store that begins it anew puts another file in its place, so the blocks are those of this head.
//! Else all is read again, at most eight times ([`StoreFault`]). [`read_kept`] reads the journal
//! alone.
//!
//! It stands on `kept_walk` and `journal` for the journal, and on `audit_command` for files, paths
//! and the blocks in directories.
#![tactic(auto)]

mod fault;
mod heads;
mod paths;
mod reading;

pub use fault::StoreFault;
pub use reading::{FoundJournal, FoundStore, read_kept, read_store, read_store_by};
