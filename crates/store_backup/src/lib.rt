//! The store of a folder, copied into another one, while a server may change it.
//!
//! [`copy_store`] reads the journal of the source and the blocks that its head names, makes the
//! snapshot of them, and writes it into the target: first the files of its blocks, and last a
//! journal of a head that has the rest. So a copy that was cut off has no journal, and is no store;
//! and the copy has all that the events of the source's journal made, and no event.
//!
//! Nothing is changed in the source, and no lock is taken there. Who keeps the store meanwhile
//! appends to its journal, which does no harm: a record that is cut short is not read. Or it begins
//! the journal anew and removes blocks that the old head named. So the source's journal is read
//! again afterwards: where it no longer begins with what was read first, nothing is written, and
//! the fault is [`CopyFault::Changed`]. [`copy_between`] then begins again, by other views.
//!
//! It stands on `store_folder` for what a folder has of a store, on `store_joiner` for what a start
//! finds of one, and on `head` for snapshots.
#![tactic(auto)]

mod begun;
mod copying;
mod error;
mod settled;
mod tries;

pub use copying::{Copied, copy_store};
pub use error::CopyFault;
pub use tries::copy_between;
