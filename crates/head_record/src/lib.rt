//! The head of a store and the list of its blocks, as the first contents of a journal.
//!
//! A journal begins with a [`HeadRecord`]: what the values of the store mean, the floor, where each
//! block lies, and the series of the head with their samples and the newest sample of each, which a
//! deletion may have taken from them. So a journal can be begun anew at any moment, and a start has
//! the world that the snapshot had ([`start_of_save`]). [`head_contents`] spells a head, and
//! [`read_head`] reads it from the front of a journal's contents.
//!
//! It stands on `block_folder` for what values may mean, on `event_text` for the words of label
//! sets and samples, on `head` for snapshots and their worlds, and on `event_journal` for what may
//! stand before events.
#![tactic(auto)]

mod error;
mod laws;
mod parts;
mod reading;
mod saved;
mod writing;

pub use error::RefusedHead;
pub use laws::{heads_are_in_front, start_of_save};
pub use reading::read_head;
pub use saved::{BlockPlace, HeadRecord};
pub use writing::head_contents;
