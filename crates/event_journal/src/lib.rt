//! The events of a store in a journal.
//!
//! In an [`EventJournal`] each event is a record: its one text, or a batch whose series are named
//! by number, as [`numbered_records`] makes them of records that are handed. Before the events
//! there may be contents of another kind, as the head that a journal begins with; they stay. A
//! crash at any moment leaves a file of the events that were kept, and at most of the first few of
//! those that were being kept. A start reads the contents of such a file as events with
//! [`read_events`], which names the first that is none ([`Refused`]); when all of them are accepted
//! again, [`EventJournal::resume`] cuts the torn end off and goes on. So a file that is refused is
//! left as it was.
//!
//! It stands on `journal` for records and crashes, on `event_text` and `numbered_text` for texts,
//! on `keeper` for what it is to keep events, and on `head` for what they are.
#![tactic(auto)]

mod error;
mod events;
mod keep;
mod numbering;

pub use error::ContentError;
pub use events::{Refused, one_list, read_events};
pub use keep::EventJournal;
pub use numbering::numbered_records;
