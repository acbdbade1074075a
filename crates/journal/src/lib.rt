//! A journal: contents in a file that grows, each on the disk for good before it is acknowledged.
//!
//! A [`Journal`] appends a record for each content to a [`Medium`] and syncs it, or several records
//! by one write and one sync; [`recover`] gives the contents of a file that a crash left. A crash
//! at any moment leaves the contents that were acknowledged, and at most those that were being
//! written: [`recover`] cuts off a torn end, and refuses any other damage with a number and its
//! place, `J1` to `J4` ([`JournalError`]). After a sync that failed nothing is known of the medium;
//! the journal then closes, and says so (`J7`).
//!
//! ```
//! let mut journal = Journal::create(MemoryMedium::new(rt.alloc(), 0, 0)).ok().unwrap();
//! journal.append(rt.alloc(), b"up")?;
//!
//! let found = recover(rt.alloc(), journal.medium.bytes())?;
//! assert_eq!(rt; found.contents.len(), 1);
//! ```
//!
//! [`MemoryMedium`] is a medium for tests. It stands on `wire`. What is written is in
//! docs/FORMATS.md; that a record has a length and a CRC-32C is the form of the logs of Prometheus
//! and LevelDB, and the checksum of the length is this project's own.
#![tactic(auto)]

mod durable_write;
mod error;
mod journal;
mod medium;
mod memory_medium;
mod record;
mod recovery;
mod texts;

pub use error::JournalError;
pub use journal::{Journal, cut_end};
pub use medium::{Medium, MediumError};
pub use memory_medium::MemoryMedium;
pub use recovery::{Recovered, recover, what_a_crash_leaves};
pub use texts::{file_text, push_record};
