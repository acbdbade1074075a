//! The journal of a kept store, as an auditor reads it.
//!
//! [`Kept::read`] reads the whole file: what the values of the store mean, its floor, the folders
//! of its blocks, the series of its head ([`KeptSeries`]), and the changes behind the head, each a
//! [`Change`]. A file that a crash left is read up to its torn end. A journal that begins with an
//! event has the head of a store that had nothing. Behind the head series may be named by number.
//! What is refused is told with its place ([`KeptError`]): `J1` to `J4` of the records, `K1` of the
//! head, `K2` of an event.
//!
//! ```
//! let kept = Kept::read(alloc, &file)?;
//! let last = match kept.changes().last() {
//!     Some(Change::Cut(time)) => *time,
//!     _ => kept.floor(),
//! };
//! ```
//!
//! `specs/Fields.antt` and `specs/Contents.antt` say how each content is spelled, apart from how it
//! is read; docs/FORMATS.md says the same in words. Whether a store can have such a head, and
//! whether its events admit each other, is not looked at here.
//!
//! It stands on `labels`, `matchers` and `wire`, on `journal` for records, and to look names up on
//! `name_table`, which reads nothing. It shares no reader of heads and events with the store that
//! writes them.
#![tactic(auto)]

mod changes;
mod error;
mod events;
mod fault;
mod fields;
mod heads;
mod journal_state;
mod neighbours;
mod numbers;
mod parts;
mod reading;

pub use error::KeptError;
pub use journal_state::{Change, Kept, KeptSeries, Values};
