//! The folder of a durable store: what a start reads of it, and what a roll writes.
//!
//! A store is one journal and the files of the blocks that its head names: `IsState`, in
//! `specs/States.antt`. [`open_store`] gives what a folder has of one, and [`resume_store`] goes on
//! with it; [`begin_store`] begins one. A [`StoreKeeper`] keeps the events of a running store
//! there. [`StoreKeeper::roll`] writes the blocks that the folder has not, begins the journal anew
//! with a head that names them ([`StoreJournal::save`]), and removes what is no longer the store's
//! ([`StoreJournal::sweep_blocks`]); it does so at a start and while the store runs, when
//! [`RollTerms`] are met. A snapshot of more events is kept so too, at once (`save`).
//!
//! [`read_journal`] gives the head and the events of a journal's file, or the first fault, `J1` to
//! `J4`, `J8` to `J14`, `J19`, `J20`; [`read_blocks`] gives the blocks at places, and
//! [`open_block`] the block that files spell. What a crash leaves of a store makes one world
//! ([`one_world`]).
//!
//! The head says what the values of the store mean. That is asked for when the store begins, and is
//! never changed ([`Meaning`], [`one_meaning`]).
//!
//! It stands on `data_folder` for the folder, on `head_record` and `event_journal` for what a
//! journal has, and on `head` for snapshots and the step of an event.
#![tactic(auto)]

mod blocks;
mod codes;
mod error;
mod event_kinds;
mod headless;
mod heads;
mod journals;
mod keeper_roll;
mod keeping;
mod laws;
mod meaning;
mod reading;
mod rolling;
mod saving;
mod stale_blocks;
mod started;
mod starting;
mod store_journal;
mod sweeping;
mod terms;
mod writing;

pub use blocks::{BlockBytes, open_block, read_blocks};
pub use error::{
    BlockFault, ReadError, RollFault, StartCause, StartError, UnreadBlock, WriteFault,
};
pub use event_kinds::has_cut;
pub use headless::{begins_plain, read_plain};
pub use heads::head_journal;
pub use journals::{FoundJournal, read_journal};
pub use keeper_roll::next_number;
pub use keeping::{LastKept, Settled, StoreKeeper};
pub use laws::{may_start, one_meaning, one_world, rewritten_blocks};
pub use meaning::Meaning;
pub use reading::{FoundStore, open_store, read_store};
pub use saving::write_saved;
pub use stale_blocks::{has_blocks, sweep_apart};
pub use starting::{StartedStore, begin_store, resume_store};
pub use store_journal::{Beginning, StoreJournal};
pub use terms::RollTerms;
