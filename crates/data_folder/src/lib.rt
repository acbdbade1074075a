//! The folder of a durable store, and what a crash leaves of it.
//!
//! [`Folder`] is a folder of files: its calls make, append to, replace and remove them, and its
//! meaning tells what is found under each name after a crash at any moment of any call. One file
//! decides what the store is, the journal: [`JournalFile`] is the medium that a `Journal` is
//! written to. [`roll`] begins the journal anew: the next journal is written whole under a name of
//! its own, and then takes the journal's name. A crash at any moment of a roll leaves the old
//! journal or the new one, and each file that either of them names.
//!
//! [`begin`] begins the first journal of a folder, and [`sweep`] removes files that no journal
//! names. [`add`] and [`add_folder`] write a file and make a folder beside the journal, and
//! [`write_apart`] writes one beside files that are to be kept. [`HostFolder`] is a folder of the
//! host, of whose files no clause tells.
//!
//! It stands on `journal` for records and media. That a file is replaced by a rename after it was
//! synced, and the folder synced after that, is what SQLite, LevelDB and Prometheus do.
#![tactic(auto)]

mod adding;
mod apart;
mod changing;
mod folder;
mod host_folder;
mod journal_file;
mod listing;
mod rolling;
mod sweeping;

pub use adding::{add, add_folder};
pub use apart::{ApartError, write_apart};
pub use changing::change_journal;
pub use folder::Folder;
pub use host_folder::HostFolder;
pub use journal_file::{JOURNAL, JournalFile};
pub use listing::list_names;
pub use rolling::{NEXT, RollError, begin, roll};
pub use sweeping::sweep;
