//! The blocks of a store that is kept in a folder, joined into fewer, or with others beneath them.
//!
//! [`joined_snapshot`] is the snapshot of a store with its blocks joined: its world is the store's,
//! but for the number of blocks. [`added_snapshot`] is that of a store with other blocks before its
//! own, over whose samples the store's stand.
//!
//! [`replace_store`] has the store of a folder begin with a snapshot: the files of the blocks are
//! written beside those that lie there, then the journal is begun anew, and what is no longer the
//! store's is removed. After a crash at any moment a start finds the store as it was, or the other.
//!
//! [`join_store`] and [`add_to_store`] do so with the store that lies in a folder, after what its
//! journal has was saved, and tell why not by a [`ChangeFault`].
//!
//! It stands on `store_folder` for the folder of a store, on `head` for snapshots, and on
//! `block_joiner` for blocks that are joined.
#![tactic(auto)]

mod added;
mod adding;
mod error;
mod joined;
mod joining;
mod opened;
mod replacing;
mod storing;

pub use added::added_snapshot;
pub use adding::add_to_store;
pub use error::ChangeFault;
pub use joined::joined_snapshot;
pub use joining::{BlockCounts, join_store};
pub use storing::{ReplacedStore, replace_store};
