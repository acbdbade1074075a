//! Blocks that are joined into fewer.
//!
//! [`join_blocks`] makes of blocks fewer that hold the same samples: of two at one time the later
//! block's stands, and what was deleted is left out. If all are more than one block may have, each
//! half is joined by itself. [`are_emptied`] says whether no sample is left in blocks, so that they
//! may be joined into none.
//!
//! It stands on `block_outputs` and `block_writer` for blocks of the rows of several, and on
//! `block` and `labels`. Of `head` it has what it means that blocks hold the same.
#![tactic(auto)]

mod emptied;
mod runs;

pub use emptied::are_emptied;
pub use runs::{join_blocks, share_into};
