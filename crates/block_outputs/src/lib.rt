//! Rows as numbered blocks: cut by time into outputs within their limits, and written.
//!
//! [`Counts`] is told how many samples there are at which times, and cuts a closed range of times
//! into tiles, one after another, such that no output is more than a block may have. [`join`] makes
//! one list of rows of several, of which the later wins. [`write_output`] writes rows as the
//! directory of a block, which `Block::open` accepts.
//!
//! It stands on `time_cuts` for the cuts, on `series_merge`, `cover` and `postings` for joined
//! rows, on `block_writer` and `block_folder` for what is written, and on `labels` and `block`.
#![tactic(auto)]

mod contents;
mod counts;
mod error;
mod joining;
mod naming;
mod output;
mod tiles;

pub use contents::outputs_hold_contents;
pub use counts::Counts;
pub use error::OutputError;
pub use joining::join;
pub use output::{Extent, Output, are_within, count_samples, write_output};
pub use tiles::{Stretch, tile};
