//! A block written anew: by its rows, without what is deleted of it.
//!
//! [`rewrite`] gives the four files of a block that covers the same times and has exactly the rows
//! of a given block that have a sample. So no deletion is left, and no series without samples; the
//! samples are the same (`full_rows_have_all`). [`full_rows`] gives these rows alone. The files are
//! those of [`block_writer::write`], and `Range::read_meta` and `Block::open` accept them.
//!
//! It stands on `block` for the block that is read, on `block_writer` for the index, the chunks and
//! the deletions, on `block_folder` for the text of `meta.json`, and on `labels` for rows.
#![tactic(auto)]

mod error;
mod few;
mod laws;
mod rewriting;
mod rows;

pub use error::RewriteError;
pub use laws::full_rows_have_all;
pub use rewriting::{Rewritten, rewrite};
pub use rows::full_rows;
