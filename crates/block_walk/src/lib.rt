//! The walk: a block's part, read from its files without the postings.
//!
//! A [`Table`] is a part, as an auditor knows it. [`Table::walk`] reads it from an index, a chunks
//! file and a file of deletions, exactly where these spell one (`IsWalked`), and else names the
//! first check that fails; [`WalkError`] has the codes. [`Table::walk_by`] does the same by several
//! threads.
//!
//! ```
//! let none = Vec::new(alloc);
//! assert!(rt; matches!(Table::walk(alloc, b"", none, b""), Err(WalkError::TooShort)));
//! ```
//!
//! The rooms stand in the order of the checks: the head and the table of contents of the index, its
//! symbols, its series entries with their bodies, then the samples of the chunks that the series
//! name.
//!
//! The crate stands on `labels`, `wire`, `chunk_reader` and `tombstones`. It shares no reader of an
//! index with a store whose blocks it walks.
#![tactic(auto)]

mod bodies;
mod body;
mod checked;
mod chunk;
mod contents;
mod deletions;
mod entries;
mod error;
mod framed;
mod layout;
mod samples;
mod series_entries;
mod stored;
mod symbols;
mod table;
mod walk;
mod walker;

pub use error::WalkError;
pub use table::Table;
