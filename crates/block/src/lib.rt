//! A block: an unchanging part that is read from files.
//!
//! [`Range`] is the range of times that a block covers, and `read_meta` reads it from the text of a
//! `meta.json`, exactly where that has the three members that count, else it answers `B2`.
//! [`Block::open`] opens the index, the chunks and the deletions of a block exactly where they
//! spell one, and names the first check that fails where they do not. What was checked then is not
//! checked again.
//!
//! A block tells the label set and the undeleted samples of a series, or of all of them, and a
//! [`BlockView`] of it lends lists. [`RawList`] is a list of references that stay in the bytes of
//! the index: a seek leaves exactly what is not below its target, and reads no more references than
//! the length of what remained has binary digits. [`LiveList`] lists the series with an undeleted
//! sample in a range, and reads a chunk only where the times of the chunks leave it open.
//!
//! ```
//! let range = Range::read_meta(alloc, br#"{"minTime":0,"maxTime":30,"version":1}"#)?;
//! assert_eq!(rt; (range.covers(29), range.covers(30)), (true, false));
//! let refused = Block::open(alloc, range, b"no index", Vec::new(alloc), b"").err();
//! assert_eq!(rt; refused, Some(BlockError::Index(IndexError::TooShort)));
//! ```
//!
//! It stands on `labels`, `postings`, `wire`, `index_reader`, `chunk_reader`, `packed_chunks`,
//! `tombstones`, `byteorder` and `serde_json`. The files are those of Prometheus's TSDB format
//! documents; that other members of `meta.json` are ignored is this project's own.
#![tactic(auto)]

mod blocks;
mod checking;
mod comparing;
mod counting;
mod error;
mod files;
mod listing;
mod live_list;
mod meta;
mod opening;
mod packing;
mod range;
mod raw_list;
mod samples;
mod series;
mod series_places;
mod view;

pub use blocks::Block;
pub use error::BlockError;
pub use live_list::LiveList;
pub use range::Range;
pub use raw_list::RawList;
pub use view::BlockView;
