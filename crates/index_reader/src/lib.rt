//! The index of a block, version 2: its symbols, its series with their chunks, and its postings.
//!
//! [`Index::open`] reads a whole index, each check over the whole file before the next, and gives
//! what the file holds exactly if all checks pass; else it names the first that fails, `I1` to
//! `I15` in the order of the format. Both are stated without reading: a file is opened exactly if
//! its bytes spell an index (`IsIndex`), and gives what they spell; what each check asks of the
//! bytes, and which comes first, is a table (`IsRefused`). Postings are not trusted: the pairs that
//! are listed must be exactly those that series carry, and each list the references of the series
//! that carry its pair. Numbers of a file are compared before anything is reserved for them.
//!
//! ```
//! // The symbols, one series, its lists, the table of offsets, and the table of contents.
//! let file = b"\xBA\xAA\xD7\0\x02\0\0\0\x10\0\0\0\x02\x08__name__\x02up\x10\x7D\x8B\x61\0\0\0\
//!     \x07\x01\0\x01\x01\x14\0\x08\x52\xCC\x02\xEE\
//!     \0\0\0\x08\0\0\0\x01\0\0\0\x02\x55\x02\xAD\xD1\
//!     \0\0\0\x08\0\0\0\x01\0\0\0\x02\x55\x02\xAD\xD1\
//!     \0\0\0\x16\0\0\0\x02\x02\0\0\x2C\x02\x08__name__\x02up\x3C\x5D\x2C\xBB\xFD\
//!     \0\0\0\0\0\0\0\x05\0\0\0\0\0\0\0\x20\0\0\0\0\0\0\0\0\0\0\0\0\0\0\0\0\
//!     \0\0\0\0\0\0\0\x2C\0\0\0\0\0\0\0\x4C\x9B\xFB\x29\x66";
//! let index = Index::open(alloc, file)?;
//! assert_eq!(rt; index.len(), 1);
//! assert_eq!(rt; index.reference_at(0), SeriesRef::new(2));
//! assert_eq!(rt; index.labels_at(alloc, 0)?.value("__name__"), "up");
//! assert!(rt; index.entries("job", "a").is_none());
//! let refused = Index::open(alloc, b"no index").err();
//! assert_eq!(rt; refused, Some(IndexError::TooShort));
//! ```
//!
//! It stands on `labels`, `wire` and `byteorder`. The format is that of Prometheus's TSDB format
//! documents; that a reference is the sixteenth part of an offset, and that nothing else may stand
//! between entries than zeros, is this project's own.
//!
//! Rooms: `layout` reads where the parts stand, `symbols` the texts, `series_entries` with `body`,
//! `chunk` and `bodies` the series, `offset_table` with `keys` and `pairs` the pairs, `postings`
//! the lists. `parts` has what is read of the series and of the lists, `sharing` shares it out over
//! several threads, and `joining` puts bodies together. `agreement` holds the lists against the
//! series, and `checks` has all checks in their order. What is kept is an `index` of `pairs`,
//! `series` and `lists`.
#![tactic(auto)]

mod agreement;
mod bodies;
mod body;
mod checks;
mod chunk;
mod error;
mod index;
mod joining;
mod keys;
mod layout;
mod lists;
mod offset_table;
mod pairs;
mod parts;
mod postings;
mod series;
mod series_entries;
mod sharing;
mod symbols;

pub use chunk::Chunk;
pub use error::IndexError;
pub use index::Index;
pub use postings::Entries;
