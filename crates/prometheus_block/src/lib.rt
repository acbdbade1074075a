//! Blocks of Prometheus: an index, segments of chunks, and deletions, as they stand on disk.
//!
//! [`read_chunk`] gives what a chunk of a segment holds: the samples of an XOR chunk, or how many
//! histograms there are, which are left. [`read_series`] reads the chunks of a series that meet a
//! range of times, over segments that [`ReadSegments`] reads, of which one is held at a time.
//! [`read_rows`] keeps of these samples what `kept_samples` keeps.
//!
//! It stands on `index_reader`, `chunk_reader`, `tombstones` and `xor_reader` for the files, on
//! `kept_samples` and `imported_values` for values, and on `labels`. Segments and encodings are
//! those of Prometheus's TSDB format documents.
#![tactic(auto)]

mod chunk;
mod error;
mod narrowing;
mod rows;
mod segments;
mod series;

pub use chunk::{Content, Counted, read_chunk};
pub use error::SourceError;
pub use narrowing::parts_have_the_rows_between;
pub use rows::{RowsError, Wanted, read_rows};
pub use segments::{Held, ReadSegments};
pub use series::{count_samples, read_series};
