//! Deletions: closed intervals of times in which the samples of a series are deleted, and the file
//! that keeps them.
//!
//! [`Tombstones`] holds deletions in any number and overlapping. `open` accepts exactly the files
//! that spell a list of them, and holds those; else it answers the first failing check, `T1` to
//! `T4` ([`TombstoneError`]). `deleted` is true exactly where one of them covers the time, and
//! `has_deletion_of` where one is of the series: both halve the deletions, so that no file makes
//! them slow. `add` adds exactly one [`Deletion`], and `with` gives these and an interval of
//! several series.
//!
//! ```
//! let mut tombstones = Tombstones::new(rt.alloc());
//! tombstones.add(SeriesRef::new(6), 10, 20)?;
//! assert!(rt; tombstones.deleted(SeriesRef::new(6), 20));
//! assert!(rt; !tombstones.deleted(SeriesRef::new(6), 21));
//! assert!(rt; !tombstones.deleted(SeriesRef::new(7), 20));
//! ```
//!
//! It stands on `labels`, `wire` and `byteorder`. Magic, version and entries are those of
//! Prometheus's TSDB format documents; that the checksum is of the entries alone and that the
//! reference is the one of the postings is this project's own.
#![tactic(auto)]

mod deletion;
mod error;
mod file;
mod tombstones;

pub use deletion::Deletion;
pub use error::TombstoneError;
pub use tombstones::Tombstones;
