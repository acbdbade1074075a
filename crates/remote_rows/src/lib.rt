//! The rows of answers as the body of a reply of remote read.
//!
//! [`put_answer`] writes the rows of one answer as one result of `prometheus.ReadResponse`: a
//! series for each row, its labels by name, its samples by time, and for each number that is kept
//! the double that it is kept for, every bit of it. [`packed`] compresses the whole. What is
//! written is read again as the series of these rows, by whoever reads Snappy and Protocol Buffers
//! (`specs/Sent.antt`).
//!
//! ```
//! let mut text = Vec::new(rt.alloc());
//! put_answer(rt.alloc(), &mut text, rows, false)?;
//! let body = packed(rt.alloc(), text.as_slice())?;
//! ```
//!
//! One series stands in memory beside what is written. It stands on `labels`, `stored_doubles`,
//! `remote_write`, `remote_read` and `snappy`.
#![tactic(auto)]

mod answer;
mod packing;
mod series;

pub use answer::put_answer;
pub use packing::packed;
