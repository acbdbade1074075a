//! Chunks of samples in few bytes, as memory holds them: each sample is read by its place, exactly
//! as it was given.
//!
//! A [`PackedChunk`] holds the samples of one chunk, [`PackedChunks`] those of many in two
//! allocations. Both lend [`PackedSamples`], which decode the sample at a place when it is asked
//! for, find a time by halving, and copy all samples or those in a range of times. [`write_rows`]
//! writes the bytes of a chunk, and a [`Form`] says how they are read.
//!
//! ```
//! let scrapes = [
//!     Sample::new(15_000, 7),
//!     Sample::new(30_004, 9),
//!     Sample::new(45_001, 12),
//! ];
//! let chunk = PackedChunk::encode(alloc, &scrapes)?;
//! let samples = chunk.samples();
//! assert_eq!(rt; samples.get(1), Sample::new(30_004, 9));
//! assert_eq!(rt; samples.place_from(30_000), 1);
//! // A byte for each sample, and eight after them.
//! assert_eq!(rt; chunk.len_in_bytes(), 11);
//! ```
//!
//! A chunk has a line of times and a line of values, and for each sample a row that says how much
//! the sample is above them. All rows of a chunk have one width, from 0 to 16 bytes, which the
//! sample farthest from the lines decides: 0 where both lines meet all samples, 1 to 5 for whole
//! numbers of most counters and gauges, 7 or 8 for fractions as the bits of doubles. A row of 16
//! bytes is the sample itself. Eight bytes after the rows let each number be read as one word.
//! Reading takes some 2.5 ns a sample, and making a chunk some 12 ns.
//!
//! The contracts see each of these types as what it holds: a list of samples, or a list of such
//! lists. Fewer than 65,536 samples make a chunk, of any times and values, in any order; only
//! memory refuses it. No clause says that rows are narrow: each row is decoded as it is written,
//! and if one does not give its sample back, all rows of the chunk are made 16 bytes wide. So a
//! mistake in the choice of the lines costs bytes, and never a sample.
//!
//! It stands on `labels` for samples and on `byteorder`. That a line is taken away and the rest is
//! cut to the bits that it needs is known as frame of reference with a slope; steps from sample to
//! sample, as in Prometheus's chunks, take less, but are read in order.
#![tactic(auto)]

mod choice;
mod chunk;
mod chunks;
mod form;
mod rows;
mod samples;

pub use chunk::{PackedChunk, write_rows};
pub use chunks::{PackedChunks, Placed};
pub use form::Form;
pub use samples::PackedSamples;
