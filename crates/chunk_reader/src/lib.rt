//! The chunks file of a block: batches of samples, each after its length and before its checksum.
//!
//! [`Chunks`] owns the file's bytes; `open` looks at its head alone. `find` and `samples` look at
//! the one chunk that a series entry names, by its place and its first and last time, and give its
//! samples, in place or copied, exactly where the file spells such a chunk there; else the first
//! check that fails, `C1` to `C8`, in the order of the format. `stored` gives the samples of a
//! chunk that `find` is known to accept, and makes none of its checks again.
//!
//! ```
//! // The head of a file, and at 8 a chunk of one sample.
//! let file = b"\x85\xBD\x40\xDD\x01\0\0\0\
//!     \x12\xE0\0\x01\0\0\0\0\0\0\0\x0A\0\0\0\0\0\0\0\x04\x5D\x31\x63\xEF";
//! let chunks = Chunks::open(file.to_vec(rt.alloc())?)?;
//! let samples = chunks.find(8, 10, 10)?;
//! assert_eq!(rt; samples.len(), 1);
//! assert_eq!(rt; samples.get(0), Sample::new(10, 4));
//! let refused = chunks.find(8, 10, 11).err();
//! assert_eq!(rt; refused, Some(ChunkError::TimesDisagree));
//! ```
//!
//! It stands on `labels`, `wire` and `byteorder`. Segment head, framing and references are those of
//! Prometheus's TSDB format documents; the encoding `E0`, samples that stand uncompressed, is this
//! project's own.
#![tactic(auto)]

mod chunks;
mod error;
mod frame;
mod samples;

pub use chunks::Chunks;
pub use error::ChunkError;
pub use frame::Frame;
pub use samples::Samples;
