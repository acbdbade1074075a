//! Prometheus's XOR chunks (encoding 1): bits that spell times and the bits of doubles.
//!
//! [`read_xor_chunk`] takes the data of a chunk, as it stands between the encoding's byte and the
//! checksum, and gives its samples ([`FloatSample`]) exactly where the data spells samples; else
//! the first check that fails from the front, `X1` to `X7` ([`XorError`]).
//!
//! ```
//! // One sample at 1700000002008: the double -0.
//! let data = b"\0\x01\xB0\xBF\xAB\xFE\xF9\x62\x80\0\0\0\0\0\0\0\0";
//! let samples = read_xor_chunk(rt.alloc(), data)?;
//! assert_eq!(rt; samples.len(), 1);
//! assert_eq!(rt; samples[0], FloatSample::new(1_700_000_002_008, 0x8000_0000_0000_0000));
//! let refused = read_xor_chunk(rt.alloc(), &data[..5]).err();
//! assert_eq!(rt; refused, Some(XorError::Short));
//! ```
//!
//! The same samples have many spellings: a change of the step fits more than one form, and a value
//! more than one window. So the definition (`specs/Grammar.antt`) is a tree of the choices that a
//! writer made, which has one text and one meaning. Beside it `specs/Reading.antt` says which
//! check comes first.
//!
//! It stands on `labels`, `wire` and `byteorder`. The format is that of Prometheus's TSDB format
//! documents and, where they are silent, of what Prometheus writes: up to eight bits of 0 end a
//! chunk, the greatest change of each form stands for itself, and a value that reuses a window
//! before any was told has all 64 bits. That longer spellings of a number, times that don't
//! ascend and anything after the last sample are refused is this project's own rule.
#![tactic(auto)]

mod bits;
mod chunk;
mod error;
mod sample;
mod step;

pub use chunk::read_xor_chunk;
pub use error::XorError;
pub use sample::FloatSample;
