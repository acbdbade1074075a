//! A request of Prometheus's remote write, version 1.0, read where it stands, and written.
//!
//! A body is a message of Protocol Buffers, `prometheus.WriteRequest`; `snappy` gives it out of
//! what was sent. [`next_series`] reads one series after another into one [`Series`], whose room is
//! used again, and [`read_request`] makes a list of them. A series has labels and samples as they
//! were sent: whether texts are UTF-8, names are names or times rise is the caller's to judge. Its
//! native histograms are counted. Exemplars, metadata and what else is not known are passed over.
//!
//! ```
//! // `up{job="a"}` with the double 5 at 30 ms.
//! let body = b"\x0a\x27\x0a\x0e\x0a\x08__name__\x12\x02up\x0a\x08\x0a\x03job\x12\x01a\
//!     \x12\x0b\x09\x00\x00\x00\x00\x00\x00\x14\x40\x10\x1e";
//! let all = read_request(rt.alloc(), body)?;
//! assert_eq!(rt; all[0].labels[0].value, b"up".as_slice());
//! assert_eq!(rt; all[0].samples[0], Sample { time: 30, value: 0x4014_0000_0000_0000 });
//! assert_eq!(rt; all[0].histograms, 0);
//! ```
//!
//! A refusal is the first fault of the whole body, `U1` to `U5`, with its place ([`ReadError`]).
//! Nothing is nested deeper than a label or a sample, and no read takes memory but for the room of
//! what it gives. It stands on `protobuf_fields` and `varints`. The messages are those of `prompb`
//! in Prometheus: `remote.proto` and `types.proto`.
#![tactic(auto)]

mod error;
mod label;
mod label_read;
mod put;
mod read_back;
mod request;
mod sample;
mod sample_read;
mod series;
mod series_read;

pub use error::ReadError;
pub use label::Label;
pub use label_read::label_of;
pub use put::{put_body, put_label, put_sample, put_series, put_text};
pub use read_back::body_is_read_back;
pub use request::{next_series, read_request};
pub use sample::Sample;
pub use sample_read::sample_of;
pub use series::Series;
