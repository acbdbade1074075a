//! A request of Prometheus's remote read, read where it stands, and the reply to it, written.
//!
//! A body is a message of Protocol Buffers, `prometheus.ReadRequest`; `snappy` gives it out of what
//! was sent. [`read_queries`] gives its queries, or the first fault of the whole body, `U1` to
//! `U5`, with its place. [`put_response`] writes a reply of samples, a result for each query.
//! Ranges, kinds of matchers, names and patterns are the caller's to judge. Accepted types of
//! replies are passed over, as is what else is not known; of hints the function's name is read.
//!
//! ```
//! // `up` from 0 to 100 ms.
//! let body = b"\x0a\x12\x10\x64\x1a\x0e\x12\x08__name__\x1a\x02up";
//! let queries = read_queries(rt.alloc(), body)?;
//! assert_eq!(rt; (queries[0].start, queries[0].end), (0, 100));
//! assert_eq!(rt; queries[0].matchers[0].value, b"up".as_slice());
//!
//! // A result without series.
//! let mut reply = Vec::new(rt.alloc());
//! put_response(rt.alloc(), &mut reply, &[Vec::new(rt.alloc())])?;
//! assert_eq!(rt; reply.as_slice(), [0x0a, 0].as_slice());
//! ```
//!
//! It stands on `remote_write`, whose series a reply has, and `protobuf_fields`. The messages are
//! those of `prompb` in Prometheus: `remote.proto` and `types.proto`.
#![tactic(auto)]

mod answer;
mod hints_read;
mod matcher;
mod matcher_read;
mod query;
mod query_read;
mod request;

pub use answer::{put_response, response_is_read_back};
pub use matcher::Matcher;
pub use matcher_read::matcher_of;
pub use query::Query;
pub use query_read::query_of;
pub use request::read_queries;
