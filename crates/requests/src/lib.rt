//! The side of HTTP that needs no store: what a request asks, why it is refused, and how a reply
//! is spelled.
//!
//! [`read_request`] reads one [`Request`] from an [`Inlet`], or answers the first refusal that its
//! bytes meet; [`read_admitted_into`] does so with a buffer that the caller keeps, and refuses a
//! head that [`guard::Rules`] do not admit. The contract speaks of the whole input and never of the
//! pieces that it came in: `specs/Reading.antt` says what the bytes mean, head by head and body by
//! body. A request that it answers is fit for a store: a batch has at most 4,096 samples, each at a
//! time, a deletion has a range and at most 16 matchers, a cut is at a time.
//!
//! A [`Refusal`] is one of `H1` to `H12`; its `reply` is the whole text that answers it.
//!
//! [`append_success_head`] writes what stands before the body of a reply of success, and
//! [`done_reply`] is the reply to a change that was made. The writing side and what is done with a
//! request belong to the caller.
//!
//! ```
//! #[derive(Drop)]
//! struct Bytes<'a> {
//!     rest: &'a [u8],
//! }
//!
//! impl Inlet for Bytes<'_> {
//!     ghost use Rattle.std.specs.Prelude.{Some};
//!
//!     ghost input = { λ bytes. Some bytes.rest.now };
//!
//!     ghost failed_reads = { λ _. 0 };
//!
//!     fn read(&mut self, buf: &mut [u8]) -> Result<usize, Fault> {
//!         let count = self.rest.len().min(buf.len());
//!         let (front, others) = self.rest.split_at(count);
//!         buf[..count].copy_from_slice(front);
//!         self.rest = others;
//!         Ok(count)
//!     }
//! }
//!
//! let mut inlet = Bytes {
//!     rest: b"POST /cut HTTP/1.1\r\nContent-Length: 9\r\n\r\n{\"at\":20}",
//! };
//! let request = read_request(rt.alloc(), &mut inlet)?;
//! assert!(rt; matches!(request, Request::Cut(20)));
//!
//! let mut inlet = Bytes {
//!     rest: b"GET /none HTTP/1.1\r\n\r\n",
//! };
//! let refused = read_request(rt.alloc(), &mut inlet).err();
//! assert_eq!(rt; refused, Some(ReadError::Refused(Refusal::NoSuchPath)));
//! ```
//!
//! The reply to `GET /none HTTP/1.1` and an empty line:
//!
//! ```text
//! HTTP/1.1 404 Not Found
//! Content-Type: application/json
//! Content-Length: 16
//! Connection: close
//!
//! {"refused":"H3"}
//! ```
//!
//! Statuses are those of RFC 9110 and RFC 6585.
#![tactic(auto)]

mod admit;
mod changes;
mod edge;
mod fields;
mod head;
mod read;
mod refusal;
mod reply;
mod request;
mod select;
mod status;
mod target;
mod times;
mod usual;
mod values;
mod write;

pub use admit::{read_admitted_into, read_request};
pub use edge::{Fault, Inlet};
pub use fields::{claims_among, has_field, only_field, path_in};
pub use refusal::{Cause, Refusal};
pub use reply::{append_success_head, done_reply};
pub use request::{MAX_BATCH, ReadError, Request};
pub use status::Status;
pub use target::{Path, path_text};
