//! The store over the port of Prometheus.
//!
//! [`answer`] does what the bytes of one connection ask, and gives the reply that reports it. A
//! write is sifted in parts of at most 4,096 samples. A read is answered from one snapshot, and so
//! is a listing. What is refused changes nothing. If it gives a reply, the reply is that to the
//! first failing check of the bytes, or to what they ask, and nothing else. What joined the store
//! is under the seat's number, and the pass has learnt its receipt (`specs/Serving.antt`).
#![tactic(auto)]

mod counts;
mod engine;
mod list;
mod metric;
mod paging;
mod parts;
mod read;
mod reply;
mod told;
mod write;

pub use engine::{EARLIEST, Silence, answer};
pub use reply::Reply;
