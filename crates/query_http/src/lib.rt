//! The store over HTTP.
//!
//! [`serve_one`] reads one request, does what it asks and writes the reply. If it answers
//! [`Served::Replied`], what was written is exactly one reply and nothing else. It is the reply to
//! the first failing check of the bytes that came, or to the query, answered as
//! [`ask_by`](answers::ask_by) does, or to the one event that the bytes spell. An accepted event is
//! under the seat's number, and the pass has learnt its receipt, also if the writer fails
//! (`specs/Serving.antt`). If the buffers share a room for replies, a query may also get the reply
//! that it has none for its answer; without such a bound it never does ([`unbounded_law`]). A
//! connection is any [`Inlet`] and any [`Outlet`]. [`serve_one_with`]
//! does the same with [`Buffers`] that a worker keeps from connection to connection.
#![tactic(auto)]

mod actions;
mod buffers;
mod engine;
mod laws;
mod note;
mod outlet;
mod reply;

pub use buffers::{Buffers, MOST_KEPT};
pub use engine::{Served, serve_one, serve_one_with};
pub use laws::unbounded_law;
pub use note::Note;
pub use outlet::{Outlet, write_whole};
pub use requests::{Fault, Inlet};
