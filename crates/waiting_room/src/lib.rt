//! A room in front of workers, in which slow clients wait: a client that is slow or silent holds a
//! place in the room, and no worker.
//!
//! Each place has a thread with a small stack. It accepts a connection, reads until the bytes show
//! where the request ends ([`receive`]), hands them over with how they ended ([`Line::ask`]), and
//! writes the [`Reply`] that a worker made ([`answer`]). [`attend`] is a connection from its first
//! byte to its last, and [`serve`] the whole room over a listening socket. More connections wait in
//! the kernel.
//!
//! The room decides nothing but its 503, which is written if the budget of all that wait together
//! has no room, or there is no memory, or no worker made a reply. To know where a request ends it
//! reads a head of at most 8,192 bytes and 64 fields, and then as many bytes as one
//! `Content-Length` tells, at most [`Terms::most`]. If the head shows no such end, what came is
//! handed over at once ([`End::Astray`]): what is wrong with it is for the worker to say.
//! [`front_law`] says that the bytes handed over show what the whole input shows, and
//! [`request_law`] that no more and no fewer bytes of a request could have been handed over.
//!
//! What a reply has to be is the caller's: `made` of a [`Meaning`] relates bytes, how they ended
//! and a text, each [`Work`] keeps it, and [`attend`] promises it of what is written.
//!
//! ```
//! /// Replies by the length of what came.
//! struct Counter {
//!     alloc: Global,
//! }
//!
//! impl Work<Brand> for Counter {
//!     ghost is_ready = { ⊤ };
//!
//!     fn reply(&mut self, bytes: &[u8], end: End) -> Result<Reply, AllocError> {
//!         let body = format!(in self.alloc; "{} bytes", bytes.len())?.into_bytes();
//!         let head = format!(in self.alloc;
//!             "HTTP/1.1 200 OK\r\nContent-Length: {}\r\nConnection: close\r\n\r\n", body.len())?;
//!         Ok(Reply { status: 200, head: head.into_bytes(), body })
//!     }
//! }
//!
//! let terms = Terms {
//!     most: 16_777_216,
//!     places: 128,
//!     together: 268_435_456,
//!     busy: "HTTP/1.1 503 Service Unavailable\r\nContent-Length: 0\r\nConnection: close\r\n\r\n",
//!     limits: Limits {
//!         idle: Duration::from_secs(30),
//!         crowded: Duration::from_secs(1),
//!         whole: Duration::from_secs(60),
//!     },
//! };
//! // 1,000 connections, then it ends.
//! let gate = Gate::new(terms.places, 1_000);
//! let workers = vec![in alloc; Counter { alloc }, Counter { alloc }]?;
//! let ended = serve::<Brand, _, _, _>(rt, alloc, &listener, &gate, workers, &observer, terms)?;
//! assert_eq!(rt; ended.left, Some(268_435_456));
//! ```
//!
//! What it holds of bytes that came is paid for before it is kept, from one budget ([`Pool`]), and
//! given back at every end, before anything is written ([`Money`]). Replies are not in the budget.
//!
//! No clause speaks of time: that a client was silent or late is the word of its [`Source`]. Nor is
//! it promised that a worker takes what is handed over, or in which order. Of a socket no clause
//! knows the bytes: the contracts say what they say of sources and writers whose bytes are known.
//!
//! Heads are read by `httparse`; the queue is `crossbeam_channel`'s.
#![tactic(auto)]

mod budget;
mod connection;
mod ending;
mod frame;
mod gate;
mod handing;
mod laws;
mod purse;
mod reading;
mod room;
mod socket;
mod source;

pub use budget::{Budget, Money, Pool};
pub use connection::{Outcome, Terms, attend};
pub use frame::{Frame, LengthFault, frame_in};
pub use gate::Gate;
pub use handing::{Asked, Line, Meaning, Reply, Work, answer};
pub use laws::{front_law, request_law};
pub use purse::Purse;
pub use reading::{Busy, Came, End, receive};
pub use room::{Ended, Observer, serve};
pub use socket::Limits;
pub use source::{Missed, Source};
