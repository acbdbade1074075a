//! Workers that serve a store over HTTP.
//!
//! [`Workers::open`] opens a store over blocks with workers, and [`serve`] serves it on a listening
//! socket. Each worker is a thread with a pass and a seat of its own, which takes one connection
//! after another. [`work`] is the loop of one worker, over any [`Connections`]. Its contract says
//! that each connection is served by `query_http::serve_one_with`, with the pass and the seat as
//! the connection before left them (`specs/Sessions.antt`). It says also that there are as many
//! connections as asked unless no more come, and what was written to each. Its [`Shift`] says under
//! which rules it worked, so a clause names them for sockets too. A worker's buffers are kept from
//! connection to connection. They play no part in the contract but that they say whether the memory
//! for replies is bounded: only then may a query be refused for lack of room. [`Sockets`] are
//! connections of the system, with limits of time: a client that is silent or gone costs its own
//! connection and no other. [`serve_watched`] also answers those that ask at a status port for the
//! state of the server ([`Watch`]), each by [`answer_client`]. Each worker counts in a [`Tally`] of
//! its own. One thread may cut the store by a [`Schedule`], and tend its blocks ([`Upkeep`]).
//!
//! The loop of a worker over two `connections` in memory:
//!
//! ```
//! let rules = Rules::none();
//! let mut buffers = Buffers::new(alloc);
//! let (seat, pass) = (&mut seat, &mut pass);
//! let shift = work(rt, alloc, &rules, &mut buffers, connections, pass, seat, &committer, 9);
//! assert_eq!(rt; shift.served(), 2);
//! ```
//!
//! It uses `query_http` for what a connection gets, `requests` for readers and `snapshots` for
//! stores.
#![tactic(auto)]

mod caretaker;
mod clock;
mod connections;
mod cutter;
mod ending;
mod error;
mod join_right;
mod joiner;
mod place;
mod places;
mod pool;
mod receiving;
mod server_state;
mod shapes;
mod sharing;
mod socket;
mod sockets;
mod status;
mod tally;
mod tending;
mod worker;

pub use block_upkeep::Upkeep;
pub use connections::Connections;
pub use cutter::Schedule;
pub use error::ServeError;
pub use places::Workers;
pub use pool::{Listeners, Terms, serve, serve_watched};
pub use server_state::{Memory, Watch, report_opening};
pub use socket::{SocketReader, SocketWriter};
pub use sockets::Sockets;
pub use status::{Report, answer_client, asked_law, head_law};
pub use tally::Tally;
pub use worker::{Shift, work};
