//! Room in memory that the replies under way of several threads share.
//!
//! A [`Room`] has so many bytes. Each thread that makes replies is a [`Holder`] of it: before it
//! makes a reply it takes as many bytes as the reply is thought to need, and it gives them back
//! after the reply is written. A reply that is longer than the whole room is refused at once. Any
//! other waits until there is room for it, and is refused if there is none in time. What a refusal
//! means to a client is the caller's.
//!
//! [`Books`] are what is shared, under a lock: how much each holder holds, and how much is free.
//! Both together are the whole room whenever the lock is taken, so the holders never hold more than
//! that. What is given back is what was taken, and giving back twice gives nothing.
//!
//! ```
//! let room = Room::open(alloc, 1_000_000, Duration::from_secs(30)).ok()?;
//! let mut holder = Holder::of(rt, &room).ok()?;
//! assert!(rt; !holder.take(rt, 1_000_001));
//! assert!(rt; holder.take(rt, 1_000_000));
//! holder.give_back(rt);
//! ```
//!
//! It stands on nothing. No clause speaks of time, nor of who is served first: a long reply may be
//! refused because short ones took the room that was given back.
#![tactic(auto)]

mod books;
mod holder;
mod room;

pub use books::Books;
pub use holder::Holder;
pub use room::Room;
