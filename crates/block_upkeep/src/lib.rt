//! What is done next for the blocks of a store that a server tends.
//!
//! [`Upkeep`] says how long samples are kept, and how many bytes blocks may have. Of what is looked
//! at of the blocks, a `Shape` each, it tells the next [`Task`] by which something leaves
//! ([`Upkeep::next_leaving`]), and else which blocks are joined next ([`Upkeep::next_join`]).
//!
//! ```
//! let upkeep = Upkeep {
//!     keep: Some(25),
//!     keep_bytes: None,
//!     join_samples: 33_554_432,
//! };
//! let block = |from, to, samples| Shape {
//!     from,
//!     to,
//!     samples,
//!     series: 1,
//!     bytes: 100,
//! };
//! let blocks = [block(0, 30, 5), block(30, 40, 2)];
//! assert_eq!(rt; upkeep.next_leaving(&blocks, 60, 75), Some(Task::Expire(30)));
//! let emptied = [block(0, 30, 0), block(30, 40, 2)];
//! let gone = Stretch { at: 0, count: 1 };
//! assert_eq!(rt; upkeep.next_leaving(&emptied, 60, 75), Some(Task::Remove(gone)));
//! ```
//!
//! It stands on `join_schedule`.
#![tactic(auto)]

mod emptied;
mod leaving;
mod limits;

pub use emptied::Stretch;
pub use leaving::Task;
pub use limits::Upkeep;
