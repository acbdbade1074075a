//! Cuts of time: how much is written goes into parts, one after another, each within its limits.
//!
//! A [`Slot`] tells how many samples begin in a stretch of time, how many are carried into it, and
//! the most that one series has. [`cut`] gives how many slots each part has: the parts laid end to
//! end are all slots, each is within the [`Limits`], and each as long as they let it be.
//!
//! ```
//! let slots = [Slot::new(3, 0, 3), Slot::new(2, 0, 2), Slot::new(4, 1, 4)];
//! let limits = Limits {
//!     samples: 5,
//!     series: 9,
//! };
//! let parts = cut(rt.alloc(), &slots, limits)?;
//! assert_eq!(rt; parts.as_slice(), [2usize, 1].as_slice());
//! ```
//!
//! It stands on nothing.
#![tactic(auto)]

mod cutting;
mod error;
mod slot;

pub use cutting::cut;
pub use error::CutError;
pub use slot::{Limits, Slot};
