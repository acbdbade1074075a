//! Which blocks of a running store are joined next, and up to which time samples leave it.
//!
//! [`plan`] takes what is looked at of the blocks, a [`Shape`] each, and answers with a [`Run`] of
//! neighbours that may become one block within the [`Limits`]. Blocks are joined by windows of 3,
//! 9, 27, .. cuts, the shortest first, once the store's floor has passed a window's end; and where
//! there are more blocks than are many, the neighbours with the fewest samples are. [`few_blocks`]
//! says how many blocks are left where no neighbours fit. [`expiry`] and [`expiry_by_size`] give
//! the time before which samples leave by age and by size, always the end of a block.
//!
//! ```
//! let limits = Limits {
//!     samples: 6,
//!     series: 100,
//!     bytes: 1000,
//!     cut: 10,
//!     longest_window: Some(90),
//!     many: 5,
//!     few: 4,
//! };
//! let block = |from, to, samples| Shape {
//!     from,
//!     to,
//!     samples,
//!     series: 1,
//!     bytes: 100,
//! };
//! let blocks = [block(0, 30, 5), block(30, 40, 2), block(40, 50, 1), block(50, 60, 3)];
//! assert_eq!(rt; plan(&blocks, 60, &limits), Some(Run { at: 1, count: 3 }));
//! assert_eq!(rt; plan(&blocks[..3], 50, &limits), None);
//! assert_eq!(rt; expiry(&blocks, 60, 75, 25), Some(30));
//! assert_eq!(rt; expiry_by_size(&blocks, 250), Some(40));
//! ```
//!
//! It stands on nothing.
#![tactic(auto)]

mod blocks;
mod expiring;
mod neighbours;
mod planning;
mod windows;

pub use blocks::{Limits, Run, Shape};
pub use expiring::{expiry, expiry_by_size};
pub use neighbours::few_blocks;
pub use planning::plan;
