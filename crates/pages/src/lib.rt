//! Lists in pages that versions share: a version that changes one entry copies one page of each
//! level, and no more.
//!
//! [`PagedList`] is a list by place, which contracts see as the plain list: `get` and `leaf_from`
//! read it, `set` and `push` change it. [`SortedPages`] is a list in an order that its caller
//! knows: `find` takes a [`Probe`], and `at`, `insert` and `set` take the [`Spot`] that it found. A
//! page holds values of an [`Entry`]: a number, or a pointer. A clone of a list copies one pointer,
//! and neither of the two sees what is written to the other. A version that is dropped gives up the
//! pages that it alone held.
//!
//! ```
//! let mut list = PagedList::<u32, 16>::new(alloc)?;
//! list.push(alloc, 10)?;
//! list.push(alloc, 20)?;
//! let old = list.try_clone()?;
//! assert!(rt; list.len() > 1);
//! list.set(0, 11)?;
//! assert_eq!(rt; (list.get(0).copied(), old.get(0).copied()), (Some(11), Some(10)));
//! ```
//!
//! It stands on std alone. Persistent vectors of wide pages are known from Bagwell's tries and
//! Clojure; the sorted pages are a B-tree of three levels.
#![tactic(auto)]

mod change;
mod edit;
mod entry;
mod list;
mod page;
mod place;
mod probe;
mod rewrite;
mod search;
mod sorted;
mod walk;

pub use change::Change;
pub use entry::Entry;
pub use list::PagedList;
pub use probe::{Probe, Spot};
pub use rewrite::WholeChange;
pub use sorted::SortedPages;
