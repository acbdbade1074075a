//! Snapshots of a store that many threads read without waiting, while others publish events.
//!
//! [`Store::open`] gives one [`Committer`], and as many [`Pass`]es and [`Seat`]s as are asked for.
//! A committer publishes a batch, which an [`Appender`] gathers or a [`RowBatch`] holds, a
//! deletion, a cut, or a join of blocks ([`JoinedRun`]) under the number of a seat: the published
//! version changes in one step, from one snapshot to the next. It answers a [`Receipt`], which
//! knows all events up to that one. A pass takes the snapshot that is published, without a lock; it
//! begins with all that the pass had seen, and with the list of each receipt that the pass learnt
//! before. So what one thread committed is seen by each thread that its receipt was passed on to.
//!
//! A version's list of events is not stored: the rule of the published versions says that the world
//! of its snapshot is the replay of that list from the opening's world. An event is tried under the
//! lock of a [`Tip`], after all that were tried before it, and waits. One thread at a time takes
//! all that waits, keeps it in the [`Book`] by one write and one sync ([`Keeper`]), and then
//! publishes it, while the others try theirs; so many small events share a sync. If it is not kept,
//! it is given up, with what was tried meanwhile. A join is tried alone, and kept by saving what
//! the store then has. A store in memory alone has [`NoKeeper`]; [`Store::resume`] opens one over
//! what a start found. Each type carries the name of its store ([`Naming`]), so a pass, a receipt
//! and a seat of another store have other types. The name says which events were asked for, too,
//! and what a keeper holds for good; nothing else is published. Under [`Open`] anything but joins
//! may be asked for, so the blocks that a store was opened with stay first in it (`blocks` of
//! [`Pass::snapshot`]); under [`Joining`] anything.
//!
//! ```
//! let opened = store.open::<J, &R>(rt, alloc, Vec::new(alloc), 1, 1);
//! let (committer, mut passes, mut seats) = opened.ok()?;
//! let (mut pass, mut seat) = passes.pop().zip(seats.pop())?;
//! let labels = LabelSet::of_sorted_texts(alloc, &[("__name__", "up")]).ok()?;
//! let mut appender = Appender::new(alloc);
//! appender.append(labels, Sample::new(10, 1)).ok()?;
//! let receipt = committer.commit(rt, &mut seat, appender).ok()?;
//! pass.learn(&receipt);
//! let snapshot = pass.snapshot().ok()?;
//! let head = snapshot.head();
//! let found = head.samples_of(alloc, SeriesRef::new(1), 0, 30).ok()?;
//! assert_eq!(rt; (pass.events(), found.len()), (1, 1));
//! ```
//!
//! It stands on `head` for snapshots and events, on `keeper` and `event_text` for what is kept of
//! them, on `block` and `labels`, and on `left_right` and `logbook` for versions that readers enter
//! without waiting and for the one history of a store.
#![tactic(auto)]

mod appender;
mod book;
mod change;
mod committer;
mod entry;
mod error;
mod group;
mod joined_run;
mod keeping;
mod log;
mod naming;
mod pass;
mod plate;
mod prefix;
mod publishing;
mod receipt;
mod refused;
mod replayed_state;
mod seat;
mod sift;
mod sifted;
mod store;
mod tally;
mod tip;
mod version;
mod waiting;

pub use appender::Appender;
pub use book::Book;
pub use change::{AsEvent, Change};
pub use committer::Committer;
pub use entry::{Entry, Mark};
pub use error::{JoinError, OpenError, SnapshotError};
pub use head::RowBatch;
pub use joined_run::JoinedRun;
pub use keeper::{Keeper, NoKeeper};
pub use naming::{Joining, JoiningNaming, Naming, Open, OpenNaming};
pub use pass::Pass;
pub use receipt::Receipt;
pub use refused::Refused;
pub use seat::Seat;
pub use sifted::Sifted;
pub use store::{MAX_HANDLES, Store};
pub use tip::Tip;
