//! The head of a store: the newest samples of each label set, in versions that share what they have
//! in common.
//!
//! A [`Snapshot`] is an unchanging list of blocks and one head, and stands for a world: a content,
//! the newest sample of each label set in order of creation, a floor and a number of blocks.
//! [`apply`] takes a snapshot one [`Event`] further: it is Ok exactly where the step of that event
//! accepts it on the snapshot's world, and the world of what it gives is the world after; else it
//! answers the step's refusal ([`CommitError`]). [`apply_rows`] does so for a batch whose samples
//! stand in rows ([`RowBatch`]). [`apply_sifted`] takes of such a batch what can be taken, and
//! tells what it leaves out ([`Left`]): no sample is refused for another one's sake. A head
//! ([`HeadView`]) is a part: its references are 1 to n in order of creation. A store is opened with
//! at most 63 blocks, and its floor is then at the greatest end of their ranges, so that no block
//! has a sample at or above it.
//!
//! A cut makes the head's samples before its time a block of their own, the last one, whose range
//! is from the floor up to that time; then the time is the floor, and the content is what it was.
//! Where no sample is before the time, there is no new block. A series stays exactly where its
//! newest committed sample is at the time or later, also where it has no sample left, and those
//! that stay are numbered again from 1, in their old order. `E5` where the time is not above the
//! floor; where a sample leaves the head, `E6` where there are 63 blocks, and then `E4` where the
//! index or the chunks of the new block would take more than 1 GiB.
//!
//! What is saved of a head ([`HeadView::saved`]) is its series; [`Snapshot::resumed`] makes a
//! snapshot of them again, with the floor and the blocks, or refuses (`J17`) what no snapshot has.
//! [`replay`] applies events one after another, and refuses (`J18`) the first that is none of such
//! a list.
//!
//! A join puts blocks in the place of more that hold the same ([`apply_joined`]): of the world only
//! the number of blocks changes. Its step is a step of the world as those of events are, but it is
//! no [`Event`]: nobody hands it over, and no journal has it.
//!
//! ```
//! let opening = Snapshot::opening(alloc, Vec::new(alloc)).ok()?;
//! let labels = LabelSet::of_sorted_texts(alloc, &[("__name__", "up")]).ok()?;
//! let samples = Vec::from_array(alloc, [(labels, Sample::new(10, 1))]).ok()?;
//! if !Event::is_batch(&samples) {
//!     return None;
//! }
//! let next = apply(alloc, &opening, &Event::batch(samples)).ok()?;
//! let head = next.head();
//! let found = head.samples_of(alloc, SeriesRef::new(1), 0, 30).ok()?;
//! assert_eq!(rt; found.len(), 1);
//! assert!(rt; opening.head().labels_of(SeriesRef::new(1)).is_none());
//! ```
//!
//! It stands on `labels` for label sets, contents and parts, on `postings` for the lists that a
//! part lends, on `block` for blocks, and on `block_writer` for the files of a cut's block. Events
//! and their rules follow Prometheus's TSDB: a head above a floor, and samples in order for each
//! series.
#![tactic(auto)]

mod adding;
mod cut;
mod deletion;
mod draft;
mod error;
mod event;
mod growing;
mod head;
mod index;
mod joined_blocks;
mod joining;
mod judge;
mod laws;
mod left;
mod list;
mod listed;
mod live;
mod looking;
mod order;
mod reference_list;
mod references;
mod replaying;
mod resume;
mod row_batch;
mod saved;
mod selection;
mod series;
mod sift;
mod snapshot;
mod source;
mod span;

pub use cut::MAX_BLOCKS;
pub use error::{AppendError, CommitError, RefusedEvent, ResumeError};
pub use event::{Event, EventView, MAX_BATCH};
pub use head::HeadView;
pub use joined_blocks::apply_joined;
pub use laws::{
    a_sift_is_one_event_or_none, again_changes_nothing, an_accepted_batch_is_kept,
    each_sample_is_told, parts_are_as_the_whole, what_is_held_may_come_first,
    what_is_kept_is_accepted, what_is_kept_is_held_later, what_is_kept_stands,
};
pub use left::{Left, Reason};
pub use list::HeadList;
pub use live::LiveList;
pub use postings::PartName;
pub use replaying::replay;
pub use row_batch::RowBatch;
pub use saved::SavedSeries;
pub use sift::{Sieve, apply_sifted};
pub use snapshot::{Snapshot, apply, apply_rows};
pub use span::Span;

/// The greatest number of series in a head.
pub const MAX_SERIES: usize = 1_048_576;

/// The greatest number of samples of one series in a head.
pub const MAX_SAMPLES: usize = 1_048_576;
