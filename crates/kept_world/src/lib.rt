//! A kept store, event by event: the states that an auditor finds for itself.
//!
//! A [`World`] is the head and the blocks after some events of a journal. [`World::start`] is what
//! a head record says, with the blocks that it names; [`World::step`] is one event more, accepted
//! exactly where the store accepts it. Each series and each sample of the head carries the number
//! of the event that brought it, so [`World::head_at`] gives the head after any batch of the
//! present run, by a filter. [`World::replay`] takes events in turn.
//!
//! ```
//! let world = World::start(alloc, 0, Vec::new(alloc), Vec::new(alloc)).ok()??;
//! let world = world.step(alloc, &Change::Cut(10)).ok()??;
//! assert_eq!(rt; world.number(), 1);
//! assert!(rt; matches!(world.step(alloc, &Change::Cut(10)), Ok(None)));
//! ```
//!
//! `specs/States.antt` has the states and the steps, `specs/Births.antt` what came by an event. The
//! crate stands on `labels` and `matchers`, on `block_walk` for the blocks and on the types of
//! `kept_walk`. It shares no step of an event with the store that it judges.
#![tactic(auto)]

mod block;
mod choice;
mod head;
mod laws;
mod numbering;
mod places;
mod series;
mod world;

pub use laws::{heads_are_filters, heads_only_grow, places_grow};
pub use world::{Replay, World};
