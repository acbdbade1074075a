//! What a durable store keeps over all its crashes and starts, as laws.
//!
//! A store keeps each event in a journal before it acknowledges it; a journal begins with a head,
//! which says a world, and is now and then begun anew. [`every_run`] makes of this one store.
//! Whatever the schedule, a process answers from the world that one list of events makes of the
//! opening's world, after any number of crashes too, and a start finds it (`keeps`). This list has
//! all events that were acknowledged, in their order. Any other event in it was about to be
//! acknowledged when a write failed or the process died: its record was whole, and a start found
//! it. If there was no such record, the list is that of the acknowledged events (`exact`). The list
//! only grows (`grows`): at each moment it begins with the list of any moment before, so what was
//! seen once stays. The moves are a relation over what is on the disk and the process that answers
//! (`Leads`): they are those of the crates that keep a store.
//!
//! The clauses of a durable store say what events a crash leaves, at any moment of each call
//! (`StandsFor`). By [`finds_one`] a start finds a world in it, that of these events, if they were
//! accepted, each after those before it; and no other. What holds a store does not say that they
//! were; what publishes its events does. By [`found_again`] a folder which has what is left is one
//! of which `read_store` gives the store.
//!
//! It uses `head` for what a world, an event and its step are, `store_folder` for what a store is,
//! and `data_folder` for what a crash leaves.
#![tactic(auto)]

mod runs;
mod starts;

pub use runs::every_run;
pub use starts::{finds_one, found_again};
