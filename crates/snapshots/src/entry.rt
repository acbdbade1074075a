//! What the list of a store's published events is made of.

use head::Event;

/// An event, with the number of the seat that published it.
#[derive(Drop)]
pub struct Entry {
    /// What was handed over.
    pub event: Event,
    /// The number of the seat, from 0.
    pub seat: usize,
}

/// What the log of a store says. No value of it is made: clauses speak of it.
#[derive(Drop)]
pub enum Mark {
    /// The event was accepted after all that was tried before it, and waits.
    Try(Entry),
    /// What waits is to be kept and published together.
    Seal,
    /// What was sealed is kept for good, and is published next.
    Done,
    /// All that waits is given up, sealed or not.
    Void,
}

/// A change that is to be published, with the number of the seat: clauses see it as an entry.
#[derive(Drop)]
pub struct Tried<'a, C> {
    pub change: &'a C,
    pub seat: usize,
}
