//! Who comes in, and how many are inside.

use std::sync::atomic::{AtomicBool, AtomicU64, Ordering};

/// What all places of a room share: how many connections may still come, and how many are inside.
#[derive(Drop)]
pub struct Gate {
    places: u64,
    most: u64,
    asked: AtomicU64,
    inside: AtomicU64,
    shut: AtomicBool,
}

impl Gate {
    /// The gate of so many places, through which at most so many connections come.
    pub fn new(places: u32, most: u64) -> Gate {
        Gate {
            places: places as u64,
            most,
            asked: AtomicU64::new(0),
            inside: AtomicU64::new(0),
            shut: AtomicBool::new(false),
        }
    }

    /// No connection comes in any more. A thread that waits in an accept sees it with the next
    /// connection, which it closes at once: whoever shuts the gate connects once for each place.
    pub fn shut(&self) {
        self.shut.store(true, Ordering::SeqCst);
    }

    /// How many connections are inside.
    pub fn inside(&self) -> u64 {
        self.inside.load(Ordering::SeqCst)
    }

    pub(crate) fn is_shut(&self) -> bool {
        self.shut.load(Ordering::SeqCst)
    }

    /// Whether one more may come. Each call that is answered by true counts as one that came.
    pub(crate) fn admits(&self) -> bool {
        !self.is_shut() && self.asked.fetch_add(1, Ordering::SeqCst) < self.most
    }

    /// One that was admitted did not come.
    pub(crate) fn miss(&self) {
        self.asked.fetch_sub(1, Ordering::SeqCst);
    }

    pub(crate) fn enter(&self) {
        self.inside.fetch_add(1, Ordering::SeqCst);
    }

    pub(crate) fn leave(&self) {
        self.inside.fetch_sub(1, Ordering::SeqCst);
    }

    /// Whether all places are taken.
    pub(crate) fn is_full(&self) -> bool {
        self.inside() >= self.places
    }
}
