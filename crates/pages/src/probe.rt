//! What a search knows of the order, and where it ends.

ghost use Rattle.std.specs.Prelude.{◌≡◌};

use crate::Entry;
use std::cmp::Ordering;

/// What is sought: how an entry compares with it.
pub trait Probe<E: Entry> {
    ghost use Rattle.std.specs.declared.cmp.Ordering.{Ordering};

    ghost order: { Self → E.Item → Ordering };

    /// How an entry lies to what is sought: `Less` where it stands before it.
    fn compare(&self, entry: &E) -> Ordering
        ensures { result ≡ order self.now (E.item entry.now) };
}

/// A place in sorted pages: before an entry, or after the last of a page. It is valid until the
/// next insertion.
#[derive(Clone, Copy, Debug)]
pub struct Spot {
    pub group: usize,
    pub page: usize,
    pub at: usize,
}
