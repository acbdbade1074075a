//! An empty store with one worker.

ghost use Rattle.std.specs.Prelude.{◌≡◌, []};
ghost use Rattle.head.specs.Blocks.{opening_of};

use snapshots::{Committer, Naming, OpenNaming, Pass, Seat, Store};
use std::alloc::Global;
use std::sync::Wait;

/// A committer of an empty store, with the pass and the seat of one worker.
#[derive(Drop)]
pub struct EmptyStore<J: Naming, R: Wait + Drop> {
    pub committer: Committer<J, R>,
    pub pass: Pass<J>,
    pub seat: Seat<J>,
}

/// The last of a list.
pub fn last<T: Drop>(mut list: Vec<T>) -> Option<T> {
    list.pop()
}

pub fn open_empty<J: OpenNaming, R: Wait + Drop>(
    rt: R,
    alloc: Global,
    store: Store,
) -> Option<EmptyStore<J, R>>
    requires book { store.seen.book ≡ J.book }
    requires opening { opening_of [] ≡ J.opening }
{
    let opened = store.open::<J, R>(rt, alloc, Vec::new(alloc), 1, 1);
    let (committer, passes, seats) = opened.ok()?;
    let (pass, seat) = last(passes).zip(last(seats))?;
    Some(EmptyStore {
        committer,
        pass,
        seat,
    })
}
