//! A room, and who waits for a part of it.

ghost use Rattle.std.specs.Prelude.{◌≡◌, ◌<◌, IfOk, IsFalse};
ghost use Rattle.std.specs.Arc.{arc_value};

use crate::books::Books;
use std::alloc::{AllocError, Global};
use std::sync::{Arc, Condvar, Mutex, Wait};
use std::time::{Clock, Duration};

/// Room for so many bytes, which holders share.
#[derive(Drop)]
pub struct Room {
    whole: u64,
    patience: Duration,
    books: Mutex<Books>,
    /// Told when a holder has given bytes back.
    freed: Condvar,
}

impl Room {
    /// Room for so many bytes. Who finds too little of it free waits for at most so long.
    pub fn open(alloc: Global, whole: u64, patience: Duration) -> Result<Arc<Room>, AllocError>
        ensures { IfOk result (λ room. (arc_value room).whole ≡ whole) }
    {
        let room = Room {
            whole,
            patience,
            books: Mutex::new(Books::open(alloc, whole)),
            freed: Condvar::new(),
        };
        Ok(Arc::new(alloc, room)?)
    }

    /// How many bytes it has.
    pub fn whole(&self) -> u64
        ensures { result ≡ self.now.whole }
    {
        self.whole
    }

    pub(crate) fn admit(&self, rt: &impl Wait) -> Result<usize, AllocError> {
        self.books.lock(rt).admit()
    }

    /// Waits until so many bytes are free, but not for longer than the patience, and takes them.
    fn wait_and_take<R: Wait + Clock>(&self, rt: &R, number: usize, bytes: u64) -> bool {
        let books = self.books.lock(rt);
        let (mut books, _) = self
            .freed
            .wait_timeout_while(rt, books, self.patience, |books| !books.has(bytes));
        books.take(number, bytes)
    }

    pub(crate) fn take<R: Wait + Clock>(&self, rt: &R, number: usize, bytes: u64) -> bool
        ensures { self.now.whole < bytes → IsFalse result }
    {
        if self.whole < bytes {
            return false;
        }
        self.wait_and_take(rt, number, bytes)
    }

    pub(crate) fn give_back(&self, rt: &impl Wait, number: usize) {
        self.books.lock(rt).give_back(number);
        self.freed.notify_all();
    }
}
