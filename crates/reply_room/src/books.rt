//! Who holds how much of a room.

ghost use Rattle.std.specs.Prelude.{◌≡◌, ◌+◌, ◌≤◌, [], ◌∷◌, ◌++◌, get_or, length, set, IfOk};
ghost use Rattle.std.specs.Prelude.{OnOk, OnErr, IsTrue, IsFalse, nat_le};
ghost use Rattle.std.specs.List.{sum};

use std::alloc::{AllocError, Global};

/// How many bytes each holder of a room holds, and how many are free: together they are the whole.
#[derive(Drop)]
pub struct Books {
    whole: u64,
    free: u64,
    held: Vec<u64>,
    ghost adds_up: { free + sum held.items ≡ whole },
}

impl Books {
    /// The books of a room with so many bytes, of which nobody is a holder yet.
    pub fn open(alloc: Global, whole: u64) -> Books
        ensures whole { result.whole ≡ whole }
        ensures held { result.held.items ≡ [] }
    {
        Books {
            whole,
            free: whole,
            held: Vec::new(alloc),
        }
    }

    /// One holder more, who holds nothing: its number.
    pub fn admit(&mut self) -> Result<usize, AllocError>
        ensures number { IfOk result (λ number. number ≡ length self.old.held.items) }
        ensures held { OnOk result (self.new.held.items ≡ self.old.held.items ++ 0 ∷ []) }
        ensures kept { OnErr result (self.new.held.items ≡ self.old.held.items) }
        ensures whole { self.new.whole ≡ self.old.whole }
    {
        let number = self.held.len();
        self.held.push(0)?;
        Ok(number)
    }

    /// Whether so many bytes are free.
    pub fn has(&self, bytes: u64) -> bool
        ensures { result ≡ nat_le bytes self.now.free }
    {
        bytes <= self.free
    }

    /// How many bytes all holders hold together: no more than the whole.
    pub fn held(&self) -> u64
        ensures sum { result ≡ sum self.now.held.items }
        ensures most { result ≤ self.now.whole }
    {
        self.whole - self.free
    }

    /// Takes so many bytes for a holder, if they are free. If it is refused, nothing is taken.
    pub fn take(&mut self, number: usize, bytes: u64) -> bool
        ensures taken { IsTrue result → self.new.held.items
            ≡ set self.old.held.items number (get_or self.old.held.items number 0 + bytes) }
        ensures room { IsTrue result → sum self.old.held.items + bytes ≤ self.old.whole }
        ensures refused { IsFalse result → self.new.held.items ≡ self.old.held.items }
        ensures whole { self.new.whole ≡ self.old.whole }
    {
        let Books {
            whole: _,
            free,
            held,
        } = self;
        if *free < bytes || held.len() <= number {
            return false;
        }
        held[number] += bytes;
        *free -= bytes;
        true
    }

    /// Gives back all that a holder holds.
    pub fn give_back(&mut self, number: usize)
        ensures given { self.new.held.items ≡ set self.old.held.items number 0 }
        ensures whole { self.new.whole ≡ self.old.whole }
    {
        let Books {
            whole: _,
            free,
            held,
        } = self;
        if held.len() <= number {
            return;
        }
        *free += held[number];
        held[number] = 0;
    }
}
