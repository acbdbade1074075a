//! Marks of a store: how far its journal goes.

ghost use Rattle.std.specs.Prelude.{◌≡◌, IfOk, MatchOption, string_bytes};
ghost use Rattle.store_command.specs.Marks.{IsMarkText, is_held, mark_at, mark_text, since_of};
ghost use Rattle.store_command.specs.Marks.{first_of};

use hex::{FromHex, encode};
use std::alloc::{AllocError, Global};

/// So many events behind a head, which its checksum tells from another.
#[derive(Clone, Copy, Debug, PartialEq, Eq, Drop)]
pub struct Mark {
    /// The checksum, its highest byte first.
    pub head: [u8; 4],
    pub count: usize,
}

/// From where on a state is sought.
#[derive(Clone, Copy, Debug, PartialEq, Eq, Drop)]
pub enum Since {
    /// From the head on: there is no mark.
    Anywhere,
    /// From so many events on.
    Held(usize),
    /// From the head on: this mark is of a journal that is gone.
    Rolled(Mark),
}

impl Mark {
    /// So many events behind the head with this checksum.
    pub fn at(head: u32, count: usize) -> Mark
        ensures { result ≡ mark_at head count }
    {
        Mark {
            head: head.to_be_bytes(),
            count,
        }
    }

    /// The mark that a text says, as `5d3163ef:1300`.
    pub fn read(text: &str) -> Option<Mark>
        ensures { MatchOption result ((mark : _) → IsMarkText text.now mark → ⊥)
            (IsMarkText text.now) }
    {
        let (head, count) = text.split_once(':')?;
        let head = <[u8; 4] as FromHex>::from_hex(head).ok()?;
        let count = count.parse().ok()?;
        Some(Mark { head, count })
    }

    /// The text that says the mark.
    pub fn text(&self, alloc: Global) -> Result<String, AllocError>
        ensures { IfOk result (λ text. string_bytes text ≡ mark_text self.now) }
    {
        let head = encode(alloc, self.head)?;
        let count = self.count;
        format!(in alloc; "{head}:{count}")
    }

    /// Whether a journal whose head has this checksum, with so many events behind it, goes as far.
    fn is_held(&self, head: u32, events: usize) -> bool
        ensures { result ≡ is_held self.now head events }
    {
        self.head == head.to_be_bytes() && self.count <= events
    }
}

impl Since {
    /// From where on a state is sought in a journal whose head has this checksum, with so many
    /// events behind it, if this mark is given.
    pub fn of(mark: Option<Mark>, head: u32, events: usize) -> Since
        ensures { result ≡ since_of mark head events }
    {
        match mark {
            None => Since::Anywhere,
            Some(mark) => {
                if mark.is_held(head, events) {
                    Since::Held(mark.count)
                } else {
                    Since::Rolled(mark)
                }
            }
        }
    }

    /// Behind how many events the first state is that may be found.
    pub fn first(self) -> usize
        ensures { result ≡ first_of self }
    {
        match self {
            Since::Anywhere | Since::Rolled(_) => 0,
            Since::Held(count) => count,
        }
    }
}
