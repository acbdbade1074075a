//! One who holds bytes of a room.

ghost use Rattle.std.specs.Prelude.{◌≡◌, ◌<◌, IfOk, IsTrue, IsFalse, true, false};
ghost use Rattle.std.specs.Arc.{arc_value};
ghost use Rattle.reply_room.specs.Holding.{whole_of, holds};

use crate::room::Room;
use std::alloc::AllocError;
use std::sync::{Arc, Wait};
use std::time::Clock;

/// One who holds bytes of a room.
#[derive(Drop)]
pub struct Holder {
    room: Arc<Room>,
    number: usize,
    holds: bool,
}

impl Holder {
    /// A holder of this room, who holds nothing yet.
    pub fn of(rt: &impl Wait, room: &Arc<Room>) -> Result<Holder, AllocError>
        ensures whole { IfOk result (λ holder. whole_of holder ≡ (arc_value room.now).whole) }
        ensures none { IfOk result (λ holder. holds holder ≡ false) }
    {
        let room = Arc::try_clone(room)?;
        let number = room.admit(rt)?;
        Ok(Holder {
            room,
            number,
            holds: false,
        })
    }

    /// How many bytes the room has.
    pub fn whole(&self) -> u64
        ensures { result ≡ whole_of self.now }
    {
        self.room.whole()
    }

    /// Takes so many bytes of the room, and says whether they were taken. If the whole room has
    /// fewer, it is refused at once. If too few are free, it waits for as long as the room says,
    /// and is refused after that. A refusal takes nothing.
    pub fn take<R: Wait + Clock>(&mut self, rt: &R, bytes: u64) -> bool
        ensures taken { IsTrue result → holds self.new ≡ true }
        ensures refused { IsFalse result → self.new ≡ self.old }
        ensures longer { whole_of self.old < bytes → IsFalse result }
        ensures same { whole_of self.new ≡ whole_of self.old }
    {
        if !self.room.take(rt, self.number, bytes) {
            return false;
        }
        self.holds = true;
        true
    }

    /// Gives back all that it holds. Who waits for room is told.
    pub fn give_back(&mut self, rt: &impl Wait)
        ensures none { holds self.new ≡ false }
        ensures same { whole_of self.new ≡ whole_of self.old }
    {
        if self.holds {
            self.room.give_back(rt, self.number);
            self.holds = false;
        }
    }
}
