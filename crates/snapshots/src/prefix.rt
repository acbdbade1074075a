//! Prefixes of the log of a store.

ghost use Rattle.std.specs.Prelude.{◌≡◌, ◌+◌, ◌==◌, ◌<◌, ◌≤◌, ◌^◌, ◌++◌, ◌∷◌, [], length};
ghost use Rattle.std.specs.Prelude.{MatchBool, IsTrue, ◌↔◌, None};
ghost use mathlib.Core.List.{IsPrefix};
ghost use Rattle.snapshots.specs.Asking.{AreAsked};
ghost use Rattle.snapshots.specs.Keeping.{AreHeld};
ghost use Rattle.snapshots.specs.Marks.{accepted, list_of, tried_of, voids_of};
ghost use Rattle.snapshots.specs.Seats.{count_of};
ghost use Rattle.snapshots.specs.Tallies.{IsTally};
ghost use Rattle.snapshots.specs.Tries.{entry_of};
ghost use Rattle.snapshots.specs.declared.entry.Mark.TheVariants.{Try, Seal, Done, Void};

use crate::change::AsEvent;
use crate::entry::{Mark, Tried};
use crate::log::{Add, Ends, Law, LogEnd, Nothing, Seals, Tries, Voids};
use crate::naming::Naming;
use crate::tally::Tally;
use keeper::Keeper;
use logbook::{Offer, Plain, Seen};
use std::marker::{Model, PhantomData};
use std::sync::Wait;

/// So many marks a log never has.
const ROOM: u64 = 1 << 62;

/// A prefix of the log that was seen, with its numbers. Contracts see it as its marks. Each event
/// that it lists, or that waits in it, was asked for.
#[derive(Drop)]
pub struct LogPrefix<J: Naming> {
    marks: u64,
    tally: Tally,
    seen: Seen<Mark, u64, Law>,
    of: PhantomData<J>,
}

impl<J: Naming> Model for LogPrefix<J> {
    ghost use Rattle.std.specs.Prelude.{◌≡◌, List, length};
    ghost use Rattle.snapshots.specs.Asking.{AreAsked};
    ghost use Rattle.snapshots.specs.Marks.{tried_of};
    ghost use Rattle.snapshots.specs.Tallies.{IsTally};
    ghost use Rattle.snapshots.specs.declared.entry.Mark.{Mark};

    ghost Value = { List Mark };

    ghost view = { λ p. p.seen.log };

    ghost invariant = { λ p. (p.marks ≡ length p.seen.log) × (p.seen.book ≡ J.book)
        × IsTally p.tally p.seen.log × AreAsked J.asked (tried_of p.seen.log) };
}

impl<J: Naming> LogPrefix<J> {
    pub fn of(seen: Seen<Mark, u64, Law>) -> LogPrefix<J>
        requires { (seen.log ≡ []) × (seen.book ≡ J.book) }
        ensures { result ≡ [] }
    {
        LogPrefix {
            marks: 0,
            tally: Tally {
                accepted: 0,
                listed: 0,
                tried: 0,
                voids: 0,
            },
            seen,
            of: PhantomData,
        }
    }

    /// The prefix that was seen, of which these are the numbers.
    pub fn again(marks: u64, tally: Tally, seen: Seen<Mark, u64, Law>) -> LogPrefix<J>
        requires numbers { (marks ≡ length seen.log) × IsTally tally seen.log }
        requires book { seen.book ≡ J.book }
        requires asked { AreAsked J.asked (tried_of seen.log) }
        ensures { result ≡ seen.log }
    {
        LogPrefix {
            marks,
            tally,
            seen,
            of: PhantomData,
        }
    }

    /// Its numbers.
    pub fn tally(&self) -> Tally
        ensures { IsTally result self.now }
    {
        self.tally
    }

    /// How many marks it has.
    pub fn len(&self) -> u64
        ensures { result ≡ length self.now }
    {
        self.marks
    }

    /// Whether another mark has room. It always has: as many marks are never reached.
    pub fn has_room(&self) -> bool
        ensures { IsTrue result ↔ (length self.now < 2 ^ 62) }
    {
        self.marks < ROOM
    }

    /// Whether two marks more have room. They always have.
    pub fn has_room_for_two(&self) -> bool
        ensures { IsTrue result ↔ (length self.now + 1 < 2 ^ 62) }
    {
        self.marks < ROOM - 1
    }

    /// How many events it accepted.
    pub fn accepted(&self) -> u64
        ensures { result ≡ length (accepted self.now) }
    {
        self.tally.accepted
    }

    /// How many events it accepted, and those that wait.
    pub fn tried(&self) -> u64
        ensures { result ≡ length (tried_of self.now) }
    {
        self.tally.tried
    }

    /// Whether nothing waits: then what was tried is accepted.
    pub fn is_settled(&self) -> bool
        ensures settled { MatchBool result (accepted self.now ≡ tried_of self.now) (Unit {0}) }
        ensures exact { IsTrue result
            ↔ (length (tried_of self.now) ≡ length (accepted self.now)) }
    {
        self.tally.tried == self.tally.accepted
    }

    /// Whether nothing is sealed: then what it lists is accepted.
    pub fn is_unsealed(&self) -> bool
        ensures unsealed { MatchBool result (accepted self.now ≡ list_of self.now) (Unit {0}) }
        ensures exact { IsTrue result
            ↔ (length (list_of self.now) ≡ length (accepted self.now)) }
    {
        self.tally.listed == self.tally.accepted
    }

    /// The same prefix.
    pub fn share(&self) -> LogPrefix<J>
        ensures same { result ≡ self.now }
        ensures asked { AreAsked J.asked (tried_of result) }
    {
        LogPrefix {
            marks: self.marks,
            tally: self.tally,
            seen: self.seen.again(),
            of: PhantomData,
        }
    }

    /// What was seen.
    pub fn share_seen(&self) -> Seen<Mark, u64, Law>
        ensures { (result.log ≡ self.now) × (result.book ≡ J.book)
            × AreAsked J.asked (tried_of result.log) }
    {
        self.seen.again()
    }

    /// Whether this is longer by one mark at most than a log of that length: then what this
    /// accepted is a prefix of the list of that log.
    pub fn begins(&self, marks: u64, seen: &Seen<Mark, u64, Law>) -> bool
        requires { (seen.now.book ≡ J.book) × (marks ≡ length seen.now.log) }
        ensures begins { MatchBool result
            (IsPrefix (accepted self.now) (list_of seen.now.log)) (Unit {0}) }
        ensures near { IsTrue result ↔ (length self.now ≤ marks + 1) }
    {
        // For the proof alone: both are prefixes of one log.
        let mut both = self.seen.again();
        both.learn(seen);
        self.marks.saturating_sub(marks) <= 1
    }

    /// Whether the other is not longer: then it is a prefix of this one.
    pub fn begins_with(&self, other: &LogPrefix<J>) -> bool
        ensures begins { MatchBool result (IsPrefix other.now self.now) (Unit {0}) }
        ensures shorter { IsTrue result ↔ (length other.now ≤ length self.now) }
        // Each event that this tried was asked for.
        ensures asked { AreAsked J.asked (tried_of self.now) }
    {
        // For the proof alone: both are prefixes of one log.
        let mut both = self.seen.again();
        both.learn(&other.seen);
        other.marks <= self.marks
    }

    /// Whether this goes on from the other, and has accepted all that the other tried.
    pub fn accepts(&self, other: &LogPrefix<J>) -> bool
        ensures accepts { MatchBool result
            (IsPrefix (tried_of other.now) (accepted self.now)) (Unit {0}) }
        ensures exact { IsTrue result ↔ ((length other.now ≤ length self.now)
            × (voids_of other.now ≡ voids_of self.now)
            × (length (tried_of other.now) ≤ length (accepted self.now))) }
    {
        if !self.begins_with(other) {
            return false;
        }
        if other.tally.voids != self.tally.voids {
            return false;
        }
        other.tally.tried <= self.tally.accepted
    }

    /// Whether this goes on from the other, and lists just what the other tried.
    pub fn lists(&self, other: &LogPrefix<J>) -> bool
        ensures lists { MatchBool result (list_of self.now ≡ tried_of other.now) (Unit {0}) }
        ensures exact { IsTrue result ↔ ((length other.now ≤ length self.now)
            × (voids_of other.now ≡ voids_of self.now)
            × (length (list_of self.now) ≡ length (tried_of other.now))) }
    {
        if !self.begins_with(other) {
            return false;
        }
        if other.tally.voids != self.tally.voids {
            return false;
        }
        self.tally.listed == other.tally.tried
    }

    /// Whether this goes on from the other, and has accepted just as much.
    pub fn accepts_as(&self, other: &LogPrefix<J>) -> bool
        ensures accepts { MatchBool result (accepted other.now ≡ accepted self.now) (Unit {0}) }
        ensures exact { IsTrue result ↔ ((length other.now ≤ length self.now)
            × (length (accepted other.now) ≡ length (accepted self.now))) }
        ensures asked { AreAsked J.asked (tried_of self.now) }
    {
        if !self.begins_with(other) {
            return false;
        }
        other.tally.accepted == self.tally.accepted
    }

    /// The longer of two prefixes, of which the other is a prefix.
    pub fn longer(&self, other: &LogPrefix<J>) -> LogPrefix<J>
        ensures this { IsPrefix self.now result }
        ensures that { IsPrefix other.now result }
    {
        // For the proof alone: both are prefixes of one log.
        let mut both = self.seen.again();
        both.learn(&other.seen);
        if self.marks < other.marks {
            other.share()
        } else {
            self.share()
        }
    }

    /// Adds a mark to all that was seen, or changes nothing.
    fn adds<X, M: Plain<X, Mark, u64>>(&mut self, end: &LogEnd<J>, about: &X, tally: Tally) -> bool
        requires room { length self.old < 2 ^ 62 }
        requires plain { M.state about.now ≡ None }
        requires tally { IsTally tally (self.old ++ M.ask about.now ∷ []) }
        requires asked { AreAsked J.asked (tried_of (self.old ++ M.ask about.now ∷ [])) }
        ensures { MatchBool result (self.new ≡ self.old ++ M.ask about.now ∷ [])
            (self.new ≡ self.old) }
    {
        let mut seen = self.seen.again();
        let mut offer: Offer<Mark, u64, Law, Nothing> = seen.plain::<Nothing, X, M>(about);
        let mut pen = seen.no_pen();
        let marks = self.marks;
        let found = end
            .word
            .compare_exchange::<Add, Nothing>(marks, marks + 1, &mut seen, &mut offer, &mut pen);
        if found != marks {
            return false;
        }
        *self = LogPrefix {
            marks: marks + 1,
            tally,
            seen,
            of: PhantomData,
        };
        true
    }

    /// Adds a mark to all that was seen. It tries until the log is not longer than that.
    fn add<X, M: Plain<X, Mark, u64>, R: Wait>(
        &mut self,
        rt: &R,
        end: &LogEnd<J>,
        about: &X,
        tally: Tally,
    )
        requires room { length self.old < 2 ^ 62 }
        requires plain { M.state about.now ≡ None }
        requires tally { IsTally tally (self.old ++ M.ask about.now ∷ []) }
        requires asked { AreAsked J.asked (tried_of (self.old ++ M.ask about.now ∷ [])) }
        ensures { self.new ≡ self.old ++ M.ask about.now ∷ [] }
    {
        for _ in rt.forever() {
            if self.adds::<X, M>(end, about, tally) {
                return;
            }
        }
        unreachable!()
    }

    /// Adds that an event was tried, which was asked for.
    pub fn add_try<C: AsEvent, R: Wait>(&mut self, rt: &R, end: &LogEnd<J>, tried: &Tried<'_, C>)
        requires room { length self.old < 2 ^ 62 }
        requires asked { J.asked (C.event tried.now.change.now) tried.now.seat
            (count_of tried.now.seat (tried_of self.old)) }
        ensures { self.new ≡ self.old ++ Try (entry_of C.event tried.now) ∷ [] }
    {
        let tally = Tally {
            accepted: self.tally.accepted,
            listed: self.tally.listed,
            tried: self.tally.tried + 1,
            voids: self.tally.voids,
        };
        self.add::<Tried<'_, C>, Tries, R>(rt, end, tried, tally);
    }

    /// Adds that what waits is sealed.
    pub fn add_seal<R: Wait>(&mut self, rt: &R, end: &LogEnd<J>)
        requires { length self.old < 2 ^ 62 }
        ensures { self.new ≡ self.old ++ Seal ∷ [] }
    {
        let tally = Tally {
            accepted: self.tally.accepted,
            listed: self.tally.tried,
            tried: self.tally.tried,
            voids: self.tally.voids,
        };
        self.add::<(), Seals, R>(rt, end, &(), tally);
    }

    /// Adds that what was sealed is done: a keeper of the store's kind holds it for good.
    pub fn add_done<K: Keeper, R: Wait>(&mut self, rt: &R, end: &LogEnd<J>)
        requires room { length self.old < 2 ^ 62 }
        requires held { AreHeld K.holds K.stays J.before (list_of self.old) }
        ensures { self.new ≡ self.old ++ Done ∷ [] }
    {
        let tally = Tally {
            accepted: self.tally.listed,
            listed: self.tally.listed,
            tried: self.tally.tried,
            voids: self.tally.voids,
        };
        self.add::<(), Ends, R>(rt, end, &(), tally);
    }

    /// Adds that what waits is given up.
    pub fn add_void<R: Wait>(&mut self, rt: &R, end: &LogEnd<J>)
        requires { length self.old < 2 ^ 62 }
        ensures { self.new ≡ self.old ++ Void ∷ [] }
    {
        let tally = Tally {
            accepted: self.tally.accepted,
            listed: self.tally.accepted,
            tried: self.tally.accepted,
            voids: self.tally.voids + 1,
        };
        self.add::<(), Voids, R>(rt, end, &(), tally);
    }
}
