//! Where events are kept before they are published.

ghost use Rattle.std.specs.Prelude.{◌≡◌, ◌⊎◌, ◌++◌, ℕ, Bool, List, true, false, Err, OnOk};
ghost use Rattle.std.specs.Prelude.{◌≤◌, None, OnErr, IfOk, IfSome, IsErrOf, Ok, length};
ghost use Rattle.head.specs.Heads.{SnapshotParts, world_of};
ghost use Rattle.head.specs.Worlds.{Event as Change, World};
ghost use Rattle.keeper.specs.Finding.{AreAll, AreAllAndMore, AreAllAndSome, IsOfAll};
ghost use Rattle.keeper.specs.Finding.{LeavesEvents, StandsForSome};
ghost use Rattle.keeper.specs.Together.{SpellTogether};

use crate::error::KeepError;
use head::Snapshot;
use std::alloc::Global;

/// Keeps events for good, each before it is published. It is handed their records, which can be
/// made before a lock is taken.
///
/// What a crash leaves stands for events ([`Keeper::stands`]). A start that finds it makes of it
/// the world of these, if they are accepted, each after those before it (`finds`), and no other
/// world (`finds_only`). What is kept may be begun anew: a head then says the world of the events
/// before it, and these are gone, though what is left still stands for them.
///
/// What it was handed last can be taken back, once: [`Keeper::keep`] and [`Keeper::save`] give the
/// right to that, and one who gives the right up ([`Keeper::settle`]) has it shown that the events
/// stay.
pub trait Keeper {
    /// The right to take back what was kept last. Keeping alone gives one.
    type Last: Drop;

    /// The token that what was kept stays. It is given for a right to take that back.
    type Settled: Drop;

    /// The world before all events.
    ghost first: { World };

    /// These are the events that it keeps, in order, those before a head among them.
    ghost holds: { Self → List Change → Type 0 };

    /// All that it keeps may be these events: someone asked for each.
    ghost may: { List Change → Type 0 };

    /// It keeps the first events and then the second ones, which it was handed last, and this is
    /// the right to take these back.
    ghost kept_last: { Self → Self.Last → List Change → List Change → Type 0 };

    /// These events stay.
    ghost stays: { Self.Settled → List Change → Type 0 };

    /// Whether it takes nothing more.
    ghost closed: { Self → Bool };

    /// Whether what it writes to has failed.
    ghost failed: { Self → Bool };

    /// It has no room for more.
    ghost full: { Self → Type 0 };

    /// Whether a roll is worth it ([`Keeper::roll_if_due`]).
    ghost due: { Self → SnapshotParts → Bool };

    /// The moment, as a number that does not fall.
    ghost moment: { Self → ℕ };

    /// What a crash may leave.
    ghost Left: { Type 0 };

    /// What a crash at some moment from that one on might have left, during a call or between two.
    ghost left_since: { Self → ℕ → Left → Type 0 };

    /// What is left stands for these events, in order, those before a head among them.
    ghost stands: { Left → List Change → Type 0 };

    /// A start that finds this makes this world of it.
    ghost makes: { Left → World → Type 0 };

    /// Whether keepers of this kind keep nothing, so that no record need be made.
    ghost idle: { Bool };

    /// These hold any events.
    ghost any: { idle ≡ true → (k : Self) (events : List Change) → holds k events };

    /// And in these any events stay.
    ghost any_stays: { idle ≡ true → (s : Self.Settled) (events : List Change) → stays s events };

    /// Whether keepers of this kind keep nothing.
    fn is_idle() -> bool
        ensures { result ≡ idle };

    /// Keeps several events more, for good, by their records. After an `Err` it keeps what it kept.
    fn keep(&mut self, records: &[u8]) -> Result<Self::Last, KeepError>
        requires held { (events more : List Change) × holds self.old events
            × SpellTogether records.now more × may (events ++ more) }
        ensures ok { OnOk result ((events more : List Change) → holds self.old events
            → SpellTogether records.now more → holds self.new (events ++ more)) }
        ensures last { IfOk result (λ last. (events more : List Change) → holds self.old events
            → SpellTogether records.now more → kept_last self.new last events more) }
        ensures err { OnErr result ((events : List Change) → holds self.old events
            → holds self.new events) }
        // Nothing can fail where nothing is kept.
        ensures needed { OnErr result (idle ≡ false) }
        // A crash at any moment of the call leaves all that it kept, and the first few of these.
        ensures any_moment { (events more : List Change) → holds self.old events
            → SpellTogether records.now more → closed self.old ≡ false
            → LeavesEvents moment left_since stands self.old self.new
            (AreAllAndSome events more) }
        // It is open after `Ok`. Where it is closed it says so, and nowhere else, and does nothing.
        ensures open { OnOk result (closed self.new ≡ false) }
        ensures closed { closed self.old ≡ true → (result ≡ Err KeepError.Closed)
            × (self.new ≡ self.old) }
        ensures told { IsErrOf result KeepError.Closed → closed self.old ≡ true }
        // Any other refusal but memory's has a cause: there is no room, or writing failed. It
        // closes for no cause but that.
        ensures full { IsErrOf result KeepError.TooLong → full self.old }
        ensures failed { IsErrOf result KeepError.Failed → failed self.new ≡ true }
        ensures lost { closed self.new ≡ true
            → (closed self.old ≡ true) ⊎ (failed self.new ≡ true) };

    /// Keeps several events more by saving what all of them make, in the place of all that is kept,
    /// as a roll does: a head then says the world of all of them. So events that have no record are
    /// kept, as one that joins blocks. The snapshot is what all of them make, and no event is kept
    /// meanwhile. After an `Err` it keeps what it kept.
    fn save(&mut self, alloc: Global, snapshot: &Snapshot) -> Result<Self::Last, KeepError>
        requires made { idle ≡ false → (events more : List Change) × holds self.old events
            × may (events ++ more) × IsOfAll first (events ++ more) (world_of snapshot.now) }
        ensures ok { OnOk result ((events more : List Change) → holds self.old events
            → (idle ≡ false → IsOfAll first (events ++ more) (world_of snapshot.now))
            → holds self.new (events ++ more)) }
        ensures last { IfOk result (λ last. (events more : List Change) → holds self.old events
            → (idle ≡ false → IsOfAll first (events ++ more) (world_of snapshot.now))
            → kept_last self.new last events more) }
        ensures err { OnErr result ((events more : List Change) → holds self.old events
            → (idle ≡ false → IsOfAll first (events ++ more) (world_of snapshot.now))
            → holds self.new events) }
        // Nothing can fail where nothing is kept.
        ensures needed { OnErr result (idle ≡ false) }
        // A crash at any moment of the call leaves all that it kept, and the first few of these.
        ensures any_moment { (events more : List Change) → holds self.old events
            → (idle ≡ false → IsOfAll first (events ++ more) (world_of snapshot.now))
            → closed self.old ≡ false
            → LeavesEvents moment left_since stands self.old self.new
            (AreAllAndSome events more) }
        // It is open after `Ok`. Where it is closed it says so, and nowhere else, and does nothing.
        ensures open { OnOk result (closed self.new ≡ false) }
        ensures closed { closed self.old ≡ true → (result ≡ Err KeepError.Closed)
            × (self.new ≡ self.old) }
        ensures told { IsErrOf result KeepError.Closed → closed self.old ≡ true }
        // `Failed` has a cause: writing failed. It closes for no cause but that.
        ensures failed { IsErrOf result KeepError.Failed → failed self.new ≡ true }
        ensures lost { closed self.new ≡ true
            → (closed self.old ≡ true) ⊎ (failed self.new ≡ true) };

    /// The right to take back what was kept last is given up: all of it stays.
    fn settle(&self, last: Self::Last) -> Self::Settled
        ensures { (events more : List Change) → kept_last self.now last events more
            → stays result (events ++ more) };

    /// The events that were kept last are not published: it takes nothing more, and a start finds
    /// the first few of these events, or none, after all before them.
    fn close(&mut self, last: Self::Last)
        requires open { closed self.old ≡ false }
        requires last { (events more : List Change) × kept_last self.old last events more }
        ensures held { (events more : List Change) → kept_last self.old last events more
            → holds self.new events }
        ensures any_moment { (events more : List Change) → kept_last self.old last events more
            → LeavesEvents moment left_since stands self.old self.new
            (AreAllAndSome events more) }
        ensures closed { idle ≡ false → closed self.new ≡ true };

    /// Rolls, if that is worth it: it saves what the kept events make, in their place, as databases
    /// take a checkpoint. A start then has less to do. The snapshot is what they make, and no event
    /// is kept meanwhile. How many blocks were saved, `None` if it was not worth it. Whatever is
    /// answered, it keeps what it kept; after an `Err` it may be closed.
    fn roll_if_due(
        &mut self,
        alloc: Global,
        snapshot: &Snapshot,
    ) -> Result<Option<usize>, KeepError>
        requires made { idle ≡ false → (events : List Change)
            × holds self.old events × IsOfAll first events (world_of snapshot.now) }
        ensures held { (events : List Change) → holds self.old events
            → (idle ≡ false → IsOfAll first events (world_of snapshot.now))
            → holds self.new events }
        // A crash at any moment of the call leaves exactly what it keeps.
        ensures any_moment { (events : List Change) → holds self.old events
            → (idle ≡ false → IsOfAll first events (world_of snapshot.now))
            → closed self.old ≡ false
            → LeavesEvents moment left_since stands self.old self.new (AreAll events) }
        // If it is not worth it, nothing is done; else it is saved, or refused.
        ensures rests { due self.old snapshot.now ≡ false
            → (result ≡ Ok None) × (self.new ≡ self.old) }
        ensures saves { result ≡ Ok None
            → (due self.old snapshot.now ≡ false) ⊎ (closed self.old ≡ true) }
        // What it saves are the blocks of the snapshot.
        ensures counted { IfOk result (λ saved. IfSome saved (λ count.
            count ≡ length snapshot.now.blocks)) }
        // Where nothing is kept nothing is saved.
        ensures needed { idle ≡ true → result ≡ Ok None }
        ensures open { OnOk result (closed self.new ≡ closed self.old) }
        ensures closed { closed self.old ≡ true → self.new ≡ self.old }
        // It closes for no cause but that writing failed.
        ensures lost { closed self.new ≡ true
            → (closed self.old ≡ true) ⊎ (failed self.new ≡ true) };

    /// What may be left since a moment may be left since an earlier one.
    ghost earlier: { (k : Self) (t u : ℕ) (left : Left) → t ≤ u → u ≤ moment k
        → left_since k u left → left_since k t left };

    /// A crash at this moment leaves all that it keeps, and more at most, though it be closed.
    ghost now: { (k : Self) (events : List Change) (left : Left) → holds k events
        → left_since k (moment k) left → StandsForSome stands (AreAllAndMore events) left };

    /// While it is open, a crash between two calls leaves exactly what it keeps.
    ghost settled: { (k : Self) (events : List Change) (left : Left) → holds k events
        → closed k ≡ false → left_since k (moment k) left
        → StandsForSome stands (AreAll events) left };

    /// A start finds the world of the events for which there stands what is left, if they are
    /// accepted.
    ghost finds: { (left : Left) (events : List Change) (w : World) → stands left events
        → IsOfAll first events w → makes left w };

    /// It finds no other world.
    ghost finds_only: { (left : Left) (events : List Change) (w : World) → stands left events
        → makes left w → IsOfAll first events w };
}

/// Keeps nothing beside what is in memory. Of crashes it says nothing.
#[derive(Drop)]
pub struct NoKeeper;

impl Keeper for NoKeeper {
    type Last = ();

    type Settled = ();

    ghost use Rattle.std.specs.Prelude.{false, []};
    ghost use Rattle.head.specs.Blocks.{opening_of};
    ghost use Rattle.head.specs.Heads.{world_of};

    ghost first = { world_of (opening_of []) };

    ghost idle = { true };

    ghost any = { λ idle k events. tt };

    ghost any_stays = { λ idle s events. tt };

    ghost holds = { λ k events. Unit {0} };

    ghost may = { λ events. Unit {0} };

    ghost kept_last = { λ k last events more. Unit {0} };

    ghost stays = { λ s events. Unit {0} };

    ghost closed = { λ k. false };

    ghost failed = { λ k. false };

    ghost full = { λ k. ⊥ };

    ghost due = { λ k s. false };

    ghost moment = { λ k. 0 };

    ghost Left = { ⊥ };

    ghost left_since = { λ k t left. ⊥ };

    ghost stands = { λ left events. ⊥ };

    ghost makes = { λ left w. ⊥ };

    fn is_idle() -> bool {
        true
    }

    fn keep(&mut self, _records: &[u8]) -> Result<(), KeepError> {
        Ok(())
    }

    fn save(&mut self, _alloc: Global, _snapshot: &Snapshot) -> Result<(), KeepError> {
        Ok(())
    }

    fn settle(&self, _last: ()) {}

    fn close(&mut self, _last: ()) {}

    fn roll_if_due(
        &mut self,
        _alloc: Global,
        _snapshot: &Snapshot,
    ) -> Result<Option<usize>, KeepError> {
        Ok(None)
    }

    ghost earlier = { λ k t u left le fits none. none };

    ghost now = { λ k events left held none. absurd none };

    ghost settled = { λ k events left held opened none. absurd none };

    ghost finds = { λ left events w none world. absurd none };

    ghost finds_only = { λ left events w none made. absurd none };
}
