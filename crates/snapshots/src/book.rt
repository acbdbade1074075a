//! What keeps the events of a store and publishes them.

ghost use Rattle.std.specs.Prelude.{◌≡◌, ◌⊎◌, [], false, length, true, IfErr, IfOk, IfSome, None};
ghost use Rattle.std.specs.Prelude.{OnErr, OnOk, Ok};
ghost use Rattle.std.specs.Arc.{arc_value};
ghost use mathlib.Core.List.{IsPrefix};
ghost use Rattle.head.specs.Heads.{world_of};
ghost use Rattle.keeper.specs.Finding.{AreAll, FindsWorld, LeavesEvents};
ghost use Rattle.snapshots.specs.Asking.{AreAsked};
ghost use Rattle.snapshots.specs.Marks.{accepted, list_of};
ghost use Rattle.snapshots.specs.Grows.{Shows};
ghost use Rattle.snapshots.specs.Keeping.{kept_of, AreKeptBetween, HeldIsKept, IsGroup};
ghost use Rattle.snapshots.specs.Keeping.{IsHindered, IsOfAllKept, IsOfKeeping, IsOfKeptBetween};
ghost use Rattle.snapshots.specs.Keeping.{IsSealed, MayBeKept, OpensAsKept};
ghost use Rattle.snapshots.specs.Replays.{IsAfter};

use crate::group::Group;
use crate::naming::Naming;
use crate::prefix::LogPrefix;
use crate::publishing::{Press, publish_group, publish_saved, roll_if_due, taken};
use crate::tip::Tip;
use head::CommitError;
use keeper::{KeepError, Keeper, NoKeeper};
use std::alloc::Global;
use std::marker::Model;
use std::sync::{Mutex, MutexGuard, Wait};

/// What keeps the events of a store and publishes them: the list of the published events, the
/// writer of the versions, and where the events are kept. Contracts see it as that list, the
/// published snapshot and the keeper; what is kept are exactly the events of that list, after those
/// that were kept before the store was opened.
pub struct Book<J: Naming, R: Wait + Drop, K: Keeper + Drop = NoKeeper> {
    log: LogPrefix<J>,
    press: Press<J>,
    keeper: K,
    rt: R,
}

impl<J: Naming, R: Wait + Drop, K: Keeper + Drop> Model for Book<J, R, K> {
    ghost use Rattle.snapshots.specs.Marks.{accepted};
    ghost use Rattle.snapshots.specs.Grows.{Shows};
    ghost use Rattle.snapshots.specs.Keeping.{kept_of, HeldIsKept, MayBeKept, OpensAsKept};
    ghost use Rattle.snapshots.specs.Views.{Published};

    ghost Value = { Published K };

    ghost view = { λ b. record {
      entries = accepted b.log;
      parts = b.press.desk.shown.value.version.parts;
      keeper = b.keeper;
    } };

    ghost invariant = { λ b.
        Shows J.book J.opening J.asked J.kept b.press.desk.shown.value.version (accepted b.log)
        × K.holds b.keeper (kept_of J.before (accepted b.log))
        × OpensAsKept K.idle K.first J.before J.opening
        × MayBeKept K.may J.asked J.opening J.before
        × HeldIsKept K.holds K.stays J.kept J.before };
}

impl<J: Naming, R: Wait + Drop, K: Keeper + Drop> Book<J, R, K> {
    /// The book of a store that nothing was published in.
    pub(crate) fn of(rt: R, log: LogPrefix<J>, press: Press<J>, keeper: K) -> Book<J, R, K>
        requires kept { K.holds keeper J.before }
        requires world { OpensAsKept K.idle K.first J.before J.opening }
        requires may { MayBeKept K.may J.asked J.opening J.before }
        requires rule { HeldIsKept K.holds K.stays J.kept J.before }
        requires shown { Shows J.book J.opening J.asked J.kept press.desk.shown.value.version
            (accepted log) }
        requires empty { accepted log ≡ [] }
        ensures { result ≡ record {
          entries = accepted log;
          parts = press.desk.shown.value.version.parts;
          keeper = keeper;
        } }
    {
        Book {
            log,
            press,
            keeper,
            rt,
        }
    }

    /// Keeps a group by one write and one sync, and publishes it: one whole version, seen by each
    /// pass that enters from then on. `E8` if it is not kept; then it is given up, with all that
    /// was tried meanwhile. A group that does not follow what is published would be a refusal of
    /// memory, and does not occur. It waits for the readers of the version before. The tip is
    /// locked after the events are kept, unless it is held; its guard comes back.
    pub fn publish<'a>(
        &mut self,
        tip: &'a Mutex<Tip<J, K>>,
        held: Option<MutexGuard<'a, Tip<J, K>>>,
        group: Group<J>,
    ) -> (MutexGuard<'a, Tip<J, K>>, Result<(), CommitError>)
        requires group { IsGroup J.opening K.idle group.log
            (arc_value group.standing.snapshot) group.standing.counts.items group.records.items }
        requires alike { arc_value group.shown ≡ arc_value group.standing.snapshot }
        ensures list { OnOk result.1 (self.new.entries ≡ list_of group.log) }
        // What was published stays, and what is new comes behind it.
        ensures begins { IsPrefix self.old.entries self.new.entries }
        ensures parts { OnOk result.1 (self.new.parts ≡ arc_value group.shown) }
        ensures kept { OnErr result.1 ((self.new.entries ≡ self.old.entries)
            × (self.new.parts ≡ self.old.parts)) }
        ensures refused { IfErr result.1 (λ e. IsOfKeeping e) }
        ensures journal { IfErr result.1 (λ e. e ≡ CommitError.Journal → K.idle ≡ false) }
        // `E8` has a cause.
        ensures cause { IfErr result.1 (λ e. e ≡ CommitError.Journal
            → IsHindered K.closed K.full K.failed self.old.keeper self.new.keeper) }
        ensures world { IsAfter J.opening self.new.entries self.new.parts }
        // Each event that is published was asked for.
        ensures asked { AreAsked J.asked self.new.entries }
        // What is kept is what is published, after what was kept before the start.
        ensures held { K.holds self.new.keeper (kept_of J.before self.new.entries) }
        // It makes the world that is published.
        ensures durable { IsOfAllKept K.idle K.first J.before self.new.entries self.new.parts }
        // A closed keeper stays as it is, and nothing is published.
        ensures closed { K.closed self.old.keeper ≡ true → self.new.keeper ≡ self.old.keeper }
        ensures open { OnOk result.1 (K.closed self.new.keeper ≡ false) }
        // Of an open one a crash at any moment of the call leaves what was published before it, and
        // at most the first few events of the group.
        ensures in_flight { K.closed self.old.keeper ≡ false
            → LeavesEvents K.moment K.left_since K.stands self.old.keeper self.new.keeper
            (AreKeptBetween J.before self.old.entries (list_of group.log)) }
        // So a start then finds the world of these.
        ensures finds { K.closed self.old.keeper ≡ false → K.idle ≡ false
            → (left : K.Left) → K.left_since self.new.keeper (K.moment self.old.keeper) left
            → FindsWorld K.makes
            (IsOfKeptBetween K.first J.before self.old.entries (list_of group.log)) left }
    {
        if !group.log.accepts_as(&self.log) {
            let mut tip = taken(&self.rt, tip, held);
            tip.give_up(CommitError::Memory);
            return (tip, Err(CommitError::Memory));
        }
        publish_group(
            &self.rt,
            tip,
            held,
            &mut self.log,
            &mut self.press,
            &mut self.keeper,
            group,
        )
    }

    /// Keeps a group by saving what its events make, in the place of all that is kept, and
    /// publishes it, as [`Book::publish`] does: so events that have no record are published too.
    /// `E8` if it is not saved, for which it may be too long; then it is given up. The tip's guard
    /// comes back.
    pub fn publish_saved<'a>(
        &mut self,
        alloc: Global,
        tip: MutexGuard<'a, Tip<J, K>>,
        group: Group<J>,
    ) -> (MutexGuard<'a, Tip<J, K>>, Result<(), CommitError>)
        requires sealed { IsSealed J.opening group.log
            (arc_value group.standing.snapshot) group.standing.counts.items }
        requires alike { arc_value group.shown ≡ arc_value group.standing.snapshot }
        ensures list { OnOk result.1 (self.new.entries ≡ list_of group.log) }
        // What was published stays, and what is new comes behind it.
        ensures begins { IsPrefix self.old.entries self.new.entries }
        ensures parts { OnOk result.1 (self.new.parts ≡ arc_value group.shown) }
        ensures kept { OnErr result.1 ((self.new.entries ≡ self.old.entries)
            × (self.new.parts ≡ self.old.parts)) }
        ensures refused { IfErr result.1 (λ e. IsOfKeeping e) }
        ensures journal { IfErr result.1 (λ e. e ≡ CommitError.Journal → K.idle ≡ false) }
        // `E8` closes the keeper for no cause but that writing failed.
        ensures lost { IfErr result.1 (λ e. e ≡ CommitError.Journal
            → K.closed self.new.keeper ≡ true
            → (K.closed self.old.keeper ≡ true) ⊎ (K.failed self.new.keeper ≡ true)) }
        ensures world { IsAfter J.opening self.new.entries self.new.parts }
        // Each event that is published was asked for.
        ensures asked { AreAsked J.asked self.new.entries }
        // What is kept is what is published, after what was kept before the start.
        ensures held { K.holds self.new.keeper (kept_of J.before self.new.entries) }
        // It makes the world that is published.
        ensures durable { IsOfAllKept K.idle K.first J.before self.new.entries self.new.parts }
        // A closed keeper stays as it is, and nothing is published.
        ensures closed { K.closed self.old.keeper ≡ true → self.new.keeper ≡ self.old.keeper }
        ensures open { OnOk result.1 (K.closed self.new.keeper ≡ false) }
        // Of an open one a crash at any moment of the call leaves what was published before it, and
        // at most the first few events of the group.
        ensures in_flight { K.closed self.old.keeper ≡ false
            → LeavesEvents K.moment K.left_since K.stands self.old.keeper self.new.keeper
            (AreKeptBetween J.before self.old.entries (list_of group.log)) }
        // So a start then finds the world of these.
        ensures finds { K.closed self.old.keeper ≡ false → K.idle ≡ false
            → (left : K.Left) → K.left_since self.new.keeper (K.moment self.old.keeper) left
            → FindsWorld K.makes
            (IsOfKeptBetween K.first J.before self.old.entries (list_of group.log)) left }
    {
        if !group.log.accepts_as(&self.log) {
            let mut tip = tip;
            tip.give_up(CommitError::Memory);
            return (tip, Err(CommitError::Memory));
        }
        publish_saved(
            &self.rt,
            alloc,
            tip,
            &mut self.log,
            &mut self.press,
            &mut self.keeper,
            group,
        )
    }
}

impl<J: Naming, R: Wait + Drop, K: Keeper + Drop> Book<J, R, K> {
    /// Saves what is published in the place of the events that made it, if its keeper finds that
    /// worth it. What is kept and what is published stays the same, whatever is answered.
    pub fn roll_if_due(&mut self, alloc: Global) -> Result<Option<usize>, KeepError>
        ensures same { (self.new.entries ≡ self.old.entries) × (self.new.parts ≡ self.old.parts) }
        ensures held { K.holds self.new.keeper (kept_of J.before self.new.entries) }
        // A closed keeper stays as it is. An open one closes for no cause but that writing failed.
        ensures closed { K.closed self.old.keeper ≡ true → self.new.keeper ≡ self.old.keeper }
        ensures lost { K.closed self.new.keeper ≡ true
            → (K.closed self.old.keeper ≡ true) ⊎ (K.failed self.new.keeper ≡ true) }
        ensures open { OnOk result (K.closed self.new.keeper ≡ K.closed self.old.keeper) }
        // Of an open one a crash at any moment of the call leaves exactly what is kept.
        ensures any_moment { K.closed self.old.keeper ≡ false
            → LeavesEvents K.moment K.left_since K.stands self.old.keeper self.new.keeper
            (AreAll (kept_of J.before self.old.entries)) }
        // So a start then finds the world that is published.
        ensures finds { K.closed self.old.keeper ≡ false → K.idle ≡ false
            → (left : K.Left) → K.left_since self.new.keeper (K.moment self.old.keeper) left
            → K.makes left (world_of self.old.parts) }
        // It saves all blocks of what is published, if that is worth it, and else does nothing.
        ensures rests { K.due self.old.keeper self.old.parts ≡ false
            → (result ≡ Ok None) × (self.new.keeper ≡ self.old.keeper) }
        ensures saves { result ≡ Ok None
            → (K.due self.old.keeper self.old.parts ≡ false) ⊎ (K.closed self.old.keeper ≡ true) }
        ensures counted { IfOk result (λ saved. IfSome saved (λ count.
            count ≡ length self.old.parts.blocks)) }
        ensures needed { K.idle ≡ true → result ≡ Ok None }
    {
        roll_if_due(alloc, &self.press, &mut self.keeper)
    }
}

/// It waits for the readers.
impl<J: Naming, R: Wait + Drop, K: Keeper + Drop> Drop for Book<J, R, K> {
    fn drop(self) {
        let Self {
            log: _log,
            press,
            keeper: _keeper,
            rt,
        } = self;
        drop(press.take(&rt));
    }
}
