//! What publishes versions.

ghost use Rattle.std.specs.Prelude.{◌≡◌, ◌⊎◌, ◌++◌, List, MatchBool, false, IfErr, MatchResult};
ghost use Rattle.std.specs.Prelude.{None, Ok, OnErr, OnOk, true, IfOk, IfSome, length};
ghost use Rattle.std.specs.Arc.{arc_value};
ghost use mathlib.Core.List.{IsPrefix};
ghost use Rattle.head.specs.Worlds.{Event};
ghost use Rattle.keeper.specs.Finding.{AreAll, AreAllAndSome, LeavesEvents};
ghost use Rattle.snapshots.specs.Marks.{accepted, list_of};
ghost use Rattle.snapshots.specs.Grows.{Shows, MayFollow};
ghost use Rattle.snapshots.specs.Keeping.{kept_of, AreAllOrNone, HeldIsKept, IsGroup, IsHindered};
ghost use Rattle.snapshots.specs.Keeping.{IsOfAllKept, IsOfKeeping, IsSealed, OpensAsKept};
ghost use Rattle.snapshots.specs.Replays.{events_in, IsAfter};
ghost use Rattle.snapshots.specs.declared.entry.Entry.{Entry as Listed};

use crate::entry::Entry;
use crate::group::Group;
use crate::keeping::{keep, refusal_of};
use crate::naming::Naming;
use crate::plate::Plate;
use crate::prefix::LogPrefix;
use crate::tip::Tip;
use crate::version::{Grows, Sees, Version};
use core::mem::replace_with;
use head::{CommitError, Snapshot};
use keeper::{KeepError, Keeper};
use left_right::writer::Writer;
use std::alloc::Global;
use std::sync::{Arc, Mutex, MutexGuard, Wait};

/// The writer of the versions of a store. It holds both rights of the store to show versions, so
/// there is one at most, and each pass of the store reads what it shows.
pub type Press<J> = Writer<Plate, Version, [Entry; 0], Grows<J>>;

/// Publishes one whole version. Where it is refused, it may be left pending, till it is published
/// with the next one.
fn publish<J: Naming, R: Wait>(rt: &R, mut press: Press<J>, next: Version) -> (Press<J>, bool)
    requires { MayFollow J.book J.opening J.asked J.kept press.desk.shown.value.version next }
    ensures { MatchBool result.1 (result.0.desk.shown.value.version ≡ next)
        (result.0.desk.shown.value.version ≡ press.desk.shown.value.version) }
{
    let Ok(()) = press.append(next) else {
        return (press, false);
    };
    let (press, published) = press.publish_as::<Sees<J>, R>(rt);
    let Ok(()) = published else {
        return (press, false);
    };
    (press, true)
}

/// Publishes the version, if there is memory for it.
fn publish_in<J: Naming, R: Wait>(rt: &R, press: &mut Press<J>, next: &Version) -> bool
    requires { MayFollow J.book J.opening J.asked J.kept
        press.old.desk.shown.value.version next.now }
    ensures { MatchBool result (press.new.desk.shown.value.version ≡ next.now)
        (press.new.desk.shown.value.version ≡ press.old.desk.shown.value.version) }
{
    let Ok(next) = next.share() else {
        return false;
    };
    replace_with(
        press,
        next,
        |press: Press<J>, next: Version| -> (Press<J>, bool)
            requires { MayFollow J.book J.opening J.asked J.kept
                press.desk.shown.value.version next }
            ensures { MatchBool result.1 (result.0.desk.shown.value.version ≡ next)
                (result.0.desk.shown.value.version ≡ press.desk.shown.value.version) }
        { publish(rt, press, next) },
    )
}

/// Shows the snapshot that the list of a log makes: all of the list is kept for good, and accepted.
/// It tries until there is memory, which no more than the first two versions take.
pub fn show<J: Naming, R: Wait>(
    rt: &R,
    press: &mut Press<J>,
    snapshot: Arc<Snapshot>,
    log: &LogPrefix<J>,
)
    requires whole { accepted log.now ≡ list_of log.now }
    requires begins { IsPrefix (list_of press.old.desk.shown.value.version.marks)
        (accepted log.now) }
    requires after { IsAfter J.opening (accepted log.now) (arc_value snapshot) }
    requires kept { J.kept (accepted log.now) }
    ensures shown { Shows J.book J.opening J.asked J.kept press.new.desk.shown.value.version
        (accepted log.now) }
    ensures parts { press.new.desk.shown.value.version.parts ≡ arc_value snapshot }
{
    let next = Version::of(snapshot, log);
    for _ in rt.forever() {
        if publish_in(rt, press, &next) {
            return;
        }
    }
    unreachable!()
}

/// Saves what is published in the place of the events that made it, if its keeper finds that worth
/// it. What is kept stays, and what is published too.
pub fn roll_if_due<J: Naming, K: Keeper>(
    alloc: Global,
    press: &Press<J>,
    keeper: &mut K,
) -> Result<Option<usize>, KeepError>
    requires kept { (entries : List Listed) × K.holds keeper.old (kept_of J.before entries)
        × IsOfAllKept K.idle K.first J.before entries press.now.desk.shown.value.version.parts }
    ensures held { (entries : List Listed) → K.holds keeper.old (kept_of J.before entries)
        → IsOfAllKept K.idle K.first J.before entries press.now.desk.shown.value.version.parts
        → K.holds keeper.new (kept_of J.before entries) }
    // A closed keeper stays as it is.
    ensures closed { K.closed keeper.old ≡ true → keeper.new ≡ keeper.old }
    // It closes for no cause but that writing failed.
    ensures lost { K.closed keeper.new ≡ true
        → (K.closed keeper.old ≡ true) ⊎ (K.failed keeper.new ≡ true) }
    // Of an open one a crash at any moment of the call leaves exactly what is kept.
    ensures any_moment { (entries : List Listed) → K.holds keeper.old (kept_of J.before entries)
        → IsOfAllKept K.idle K.first J.before entries press.now.desk.shown.value.version.parts
        → K.closed keeper.old ≡ false
        → LeavesEvents K.moment K.left_since K.stands keeper.old keeper.new
        (AreAll (kept_of J.before entries)) }
    // It saves all blocks of what is published, if that is worth it, and else does nothing.
    ensures rests { K.due keeper.old press.now.desk.shown.value.version.parts ≡ false
        → (result ≡ Ok None) × (keeper.new ≡ keeper.old) }
    ensures saves { result ≡ Ok None
        → (K.due keeper.old press.now.desk.shown.value.version.parts ≡ false)
        ⊎ (K.closed keeper.old ≡ true) }
    // It is as open as it was, unless it fails.
    ensures open { OnOk result (K.closed keeper.new ≡ K.closed keeper.old) }
    ensures counted { IfOk result (λ saved. IfSome saved (λ count.
        count ≡ length press.now.desk.shown.value.version.parts.blocks)) }
    ensures needed { K.idle ≡ true → result ≡ Ok None }
{
    keeper.roll_if_due(alloc, press.published().version.snapshot())
}

/// The guard that is held, or else the lock is taken.
pub fn taken<'a, J: Naming, R: Wait, K: Keeper>(
    rt: &R,
    tip: &'a Mutex<Tip<J, K>>,
    held: Option<MutexGuard<'a, Tip<J, K>>>,
) -> MutexGuard<'a, Tip<J, K>> {
    match held {
        Some(guard) => guard,
        None => tip.lock(rt),
    }
}

/// Marks in the log that a group stays, which a keeper was handed last, and publishes the snapshot
/// after it; or else gives it up, and the keeper closes.
fn publish_kept<'a, J: Naming, R: Wait, K: Keeper>(
    rt: &R,
    tip: MutexGuard<'a, Tip<J, K>>,
    log: &mut LogPrefix<J>,
    press: &mut Press<J>,
    keeper: &mut K,
    last: K::Last,
    group: Group<J>,
) -> (MutexGuard<'a, Tip<J, K>>, Result<(), CommitError>)
    requires open { K.closed keeper.old ≡ false }
    requires held { K.holds keeper.old (kept_of J.before (list_of group.log)) }
    // The events were kept last; or none was, if keepers of this kind keep nothing.
    requires last { (more : List Listed) → list_of group.log ≡ accepted log.old ++ more
        → (few : List Event) × AreAllOrNone K.idle (events_in more) few
        × K.kept_last keeper.old last (kept_of J.before (accepted log.old)) few }
    requires rule { HeldIsKept K.holds K.stays J.kept J.before }
    requires sealed { IsSealed J.opening group.log
        (arc_value group.standing.snapshot) group.standing.counts.items }
    requires alike { arc_value group.shown ≡ arc_value group.standing.snapshot }
    requires follows { accepted group.log ≡ accepted log.old }
    requires shown { Shows J.book J.opening J.asked J.kept press.old.desk.shown.value.version
        (accepted log.old) }
    ensures held { K.holds keeper.new (kept_of J.before (accepted log.new)) }
    ensures rest { OnOk result.1 (keeper.new ≡ keeper.old) }
    ensures in_flight { OnErr result.1 ((more : List Listed)
        → list_of group.log ≡ accepted log.old ++ more
        → LeavesEvents K.moment K.left_since K.stands keeper.old keeper.new
        (AreAllAndSome (kept_of J.before (accepted log.old)) (events_in more))) }
    ensures list { MatchResult result.1
        (λ _. accepted log.new ≡ list_of group.log)
        (λ _. accepted log.new ≡ accepted log.old) }
    ensures begins { IsPrefix (accepted log.old) (accepted log.new) }
    ensures shown { Shows J.book J.opening J.asked J.kept press.new.desk.shown.value.version
        (accepted log.new) }
    ensures parts { MatchResult result.1
        (λ _. press.new.desk.shown.value.version.parts ≡ arc_value group.shown)
        (λ _. press.new.desk.shown.value.version ≡ press.old.desk.shown.value.version) }
    ensures refused { IfErr result.1 (λ e. e ≡ CommitError.Memory) }
{
    let mut tip = tip;
    match tip.publish(rt, press, keeper, last, group) {
        Ok(done) => {
            *log = done;
            (tip, Ok(()))
        }
        Err(last) => {
            keeper.close(last);
            tip.give_up(CommitError::Memory);
            (tip, Err(CommitError::Memory))
        }
    }
}

/// Keeps a group by one write and one sync, marks in the log that it stays, and publishes the
/// snapshot after it. So what anyone has seen is kept for good. If it is not kept, it is given up,
/// with all that was tried meanwhile. The tip is locked after the events are kept, unless it is
/// held; its guard comes back. A group that does not follow would be given up too, with a keeper
/// that closes, and does not occur.
pub fn publish_group<'a, J: Naming, R: Wait, K: Keeper>(
    rt: &R,
    tip: &'a Mutex<Tip<J, K>>,
    held: Option<MutexGuard<'a, Tip<J, K>>>,
    log: &mut LogPrefix<J>,
    press: &mut Press<J>,
    keeper: &mut K,
    group: Group<J>,
) -> (MutexGuard<'a, Tip<J, K>>, Result<(), CommitError>)
    requires held { K.holds keeper.old (kept_of J.before (accepted log.old)) }
    requires may { K.may (kept_of J.before (list_of group.log)) }
    requires rule { HeldIsKept K.holds K.stays J.kept J.before }
    requires group { IsGroup J.opening K.idle group.log
        (arc_value group.standing.snapshot) group.standing.counts.items group.records.items }
    requires alike { arc_value group.shown ≡ arc_value group.standing.snapshot }
    requires follows { accepted group.log ≡ accepted log.old }
    requires shown { Shows J.book J.opening J.asked J.kept press.old.desk.shown.value.version
        (accepted log.old) }
    // What is kept is what is published.
    ensures held { K.holds keeper.new (kept_of J.before (accepted log.new)) }
    // A closed keeper stays as it is, and nothing is published.
    ensures closed { K.closed keeper.old ≡ true → keeper.new ≡ keeper.old }
    ensures open { OnOk result.1 (K.closed keeper.new ≡ false) }
    // Of an open one a crash at any moment of the call leaves all that was published before it, and
    // at most the first few events of the group.
    ensures in_flight { (more : List Listed) → list_of group.log ≡ accepted log.old ++ more
        → K.closed keeper.old ≡ false
        → LeavesEvents K.moment K.left_since K.stands keeper.old keeper.new
        (AreAllAndSome (kept_of J.before (accepted log.old)) (events_in more)) }
    ensures list { MatchResult result.1
        (λ _. accepted log.new ≡ list_of group.log)
        (λ _. accepted log.new ≡ accepted log.old) }
    // What was published stays, and what is new comes behind it.
    ensures begins { IsPrefix (accepted log.old) (accepted log.new) }
    ensures shown { Shows J.book J.opening J.asked J.kept press.new.desk.shown.value.version
        (accepted log.new) }
    ensures parts { MatchResult result.1
        (λ _. press.new.desk.shown.value.version.parts ≡ arc_value group.shown)
        (λ _. press.new.desk.shown.value.version ≡ press.old.desk.shown.value.version) }
    ensures refused { IfErr result.1 (λ e. IsOfKeeping e) }
    ensures journal { IfErr result.1 (λ e. e ≡ CommitError.Journal → K.idle ≡ false) }
    // `E8` has a cause.
    ensures cause { IfErr result.1 (λ e. e ≡ CommitError.Journal
        → IsHindered K.closed K.full K.failed keeper.old keeper.new) }
{
    let last = match keep(keeper, &group.records) {
        Ok(last) => last,
        Err(error) => {
            let mut tip = taken(rt, tip, held);
            tip.give_up(error);
            return (tip, Err(error));
        }
    };
    let tip = taken(rt, tip, held);
    publish_kept(rt, tip, log, press, keeper, last, group)
}

/// Keeps a group by saving what its events make, in the place of all that is kept, marks in the log
/// that it stays, and publishes the snapshot after it, as [`publish_group`] does. So events that
/// have no record are published too. The tip's guard comes back. `E8` also comes if what is to be
/// saved is too long for the files that it would be saved in.
pub fn publish_saved<'a, J: Naming, R: Wait, K: Keeper>(
    rt: &R,
    alloc: Global,
    tip: MutexGuard<'a, Tip<J, K>>,
    log: &mut LogPrefix<J>,
    press: &mut Press<J>,
    keeper: &mut K,
    group: Group<J>,
) -> (MutexGuard<'a, Tip<J, K>>, Result<(), CommitError>)
    requires held { K.holds keeper.old (kept_of J.before (accepted log.old)) }
    requires may { K.may (kept_of J.before (list_of group.log)) }
    requires rule { HeldIsKept K.holds K.stays J.kept J.before }
    requires world { OpensAsKept K.idle K.first J.before J.opening }
    requires sealed { IsSealed J.opening group.log
        (arc_value group.standing.snapshot) group.standing.counts.items }
    requires alike { arc_value group.shown ≡ arc_value group.standing.snapshot }
    requires follows { accepted group.log ≡ accepted log.old }
    requires shown { Shows J.book J.opening J.asked J.kept press.old.desk.shown.value.version
        (accepted log.old) }
    // What is kept is what is published.
    ensures held { K.holds keeper.new (kept_of J.before (accepted log.new)) }
    // A closed keeper stays as it is, and nothing is published.
    ensures closed { K.closed keeper.old ≡ true → keeper.new ≡ keeper.old }
    ensures open { OnOk result.1 (K.closed keeper.new ≡ false) }
    // Of an open one a crash at any moment of the call leaves all that was published before it, and
    // at most the first few events of the group.
    ensures in_flight { (more : List Listed) → list_of group.log ≡ accepted log.old ++ more
        → K.closed keeper.old ≡ false
        → LeavesEvents K.moment K.left_since K.stands keeper.old keeper.new
        (AreAllAndSome (kept_of J.before (accepted log.old)) (events_in more)) }
    ensures list { MatchResult result.1
        (λ _. accepted log.new ≡ list_of group.log)
        (λ _. accepted log.new ≡ accepted log.old) }
    // What was published stays, and what is new comes behind it.
    ensures begins { IsPrefix (accepted log.old) (accepted log.new) }
    ensures shown { Shows J.book J.opening J.asked J.kept press.new.desk.shown.value.version
        (accepted log.new) }
    ensures parts { MatchResult result.1
        (λ _. press.new.desk.shown.value.version.parts ≡ arc_value group.shown)
        (λ _. press.new.desk.shown.value.version ≡ press.old.desk.shown.value.version) }
    ensures refused { IfErr result.1 (λ e. IsOfKeeping e) }
    ensures journal { IfErr result.1 (λ e. e ≡ CommitError.Journal → K.idle ≡ false) }
    // `E8` closes the keeper for no cause but that writing failed.
    ensures lost { IfErr result.1 (λ e. e ≡ CommitError.Journal → K.closed keeper.new ≡ true
        → (K.closed keeper.old ≡ true) ⊎ (K.failed keeper.new ≡ true)) }
{
    let last = match keeper.save(alloc, &group.shown) {
        Ok(last) => last,
        Err(error) => {
            let error = refusal_of(error);
            let mut tip = tip;
            tip.give_up(error);
            return (tip, Err(error));
        }
    };
    publish_kept(rt, tip, log, press, keeper, last, group)
}
