//! Where the events of a store are tried.

ghost use Rattle.std.specs.Prelude.{◌≡◌, ◌<◌, ◌+◌, ◌++◌, ◌∷◌, ◌↔◌, ◌⊎◌, [], slice_set};
ghost use Rattle.std.specs.Prelude.{false, IsOk, IfOk, IfErr, IfSome, IfNone, OnOk, OnErr};
ghost use Rattle.std.specs.Prelude.{List, MatchBool, MatchResult, length};
ghost use Rattle.std.specs.Arc.{arc_value};
ghost use mathlib.Core.List.{IsPrefix};
ghost use Rattle.head.specs.Heads.{world_of};
ghost use Rattle.head.specs.Worlds.{Event, stepped};
ghost use Rattle.snapshots.specs.Asking.{AreAsked};
ghost use Rattle.snapshots.specs.Marks.{accepted, list_of, tried_of};
ghost use Rattle.snapshots.specs.Grows.{Shows};
ghost use Rattle.snapshots.specs.Keeping.{kept_of, AreHeld, HeldIsKept, IsGroup, IsOfKeeping};
ghost use Rattle.snapshots.specs.Keeping.{IsRecordFor, IsSealed};
ghost use Rattle.snapshots.specs.Replays.{IsAfter, Steps, IsEventRefusal, IsOfStore};
ghost use Rattle.snapshots.specs.Runs.{join_of};
ghost use Rattle.snapshots.specs.Seats.{FitsSeat, AreCounts, IsMetBy, count_of};
ghost use Rattle.snapshots.specs.Standings.{StandsFor, current};
ghost use Rattle.snapshots.specs.Tips.{IsFailure};

use crate::change::{Change, snapshot_after};
use crate::entry::Tried;
use crate::error::JoinError;
use crate::group::Group;
use crate::joined_run::{JoinedRun, snapshot_with};
use crate::keeping::push_record;
use crate::log::LogEnd;
use crate::naming::Naming;
use crate::prefix::LogPrefix;
use crate::publishing::{Press, show};
use crate::receipt::Receipt;
use crate::replayed_state::Standing;
use crate::seat::Seat;
use crate::waiting::{is_given_up, put_back, set_aside};
use core::mem::replace;
use head::{CommitError, Snapshot};
use keeper::Keeper;
use std::alloc::Global;
use std::marker::{Model, PhantomData};
use std::sync::{Arc, Wait};

/// Whether the seat's number is one of the store's, and its count is the same here and may grow.
fn fits<J: Naming>(counts: &Vec<u64>, seat: &Seat<J>) -> bool
    ensures { MatchBool result (FitsSeat seat.now counts.now.items)
        (¬ FitsSeat seat.now counts.now.items) }
{
    match counts.get(seat.number()) {
        Some(count) => *count == seat.count() && seat.count() < u64::MAX,
        None => false,
    }
}

/// Where a store stands after a join under a seat's number, of which this is the count then.
fn standing_with(
    alloc: Global,
    ahead: &Standing,
    run: &JoinedRun,
    number: usize,
    count: u64,
) -> Result<Standing, JoinError>
    requires { number < length ahead.now.counts.items }
    ensures steps { IfOk result (λ s.
        Steps (arc_value ahead.now.snapshot) (join_of run.now) (arc_value s.snapshot)) }
    ensures counts { IfOk result (λ s.
        s.counts.items ≡ slice_set ahead.now.counts.items number count) }
    ensures refused { IfErr result (λ e. (e ≡ JoinError.Stale) ⊎ (e ≡ JoinError.Memory)) }
{
    let snapshot = match snapshot_with(alloc, &ahead.snapshot, run) {
        Ok(snapshot) => snapshot,
        Err(error) => return Err(error),
    };
    let Ok(mut counts) = Vec::from_slice(alloc, &ahead.counts) else {
        return Err(JoinError::Memory);
    };
    counts[number] = count;
    Ok(Standing { snapshot, counts })
}

/// Where the events of a store are tried, each after all that were tried before it, and wait to be
/// kept and published. Contracts see it as the list that is published, the list that the next event
/// is tried after, the count of each seat in it, and the snapshot that it makes.
#[derive(Drop)]
pub struct Tip<J: Naming, K: Keeper> {
    end: LogEnd<J>,
    /// All that was seen of the log.
    log: LogPrefix<J>,
    /// The log up to the last events that are done.
    done: LogPrefix<J>,
    /// After all that was tried; or what is published, if nothing waits.
    ahead: Standing,
    /// What is published, if something waits.
    base: Standing,
    /// The records of what waits and is not sealed.
    records: Vec<u8>,
    /// Whether events wait that are not given up.
    waits: bool,
    /// Whether someone keeps what was sealed.
    led: bool,
    /// How many wait to know what became of their events.
    trials: u64,
    /// Why what waited last was given up.
    failure: CommitError,
    alloc: Global,
    of: PhantomData<K>,
}

impl<J: Naming, K: Keeper> Model for Tip<J, K> {
    ghost use Rattle.std.specs.Prelude.{◌≡◌, MatchBool};
    ghost use Rattle.std.specs.Arc.{arc_value};
    ghost use Rattle.snapshots.specs.Keeping.{AreHeld};
    ghost use Rattle.snapshots.specs.Marks.{accepted};
    ghost use Rattle.snapshots.specs.Standings.{StandsFor, current};
    ghost use Rattle.snapshots.specs.Tips.{IsBehind, IsFailure};
    ghost use Rattle.snapshots.specs.Views.{Ledger};

    ghost Value = { Ledger };

    ghost view = { λ t. record {
      published = accepted t.log;
      entries = current t.waits t.log;
      counts = t.ahead.counts.items;
      parts = arc_value t.ahead.snapshot;
    } };

    ghost invariant = { λ t.
        StandsFor J.opening (current t.waits t.log) (arc_value t.ahead.snapshot)
        t.ahead.counts.items
        × MatchBool t.waits (IsBehind J.opening K.idle t.log (arc_value t.base.snapshot)
        t.base.counts.items t.records.items) (Unit {0})
        × IsFailure K.idle t.failure × (accepted t.done ≡ accepted t.log)
        × AreHeld K.holds K.stays J.before (accepted t.done) };
}

impl<J: Naming, K: Keeper> Tip<J, K> {
    /// The tip of a store that nothing was published in. The other standing's place is for later.
    pub(crate) fn of(
        alloc: Global,
        end: LogEnd<J>,
        log: LogPrefix<J>,
        ahead: Standing,
        base: Standing,
    ) -> Tip<J, K>
        requires empty { log ≡ [] }
        requires stands { StandsFor J.opening [] (arc_value ahead.snapshot) ahead.counts.items }
        requires held { AreHeld K.holds K.stays J.before [] }
        ensures { result ≡ record {
          published = [];
          entries = [];
          counts = ahead.counts.items;
          parts = arc_value ahead.snapshot;
        } }
    {
        let done = log.share();
        Tip {
            end,
            log,
            done,
            ahead,
            base,
            records: Vec::new(alloc),
            waits: false,
            led: false,
            trials: 0,
            failure: CommitError::Memory,
            alloc,
            of: PhantomData,
        }
    }

    /// Whether the seat may try an event here. `E7` if its number is none of this store's, or its
    /// count is not the one here, or cannot grow. A list shorter than that of its last receipt
    /// would be a refusal of memory, and does not occur.
    pub(crate) fn meets(&self, seat: &Seat<J>) -> Result<(), CommitError>
        ensures fits { OnOk result (FitsSeat seat.now self.now.counts) }
        ensures met { OnOk result (IsMetBy seat.now self.now.entries) }
        ensures asked { OnOk result (AreAsked J.asked self.now.entries) }
        ensures seat { IfErr result (λ e.
            (e ≡ CommitError.Seat) ↔ (¬ FitsSeat seat.now self.now.counts)) }
        ensures refused { IfErr result (λ e.
            (e ≡ CommitError.Seat) ⊎ (e ≡ CommitError.Memory)) }
        ensures books { AreCounts self.now.counts self.now.entries }
        ensures world { IsAfter J.opening self.now.entries self.now.parts }
    {
        if !fits(&self.ahead.counts, seat) {
            return Err(CommitError::Seat);
        }
        if !self.log.begins_with(seat.log()) {
            return Err(CommitError::Memory);
        }
        Ok(())
    }

    /// Puts an event, in the form that it is held in, behind all that was tried: its step was made,
    /// and gave the snapshot. It waits from then on, with its record; the log that is answered ends
    /// with its try. `E8` while events that were given up are still waited for.
    pub(crate) fn place<C: Change, R: Wait>(
        &mut self,
        rt: &R,
        seat: &Seat<J>,
        change: &C,
        bytes: &[u8],
        snapshot: Arc<Snapshot>,
    ) -> Result<LogPrefix<J>, CommitError>
        requires spelled { IsRecordFor K.idle (C.event change.now) bytes.now }
        requires asked { J.asked (C.event change.now) seat.now.number seat.now.count }
        requires fits { FitsSeat seat.now self.old.counts }
        requires begins { IsPrefix seat.now.seen self.old.entries }
        requires steps { Steps self.old.parts (C.event change.now) (arc_value snapshot) }
        ensures parts { OnOk result (self.new.parts ≡ arc_value snapshot) }
        ensures refused { IfErr result (λ e. IsOfKeeping e) }
        ensures journal { IfErr result (λ e. e ≡ CommitError.Journal → K.idle ≡ false) }
        ensures kept { OnErr result (self.new ≡ self.old) }
        ensures list { IfOk result (λ p. tried_of p
            ≡ self.old.entries
            ++ record { event = C.event change.now; seat = seat.now.number } ∷ []) }
        ensures added { IfOk result (λ p. self.new.entries ≡ tried_of p) }
        ensures published { self.new.published ≡ self.old.published }
        ensures counts { OnOk result (self.new.counts
            ≡ slice_set self.old.counts seat.now.number (seat.now.count + 1)) }
        ensures begins { IfOk result (λ p. IsPrefix seat.now.seen (tried_of p)) }
        ensures counted { IfOk result (λ p.
            count_of seat.now.number (tried_of p) ≡ seat.now.count + 1) }
        ensures books { AreCounts self.new.counts self.new.entries }
        ensures world { IsAfter J.opening self.new.entries self.new.parts }
    {
        let number = seat.number();
        if !self.log.has_room() {
            return Err(CommitError::Memory);
        }
        if is_given_up(self.waits, &self.log) {
            return Err(self.failure);
        }
        match set_aside::<J, K>(
            self.alloc,
            &self.log,
            self.waits,
            &self.ahead,
            &mut self.base,
            &mut self.records,
        ) {
            Ok(()) => {}
            Err(_) => return Err(CommitError::Memory),
        }
        match push_record::<K>(&mut self.records, bytes) {
            Ok(()) => {}
            Err(_) => return Err(CommitError::Memory),
        }
        self.log.add_try::<C, R>(
            rt,
            &self.end,
            &Tried {
                change,
                seat: number,
            },
        );
        self.ahead.snapshot = snapshot;
        self.ahead.counts[number] = seat.count() + 1;
        self.waits = true;
        self.trials = self.trials.saturating_add(1);
        Ok(self.log.share())
    }

    /// Tries one event, in the form that it is held in, under a seat's number: its step after all
    /// that was tried. It waits from then on, with its record, to be kept and published; the log
    /// that is answered ends with its try. `E7` where the number is none of this store's, or the
    /// seat's count is not the one here, or cannot grow; then the refusal of the event's step on
    /// the snapshot here, whose list begins with that of the seat's last receipt and has as many
    /// events of the seat's number as the seat counts; then `E8` while events that were given up
    /// are still waited for. A list shorter than that of the seat's last receipt would be a refusal
    /// of memory, and does not occur.
    pub fn step<C: Change, R: Wait>(
        &mut self,
        rt: &R,
        seat: &Seat<J>,
        change: &C,
        bytes: &[u8],
    ) -> Result<LogPrefix<J>, CommitError>
        requires spelled { IsRecordFor K.idle (C.event change.now) bytes.now }
        requires asked { J.asked (C.event change.now) seat.now.number seat.now.count }
        ensures fits { OnOk result (FitsSeat seat.now self.old.counts) }
        ensures seat { IfErr result (λ e.
            (e ≡ CommitError.Seat) ↔ (¬ FitsSeat seat.now self.old.counts)) }
        ensures steps { OnOk result (Steps self.old.parts (C.event change.now) self.new.parts) }
        ensures refused { IfErr result (λ e.
            IsEventRefusal e self.old.parts (C.event change.now)) }
        ensures met { IfErr result (λ e. ¬ IsOfStore e → IsMetBy seat.now self.old.entries) }
        ensures journal { IfErr result (λ e. e ≡ CommitError.Journal → K.idle ≡ false) }
        // `E8` hides no refusal of the event's step.
        ensures ready { IfErr result (λ e. e ≡ CommitError.Journal
            → IsOk (stepped (world_of self.old.parts) (C.event change.now))) }
        ensures kept { OnErr result (self.new ≡ self.old) }
        ensures list { IfOk result (λ p. tried_of p
            ≡ self.old.entries
            ++ record { event = C.event change.now; seat = seat.now.number } ∷ []) }
        ensures added { IfOk result (λ p. self.new.entries ≡ tried_of p) }
        // What is tried is not published yet.
        ensures published { self.new.published ≡ self.old.published }
        ensures counts { OnOk result (self.new.counts
            ≡ slice_set self.old.counts seat.now.number (seat.now.count + 1)) }
        ensures begins { IfOk result (λ p. IsPrefix seat.now.seen (tried_of p)) }
        ensures counted { IfOk result (λ p.
            count_of seat.now.number (tried_of p) ≡ seat.now.count + 1) }
        ensures books { AreCounts self.new.counts self.new.entries }
        ensures world { IsAfter J.opening self.new.entries self.new.parts }
    {
        self.meets(seat)?;
        let snapshot = match snapshot_after(self.alloc, &self.ahead.snapshot, change) {
            Ok(snapshot) => snapshot,
            Err(error) => return Err(error),
        };
        self.place(rt, seat, change, bytes, snapshot)
    }

    /// Whether nothing waits, and nobody keeps what was sealed.
    pub fn is_still(&self) -> bool {
        !self.waits && !self.led
    }

    /// Joins blocks under a seat's number: the step of that after all that was tried, of which
    /// nothing waits. It is sealed at once, for one who saves what it makes and publishes it; the
    /// log that is answered beside that ends with it. `E7` as [`Tip::step`], `E8` while events that
    /// were given up are still waited for, and `E9` if the blocks at the place are others, or a new
    /// one ends above the floor. While events wait, or someone leads, it is refused for memory.
    pub fn join<R: Wait>(
        &mut self,
        rt: &R,
        seat: &Seat<J>,
        run: &JoinedRun,
    ) -> Result<(LogPrefix<J>, Group<J>), JoinError>
        requires asked { J.asked (join_of run.now) seat.now.number seat.now.count }
        ensures fits { OnOk result (FitsSeat seat.now self.old.counts) }
        ensures seat { IfErr result (λ e.
            (e ≡ JoinError.Seat) ↔ (¬ FitsSeat seat.now self.old.counts)) }
        ensures steps { OnOk result (Steps self.old.parts (join_of run.now) self.new.parts) }
        ensures journal { IfErr result (λ e. e ≡ JoinError.Journal → K.idle ≡ false) }
        ensures kept { OnErr result (self.new ≡ self.old) }
        ensures sealed { IfOk result (λ r. IsSealed J.opening r.1.log
            (arc_value r.1.standing.snapshot) r.1.standing.counts.items) }
        ensures alike { IfOk result (λ r.
            arc_value r.1.shown ≡ arc_value r.1.standing.snapshot) }
        ensures follows { IfOk result (λ r. accepted r.1.log ≡ self.old.published) }
        ensures list { IfOk result (λ r. tried_of r.0 ≡ self.old.entries
            ++ record { event = join_of run.now; seat = seat.now.number } ∷ []) }
        ensures added { IfOk result (λ r. self.new.entries ≡ tried_of r.0) }
        // What is tried is not published yet.
        ensures published { self.new.published ≡ self.old.published }
        ensures counts { OnOk result (self.new.counts
            ≡ slice_set self.old.counts seat.now.number (seat.now.count + 1)) }
        ensures begins { IfOk result (λ r. IsPrefix seat.now.seen (tried_of r.0)) }
        ensures counted { IfOk result (λ r.
            count_of seat.now.number (tried_of r.0) ≡ seat.now.count + 1) }
        ensures books { AreCounts self.new.counts self.new.entries }
        ensures world { IsAfter J.opening self.new.entries self.new.parts }
    {
        match self.meets(seat) {
            Ok(()) => {}
            Err(error) => return Err(JoinError::of(error)),
        }
        if self.waits {
            return Err(JoinError::Memory);
        }
        if self.led {
            return Err(JoinError::Memory);
        }
        if !self.log.has_room_for_two() {
            return Err(JoinError::Memory);
        }
        if is_given_up(self.waits, &self.log) {
            return Err(JoinError::of(self.failure));
        }
        let number = seat.number();
        let ahead = standing_with(self.alloc, &self.ahead, run, number, seat.count() + 1)?;
        let (Ok(standing), Ok(shown), Ok(base)) = (
            ahead.share(self.alloc),
            Arc::try_clone(&ahead.snapshot),
            self.ahead.share(self.alloc),
        ) else {
            return Err(JoinError::Memory);
        };
        self.log.add_try::<JoinedRun, R>(
            rt,
            &self.end,
            &Tried {
                change: run,
                seat: number,
            },
        );
        self.log.add_seal(rt, &self.end);
        self.ahead = ahead;
        self.base = base;
        self.records.clear();
        self.waits = true;
        self.led = true;
        self.trials = self.trials.saturating_add(1);
        let group = Group {
            log: self.log.share(),
            standing,
            shown,
            records: Vec::new(self.alloc),
        };
        Ok((self.log.share(), group))
    }

    /// The log with all that was tried, for one who waits to know what becomes of it; `None` if
    /// nothing waits.
    pub fn trial(&mut self) -> Option<LogPrefix<J>>
        ensures list { IfSome result (λ p. tried_of p ≡ self.old.entries) }
        ensures none { IfNone result (self.old.entries ≡ self.old.published) }
        ensures same { self.new ≡ self.old }
    {
        if !self.waits {
            return None;
        }
        self.trials = self.trials.saturating_add(1);
        Some(self.log.share())
    }

    /// The receipt of all that is published.
    pub(crate) fn receipt(&self) -> Receipt<J>
        ensures list { result ≡ self.now.published }
        ensures held { AreHeld K.holds K.stays J.before result }
        ensures asked { AreAsked J.asked result }
    {
        Receipt::whole(&self.done)
    }

    /// The snapshot that the next event is tried on.
    pub(crate) fn snapshot(&self) -> &Snapshot
        ensures { result.now ≡ self.now.parts }
    {
        &self.ahead.snapshot
    }

    /// What became of all that was tried up to a place of the log, for one who waits for it, and
    /// does so no more: a receipt, if it is published, or why it is given up; `None` while neither
    /// is known.
    pub fn outcome<R: Wait>(
        &mut self,
        rt: &R,
        trial: &LogPrefix<J>,
    ) -> Result<Option<Receipt<J>>, CommitError>
        ensures receipt { IfOk result (λ found. IfSome found (λ r. r ≡ tried_of trial.now)) }
        ensures published { IfOk result (λ found.
            IfSome found (λ r. IsPrefix r self.old.published)) }
        // What is acknowledged is kept.
        ensures held { IfOk result (λ found.
            IfSome found (λ r. AreHeld K.holds K.stays J.before r)) }
        // And each event of it was asked for.
        ensures asked { IfOk result (λ found. IfSome found (λ r. AreAsked J.asked r)) }
        // What is given up is not published.
        ensures gone { IfErr result (λ e.
            ¬ IsPrefix (tried_of trial.now) self.old.published) }
        // And it does not wait, so that it is never published, unless it is tried anew.
        ensures lost { IfErr result (λ e. ¬ IsPrefix (tried_of trial.now) self.old.entries) }
        ensures refused { IfErr result (λ e. IsFailure K.idle e) }
        ensures same { self.new ≡ self.old }
    {
        if let Some(receipt) = Receipt::of(&self.done, trial) {
            self.leave(rt);
            return Ok(Some(receipt));
        }
        if !is_given_up(self.waits, &self.log) {
            return Ok(None);
        }
        if trial.tried() <= self.log.accepted() {
            return Ok(None);
        }
        let failure = self.failure;
        self.leave(rt);
        Err(failure)
    }

    /// One waits no more. If what waited was given up, and this was the last who did not know it,
    /// the log says so, and events are tried anew.
    fn leave<R: Wait>(&mut self, rt: &R)
        ensures { self.new ≡ self.old }
    {
        self.trials = self.trials.saturating_sub(1);
        if self.trials > 0 {
            return;
        }
        if !is_given_up(self.waits, &self.log) {
            return;
        }
        if self.waits {
            return;
        }
        if !self.log.has_room() {
            return;
        }
        self.log.add_void(rt, &self.end);
    }

    /// Whether someone keeps what was sealed.
    pub fn is_led(&self) -> bool {
        self.led
    }

    /// Seals all that waits, for one who keeps and publishes it from then on. It is refused for
    /// memory alone.
    pub fn seal<R: Wait>(&mut self, rt: &R) -> Result<Group<J>, CommitError>
        ensures group { IfOk result (λ g. IsGroup J.opening K.idle g.log
            (arc_value g.standing.snapshot) g.standing.counts.items g.records.items) }
        ensures alike { IfOk result (λ g.
            arc_value g.shown ≡ arc_value g.standing.snapshot) }
        ensures refused { IfErr result (λ e. e ≡ CommitError.Memory) }
        ensures same { self.new ≡ self.old }
    {
        if !self.waits {
            return Err(CommitError::Memory);
        }
        if !self.log.has_room() {
            return Err(CommitError::Memory);
        }
        if !self.log.is_unsealed() {
            return Err(CommitError::Memory);
        }
        let Ok(standing) = self.ahead.share(self.alloc) else {
            return Err(CommitError::Memory);
        };
        let Ok(shown) = Arc::try_clone(&self.ahead.snapshot) else {
            return Err(CommitError::Memory);
        };
        let records = replace(&mut self.records, Vec::new(self.alloc));
        self.log.add_seal(rt, &self.end);
        self.led = true;
        Ok(Group {
            log: self.log.share(),
            standing,
            shown,
            records,
        })
    }

    /// Marks in the log that a group stays, which a keeper was handed last, and publishes it. The
    /// log is answered. What was tried meanwhile waits. A group that does not follow would give the
    /// right to take it back, and does not occur.
    pub fn publish<R: Wait>(
        &mut self,
        rt: &R,
        press: &mut Press<J>,
        keeper: &K,
        last: K::Last,
        group: Group<J>,
    ) -> Result<LogPrefix<J>, K::Last>
        requires sealed { IsSealed J.opening group.log
            (arc_value group.standing.snapshot) group.standing.counts.items }
        requires alike { arc_value group.shown ≡ arc_value group.standing.snapshot }
        requires held { K.holds keeper.now (kept_of J.before (list_of group.log)) }
        requires rule { HeldIsKept K.holds K.stays J.kept J.before }
        // If the right to take it back is given up, the group stays.
        requires settles { (token : K.Settled)
            → ((events more : List Event) → K.kept_last keeper.now last events more
            → K.stays token (events ++ more))
            → K.stays token (kept_of J.before (list_of group.log)) }
        requires shown { Shows J.book J.opening J.asked J.kept press.old.desk.shown.value.version
            (accepted group.log) }
        ensures list { IfOk result (λ log. accepted log ≡ list_of group.log) }
        ensures shown { MatchResult result
            (λ log. Shows J.book J.opening J.asked J.kept press.new.desk.shown.value.version
            (accepted log))
            (λ _. press.new.desk.shown.value.version ≡ press.old.desk.shown.value.version) }
        ensures parts { OnOk result
            (press.new.desk.shown.value.version.parts ≡ arc_value group.shown) }
        ensures published { MatchResult result (λ log. self.new.published ≡ accepted log)
            (λ _. self.new.published ≡ self.old.published) }
        ensures back { IfErr result (λ right. right ≡ last) }
        ensures tried { self.new.entries ≡ self.old.entries }
        // Nothing is published but what waited.
        ensures ordered { IsPrefix self.new.published self.new.entries }
    {
        let Group {
            log,
            standing,
            shown,
            records: _,
        } = group;
        self.led = false;
        if !self.waits {
            return Err(last);
        }
        if !self.log.has_room() {
            return Err(last);
        }
        if !self.log.lists(&log) {
            return Err(last);
        }
        keeper.settle(last);
        self.log.add_done::<K, R>(rt, &self.end);
        self.base = standing;
        self.waits = !self.log.is_settled();
        self.done = self.log.share();
        show(rt, press, shown, &self.done);
        Ok(self.done.share())
    }

    /// Gives up all that waits: the tip is back at what is published.
    pub fn give_up(&mut self, error: CommitError)
        requires { IsFailure K.idle error }
        ensures published { self.new.published ≡ self.old.published }
        ensures back { self.new.entries ≡ self.old.published }
        ensures books { AreCounts self.new.counts self.new.entries }
        ensures world { IsAfter J.opening self.new.entries self.new.parts }
    {
        put_back(self.waits, &mut self.ahead, &mut self.base);
        self.waits = false;
        self.led = false;
        self.failure = error;
    }
}
