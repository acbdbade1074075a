//! Committers, which publish events.

ghost use Rattle.std.specs.Prelude.{◌≡◌, false, true, None, Ok, Some, is_none, IsTrue, IfOk, IfErr};
ghost use Rattle.std.specs.Prelude.{IfSome, MatchBool, OnErr};
ghost use Rattle.snapshots.specs.Asking.{AreAsked};
ghost use Rattle.snapshots.specs.Keeping.{AreHeld};
ghost use Rattle.snapshots.specs.Marks.{tried_of};
ghost use Rattle.snapshots.specs.Tips.{IsFailure};
ghost use Rattle.labels.specs.Contents.{is_time};
ghost use Rattle.head.specs.BatchRows.{batch_of_rows};
ghost use Rattle.head.specs.Batches.{is_deletion};
ghost use Rattle.head.specs.Worlds.{batch, deletion, cut, matchers_of};
ghost use Rattle.snapshots.specs.Replays.{EndsWith, AreAccepted, IsRefusedAfter, IsRefusedBy};
ghost use Rattle.snapshots.specs.Replays.{IsOfStore};
ghost use Rattle.snapshots.specs.Runs.{join_of};
ghost use Rattle.snapshots.specs.Seats.{HasOneMoreEvent};
ghost use Rattle.snapshots.specs.Sifts.{AsksSifted, IsSiftedOnceMet};
ghost use Rattle.snapshots.specs.Trials.{list_in, published_in};

use crate::appender::Appender;
use crate::book::Book;
use crate::change::Change;
use crate::error::JoinError;
use crate::joined_run::JoinedRun;
use crate::keeping::record_of;
use crate::naming::Naming;
use crate::prefix::LogPrefix;
use crate::receipt::Receipt;
use crate::refused::Refused;
use crate::seat::Seat;
use crate::sift::{Screened, Trial};
use crate::sifted::Sifted;
use crate::tip::Tip;
use head::{CommitError, Event, RowBatch};
use keeper::{KeepError, Keeper, NoKeeper};
use matchers::Matcher;
use std::alloc::Global;
use std::sync::{Condvar, Mutex, MutexGuard, Wait};

/// The matchers that a deletion was made of.
fn matchers_in(event: Event) -> Vec<Matcher>
    requires { is_none (matchers_of event) ≡ false }
    ensures { matchers_of event ≡ Some result.items }
{
    match event.into_matchers() {
        Some(matchers) => matchers,
        None => unreachable!(),
    }
}

/// Keeps events and publishes them. While one thread keeps some, the others try theirs, and the
/// next that may keeps all of these by one write and one sync. Its drop waits for the readers.
#[derive(Drop)]
pub struct Committer<J: Naming, R: Wait + Drop, K: Keeper + Drop = NoKeeper> {
    tip: Mutex<Tip<J, K>>,
    /// Locked by one who leads, while the tip says that it is led.
    book: Mutex<Book<J, R, K>>,
    /// Told when what waited is published or given up.
    news: Condvar,
    alloc: Global,
}

impl<J: Naming, R: Wait + Drop, K: Keeper + Drop> Committer<J, R, K> {
    pub(crate) fn of(alloc: Global, tip: Tip<J, K>, book: Book<J, R, K>) -> Committer<J, R, K> {
        Committer {
            tip: Mutex::new(tip),
            book: Mutex::new(book),
            news: Condvar::new(),
            alloc,
        }
    }

    /// Keeps and publishes all that waits; or waits for the one who does, if there is one. Where
    /// nothing is kept for good, or the tip is to be held meanwhile, no other thread comes between.
    fn go_on<'a, W: Wait>(
        &'a self,
        rt: &W,
        tip: MutexGuard<'a, Tip<J, K>>,
        holds: bool,
    ) -> MutexGuard<'a, Tip<J, K>> {
        let mut tip = tip;
        if tip.is_led() {
            return self.news.wait(rt, tip);
        }
        let group = match tip.seal(rt) {
            Ok(group) => group,
            Err(error) => {
                tip.give_up(error);
                self.news.notify_all();
                return tip;
            }
        };
        let held = if holds || K::is_idle() {
            Some(tip)
        } else {
            drop(tip);
            None
        };
        let (tip, _published) = self.book.lock(rt).publish(&self.tip, held, group);
        self.news.notify_all();
        tip
    }

    /// Waits until all that was tried up to a place of the log is published or given up.
    fn settle<'a, W: Wait>(
        &'a self,
        rt: &W,
        tip: MutexGuard<'a, Tip<J, K>>,
        trial: &LogPrefix<J>,
    ) -> Result<Receipt<J>, CommitError>
        ensures receipt { IfOk result (λ r. r ≡ tried_of trial.now) }
        ensures held { IfOk result (λ r. AreHeld K.holds K.stays J.before r) }
        ensures asked { IfOk result (λ r. AreAsked J.asked r) }
        ensures refused { IfErr result (λ e. IsFailure K.idle e) }
    {
        let mut tip = tip;
        for _ in rt.forever() {
            match tip.outcome(rt, trial) {
                Ok(Some(receipt)) => return Ok(receipt),
                Ok(None) => {}
                Err(error) => return Err(error),
            }
            tip = self.go_on(rt, tip, false);
        }
        unreachable!()
    }

    /// The tip, once nothing waits and nobody keeps what was sealed. It holds the tip while it
    /// keeps what waits, so that others, who try events without end, do not keep it waiting.
    fn still<'a, W: Wait>(&'a self, rt: &W) -> MutexGuard<'a, Tip<J, K>> {
        let mut tip = self.tip.lock(rt);
        for _ in rt.forever() {
            if tip.is_still() {
                return tip;
            }
            tip = self.go_on(rt, tip, true);
        }
        unreachable!()
    }

    /// The receipt of that behind which a sift stands, once it is published.
    fn receipt_of<'a, W: Wait>(
        &'a self,
        rt: &W,
        tip: MutexGuard<'a, Tip<J, K>>,
        trial: Trial<J>,
    ) -> Result<Receipt<J>, CommitError>
        requires held { IfSome (published_in trial) (λ r. AreHeld K.holds K.stays J.before r) }
        requires asked { IfSome (published_in trial) (λ r. AreAsked J.asked r) }
        ensures receipt { IfOk result (λ r. r ≡ list_in trial) }
        ensures held { IfOk result (λ r. AreHeld K.holds K.stays J.before r) }
        ensures asked { IfOk result (λ r. AreAsked J.asked r) }
        ensures refused { IfErr result (λ e. IsFailure K.idle e) }
    {
        match trial {
            Trial::Done(receipt) => Ok(receipt),
            Trial::Waits(trial) => self.settle(rt, tip, &trial),
        }
    }

    /// Makes the record of the event, tries it, and waits until it is published or given up. One
    /// that is refused waits too, until all that was tried before it is published.
    fn step<C: Change + Drop, W: Wait>(
        &self,
        rt: &W,
        seat: &mut Seat<J>,
        change: C,
    ) -> Result<Receipt<J>, (C, Refused<J>)>
        requires asked { J.asked (C.event change) seat.old.number seat.old.count }
        ensures ends { IfOk result (λ r. EndsWith (C.event change) seat.old.number r) }
        ensures accepted { IfOk result (λ r. AreAccepted J.opening r) }
        ensures asked { IfOk result (λ r. AreAsked J.asked r) }
        ensures held { IfOk result (λ r. AreHeld K.holds K.stays J.before r) }
        ensures counted { IfOk result (λ r. HasOneMoreEvent seat.old seat.new r) }
        ensures kept { IfErr result (λ e. (e.0 ≡ change) × (seat.new ≡ seat.old)) }
        ensures refused { IfErr result (λ e.
            IsRefusedAfter J.opening seat.old e.1.error (C.event change)) }
        ensures met { IfErr result (λ e.
            IsRefusedBy J.opening seat.old e.1.error (C.event change) e.1.met) }
        ensures known { IfErr result (λ e. IfSome e.1.met
            (λ r. AreHeld K.holds K.stays J.before r)) }
        ensures met_asked { IfErr result (λ e. IfSome e.1.met (λ r. AreAsked J.asked r)) }
        ensures journal { IfErr result (λ e. e.1.error ≡ CommitError.Journal → K.idle ≡ false) }
    {
        let bytes = match record_of::<C, K>(self.alloc, &change) {
            Ok(bytes) => bytes,
            Err(error) => return Err((change, Refused { error, met: None })),
        };
        let mut tip = self.tip.lock(rt);
        match tip.step(rt, seat, &change, &bytes) {
            Ok(trial) => match self.settle(rt, tip, &trial) {
                Ok(receipt) => {
                    seat.add_one(&receipt);
                    Ok(receipt)
                }
                Err(error) => Err((change, Refused { error, met: None })),
            },
            Err(error) => {
                let before = tip.standing();
                match self.receipt_of(rt, tip, before) {
                    Ok(receipt) => Err((
                        change,
                        Refused {
                            error,
                            met: Some(receipt),
                        },
                    )),
                    Err(given_up) => Err((
                        change,
                        Refused {
                            error: given_up,
                            met: None,
                        },
                    )),
                }
            }
        }
    }

    /// Publishes a batch under the seat's number, whole or not at all. The list of the receipt
    /// begins with that of the seat's last receipt and ends with the batch. A keeper holds it by
    /// then (`held`), and each pass that learns the receipt sees it from then on. Its refusals are
    /// memory's, `E7`, where the seat's count is not the store's, `E8`, if the batch is not kept,
    /// and `E1` to `E4`. With each of those four comes the receipt of the list after which the
    /// batch's step is refused (`met`), which a keeper holds too (`known`). It begins with the list
    /// of the seat's last receipt and has no event more under the seat's number. A refusal gives
    /// the appender back and leaves the seat. It waits for the committer's lock, until its batch is
    /// kept, which others may do with theirs, and for the readers of the version before.
    pub fn commit(
        &self,
        rt: &impl Wait,
        seat: &mut Seat<J>,
        appender: Appender,
    ) -> Result<Receipt<J>, (Appender, Refused<J>)>
        requires asked { J.asked (batch appender) seat.old.number seat.old.count }
        ensures ends { IfOk result (λ r. EndsWith (batch appender) seat.old.number r) }
        ensures accepted { IfOk result (λ r. AreAccepted J.opening r) }
        ensures asked { IfOk result (λ r. AreAsked J.asked r) }
        ensures held { IfOk result (λ r. AreHeld K.holds K.stays J.before r) }
        ensures counted { IfOk result (λ r. HasOneMoreEvent seat.old seat.new r) }
        ensures kept { IfErr result (λ e. (e.0 ≡ appender) × (seat.new ≡ seat.old)) }
        ensures refused { IfErr result (λ e.
            IsRefusedAfter J.opening seat.old e.1.error (batch appender)) }
        ensures met { IfErr result (λ e.
            IsRefusedBy J.opening seat.old e.1.error (batch appender) e.1.met) }
        ensures known { IfErr result (λ e. IfSome e.1.met
            (λ r. AreHeld K.holds K.stays J.before r)) }
        ensures met_asked { IfErr result (λ e. IfSome e.1.met (λ r. AreAsked J.asked r)) }
        ensures journal { IfErr result (λ e. e.1.error ≡ CommitError.Journal → K.idle ≡ false) }
    {
        match self.step(rt, seat, appender.into_event()) {
            Ok(receipt) => Ok(receipt),
            Err((event, refused)) => Err((Appender::of_batch(event), refused)),
        }
    }

    /// Publishes a batch of rows under the seat's number, whole or not at all: as
    /// [`Committer::commit`] does for the samples of the rows in their order, each with its label
    /// set. A refusal gives the rows back and leaves the seat.
    pub fn commit_rows(
        &self,
        rt: &impl Wait,
        seat: &mut Seat<J>,
        rows: RowBatch,
    ) -> Result<Receipt<J>, (RowBatch, Refused<J>)>
        requires asked { J.asked (batch (batch_of_rows rows)) seat.old.number seat.old.count }
        ensures ends { IfOk result (λ r.
            EndsWith (batch (batch_of_rows rows)) seat.old.number r) }
        ensures accepted { IfOk result (λ r. AreAccepted J.opening r) }
        ensures asked { IfOk result (λ r. AreAsked J.asked r) }
        ensures held { IfOk result (λ r. AreHeld K.holds K.stays J.before r) }
        ensures counted { IfOk result (λ r. HasOneMoreEvent seat.old seat.new r) }
        ensures kept { IfErr result (λ e. (e.0 ≡ rows) × (seat.new ≡ seat.old)) }
        ensures refused { IfErr result (λ e.
            IsRefusedAfter J.opening seat.old e.1.error (batch (batch_of_rows rows))) }
        ensures met { IfErr result (λ e.
            IsRefusedBy J.opening seat.old e.1.error (batch (batch_of_rows rows)) e.1.met) }
        ensures known { IfErr result (λ e. IfSome e.1.met
            (λ r. AreHeld K.holds K.stays J.before r)) }
        ensures met_asked { IfErr result (λ e. IfSome e.1.met (λ r. AreAsked J.asked r)) }
        ensures journal { IfErr result (λ e. e.1.error ≡ CommitError.Journal → K.idle ≡ false) }
    {
        self.step(rt, seat, rows)
    }

    /// Publishes what can be kept of a batch of rows, as one event under the seat's number. Its
    /// samples are met in their order. One that may join is kept. One that the store has already,
    /// with its value, or that is the newest one of its label set, is held: it is neither kept nor
    /// left out. Any other is left out, and told by its code, `E1` to `E4`. The list that the batch
    /// is sifted after begins with that of the seat's last receipt and has no event more under the
    /// seat's number; the receipt's list is that one, with the batch of what was kept behind it, if
    /// there is any. A receipt comes also if nothing joined. Then the seat stays, and all that was
    /// tried before, a first try of the same samples too, is published and held by a keeper. The
    /// refusals are memory's, `E7` and `E8`: no sample's. A refusal gives the rows back and leaves
    /// the seat. It waits as [`Committer::commit`] does. Its price: what is kept is known only once
    /// the committer's lock is held, so the record of it is made under that lock, and the look-ups
    /// of what is refused are too.
    pub fn sift(
        &self,
        rt: &impl Wait,
        seat: &mut Seat<J>,
        rows: RowBatch,
    ) -> Result<Sifted<J>, (RowBatch, CommitError)>
        requires asked { AsksSifted J.asked J.opening seat.old (batch_of_rows rows) }
        ensures sifted { IfOk result (λ s.
            IsSiftedOnceMet J.opening seat.old (batch_of_rows rows) s) }
        ensures accepted { IfOk result (λ s. AreAccepted J.opening s.list) }
        ensures asked { IfOk result (λ s. AreAsked J.asked s.list) }
        ensures held { IfOk result (λ s. AreHeld K.holds K.stays J.before s.list) }
        ensures one { IfOk result (λ s. MatchBool s.joined
            (HasOneMoreEvent seat.old seat.new s.list) (seat.new ≡ seat.old)) }
        ensures kept { IfErr result (λ e. (e.0 ≡ rows) × (seat.new ≡ seat.old)) }
        ensures refused { IfErr result (λ e. IsOfStore e.1) }
        ensures journal { IfErr result (λ e. e.1 ≡ CommitError.Journal → K.idle ≡ false) }
    {
        let mut tip = self.tip.lock(rt);
        let Screened {
            trial,
            left,
            joined,
        } = match tip.sift(rt, self.alloc, seat, &rows) {
            Ok(screened) => screened,
            Err(error) => return Err((rows, error)),
        };
        let receipt = match self.receipt_of(rt, tip, trial) {
            Ok(receipt) => receipt,
            Err(error) => return Err((rows, error)),
        };
        if joined {
            seat.add_one(&receipt);
        }
        Ok(Sifted::of(receipt, left, joined))
    }

    /// Publishes a deletion under the seat's number: the samples from one time to another, both
    /// included, in milliseconds, that then stand in series which satisfy all matchers are
    /// removed. [`Event::is_deletion`] says whether there are at most 16 matchers and a range of
    /// times. It is refused for `E7`, `E8` and for memory alone; then the matchers come back and
    /// the seat stays. It waits as [`Committer::commit`] does.
    pub fn delete(
        &self,
        rt: &impl Wait,
        seat: &mut Seat<J>,
        matchers: Vec<Matcher>,
        from: i64,
        to: i64,
    ) -> Result<Receipt<J>, (Vec<Matcher>, CommitError)>
        requires allowed { IsTrue (is_deletion matchers.items from to) }
        requires asked { J.asked (deletion matchers.items from to) seat.old.number seat.old.count }
        ensures ends { IfOk result (EndsWith (deletion matchers.items from to) seat.old.number) }
        ensures accepted { IfOk result (λ r. AreAccepted J.opening r) }
        ensures asked { IfOk result (λ r. AreAsked J.asked r) }
        ensures held { IfOk result (λ r. AreHeld K.holds K.stays J.before r) }
        ensures counted { IfOk result (λ r. HasOneMoreEvent seat.old seat.new r) }
        ensures kept { IfErr result (λ e. (e.0.items ≡ matchers.items) × (seat.new ≡ seat.old)) }
        ensures refused { IfErr result (λ e. IsOfStore e.1) }
        ensures journal { IfErr result (λ e. e.1 ≡ CommitError.Journal → K.idle ≡ false) }
    {
        match self.step(rt, seat, Event::deletion(matchers, from, to)) {
            Ok(receipt) => Ok(receipt),
            Err((event, refused)) => Err((matchers_in(event), refused.error)),
        }
    }

    /// Publishes a cut at a time, in milliseconds, under the seat's number: the head's samples
    /// below it become a block, and from then on none below it is committed. Its refusals are
    /// memory's, `E7`, `E8`, and three that come with a receipt as those of [`Committer::commit`]:
    /// `E5` where the time is not above the floor, `E6` where there are 63 blocks, `E4` where a
    /// file of the block would be too long. After a refusal the seat stays. It waits as
    /// [`Committer::commit`] does.
    pub fn cut(&self, rt: &impl Wait, seat: &mut Seat<J>, at: i64) -> Result<Receipt<J>, Refused<J>>
        requires time { IsTrue (is_time at) }
        requires asked { J.asked (cut at) seat.old.number seat.old.count }
        ensures ends { IfOk result (λ r. EndsWith (cut at) seat.old.number r) }
        ensures accepted { IfOk result (λ r. AreAccepted J.opening r) }
        ensures asked { IfOk result (λ r. AreAsked J.asked r) }
        ensures held { IfOk result (λ r. AreHeld K.holds K.stays J.before r) }
        ensures counted { IfOk result (λ r. HasOneMoreEvent seat.old seat.new r) }
        ensures kept { OnErr result (seat.new ≡ seat.old) }
        ensures refused { IfErr result (λ e. IsRefusedAfter J.opening seat.old e.error (cut at)) }
        ensures met { IfErr result (λ e. IsRefusedBy J.opening seat.old e.error (cut at) e.met) }
        ensures known { IfErr result (λ e. IfSome e.met
            (λ r. AreHeld K.holds K.stays J.before r)) }
        ensures met_asked { IfErr result (λ e. IfSome e.met (λ r. AreAsked J.asked r)) }
        ensures journal { IfErr result (λ e. e.error ≡ CommitError.Journal → K.idle ≡ false) }
    {
        match self.step(rt, seat, Event::cut(at)) {
            Ok(receipt) => Ok(receipt),
            Err((_event, refused)) => Err(refused),
        }
    }

    /// Publishes a join under the seat's number: the new blocks take the place of those that stand
    /// there, and the content stays. What the store then has is saved in the place of the events
    /// that made it, since a join has no record; so it takes as long as a roll, and no event is
    /// tried or published meanwhile. `E9` if other blocks stand at the place, as after a
    /// deletion, or a new one ends above the floor; else its refusals are memory's, `E7` and `E8`,
    /// the last also if what is to be saved is too long for its files. After a refusal the seat
    /// stays. It waits until all that was tried before is published, and for the readers.
    pub fn join(
        &self,
        rt: &impl Wait,
        seat: &mut Seat<J>,
        run: &JoinedRun,
    ) -> Result<Receipt<J>, JoinError>
        requires asked { J.asked (join_of run.now) seat.old.number seat.old.count }
        ensures ends { IfOk result (λ r. EndsWith (join_of run.now) seat.old.number r) }
        ensures accepted { IfOk result (λ r. AreAccepted J.opening r) }
        ensures asked { IfOk result (λ r. AreAsked J.asked r) }
        ensures held { IfOk result (λ r. AreHeld K.holds K.stays J.before r) }
        ensures counted { IfOk result (λ r. HasOneMoreEvent seat.old seat.new r) }
        ensures kept { OnErr result (seat.new ≡ seat.old) }
        ensures journal { IfErr result (λ e. e ≡ JoinError.Journal → K.idle ≡ false) }
    {
        let mut tip = self.still(rt);
        let (trial, group) = match tip.join(rt, seat, run) {
            Ok(made) => made,
            Err(error) => return Err(error),
        };
        let (tip, _published) = self.book.lock(rt).publish_saved(self.alloc, tip, group);
        self.news.notify_all();
        match self.settle(rt, tip, &trial) {
            Ok(receipt) => {
                seat.add_one(&receipt);
                Ok(receipt)
            }
            Err(error) => Err(JoinError::of(error)),
        }
    }

    /// Saves what is published in the place of the events that made it, if its keeper finds that
    /// worth it: a start then has less to do. How many blocks were saved, `None` if it was not
    /// worth it. No reader sees a difference. Meanwhile no event is published, and queries go on.
    pub fn roll_if_due(&self, rt: &impl Wait) -> Result<Option<usize>, KeepError>
        ensures needed { K.idle ≡ true → result ≡ Ok None }
    {
        self.book.lock(rt).roll_if_due(self.alloc)
    }
}
