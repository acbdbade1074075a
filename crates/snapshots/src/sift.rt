//! How a batch is sifted at the tip of a store.

ghost use Rattle.std.specs.Prelude.{◌≡◌, ◌↔◌, false, IfOk, IfErr, IfSome, OnOk, OnErr};
ghost use Rattle.head.specs.BatchRows.{batch_of_rows};
ghost use Rattle.snapshots.specs.Asking.{AreAsked};
ghost use Rattle.snapshots.specs.Keeping.{AreHeld};
ghost use Rattle.snapshots.specs.Replays.{IsAfter, IsOfStore};
ghost use Rattle.snapshots.specs.Seats.{FitsSeat, IsMetBy};
ghost use Rattle.snapshots.specs.Sifts.{AsksSifted, IsSiftedAt};
ghost use Rattle.snapshots.specs.Trials.{list_in, published_in};

use crate::keeping::record_of;
use crate::naming::Naming;
use crate::prefix::LogPrefix;
use crate::receipt::Receipt;
use crate::seat::Seat;
use crate::tip::Tip;
use head::{CommitError, Left, RowBatch, Sieve, apply_sifted};
use keeper::Keeper;
use std::alloc::Global;
use std::sync::{Arc, Wait};

/// Behind what a sift stands, which is to be published before anything is told of it.
#[derive(Drop)]
pub enum Trial<J: Naming> {
    /// All that was tried up to this place of the log.
    Waits(LogPrefix<J>),
    /// What is published, since nothing waits.
    Done(Receipt<J>),
}

/// What a sift at a tip came to.
#[derive(Drop)]
pub struct Screened<J: Naming> {
    /// Where it stands.
    pub trial: Trial<J>,
    /// What was left out.
    pub left: Left,
    /// Whether a sample joined.
    pub joined: bool,
}

impl<J: Naming, K: Keeper> Tip<J, K> {
    /// Sifts a batch by the world here, and tries what is kept of it as one event under the seat's
    /// number. If nothing is kept, it tries nothing. `E7` as [`Tip::step`]; then memory's refusals,
    /// and those for the record of what is kept; then `E8` while events that were given up are
    /// still waited for, if anything is kept.
    pub fn sift<R: Wait>(
        &mut self,
        rt: &R,
        alloc: Global,
        seat: &Seat<J>,
        rows: &RowBatch,
    ) -> Result<Screened<J>, CommitError>
        requires asked { AsksSifted J.asked J.opening seat.now (batch_of_rows rows.now) }
        ensures fits { OnOk result (FitsSeat seat.now self.old.counts) }
        ensures seat { IfErr result (λ e.
            (e ≡ CommitError.Seat) ↔ (¬ FitsSeat seat.now self.old.counts)) }
        ensures met { OnOk result (IsMetBy seat.now self.old.entries) }
        ensures stood { IsAfter J.opening self.old.entries self.old.parts }
        ensures sifted { IfOk result (λ s. IsSiftedAt seat.now.number self.old.entries
            self.old.parts (batch_of_rows rows.now)
            (record { list = list_in s.trial; left = s.left; joined = s.joined })) }
        ensures added { IfOk result (λ s. self.new.entries ≡ list_in s.trial) }
        // What is tried is not published yet.
        ensures published { self.new.published ≡ self.old.published }
        // What is told at once is kept.
        ensures held { IfOk result (λ s.
            IfSome (published_in s.trial) (λ r. AreHeld K.holds K.stays J.before r)) }
        ensures asked { IfOk result (λ s.
            IfSome (published_in s.trial) (λ r. AreAsked J.asked r)) }
        ensures world { IsAfter J.opening self.new.entries self.new.parts }
        ensures kept { OnErr result (self.new ≡ self.old) }
        ensures refused { IfErr result (λ e. IsOfStore e) }
        ensures journal { IfErr result (λ e. e ≡ CommitError.Journal → K.idle ≡ false) }
    {
        self.meets(seat)?;
        let Sieve { next, left } = apply_sifted(alloc, self.snapshot(), rows)?;
        let Some((snapshot, kept)) = next else {
            return Ok(Screened {
                trial: self.standing(),
                left,
                joined: false,
            });
        };
        let bytes = record_of::<RowBatch, K>(alloc, &kept)?;
        let Ok(snapshot) = Arc::new(alloc, snapshot) else {
            return Err(CommitError::Memory);
        };
        let trial = self.place(rt, seat, &kept, &bytes, snapshot)?;
        Ok(Screened {
            trial: Trial::Waits(trial),
            left,
            joined: true,
        })
    }

    /// All that was tried, if anything waits; else what is published.
    pub(crate) fn standing(&mut self) -> Trial<J>
        ensures list { list_in result ≡ self.old.entries }
        ensures held { IfSome (published_in result) (λ r. AreHeld K.holds K.stays J.before r) }
        ensures asked { IfSome (published_in result) (λ r. AreAsked J.asked r) }
        ensures same { self.new ≡ self.old }
    {
        match self.trial() {
            Some(trial) => Trial::Waits(trial),
            None => Trial::Done(self.receipt()),
        }
    }
}
