//! The versions that readers see, and the rule that they keep.

ghost use Rattle.std.specs.Prelude.{◌≡◌, length, IfOk, IfSome};
ghost use Rattle.std.specs.Arc.{arc_value};
ghost use mathlib.Core.List.{IsPrefix};
ghost use Rattle.snapshots.specs.Asking.{AreAsked};
ghost use Rattle.snapshots.specs.Marks.{accepted, list_of, tried_of};

use crate::entry::{Entry, Mark};
use crate::log::Law;
use crate::naming::Naming;
use crate::plate::Plate;
use crate::prefix::LogPrefix;
use crate::tally::Tally;
use crossbeam_utils::rule::{Outcome, Protocol};
use head::Snapshot;
use logbook::Seen;
use std::alloc::AllocError;
use std::marker::{Model, PhantomData};
use std::sync::Arc;

/// A snapshot, beside the log that has accepted the last of its events. What is tried after that is
/// in the log too, and not in the list.
#[derive(Drop)]
pub struct Version {
    snapshot: Arc<Snapshot>,
    marks: u64,
    tally: Tally,
    seen: Seen<Mark, u64, Law>,
}

impl Model for Version {
    ghost use Rattle.std.specs.Prelude.{◌≡◌, length};
    ghost use Rattle.std.specs.Arc.{arc_value};
    ghost use Rattle.snapshots.specs.Marks.{accepted, list_of};
    ghost use Rattle.snapshots.specs.Tallies.{IsTally};
    ghost use Rattle.snapshots.specs.Views.{Edition};

    ghost Value = { Edition };

    ghost view = { λ v.
        record { book = v.seen.book; marks = v.seen.log; parts = arc_value v.snapshot } };

    ghost invariant = { λ v.
        (v.marks ≡ length v.seen.log) × IsTally v.tally v.seen.log
        × (accepted v.seen.log ≡ list_of v.seen.log) };
}

impl Version {
    /// The version of a log that has accepted all that it sealed.
    pub fn of<J: Naming>(snapshot: Arc<Snapshot>, log: &LogPrefix<J>) -> Version
        requires { accepted log.now ≡ list_of log.now }
        ensures made { result
            ≡ record { book = J.book; marks = log.now; parts = arc_value snapshot } }
        ensures asked { AreAsked J.asked (tried_of log.now) }
    {
        Version {
            snapshot,
            marks: log.len(),
            tally: log.tally(),
            seen: log.share_seen(),
        }
    }

    /// The log that has accepted its list.
    pub fn log<J: Naming>(&self) -> LogPrefix<J>
        requires book { self.now.book ≡ J.book }
        requires asked { AreAsked J.asked (tried_of self.now.marks) }
        ensures log { result ≡ self.now.marks }
        ensures whole { accepted self.now.marks ≡ list_of self.now.marks }
    {
        LogPrefix::again(self.marks, self.tally, self.seen.again())
    }

    pub fn snapshot(&self) -> &Snapshot
        ensures { result.now ≡ self.now.parts }
    {
        &self.snapshot
    }

    /// The same version. Only a count that is full refuses it.
    pub fn share(&self) -> Result<Version, AllocError>
        ensures { IfOk result (λ v. v ≡ self.now) }
    {
        Ok(Version {
            snapshot: Arc::try_clone(&self.snapshot)?,
            marks: self.marks,
            tally: self.tally,
            seen: self.seen.again(),
        })
    }

    /// The snapshot, where this version is not older than what was told. It takes no memory.
    pub fn offer<J: Naming>(&self, told: &LogPrefix<J>) -> Option<Arc<Snapshot>>
        requires { self.now.book ≡ J.book }
        ensures parts { IfSome result (λ s. arc_value s ≡ self.now.parts) }
        ensures told { IfSome result (λ _. IsPrefix (accepted told.now) (list_of self.now.marks)) }
    {
        if !told.begins(self.marks, &self.seen) {
            return None;
        }
        Arc::try_clone(&self.snapshot).ok()
    }
}

/// The rule of the published versions: each is of the store `J` and shown by a right of that store,
/// each event of its list was asked for, and each that waits beside it, the list is kept, and lists
/// only grow.
pub struct Grows<J> {
    of: PhantomData<J>,
}

impl<J: Naming> Protocol<Plate, [Entry; 0]> for Grows<J> {
    ghost use Rattle.std.specs.Prelude.{[]};
    ghost use Rattle.snapshots.specs.Grows.{Keeps};

    ghost holds = { Keeps J.book J.opening J.asked J.kept };

    ghost first = { [] };
}

/// What a step on the published version tells.
pub struct Sees<J> {
    of: PhantomData<J>,
}

impl<J: Naming> Outcome<Plate, [Entry; 0]> for Sees<J> {
    ghost use Rattle.snapshots.specs.Grows.{SeesList};

    ghost then = { SeesList J.book J.opening J.asked J.kept };
}
