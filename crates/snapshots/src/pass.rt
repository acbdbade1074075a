//! Passes, which read without waiting.

ghost use Rattle.std.specs.Prelude.{◌≡◌, [], length, IfOk};
ghost use Rattle.std.specs.Arc.{arc_value};
ghost use mathlib.Core.List.{IsPrefix};
ghost use Rattle.left_right.specs.Sides.{view};
ghost use Rattle.snapshots.specs.Asking.{AreAsked, AsksNoJoin};
ghost use Rattle.snapshots.specs.Marks.{accepted};
ghost use Rattle.snapshots.specs.Replays.{AreAccepted, IsAfter, KeepsFrames};
ghost use Rattle.snapshots.specs.Views.{nothing};

use crate::entry::Entry;
use crate::error::SnapshotError;
use crate::naming::Naming;
use crate::plate::Plate;
use crate::prefix::LogPrefix;
use crate::receipt::Receipt;
use crate::version::{Grows, Sees};
use head::Snapshot;
use left_right::reader::Reader;
use std::marker::Model;
use std::sync::Arc;

/// A reader of a store that does not wait. Contracts see it as the list of its last entry and the
/// list that receipts told it.
#[derive(Drop)]
pub struct Pass<J: Naming> {
    reader: Option<Reader<Plate, [Entry; 0], Grows<J>>>,
    /// The log that has accepted the list of its last entry.
    seen: LogPrefix<J>,
    told: LogPrefix<J>,
}

impl<J: Naming> Model for Pass<J> {
    ghost use Rattle.std.specs.Prelude.{◌≡◌, Some, None};
    ghost use Rattle.left_right.specs.Sides.{view as seen_by};
    ghost use Rattle.snapshots.specs.Marks.{accepted};
    ghost use Rattle.snapshots.specs.Replays.{AreAccepted};
    ghost use Rattle.snapshots.specs.Views.{Known};

    ghost Value = { Known };

    ghost view = { λ p. record { seen = accepted p.seen; told = accepted p.told } };

    ghost invariant = { λ p.
        elim p.reader [ Some r ↦ seen_by r.place ≡ accepted p.seen | None ↦ ⊥ ]
        × AreAccepted J.opening (accepted p.seen) × J.kept (accepted p.seen) };
}

impl<J: Naming> Pass<J> {
    pub(crate) fn of(reader: Reader<Plate, [Entry; 0], Grows<J>>, log: &LogPrefix<J>) -> Pass<J>
        requires fresh { view reader.place ≡ [] }
        requires empty { log.now ≡ [] }
        requires kept { J.kept [] }
        ensures { result ≡ nothing }
    {
        Pass {
            reader: Some(reader),
            seen: log.share(),
            told: log.share(),
        }
    }

    /// How many events the list of its last entry has, or 0 before one. It takes no memory.
    pub fn events(&self) -> u64
        ensures { result ≡ length self.now.seen }
    {
        self.seen.accepted()
    }

    /// The receipt of all that the pass has seen: a pass that learns it sees no less. So what
    /// passes see and what receipts say is one history, of which each has a part from its begin. It
    /// takes no memory.
    pub fn receipt(&self) -> Receipt<J>
        ensures list { result ≡ self.now.seen }
        ensures accepted { AreAccepted J.opening result }
        ensures asked { AreAsked J.asked result }
        ensures held { J.kept result }
    {
        Receipt::whole(&self.seen)
    }

    /// From now on the pass knows what the receipt says, beside what it knew. It takes no memory.
    pub fn learn(&mut self, receipt: &Receipt<J>)
        ensures seen { self.new.seen ≡ self.old.seen }
        ensures told { IsPrefix self.old.told self.new.told }
        ensures receipt { IsPrefix receipt.now self.new.told }
    {
        self.told = self.told.longer(receipt.log());
    }

    /// The snapshot of the published version. Its list begins with all that the pass had seen and
    /// with the list of each receipt that it learnt, and is what the pass has seen from then on.
    /// Each event of it was asked for by a call that publishes, and the store's keeper came to hold
    /// the list for good before it was published. It waits for nobody, takes no lock and no memory.
    /// `S1` if the version is not available: if `left_right` refuses the entry, or `Arc` one sharer
    /// more, which leaves the pass knowing no less; it is answered also if the version is older
    /// than what the pass was told of, which does not occur.
    pub fn snapshot(&mut self) -> Result<Arc<Snapshot>, SnapshotError>
        ensures world { IfOk result (λ s. IsAfter J.opening self.new.seen (arc_value s)) }
        // Where no join may be asked for, the opening's blocks stand first in it.
        ensures blocks { IfOk result (λ s.
            AsksNoJoin J.asked → KeepsFrames J.opening (arc_value s)) }
        ensures asked { IfOk result (λ s. AreAsked J.asked self.new.seen) }
        ensures held { IfOk result (λ s. J.kept self.new.seen) }
        ensures told { IfOk result (λ s. IsPrefix self.old.told self.new.seen) }
        ensures seen { IsPrefix self.old.seen self.new.seen }
        ensures kept { self.new.told ≡ self.old.told }
    {
        let Some(reader) = self.reader.take() else {
            unreachable!()
        };
        match reader.enter_as::<Sees<J>>() {
            Ok(reading) => {
                let version = &reading.get().version;
                let seen = version.log();
                let taken = version.offer(&self.told);
                self.reader = Some(reading.leave());
                self.seen = seen;
                match taken {
                    Some(snapshot) => Ok(snapshot),
                    None => Err(SnapshotError::Unavailable),
                }
            }
            Err(reader) => {
                self.reader = Some(reader);
                Err(SnapshotError::Unavailable)
            }
        }
    }
}
