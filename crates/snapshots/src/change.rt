//! What a committer publishes.

ghost use Rattle.std.specs.Prelude.{IfOk, IfErr};
ghost use Rattle.std.specs.Arc.{arc_value};
ghost use Rattle.head.specs.Heads.{world_of};
ghost use Rattle.head.specs.Outcomes.{IsStepRefusal};
ghost use Rattle.head.specs.Worlds.{Event as HeadEvent, stepped};
ghost use Rattle.event_text.specs.Spelling.{Spells};
ghost use Rattle.snapshots.specs.Replays.{Steps};

use event_text::{text_of_event, text_of_rows};
use head::{CommitError, Event, RowBatch, Snapshot, apply, apply_rows};
use std::alloc::{AllocError, Global};
use std::sync::Arc;

/// What is an event, in some form that it is held in.
pub trait AsEvent {
    /// The event that it is.
    ghost event: { Self → HeadEvent };
}

/// What a committer publishes: an event, or a batch that is held in rows, which is one too.
pub trait Change: AsEvent {
    /// The snapshot after the event, or the refusal of its step.
    fn apply(&self, alloc: Global, at: &Snapshot) -> Result<Snapshot, CommitError>
        ensures ok { IfOk result (λ s. Steps at.now (Self.event self.now) s) }
        ensures refused { IfErr result (λ e.
            IsStepRefusal e (stepped (world_of at.now) (Self.event self.now))) };

    /// The text of the event.
    fn text(&self, alloc: Global) -> Result<Vec<u8>, AllocError>
        ensures { IfOk result (λ text. Spells text.items (Self.event self.now)) };
}

impl AsEvent for Event {
    ghost event = { λ event. event };
}

impl Change for Event {
    fn apply(&self, alloc: Global, at: &Snapshot) -> Result<Snapshot, CommitError> {
        apply(alloc, at, self)
    }

    fn text(&self, alloc: Global) -> Result<Vec<u8>, AllocError> {
        text_of_event(alloc, self)
    }
}

impl AsEvent for RowBatch {
    ghost use Rattle.head.specs.BatchRows.{batch_of_rows};
    ghost use Rattle.head.specs.Worlds.{batch};

    ghost event = { λ rows. batch (batch_of_rows rows) };
}

impl Change for RowBatch {
    fn apply(&self, alloc: Global, at: &Snapshot) -> Result<Snapshot, CommitError> {
        apply_rows(alloc, at, self)
    }

    fn text(&self, alloc: Global) -> Result<Vec<u8>, AllocError> {
        text_of_rows(alloc, self)
    }
}

/// The snapshot after a change, to be shared.
pub fn snapshot_after<C: Change>(
    alloc: Global,
    at: &Snapshot,
    change: &C,
) -> Result<Arc<Snapshot>, CommitError>
    ensures ok { IfOk result (λ s. Steps at.now (C.event change.now) (arc_value s)) }
    ensures refused { IfErr result (λ e.
        IsStepRefusal e (stepped (world_of at.now) (C.event change.now))) }
{
    let snapshot = change.apply(alloc, at)?;
    match Arc::new(alloc, snapshot) {
        Ok(shared) => Ok(shared),
        Err(_) => Err(CommitError::Memory),
    }
}
