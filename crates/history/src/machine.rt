//! The replies to the steps of several actors.

ghost use Rattle.std.specs.Prelude.{◌≡◌, ℕ, IfOk};
ghost use Rattle.std.specs.List.{AllZip};
ghost use Rattle.head.specs.Heads.{world_of};
ghost use Rattle.head.specs.Worlds.{World, stepped};
ghost use Rattle.history.specs.Machine.{started, machine_replies};
ghost use Rattle.history.specs.Replies.{TellsOutcome, IsSettled, IsStep, machine_at, world_after};
ghost use Rattle.history.specs.Steps.{append, commit, change};

use crate::buffers::Held;
use crate::reply::Reply;
use crate::step::{Action, Step};
use crate::walk::rows_of;
use head::{AppendError, CommitError, Event, MAX_BATCH, Snapshot, apply};
use labels::{LabelSet, Sample, is_time};
use std::alloc::{AllocError, Global};

/// The snapshot after an event, or why it is refused; a lack of memory is told apart.
fn take_event(
    alloc: Global,
    at: &Snapshot,
    event: &Event,
) -> Result<Result<Snapshot, CommitError>, AllocError>
    ensures { IfOk result (IsSettled (stepped (world_of at.now) event.now)) }
{
    match apply(alloc, at, event) {
        Ok(next) => Ok(Ok(next)),
        Err(CommitError::Memory) => Err(AllocError),
        Err(refusal) => Ok(Err(refusal)),
    }
}

fn append(
    alloc: Global,
    held: &mut Held,
    actor: usize,
    labels: &LabelSet,
    sample: Sample,
) -> Result<Reply, AllocError>
    ensures { IfOk result (λ reply. (w : World)
        → IsStep (machine_at w held.old) (append actor labels.now sample) reply
        (machine_at w held.new)) }
{
    let mut samples = held.take(alloc, actor);
    let reply = if samples.len() >= MAX_BATCH {
        Reply::NotAppended(AppendError::Full)
    } else if is_time(sample.t()) {
        samples.push((labels.try_clone()?, sample))?;
        Reply::Done
    } else {
        Reply::NotAppended(AppendError::TimeRange)
    };
    held.put(actor, samples)?;
    Ok(reply)
}

fn commit(
    alloc: Global,
    at: &Snapshot,
    held: &mut Held,
    actor: usize,
) -> Result<(Reply, Option<Snapshot>), AllocError>
    ensures { IfOk result (λ r. IsStep (machine_at (world_of at.now) held.old) (commit actor)
        r.0 (machine_at (world_after at.now r.1) held.new)) }
{
    let event = Event::batch(held.take(alloc, actor));
    match take_event(alloc, at, &event)? {
        Ok(next) => Ok((Reply::Done, Some(next))),
        Err(refusal) => {
            if let Some(samples) = event.into_batch() {
                held.put(actor, samples)?;
            }
            Ok((Reply::Refused(refusal), None))
        }
    }
}

fn change(
    alloc: Global,
    at: &Snapshot,
    event: &Event,
) -> Result<(Reply, Option<Snapshot>), AllocError>
    ensures { IfOk result (λ r. (held : Held) (actor : ℕ) →
        IsStep (machine_at (world_of at.now) held) (change actor event.now)
        r.0 (machine_at (world_after at.now r.1) held)) }
{
    match take_event(alloc, at, event)? {
        Ok(made) => Ok((Reply::Done, Some(made))),
        Err(refusal) => Ok((Reply::Refused(refusal), None)),
    }
}

/// The reply to a step, and the snapshot that it makes, if it makes one.
fn take_step(
    alloc: Global,
    at: &Snapshot,
    held: &mut Held,
    step: &Step,
) -> Result<(Reply, Option<Snapshot>), AllocError>
    ensures { IfOk result (λ r. IsStep (machine_at (world_of at.now) held.old) step.now
        r.0 (machine_at (world_after at.now r.1) held.new)) }
{
    let (actor, action) = step.parts();
    match action {
        Action::Append(labels, sample) => {
            Ok((append(alloc, held, actor, labels, *sample)?, None))
        }
        Action::Commit => commit(alloc, at, held, actor),
        Action::Change(event) => change(alloc, at, event),
        Action::Query(query) => Ok((Reply::Rows(rows_of(alloc, at, query)?), None)),
    }
}

/// The snapshot that the last event made, or the opening one.
fn latest_of<'a>(opening: &'a Snapshot, latest: &'a Option<Snapshot>) -> &'a Snapshot
    ensures { world_of result.now ≡ world_after opening.now latest.now }
{
    match latest {
        Some(snapshot) => snapshot,
        None => opening,
    }
}

/// What each of the steps is answered, one after another, from a snapshot on.
///
/// An actor's `append` is refused with `A1` where its buffer has 4,096 samples, else with `A2`
/// where the time is none; a commit hands over the actor's buffer as one batch, and leaves it empty
/// where that is accepted and as it was where it is refused. Where memory ends there are no
/// replies. A query looks at every sample of every part.
pub fn run(alloc: Global, opening: &Snapshot, steps: &[Step]) -> Result<Vec<Reply>, AllocError>
    ensures { IfOk result (λ replies. AllZip TellsOutcome
        (machine_replies (started (world_of opening.now)) steps.now) replies.items) }
{
    let mut latest = None;
    let mut held = Held::new(alloc);
    let mut replies = Vec::new(alloc);
    for step in steps {
        let (reply, next) = take_step(alloc, latest_of(opening, &latest), &mut held, step)?;
        replies.push(reply)?;
        latest = next.or(latest);
    }
    Ok(replies)
}
