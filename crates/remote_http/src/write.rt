//! What a write does to a store, and the reply that reports it.

ghost use Rattle.std.specs.Prelude.{◌≡◌, ◌≢◌, ◌≤◌, ◌⊎◌, false, IfOk, IfErr, OnErr, length};
ghost use Rattle.head.specs.BatchRows.{batch_of_rows};
ghost use Rattle.head.specs.Laws.{all_of};
ghost use Rattle.head.specs.Telling.{total};
ghost use Rattle.head.specs.declared.error.CommitError.TheVariants.{Journal, Memory};
ghost use Rattle.remote_requests.specs.declared.refusal.Refusal.TheVariants.{NotKept};
ghost use Rattle.snapshots.specs.Keeping.{PublishesHeld};
ghost use Rattle.snapshots.specs.Replays.{IsOfStore};
ghost use Rattle.remote_http.specs.Cutting.{IsFew};
ghost use Rattle.remote_http.specs.Filling.{batches_of};
ghost use Rattle.remote_http.specs.Publishing.{IsPublished, PublishesFirst};
ghost use Rattle.remote_http.specs.Reply.{text_of};
ghost use Rattle.remote_http.specs.Workers.{worker};
ghost use Rattle.remote_http.specs.Writing.{IsKeptReply, IsReplyOfRefusal, IsSiftedPart};
ghost use Rattle.remote_http.specs.Writing.{IsUnkeptReply, IsWriteReply, PublishesFront};

use crate::counts::then_left;
use crate::parts::cut;
use crate::reply::{Reply, done_reply, refusal_reply};
use crate::told::kept_reply;
use head::{CommitError, Left};
use keeper::Keeper;
use remote_requests::{Received, Refusal};
use snapshots::{Committer, OpenNaming, Pass, RowBatch, Seat};
use std::alloc::{AllocError, Global};
use std::sync::Wait;

/// Sifts one part. The pass learns the receipt.
fn publish_part<J: OpenNaming, C: Wait + Drop, K: Keeper + Drop>(
    rt: &impl Wait,
    part: RowBatch,
    pass: &mut Pass<J>,
    seat: &mut Seat<J>,
    committer: &Committer<J, C, K>,
) -> Result<Left, CommitError>
    ensures part { IfOk result (IsSiftedPart J.opening (batch_of_rows part)
        (worker pass.old seat.old) (worker pass.new seat.new)) }
    ensures few { IfOk result (λ left. total left ≤ length (batch_of_rows part)) }
    ensures same { OnErr result (worker pass.new seat.new ≡ worker pass.old seat.old) }
    ensures refused { IfErr result IsOfStore }
    ensures journal { IfErr result (λ e. e ≡ Journal → K.idle ≡ false) }
    ensures held { PublishesHeld K.holds K.stays J.before seat.old seat.new }
{
    match committer.sift(rt, seat, part) {
        Ok(sifted) => {
            pass.learn(sifted.receipt());
            Ok(sifted.left())
        }
        Err((_rows, error)) => Err(error),
    }
}

/// Publishes the parts one after another, up to the first that is not kept. Returns what they left
/// out.
fn publish<J: OpenNaming, C: Wait + Drop, K: Keeper + Drop>(
    rt: &impl Wait,
    parts: Vec<RowBatch>,
    pass: &mut Pass<J>,
    seat: &mut Seat<J>,
    committer: &Committer<J, C, K>,
) -> Result<Left, CommitError>
    requires { length (all_of (batches_of parts.items)) ≤ 65536 }
    ensures all { IfOk result (IsPublished J.opening (batches_of parts.items)
        (worker pass.old seat.old) (worker pass.new seat.new)) }
    ensures first { OnErr result (PublishesFirst J.opening (batches_of parts.items)
        (worker pass.old seat.old) (worker pass.new seat.new)) }
    ensures refused { IfErr result IsOfStore }
    ensures journal { IfErr result (λ e. e ≡ Journal → K.idle ≡ false) }
    ensures held { PublishesHeld K.holds K.stays J.before seat.old seat.new }
{
    let mut left = Left::none();
    for part in parts {
        let more = publish_part(rt, part, pass, seat, committer)?;
        left = then_left(left, more);
    }
    Ok(left)
}

/// The reply to a write of which a part was not kept.
fn unkept_reply(alloc: Global, error: CommitError) -> Result<Reply, AllocError>
    ensures no_memory { IfOk result (λ _. error ≢ Memory) }
    ensures refused { IfOk result (λ r. IsReplyOfRefusal NotKept r.status (text_of r)) }
{
    match error {
        CommitError::Memory => Err(AllocError),
        _ => refusal_reply(alloc, &Refusal::NotKept),
    }
}

/// Publishes all that a write brings, and reports what was left out of it.
fn publish_all<J: OpenNaming, C: Wait + Drop, K: Keeper + Drop>(
    rt: &impl Wait,
    alloc: Global,
    received: Received,
    pass: &mut Pass<J>,
    seat: &mut Seat<J>,
    committer: &Committer<J, C, K>,
) -> Result<Reply, AllocError>
    requires { IsFew (batch_of_rows received.rows.items) }
    ensures reply { IfOk result (λ r. IsKeptReply J.opening received
        (worker pass.old seat.old) (worker pass.new seat.new) r.status (text_of r)
        ⊎ IsUnkeptReply J.opening K.idle received
        (worker pass.old seat.old) (worker pass.new seat.new) r.status (text_of r)) }
    ensures front { OnErr result (PublishesFront J.opening (batch_of_rows received.rows.items)
        (worker pass.old seat.old) (worker pass.new seat.new)) }
    ensures held { PublishesHeld K.holds K.stays J.before seat.old seat.new }
{
    let Received { rows, left, of } = received;
    let done = done_reply(alloc)?;
    let parts = cut(alloc, rows)?;
    match publish(rt, parts, pass, seat, committer) {
        Ok(more) => kept_reply(alloc, done, &left, of, more),
        Err(error) => unkept_reply(alloc, error),
    }
}

/// Does a write. Nothing is written while the clock is before the first time at which writes are
/// taken. The parts of a write stay in the store also if a later part is not kept, or if there is
/// no memory for it.
pub(crate) fn write<J: OpenNaming, C: Wait + Drop, K: Keeper + Drop>(
    rt: &impl Wait,
    alloc: Global,
    received: Received,
    first: i64,
    now: i64,
    pass: &mut Pass<J>,
    seat: &mut Seat<J>,
    committer: &Committer<J, C, K>,
) -> Result<Reply, AllocError>
    requires { IsFew (batch_of_rows received.rows.items) }
    ensures reply { IfOk result (λ r. IsWriteReply J.opening K.idle first now received
        (worker pass.old seat.old) (worker pass.new seat.new) r.status (text_of r)) }
    ensures front { OnErr result (PublishesFront J.opening (batch_of_rows received.rows.items)
        (worker pass.old seat.old) (worker pass.new seat.new)) }
    ensures held { PublishesHeld K.holds K.stays J.before seat.old seat.new }
{
    if now < first {
        return refusal_reply(alloc, &Refusal::ClockBehind);
    }
    publish_all(rt, alloc, received, pass, seat, committer)
}
