//! What a request does to a store, and the reply that reports it.

ghost use Rattle.std.specs.Prelude.{◌≡◌, ◌≢◌, ◌⊎◌, ◌++◌, IfOk, OnErr, IfErr, IsTrue, true, false};
ghost use mathlib.Core.List.{IsPrefix};
ghost use Rattle.labels.specs.Contents.{is_time};
ghost use Rattle.head.specs.BatchRows.{batch_of_rows};
ghost use Rattle.head.specs.Batches.{is_batch, is_deletion};
ghost use Rattle.head.specs.Worlds.{batch, deletion, cut};
ghost use Rattle.head.specs.declared.error.CommitError.TheVariants.{Journal, Memory};
ghost use Rattle.requests.specs.Fitting.{IsFit};
ghost use Rattle.requests.specs.Replies.{reply_text, done_text};
ghost use Rattle.requests.specs.declared.refusal.Refusal.TheVariants.{NotKept, Unavailable};
ghost use Rattle.requests.specs.declared.status.Status.TheVariants.{Done, Conflict};
ghost use Rattle.query_http.specs.Bounds.{is_bounded};
ghost use Rattle.query_http.specs.Reply.{text_of};
ghost use Rattle.answers.specs.Body.{body_text};
ghost use Rattle.answers.specs.Kept.{whole_of};
ghost use Rattle.answers.specs.MergedRows.{rows_of};
ghost use Rattle.snapshots.specs.Keeping.{AreHeld, PublishesHeld};
ghost use Rattle.query_http.specs.Serving.{worker, IsIdle, IsReplyOfRefusal, conflict_body};
ghost use Rattle.query_http.specs.Serving.{IsAnswerReply, IsCrowdedReply, IsQueryReply};
ghost use Rattle.query_http.specs.Serving.{IsEventReply, IsRequestReply};
ghost use Rattle.query_http.specs.Serving.{refused_at as place_refused};

use crate::buffers::Buffers;
use crate::reply::Reply;
use answers::{
    AnswerText, AskError, AuditedAnswer, answer_text, append_text, ask_by, length_of, room_to_ask,
};
use head::CommitError;
use keeper::Keeper;
use labels::Row;
use matchers::{Matcher, Query};
use requests::{Cause, Refusal, Request, Status, append_success_head, done_reply};
use snapshots::{Committer, Naming, OpenNaming, Pass, RowBatch, Seat};
use std::alloc::{AllocError, Global};
use std::sync::Wait;
use std::thread::Threads;
use std::time::Clock;

/// The reply of a refusal.
pub(crate) fn refusal_reply(alloc: Global, refusal: &Refusal) -> Result<Reply, AllocError>
    ensures { IfOk result (λ r. IsReplyOfRefusal refusal.now r.status (text_of r)) }
{
    let text = refusal.reply(alloc)?;
    Ok(Reply::new(refusal.status(), text))
}

/// The reply of a change that was made.
fn change_reply(alloc: Global) -> Result<Reply, AllocError>
    ensures number { IfOk result (λ r. r.status ≡ Done) }
    ensures spelled { IfOk result (λ r. text_of r ≡ done_text) }
{
    let text = done_reply(alloc)?;
    Ok(Reply::new(Status::Done, text))
}

/// An answer of at most this many bytes is copied behind the first bytes of its reply. The reply
/// then goes out in one piece.
const SHORT: usize = 65_536;

/// The reply of these first bytes and the answer behind them.
fn joined_reply(
    buffers: &mut Buffers,
    head: Vec<u8>,
    answer: AnswerText,
) -> Result<Reply, AllocError>
    ensures number { IfOk result (λ r. r.status ≡ Done) }
    ensures spelled { IfOk result (λ r. text_of r ≡ head.items ++ whole_of answer) }
    ensures room { buffers.new.room ≡ buffers.old.room }
{
    let mut head = head;
    append_text(&mut head, &answer)?;
    buffers.give_answer(answer);
    Ok(Reply::new(Status::Done, head))
}

/// The reply that carries an answer. Up to four threads write the text of a long one.
fn answer_reply<R: Threads + Sync>(
    rt: &R,
    alloc: Global,
    buffers: &mut Buffers,
    answer: &AuditedAnswer,
) -> Result<Reply, AllocError>
    ensures number { IfOk result (λ r. r.status ≡ Done) }
    ensures spelled { IfOk result (λ r. (text_of r)
        ≡ reply_text Done (body_text answer.now.parts.items (rows_of answer.now))) }
    ensures room { buffers.new.room ≡ buffers.old.room }
{
    let rooms = buffers.take_rooms(alloc);
    let text = answer_text(rt, alloc, rooms, answer)?;
    let size = length_of(&text)?;
    let mut head = buffers.take_head(alloc);
    append_success_head(&mut head, size)?;
    if size <= SHORT {
        return joined_reply(buffers, head, text);
    }
    Ok(Reply {
        status: Status::Done,
        head,
        answer: Some(text),
    })
}

/// Takes the room that the reply to a query needs, and says whether there was any. If the memory of
/// replies is not bounded, it looks at nothing.
fn take_room<J: Naming, R: Wait + Clock>(
    rt: &R,
    alloc: Global,
    buffers: &mut Buffers,
    pass: &mut Pass<J>,
    query: &Query,
) -> Result<bool, AskError>
    ensures bounded { IfOk result (λ taken. taken ≡ false → is_bounded buffers.old ≡ true) }
    ensures room { is_bounded buffers.new ≡ is_bounded buffers.old }
    ensures told { pass.new.told ≡ pass.old.told }
    ensures seen { IsPrefix pass.old.seen pass.new.seen }
{
    let Some(whole) = buffers.whole_room() else {
        return Ok(true);
    };
    let bytes = room_to_ask(alloc, pass, query, whole)?;
    Ok(buffers.take_room(rt, bytes))
}

/// Answers a query from the pass's next snapshot, or with `H10`.
fn answer_query<J: Naming, R: Threads + Sync>(
    rt: &R,
    alloc: Global,
    buffers: &mut Buffers,
    pass: &mut Pass<J>,
    query: &Query,
) -> Result<Reply, AllocError>
    ensures reply { IfOk result (λ r.
        IsAnswerReply J.opening query.now pass.old pass.new r.status (text_of r)
        ⊎ IsReplyOfRefusal Unavailable r.status (text_of r)) }
    ensures told { pass.new.told ≡ pass.old.told }
    ensures seen { IsPrefix pass.old.seen pass.new.seen }
    ensures room { buffers.new.room ≡ buffers.old.room }
{
    match ask_by(rt, alloc, pass, query) {
        Ok(answer) => answer_reply(rt, alloc, buffers, &answer),
        Err(AskError::Snapshot(_)) => refusal_reply(alloc, &Refusal::Unavailable),
        Err(AskError::Memory) => Err(AllocError),
    }
}

/// The reply that there is no room for one: `H13`, which the note tells too.
fn crowded_reply(alloc: Global, buffers: &mut Buffers) -> Result<Reply, AllocError>
    ensures reply { is_bounded buffers.old ≡ true
        → IfOk result (λ r. IsCrowdedReply (is_bounded buffers.old) r.status (text_of r)) }
    ensures room { buffers.new.room ≡ buffers.old.room }
{
    let refusal = Refusal::NoRoom;
    buffers.note = buffers.note.crowded(&refusal);
    refusal_reply(alloc, &refusal)
}

/// Answers a query from the pass's next snapshot, or with `H10`. If the memory of replies is
/// bounded, it takes room for the reply before, and replies with `H13` if there is none.
fn select<J: Naming, R: Wait + Threads + Clock + Sync>(
    rt: &R,
    alloc: Global,
    buffers: &mut Buffers,
    pass: &mut Pass<J>,
    query: &Query,
) -> Result<Reply, AllocError>
    ensures reply { IfOk result (λ r. IsQueryReply J.opening (is_bounded buffers.old) query.now
        pass.old pass.new r.status (text_of r)) }
    ensures told { pass.new.told ≡ pass.old.told }
    ensures seen { IsPrefix pass.old.seen pass.new.seen }
    ensures room { is_bounded buffers.new ≡ is_bounded buffers.old }
{
    match take_room(rt, alloc, buffers, pass, query) {
        Ok(true) => answer_query(rt, alloc, buffers, pass, query),
        Ok(false) => crowded_reply(alloc, buffers),
        Err(AskError::Snapshot(_)) => refusal_reply(alloc, &Refusal::Unavailable),
        Err(AskError::Memory) => Err(AllocError),
    }
}

/// Which sample of its batch is refused, if one is.
fn refused_at(error: CommitError) -> Option<usize>
    ensures { result ≡ place_refused error }
{
    match error {
        CommitError::OutOfBounds { at }
        | CommitError::OutOfOrder { at }
        | CommitError::Duplicate { at } => Some(at),
        _ => None,
    }
}

/// The reply to an event that the store refuses for what it is: `H9`.
fn conflict_reply(alloc: Global, error: CommitError) -> Result<Reply, AllocError>
    ensures number { IfOk result (λ r. r.status ≡ Conflict) }
    ensures spelled { IfOk result (λ r.
        text_of r ≡ reply_text Conflict (conflict_body error)) }
{
    let cause = Cause {
        code: error.code(),
        at: refused_at(error),
    };
    refusal_reply(alloc, &Refusal::Refused(cause))
}

/// The reply to an event that is not accepted: `H11` if it is not kept, and `H9` if the store
/// refuses it. If memory is refused, there is no reply.
fn event_refusal_reply(alloc: Global, error: CommitError) -> Result<Reply, AllocError>
    ensures no_memory { IfOk result (λ _. error ≢ Memory) }
    ensures unkept { error ≡ Journal
        → IfOk result (λ r. IsReplyOfRefusal NotKept r.status (text_of r)) }
    ensures number { error ≢ Journal → IfOk result (λ r. r.status ≡ Conflict) }
    ensures spelled { error ≢ Journal → IfOk result (λ r.
        text_of r ≡ reply_text Conflict (conflict_body error)) }
{
    match error {
        CommitError::Memory => Err(AllocError),
        CommitError::Journal => refusal_reply(alloc, &Refusal::NotKept),
        _ => conflict_reply(alloc, error),
    }
}

/// Publishes a batch of rows. The reply of success is made before.
fn write<J: OpenNaming, C: Wait + Drop, K: Keeper + Drop>(
    rt: &impl Wait,
    alloc: Global,
    rows: Vec<Row>,
    pass: &mut Pass<J>,
    seat: &mut Seat<J>,
    committer: &Committer<J, C, K>,
) -> Result<Reply, AllocError>
    requires { IsTrue (is_batch (batch_of_rows rows.items)) }
    ensures reply { IfOk result (λ r. IsEventReply J.opening K.idle
        (AreHeld K.holds K.stays J.before)
        (batch (batch_of_rows rows.items))
        (worker pass.old seat.old) (worker pass.new seat.new) r.status (text_of r)) }
    ensures held { PublishesHeld K.holds K.stays J.before seat.old seat.new }
    ensures kept { OnErr result ((pass.new ≡ pass.old) × (seat.new ≡ seat.old)) }
{
    let done = change_reply(alloc)?;
    match committer.commit_rows(rt, seat, RowBatch::new(rows)) {
        Ok(receipt) => {
            pass.learn(&receipt);
            Ok(done)
        }
        Err((_rows, refused)) => event_refusal_reply(alloc, refused.error),
    }
}

/// Publishes a deletion. The reply of success is made before.
fn delete<J: OpenNaming, C: Wait + Drop, K: Keeper + Drop>(
    rt: &impl Wait,
    alloc: Global,
    asked: (Vec<Matcher>, i64, i64),
    pass: &mut Pass<J>,
    seat: &mut Seat<J>,
    committer: &Committer<J, C, K>,
) -> Result<Reply, AllocError>
    requires { IsTrue (is_deletion asked.0.items asked.1 asked.2) }
    ensures reply { IfOk result (λ r. IsEventReply J.opening K.idle
        (AreHeld K.holds K.stays J.before)
        (deletion asked.0.items asked.1 asked.2)
        (worker pass.old seat.old) (worker pass.new seat.new) r.status (text_of r)) }
    ensures held { PublishesHeld K.holds K.stays J.before seat.old seat.new }
    ensures kept { OnErr result ((pass.new ≡ pass.old) × (seat.new ≡ seat.old)) }
{
    let (matchers, from, to) = asked;
    let done = change_reply(alloc)?;
    match committer.delete(rt, seat, matchers, from, to) {
        Ok(receipt) => {
            pass.learn(&receipt);
            Ok(done)
        }
        Err((_matchers, error)) => event_refusal_reply(alloc, error),
    }
}

/// Publishes a cut. The reply of success is made before.
fn cut_at<J: OpenNaming, C: Wait + Drop, K: Keeper + Drop>(
    rt: &impl Wait,
    alloc: Global,
    at: i64,
    pass: &mut Pass<J>,
    seat: &mut Seat<J>,
    committer: &Committer<J, C, K>,
) -> Result<Reply, AllocError>
    requires { IsTrue (is_time at) }
    ensures reply { IfOk result (λ r. IsEventReply J.opening K.idle
        (AreHeld K.holds K.stays J.before)
        (cut at)
        (worker pass.old seat.old) (worker pass.new seat.new) r.status (text_of r)) }
    ensures held { PublishesHeld K.holds K.stays J.before seat.old seat.new }
    ensures kept { OnErr result ((pass.new ≡ pass.old) × (seat.new ≡ seat.old)) }
{
    let done = change_reply(alloc)?;
    match committer.cut(rt, seat, at) {
        Ok(receipt) => {
            pass.learn(&receipt);
            Ok(done)
        }
        Err(refused) => event_refusal_reply(alloc, refused.error),
    }
}

/// Does what a request asks. The pass learns a change that the store accepts, whatever becomes of
/// the reply.
pub(crate) fn act<J: OpenNaming, C: Wait + Drop, K: Keeper + Drop>(
    rt: &(impl Wait + Threads + Clock + Sync),
    alloc: Global,
    buffers: &mut Buffers,
    request: Request,
    pass: &mut Pass<J>,
    seat: &mut Seat<J>,
    committer: &Committer<J, C, K>,
) -> Result<Reply, AllocError>
    requires { IsFit request }
    ensures reply { IfOk result (λ r. IsRequestReply J.opening K.idle (is_bounded buffers.old)
        (AreHeld K.holds K.stays J.before)
        request (worker pass.old seat.old) (worker pass.new seat.new) r.status (text_of r)) }
    ensures held { PublishesHeld K.holds K.stays J.before seat.old seat.new }
    ensures idle { OnErr result (IsIdle (worker pass.old seat.old) (worker pass.new seat.new)) }
    ensures room { is_bounded buffers.new ≡ is_bounded buffers.old }
{
    match request {
        Request::Select(query) => select(rt, alloc, buffers, pass, &query),
        Request::Write(rows) => write(rt, alloc, rows, pass, seat, committer),
        Request::Delete { matchers, from, to } => {
            delete(rt, alloc, (matchers, from, to), pass, seat, committer)
        }
        Request::Cut(at) => cut_at(rt, alloc, at, pass, seat, committer),
    }
}
