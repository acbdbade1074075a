//! What a read asks of a store, and the reply that reports it.

ghost use Rattle.std.specs.Prelude.{◌≡◌, List, IfOk, MatchBool};
ghost use mathlib.Core.List.{IsPrefix};
ghost use Rattle.remote_rows.specs.Sent.{Answer, IsReplyTo};
ghost use Rattle.remote_http.specs.Answering.{AddsAnswer, HasAnswers, HasUnnamed, IsUnnamed};
ghost use Rattle.remote_http.specs.Reading.{IsReadReply};
ghost use Rattle.remote_http.specs.Reply.{text_of};

use crate::metric::are_named;
use crate::reply::{Reply, packed_reply, refusal_reply};
use answers::answer_in_turn;
use head::Snapshot;
use remote_requests::{Reading, Refusal};
use remote_rows::{packed, put_answer};
use snapshots::{Naming, Pass};
use std::alloc::{AllocError, Global};
use std::thread::Threads;

/// Adds the answer of a snapshot to a reply, unless a row of it cannot be sent. Returns whether it
/// was added.
fn add_answer<R: Threads + Sync>(
    rt: &R,
    alloc: Global,
    text: &mut Vec<u8>,
    snapshot: &Snapshot,
    reading: &Reading,
) -> Result<bool, AllocError>
    ensures { IfOk result (λ named. MatchBool named
        (AddsAnswer snapshot.now reading.now text.old.items text.new.items)
        (IsUnnamed snapshot.now reading.now)) }
{
    match &reading.query {
        None => {
            put_answer(alloc, text, &[], reading.names_alone)?;
            Ok(true)
        }
        Some(query) => {
            let answer = answer_in_turn(rt, alloc, snapshot, query)?;
            if !are_named(answer.rows()) {
                return Ok(false);
            }
            put_answer(alloc, text, answer.rows(), reading.names_alone)?;
            Ok(true)
        }
    }
}

/// Adds the answers of a snapshot to a reply, up to the first of which a row cannot be sent.
/// Returns whether all were added.
fn add_answers<R: Threads + Sync>(
    rt: &R,
    alloc: Global,
    text: &mut Vec<u8>,
    snapshot: &Snapshot,
    readings: &[Reading],
) -> Result<bool, AllocError>
    ensures { (front : List Answer) → IsReplyTo front text.old.items
        → IfOk result (λ named. MatchBool named
        (HasAnswers front snapshot.now readings.now text.new.items)
        (HasUnnamed snapshot.now readings.now)) }
{
    for reading in readings {
        if !add_answer(rt, alloc, text, snapshot, reading)? {
            return Ok(false);
        }
    }
    Ok(true)
}

/// Answers each reading from the pass's next snapshot, one for all of them. The answers are in
/// memory one after another, and the reply beside each.
pub(crate) fn read<J: Naming, R: Threads + Sync>(
    rt: &R,
    alloc: Global,
    readings: &[Reading],
    pass: &mut Pass<J>,
) -> Result<Reply, AllocError>
    ensures reply { IfOk result (λ r.
        IsReadReply J.opening readings.now pass.old pass.new r.status (text_of r)) }
    ensures told { pass.new.told ≡ pass.old.told }
    ensures seen { IsPrefix pass.old.seen pass.new.seen }
{
    let Ok(snapshot) = pass.snapshot() else {
        return refusal_reply(alloc, &Refusal::Unavailable);
    };
    let mut text = Vec::new(alloc);
    if !add_answers(rt, alloc, &mut text, &snapshot, readings)? {
        return refusal_reply(alloc, &Refusal::NoMetric);
    }
    let body = packed(alloc, text.as_slice())?;
    packed_reply(alloc, body)
}
