//! The line of `demo`, and the store that it asks. Two seats commit six series to the store, in two
//! batches.

ghost use Rattle.std.specs.Prelude.{◌≡◌, ◌<◌, ◌≤◌, ◌+◌, true, [], ◌++◌, ◌∷◌, length, string_bytes};
ghost use Rattle.std.specs.Prelude.{vec_len, pos, IsTrue, IfOk, IfErr, OnOk};
ghost use Rattle.labels.specs.Contents.{is_time};
ghost use Rattle.labels.specs.Names.{is_name};
ghost use Rattle.matchers.specs.Queries.{is_query_range};
ghost use Rattle.head.specs.Blocks.{opening_of};
ghost use Rattle.head.specs.Worlds.{batch};
ghost use Rattle.snapshots.specs.Replays.{EndsWith};
ghost use Rattle.commands.specs.Demo.{equal_to, demo_query, series_of, zoned_series, sampled};
ghost use Rattle.commands.specs.Demo.{first_event, second_event, demo_events};
ghost use Rattle.commands.specs.DemoAnswer.{IsAnswerAfter, IsCommitFault, IsDemoFault};
ghost use Rattle.commands.specs.DemoAnswer.{HasLast, WritesAnswerAfter};
ghost use Rattle.commands.specs.Selecting.{IsOfMemory, KeepsAt};

use crate::fault::{Fault, Refusal};
use crate::sending::send;
use crate::writing::line_of;
use answers::{AuditedAnswer, ask};
use head::AppendError;
use labels::{LabelSet, Sample};
use matchers::{Matcher, Op, Query};
use snapshots::{
    Appender, Committer, Naming, Open, OpenNaming, Pass, Receipt, Seat, SnapshotError, Store,
};
use std::alloc::{AllocError, Global};
use std::io::Write;
use std::marker::Brand;
use std::sync::Wait;

fn pair(alloc: Global, name: &str, value: &str) -> Result<(String, String), AllocError>
    ensures name { IfOk result (λ p. string_bytes p.0 ≡ name.now) }
    ensures value { IfOk result (λ p. string_bytes p.1 ≡ value.now) }
{
    let name = String::from_str(alloc, name)?;
    let value = String::from_str(alloc, value)?;
    Ok((name, value))
}

fn series(alloc: Global, name: &str, job: &str) -> Result<LabelSet, AllocError>
    requires name { 0 < length name.now }
    requires job { 0 < length job.now }
    ensures { IfOk result (λ l. l ≡ series_of name.now job.now) }
{
    let name = pair(alloc, "__name__", name)?;
    let job = pair(alloc, "job", job)?;
    let pairs = vec![in alloc; name, job]?;
    LabelSet::of_sorted(alloc, pairs.as_slice())
}

fn series_in(alloc: Global, name: &str, job: &str, zone: &str) -> Result<LabelSet, AllocError>
    requires name { 0 < length name.now }
    requires job { 0 < length job.now }
    requires zone { 0 < length zone.now }
    ensures { IfOk result (λ l. l ≡ zoned_series name.now job.now zone.now) }
{
    let name = pair(alloc, "__name__", name)?;
    let job = pair(alloc, "job", job)?;
    let zone = pair(alloc, "zone", zone)?;
    let pairs = vec![in alloc; name, job, zone]?;
    LabelSet::of_sorted(alloc, pairs.as_slice())
}

/// Adds a sample to a batch, which only memory refuses.
fn add(appender: &mut Appender, labels: LabelSet, sample: Sample) -> Result<(), Fault>
    requires room { length appender.old < 4096 }
    requires time { IsTrue (is_time sample.0) }
    ensures ok { OnOk result (appender.new ≡ appender.old ++ (labels, sample) ∷ []) }
    ensures err { IfErr result (λ fault. IsOfMemory fault) }
{
    match appender.append(labels, sample) {
        Ok(()) => Ok(()),
        Err((_labels, AppendError::Memory)) => Err(Fault::Memory),
        Err((_labels, AppendError::Full | AppendError::TimeRange)) => unreachable!(),
    }
}

/// Adds a series to a batch, with its number as its value at the times 10 and 20.
fn add_series(appender: &mut Appender, labels: LabelSet, number: i64) -> Result<(), Fault>
    requires { length appender.old < 4095 }
    ensures ok { OnOk result (appender.new ≡ appender.old ++ sampled labels number) }
    ensures err { IfErr result (λ fault. IsOfMemory fault) }
{
    let again = labels.try_clone()?;
    add(appender, again, Sample::new(10, number))?;
    add(appender, labels, Sample::new(20, number))
}

/// The batch of the series 1, 2 and 3.
pub fn first_batch(alloc: Global) -> Result<Appender, Fault>
    ensures ok { IfOk result (λ appender. batch appender ≡ first_event) }
    ensures err { IfErr result (λ fault. IsOfMemory fault) }
{
    let mut appender = Appender::new(alloc);
    add_series(&mut appender, series(alloc, "up", "a")?, 1)?;
    add_series(&mut appender, series(alloc, "up", "b")?, 2)?;
    add_series(&mut appender, series_in(alloc, "up", "b", "x")?, 3)?;
    Ok(appender)
}

/// The batch of the series 4, 5 and 6.
pub fn second_batch(alloc: Global) -> Result<Appender, Fault>
    ensures ok { IfOk result (λ appender. batch appender ≡ second_event) }
    ensures err { IfErr result (λ fault. IsOfMemory fault) }
{
    let mut appender = Appender::new(alloc);
    add_series(&mut appender, series(alloc, "down", "a")?, 4)?;
    add_series(&mut appender, series(alloc, "down", "b")?, 5)?;
    add_series(&mut appender, series_in(alloc, "up", "a", "x")?, 6)?;
    Ok(appender)
}

fn equal(alloc: Global, name: &str, text: &str) -> Result<Matcher, Fault>
    requires { is_name name.now ≡ true }
    ensures ok { IfOk result (λ m. m ≡ equal_to name.now text.now) }
    ensures err { IfErr result (λ fault. IsOfMemory fault) }
{
    let name = String::from_str(alloc, name)?;
    let text = String::from_str(alloc, text)?;
    Ok(Matcher::new(alloc, name, Op::Equal, text)?)
}

/// The query `up{job="a"}` in a closed range of times.
pub fn query(alloc: Global, from: i64, to: i64) -> Result<Query, Fault>
    ensures ok { IfOk result (λ q. q ≡ demo_query from to) }
    ensures err { IfErr result (λ fault. is_query_range from to ≡ true → IsOfMemory fault) }
{
    let mut matchers = Vec::new(alloc);
    matchers.push(equal(alloc, "__name__", "up")?)?;
    matchers.push(equal(alloc, "job", "a")?)?;
    Ok(Query::new(matchers, from, to)?)
}

/// Commits a batch under a seat.
fn commit<J: OpenNaming, R: Wait>(
    rt: &R,
    committer: &Committer<J, &R>,
    seat: &mut Seat<J>,
    appender: Appender,
) -> Result<Receipt<J>, Fault>
    ensures ends { IfOk result (λ r. EndsWith (batch appender) seat.old.number r) }
    ensures err { IfErr result (λ fault.
        IsCommitFault J.opening seat.old (batch appender) fault) }
{
    match committer.commit(rt, seat, appender) {
        Ok(receipt) => Ok(receipt),
        Err((_appender, refused)) => Err(Fault::from(refused.error)),
    }
}

/// Commits the first batch under a seat.
fn commit_first<J: OpenNaming, R: Wait>(
    rt: &R,
    alloc: Global,
    committer: &Committer<J, &R>,
    seat: &mut Seat<J>,
) -> Result<Receipt<J>, Fault>
    requires opening { opening_of [] ≡ J.opening }
    ensures ends { IfOk result (λ r. HasLast first_event r) }
    ensures err { IfErr result (λ fault. IsDemoFault fault) }
{
    let appender = first_batch(alloc)?;
    commit(rt, committer, seat, appender)
}

/// Commits the second batch under a seat.
fn commit_second<J: OpenNaming, R: Wait>(
    rt: &R,
    alloc: Global,
    committer: &Committer<J, &R>,
    seat: &mut Seat<J>,
) -> Result<Receipt<J>, Fault>
    requires opening { opening_of [] ≡ J.opening }
    ensures ends { IfOk result (λ r. HasLast second_event r) }
    ensures err { IfErr result (λ fault. IsDemoFault fault) }
{
    let appender = second_batch(alloc)?;
    commit(rt, committer, seat, appender)
}

/// A pass learns both receipts, and is asked.
fn answer_told<J: Naming>(
    alloc: Global,
    pass: &mut Pass<J>,
    first: &Receipt<J>,
    second: &Receipt<J>,
    query: &Query,
) -> Result<AuditedAnswer, Fault>
    requires opening { opening_of [] ≡ J.opening }
    requires first { HasLast first_event first.now }
    requires second { HasLast second_event second.now }
    ensures ok { IfOk result (λ answer. IsAnswerAfter demo_events query.now answer) }
    ensures err { IfErr result (λ fault. IsDemoFault fault) }
{
    pass.learn(first);
    pass.learn(second);
    let answer = ask(alloc, pass, query)?;
    if first.events() == 1 && second.events() == 2 && pass.events() == 2 {
        return Ok(answer);
    }
    Err(Fault::Refused(Refusal::Snapshot(SnapshotError::Unavailable)))
}

/// Two seats commit a batch each, and a pass that learns both receipts is asked.
fn answer_by<J: OpenNaming, R: Wait>(
    rt: &R,
    alloc: Global,
    committer: &Committer<J, &R>,
    pass: &mut Pass<J>,
    first_seat: &mut Seat<J>,
    second_seat: &mut Seat<J>,
    query: &Query,
) -> Result<AuditedAnswer, Fault>
    requires opening { opening_of [] ≡ J.opening }
    ensures ok { IfOk result (λ answer. IsAnswerAfter demo_events query.now answer) }
    ensures err { IfErr result (λ fault. IsDemoFault fault) }
{
    let first = commit_first(rt, alloc, committer, first_seat)?;
    let second = commit_second(rt, alloc, committer, second_seat)?;
    answer_told(alloc, pass, &first, &second, query)
}

/// Takes the last of a list that is not empty.
fn last_of<T: Drop>(items: &mut Vec<T>) -> T
    requires { 0 < vec_len items.old }
    ensures { vec_len items.old ≡ vec_len items.new + 1 }
{
    match items.pop() {
        Some(item) => item,
        None => unreachable!(),
    }
}

/// Two seats of an empty store commit a batch each. A pass learns both receipts, and is asked.
fn answer_of<J: Naming, R: Wait>(
    rt: &R,
    alloc: Global,
    store: Store,
    query: &Query,
) -> Result<AuditedAnswer, Fault>
    requires book { store.seen.book ≡ J.book }
    requires opening { opening_of [] ≡ J.opening }
    ensures ok { IfOk result (λ answer. IsAnswerAfter demo_events query.now answer) }
    ensures err { IfErr result (λ fault. IsDemoFault fault) }
{
    let (committer, mut passes, mut seats) = store.open::<Open<J>, &R>(
        rt,
        alloc,
        Vec::new(alloc),
        1,
        2,
    )?;
    let mut pass = last_of(&mut passes);
    let mut second_seat = last_of(&mut seats);
    let mut first_seat = last_of(&mut seats);
    answer_by(
        rt,
        alloc,
        &committer,
        &mut pass,
        &mut first_seat,
        &mut second_seat,
        query,
    )
}

/// The audited answer to `up{job="a"}` from 0 to 100, of a store to which two seats commit a batch
/// each. A pass that learnt both receipts is asked.
///
/// Besides memory, `O4` and `S1` and a refusal of a batch are answered if the store answers them.
/// `S1` also means a pass that sees other events than the two. That does not occur, since nobody
/// else has the store.
pub fn demo_answer<R: Wait>(rt: &R, alloc: Global) -> Result<AuditedAnswer, Fault>
    ensures ok { IfOk result (IsAnswerAfter demo_events (demo_query (pos 0) (pos 100))) }
    ensures err { IfErr result (λ fault. IsDemoFault fault) }
{
    let query = query(alloc, 0, 100)?;
    answer_of::<Brand, R>(rt, alloc, Store::new(), &query)
}

/// Writes the audited answer to `up{job="a"}` from 0 to 100 over the store of the two batches.
pub fn demo<R: Wait, W: Write>(rt: &R, alloc: Global, out: &mut W) -> Result<(), Fault>
    ensures ok { OnOk result (WritesAnswerAfter demo_events (demo_query (pos 0) (pos 100))
        (W.contents out.old) (W.contents out.new)) }
    ensures faults { IfErr result (λ fault. IsDemoFault fault) }
    ensures kept { IfErr result (λ fault. KeepsAt fault (W.contents out.old) (W.contents out.new)) }
{
    let answer = demo_answer(rt, alloc)?;
    let line = line_of(alloc, &answer)?;
    send(out, line.as_slice())?;
    Ok(())
}
