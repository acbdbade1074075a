//! Many threads at once: eight commit, one cuts, one deletes and four ask. The tests look at each
//! refusal, audit each answer, and replay what was accepted.

ghost use Rattle.std.specs.Prelude.{◌≡◌, []};
ghost use Rattle.head.specs.Blocks.{opening_of};

use crate::tables::{audit_parts, finds_spoiled};
use audit_laws::{SoundAnswers, search_and_audit};
use block_search::{OpenGate, search};
use cover::PartAnswer;
use head::{CommitError, Event, Snapshot};
use history::{Reply, Step, run};
use labels::{LabelSet, Row, Sample, is_time};
use matchers::{Query, Selector};
use snapshots::{Appender, Committer, Naming, Open, OpenNaming, Pass, Receipt, Seat, Store};
use std::alloc::{AllocError, Global};
use std::marker::Brand;
use std::sync::atomic::{AtomicU64, Ordering};
use std::sync::{Arc, Mutex, Wait};
use std::thread::{Threads, map_vec, yield_now};

/// The numbers of the seats: those below commit.
const CUTTER: usize = 8;

const DELETER: usize = 9;

/// How many events each seat of the first eight tries, and how many each of the last two.
const COMMITS: u64 = 50;

const CHANGES: u64 = 10;

/// How far the clock goes from one cut or deletion to the next. In all it goes 1,604 times on.
const PACE: u64 = 160;

/// How far behind the clock a cut is made: late batches have their times.
const LAG: u64 = 80;

/// How far a deletion reaches.
const WIDTH: i64 = 40;

/// An accepted event: how many events its receipt has, the seat, and its time.
type Done = (u64, usize, i64);

const JOBS: [&str; 8] = ["0", "1", "2", "3", "4", "5", "6", "7"];

/// The zones of the two series of a job. Each has two of the four samples of a batch.
const ZONES: [&str; 4] = ["a", "b", "a", "b"];

/// The time of the last cut. No batch from there on is refused.
const LAST_CUT: i64 = 1_520;

/// What is asked: a selector, and the range.
type Asked = (&'static str, i64, i64);

const EVERYTHING: Asked = ("{job=~\".+\"}", 0, 2_000);

const ASKED: [Asked; 4] = [
    EVERYTHING,
    ("up{job=~\"0|3|5\",zone!=\"b\"}", 0, 900),
    ("{zone=\"a\"}", 400, 1_200),
    ("{job!=\"2\",zone=~\"b|c\"}", 800, 2_000),
];

/// What threads share: the next time, how many of them still change the store, and the receipts of
/// all events until now.
#[derive(Drop)]
struct Board<J: Naming> {
    clock: AtomicU64,
    at_work: AtomicU64,
    receipts: Mutex<Vec<Receipt<J>>>,
}

/// Who takes part in it, with a seat or a pass.
#[derive(Drop)]
enum Actor<J: Naming> {
    Changing(Seat<J>),
    Asking(usize, Pass<J>),
}

impl<J: Naming> Board<J> {
    /// The time of a seat's event. For a batch the clock goes on. A cut and a deletion wait for it.
    fn time_of(&self, rt: &impl Wait, seat: usize, round: u64) -> i64 {
        if seat < CUTTER {
            let time = self.clock.fetch_add(4, Ordering::SeqCst);
            return i64::try_from(time).unwrap_or(0);
        }
        let due = round.saturating_add(1).saturating_mul(PACE);
        for _ in rt.forever() {
            if self.clock.load(Ordering::SeqCst) >= due {
                break;
            }
            yield_now();
        }
        i64::try_from(due.saturating_sub(LAG)).unwrap_or(0)
    }

    /// Lets a pass learn each receipt.
    fn tell(&self, rt: &impl Wait, pass: &mut Pass<J>) {
        let told = self.receipts.lock(rt);
        for receipt in told.as_slice() {
            pass.learn(receipt);
        }
    }

    /// Keeps a receipt.
    fn keep(&self, rt: &impl Wait, receipt: Receipt<J>) -> Option<()> {
        let mut told = self.receipts.lock(rt);
        told.push(receipt).ok()
    }
}

fn pair_of(alloc: Global, name: &str, value: &str) -> Result<(String, String), AllocError> {
    let name = String::from_str(alloc, name)?;
    Ok((name, String::from_str(alloc, value)?))
}

fn pairs_of(alloc: Global, pairs: &[(&str, &str)]) -> Result<Vec<(String, String)>, AllocError> {
    let mut made = Vec::new(alloc);
    for (name, value) in pairs {
        made.push(pair_of(alloc, name, value)?)?;
    }
    Ok(made)
}

/// The labels of a name, a job and a zone.
fn labels_of(alloc: Global, name: &str, job: &str, zone: &str) -> Option<LabelSet> {
    let pairs = [("__name__", name), ("job", job), ("zone", zone)];
    LabelSet::new(alloc, pairs_of(alloc, &pairs).ok()?).ok()
}

/// Adds a sample of a job and a zone.
fn push_sample(
    alloc: Global,
    batch: &mut Vec<(LabelSet, Sample)>,
    series: (&str, &str),
    sample: Sample,
) -> Option<()> {
    let labels = labels_of(alloc, "up", series.0, series.1)?;
    batch.push((labels, sample)).ok()
}

/// The four samples of a batch: two of each series, at times that follow one another.
fn batch_of(alloc: Global, seat: usize, at: i64) -> Option<Vec<(LabelSet, Sample)>> {
    let job = JOBS.get(seat)?;
    let mut batch = Vec::new(alloc);
    let mut time = at;
    for zone in &ZONES {
        push_sample(alloc, &mut batch, (*job, *zone), Sample::new(time, at))?;
        time = time.saturating_add(1);
    }
    Some(batch)
}

fn appender_of(alloc: Global, seat: usize, at: i64) -> Option<Appender> {
    let batch = batch_of(alloc, seat, at)?;
    let mut appender = Appender::new(alloc);
    for (labels, sample) in batch {
        appender.append(labels, sample).ok()?;
    }
    Some(appender)
}

fn query_of(alloc: Global, asked: Asked) -> Option<Query> {
    let matchers = Selector::parse(alloc, asked.0).ok()?;
    Query::new(matchers, asked.1, asked.2).ok()
}

/// What a deletion asks for.
const DELETED: &str = "{zone=\"b\"}";

/// The receipt of a batch, or none if a cut has passed it. There is nothing if it is refused for
/// another reason.
fn commit<J: OpenNaming, C: Wait + Drop>(
    rt: &impl Wait,
    alloc: Global,
    committer: &Committer<J, C>,
    seat: &mut Seat<J>,
    at: i64,
) -> Option<Option<Receipt<J>>> {
    let appender = appender_of(alloc, seat.number(), at)?;
    match committer.commit(rt, seat, appender) {
        Ok(receipt) => Some(Some(receipt)),
        Err((_, refused)) => match refused.error {
            CommitError::OutOfBounds { at: _ } if at < LAST_CUT => Some(None),
            _ => None,
        },
    }
}

fn delete<J: OpenNaming, C: Wait + Drop>(
    rt: &impl Wait,
    alloc: Global,
    committer: &Committer<J, C>,
    seat: &mut Seat<J>,
    at: i64,
) -> Option<Receipt<J>> {
    let matchers = Selector::parse(alloc, DELETED).ok()?;
    let to = at.saturating_add(WIDTH);
    if !Event::is_deletion(&matchers, at, to) {
        return None;
    }
    committer.delete(rt, seat, matchers, at, to).ok()
}

fn cut<J: OpenNaming, C: Wait + Drop>(
    rt: &impl Wait,
    committer: &Committer<J, C>,
    seat: &mut Seat<J>,
    at: i64,
) -> Option<Receipt<J>> {
    if !is_time(at) {
        return None;
    }
    committer.cut(rt, seat, at).ok()
}

/// The receipt of a seat's event, or none if a cut has passed it. There is nothing if it is refused
/// for another reason.
fn change<J: OpenNaming, C: Wait + Drop>(
    rt: &impl Wait,
    alloc: Global,
    committer: &Committer<J, C>,
    seat: &mut Seat<J>,
    at: i64,
) -> Option<Option<Receipt<J>>> {
    match seat.number() {
        DELETER => Some(Some(delete(rt, alloc, committer, seat, at)?)),
        CUTTER => Some(Some(cut(rt, committer, seat, at)?)),
        _ => commit(rt, alloc, committer, seat, at),
    }
}

/// Keeps the receipt of an event of a seat's, at a time.
fn keep<J: Naming>(
    rt: &impl Wait,
    board: &Board<J>,
    done: &mut Vec<Done>,
    event: (usize, i64),
    receipt: Receipt<J>,
) -> Option<()> {
    done.push((receipt.events(), event.0, event.1)).ok()?;
    board.keep(rt, receipt)
}

/// Makes this many events of a seat. Returns which of them were accepted, or nothing if one was
/// refused that should not have been.
fn change_often<J: OpenNaming, C: Wait + Drop>(
    rt: &impl Wait,
    alloc: Global,
    committer: &Committer<J, C>,
    board: &Board<J>,
    seat: &mut Seat<J>,
    rounds: u64,
) -> Option<Vec<Done>> {
    let mut done = Vec::new(alloc);
    for round in 0..rounds {
        let at = board.time_of(rt, seat.number(), round);
        if let Some(receipt) = change(rt, alloc, committer, seat, at)? {
            keep(rt, board, &mut done, (seat.number(), at), receipt)?;
        }
    }
    Some(done)
}

/// Asks once. Returns nothing if an audit reports a flaw.
fn ask<J: Naming, R: Threads + Wait + Sync>(
    rt: &R,
    alloc: Global,
    pass: &mut Pass<J>,
    query: &Query,
) -> Option<()> {
    let snapshot = pass.snapshot().ok()?;
    let answers = search(rt, alloc, &snapshot, query, &OpenGate).ok()?;
    audit_parts(alloc, &snapshot, query, &answers)
}

/// Asks until no other thread changes the store, and once more. Returns nothing if an audit reports
/// a flaw.
fn ask_often<J: Naming, R: Threads + Wait + Sync>(
    rt: &R,
    alloc: Global,
    board: &Board<J>,
    pass: &mut Pass<J>,
    query: &Query,
) -> Option<()> {
    for _ in rt.forever() {
        let is_over = board.at_work.load(Ordering::SeqCst) == 0;
        board.tell(rt, pass);
        ask(rt, alloc, pass, query)?;
        if is_over {
            break;
        }
    }
    Some(())
}

fn ask_as<J: Naming, R: Threads + Wait + Sync>(
    rt: &R,
    alloc: Global,
    board: &Board<J>,
    place: usize,
    mut pass: Pass<J>,
) -> Option<Vec<Done>> {
    let query = query_of(alloc, *ASKED.get(place)?)?;
    ask_often(rt, alloc, board, &mut pass, &query)?;
    Some(Vec::new(alloc))
}

fn change_as<J: OpenNaming, C: Wait + Drop>(
    rt: &impl Wait,
    alloc: Global,
    committer: &Committer<J, C>,
    board: &Board<J>,
    mut seat: Seat<J>,
) -> Option<Vec<Done>> {
    let rounds = if seat.number() < CUTTER {
        COMMITS
    } else {
        CHANGES
    };
    let done = change_often(rt, alloc, committer, board, &mut seat, rounds);
    board.at_work.fetch_sub(1, Ordering::SeqCst);
    done
}

/// The events of an actor that were accepted. An actor that asks has none.
fn act<J: OpenNaming, C: Wait + Drop, R: Threads + Wait + Sync>(
    rt: &R,
    alloc: Global,
    committer: &Committer<J, C>,
    board: &Board<J>,
    actor: Actor<J>,
) -> Option<Vec<Done>> {
    match actor {
        Actor::Asking(place, pass) => ask_as(rt, alloc, board, place, pass),
        Actor::Changing(seat) => change_as(rt, alloc, committer, board, seat),
    }
}

fn changing<J: Naming>(alloc: Global, seats: Vec<Seat<J>>) -> Option<Vec<Actor<J>>> {
    let mut actors = Vec::new(alloc);
    for seat in seats {
        actors.push(Actor::Changing(seat)).ok()?;
    }
    Some(actors)
}

/// The actors, those that change the store first.
fn actors_of<J: Naming>(
    alloc: Global,
    seats: Vec<Seat<J>>,
    passes: Vec<Pass<J>>,
) -> Option<Vec<Actor<J>>> {
    let mut actors = changing(alloc, seats)?;
    for (place, pass) in passes.into_iter().enumerate() {
        actors.push(Actor::Asking(place, pass)).ok()?;
    }
    Some(actors)
}

/// These events and those of all actors, in their order.
fn sorted(before: Vec<Done>, told: Vec<Option<Vec<Done>>>) -> Option<Vec<Done>> {
    let mut all = before;
    for done in told {
        all.append(&mut done?).ok()?;
    }
    all.sort().ok()?;
    Some(all)
}

/// The events of all actors that were accepted, each actor in a thread of its own, and those that
/// were before, in their order.
fn act_at_once<J: OpenNaming + Send + Sync, C: Wait + Drop + Send + Sync, R: Threads + Wait + Sync>(
    rt: &R,
    alloc: Global,
    committer: &Committer<J, C>,
    board: &Board<J>,
    before: Vec<Done>,
    actors: Vec<Actor<J>>,
) -> Option<Vec<Done>> {
    let told = map_vec(
        rt,
        actors,
        &|actor: Actor<J>| -> Option<Vec<Done>> { act(rt, alloc, committer, board, actor) },
    );
    sorted(before, told.ok()?)
}

/// Whether receipts have the numbers of this many events, from 1, each number once.
fn are_numbered(done: &[Done], events: u64) -> bool {
    let mut next = 1u64;
    for (number, _, _) in done {
        if *number != next {
            return false;
        }
        next = next.saturating_add(1);
    }
    next == events.saturating_add(1)
}

fn same_rows(a: &[Row], b: &[Row]) -> bool {
    if a.len() != b.len() {
        return false;
    }
    for (x, y) in a.iter().zip(b) {
        if !(x.labels() == y.labels() && x.samples() == y.samples()) {
            return false;
        }
    }
    true
}

/// Whether two parts have the same rows, and one certificate.
fn same_part(a: &PartAnswer, b: &PartAnswer) -> bool {
    a.part == b.part
        && a.cover.certificate.as_slice() == b.cover.certificate.as_slice()
        && a.cover.separators.as_slice() == b.cover.separators.as_slice()
        && same_rows(a.rows.as_slice(), b.rows.as_slice())
}

/// Whether two answers are the same: each part, its certificate, and the rows of all.
fn same_answers(a: &SoundAnswers, b: &SoundAnswers) -> bool {
    if a.answers.len() != b.answers.len() {
        return false;
    }
    for (x, y) in a.answers.iter().zip(&b.answers) {
        if !same_part(x, y) {
            return false;
        }
    }
    same_rows(a.rows.as_slice(), b.rows.as_slice())
}

/// All that a snapshot answers, after an audit.
fn answered_by(alloc: Global, snapshot: &Snapshot) -> Option<SoundAnswers> {
    let query = query_of(alloc, EVERYTHING)?;
    search_and_audit(alloc, snapshot, &query).ok()
}

fn cut_of(at: i64) -> Option<Step> {
    if is_time(at) {
        Some(Step::cut(CUTTER, at))
    } else {
        None
    }
}

fn deletion_of(alloc: Global, at: i64) -> Option<Step> {
    let matchers = Selector::parse(alloc, DELETED).ok()?;
    let to = at.saturating_add(WIDTH);
    if !Event::is_deletion(&matchers, at, to) {
        return None;
    }
    Some(Step::delete(DELETER, matchers, at, to))
}

fn push_batch(alloc: Global, steps: &mut Vec<Step>, seat: usize, at: i64) -> Option<()> {
    for (labels, sample) in batch_of(alloc, seat, at)? {
        steps.push(Step::append(seat, labels, sample)).ok()?;
    }
    steps.push(Step::commit(seat)).ok()
}

/// Adds the steps of an accepted event.
fn push_steps(alloc: Global, steps: &mut Vec<Step>, done: Done) -> Option<()> {
    let (_, seat, at) = done;
    match seat {
        CUTTER => steps.push(cut_of(at)?).ok(),
        DELETER => steps.push(deletion_of(alloc, at)?).ok(),
        _ => push_batch(alloc, steps, seat, at),
    }
}

/// The steps of accepted events in this order, and then a query for all rows.
fn steps_of(alloc: Global, done: &[Done]) -> Option<Vec<Step>> {
    let mut steps = Vec::new(alloc);
    for one in done {
        push_steps(alloc, &mut steps, *one)?;
    }
    let query = query_of(alloc, EVERYTHING)?;
    steps.push(Step::query(0, query)).ok()?;
    Some(steps)
}

/// The replies to accepted events, replayed in this order from an empty store, and to the query.
fn replies_to(alloc: Global, done: &[Done]) -> Option<Vec<Reply>> {
    let steps = steps_of(alloc, done)?;
    let opening = Snapshot::opening(alloc, Vec::new(alloc)).ok()?;
    run(alloc, &opening, steps.as_slice()).ok()
}

fn are_done(replies: &[Reply]) -> bool {
    for reply in replies {
        if !matches!(reply, Reply::Done) {
            return false;
        }
    }
    true
}

/// Whether these are done, and the last gives these rows.
fn have_rows(replies: &[Reply], rows: &[Row]) -> bool {
    match replies.split_last() {
        Some((Reply::Rows(found), others)) => {
            are_done(others) && same_rows(found.as_slice(), rows)
        }
        _ => false,
    }
}

/// Whether accepted events, replayed in this order from an empty store, are all done, and give
/// these rows.
fn are_replayed(alloc: Global, done: &[Done], rows: &[Row]) -> bool {
    match replies_to(alloc, done) {
        Some(replies) => have_rows(replies.as_slice(), rows),
        None => false,
    }
}

/// Whether a spoiled answer is found.
fn is_spoiled(alloc: Global, last: &Snapshot, answers: Vec<PartAnswer>) -> bool {
    match query_of(alloc, EVERYTHING) {
        Some(query) => finds_spoiled(alloc, last, &query, answers) == Some(true),
        None => false,
    }
}

/// Whether a snapshot shows the replay of these events, and a spoiled answer of it is found.
fn is_replay(alloc: Global, last: &Snapshot, done: &[Done]) -> bool {
    let Some(found) = answered_by(alloc, last) else {
        return false;
    };
    are_replayed(alloc, done, found.rows.as_slice()) && is_spoiled(alloc, last, found.answers)
}

/// A snapshot that is held, and all that it answers.
type Held = (Arc<Snapshot>, SoundAnswers);

fn hold<J: Naming>(alloc: Global, pass: &mut Pass<J>) -> Option<Held> {
    let snapshot = pass.snapshot().ok()?;
    let shown = answered_by(alloc, &snapshot)?;
    Some((snapshot, shown))
}

/// Whether a snapshot that was held answers what it answered.
fn answers_again(alloc: Global, held: &Held) -> bool {
    match answered_by(alloc, &held.0) {
        Some(again) => same_answers(&again, &held.1),
        None => false,
    }
}

/// Whether a pass shows the replay of these events, as many as there are, a spoiled answer is
/// found, and a snapshot that was held answers what it answered.
fn is_kept<J: Naming>(alloc: Global, pass: &mut Pass<J>, done: &[Done], held: &Held) -> bool {
    match pass.snapshot() {
        Ok(last) => {
            is_replay(alloc, &last, done)
                && are_numbered(done, pass.events())
                && answers_again(alloc, held)
        }
        Err(_) => false,
    }
}

/// How many events are accepted, those before and those of the actors, if all that is to hold does.
fn count_kept<J: OpenNaming + Send + Sync, C: Wait + Drop + Send + Sync, R: Threads + Wait + Sync>(
    rt: &R,
    alloc: Global,
    committer: &Committer<J, C>,
    board: &Board<J>,
    pass: &mut Pass<J>,
    held: &Held,
    before: Vec<Done>,
    actors: Vec<Actor<J>>,
) -> Option<usize> {
    let done = act_at_once(rt, alloc, committer, board, before, actors)?;
    board.tell(rt, pass);
    if is_kept(alloc, pass, &done, held) {
        Some(done.len())
    } else {
        None
    }
}

/// The first event, of the first seat.
fn begin<J: OpenNaming, C: Wait + Drop>(
    rt: &impl Wait,
    alloc: Global,
    committer: &Committer<J, C>,
    board: &Board<J>,
    seats: &mut Vec<Seat<J>>,
) -> Option<Vec<Done>> {
    change_often(rt, alloc, committer, board, seats.first_mut()?, 1)
}

/// How many events of a store are accepted, if all that is to hold does.
fn count_accepted<
    J: OpenNaming + Send + Sync,
    C: Wait + Drop + Send + Sync,
    R: Threads + Wait + Sync,
>(
    rt: &R,
    alloc: Global,
    committer: &Committer<J, C>,
    mut passes: Vec<Pass<J>>,
    mut seats: Vec<Seat<J>>,
) -> Option<usize> {
    let board = Board {
        clock: AtomicU64::new(0),
        at_work: AtomicU64::new(10),
        receipts: Mutex::new(Vec::new(alloc)),
    };
    let mut pass = passes.pop()?;
    let before = begin(rt, alloc, committer, &board, &mut seats)?;
    board.tell(rt, &mut pass);
    let (held, actors) = hold(alloc, &mut pass).zip(actors_of(alloc, seats, passes))?;
    count_kept(
        rt, alloc, committer, &board, &mut pass, &held, before, actors,
    )
}

fn accepted_by<J: Naming + Send + Sync, R: Threads + Wait + Sync>(
    rt: &R,
    alloc: Global,
    store: Store,
) -> Option<usize>
    requires book { store.seen.book ≡ J.book }
    requires opening { opening_of [] ≡ J.opening }
{
    let opened = store.open::<Open<J>, &R>(rt, alloc, Vec::new(alloc), 5, 10);
    let (committer, passes, seats) = opened.ok()?;
    count_accepted(rt, alloc, &committer, passes, seats)
}

/// Of 401 batches each of ten cuts can refuse one of each seat, if it comes between the batch's
/// time and its commit.
#[test]
fn each_answer_is_audited_while_others_change_the_store(rt: HostRuntime) {
    let accepted = accepted_by::<Brand, _>(&rt, rt.alloc(), Store::new());
    assert!(rt; accepted.expect(&rt, "all that is to hold does") >= 341);
}
