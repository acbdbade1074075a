//! What is answered after two threads committed, in whichever order.

ghost use Rattle.std.specs.Prelude.{◌≡◌, []};
ghost use Rattle.head.specs.Blocks.{opening_of};

use crate::serving::searches::{is_text, labels, query};
use crate::serving::store::last;
use answers::{ask, body};
use labels::Sample;
use snapshots::{Appender, Committer, Naming, Open, OpenNaming, Pass, Receipt, Seat, Store};
use std::alloc::Global;
use std::marker::Brand;
use std::sync::Wait;
use std::thread::{Threads, join};

/// A sample: the name, the job and the zone of its series, its time and its value.
type Wanted = (&'static str, &'static str, &'static str, i64, i64);

/// The batch of the first thread.
const FIRST: &[Wanted] = &[
    ("up", "a", "", 10, 1),
    ("up", "a", "", 20, 1),
    ("up", "b", "", 10, 2),
    ("up", "b", "", 20, 2),
    ("up", "b", "x", 10, 3),
    ("up", "b", "x", 20, 3),
];

/// The batch of the second thread.
const SECOND: &[Wanted] = &[
    ("down", "a", "", 10, 4),
    ("down", "a", "", 20, 4),
    ("down", "b", "", 10, 5),
    ("down", "b", "", 20, 5),
    ("up", "a", "x", 10, 6),
    ("up", "a", "x", 20, 6),
];

const ASKED: &str = r#"up{job="a"}"#;

/// The answer if the first batch was published first.
const FIRST_THEN_SECOND: &str =
    r#"{"parts":[{"intervals":[{"from":1,"until":2,"verdict":"match"},{"from":2,"until":4,"verdict":1},{"from":4,"until":6,"verdict":0},{"from":6,"until":4294967296,"verdict":"match"}],"part":"head","rows":[{"labels":{"__name__":"up","job":"a"},"samples":[[10,1],[20,1]]},{"labels":{"__name__":"up","job":"a","zone":"x"},"samples":[[10,6],[20,6]]}],"separators":[1,2,4,6]}],"rows":[{"labels":{"__name__":"up","job":"a"},"samples":[[10,1],[20,1]]},{"labels":{"__name__":"up","job":"a","zone":"x"},"samples":[[10,6],[20,6]]}]}"#;

/// The answer if the second batch was published first.
const SECOND_THEN_FIRST: &str =
    r#"{"parts":[{"intervals":[{"from":1,"until":3,"verdict":0},{"from":3,"until":4,"verdict":"match"},{"from":4,"until":5,"verdict":"match"},{"from":5,"until":4294967296,"verdict":1}],"part":"head","rows":[{"labels":{"__name__":"up","job":"a"},"samples":[[10,1],[20,1]]},{"labels":{"__name__":"up","job":"a","zone":"x"},"samples":[[10,6],[20,6]]}],"separators":[1,3,4,5]}],"rows":[{"labels":{"__name__":"up","job":"a"},"samples":[[10,1],[20,1]]},{"labels":{"__name__":"up","job":"a","zone":"x"},"samples":[[10,6],[20,6]]}]}"#;

/// An appender of these samples.
fn appender_of(alloc: Global, wanted: &[Wanted]) -> Option<Appender> {
    let mut appender = Appender::new(alloc);
    for (name, job, zone, t, v) in wanted {
        let labels = labels(alloc, name, job, zone)?;
        appender.append(labels, Sample::new(*t, *v)).ok()?;
    }
    Some(appender)
}

/// What a thread commits, and from which seat.
type Job<J> = (Seat<J>, Appender);

fn commit_as<J: OpenNaming, C: Wait + Drop>(
    rt: &impl Wait,
    committer: &Committer<J, C>,
    job: Job<J>,
) -> Option<Receipt<J>> {
    let (mut seat, appender) = job;
    committer.commit(rt, &mut seat, appender).ok()
}

/// The receipts of two threads, each of which does one job.
fn commit_both<J: OpenNaming + Send + Sync, C: Wait + Drop + Send + Sync, R: Threads + Wait + Sync>(
    rt: &R,
    committer: &Committer<J, C>,
    first: Job<J>,
    second: Job<J>,
) -> Option<(Receipt<J>, Receipt<J>)> {
    let (first, second) = join(
        rt,
        || commit_as(rt, committer, first),
        || commit_as(rt, committer, second),
    );
    first.zip(second)
}

/// The job of the last of these seats.
fn job_of<J: Naming>(alloc: Global, seats: &mut Vec<Seat<J>>, wanted: &[Wanted]) -> Option<Job<J>> {
    seats.pop().zip(appender_of(alloc, wanted))
}

/// The receipts of both batches, each committed from one of two seats.
fn receipts_of_both<
    J: OpenNaming + Send + Sync,
    C: Wait + Drop + Send + Sync,
    R: Threads + Wait + Sync,
>(
    rt: &R,
    alloc: Global,
    committer: &Committer<J, C>,
    mut seats: Vec<Seat<J>>,
) -> Option<(Receipt<J>, Receipt<J>)> {
    let first = job_of(alloc, &mut seats, FIRST)?;
    let second = job_of(alloc, &mut seats, SECOND)?;
    commit_both::<J, C, R>(rt, committer, first, second)
}

/// The text that the pass answers with.
fn text_asked<J: Naming>(alloc: Global, pass: &mut Pass<J>) -> Option<Vec<u8>> {
    let query = query(alloc, ASKED)?;
    let answer = ask(alloc, pass, &query).ok()?;
    body(alloc, answer.parts(), answer.rows()).ok()
}

/// Whether the pass, once it learnt both receipts, answers as their order says.
fn is_answered<J: Naming>(
    alloc: Global,
    pass: &mut Pass<J>,
    receipts: &(Receipt<J>, Receipt<J>),
) -> bool {
    let (first, second) = receipts;
    pass.learn(first);
    pass.learn(second);
    let want = if first.events() < second.events() {
        FIRST_THEN_SECOND
    } else {
        SECOND_THEN_FIRST
    };
    is_text(text_asked(alloc, pass), want)
}

fn is_answered_after_both<J: Naming + Send + Sync, R: Threads + Wait + Sync>(
    rt: &R,
    alloc: Global,
    store: Store,
) -> Option<bool>
    requires book { store.seen.book ≡ J.book }
    requires opening { opening_of [] ≡ J.opening }
{
    let opened = store.open::<Open<J>, &R>(rt, alloc, Vec::new(alloc), 1, 2);
    let (committer, passes, seats) = opened.ok()?;
    let receipts = receipts_of_both::<Open<J>, &R, R>(rt, alloc, &committer, seats);
    let (mut pass, receipts) = last(passes).zip(receipts)?;
    Some(is_answered(alloc, &mut pass, &receipts))
}

#[test]
fn two_threads_commit_and_one_of_two_texts_is_answered(rt: HostRuntime) {
    let answered = is_answered_after_both::<Brand, _>(&rt, rt.alloc(), Store::new());
    assert!(rt; answered == Some(true));
}
