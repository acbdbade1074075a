//! Commits, deletions and cuts that are refused memory. What was asked comes back, the store shows
//! what it showed, and the same call is then answered as if nothing had happened.
//! `tests/allocations.sh` runs this with each of its allocations refused in turn.

ghost use Rattle.std.specs.Prelude.{◌≡◌, []};
ghost use Rattle.head.specs.Blocks.{opening_of};

use crate::changes::rows::{Wanted, appender_of, job_a, put_labels, put_samples, samples_of};
use crate::serving::store::{EmptyStore, open_empty};
use block::Block;
use head::{CommitError, Event, HeadView, Snapshot};
use labels::{LabelSet, Row, Sample, SeriesRef, is_time};
use matchers::{Matcher, Op};
use snapshots::{Appender, Naming, Open, OpenNaming, Pass, Store};
use std::alloc::{AllocError, Global};
use std::marker::Brand;
use std::sync::Wait;

/// A change of the store, as the steps name it.
#[derive(Clone, Copy)]
enum Step {
    /// A batch of these samples.
    Commit(&'static [Wanted]),
    /// A deletion of job `a` in a closed range.
    Delete(i64, i64),
    /// A cut at a time.
    Cut(i64),
}

/// What an empty store shows.
const EMPTY: &str = "head\n";

/// Each step, and what the store shows after it: the rows of its blocks, and those of its head. The
/// third adds to an old series and makes a new one, and the fourth deletes from the block and from
/// the head.
const STEPS: &[(Step, &str)] = &[
    (
        Step::Commit(&[(1, 10, 1), (1, 20, 2), (2, 10, 3), (2, 20, 4)]),
        "head\n\
         - __name__=up job=a 10:1 20:2\n\
         - __name__=up job=b 10:3 20:4\n",
    ),
    (
        Step::Cut(15),
        "block\n\
         - __name__=up job=a 10:1\n\
         - __name__=up job=b 10:3\n\
         head\n\
         - __name__=up job=a 20:2\n\
         - __name__=up job=b 20:4\n",
    ),
    (
        Step::Commit(&[(1, 30, 5), (4, 30, 6)]),
        "block\n\
         - __name__=up job=a 10:1\n\
         - __name__=up job=b 10:3\n\
         head\n\
         - __name__=up job=a 20:2 30:5\n\
         - __name__=up job=b 20:4\n\
         - __name__=down job=a 30:6\n",
    ),
    (
        Step::Delete(10, 25),
        "block\n\
         - __name__=up job=a\n\
         - __name__=up job=b 10:3\n\
         head\n\
         - __name__=up job=a 30:5\n\
         - __name__=up job=b 20:4\n\
         - __name__=down job=a 30:6\n",
    ),
    (
        Step::Cut(25),
        "block\n\
         - __name__=up job=a\n\
         - __name__=up job=b 10:3\n\
         block\n\
         - __name__=up job=b 20:4\n\
         head\n\
         - __name__=up job=a 30:5\n\
         - __name__=down job=a 30:6\n",
    ),
];

/// What a call is made with.
#[derive(Drop)]
enum Asked {
    Commit(Appender),
    Delete(Vec<Matcher>, i64, i64),
    Cut(i64),
}

fn asked_of(alloc: Global, step: Step) -> Option<Asked> {
    match step {
        Step::Commit(wanted) => Some(Asked::Commit(appender_of(alloc, wanted)?)),
        Step::Delete(from, to) => Some(Asked::Delete(job_a(alloc)?, from, to)),
        Step::Cut(at) => Some(Asked::Cut(at)),
    }
}

/// The same, made again if memory was refused.
fn asked_again(alloc: Global, step: Step) -> Option<Asked> {
    match asked_of(alloc, step) {
        None => asked_of(alloc, step),
        made => made,
    }
}

fn are_samples(alloc: Global, samples: &[(LabelSet, Sample)], wanted: &[Wanted]) -> bool {
    match samples_of(alloc, wanted) {
        Some(made) => samples == made.as_slice(),
        None => false,
    }
}

fn gathered(alloc: Global, samples: Vec<(LabelSet, Sample)>) -> Option<Appender> {
    let mut appender = Appender::new(alloc);
    for (labels, sample) in samples {
        appender.append(labels, sample).ok()?;
    }
    Some(appender)
}

/// A batch that came back, gathered again, or nothing if it is another batch.
fn same_batch(alloc: Global, appender: Appender, wanted: &[Wanted]) -> Option<Asked> {
    let samples = appender.into_event().into_batch()?;
    if are_samples(alloc, &samples, wanted) {
        Some(Asked::Commit(gathered(alloc, samples)?))
    } else {
        None
    }
}

/// Whether the only matcher is that of job `a`.
fn are_job_a(matchers: &[Matcher]) -> bool {
    match matchers {
        [one] => one.name() == "job" && one.op() == Op::Equal && one.text() == "a",
        _ => false,
    }
}

/// Whether this is the deletion of a step.
fn is_deletion(step: Step, matchers: &[Matcher], from: i64, to: i64) -> bool {
    match step {
        Step::Delete(first, last) => are_job_a(matchers) && from == first && to == last,
        _ => false,
    }
}

fn same_deletion(matchers: Vec<Matcher>, from: i64, to: i64, step: Step) -> Option<Asked> {
    if is_deletion(step, &matchers, from, to) {
        Some(Asked::Delete(matchers, from, to))
    } else {
        None
    }
}

fn same_cut(at: i64, step: Step) -> Option<Asked> {
    match step {
        Step::Cut(time) if time == at => Some(Asked::Cut(at)),
        _ => None,
    }
}

fn same_commit(alloc: Global, appender: Appender, step: Step) -> Option<Asked> {
    match step {
        Step::Commit(wanted) => same_batch(alloc, appender, wanted),
        _ => None,
    }
}

/// What came back of a step, to be asked again, or nothing if it is another thing.
fn same(alloc: Global, asked: Asked, step: Step) -> Option<Asked> {
    match asked {
        Asked::Commit(appender) => same_commit(alloc, appender, step),
        Asked::Delete(matchers, from, to) => same_deletion(matchers, from, to, step),
        Asked::Cut(at) => same_cut(at, step),
    }
}

/// How many events the store has after a commit, or what came back.
fn commit<J: OpenNaming, R: Wait + Drop>(
    rt: &impl Wait,
    store: &mut EmptyStore<J, R>,
    appender: Appender,
) -> Result<u64, (Asked, CommitError)> {
    match store.committer.commit(rt, &mut store.seat, appender) {
        Ok(receipt) => Ok(receipt.events()),
        Err((appender, refused)) => Err((Asked::Commit(appender), refused.error)),
    }
}

fn delete<J: OpenNaming, R: Wait + Drop>(
    rt: &impl Wait,
    store: &mut EmptyStore<J, R>,
    matchers: Vec<Matcher>,
    from: i64,
    to: i64,
) -> Result<u64, (Asked, CommitError)> {
    if !Event::is_deletion(&matchers, from, to) {
        return Err((Asked::Delete(matchers, from, to), CommitError::Limit));
    }
    match store
        .committer
        .delete(rt, &mut store.seat, matchers, from, to)
    {
        Ok(receipt) => Ok(receipt.events()),
        Err((matchers, refusal)) => Err((Asked::Delete(matchers, from, to), refusal)),
    }
}

fn cut<J: OpenNaming, R: Wait + Drop>(
    rt: &impl Wait,
    store: &mut EmptyStore<J, R>,
    at: i64,
) -> Result<u64, (Asked, CommitError)> {
    if !is_time(at) {
        return Err((Asked::Cut(at), CommitError::CutTooLow));
    }
    match store.committer.cut(rt, &mut store.seat, at) {
        Ok(receipt) => Ok(receipt.events()),
        Err(refused) => Err((Asked::Cut(at), refused.error)),
    }
}

fn ask<J: OpenNaming, R: Wait + Drop>(
    rt: &impl Wait,
    store: &mut EmptyStore<J, R>,
    asked: Asked,
) -> Result<u64, (Asked, CommitError)> {
    match asked {
        Asked::Commit(appender) => commit(rt, store, appender),
        Asked::Delete(matchers, from, to) => delete(rt, store, matchers, from, to),
        Asked::Cut(at) => cut(rt, store, at),
    }
}

fn put_row(text: &mut String, row: &Row) -> Result<(), AllocError> {
    text.push('-')?;
    put_labels(text, row.labels())?;
    put_samples(text, row.samples())?;
    text.push('\n')
}

fn put_rows(text: &mut String, rows: &[(SeriesRef, Row)]) -> Result<(), AllocError> {
    for (_, row) in rows {
        put_row(text, row)?;
    }
    Ok(())
}

fn put_block(alloc: Global, text: &mut String, block: &Block) -> Result<(), AllocError> {
    text.push_str("block\n")?;
    let rows = block.list_all(alloc)?;
    put_rows(text, &rows)
}

fn put_head(alloc: Global, text: &mut String, head: &HeadView) -> Result<(), AllocError> {
    text.push_str("head\n")?;
    let rows = head.list_all(alloc)?;
    put_rows(text, &rows)
}

fn put_blocks(alloc: Global, text: &mut String, snapshot: &Snapshot) -> Result<(), AllocError> {
    for block in snapshot.blocks() {
        put_block(alloc, text, block)?;
    }
    Ok(())
}

fn parts_of(alloc: Global, snapshot: &Snapshot) -> Result<String, AllocError> {
    let mut text = String::new(alloc);
    put_blocks(alloc, &mut text, snapshot)?;
    put_head(alloc, &mut text, snapshot.head())?;
    Ok(text)
}

/// The same, made again if memory was refused.
fn parts_again(alloc: Global, snapshot: &Snapshot) -> Option<String> {
    match parts_of(alloc, snapshot) {
        Ok(text) => Some(text),
        Err(_) => parts_of(alloc, snapshot).ok(),
    }
}

/// Whether a new snapshot has these parts.
fn shows<J: Naming>(alloc: Global, pass: &mut Pass<J>, parts: &str) -> bool {
    let Ok(snapshot) = pass.snapshot() else {
        return false;
    };
    match parts_again(alloc, &snapshot) {
        Some(text) => text.as_str() == parts,
        None => false,
    }
}

/// Whether the store shows what it showed before a call, and the seat has published this many
/// events.
fn is_left<J: Naming, R: Wait + Drop>(
    alloc: Global,
    store: &mut EmptyStore<J, R>,
    events: u64,
    before: &str,
) -> bool {
    store.seat.count() == events && shows(alloc, &mut store.pass, before)
}

/// Whether what came back is what was asked, the store is left as it was, and the call is then
/// made.
fn is_made_again<J: OpenNaming, R: Wait + Drop>(
    rt: &impl Wait,
    alloc: Global,
    store: &mut EmptyStore<J, R>,
    back: (Asked, Step),
    before: &str,
) -> bool {
    let events = store.seat.count();
    match same(alloc, back.0, back.1) {
        Some(asked) => {
            is_left(alloc, store, events, before)
                && number_of(ask(rt, store, asked)) == Ok(events.saturating_add(1))
        }
        None => false,
    }
}

/// Whether a call is made. If it was refused memory, all that it was made with comes back, the
/// store is left as it was, and the call is made again.
fn is_made<J: OpenNaming, R: Wait + Drop>(
    rt: &impl Wait,
    alloc: Global,
    store: &mut EmptyStore<J, R>,
    asked: (Asked, Step),
    before: &str,
) -> bool {
    let (asked, step) = asked;
    let next = Ok(store.seat.count().saturating_add(1));
    match ask(rt, store, asked) {
        Err((asked, CommitError::Memory)) => {
            is_made_again(rt, alloc, store, (asked, step), before)
        }
        made => number_of(made) == next,
    }
}

fn number_of(made: Result<u64, (Asked, CommitError)>) -> Result<u64, CommitError> {
    match made {
        Ok(number) => Ok(number),
        Err((_, refusal)) => Err(refusal),
    }
}

/// Whether a step is made, and the store then shows what it should.
fn is_step<J: OpenNaming, R: Wait + Drop>(
    rt: &impl Wait,
    alloc: Global,
    store: &mut EmptyStore<J, R>,
    step: Step,
    shown: (&str, &str),
) -> bool {
    match asked_again(alloc, step) {
        Some(asked) => {
            is_made(rt, alloc, store, (asked, step), shown.0)
                && shows(alloc, &mut store.pass, shown.1)
        }
        None => false,
    }
}

/// How many steps are made, up to the first after which the store shows another thing than it
/// should.
fn count_made<J: OpenNaming, R: Wait + Drop>(
    rt: &impl Wait,
    alloc: Global,
    store: &mut EmptyStore<J, R>,
) -> usize {
    let mut count = 0usize;
    let mut before = EMPTY;
    for (step, after) in STEPS {
        if !is_step(rt, alloc, store, *step, (before, *after)) {
            return count;
        }
        before = *after;
        count = count.saturating_add(1);
    }
    count
}

/// How many steps are made in a store of its own, or `None` if it is refused memory.
fn count_in<J: Naming, R: Wait>(rt: &R, alloc: Global, store: Store) -> Option<usize>
    requires book { store.seen.book ≡ J.book }
    requires opening { opening_of [] ≡ J.opening }
{
    let mut store = open_empty::<Open<J>, &R>(rt, alloc, store)?;
    Some(count_made(rt, alloc, &mut store))
}

#[test]
fn changes_refused_memory_change_nothing_and_are_made_when_asked_again(rt: HostRuntime) {
    let made = match count_in::<Brand, _>(&rt, rt.alloc(), Store::new()) {
        None => count_in::<Brand, _>(&rt, rt.alloc(), Store::new()),
        made => made,
    };
    assert_eq!(rt; made, Some(STEPS.len()));
}
