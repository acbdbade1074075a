//! The examples of the first pages of `head`, `history` and `snapshots`, and the replies to an
//! actor before another commits and after it.

ghost use Rattle.std.specs.Prelude.{◌≡◌, []};
ghost use Rattle.head.specs.Blocks.{opening_of};

use crate::changes::rows::empty;
use crate::serving::store::{EmptyStore, last, open_empty};
use head::{Event, HeadView, Snapshot, apply};
use history::{Reply, Step, run};
use labels::{LabelSet, Row, Sample, SeriesRef};
use matchers::{Query, Selector};
use snapshots::{Appender, Naming, Open, OpenNaming, Store};
use std::alloc::Global;
use std::marker::Brand;
use std::sync::{Arc, Wait};

fn up(alloc: Global) -> Option<LabelSet> {
    LabelSet::of_sorted_texts(alloc, &[("__name__", "up")]).ok()
}

fn one_sample(alloc: Global) -> Option<Vec<(LabelSet, Sample)>> {
    let labels = up(alloc)?;
    Vec::from_array(alloc, [(labels, Sample::new(10, 1))]).ok()
}

/// The snapshot that the example of `head` makes of an opening.
fn apply_one_batch(alloc: Global, opening: &Snapshot) -> Option<Snapshot> {
    let samples = one_sample(alloc)?;
    if !Event::is_batch(&samples) {
        return None;
    }
    apply(alloc, opening, &Event::batch(samples)).ok()
}

/// Whether the first series has this many samples.
fn has(alloc: Global, head: &HeadView, count: usize) -> bool {
    match head.samples_of(alloc, SeriesRef::new(1), 0, 30) {
        Ok(found) => found.len() == count,
        Err(_) => false,
    }
}

/// Whether an opening is what it was after the example of `head`.
fn has_no_series(opening: &Snapshot) -> bool {
    opening.head().labels_of(SeriesRef::new(1)).is_none()
}

#[test]
fn the_example_of_the_first_page_of_head(rt: HostRuntime) {
    let alloc = rt.alloc();
    let opening = empty(alloc).ok().expect(&rt, "there is memory");
    let next = apply_one_batch(alloc, &opening).expect(&rt, "a batch is applied");
    assert!(rt; has(alloc, next.head(), 1));
    assert!(rt; has_no_series(&opening));
}

fn query_up(alloc: Global) -> Option<Query> {
    Query::new(Selector::parse(alloc, "up").ok()?, 0, 30).ok()
}

/// The steps of the example of `history`.
fn three_steps(alloc: Global) -> Option<Vec<Step>> {
    let query = query_up(alloc)?;
    let append = Step::append(1, up(alloc)?, Sample::new(10, 1));
    Vec::from_array(alloc, [append, Step::commit(1), Step::query(2, query)]).ok()
}

fn run_steps(alloc: Global, steps: &[Step]) -> Option<Vec<Reply>> {
    let opening = empty(alloc).ok()?;
    run(alloc, &opening, steps).ok()
}

#[test]
fn the_example_of_the_first_page_of_history(rt: HostRuntime) {
    let steps = three_steps(rt.alloc()).expect(&rt, "there is memory");
    let replies = run_steps(rt.alloc(), &steps).expect(&rt, "the steps are replied to");
    assert!(rt; matches!(replies.get(1), Some(Reply::Done)));
    assert!(rt; matches!(replies.get(2), Some(Reply::Rows(rows)) if rows.len() == 1));
}

/// One actor appends and commits, and another asks after each.
fn steps_of_two(alloc: Global) -> Option<Vec<Step>> {
    let queries = query_up(alloc).zip(query_up(alloc));
    let (labels, (early, late)) = up(alloc).zip(queries)?;
    let append = Step::append(0, labels, Sample::new(10, 1));
    let asked = Step::query(1, early);
    Vec::from_array(
        alloc,
        [append, asked, Step::commit(0), Step::query(1, late)],
    )
    .ok()
}

/// Whether there is one row, of the sample that was appended.
fn is_appended(rows: &[Row]) -> bool {
    match rows {
        [row] => row.samples() == [Sample::new(10, 1)].as_slice(),
        _ => false,
    }
}

#[test]
fn a_sample_is_seen_after_its_commit(rt: HostRuntime) {
    let steps = steps_of_two(rt.alloc()).expect(&rt, "there is memory");
    let replies = run_steps(rt.alloc(), &steps).expect(&rt, "the steps are replied to");
    assert!(rt; matches!(replies.get(1), Some(Reply::Rows(rows)) if rows.is_empty()));
    assert!(rt; matches!(replies.get(3), Some(Reply::Rows(rows)) if is_appended(rows)));
}

fn appender_of_one(alloc: Global) -> Option<Appender> {
    let labels = up(alloc)?;
    let mut appender = Appender::new(alloc);
    appender.append(labels, Sample::new(10, 1)).ok()?;
    Some(appender)
}

/// What the example of `snapshots` does with a store that it opened.
fn commit_and_learn<J: OpenNaming, R: Wait + Drop>(
    rt: &impl Wait,
    alloc: Global,
    store: &mut EmptyStore<J, R>,
) -> Option<Arc<Snapshot>> {
    let appender = appender_of_one(alloc)?;
    let receipt = store.committer.commit(rt, &mut store.seat, appender).ok()?;
    store.pass.learn(&receipt);
    store.pass.snapshot().ok()
}

/// Whether the snapshot then has the sample, and the pass has seen one event.
fn commit_and_look<J: Naming, R: Wait>(rt: &R, alloc: Global, store: Store) -> Option<bool>
    requires book { store.seen.book ≡ J.book }
    requires opening { opening_of [] ≡ J.opening }
{
    let mut store = open_empty::<Open<J>, &R>(rt, alloc, store)?;
    let snapshot = commit_and_learn(rt, alloc, &mut store)?;
    Some(store.pass.events() == 1 && has(alloc, snapshot.head(), 1))
}

#[test]
fn the_example_of_the_first_page_of_snapshots(rt: HostRuntime) {
    let has_looked = commit_and_look::<Brand, _>(&rt, rt.alloc(), Store::new());
    assert!(rt; has_looked == Some(true));
}

/// Whether the second of two passes sees a commit, of which only the first learns the receipt. No
/// clause says that a snapshot is the newest one.
fn commit_and_look_untold<J: Naming, R: Wait>(rt: &R, alloc: Global, store: Store) -> Option<bool>
    requires book { store.seen.book ≡ J.book }
    requires opening { opening_of [] ≡ J.opening }
{
    let opened = store.open::<Open<J>, &R>(rt, alloc, Vec::new(alloc), 2, 1);
    let (committer, mut passes, seats) = opened.ok()?;
    let mut second = passes.pop()?;
    let (pass, seat) = last(passes).zip(last(seats))?;
    let mut store = EmptyStore {
        committer,
        pass,
        seat,
    };
    commit_and_learn(rt, alloc, &mut store)?;
    let snapshot = second.snapshot().ok()?;
    Some(second.events() == 1 && has(alloc, snapshot.head(), 1))
}

#[test]
fn a_commit_is_seen_by_a_pass_that_learnt_no_receipt(rt: HostRuntime) {
    let has_looked = commit_and_look_untold::<Brand, _>(&rt, rt.alloc(), Store::new());
    assert!(rt; has_looked == Some(true));
}
