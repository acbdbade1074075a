//! A store of six series, which lists a search of it walks, what its workers answer compared with
//! one thread, and what it answers if memory was refused.

use crate::serving::counting::Counting;
use answers::{AuditedAnswer, answer, answer_by_workers, body};
use block_search::{Gate, search, search_part};
use cover::PartAnswer;
use head::{Event, HeadView, Snapshot, apply};
use labels::{LabelSet, Sample, is_time};
use matchers::{Query, Selector};
use postings::PartName;
use std::alloc::{AllocError, Global};
use std::sync::atomic::{AtomicU64, Ordering};
use std::thread::{Threads, yield_now};

const SERIES: &[(&str, &str, &str)] = &[
    ("up", "a", ""),
    ("up", "b", ""),
    ("up", "b", "x"),
    ("down", "a", ""),
    ("down", "b", ""),
    ("up", "a", "x"),
];

fn pair_of(alloc: Global, name: &str, value: &str) -> Result<(String, String), AllocError> {
    let name = String::from_str(alloc, name)?;
    Ok((name, String::from_str(alloc, value)?))
}

fn pairs_of(alloc: Global, pairs: &[(&str, &str)]) -> Result<Vec<(String, String)>, AllocError> {
    let mut made = Vec::new(alloc);
    for (name, value) in pairs {
        made.push(pair_of(alloc, name, value)?)?;
    }
    Ok(made)
}

pub fn labels(alloc: Global, name: &str, job: &str, zone: &str) -> Option<LabelSet> {
    let pairs = [("__name__", name), ("job", job), ("zone", zone)];
    LabelSet::new(alloc, pairs_of(alloc, &pairs).ok()?).ok()
}

/// Adds a sample of a series.
fn push(
    alloc: Global,
    samples: &mut Vec<(LabelSet, Sample)>,
    series: (&str, &str, &str),
    sample: Sample,
) -> Option<()> {
    let labels = labels(alloc, series.0, series.1, series.2)?;
    samples.push((labels, sample)).ok()
}

/// The snapshot after a batch of these samples.
pub fn after(alloc: Global, at: &Snapshot, samples: Vec<(LabelSet, Sample)>) -> Option<Snapshot> {
    if !Event::is_batch(&samples) {
        return None;
    }
    apply(alloc, at, &Event::batch(samples)).ok()
}

/// The snapshot after a further sample of each of the six series, at this time.
pub fn with_six(alloc: Global, at: &Snapshot, t: i64) -> Option<Snapshot> {
    let mut samples = Vec::new(alloc);
    for series in SERIES {
        push(alloc, &mut samples, *series, Sample::new(t, t))?;
    }
    after(alloc, at, samples)
}

/// Adds a sample at time 10 of the series `up` whose job is this number.
fn push_numbered(alloc: Global, samples: &mut Vec<(LabelSet, Sample)>, number: u32) -> Option<()> {
    let job = format!(in alloc; "{number}").ok()?;
    push(alloc, samples, ("up", job.as_str(), ""), Sample::new(10, 1))
}

/// The snapshot after a further sample, at time 10, of each of this many series `up` whose jobs are
/// numbers.
fn with_many(alloc: Global, at: &Snapshot, count: u32) -> Option<Snapshot> {
    let mut samples = Vec::new(alloc);
    for number in 0..count {
        push_numbered(alloc, &mut samples, number)?;
    }
    after(alloc, at, samples)
}

/// The snapshot with what was before a time as a block of its own.
fn cut(alloc: Global, snapshot: &Snapshot, t: i64) -> Option<Snapshot> {
    if !is_time(t) {
        return None;
    }
    apply(alloc, snapshot, &Event::cut(t)).ok()
}

/// The snapshot after a further sample of each of the six series, and a cut right after it.
fn with_block(alloc: Global, at: &Snapshot, t: i64) -> Option<Snapshot> {
    let more = with_six(alloc, at, t)?;
    cut(alloc, &more, t.saturating_add(5))
}

/// As many blocks of the six series, ten milliseconds apart, and an empty head.
pub fn blocks(alloc: Global, count: u32) -> Option<Snapshot> {
    let mut snapshot = Snapshot::opening(alloc, Vec::new(alloc)).ok()?;
    for n in 0..count {
        snapshot = with_block(alloc, &snapshot, i64::from(n).saturating_mul(10))?;
    }
    Some(snapshot)
}

/// A store of the six series in a head, each with a sample at 10.
pub fn six(alloc: Global) -> Option<Snapshot> {
    with_six(alloc, &blocks(alloc, 0)?, 10)
}

/// A block of 4,000 series, and a head of the six.
fn block_and_head(alloc: Global) -> Option<Snapshot> {
    let head = with_many(alloc, &blocks(alloc, 0)?, 4_000)?;
    let block = cut(alloc, &head, 15)?;
    with_six(alloc, &block, 20)
}

pub fn query(alloc: Global, selector: &str) -> Option<Query> {
    let matchers = Selector::parse(alloc, selector).ok()?;
    Query::new(matchers, 0, 1_000).ok()
}

/// Of a search over a head: how many lists of pairs were lent, how many values were given, whether
/// all lists moved no more often than is reported, and how many rows there are.
type Walk = (u64, u64, bool, usize);

/// What was walked until this answer.
fn walked(counting: &Counting<&HeadView>, answer: &PartAnswer) -> Walk {
    let (lists, live) = (counting.moves.get(), counting.live_moves.get());
    let within = lists.saturating_add(live) <= answer.cover.moves;
    let (lent, told) = (counting.lists.get(), counting.values.get());
    (lent, told, within, answer.rows.len())
}

/// What a search over a head walks.
fn walk_of(alloc: Global, head: &HeadView, selector: &str) -> Option<Walk> {
    let query = query(alloc, selector)?;
    let counting = Counting::new(head);
    let answer = search_part(alloc, PartName::Head, &&counting, &query).ok()?;
    Some(walked(&counting, &answer))
}

const WALKS: &[(&str, Walk)] = &[
    (r#"up{job="a"}"#, (2, 0, true, 2)),
    (r#"up{zone="x"}"#, (2, 0, true, 2)),
    (r#"{job="z"}"#, (0, 0, true, 0)),
    (r#"{__name__=~"u.*"}"#, (1, 2, true, 4)),
    (r#"{job=~"a|b|z"}"#, (2, 0, true, 6)),
];

#[test]
fn a_search_walks_no_other_list(rt: HostRuntime) {
    let six = six(rt.alloc()).expect(&rt, "there is memory");
    for (selector, want) in WALKS {
        let walk = walk_of(rt.alloc(), six.head(), selector);
        assert!(rt; walk == Some(*want), "{selector}");
    }
}

/// The text of an answer.
fn text_of(alloc: Global, answer: Result<AuditedAnswer, AllocError>) -> Option<Vec<u8>> {
    let answer = answer.ok()?;
    body(alloc, answer.parts(), answer.rows()).ok()
}

/// Whether these are one text, of at least this many bytes.
fn are_one(one: Option<Vec<u8>>, other: Option<Vec<u8>>, least: usize) -> bool {
    match one.zip(other) {
        Some((one, other)) => one.as_slice() == other.as_slice() && one.len() > least,
        None => false,
    }
}

/// Whether this text was made.
pub fn is_text(made: Option<Vec<u8>>, want: &str) -> bool {
    match made {
        Some(text) => text.as_slice() == want.as_bytes(),
        None => false,
    }
}

/// Whether workers answer `up` with the text that one thread gives, and it is longer than this many
/// rows. Each row is in it twice, of at least forty bytes.
fn is_answered<R: Threads + Sync>(
    rt: &R,
    alloc: Global,
    snapshot: Option<Snapshot>,
    rows: usize,
) -> bool {
    let Some((snapshot, query)) = snapshot.zip(query(alloc, "up")) else {
        return false;
    };
    let one = text_of(alloc, answer(alloc, &snapshot, &query));
    let many = text_of(alloc, answer_by_workers(rt, alloc, &snapshot, &query));
    are_one(one, many, rows.saturating_mul(80))
}

#[test]
fn workers_answer_as_one_thread_does_over_63_blocks_and_over_a_block_and_a_head(rt: HostRuntime) {
    let alloc = rt.alloc();
    assert!(rt; is_answered(&rt, alloc, blocks(alloc, 63), 63 * 4));
    assert!(rt; is_answered(&rt, alloc, block_and_head(alloc), 4_000 + 4));
}

pub const ONE: &str = r#"down{job="a"}"#;

const MERGED: &str =
    r#""rows":[{"labels":{"__name__":"down","job":"a"},"samples":[[0,0],[10,10]]}]}"#;

/// Two blocks, made again if memory was refused.
fn blocks_again(alloc: Global) -> Option<Snapshot> {
    match blocks(alloc, 2) {
        None => blocks(alloc, 2),
        made => made,
    }
}

/// The query, made again if memory was refused.
fn query_again(alloc: Global) -> Option<Query> {
    match query(alloc, ONE) {
        None => query(alloc, ONE),
        made => made,
    }
}

/// The text of the answer over the two blocks. The blocks, the query and the text are each made
/// again if memory was refused.
fn text_again<R: Threads + Sync>(rt: &R, alloc: Global) -> Option<Vec<u8>> {
    let (snapshot, query) = blocks_again(alloc).zip(query_again(alloc))?;
    match text_of(alloc, answer_by_workers(rt, alloc, &snapshot, &query)) {
        None => text_of(alloc, answer_by_workers(rt, alloc, &snapshot, &query)),
        text => text,
    }
}

/// `tests/allocations.sh` runs this test with each of its allocations refused in turn: those of two
/// blocks, of the search by workers, of the merge and of the text.
#[test]
fn an_answer_refused_memory_is_the_same_when_asked_for_again(rt: HostRuntime) {
    let text = text_again(&rt, rt.alloc()).expect(&rt, "the second call is not refused memory");
    assert!(rt; text.ends_with(MERGED.as_bytes()));
}

/// Holds the first part until the second is reached, for at most `TURNS` turns.
#[derive(Drop)]
struct Meeting {
    second: AtomicU64,
    met: AtomicU64,
}

const TURNS: u32 = 1_000_000;

impl Gate for Meeting {
    fn reached(&self, part: usize) {
        if part > 0 {
            self.second.store(1, Ordering::SeqCst);
            return;
        }
        for _ in 0..TURNS {
            if self.second.load(Ordering::SeqCst) == 1 {
                self.met.store(1, Ordering::SeqCst);
                return;
            }
            yield_now();
        }
    }
}

/// How many answers a search of two blocks and a head gives.
fn count_searched<R: Threads + Sync>(rt: &R, alloc: Global, gate: &Meeting) -> Option<usize> {
    let (store, query) = blocks(alloc, 2).zip(query(alloc, "up"))?;
    let answers = search(rt, alloc, &store, &query, gate).ok()?;
    Some(answers.len())
}

#[test]
fn the_second_part_is_searched_beside_the_first(rt: HostRuntime) {
    let gate = Meeting {
        second: AtomicU64::new(0),
        met: AtomicU64::new(0),
    };
    assert!(rt; count_searched(&rt, rt.alloc(), &gate) == Some(3));
    assert!(rt; gate.met.load(Ordering::SeqCst) == 1);
}
