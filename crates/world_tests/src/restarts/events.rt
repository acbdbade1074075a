//! The events of a session.

use head::Event;
use labels::{LabelSet, Sample, is_time};
use matchers::{Matcher, Op};
use std::alloc::Global;

/// A sample: the value of the label `job`, its time and its value.
pub type Wanted = (&'static str, i64, i64);

/// An event of a session.
#[derive(Clone, Copy)]
pub enum Wish {
    /// A batch of these samples.
    Batch(&'static [Wanted]),
    /// A deletion of a job's samples from one time to another.
    Deletion(&'static str, i64, i64),
    /// A cut.
    Cut(i64),
}

/// Commits, deletions and cuts. The deletions take the newest sample of a series, with others left
/// in the head and with none, samples of one block or of two, and samples of the head. The cuts
/// leave a series without samples in the head, and move others out of it.
pub const SESSION: &[Wish] = &[
    Wish::Batch(&[
        ("a", 10, 1),
        ("b", 10, 5),
        ("a", 20, 2),
        ("c", 15, 9),
        ("b", 30, 6),
    ]),
    Wish::Batch(&[("a", 40, 3), ("b", 40, 7)]),
    Wish::Deletion("a", 20, 40),
    Wish::Cut(25),
    Wish::Batch(&[("a", 50, 4), ("b", 50, 8)]),
    Wish::Deletion("b", 0, 45),
    Wish::Batch(&[("a", 60, 1), ("a", 65, 3), ("c", 70, 2)]),
    Wish::Deletion("a", 65, 65),
    Wish::Cut(55),
    Wish::Deletion("a", 0, 55),
    Wish::Batch(&[("d", 80, 1), ("a", 80, 6)]),
    Wish::Batch(&[("d", 90, 2)]),
    Wish::Cut(85),
    Wish::Deletion("c", 0, 99),
    Wish::Batch(&[("c", 95, 4), ("b", 95, 2)]),
];

/// Samples of a value that no other has, between the times of the others. Which of them a store
/// takes shows its floor and the newest samples of its series, also of those that were deleted.
pub const PROBES: &[Wish] = &[
    Wish::Batch(&[("a", 15, 77)]),
    Wish::Batch(&[("a", 30, 77)]),
    Wish::Batch(&[("a", 45, 77)]),
    Wish::Batch(&[("a", 62, 77)]),
    Wish::Batch(&[("a", 75, 77)]),
    Wish::Batch(&[("b", 35, 77)]),
    Wish::Batch(&[("b", 55, 77)]),
    Wish::Batch(&[("c", 60, 77)]),
    Wish::Batch(&[("c", 90, 77)]),
    Wish::Batch(&[("d", 85, 77)]),
];

/// What is committed to a store that was started again.
pub const ONE_MORE: Wish = Wish::Batch(&[("a", 1_000, 1), ("e", 1_000, 2)]);

fn set_of(alloc: Global, job: &str) -> Option<LabelSet> {
    let name = String::from_str(alloc, "job").ok()?;
    let text = String::from_str(alloc, job).ok()?;
    let pairs = Vec::from_array(alloc, [(name, text)]).ok()?;
    LabelSet::new(alloc, pairs).ok()
}

fn sample_of(alloc: Global, wanted: &Wanted) -> Option<(LabelSet, Sample)> {
    Some((set_of(alloc, wanted.0)?, Sample::new(wanted.1, wanted.2)))
}

fn batch_of(alloc: Global, wanted: &[Wanted]) -> Option<Event> {
    let mut samples = Vec::new(alloc);
    for one in wanted {
        samples.push(sample_of(alloc, one)?).ok()?;
    }
    if Event::is_batch(&samples) {
        return Some(Event::batch(samples));
    }
    None
}

fn matcher_of(alloc: Global, job: &str) -> Option<Matcher> {
    let name = String::from_str(alloc, "job").ok()?;
    let text = String::from_str(alloc, job).ok()?;
    Matcher::new(alloc, name, Op::Equal, text).ok()
}

fn deletion_of(alloc: Global, job: &str, from: i64, to: i64) -> Option<Event> {
    let matchers = Vec::from_array(alloc, [matcher_of(alloc, job)?]).ok()?;
    if Event::is_deletion(&matchers, from, to) {
        return Some(Event::deletion(matchers, from, to));
    }
    None
}

fn cut_of(at: i64) -> Option<Event> {
    if is_time(at) {
        return Some(Event::cut(at));
    }
    None
}

/// The event that is wished for.
pub fn event_of(alloc: Global, wish: Wish) -> Option<Event> {
    match wish {
        Wish::Batch(wanted) => batch_of(alloc, wanted),
        Wish::Deletion(job, from, to) => deletion_of(alloc, job, from, to),
        Wish::Cut(at) => cut_of(at),
    }
}
