//! Seven label sets, batches of their samples, and both as text.

use head::{CommitError, Event, Snapshot, apply};
use labels::{LabelSet, Sample};
use matchers::{Matcher, Op};
use snapshots::Appender;
use std::alloc::{AllocError, Global};

/// The pairs of a label set.
type Set = &'static [(&'static str, &'static str)];

/// The label sets of seven series, in the order of their numbers from 1.
const SETS: &[Set] = &[
    &[("__name__", "up"), ("job", "a")],
    &[("__name__", "up"), ("job", "b")],
    &[("__name__", "up"), ("job", "b"), ("zone", "x")],
    &[("__name__", "down"), ("job", "a")],
    &[("__name__", "down"), ("job", "b")],
    &[("__name__", "up"), ("job", "a"), ("zone", "x")],
    &[("__name__", "up"), ("job", "c")],
];

/// A sample: the number of its label set, its time and its value.
pub type Wanted = (usize, i64, i64);

fn pair_of(alloc: Global, pair: &(&str, &str)) -> Result<(String, String), AllocError> {
    let name = String::from_str(alloc, pair.0)?;
    Ok((name, String::from_str(alloc, pair.1)?))
}

fn pairs_of(alloc: Global, set: &[(&str, &str)]) -> Result<Vec<(String, String)>, AllocError> {
    let mut pairs = Vec::new(alloc);
    for pair in set {
        pairs.push(pair_of(alloc, pair)?)?;
    }
    Ok(pairs)
}

/// The label set with this number, from 1.
pub fn set_of(alloc: Global, number: usize) -> Option<LabelSet> {
    let set = SETS.get(number.saturating_sub(1))?;
    LabelSet::new(alloc, pairs_of(alloc, set).ok()?).ok()
}

fn sample_of(alloc: Global, wanted: &Wanted) -> Option<(LabelSet, Sample)> {
    let set = set_of(alloc, wanted.0)?;
    Some((set, Sample::new(wanted.1, wanted.2)))
}

pub fn samples_of(alloc: Global, wanted: &[Wanted]) -> Option<Vec<(LabelSet, Sample)>> {
    let mut samples = Vec::new(alloc);
    for one in wanted {
        samples.push(sample_of(alloc, one)?).ok()?;
    }
    Some(samples)
}

fn append_one(alloc: Global, appender: &mut Appender, wanted: &Wanted) -> Option<()> {
    let set = set_of(alloc, wanted.0)?;
    appender.append(set, Sample::new(wanted.1, wanted.2)).ok()
}

/// An appender of these samples.
pub fn appender_of(alloc: Global, wanted: &[Wanted]) -> Option<Appender> {
    let mut appender = Appender::new(alloc);
    for one in wanted {
        append_one(alloc, &mut appender, one)?;
    }
    Some(appender)
}

/// A batch of these samples, if they are one.
fn batch_of(alloc: Global, wanted: &[Wanted]) -> Result<Event, CommitError> {
    let Some(samples) = samples_of(alloc, wanted) else {
        return Err(CommitError::Memory);
    };
    if Event::is_batch(&samples) {
        Ok(Event::batch(samples))
    } else {
        Err(CommitError::Limit)
    }
}

/// The snapshot after a batch of these samples.
pub fn after(alloc: Global, at: &Snapshot, wanted: &[Wanted]) -> Result<Snapshot, CommitError> {
    match batch_of(alloc, wanted) {
        Ok(batch) => apply(alloc, at, &batch),
        Err(refusal) => Err(refusal),
    }
}

/// A store without blocks and series.
pub fn empty(alloc: Global) -> Result<Snapshot, AllocError> {
    Snapshot::opening(alloc, Vec::new(alloc))
}

/// As many samples of one series as wanted, at the times from the first to before the last.
pub fn counted(alloc: Global, number: usize, from: i64, until: i64) -> Option<Vec<Wanted>> {
    let mut samples = Vec::new(alloc);
    for t in from..until {
        samples.push((number, t, t)).ok()?;
    }
    Some(samples)
}

/// A snapshot with this many samples of the series 1, at the times from 0.
pub fn with_samples(alloc: Global, count: i64) -> Option<Snapshot> {
    let empty = empty(alloc).ok()?;
    let samples = counted(alloc, 1, 0, count)?;
    after(alloc, &empty, &samples).ok()
}

/// The only matcher of `{job="a"}`.
pub fn job_a(alloc: Global) -> Option<Vec<Matcher>> {
    let name = String::from_str(alloc, "job").ok()?;
    let text = String::from_str(alloc, "a").ok()?;
    let matcher = Matcher::new(alloc, name, Op::Equal, text).ok()?;
    Vec::from_array(alloc, [matcher]).ok()
}

/// Each pair, with a space before it.
pub fn put_labels(text: &mut String, labels: &LabelSet) -> Result<(), AllocError> {
    for at in 0..labels.len() {
        let (name, value) = labels.pair(at);
        write!(text, " {name}={value}")?;
    }
    Ok(())
}

/// Each sample behind its time, with a space before it.
pub fn put_samples(text: &mut String, samples: &[Sample]) -> Result<(), AllocError> {
    for sample in samples {
        write!(text, " {}:{}", sample.t(), sample.v())?;
    }
    Ok(())
}
