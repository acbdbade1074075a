//! Reading a batch whose series are named by number.

ghost use Rattle.std.specs.Prelude.{◌≡◌, IfOk};
ghost use Rattle.kept_walk.specs.Fields as form;
ghost use Rattle.kept_walk.specs.NumberedReading.{each_by, is_allowed, later_at, list_by, name_at};
ghost use Rattle.kept_walk.specs.NumberedReading.{new_at, numbered_at, numbered_of, run_by};
ghost use Rattle.kept_walk.specs.NumberedReading.{time_after};
ghost use Rattle.kept_walk.specs.Outcome.{Gives};
ghost use Rattle.kept_walk.specs.Reading.{all_of, labels_at};

use crate::events::{are_few, are_timed};
use crate::fault::Fault;
use crate::fields::labels_of;
use crate::neighbours::differ;
use crate::parts::Time;
use labels::{LabelSet, Row, Sample, is_time};
use name_table::NameTable;
use std::alloc::Global;
use wire::Cut;

/// The label set that a text is, all of it.
#[tactic(auto, unfolding(crate::specs::Reading::all_of))]
fn whole_labels(alloc: Global, text: &[u8]) -> Result<LabelSet, Fault>
    ensures { Gives (λ l. l) result (all_of labels_at text.now) }
{
    let (labels, rest) = labels_of(alloc, text)?;
    if rest.len() > 0 {
        return Err(Fault::Form);
    }
    Ok(labels)
}

/// The label set in front, its text, and the bytes behind it.
fn label_of(alloc: Global, bytes: &[u8]) -> Result<(LabelSet, &[u8], &[u8]), Fault>
    ensures exact { Gives (λ x. (x.0, x.2.now)) result (labels_at bytes.now) }
    ensures text { IfOk result (λ x. x.1.now ≡ form.labels.text x.0) }
{
    let (labels, rest) = labels_of(alloc, bytes)?;
    let size = bytes.len().saturating_sub(rest.len());
    let text = bytes.split_at(size).0;
    Ok((labels, text, rest))
}

/// A label set that has no number gets the next one.
#[tactic(auto, unfolding(crate::specs::NumberedReading::new_at))]
fn new_labels<'a>(
    alloc: Global,
    names: &mut NameTable,
    bytes: &'a [u8],
) -> Result<(LabelSet, &'a [u8]), Fault>
    ensures { Gives (λ x. ((x.0, names.new), x.1.now)) result (new_at names.old bytes.now) }
{
    let (labels, text, rest) = label_of(alloc, bytes)?;
    if names.number_of(text) != names.len() {
        return Err(Fault::Form);
    }
    names.push(Vec::from_slice(alloc, text)?)?;
    Ok((labels, rest))
}

/// The label set of a number, which follows it where the number is the next one.
fn numbered_labels<'a>(
    alloc: Global,
    names: &mut NameTable,
    number: u64,
    bytes: &'a [u8],
) -> Result<(LabelSet, &'a [u8]), Fault>
    ensures { Gives (λ x. ((x.0, names.new), x.1.now)) result
        (numbered_at number names.old bytes.now) }
{
    if let Some(text) = names.get(number as usize) {
        return Ok((whole_labels(alloc, text)?, bytes));
    }
    if number as usize != names.len() {
        return Err(Fault::Form);
    }
    new_labels(alloc, names, bytes)
}

#[tactic(auto, unfolding(crate::specs::NumberedReading::name_at))]
fn name_of<'a>(
    alloc: Global,
    names: &mut NameTable,
    bytes: &'a [u8],
) -> Result<(LabelSet, &'a [u8]), Fault>
    ensures { Gives (λ x. ((x.0, names.new), x.1.now)) result (name_at names.old bytes.now) }
{
    let mut cut = Cut::new(bytes);
    let number = cut.uvarint().or(Err(Fault::Form))?;
    numbered_labels(alloc, names, number, cut.rest())
}

/// The time so much later than a time.
#[tactic(auto, unfolding(crate::specs::NumberedReading::time_after))]
fn time_after(before: Time, step: i64) -> Option<i64>
    ensures { result ≡ time_after before step }
{
    let time = before.at().checked_add(step)?;
    if !is_time(time) {
        return None;
    }
    Some(time)
}

/// A sample after a time, which becomes its own.
#[tactic(auto, unfolding(crate::specs::NumberedReading::later_at))]
fn later_of<'a>(time: &mut Time, bytes: &'a [u8]) -> Result<(i64, i64, &'a [u8]), Fault>
    ensures { Gives (λ x. (((x.0, x.1), time.new), x.2.now)) result
        (later_at time.old bytes.now) }
{
    let mut cut = Cut::new(bytes);
    let step = cut.varint().or(Err(Fault::Form))?;
    let value = cut.varint().or(Err(Fault::Form))?;
    let Some(at) = time_after(*time, step) else {
        return Err(Fault::Form);
    };
    *time = Time::new(at);
    Ok((at, value, cut.rest()))
}

fn each_later<'a>(
    alloc: Global,
    time: &mut Time,
    bytes: &'a [u8],
    count: u64,
) -> Result<(Vec<Sample>, &'a [u8]), Fault>
    ensures { Gives (λ x. ((x.0.items, time.new), x.1.now)) result
        (each_by later_at count time.old bytes.now) }
{
    let mut samples = Vec::new(alloc);
    let mut rest = bytes;
    for counter in 0..count {
        let (at, value, after) = later_of(time, rest)?;
        samples.push(Sample::new(at, value))?;
        rest = after;
    }
    Ok((samples, rest))
}

#[tactic(auto, unfolding(crate::specs::NumberedReading::list_by))]
fn laters_of<'a>(
    alloc: Global,
    time: &mut Time,
    bytes: &'a [u8],
) -> Result<(Vec<Sample>, &'a [u8]), Fault>
    ensures { Gives (λ x. ((x.0.items, time.new), x.1.now)) result
        (list_by later_at time.old bytes.now) }
{
    let mut cut = Cut::new(bytes);
    let count = cut.uvarint().or(Err(Fault::Form))?;
    each_later(alloc, time, cut.rest(), count)
}

#[tactic(auto, unfolding(crate::specs::NumberedReading::run_by))]
fn run_of<'a>(
    alloc: Global,
    names: &mut NameTable,
    time: &mut Time,
    bytes: &'a [u8],
) -> Result<(Row, &'a [u8]), Fault>
    ensures { Gives (λ x. ((x.0, (names.new, time.new)), x.1.now)) result
        (run_by (names.old, time.old) bytes.now) }
{
    let (labels, rest) = name_of(alloc, names, bytes)?;
    let (samples, rest) = laters_of(alloc, time, rest)?;
    if samples.is_empty() {
        return Err(Fault::Form);
    }
    Ok((Row::new(labels, samples), rest))
}

fn each_run<'a>(
    alloc: Global,
    names: &mut NameTable,
    time: &mut Time,
    bytes: &'a [u8],
    count: u64,
) -> Result<(Vec<Row>, &'a [u8]), Fault>
    ensures { Gives (λ x. ((x.0.items, (names.new, time.new)), x.1.now)) result
        (each_by run_by count (names.old, time.old) bytes.now) }
{
    let mut runs = Vec::new(alloc);
    let mut rest = bytes;
    for counter in 0..count {
        let (found, after) = run_of(alloc, names, time, rest)?;
        runs.push(found)?;
        rest = after;
    }
    Ok((runs, rest))
}

#[tactic(auto, unfolding(crate::specs::NumberedReading::list_by))]
fn runs_of<'a>(
    alloc: Global,
    names: &mut NameTable,
    time: &mut Time,
    bytes: &'a [u8],
) -> Result<(Vec<Row>, &'a [u8]), Fault>
    ensures { Gives (λ x. ((x.0.items, (names.new, time.new)), x.1.now)) result
        (list_by run_by (names.old, time.old) bytes.now) }
{
    let mut cut = Cut::new(bytes);
    let count = cut.uvarint().or(Err(Fault::Form))?;
    each_run(alloc, names, time, cut.rest(), count)
}

fn is_allowed(runs: &[Row]) -> bool
    ensures { result ≡ is_allowed runs.now }
{
    differ(runs) && are_few(runs) && are_timed(runs)
}

/// The runs of a batch by number, all of the bytes behind its kind.
#[tactic(auto, unfolding(crate::specs::NumberedReading::numbered_of))]
pub(crate) fn numbered_of(
    alloc: Global,
    names: &mut NameTable,
    bytes: &[u8],
) -> Result<Vec<Row>, Fault>
    ensures { Gives (λ runs. (runs.items, names.new)) result (numbered_of names.old bytes.now) }
{
    let mut time = Time::new(0);
    let (runs, rest) = runs_of(alloc, names, &mut time, bytes)?;
    if rest.len() > 0 {
        return Err(Fault::Form);
    }
    if !is_allowed(&runs) {
        return Err(Fault::Form);
    }
    Ok(runs)
}
