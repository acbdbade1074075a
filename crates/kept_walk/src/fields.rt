//! Reading the fields of a content: the value in front of bytes, and the bytes behind it.

ghost use Rattle.std.specs.Prelude.{◌≡◌, MatchOption, false, true};
ghost use Rattle.std.specs.Str.{is_utf8};
ghost use Rattle.labels.specs.Pairs.{texts_of};
ghost use Rattle.kept_walk.specs.Fields.{is_op};
ghost use Rattle.kept_walk.specs.Outcome.{Gives};
ghost use Rattle.kept_walk.specs.Parts.{matcher_in, matchers_in};
ghost use Rattle.kept_walk.specs.Reading.{deletion_at, each_at, labels_at, list_at, matcher_at};
ghost use Rattle.kept_walk.specs.Reading.{op_of, pair_at, place_at, run_at, runs_at, sample_at};
ghost use Rattle.kept_walk.specs.Reading.{samples_at, series_at, string_at};

use crate::fault::Fault;
use crate::journal_state::KeptSeries;
use crate::neighbours::{are_labels, differ};
use crate::parts::MatcherParts;
use labels::{LabelSet, Row, Sample};
use matchers::Op;
use std::alloc::Global;
use wire::Cut;

fn utf8_text(bytes: &[u8]) -> Option<&str>
    ensures { MatchOption result (is_utf8 bytes.now ≡ false)
        (λ s. (is_utf8 bytes.now ≡ true) × (s.now ≡ bytes.now)) }
{
    str::from_utf8(bytes).ok()
}

#[tactic(auto, unfolding(crate::specs::Reading::string_at))]
fn string_of(bytes: &[u8]) -> Result<(&str, &[u8]), Fault>
    ensures { Gives (λ x. (x.0.now, x.1.now)) result (string_at bytes.now) }
{
    let mut cut = Cut::new(bytes);
    let len = cut.uvarint().or(Err(Fault::Form))?;
    let text = cut.bytes(len as usize).or(Err(Fault::Form))?;
    let text = utf8_text(text).ok_or(Fault::Form)?;
    Ok((text, cut.rest()))
}

#[tactic(auto, unfolding(crate::specs::Reading::both_at))]
fn pair_of(bytes: &[u8]) -> Result<((&str, &str), &[u8]), Fault>
    ensures { Gives (λ x. ((x.0.0.now, x.0.1.now), x.1.now)) result (pair_at bytes.now) }
{
    let (name, rest) = string_of(bytes)?;
    let (value, rest) = string_of(rest)?;
    Ok(((name, value), rest))
}

fn each_pair(alloc: Global, bytes: &[u8], count: u64) -> Result<(Vec<(&str, &str)>, &[u8]), Fault>
    ensures { Gives (λ x. (texts_of x.0.items, x.1.now)) result (each_at pair_at count bytes.now) }
{
    let mut pairs = Vec::new(alloc);
    let mut rest = bytes;
    for counter in 0..count {
        let (pair, after) = pair_of(rest)?;
        pairs.push(pair)?;
        rest = after;
    }
    Ok((pairs, rest))
}

/// A label set: at most 64 label names in strict order, each with a text that is not empty.
#[tactic(auto, unfolding(crate::specs::Reading::such_at, crate::specs::Reading::list_at))]
pub(crate) fn labels_of(alloc: Global, bytes: &[u8]) -> Result<(LabelSet, &[u8]), Fault>
    ensures { Gives (λ x. (x.0, x.1.now)) result (labels_at bytes.now) }
{
    let mut cut = Cut::new(bytes);
    let count = cut.uvarint().or(Err(Fault::Form))?;
    let (pairs, rest) = each_pair(alloc, cut.rest(), count)?;
    if !are_labels(pairs.as_slice()) {
        return Err(Fault::Form);
    }
    Ok((LabelSet::of_sorted_texts(alloc, pairs.as_slice())?, rest))
}

#[tactic(auto, unfolding(crate::specs::Reading::both_at))]
fn sample_of(bytes: &[u8]) -> Result<(i64, i64, &[u8]), Fault>
    ensures { Gives (λ x. ((x.0, x.1), x.2.now)) result (sample_at bytes.now) }
{
    let mut cut = Cut::new(bytes);
    let time = cut.varint().or(Err(Fault::Form))?;
    let value = cut.varint().or(Err(Fault::Form))?;
    Ok((time, value, cut.rest()))
}

fn each_sample(alloc: Global, bytes: &[u8], count: u64) -> Result<(Vec<Sample>, &[u8]), Fault>
    ensures { Gives (λ x. (x.0.items, x.1.now)) result (each_at sample_at count bytes.now) }
{
    let mut samples = Vec::new(alloc);
    let mut rest = bytes;
    for counter in 0..count {
        let (time, value, after) = sample_of(rest)?;
        samples.push(Sample::new(time, value))?;
        rest = after;
    }
    Ok((samples, rest))
}

#[tactic(auto, unfolding(crate::specs::Reading::list_at))]
fn samples_of(alloc: Global, bytes: &[u8]) -> Result<(Vec<Sample>, &[u8]), Fault>
    ensures { Gives (λ x. (x.0.items, x.1.now)) result (samples_at bytes.now) }
{
    let mut cut = Cut::new(bytes);
    let count = cut.uvarint().or(Err(Fault::Form))?;
    each_sample(alloc, cut.rest(), count)
}

/// A series of a head: its label set, its newest sample, and its samples.
#[tactic(auto, unfolding(crate::specs::Reading::as_at, crate::specs::Reading::both_at))]
pub(crate) fn series_of(alloc: Global, bytes: &[u8]) -> Result<(KeptSeries, &[u8]), Fault>
    ensures { Gives (λ x. (x.0, x.1.now)) result (series_at bytes.now) }
{
    let (labels, rest) = labels_of(alloc, bytes)?;
    let (time, value, rest) = sample_of(rest)?;
    let (samples, rest) = samples_of(alloc, rest)?;
    Ok((
        KeptSeries::new(labels, Sample::new(time, value), samples),
        rest,
    ))
}

#[tactic(auto, unfolding(crate::specs::Reading::both_at, crate::specs::Reading::such_at))]
fn run_of(alloc: Global, bytes: &[u8]) -> Result<(Row, &[u8]), Fault>
    ensures { Gives (λ x. (x.0, x.1.now)) result (run_at bytes.now) }
{
    let (labels, rest) = labels_of(alloc, bytes)?;
    let (samples, rest) = samples_of(alloc, rest)?;
    if samples.is_empty() {
        return Err(Fault::Form);
    }
    Ok((Row::new(labels, samples), rest))
}

fn each_run(alloc: Global, bytes: &[u8], count: u64) -> Result<(Vec<Row>, &[u8]), Fault>
    ensures { Gives (λ x. (x.0.items, x.1.now)) result (each_at run_at count bytes.now) }
{
    let mut runs = Vec::new(alloc);
    let mut rest = bytes;
    for counter in 0..count {
        let (found, after) = run_of(alloc, rest)?;
        runs.push(found)?;
        rest = after;
    }
    Ok((runs, rest))
}

/// The runs of a batch.
#[tactic(auto, unfolding(crate::specs::Reading::such_at, crate::specs::Reading::list_at))]
pub(crate) fn runs_of(alloc: Global, bytes: &[u8]) -> Result<(Vec<Row>, &[u8]), Fault>
    ensures { Gives (λ x. (x.0.items, x.1.now)) result (runs_at bytes.now) }
{
    let mut cut = Cut::new(bytes);
    let count = cut.uvarint().or(Err(Fault::Form))?;
    let (runs, rest) = each_run(alloc, cut.rest(), count)?;
    if !differ(&runs) {
        return Err(Fault::Form);
    }
    Ok((runs, rest))
}

fn op_of(number: u8) -> Option<Op>
    ensures { MatchOption result (is_op number ≡ false)
        (λ op. (is_op number ≡ true) × (op ≡ op_of number)) }
{
    match number {
        0 => Some(Op::Equal),
        1 => Some(Op::NotEqual),
        2 => Some(Op::Like),
        3 => Some(Op::NotLike),
        _ => None,
    }
}

#[tactic(auto, unfolding(crate::specs::Reading::as_at, crate::specs::Reading::both_at, crate::specs::Reading::such_at))]
fn matcher_of(bytes: &[u8]) -> Result<(MatcherParts<'_>, &[u8]), Fault>
    ensures { Gives (λ x. (matcher_in x.0, x.1.now)) result (matcher_at bytes.now) }
{
    let mut cut = Cut::new(bytes);
    let number = cut.u8().or(Err(Fault::Form))?;
    let op = op_of(number).ok_or(Fault::Form)?;
    let ((name, text), rest) = pair_of(cut.rest())?;
    Ok((MatcherParts { name, op, text }, rest))
}

fn each_matcher(
    alloc: Global,
    bytes: &[u8],
    count: u64,
) -> Result<(Vec<MatcherParts<'_>>, &[u8]), Fault>
    ensures { Gives (λ x. (matchers_in x.0.items, x.1.now)) result
        (each_at matcher_at count bytes.now) }
{
    let mut matchers = Vec::new(alloc);
    let mut rest = bytes;
    for counter in 0..count {
        let (matcher, after) = matcher_of(rest)?;
        matchers.push(matcher)?;
        rest = after;
    }
    Ok((matchers, rest))
}

/// The matchers of a deletion, and its first and its last time.
#[tactic(auto, unfolding(crate::specs::Reading::both_at, crate::specs::Reading::list_at))]
pub(crate) fn deletion_of(
    alloc: Global,
    bytes: &[u8],
) -> Result<(Vec<MatcherParts<'_>>, i64, i64, &[u8]), Fault>
    ensures { Gives (λ x. ((matchers_in x.0.items, (x.1, x.2)), x.3.now)) result
        (deletion_at bytes.now) }
{
    let mut cut = Cut::new(bytes);
    let count = cut.uvarint().or(Err(Fault::Form))?;
    let (matchers, rest) = each_matcher(alloc, cut.rest(), count)?;
    let mut cut = Cut::new(rest);
    let from = cut.varint().or(Err(Fault::Form))?;
    let to = cut.varint().or(Err(Fault::Form))?;
    Ok((matchers, from, to, cut.rest()))
}

#[tactic(auto, unfolding(crate::specs::Reading::both_at))]
fn place_of(bytes: &[u8]) -> Result<((u64, u64), &[u8]), Fault>
    ensures { Gives (λ x. (x.0, x.1.now)) result (place_at bytes.now) }
{
    let mut cut = Cut::new(bytes);
    let folder = cut.uvarint().or(Err(Fault::Form))?;
    let unused = cut.uvarint().or(Err(Fault::Form))?;
    Ok(((folder, unused), cut.rest()))
}

fn each_place(alloc: Global, bytes: &[u8], count: u64) -> Result<(Vec<(u64, u64)>, &[u8]), Fault>
    ensures { Gives (λ x. (x.0.items, x.1.now)) result (each_at place_at count bytes.now) }
{
    let mut places = Vec::new(alloc);
    let mut rest = bytes;
    for counter in 0..count {
        let (place, after) = place_of(rest)?;
        places.push(place)?;
        rest = after;
    }
    Ok((places, rest))
}

/// Where blocks lie: of each the folder, and a number that is not looked at.
#[tactic(auto, unfolding(crate::specs::Reading::list_at))]
pub(crate) fn places_of(alloc: Global, bytes: &[u8]) -> Result<(Vec<(u64, u64)>, &[u8]), Fault>
    ensures { Gives (λ x. (x.0.items, x.1.now)) result (list_at place_at bytes.now) }
{
    let mut cut = Cut::new(bytes);
    let count = cut.uvarint().or(Err(Fault::Form))?;
    each_place(alloc, cut.rest(), count)
}
