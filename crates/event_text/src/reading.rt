//! Reading an event.

ghost use Rattle.std.specs.Prelude.{◌≡◌, IfOk, MatchOption, false, true};
ghost use Rattle.std.specs.Str.{is_utf8};
ghost use Rattle.labels.specs.Pairs.{texts_of};
ghost use Rattle.head.specs.Batches.{IsEvent};
ghost use Rattle.head.specs.Worlds.{Event as Change, batch, deletion};
ghost use Rattle.event_text.specs.Outcome.{FollowsFrom, Gives, GivesEvent, HasRefused};
ghost use Rattle.event_text.specs.Outcome.{MayBeRefused, OnMatcherRefused};
ghost use Rattle.event_text.specs.Reading.{batch_at, cut_at, deletion_at, each_at, event_at};
ghost use Rattle.event_text.specs.Reading.{event_of, is_event, labels_at, matcher_at, op_at};
ghost use Rattle.event_text.specs.Reading.{pair_at, run_at};
ghost use Rattle.event_text.specs.Reading.{sample_at, text_at};
ghost use Rattle.event_text.specs.Spelling.{Spells};
ghost use Rattle.event_text.specs.Views.{event_in, matcher_in, matchers_in};

use crate::error::{EventError, TextError};
use crate::label_check::are_labels;
use crate::parts::{EventParts, MatcherParts};
use crate::runs::{batch_in, differ};
use head::Event;
use labels::{LabelSet, Row, Sample, is_time};
use matchers::{MAX_MATCHERS, Matcher, MatcherError, Op, is_query_range};
use std::alloc::Global;
use wire::Cut;

fn utf8_text(bytes: &[u8]) -> Option<&str>
    ensures { MatchOption result (is_utf8 bytes.now ≡ false)
        (λ s. (is_utf8 bytes.now ≡ true) × (s.now ≡ bytes.now)) }
{
    str::from_utf8(bytes).ok()
}

#[tactic(auto, unfolding(crate::specs::Reading::text_at))]
fn text_of(bytes: &[u8]) -> Result<(&str, &[u8]), TextError>
    ensures { Gives (λ x. (x.0.now, x.1.now)) result (text_at bytes.now) }
{
    let mut cut = Cut::new(bytes);
    let len = cut.uvarint().or(Err(TextError::Field))?;
    let text = cut.bytes(len as usize).or(Err(TextError::Field))?;
    let text = utf8_text(text).ok_or(TextError::Field)?;
    Ok((text, cut.rest()))
}

#[tactic(auto, unfolding(crate::specs::Reading::pair_at))]
fn pair_of(bytes: &[u8]) -> Result<((&str, &str), &[u8]), TextError>
    ensures { Gives (λ x. ((x.0.0.now, x.0.1.now), x.1.now)) result (pair_at bytes.now) }
{
    let (name, rest) = text_of(bytes)?;
    let (value, rest) = text_of(rest)?;
    Ok(((name, value), rest))
}

fn pairs_of(
    alloc: Global,
    bytes: &[u8],
    count: u64,
) -> Result<(Vec<(&str, &str)>, &[u8]), TextError>
    ensures { Gives (λ x. (texts_of x.0.items, x.1.now)) result (each_at pair_at count bytes.now) }
{
    let mut pairs = Vec::new(alloc);
    let mut rest = bytes;
    for counter in 0..count {
        let (pair, after) = pair_of(rest)?;
        pairs.push(pair)?;
        rest = after;
    }
    Ok((pairs, rest))
}

/// The label set in front of bytes, and the bytes after it.
#[tactic(auto, unfolding(crate::specs::Reading::labels_at, crate::specs::Reading::many_at))]
pub fn labels_of(alloc: Global, bytes: &[u8]) -> Result<(LabelSet, &[u8]), TextError>
    ensures { Gives (λ x. (x.0, x.1.now)) result (labels_at bytes.now) }
{
    let mut cut = Cut::new(bytes);
    let count = cut.uvarint().or(Err(TextError::Field))?;
    let (pairs, rest) = pairs_of(alloc, cut.rest(), count)?;
    if !are_labels(pairs.as_slice()) {
        return Err(TextError::Labels);
    }
    Ok((LabelSet::of_sorted_texts(alloc, pairs.as_slice())?, rest))
}

/// The time and the value in front of bytes, and the bytes after them.
#[tactic(auto, unfolding(crate::specs::Reading::sample_at))]
pub fn sample_of(bytes: &[u8]) -> Result<(i64, i64, &[u8]), TextError>
    ensures { Gives (λ x. ((x.0, x.1), x.2.now)) result (sample_at bytes.now) }
{
    let mut cut = Cut::new(bytes);
    let time = cut.varint().or(Err(TextError::Field))?;
    let value = cut.varint().or(Err(TextError::Field))?;
    Ok((time, value, cut.rest()))
}

/// So many samples in front of bytes, and the bytes after them.
pub fn samples_of(
    alloc: Global,
    bytes: &[u8],
    count: u64,
) -> Result<(Vec<Sample>, &[u8]), TextError>
    ensures { Gives (λ x. (x.0.items, x.1.now)) result (each_at sample_at count bytes.now) }
{
    let mut samples = Vec::new(alloc);
    let mut rest = bytes;
    for counter in 0..count {
        let (time, value, after) = sample_of(rest)?;
        samples.push(Sample::new(time, value))?;
        rest = after;
    }
    Ok((samples, rest))
}

#[tactic(auto, unfolding(crate::specs::Reading::run_at, crate::specs::Reading::many_at))]
fn run_of(alloc: Global, bytes: &[u8]) -> Result<(Row, &[u8]), TextError>
    ensures { Gives (λ x. (x.0, x.1.now)) result (run_at bytes.now) }
{
    let (labels, rest) = labels_of(alloc, bytes)?;
    let mut cut = Cut::new(rest);
    let count = cut.uvarint().or(Err(TextError::Field))?;
    let (samples, rest) = samples_of(alloc, cut.rest(), count)?;
    if samples.len() == 0 {
        return Err(TextError::Runs);
    }
    Ok((Row::new(labels, samples), rest))
}

fn runs_of(alloc: Global, bytes: &[u8], count: u64) -> Result<(Vec<Row>, &[u8]), TextError>
    ensures { Gives (λ x. (x.0.items, x.1.now)) result (each_at run_at count bytes.now) }
{
    let mut runs = Vec::new(alloc);
    let mut rest = bytes;
    for counter in 0..count {
        let (found, after) = run_of(alloc, rest)?;
        runs.push(found)?;
        rest = after;
    }
    Ok((runs, rest))
}

fn op_of(number: u8) -> Option<Op>
    ensures { result ≡ op_at number }
{
    match number {
        0 => Some(Op::Equal),
        1 => Some(Op::NotEqual),
        2 => Some(Op::Like),
        3 => Some(Op::NotLike),
        _ => None,
    }
}

#[tactic(auto, unfolding(crate::specs::Reading::matcher_at))]
fn matcher_of(bytes: &[u8]) -> Result<(MatcherParts<'_>, &[u8]), TextError>
    ensures { Gives (λ x. (matcher_in x.0, x.1.now)) result (matcher_at bytes.now) }
{
    let mut cut = Cut::new(bytes);
    let number = cut.u8().or(Err(TextError::Field))?;
    let ((name, text), rest) = pair_of(cut.rest())?;
    let op = op_of(number).ok_or(TextError::Field)?;
    Ok((MatcherParts { name, op, text }, rest))
}

fn matchers_of(
    alloc: Global,
    bytes: &[u8],
    count: u64,
) -> Result<(Vec<MatcherParts<'_>>, &[u8]), TextError>
    ensures { Gives (λ x. (matchers_in x.0.items, x.1.now)) result
        (each_at matcher_at count bytes.now) }
{
    let mut matchers = Vec::new(alloc);
    let mut rest = bytes;
    for counter in 0..count {
        let (matcher, after) = matcher_of(rest)?;
        matchers.push(matcher)?;
        rest = after;
    }
    Ok((matchers, rest))
}

#[tactic(auto, unfolding(crate::specs::Reading::batch_at, crate::specs::Reading::many_at))]
fn batch_of(alloc: Global, bytes: &[u8]) -> Result<(EventParts<'_>, &[u8]), TextError>
    ensures { Gives (λ x. (event_in x.0, x.1.now)) result (batch_at bytes.now) }
{
    let mut cut = Cut::new(bytes);
    let count = cut.uvarint().or(Err(TextError::Field))?;
    let (runs, rest) = runs_of(alloc, cut.rest(), count)?;
    if !differ(&runs) {
        return Err(TextError::Runs);
    }
    Ok((EventParts::Batch(batch_in(alloc, &runs)?), rest))
}

#[tactic(auto, unfolding(crate::specs::Reading::deletion_at, crate::specs::Reading::many_at))]
fn deletion_of(alloc: Global, bytes: &[u8]) -> Result<(EventParts<'_>, &[u8]), TextError>
    ensures { Gives (λ x. (event_in x.0, x.1.now)) result (deletion_at bytes.now) }
{
    let mut cut = Cut::new(bytes);
    let count = cut.uvarint().or(Err(TextError::Field))?;
    let (matchers, rest) = matchers_of(alloc, cut.rest(), count)?;
    let mut cut = Cut::new(rest);
    let from = cut.varint().or(Err(TextError::Field))?;
    let to = cut.varint().or(Err(TextError::Field))?;
    Ok((EventParts::Deletion(matchers, from, to), cut.rest()))
}

#[tactic(auto, unfolding(crate::specs::Reading::cut_at))]
fn cut_of(bytes: &[u8]) -> Result<(EventParts<'_>, &[u8]), TextError>
    ensures { Gives (λ x. (event_in x.0, x.1.now)) result (cut_at bytes.now) }
{
    let mut cut = Cut::new(bytes);
    let at = cut.varint().or(Err(TextError::Field))?;
    Ok((EventParts::Cut(at), cut.rest()))
}

#[tactic(auto, unfolding(crate::specs::Reading::event_at))]
fn event_at(alloc: Global, bytes: &[u8]) -> Result<(EventParts<'_>, &[u8]), TextError>
    ensures { Gives (λ x. (event_in x.0, x.1.now)) result (event_at bytes.now) }
{
    let mut cut = Cut::new(bytes);
    let kind = cut.u8().or(Err(TextError::Kind))?;
    match kind {
        1 => batch_of(alloc, cut.rest()),
        2 => deletion_of(alloc, cut.rest()),
        3 => cut_of(cut.rest()),
        _ => Err(TextError::Kind),
    }
}

fn is_event(event: &EventParts<'_>) -> bool
    ensures { result ≡ is_event (event_in event.now) }
{
    match event {
        EventParts::Batch(samples) => Event::is_batch(samples),
        EventParts::Deletion(matchers, from, to) => {
            matchers.len() <= MAX_MATCHERS && is_query_range(*from, *to)
        }
        EventParts::Cut(at) => is_time(*at),
    }
}

#[tactic(auto, unfolding(crate::specs::Reading::event_of))]
fn parts_of(alloc: Global, bytes: &[u8]) -> Result<EventParts<'_>, TextError>
    ensures exact { Gives event_in result (event_of bytes.now) }
    ensures within { IfOk result (λ e. IsEvent (event_in e)) }
{
    let (event, rest) = event_at(alloc, bytes)?;
    if rest.len() > 0 {
        return Err(TextError::Rest);
    }
    if !is_event(&event) {
        return Err(TextError::Bounds);
    }
    Ok(event)
}

fn built_matcher(alloc: Global, parts: &MatcherParts<'_>) -> Result<Matcher, EventError>
    ensures ok { IfOk result (λ m. m ≡ matcher_in parts.now) }
    ensures refused { OnMatcherRefused result (MayBeRefused (matcher_in parts.now)) }
{
    let name = String::from_str(alloc, parts.name)?;
    let text = String::from_str(alloc, parts.text)?;
    match Matcher::new(alloc, name, parts.op, text) {
        Ok(matcher) => Ok(matcher),
        Err(MatcherError::Memory) => Err(EventError::Text(TextError::Memory)),
        Err(MatcherError::BadName) => Err(EventError::Matcher(MatcherError::BadName)),
        Err(MatcherError::PatternTooLong) => Err(EventError::Matcher(MatcherError::PatternTooLong)),
        Err(MatcherError::PatternRefused) => Err(EventError::Matcher(MatcherError::PatternRefused)),
    }
}

fn built_matchers(alloc: Global, parts: &[MatcherParts<'_>]) -> Result<Vec<Matcher>, EventError>
    ensures ok { IfOk result (λ ms. ms.items ≡ matchers_in parts.now) }
    ensures refused { OnMatcherRefused result (HasRefused (matchers_in parts.now)) }
{
    let mut matchers = Vec::new(alloc);
    for part in parts {
        matchers.push(built_matcher(alloc, part)?)?;
    }
    Ok(matchers)
}

fn built(alloc: Global, parts: EventParts<'_>) -> Result<Event, EventError>
    requires { IsEvent (event_in parts) }
    ensures { GivesEvent (event_in parts.entry) result }
{
    match parts {
        EventParts::Batch(samples) => Ok(Event::batch(samples)),
        EventParts::Deletion(parts, from, to) => {
            let matchers = built_matchers(alloc, &parts)?;
            Ok(Event::deletion(matchers, from, to))
        }
        EventParts::Cut(at) => Ok(Event::cut(at)),
    }
}

/// The event that the bytes spell, all of the bytes.
///
/// `J8` to `J13` are the first fault from the front; `J14` is told of a deletion, of whose matchers
/// `Matcher::new` refuses one. It takes time and memory in proportion to the bytes.
pub fn read_event(alloc: Global, bytes: &[u8]) -> Result<Event, EventError>
    // What is read is spelled so.
    ensures found { IfOk result (λ e. Spells bytes.now e) }
    // What is spelled so is read, unless memory runs out or a matcher is refused.
    ensures only { (e : Change) → Spells bytes.now e → GivesEvent e result }
    // Which fault it is.
    ensures exact { FollowsFrom (event_of bytes.now) result }
{
    let parts = parts_of(alloc, bytes)?;
    built(alloc, parts)
}
