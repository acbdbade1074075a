//! Reading the content of an event.

ghost use Rattle.std.specs.Prelude.{◌≡◌, nat_le};
ghost use Rattle.std.specs.List.{list_all};
ghost use Rattle.kept_walk.specs.Contents.{SpellsEvent, are_timed, is_bounded, sample_count};
ghost use Rattle.kept_walk.specs.Kept.{batch, cut};
ghost use Rattle.kept_walk.specs.Outcome.{Finds, Gives};
ghost use Rattle.kept_walk.specs.Parts.{event_in};
ghost use Rattle.kept_walk.specs.Reading.{all_of, as_at, deletion_at, event_at, event_of, removal};
ghost use Rattle.kept_walk.specs.Reading.{runs_at, signed_at};

use crate::fault::Fault;
use crate::fields::{deletion_of, runs_of};
use crate::parts::EventParts;
use labels::{Row, is_time};
use matchers::{MAX_MATCHERS, is_query_range};
use std::alloc::Global;
use wire::Cut;

/// The greatest number of samples of a batch.
const MAX_BATCH: usize = 4_096;

/// Whether runs have at most so many samples.
pub(crate) fn are_few(runs: &[Row]) -> bool
    ensures { result ≡ nat_le (sample_count runs.now) 4096 }
{
    let mut left = MAX_BATCH;
    for row in runs {
        let count = row.samples().len();
        if left < count {
            return false;
        }
        left -= count;
    }
    true
}

fn is_timed(row: &Row) -> bool
    ensures { result ≡ are_timed row.now }
{
    row.samples().iter().all(|sample| is_time(sample.t()))
}

pub(crate) fn are_timed(runs: &[Row]) -> bool
    ensures { result ≡ list_all are_timed runs.now }
{
    runs.iter().all(|row| is_timed(row))
}

fn is_bounded(event: &EventParts<'_>) -> bool
    ensures { result ≡ is_bounded (event_in event.now) }
{
    match event {
        EventParts::Batch(runs) => are_few(runs) && are_timed(runs),
        EventParts::Deletion(matchers, from, to) => {
            matchers.len() <= MAX_MATCHERS && is_query_range(*from, *to)
        }
        EventParts::Cut(time) => is_time(*time),
    }
}

#[tactic(auto, unfolding(crate::specs::Reading::as_at))]
fn batch_at(alloc: Global, bytes: &[u8]) -> Result<(EventParts<'_>, &[u8]), Fault>
    ensures { Gives (λ x. (event_in x.0, x.1.now)) result (as_at batch runs_at bytes.now) }
{
    let (runs, rest) = runs_of(alloc, bytes)?;
    Ok((EventParts::Batch(runs), rest))
}

#[tactic(auto, unfolding(crate::specs::Reading::as_at))]
fn deletion_at(alloc: Global, bytes: &[u8]) -> Result<(EventParts<'_>, &[u8]), Fault>
    ensures { Gives (λ x. (event_in x.0, x.1.now)) result (as_at removal deletion_at bytes.now) }
{
    let (matchers, from, to, rest) = deletion_of(alloc, bytes)?;
    Ok((EventParts::Deletion(matchers, from, to), rest))
}

#[tactic(auto, unfolding(crate::specs::Reading::as_at))]
fn cut_at(bytes: &[u8]) -> Result<(EventParts<'_>, &[u8]), Fault>
    ensures { Gives (λ x. (event_in x.0, x.1.now)) result (as_at cut signed_at bytes.now) }
{
    let mut cut = Cut::new(bytes);
    let time = cut.varint().or(Err(Fault::Form))?;
    Ok((EventParts::Cut(time), cut.rest()))
}

#[tactic(auto, unfolding(crate::specs::Reading::event_at))]
fn event_at(alloc: Global, bytes: &[u8]) -> Result<(EventParts<'_>, &[u8]), Fault>
    ensures { Gives (λ x. (event_in x.0, x.1.now)) result (event_at bytes.now) }
{
    let mut cut = Cut::new(bytes);
    let kind = cut.u8().or(Err(Fault::Form))?;
    match kind {
        1 => batch_at(alloc, cut.rest()),
        2 => deletion_at(alloc, cut.rest()),
        3 => cut_at(cut.rest()),
        _ => Err(Fault::Form),
    }
}

#[tactic(auto, unfolding(crate::specs::Reading::event_of, crate::specs::Reading::all_of))]
fn event_of(alloc: Global, content: &[u8]) -> Result<EventParts<'_>, Fault>
    ensures { Gives event_in result (event_of content.now) }
{
    let (event, rest) = event_at(alloc, content)?;
    if rest.len() > 0 {
        return Err(Fault::Form);
    }
    if !is_bounded(&event) {
        return Err(Fault::Form);
    }
    Ok(event)
}

/// The event that a content spells, all of it, which names no series by number.
pub(crate) fn read_event(alloc: Global, content: &[u8]) -> Result<EventParts<'_>, Fault>
    ensures { Finds event_in (SpellsEvent content.now) result }
{
    event_of(alloc, content)
}
