//! A series of the head.

ghost use Rattle.std.specs.Prelude.{◌≡◌, IfOk, Some, None, T, map, filter, not, int_lt, nat_le};
ghost use Rattle.std.specs.Prelude.{MatchOption};
ghost use Rattle.std.specs.Ordering.{int_cmp, int_eq};
ghost use Rattle.std.specs.FinMap.Entries.{is_sorted};
ghost use Rattle.labels.specs.Contents.{in_range};
ghost use Rattle.matchers.specs.Satisfies.{satisfies_all};
ghost use Rattle.kept_world.specs.States.{new_series, grown, struck_series, rest_of, leaving};
ghost use Rattle.kept_world.specs.States.{stays, samples_of};
ghost use Rattle.kept_world.specs.Births.{came_row};
ghost use Rattle.kept_world.specs.Sound.{Took, first_series, rises};

use crate::choice::{Choice, Span};
use kept_walk::KeptSeries;
use labels::{LabelSet, Row, Sample};
use std::alloc::{AllocError, Global};
use std::marker::Model;

/// The greatest number of samples of a series.
const MAX_SAMPLES: usize = 1_048_576;

/// A sample behind the number of the event that brought it.
type Born = (usize, Sample);

fn is_earlier(a: &Sample, b: &Sample) -> bool
    ensures { result ≡ int_lt a.now.0 b.now.0 }
{
    a.t() < b.t()
}

fn is_level(a: &Sample, b: &Sample) -> bool
    ensures { result ≡ int_eq a.now.0 b.now.0 }
{
    a.t() == b.t()
}

fn has_value_of(a: &Sample, b: &Sample) -> bool
    ensures { result ≡ int_eq a.now.1 b.now.1 }
{
    a.v() == b.v()
}

/// The samples of a range leave.
fn strike_samples(samples: &mut Vec<Born>, span: &Span)
    ensures { samples.new.items
        ≡ filter (λ k. not (in_range span.now.from span.now.to k.1.0)) samples.old.items }
{
    samples.retain(|born| !span.has(&born.1));
}

/// The samples below a time leave.
fn keep_from(samples: &mut Vec<Born>, time: &i64)
    ensures { samples.new.items ≡ filter (λ k. not (int_lt k.1.0 time.now)) samples.old.items }
{
    samples.retain(|born| !(born.1.t() < *time));
}

/// The samples that came by an event.
fn came_samples(alloc: Global, samples: &[Born], number: usize) -> Result<Vec<Sample>, AllocError>
    ensures { IfOk result (λ v.
        v.items ≡ samples_of (filter (λ k. nat_le k.0 number) samples.now)) }
{
    samples
        .iter()
        .filter(|born| born.0 <= number)
        .map(|born| born.1)
        .collect(alloc)
}

/// The samples below a time.
fn samples_below(alloc: Global, samples: &[Born], time: &i64) -> Result<Vec<Sample>, AllocError>
    ensures { IfOk result (λ v.
        v.items ≡ samples_of (filter (λ k. int_lt k.1.0 time.now) samples.now)) }
{
    samples
        .iter()
        .filter(|born| born.1.t() < *time)
        .map(|born| born.1)
        .collect(alloc)
}

/// Samples of a head record, which no event behind it brought.
fn first_samples(alloc: Global, samples: &[Sample]) -> Result<Vec<Born>, AllocError>
    ensures { IfOk result (λ v. v.items ≡ map (λ s. (0, s)) samples.now) }
{
    samples.iter().map(|sample| (0, *sample)).collect(alloc)
}

/// Whether each time is below the next, and the last not above the newest one.
fn are_rising(samples: &[Sample], newest: &Sample) -> bool
    ensures { result ≡ rises newest.now.0 samples.now }
{
    for i in 1..samples.len() {
        if !is_earlier(&samples[i - 1], &samples[i]) {
            return false;
        }
    }
    match samples.last() {
        Some(last) => !is_earlier(newest, last),
        None => true,
    }
}

/// A series of the head: its samples with their births, the oldest first.
#[derive(Drop)]
pub(crate) struct Series {
    labels: LabelSet,
    born: usize,
    newest: Sample,
    samples: Vec<Born>,
}

impl Model for Series {
    ghost use Rattle.kept_world.specs.States.{HeadSeries};
    ghost use Rattle.kept_world.specs.Sound.{IsSoundSeries};

    ghost Value = { HeadSeries };

    ghost view = { λ s. record {
      labels = s.labels;
      born = s.born;
      newest = s.newest;
      samples = s.samples.items;
    } };

    ghost invariant = { λ s. IsSoundSeries (record {
      labels = s.labels;
      born = s.born;
      newest = s.newest;
      samples = s.samples.items;
    }) };
}

impl Series {
    /// A series that an event brings.
    pub(crate) fn new(
        alloc: Global,
        number: usize,
        labels: LabelSet,
        sample: Sample,
    ) -> Result<Series, AllocError>
        ensures { IfOk result (λ series. series ≡ new_series number (labels, sample)) }
    {
        let mut samples = Vec::new(alloc);
        samples.push((number, sample))?;
        Ok(Series {
            labels,
            born: number,
            newest: sample,
            samples,
        })
    }

    /// A series of a head record; `None` if its times do not ascend up to its newest one.
    pub(crate) fn first(alloc: Global, kept: KeptSeries) -> Result<Option<Series>, AllocError>
        ensures { IfOk result (λ series. MatchOption series
            (T (rises kept.newest.0 kept.samples) → ⊥)
            (λ e. T (rises kept.newest.0 kept.samples) × (e ≡ first_series kept))) }
    {
        let (labels, newest, samples) = kept.into_parts();
        if !are_rising(&samples, &newest) {
            return Ok(None);
        }
        let samples = first_samples(alloc, &samples)?;
        Ok(Some(Series {
            labels,
            born: 0,
            newest,
            samples,
        }))
    }

    pub(crate) fn labels(&self) -> &LabelSet
        ensures { result.now ≡ self.now.labels }
    {
        &self.labels
    }

    /// The number of the event that brought it.
    pub(crate) fn born(&self) -> usize
        ensures { result ≡ self.now.born }
    {
        self.born
    }

    /// Whether it stays in the head at a cut.
    pub(crate) fn stays(&self, time: &i64) -> bool
        ensures { result ≡ stays time.now self.now }
    {
        !(self.newest.t() < *time)
    }

    /// Takes one more sample, and says whether it is accepted.
    pub(crate) fn grow(&mut self, number: usize, sample: Sample) -> Result<bool, AllocError>
        ensures { IfOk result (λ took. Took took (grown number sample self.old) self.new) }
    {
        if is_earlier(&sample, &self.newest) {
            return Ok(false);
        }
        if is_level(&sample, &self.newest) {
            return Ok(has_value_of(&sample, &self.newest));
        }
        if self.samples.len() >= MAX_SAMPLES {
            return Ok(false);
        }
        self.samples.push((number, sample))?;
        self.newest = sample;
        Ok(true)
    }

    /// The samples that a deletion takes leave.
    pub(crate) fn strike(&mut self, choice: &mut Choice<'_>)
        ensures struck { self.new ≡ struck_series (satisfies_all choice.old.matchers)
            choice.old.from choice.old.to self.old }
        ensures same { choice.new ≡ choice.old }
    {
        if choice.has_labels(&self.labels) {
            strike_samples(&mut self.samples, &choice.span());
        }
    }

    /// The samples below a time leave.
    pub(crate) fn raise(&mut self, time: &i64)
        ensures { self.new ≡ rest_of time.now self.old }
    {
        keep_from(&mut self.samples, time);
    }

    /// The samples below a time.
    pub(crate) fn leaving(&self, alloc: Global, time: &i64) -> Result<Vec<Sample>, AllocError>
        ensures samples { IfOk result (λ samples. samples.items ≡ leaving time.now self.now) }
        ensures ascending { IfOk result (λ samples. T (is_sorted int_cmp samples.items)) }
    {
        Ok(samples_below(alloc, &self.samples, time)?)
    }

    /// What came by an event.
    pub(crate) fn came_by(&self, alloc: Global, number: usize) -> Result<Row, AllocError>
        ensures row { IfOk result (λ row. row ≡ came_row number self.now) }
        ensures ascending { IfOk result (λ row. T (is_sorted int_cmp row.1)) }
    {
        let samples = came_samples(alloc, &self.samples, number)?;
        Ok(Row::new(self.labels.try_clone()?, samples))
    }
}
