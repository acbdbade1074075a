//! The head, and what events do to it.

ghost use Rattle.std.specs.Prelude.{◌≡◌, ◌<◌, ◌≤◌, IfOk, MatchOption, Some, None, length, map, filter};
ghost use Rattle.std.specs.Prelude.{slice_get, []};
ghost use Rattle.matchers.specs.Satisfies.{satisfies_all};
ghost use Rattle.kept_walk.specs.Kept.{Series as FirstSeries};
ghost use Rattle.kept_world.specs.States.{HeadSeries, placed, grown, new_series, has_room};
ghost use Rattle.kept_world.specs.States.{struck_series, rest_of, stays, added, added_each};
ghost use Rattle.kept_world.specs.States.{entries_in, entries_of, max_series, numbered, rows_below};
ghost use Rattle.kept_world.specs.Births.{came_by};
ghost use Rattle.kept_world.specs.Sound.{replaced, begun, place_in, label_sets, IsSoundHead};
ghost use Rattle.kept_world.specs.Sound.{first_head, AreRising};

use crate::choice::Choice;
use crate::numbering::{Leaving, Numbering};
use crate::places::{Places, place_of, places_of};
use crate::series::Series;
use block_walk::Table;
use kept_walk::KeptSeries;
use labels::{LabelSet, Row, Sample};
use std::alloc::{AllocError, Global};
use std::marker::Model;

/// The greatest number of series.
const MAX_SERIES: usize = 1_048_576;

/// The series of a head in order of creation, and the place of each label set.
#[derive(Drop)]
pub(crate) struct Head {
    series: Vec<Series>,
    places: Places,
}

impl Model for Head {
    ghost use Rattle.std.specs.Prelude.{List};
    ghost use Rattle.kept_world.specs.States.{HeadSeries};
    ghost use Rattle.kept_world.specs.Sound.{IsPlaced, label_sets};

    ghost Value = { List HeadSeries };

    ghost view = { λ h. h.series.items };

    ghost invariant = { λ h. IsPlaced (label_sets h.series.items) h.places };
}

/// The series of a head record; `None` if the times of one do not ascend up to its newest one.
fn first_series(alloc: Global, kept: Vec<KeptSeries>) -> Result<Option<Vec<Series>>, AllocError>
    ensures { IfOk result (λ series. MatchOption series
        (AreRising kept.items → ⊥)
        (λ made. AreRising kept.items × (made.items ≡ first_head kept.items))) }
{
    let mut made = Vec::with_capacity(alloc, kept.len())?;
    for one in kept {
        match Series::first(alloc, one)? {
            Some(series) => made.push(series)?,
            None => return Ok(None),
        }
    }
    Ok(Some(made))
}

fn strike_each(series: &mut [Series], choice: &mut Choice<'_>)
    ensures struck { series.new ≡ map (struck_series (satisfies_all choice.old.matchers)
        choice.old.from choice.old.to) series.old }
    ensures same { choice.new ≡ choice.old }
{
    for one in series.iter_mut() {
        one.strike(choice);
    }
}

fn strike_all(series: &mut Vec<Series>, choice: &mut Choice<'_>)
    ensures struck { series.new.items ≡ map (struck_series (satisfies_all choice.old.matchers)
        choice.old.from choice.old.to) series.old.items }
    ensures same { choice.new ≡ choice.old }
{
    strike_each(series, choice);
}

fn raise_each(series: &mut [Series], time: &i64)
    ensures { series.new ≡ map (rest_of time.now) series.old }
{
    for one in series.iter_mut() {
        one.raise(time);
    }
}

fn keep_staying(series: &mut Vec<Series>, time: &i64)
    ensures { series.new.items ≡ filter (stays time.now) series.old.items }
{
    series.retain(|one| one.stays(time));
}

fn raise_all(series: &mut Vec<Series>, time: &i64)
    ensures { series.new.items ≡ map (rest_of time.now) (filter (stays time.now) series.old.items) }
{
    keep_staying(series, time);
    raise_each(series, time);
}

/// What leaves of series at a cut, in label order.
fn rows_below(alloc: Global, series: &[Series], time: &i64) -> Result<Leaving, AllocError>
    ensures { IfOk result (λ rows. rows ≡ rows_below time.now [] series.now) }
{
    let mut rows = Leaving::new(alloc);
    for one in series {
        rows.gather(one.labels(), one.leaving(alloc, time)?)?;
    }
    Ok(rows)
}

/// What came of series by an event.
fn came_by(alloc: Global, series: &[Series], number: usize) -> Result<Numbering, AllocError>
    requires { length series.now ≤ max_series }
    ensures { IfOk result (λ rows. rows ≡ came_by number series.now) }
{
    let mut rows = Numbering::new(alloc);
    for one in series {
        if one.born() <= number {
            rows.push(one.came_by(alloc, number)?)?;
        }
    }
    Ok(rows)
}

impl Head {
    /// The head of a head record; `None` if the times of a series do not ascend up to its newest
    /// one, if a label set stands twice, or if there are more than 1,048,576 series.
    pub(crate) fn first(alloc: Global, kept: Vec<KeptSeries>) -> Result<Option<Head>, AllocError>
        ensures { IfOk result (λ head. MatchOption head
            (IsSoundHead kept.items → ⊥)
            (λ made. IsSoundHead kept.items × (made ≡ first_head kept.items))) }
    {
        if kept.len() > MAX_SERIES {
            return Ok(None);
        }
        let Some(series) = first_series(alloc, kept)? else {
            return Ok(None);
        };
        match places_of(alloc, &series)? {
            Some(places) => Ok(Some(Head { series, places })),
            None => Ok(None),
        }
    }

    /// With one more sample of the series at a place.
    fn grow(self, place: usize, number: usize, sample: Sample) -> Result<Option<Head>, AllocError>
        requires { place < length self }
        ensures { IfOk result (λ head. (e : HeadSeries) → slice_get self place ≡ Some e
            → head ≡ replaced place (grown number sample e) self) }
    {
        let Head { mut series, places } = self;
        if !series[place].grow(number, sample)? {
            return Ok(None);
        }
        Ok(Some(Head { series, places }))
    }

    /// With one more series, which has this sample.
    fn begin(
        self,
        alloc: Global,
        number: usize,
        labels: &LabelSet,
        sample: Sample,
    ) -> Result<Option<Head>, AllocError>
        requires { place_in labels.now (label_sets self) ≡ None }
        ensures { IfOk result (λ head.
            head ≡ begun (has_room self) (new_series number (labels.now, sample)) self) }
    {
        let Head {
            mut series,
            mut places,
        } = self;
        if series.len() >= MAX_SERIES {
            return Ok(None);
        }
        places.insert(labels.try_clone()?, series.len())?;
        series.push(Series::new(alloc, number, labels.try_clone()?, sample)?)?;
        Ok(Some(Head { series, places }))
    }

    fn place_of(&self, labels: &LabelSet) -> Option<usize>
        ensures { result ≡ place_in labels.now (label_sets self.now) }
    {
        place_of(&self.places, labels)
    }

    /// With one more sample.
    fn place(
        self,
        alloc: Global,
        number: usize,
        labels: &LabelSet,
        sample: Sample,
    ) -> Result<Option<Head>, AllocError>
        ensures { IfOk result (λ head.
            head ≡ placed (has_room self) number (labels.now, sample) self) }
    {
        match self.place_of(labels) {
            Some(place) => Ok(self.grow(place, number, sample)?),
            None => Ok(self.begin(alloc, number, labels, sample)?),
        }
    }

    /// With one more sample, if it is not below the floor.
    fn add(
        self,
        alloc: Global,
        number: usize,
        floor: &i64,
        labels: &LabelSet,
        sample: Sample,
    ) -> Result<Option<Head>, AllocError>
        ensures { IfOk result (λ head.
            head ≡ added number floor.now (labels.now, sample) self) }
    {
        if sample.t() < *floor {
            return Ok(None);
        }
        Ok(self.place(alloc, number, labels, sample)?)
    }

    /// With the samples of a run.
    fn add_run(
        self,
        alloc: Global,
        number: usize,
        floor: &i64,
        run: &Row,
    ) -> Result<Option<Head>, AllocError>
        ensures { IfOk result (λ head. head
            ≡ added_each number floor.now (Some self) (entries_in run.now.0 run.now.1)) }
    {
        let labels = run.labels();
        let mut head = self;
        for sample in run.samples() {
            match head.add(alloc, number, floor, labels, *sample)? {
                Some(next) => head = next,
                None => return Ok(None),
            }
        }
        Ok(Some(head))
    }

    /// With a batch, run by run; `None` if one of its samples is refused.
    pub(crate) fn add_all(
        self,
        alloc: Global,
        number: usize,
        floor: &i64,
        runs: &[Row],
    ) -> Result<Option<Head>, AllocError>
        ensures { IfOk result (λ head.
            head ≡ added_each number floor.now (Some self) (entries_of runs.now)) }
    {
        let mut head = self;
        for run in runs {
            match head.add_run(alloc, number, floor, run)? {
                Some(next) => head = next,
                None => return Ok(None),
            }
        }
        Ok(Some(head))
    }

    /// Without the samples that a deletion takes.
    pub(crate) fn without(self, choice: &mut Choice<'_>) -> Head
        ensures struck { result ≡ map (struck_series (satisfies_all choice.old.matchers)
            choice.old.from choice.old.to) self }
        ensures same { choice.new ≡ choice.old }
    {
        let Head { mut series, places } = self;
        strike_all(&mut series, choice);
        Head { series, places }
    }

    /// What leaves at a cut, in label order.
    pub(crate) fn leaving(&self, alloc: Global, time: &i64) -> Result<Leaving, AllocError>
        ensures rows { IfOk result (λ rows. rows ≡ rows_below time.now [] self.now) }
        ensures few { IfOk result (λ rows. length rows ≤ max_series) }
    {
        Ok(rows_below(alloc, &self.series, time)?)
    }

    /// What stays at a cut. The series are numbered anew, in their order.
    pub(crate) fn staying(self, alloc: Global, time: &i64) -> Result<Head, AllocError>
        ensures { IfOk result (λ head.
            head ≡ map (rest_of time.now) (filter (stays time.now) self)) }
    {
        let Head { mut series, .. } = self;
        raise_all(&mut series, time);
        let places = places_of(alloc, &series)?.unwrap();
        Ok(Head { series, places })
    }

    /// What came by an event, as a part.
    pub(crate) fn came_by(&self, alloc: Global, number: usize) -> Result<Table, AllocError>
        ensures { IfOk result (λ part. part ≡ numbered 1 (came_by number self.now)) }
    {
        let rows = came_by(alloc, &self.series, number)?;
        Ok(rows.into_table())
    }
}
