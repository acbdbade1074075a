//! The head of a snapshot.

ghost use Rattle.std.specs.Prelude.{◌≡◌, ◌<◌, ◌≤◌, length, Some, None, IfOk, IfSome, IfNone};
ghost use Rattle.std.specs.Prelude.{MatchOption};
ghost use Rattle.labels.specs.Parts.{IsPart, row_at, labels_in, samples_within};
ghost use Rattle.head.specs.declared.TheConstants.{MAX_SERIES};
ghost use Rattle.head.specs.Heads.{head_part};
ghost use Rattle.head.specs.Index.{IsIndexOf};
ghost use Rattle.head.specs.Orders.{sets_of, Extends, IsOrderOf};
ghost use Rattle.labels.proofs.PartProps.{IsPart-prop};

use crate::MAX_SERIES;
use crate::index::Index;
use crate::order::Order;
use crate::saved::SavedSeries;
use crate::series::{Series, SeriesList};
use labels::{LabelSet, Row, Sample, SeriesRef};
use pages::PagedList;
use std::alloc::{AllocError, Global};

/// The newest samples of a store, as a part: its series have the references 1 to n in order of
/// creation.
#[derive(Drop)]
pub struct HeadView {
    pub(crate) series: SeriesList,
    order: Order,
    pub(crate) index: Index,
    copied: u64,
    ghost few: { length series ≤ MAX_SERIES },
    ghost is_part: { IsPart (head_part series) } by { IsPart-prop (head_part series) },
    ghost ordered: { IsOrderOf order series },
    ghost indexed: { IsIndexOf index (head_part series) },
}

impl HeadView {
    ghost use Rattle.std.specs.Prelude.{[]};
    ghost use Rattle.head.specs.Shown.{series_of, part_of, copied_of, sample_count_at};
    ghost use Rattle.head.specs.Heads.{HeadSeries};
    ghost use Rattle.head.specs.HeadRows.{numbered_row};
    ghost use Rattle.std.specs.Prelude.{◌+◌, slice_index_or};

    pub(crate) fn empty(alloc: Global) -> Result<HeadView, AllocError>
        ensures series { IfOk result (λ head. series_of head ≡ []) }
        ensures copied { IfOk result (λ head. copied_of head ≡ 0) }
    {
        let index = Index::new(alloc)?;
        Ok(HeadView {
            series: PagedList::new(alloc)?,
            order: Order::new(alloc)?,
            index,
            copied: 0,
        })
    }

    /// The version that these series make.
    pub(crate) fn of(series: SeriesList, order: Order, index: Index, copied: u64) -> HeadView
        requires few { length series ≤ MAX_SERIES }
        requires ordered { IsOrderOf order series }
        requires indexed { IsIndexOf index (head_part series) }
        requires is_part { IsPart (head_part series) }
        ensures series { series_of result ≡ series }
        ensures copied { copied_of result ≡ copied }
    {
        HeadView {
            series,
            order,
            index,
            copied,
        }
    }

    /// The index of these series, of which the first are the head's.
    pub(crate) fn index_of(&self, alloc: Global, series: &SeriesList) -> Result<Index, AllocError>
        requires few { length series.now ≤ MAX_SERIES }
        requires extended { Extends (sets_of (series_of self.now)) (sets_of series.now) }
        ensures { IfOk result (λ index. IsIndexOf index (head_part series.now)) }
    {
        let mut index = self.index.try_clone()?;
        for place in self.series.len()..series.len() {
            let reference = SeriesRef::new(place as u32 + 1);
            index.add(alloc, series.at(place).labels(), reference)?;
        }
        Ok(index)
    }

    /// The same series, in a version that copied no sample.
    pub(crate) fn again(&self) -> Result<HeadView, AllocError>
        ensures series { IfOk result (λ head. series_of head ≡ series_of self.now) }
        ensures copied { IfOk result (λ head. copied_of head ≡ 0) }
    {
        let series = self.series.try_clone()?;
        let order = self.order.try_clone()?;
        let index = self.index.try_clone()?;
        Ok(HeadView {
            series,
            order,
            index,
            copied: 0,
        })
    }

    pub(crate) fn series(&self) -> &SeriesList
        ensures { result.now ≡ series_of self.now }
    {
        &self.series
    }

    pub(crate) fn order(&self) -> &Order
        ensures { IsOrderOf result.now (series_of self.now) }
    {
        &self.order
    }

    /// How many series there are.
    pub fn series_count(&self) -> usize
        ensures { result ≡ length (series_of self.now) }
    {
        self.series.len()
    }

    /// How many old samples the event that made this version copied.
    pub fn copied(&self) -> u64
        ensures { result ≡ copied_of self.now }
    {
        self.copied
    }

    fn series_at(&self, reference: SeriesRef) -> Option<&Series>
        ensures none { IfNone result (row_at reference (part_of self.now) ≡ None) }
        ensures some { IfSome result (λ series. row_at reference (part_of self.now)
            ≡ Some (series.now.labels, series.now.samples)) }
    {
        let number = reference.number() as usize;
        if number == 0 || number > self.series.len() {
            return None;
        }
        let series = self.series.at(number - 1);
        Some(series)
    }

    /// The label set of the series with this reference.
    pub fn labels_of(&self, reference: SeriesRef) -> Option<&LabelSet>
        ensures none { IfNone result (row_at reference (part_of self.now) ≡ None) }
        ensures some { IfSome result (λ labels. labels_in (row_at reference (part_of self.now))
            ≡ Some labels.now) }
    {
        match self.series_at(reference) {
            Some(series) => Some(series.labels()),
            None => None,
        }
    }

    /// The samples from the first time to the second, both included; none for an unknown reference.
    pub fn samples_of(
        &self,
        alloc: Global,
        reference: SeriesRef,
        from: i64,
        to: i64,
    ) -> Result<Vec<Sample>, AllocError>
        ensures { IfOk result (λ samples. samples.items
            ≡ samples_within from to (row_at reference (part_of self.now))) }
    {
        match self.series_at(reference) {
            Some(series) => series.samples_within(alloc, from, to),
            None => Ok(Vec::new(alloc)),
        }
    }

    /// How many samples the series with this reference has; 0 for an unknown reference. None is
    /// decoded.
    pub fn sample_count_of(&self, reference: SeriesRef) -> usize
        ensures { result ≡ sample_count_at (row_at reference (part_of self.now)) }
    {
        match self.series_at(reference) {
            Some(series) => series.sample_count(),
            None => 0,
        }
    }

    fn row_at(&self, alloc: Global, place: usize) -> Result<(SeriesRef, Row), AllocError>
        requires { place < length (series_of self.now) }
        ensures { IfOk result (λ row. (d : HeadSeries)
            → row ≡ numbered_row (place + 1) (slice_index_or (series_of self.now) place d)) }
    {
        let series = self.series.at(place);
        let row = Row::new(series.labels().try_clone()?, series.samples(alloc)?);
        Ok((SeriesRef::new(place as u32 + 1), row))
    }

    /// Each series of the head, ascending by reference, with its label set and its samples; also a
    /// series without a sample. It takes memory in proportion to the series and the samples; the
    /// texts of the label sets are shared.
    pub fn list_all(&self, alloc: Global) -> Result<Vec<(SeriesRef, Row)>, AllocError>
        ensures { IfOk result (λ rows. rows.items ≡ part_of self.now) }
    {
        let mut rows = Vec::with_capacity(alloc, self.series.len())?;
        for place in 0..self.series.len() {
            rows.push(self.row_at(alloc, place)?)?;
        }
        Ok(rows)
    }

    /// What is saved of each series, in order of creation; also of a series without a sample. It
    /// copies the samples; the texts of the label sets are shared.
    pub fn saved(&self, alloc: Global) -> Result<Vec<SavedSeries>, AllocError>
        ensures all { IfOk result (λ all. all.items ≡ series_of self.now) }
        ensures few { IfOk result (λ all. length all.items ≤ MAX_SERIES) }
    {
        let mut all = Vec::with_capacity(alloc, self.series.len())?;
        for place in 0..self.series.len() {
            all.push(self.series.at(place).saved(alloc)?)?;
        }
        Ok(all)
    }
}
