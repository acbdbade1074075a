//! The search over one part: the series that its certificate calls matches, with their samples in
//! range.

ghost use Rattle.std.specs.Prelude.{◌≡◌, IfOk, option_map};
ghost use Rattle.std.specs.List.{filter_map};
ghost use Rattle.labels.specs.Parts.{IsPart, row_at, labels_in, samples_within};
ghost use Rattle.block_search.specs.Answering.{row_within, row_of_interval, IsFoundRow};
ghost use Rattle.block_search.specs.Answers.{IsPartAnswer};

use block::BlockView;
use cover::{Interval, PartAnswer, Verdict, cover};
use head::HeadView;
use labels::{LabelSet, Row, Sample, SeriesRef, sort_rows};
use matchers::Query;
use postings::{PartName, Source};
use std::alloc::{AllocError, Global};

/// A part that tells the label set and the samples of its series.
pub trait SearchedPart: Source {
    /// The label set of a series, `None` for an unknown reference.
    fn labels_of(&self, alloc: Global, reference: SeriesRef) -> Result<Option<LabelSet>, AllocError>
        ensures { IfOk result (λ labels. labels
            ≡ labels_in (row_at reference (Self.part self.now))) };

    /// The undeleted samples of a series in a closed range of times, in milliseconds; none for an
    /// unknown reference.
    fn samples_of(
        &self,
        alloc: Global,
        reference: SeriesRef,
        from: i64,
        to: i64,
    ) -> Result<Vec<Sample>, AllocError>
        ensures { IfOk result (λ samples. samples.items
            ≡ samples_within from to (row_at reference (Self.part self.now))) };
}

/// The row of a series, with its samples in the range of the query.
fn row_under<S: SearchedPart>(
    alloc: Global,
    source: &S,
    reference: SeriesRef,
    query: &Query,
) -> Result<Option<Row>, AllocError>
    ensures { IfOk result (λ row. row
        ≡ option_map (row_within query.now.from query.now.to)
        (row_at reference (S.part source.now))) }
{
    let Some(labels) = source.labels_of(alloc, reference)? else {
        return Ok(None);
    };
    let samples = source.samples_of(alloc, reference, query.from(), query.to())?;
    Ok(Some(Row::new(labels, samples)))
}

/// The row that an interval stands for.
fn matched_row<S: SearchedPart>(
    alloc: Global,
    source: &S,
    interval: &Interval,
    query: &Query,
) -> Result<Option<Row>, AllocError>
    ensures { IfOk result (λ row. row
        ≡ row_of_interval query.now.from query.now.to (S.part source.now) interval.now) }
{
    match interval.verdict {
        Verdict::Match => row_under(alloc, source, interval.from, query),
        Verdict::NoSample => Ok(None),
        Verdict::Rejected(_) => Ok(None),
    }
}

/// The same, as an iterator's `filter_map` takes it: nothing, a row, or that memory was refused.
pub(crate) fn found_row<S: SearchedPart>(
    alloc: Global,
    source: &S,
    interval: &Interval,
    query: &Query,
) -> Option<Result<Row, AllocError>>
    ensures { IsFoundRow query.now.from query.now.to (S.part source.now) interval.now result }
{
    matched_row(alloc, source, interval, query).transpose()
}

/// The rows of the series that match, in the order of their references.
fn matched_rows<S: SearchedPart>(
    alloc: Global,
    source: &S,
    certificate: &[Interval],
    query: &Query,
) -> Result<Vec<Row>, AllocError>
    ensures { IfOk result (λ rows. rows.items
        ≡ filter_map (row_of_interval query.now.from query.now.to (S.part source.now))
        certificate.now) }
{
    let mut rows = Vec::new(alloc);
    for interval in certificate {
        match matched_row(alloc, source, interval, query)? {
            Some(row) => rows.push(row)?,
            None => {}
        }
    }
    Ok(rows)
}

/// The answer of one part to a query: its selected rows, under a leftmost certificate.
///
/// It looks at no series but those that match, and costs what `cover` does and a sort of their
/// rows.
pub fn search_part<S: SearchedPart>(
    alloc: Global,
    part: PartName,
    source: &S,
    query: &Query,
) -> Result<PartAnswer, AllocError>
    ensures part { IfOk result (λ a. a.part ≡ part) }
    ensures is_part { IsPart (S.part source.now) }
    ensures answers { IfOk result (IsPartAnswer query.now (S.part source.now)) }
{
    let cover = cover(alloc, source, query)?;
    let mut rows = matched_rows(alloc, source, cover.certificate.as_slice(), query)?;
    sort_rows(&mut rows)?;
    Ok(PartAnswer { part, rows, cover })
}

impl<'a> SearchedPart for &'a HeadView {
    ghost use Rattle.head.specs.Shown.{part_of};

    fn labels_of(
        &self,
        _alloc: Global,
        reference: SeriesRef,
    ) -> Result<Option<LabelSet>, AllocError> {
        match HeadView::labels_of(*self, reference) {
            Some(labels) => Ok(Some(labels.try_clone()?)),
            None => Ok(None),
        }
    }

    fn samples_of(
        &self,
        alloc: Global,
        reference: SeriesRef,
        from: i64,
        to: i64,
    ) -> Result<Vec<Sample>, AllocError> {
        HeadView::samples_of(*self, alloc, reference, from, to)
    }
}

impl<'a> SearchedPart for BlockView<'a> {
    fn labels_of(
        &self,
        alloc: Global,
        reference: SeriesRef,
    ) -> Result<Option<LabelSet>, AllocError> {
        BlockView::labels_of(self, alloc, reference)
    }

    fn samples_of(
        &self,
        alloc: Global,
        reference: SeriesRef,
        from: i64,
        to: i64,
    ) -> Result<Vec<Sample>, AllocError> {
        BlockView::samples_of(self, alloc, reference, from, to)
    }
}
