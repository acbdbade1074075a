//! The rows that a query finds, by a walk over all samples of all parts.

ghost use Rattle.std.specs.Prelude.{◌≡◌, T, IfOk, OnOk};
ghost use Rattle.std.specs.FinMap.Entries.{is_sorted};
ghost use Rattle.labels.specs.Labels.{point_cmp};
ghost use Rattle.labels.specs.Contents.{in_range};
ghost use Rattle.labels.specs.Rows.{AreRows, points_in, points_of};
ghost use Rattle.labels.specs.Parts.{content_of, laid_over, rows_in, within};
ghost use Rattle.matchers.specs.Satisfies.{satisfies_all};
ghost use Rattle.matchers.specs.Queries.{selected_by};
ghost use Rattle.head.specs.Heads.{parts_of};
ghost use Rattle.head.specs.Shown.{part_of};
ghost use Rattle.history.specs.Asking.{part_within};
ghost use Rattle.history.specs.Pushing.{pushed};

use head::{HeadView, Snapshot};
use labels::{LabelSet, Row, Sample, SeriesRef};
use matchers::{Matcher, Query};
use std::alloc::{AllocError, Global};
use std::collections::BTreeMap;

/// A value for each of some label sets and times, in their order.
type Content = BTreeMap<(LabelSet, i64), i64>;

/// Whether a label set satisfies each of the matchers.
fn satisfies_all(alloc: Global, matchers: &[Matcher], labels: &LabelSet) -> Result<bool, AllocError>
    ensures { IfOk result (λ yes. yes ≡ satisfies_all matchers.now labels.now) }
{
    for matcher in matchers {
        let accepted = matcher.accepts(alloc, labels.value(matcher.name()))?;
        if !accepted {
            return Ok(false);
        }
    }
    Ok(true)
}

/// Whether the query's range has a time.
fn has_time(query: &Query, t: i64) -> bool
    ensures { result ≡ in_range query.now.from query.now.to t }
{
    query.from() <= t && t <= query.to()
}

/// Puts the samples of a row that lie in the range into a content, in place of those at the same
/// points.
fn lay_row(content: &mut Content, row: Row, query: &Query) -> Result<(), AllocError>
    ensures { OnOk result (content.new.entries
        ≡ laid_over (points_in row.0 (within query.now.from query.now.to row.1))
        content.old.entries) }
{
    let (labels, samples) = row.into_parts();
    let mut samples = samples;
    while let Some(sample) = samples.pop() {
        if has_time(query, sample.t()) {
            content.insert((labels.try_clone()?, sample.t()), sample.v())?;
        }
    }
    Ok(())
}

/// Puts what is asked of a part into a content, in place of the samples at the same points.
fn lay_part(
    alloc: Global,
    content: &mut Content,
    part: Vec<(SeriesRef, Row)>,
    query: &Query,
) -> Result<(), AllocError>
    ensures { OnOk result (content.new.entries
        ≡ laid_over (selected_by query.now (points_of (rows_in part.items))) content.old.entries) }
{
    let mut part = part;
    while let Some((_, row)) = part.pop() {
        let satisfied = satisfies_all(alloc, query.matchers(), row.labels())?;
        if satisfied {
            lay_row(content, row, query)?;
        }
    }
    Ok(())
}

/// The series of a head, with their samples in the range.
fn list_head(
    alloc: Global,
    head: &HeadView,
    query: &Query,
) -> Result<Vec<(SeriesRef, Row)>, AllocError>
    ensures { IfOk result (λ part. part.items ≡ part_within query.now (part_of head.now)) }
{
    let mut part = Vec::new(alloc);
    let mut number = 1;
    while let Some(labels) = head.labels_of(SeriesRef::new(number)) {
        let reference = SeriesRef::new(number);
        let samples = head.samples_of(alloc, reference, query.from(), query.to())?;
        part.push((reference, Row::new(labels.try_clone()?, samples)))?;
        number += 1;
    }
    Ok(part)
}

/// What is asked of the parts of a snapshot; where several have a sample of one label set at one
/// time, the last part's.
fn find_content(alloc: Global, snapshot: &Snapshot, query: &Query) -> Result<Content, AllocError>
    ensures { IfOk result (λ content. content.entries
        ≡ selected_by query.now (content_of (parts_of snapshot.now))) }
{
    let mut content = BTreeMap::new(alloc);
    for block in snapshot.blocks() {
        lay_part(alloc, &mut content, block.list_all(alloc)?, query)?;
    }
    lay_part(
        alloc,
        &mut content,
        list_head(alloc, snapshot.head(), query)?,
        query,
    )?;
    Ok(content)
}

/// Adds a sample to the last row, where that has its label set, or as a row.
fn push_sample(
    alloc: Global,
    rows: &mut Vec<Row>,
    labels: LabelSet,
    sample: Sample,
) -> Result<(), AllocError>
    ensures { OnOk result (rows.new.items ≡ pushed labels sample rows.old.items) }
{
    let mut samples = Vec::new(alloc);
    let Some(last) = rows.pop() else {
        samples.push(sample)?;
        rows.push(Row::new(labels, samples))?;
        return Ok(());
    };
    if *last.labels() == labels {
        samples = last.into_parts().1;
    } else {
        rows.push(last)?;
    }
    samples.push(sample)?;
    rows.push(Row::new(labels, samples))?;
    Ok(())
}

/// Adds the last sample of a content.
fn push_entry(
    alloc: Global,
    rows: &mut Vec<Row>,
    entry: ((LabelSet, i64), i64),
) -> Result<(), AllocError>
    ensures { OnOk result (rows.new.items ≡ pushed entry.0.0 (entry.0.1, entry.1) rows.old.items) }
{
    let ((labels, t), v) = entry;
    push_sample(alloc, rows, labels, Sample::new(t, v))
}

/// The rows of a content.
fn group_rows(alloc: Global, content: Content) -> Result<Vec<Row>, AllocError>
    requires { T (is_sorted point_cmp content.entries) }
    ensures { IfOk result (λ rows. AreRows rows.items content.entries) }
{
    let mut content = content;
    let mut rows = Vec::new(alloc);
    while let Some(entry) = content.pop_first() {
        push_entry(alloc, &mut rows, entry)?;
    }
    Ok(rows)
}

/// The rows that a query finds: in label order, none of them empty, their samples in time order.
///
/// It looks at every sample of every part, and is plain on purpose: it asks for no list, and leaves
/// nothing out.
pub(crate) fn rows_of(
    alloc: Global,
    snapshot: &Snapshot,
    query: &Query,
) -> Result<Vec<Row>, AllocError>
    ensures { IfOk result (λ rows.
        AreRows rows.items (selected_by query.now (content_of (parts_of snapshot.now)))) }
{
    group_rows(alloc, find_content(alloc, snapshot, query)?)
}
