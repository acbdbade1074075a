//! What the blocks have of a label set at a time.

ghost use Rattle.std.specs.Prelude.{◌≡◌, ◌≢◌, ◌<◌, Some, IfOk, MatchBool, length};
ghost use Rattle.labels.specs.LabelSets.{IsLabelSet};
ghost use Rattle.labels.specs.Parts.{labels_in, row_at};
ghost use Rattle.block.specs.Views.{part_of};
ghost use Rattle.head.specs.Looking.{first_value, part_value, blocks_value, IsCandidates};
ghost use Rattle.head.specs.Looking.{IsReferenceOf};

use crate::selection::{collect_references, common};
use block::{Block, BlockView};
use labels::{LabelSet, Sample, SeriesRef};
use postings::Source;
use std::alloc::{AllocError, Global};

/// The value of the first of some samples.
pub(crate) fn first_value(samples: &[Sample]) -> Option<i64>
    ensures { result ≡ first_value samples.now }
{
    match samples.first() {
        Some(sample) => Some(sample.v()),
        None => None,
    }
}

/// The references of the series that carry the pair of a label set at a place.
fn carrying<S: Source>(
    alloc: Global,
    source: &S,
    labels: &LabelSet,
    place: usize,
) -> Result<Vec<SeriesRef>, AllocError>
    requires inside { place < length labels.now }
    requires set { IsLabelSet labels.now }
    ensures { IfOk result (λ found. IsCandidates labels.now (S.part source.now) found.items) }
{
    let (name, value) = labels.pair(place);
    match source.list(name, value) {
        Some(list) => collect_references(alloc, list),
        None => Ok(Vec::new(alloc)),
    }
}

/// Those of some candidates that carry the pair of a label set at a place, too.
fn carrying_too<S: Source>(
    alloc: Global,
    source: &S,
    labels: &LabelSet,
    place: usize,
    found: &[SeriesRef],
) -> Result<Vec<SeriesRef>, AllocError>
    requires inside { place < length labels.now }
    requires set { IsLabelSet labels.now }
    requires found { IsCandidates labels.now (S.part source.now) found.now }
    ensures { IfOk result (λ found. IsCandidates labels.now (S.part source.now) found.items) }
{
    let (name, value) = labels.pair(place);
    match source.list(name, value) {
        Some(list) => common(alloc, found, list),
        None => Ok(Vec::new(alloc)),
    }
}

/// The references of the series that carry all pairs of a label set, and perhaps more. The list of
/// the first pair is copied, and what is left of it is sought in the others.
fn candidates<S: Source>(
    alloc: Global,
    source: &S,
    labels: &LabelSet,
) -> Result<Vec<SeriesRef>, AllocError>
    ensures { IfOk result (λ found. IsCandidates labels.now (S.part source.now) found.items) }
{
    let pairs = labels.len();
    if pairs == 0 {
        return collect_references(alloc, source.all());
    }
    let mut found = carrying(alloc, source, labels, 0)?;
    for place in 1..pairs {
        found = carrying_too(alloc, source, labels, place, found.as_slice())?;
    }
    Ok(found)
}

/// Whether the series with a reference has a label set.
fn has_labels(
    alloc: Global,
    view: &BlockView<'_>,
    reference: SeriesRef,
    labels: &LabelSet,
) -> Result<bool, AllocError>
    ensures { IfOk result (λ has. MatchBool has
        (labels_in (row_at reference (part_of view.now)) ≡ Some labels.now)
        (labels_in (row_at reference (part_of view.now)) ≢ Some labels.now)) }
{
    match view.labels_of(alloc, reference)? {
        Some(found) => Ok(found == *labels),
        None => Ok(false),
    }
}

/// The reference of the series with a label set.
fn reference_of(
    alloc: Global,
    block: &Block,
    labels: &LabelSet,
) -> Result<Option<SeriesRef>, AllocError>
    ensures { IfOk result (λ found. IsReferenceOf labels.now block.now.part found) }
{
    let view = block.view();
    let found = candidates(alloc, &view, labels)?;
    for reference in &found {
        if has_labels(alloc, &view, *reference, labels)? {
            return Ok(Some(*reference));
        }
    }
    Ok(None)
}

/// The value of the undeleted sample of a label set at a time in a block. Nothing is read of a
/// block whose range does not cover the time.
fn value_in(
    alloc: Global,
    block: &Block,
    labels: &LabelSet,
    t: i64,
) -> Result<Option<i64>, AllocError>
    ensures { IfOk result (λ value. value ≡ part_value (labels.now, t) block.now.part) }
{
    if !block.range().covers(t) {
        return Ok(None);
    }
    match reference_of(alloc, block, labels)? {
        Some(reference) => {
            let samples = block.view().samples_of(alloc, reference, t, t)?;
            Ok(first_value(samples.as_slice()))
        }
        None => Ok(None),
    }
}

/// The value of the sample of a label set at a time that the last of the blocks has that have one.
pub(crate) fn value_below(
    alloc: Global,
    blocks: &[Block],
    labels: &LabelSet,
    t: i64,
) -> Result<Option<i64>, AllocError>
    ensures { IfOk result (λ value. value ≡ blocks_value (labels.now, t) blocks.now) }
{
    let mut left = blocks.len();
    while left > 0 {
        left -= 1;
        let value = value_in(alloc, &blocks[left], labels, t)?;
        if value.is_some() {
            return Ok(value);
        }
    }
    Ok(None)
}
