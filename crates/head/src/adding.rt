//! The samples that a batch adds to a draft, up to the first refused one.

ghost use Rattle.std.specs.Prelude.{◌≡◌, ◌<◌, ◌≤◌, ◌+◌, ◌*◌, Bool, T, Ok, Some, OnOk, IfOk, length};
ghost use Rattle.std.specs.List.{list_all};
ghost use Rattle.labels.specs.Labels.{Labels};
ghost use Rattle.head.specs.BatchRows.{pairs_with, batch_of_rows, batch_in};
ghost use Rattle.head.specs.Taking.{head_added, head_added_each, place_from};
ghost use Rattle.head.specs.Orders.{sets_of, IsOrderOf};
ghost use Rattle.head.specs.Outcomes.{IsOutcome};
ghost use Rattle.head.specs.Slots.{series_in_each, owned, AllOwn, AddsNoOwnBut};

use crate::draft::{Draft, Samples};
use crate::error::CommitError;
use crate::joining::{Near, join, place_of};
use crate::judge::Met;
use crate::order::Order;
use labels::{LabelSet, Row, Sample};
use std::alloc::{AllocError, Global};

/// Adds a sample, which has the number `at` in its batch, to the series at a place. Gives how many
/// samples were copied.
fn add_at(
    alloc: Global,
    draft: &mut Draft,
    place: usize,
    floor: i64,
    at: usize,
    sample: Sample,
) -> Result<u64, CommitError>
    requires { place < length draft.old }
    ensures step { (l : Labels) → place_from l 0 (series_in_each draft.old) ≡ Some place
        → IsOutcome result (head_added floor (series_in_each draft.old) at (l, sample))
        (series_in_each draft.new) }
    ensures few { IfOk result (λ copied. copied < 120) }
    ensures labels { OnOk result (sets_of (series_in_each draft.new)
        ≡ sets_of (series_in_each draft.old)) }
    ensures counted { IfOk result
        (λ copied. copied + 119 * owned draft.old ≤ 119 * owned draft.new) }
    ensures owners { OnOk result ((l : Labels)
        → place_from l 0 (series_in_each draft.old) ≡ Some place
        → AddsNoOwnBut l draft.old draft.new) }
{
    match draft.meet(Some(place), floor, sample) {
        Met::Joins => match draft.grow(alloc, place, sample) {
            Ok(copied) => Ok(copied),
            Err(AllocError) => Err(CommitError::Memory),
        },
        Met::Held => Ok(0),
        Met::Refused(reason) => Err(reason.refusal(at)),
    }
}

/// Adds the sample that has the number `at` in its batch. Gives how many samples were copied. It
/// looks for the label set near where the last one was found, and leaves there where it is.
fn add(
    alloc: Global,
    draft: &mut Draft,
    order: &mut Order,
    near: &mut Near,
    floor: i64,
    at: usize,
    labels: &LabelSet,
    sample: Sample,
) -> Result<u64, CommitError>
    requires { IsOrderOf order.old (series_in_each draft.old) }
    ensures step { IsOutcome result
        (head_added floor (series_in_each draft.old) at (labels.now, sample))
        (series_in_each draft.new) }
    ensures few { IfOk result (λ copied. copied < 120) }
    ensures placed { OnOk result
        (place_from labels.now 0 (series_in_each draft.new) ≡ Some near.new.place) }
    ensures ordered { OnOk result (IsOrderOf order.new (series_in_each draft.new)) }
    ensures counted { IfOk result
        (λ copied. copied + 119 * owned draft.old ≤ 119 * owned draft.new) }
    ensures owners { OnOk result (AddsNoOwnBut labels.now draft.old draft.new) }
{
    let place = place_of(draft, order, labels, near);
    match draft.meet(place, floor, sample) {
        Met::Joins => match join(alloc, draft, order, place, labels, sample) {
            Ok((place, copied)) => {
                near.place = place;
                Ok(copied)
            }
            Err(AllocError) => Err(CommitError::Memory),
        },
        Met::Held => Ok(0),
        Met::Refused(reason) => Err(reason.refusal(at)),
    }
}

/// Adds the samples of the series at a place, up to the first refused one; the first has the number
/// `at` in its batch. Gives how many samples were copied.
fn add_each_at(
    alloc: Global,
    draft: &mut Draft,
    place: usize,
    floor: i64,
    at: usize,
    samples: &[Sample],
) -> Result<u64, CommitError>
    requires inside { place < length draft.old }
    requires few { at + length samples.now ≤ 4096 }
    ensures step { (l : Labels) → place_from l 0 (series_in_each draft.old) ≡ Some place
        → IsOutcome result
        (head_added_each floor (Ok (series_in_each draft.old)) at (pairs_with l samples.now))
        (series_in_each draft.new) }
    ensures few { IfOk result (λ copied. copied ≤ 119 * length samples.now) }
    ensures labels { OnOk result (sets_of (series_in_each draft.new)
        ≡ sets_of (series_in_each draft.old)) }
    ensures counted { IfOk result
        (λ copied. copied + 119 * owned draft.old ≤ 119 * owned draft.new) }
    ensures owners { OnOk result ((l : Labels)
        → place_from l 0 (series_in_each draft.old) ≡ Some place
        → AddsNoOwnBut l draft.old draft.new) }
{
    let mut copied = 0;
    let mut i = 0;
    while i < samples.len() {
        match add_at(alloc, draft, place, floor, at + i, samples[i]) {
            Ok(more) => copied += more,
            Err(refusal) => return Err(refusal),
        }
        i += 1;
    }
    Ok(copied)
}

/// Adds samples as [`add_each_at`] does. It looks once for a series that is this version's own.
fn add_rest_at(
    alloc: Global,
    draft: &mut Draft,
    place: usize,
    floor: i64,
    at: usize,
    samples: &[Sample],
) -> Result<u64, CommitError>
    requires inside { place < length draft.old }
    requires few { at + length samples.now ≤ 4096 }
    ensures step { (l : Labels) → place_from l 0 (series_in_each draft.old) ≡ Some place
        → IsOutcome result
        (head_added_each floor (Ok (series_in_each draft.old)) at (pairs_with l samples.now))
        (series_in_each draft.new) }
    ensures few { IfOk result (λ copied. copied ≤ 119 * length samples.now) }
    ensures labels { OnOk result (sets_of (series_in_each draft.new)
        ≡ sets_of (series_in_each draft.old)) }
    ensures counted { IfOk result
        (λ copied. copied + 119 * owned draft.old ≤ 119 * owned draft.new) }
    ensures owners { OnOk result ((l : Labels)
        → place_from l 0 (series_in_each draft.old) ≡ Some place
        → AddsNoOwnBut l draft.old draft.new) }
{
    let Some(added) = draft.add_own(alloc, place, floor, at, samples) else {
        return add_each_at(alloc, draft, place, floor, at, samples);
    };
    match added {
        Ok(()) => Ok(0),
        Err(refusal) => Err(refusal),
    }
}

/// Adds the samples of a row, up to the first refused one; the first has the number `at` in its
/// batch. Gives how many samples were copied. It looks once for the label set.
fn add_row(
    alloc: Global,
    draft: &mut Draft,
    order: &mut Order,
    near: &mut Near,
    floor: i64,
    at: usize,
    row: &Row,
) -> Result<u64, CommitError>
    requires ordered { IsOrderOf order.old (series_in_each draft.old) }
    requires few { at + length row.now.1 ≤ 4096 }
    ensures step { IsOutcome result
        (head_added_each floor (Ok (series_in_each draft.old)) at (pairs_with row.now.0 row.now.1))
        (series_in_each draft.new) }
    ensures few { IfOk result (λ copied. copied ≤ 119 * length row.now.1) }
    ensures ordered { OnOk result (IsOrderOf order.new (series_in_each draft.new)) }
    ensures counted { IfOk result
        (λ copied. copied + 119 * owned draft.old ≤ 119 * owned draft.new) }
    ensures owners { OnOk result ((p : Labels → Bool)
        → T (list_all (λ x. p x.0) (pairs_with row.now.0 row.now.1))
        → AllOwn p draft.old → AllOwn p draft.new) }
{
    let Some((first, rest)) = row.samples().split_first() else {
        return Ok(0);
    };
    let copied = match add(alloc, draft, order, near, floor, at, row.labels(), *first) {
        Ok(copied) => copied,
        Err(refusal) => return Err(refusal),
    };
    match add_rest_at(alloc, draft, near.place, floor, at + 1, rest) {
        Ok(more) => Ok(copied + more),
        Err(refusal) => Err(refusal),
    }
}

/// Adds the samples of rows, up to the first refused one. Gives how many samples were copied.
fn add_rows(
    alloc: Global,
    draft: &mut Draft,
    order: &mut Order,
    floor: i64,
    rows: &[Row],
) -> Result<u64, CommitError>
    requires ordered { IsOrderOf order.old (series_in_each draft.old) }
    requires few { length (batch_of_rows rows.now) ≤ 4096 }
    ensures step { IsOutcome result
        (head_added_each floor (Ok (series_in_each draft.old)) 0 (batch_of_rows rows.now))
        (series_in_each draft.new) }
    ensures ordered { OnOk result (IsOrderOf order.new (series_in_each draft.new)) }
    ensures counted { IfOk result
        (λ copied. copied + 119 * owned draft.old ≤ 119 * owned draft.new) }
    ensures owners { OnOk result ((p : Labels → Bool)
        → T (list_all (λ x. p x.0) (batch_of_rows rows.now))
        → AllOwn p draft.old → AllOwn p draft.new) }
{
    let mut copied = 0;
    let mut near = Near::start();
    let mut at = 0;
    for row in rows {
        match add_row(alloc, draft, order, &mut near, floor, at, row) {
            Ok(more) => copied += more,
            Err(refusal) => return Err(refusal),
        }
        at += row.samples().len();
    }
    Ok(copied)
}

/// Adds the samples of pairs, up to the first refused one. Gives how many samples were copied.
fn add_pairs(
    alloc: Global,
    draft: &mut Draft,
    order: &mut Order,
    floor: i64,
    batch: &[(LabelSet, Sample)],
) -> Result<u64, CommitError>
    requires ordered { IsOrderOf order.old (series_in_each draft.old) }
    requires few { length batch.now ≤ 4096 }
    ensures step { IsOutcome result
        (head_added_each floor (Ok (series_in_each draft.old)) 0 batch.now)
        (series_in_each draft.new) }
    ensures ordered { OnOk result (IsOrderOf order.new (series_in_each draft.new)) }
    ensures counted { IfOk result
        (λ copied. copied + 119 * owned draft.old ≤ 119 * owned draft.new) }
    ensures owners { OnOk result ((p : Labels → Bool)
        → T (list_all (λ x. p x.0) batch.now) → AllOwn p draft.old → AllOwn p draft.new) }
{
    let mut copied = 0;
    let mut near = Near::start();
    let mut i = 0;
    while i < batch.len() {
        let item = &batch[i];
        match add(alloc, draft, order, &mut near, floor, i, &item.0, item.1) {
            Ok(more) => copied += more,
            Err(refusal) => return Err(refusal),
        }
        i += 1;
    }
    Ok(copied)
}

/// Adds the samples of a batch, up to the first refused one. Gives how many samples were copied.
pub(crate) fn add_each(
    alloc: Global,
    draft: &mut Draft,
    order: &mut Order,
    floor: i64,
    batch: Samples<'_>,
) -> Result<u64, CommitError>
    requires ordered { IsOrderOf order.old (series_in_each draft.old) }
    requires few { length (batch_in batch) ≤ 4096 }
    ensures step { IsOutcome result
        (head_added_each floor (Ok (series_in_each draft.old)) 0 (batch_in batch.entry))
        (series_in_each draft.new) }
    ensures ordered { OnOk result (IsOrderOf order.new (series_in_each draft.new)) }
    ensures counted { IfOk result
        (λ copied. copied + 119 * owned draft.old ≤ 119 * owned draft.new) }
    ensures owners { OnOk result ((p : Labels → Bool)
        → T (list_all (λ x. p x.0) (batch_in batch.entry))
        → AllOwn p draft.old → AllOwn p draft.new) }
{
    match batch {
        Samples::Pairs(pairs) => add_pairs(alloc, draft, order, floor, pairs),
        Samples::Rows(rows) => add_rows(alloc, draft, order, floor, rows),
    }
}
