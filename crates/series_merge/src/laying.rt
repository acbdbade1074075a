//! Samples laid over others: of two at one time the one that is laid over stands.

ghost use Rattle.std.specs.Prelude.{◌≡◌, ◌++◌, ◌+◌, ◌<◌, ◌≤◌, IfOk, OnOk, IfSome, IfNone, T, false};
ghost use Rattle.std.specs.Prelude.{List, [], ◌∷◌, length, take};
ghost use Rattle.std.specs.List.{All};
ghost use Rattle.std.specs.Bool.{OnTrue};
ghost use Rattle.std.specs.Ordering.{int_cmp};
ghost use Rattle.std.specs.FinMap.Entries.{is_sorted};
ghost use Rattle.labels.specs.Rows.{points_in, points_of};
ghost use Rattle.series_merge.specs.Merging.{AreRuns, laid_times, laid_all, oldest_first};

use crate::run::Run;
use labels::Sample;
use std::alloc::{AllocError, Global};
use std::cmp::Ordering;

fn order_of_times(a: Sample, b: Sample) -> Ordering
    ensures { result ≡ int_cmp a.0 b.0 }
{
    a.t().cmp(&b.t())
}

/// The first sample of some laid over others, and what is left of both.
fn next_laid<'a>(
    over: &'a [Sample],
    under: &'a [Sample],
) -> Option<(Sample, &'a [Sample], &'a [Sample])>
    requires over_rises { T (is_sorted int_cmp over.now) }
    requires under_rises { T (is_sorted int_cmp under.now) }
    ensures none { IfNone result (laid_times over.now under.now ≡ []) }
    ensures some { IfSome result (λ next.
        laid_times over.now under.now ≡ next.0 ∷ laid_times next.1.now next.2.now) }
    ensures over_rises { IfSome result (λ next. T (is_sorted int_cmp next.1.now)) }
    ensures under_rises { IfSome result (λ next. T (is_sorted int_cmp next.2.now)) }
    ensures shorter { IfSome result (λ next.
        length next.1.now + length next.2.now < length over.now + length under.now) }
{
    let Some((first, over_rest)) = over.split_first() else {
        let Some((second, under_rest)) = under.split_first() else {
            return None;
        };
        return Some((*second, over, under_rest));
    };
    let Some((second, under_rest)) = under.split_first() else {
        return Some((*first, over_rest, under));
    };
    match order_of_times(*first, *second) {
        Ordering::Less => Some((*first, over_rest, under)),
        Ordering::Equal => Some((*first, over_rest, under_rest)),
        Ordering::Greater => Some((*second, over, under_rest)),
    }
}

/// Whether some samples all come after others, so that they are laid over them by standing at the
/// end. So do no samples, and any come after none.
fn come_after(over: &[Sample], under: &[Sample]) -> bool
    requires over_rises { T (is_sorted int_cmp over.now) }
    requires under_rises { T (is_sorted int_cmp under.now) }
    ensures laid { OnTrue result (laid_times over.now under.now ≡ under.now ++ over.now) }
    ensures some { result ≡ false → 0 < length under.now }
{
    let Some((last, _)) = under.split_last() else {
        return true;
    };
    let Some((first, _)) = over.split_first() else {
        return true;
    };
    matches!(order_of_times(*last, *first), Ordering::Less)
}

/// Samples laid over others, one at a time.
fn lay_each(alloc: Global, over: &[Sample], under: &[Sample]) -> Result<Vec<Sample>, AllocError>
    requires over_rises { T (is_sorted int_cmp over.now) }
    requires under_rises { T (is_sorted int_cmp under.now) }
    ensures { IfOk result (λ laid. laid.items ≡ laid_times over.now under.now) }
{
    let mut laid = Vec::with_capacity(alloc, over.len().saturating_add(under.len()))?;
    let mut over = over;
    let mut under = under;
    while let Some((sample, over_rest, under_rest)) = next_laid(over, under) {
        laid.push(sample)?;
        over = over_rest;
        under = under_rest;
    }
    Ok(laid)
}

/// Samples laid over others. If they all come after the others, only they are copied.
fn lay_samples(
    alloc: Global,
    over: &[Sample],
    under: Vec<Sample>,
) -> Result<Vec<Sample>, AllocError>
    requires over_rises { T (is_sorted int_cmp over.now) }
    requires under_rises { T (is_sorted int_cmp under.items) }
    ensures laid { IfOk result (λ laid. laid.items ≡ laid_times over.now under.items) }
    ensures rises { IfOk result (λ laid. T (is_sorted int_cmp laid.items)) }
{
    if !come_after(over, under.as_slice()) {
        return lay_each(alloc, over, under.as_slice());
    }
    let mut laid = under;
    laid.extend_from_slice(over)?;
    Ok(laid)
}

/// How many samples the runs have.
fn count_samples(runs: &[Run]) -> usize {
    let mut count = 0usize;
    for run in runs {
        count = count.saturating_add(run.samples().len());
    }
    count
}

/// The samples of the runs, those of the last run first, if each run comes after all those behind
/// it in the list; `None` if the times of some meet.
fn append_runs(alloc: Global, runs: &[Run]) -> Result<Option<Vec<Sample>>, AllocError>
    requires { All (λ r. T (is_sorted int_cmp r.1)) runs.now }
    ensures laid { IfOk result (λ laid. IfSome laid (λ ss. ss.items ≡ laid_all runs.now)) }
    ensures several { IfOk result (λ laid. IfNone laid (1 < length runs.now)) }
{
    let mut laid = Vec::with_capacity(alloc, count_samples(runs))?;
    let mut left = runs.len();
    while left > 0 {
        left -= 1;
        let samples = runs[left].samples();
        if !come_after(samples, laid.as_slice()) {
            return Ok(None);
        }
        laid.extend_from_slice(samples)?;
    }
    Ok(Some(laid))
}

/// The samples of runs laid over each other: of those at one time the first run's stands.
///
/// If the times of some meet, two halves are made and laid over each other, so that a sample is
/// copied once for each time that the runs can be halved until no times meet.
fn lay_runs(alloc: Global, runs: &[Run]) -> Result<Vec<Sample>, AllocError>
    requires { All (λ r. T (is_sorted int_cmp r.1)) runs.now }
    ensures { IfOk result (λ laid. laid.items ≡ laid_all runs.now) }
{
    if let Some(laid) = append_runs(alloc, runs)? {
        return Ok(laid);
    }
    let (newer, older) = runs.split_at(runs.len() / 2);
    let over = lay_runs(alloc, newer)?;
    let under = lay_runs(alloc, older)?;
    lay_samples(alloc, over.as_slice(), under)
}

/// How many samples come first whose times ascend.
fn ascending_count(samples: &[Sample]) -> usize
    requires { 0 < length samples.now }
    ensures some { 0 < result }
    ensures within { result ≤ length samples.now }
    ensures rises { T (is_sorted int_cmp (take result samples.now)) }
{
    let mut at = 1;
    while at < samples.len() {
        match order_of_times(samples[at - 1], samples[at]) {
            Ordering::Less => at += 1,
            _ => return at,
        }
    }
    at
}

/// Adds a row at the end, as a run for each stretch of ascending times: one if all of its times
/// ascend, and none if it has no samples.
fn push_runs<'a>(all: &mut Vec<Run<'a>>, row: &Run<'a>) -> Result<(), AllocError>
    requires { AreRuns all.old.items }
    ensures points { OnOk result (points_of all.new.items
        ≡ points_of all.old.items ++ points_in row.now.0 row.now.1) }
    ensures runs { OnOk result (AreRuns all.new.items) }
{
    let mut rest = row.samples();
    while !rest.is_empty() {
        let (run, after) = rest.split_at(ascending_count(rest));
        all.push(Run::new(row.labels(), run))?;
        rest = after;
    }
    Ok(())
}

/// The rows as runs of ascending times.
fn cut_runs<'a>(alloc: Global, rows: &[Run<'a>]) -> Result<Vec<Run<'a>>, AllocError>
    ensures points { IfOk result (λ runs. points_of runs.items ≡ points_of rows.now) }
    ensures runs { IfOk result (λ runs. AreRuns runs.items) }
{
    let mut all = Vec::new(alloc);
    for row in rows {
        push_runs(&mut all, row)?;
    }
    Ok(all)
}

/// The samples of the rows one after the other, those of the last row first.
fn append_rows(alloc: Global, rows: &[Run]) -> Result<Vec<Sample>, AllocError>
    ensures { IfOk result (λ all. all.items ≡ oldest_first rows.now) }
{
    let mut all = Vec::with_capacity(alloc, count_samples(rows))?;
    let mut left = rows.len();
    while left > 0 {
        left -= 1;
        all.extend_from_slice(rows[left].samples())?;
    }
    Ok(all)
}

/// Whether the times ascend.
fn ascends(samples: &[Sample]) -> bool
    ensures { OnTrue result (T (is_sorted int_cmp samples.now)) }
{
    samples.is_empty() || ascending_count(samples) == samples.len()
}

/// The samples of rows of one label set, laid over each other: of those at one time the first row's
/// stands, and of several in it the first.
///
/// If the times ascend from the last row to the first, each sample is copied once and looked at
/// once.
pub(crate) fn lay_rows(alloc: Global, rows: &[Run]) -> Result<Vec<Sample>, AllocError>
    ensures { IfOk result (λ laid. laid.items ≡ laid_all rows.now) }
{
    let all = append_rows(alloc, rows)?;
    if ascends(all.as_slice()) {
        return Ok(all);
    }
    let runs = cut_runs(alloc, rows)?;
    lay_runs(alloc, runs.as_slice())
}
