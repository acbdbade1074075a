//! Whether rows are those of all that several answers list.

ghost use Rattle.std.specs.Prelude.{◌≡◌, ◌↔◌, ◌++◌, ◌&&◌, not, IsTrue, IfOk, OnOk, IfErr, reverse};
ghost use Rattle.std.specs.Prelude.{length, ◌==◌};
ghost use Rattle.std.specs.List.{dedup, list_all};
ghost use Rattle.std.specs.List.Sorted.{IsPermutation, IsSortedBy, IsStableBy};
ghost use Rattle.std.specs.FinMap.Entries.{is_sorted};
ghost use Rattle.std.specs.Ordering.{is_lt};
ghost use Rattle.labels.specs.Labels.{labels_cmp, point_cmp};
ghost use Rattle.labels.specs.Rows.{points_in, points_of, AreRows};
ghost use Rattle.auditor.specs.Listing.{listed, last_listed, point_before, same_point, IsUnmerged};

use crate::alone::are_alone;
use crate::flaw::Flaw;
use crate::rows::{same_labels, same_sample};
use cover::PartAnswer;
use labels::{LabelSet, Row, Sample};
use std::alloc::{AllocError, Global};
use std::cmp::Ordering;
use std::marker::Model;

/// A sample that a row lists, seen as a value of a label set at a time.
#[derive(Drop)]
struct Listed {
    labels: LabelSet,
    sample: Sample,
}

impl Model for Listed {
    ghost use Rattle.std.specs.Prelude.{ℤ};
    ghost use Rattle.labels.specs.Labels.{Point};

    ghost Value = { Point × ℤ };

    ghost view = { λ l. ((l.labels, l.sample.0), l.sample.1) };
}

impl Listed {
    fn order(&self, other: &Listed) -> Ordering
        ensures { result ≡ point_cmp self.now.0 other.now.0 }
    {
        match self.labels.cmp(&other.labels) {
            Ordering::Equal => self.sample.t().cmp(&other.sample.t()),
            order => order,
        }
    }

    fn is_at_point_of(&self, other: &Listed) -> bool
        ensures { result ≡ same_point self.now other.now }
    {
        self.order(other).is_eq()
    }

    fn same_as(&self, other: &Listed) -> bool
        ensures { IsTrue result ↔ (self.now ≡ other.now) }
    {
        same_labels(&self.labels, &other.labels) && same_sample(self.sample, other.sample)
    }
}

fn list_row(alloc: Global, all: &mut Vec<Listed>, row: &Row) -> Result<(), AllocError>
    ensures { OnOk result (all.new.items ≡ all.old.items ++ points_in row.now.0 row.now.1) }
{
    let samples = row.samples();
    for sample in samples {
        let labels = row.labels().try_clone()?;
        all.push(Listed {
            labels,
            sample: *sample,
        })?;
    }
    Ok(())
}

fn list_rows(alloc: Global, all: &mut Vec<Listed>, rows: &[Row]) -> Result<(), AllocError>
    ensures { OnOk result (all.new.items ≡ all.old.items ++ points_of rows.now) }
{
    for row in rows {
        list_row(alloc, all, row)?;
    }
    Ok(())
}

/// What the answers list, in the order in which it is listed.
fn list_answers(alloc: Global, answers: &[PartAnswer]) -> Result<Vec<Listed>, AllocError>
    ensures { IfOk result (λ all. all.items ≡ listed answers.now) }
{
    let mut all = Vec::new(alloc);
    for answer in answers {
        list_rows(alloc, &mut all, answer.rows.as_slice())?;
    }
    Ok(all)
}

fn sort_listed(all: &mut Vec<Listed>) -> Result<(), AllocError>
    ensures sorted { OnOk result (IsSortedBy point_before all.new.items) }
    ensures stable { IsStableBy point_before all.old.items all.new.items }
{
    all.sort_by(
        |a: &Listed, b: &Listed| -> Ordering
            ensures { result ≡ point_cmp a.now.0 b.now.0 }
        { a.order(b) },
    )
}

/// Keeps the first of the samples that stand side by side at one point.
fn keep_first(all: &mut Vec<Listed>)
    ensures { all.new.items ≡ dedup same_point all.old.items }
{
    all.dedup_by(|later, first| later.is_at_point_of(first));
}

/// What the answers list, the value listed last at each point, in the order of points.
fn last_listed(alloc: Global, answers: &[PartAnswer]) -> Result<Vec<Listed>, AllocError>
    ensures { IfOk result (λ all. all.items ≡ last_listed answers.now) }
{
    let mut all = list_answers(alloc, answers)?;
    all.reverse();
    sort_listed(&mut all)?;
    keep_first(&mut all);
    Ok(all)
}

fn is_before(a: &Row, b: &Row) -> bool
    ensures { result ≡ is_lt (labels_cmp a.now.0 b.now.0) }
{
    a.labels().cmp(b.labels()).is_lt()
}

/// Whether rows are strictly in label order.
fn are_in_order(rows: &[Row]) -> bool
    ensures { result ≡ is_sorted labels_cmp rows.now }
{
    for i in 1..rows.len() {
        if !is_before(&rows[i - 1], &rows[i]) {
            return false;
        }
    }
    true
}

fn is_full(row: &Row) -> bool
    ensures { result ≡ not (length row.now.1 == 0) }
{
    !row.samples().is_empty()
}

fn are_full(rows: &[Row]) -> bool
    ensures { result ≡ list_all (λ row. not (length row.1 == 0)) rows.now }
{
    rows.iter().all(is_full)
}

fn same_listed(a: &[Listed], b: &[Listed]) -> bool
    ensures { IsTrue result ↔ (a.now ≡ b.now) }
{
    if a.len() != b.len() {
        return false;
    }
    for (at, sample) in a.iter().enumerate() {
        if !sample.same_as(&b[at]) {
            return false;
        }
    }
    true
}

/// Whether rows are those of all that several answers list: `Ok` exactly where they are the rows of
/// the content that maps each listed label set and time to the value listed last, else `F10`.
/// Nothing is asked of the answers' rows. Where one answer alone has rows, it compares those, and
/// takes no memory. Else, or where they differ, it sorts what is listed, and takes memory for a
/// list of it and for one of the rows' samples.
pub fn audit_merge(alloc: Global, answers: &[PartAnswer], rows: &[Row]) -> Result<(), Flaw>
    ensures merged { OnOk result (AreRows rows.now (last_listed answers.now)) }
    ensures unmerged { IfErr result (λ e. IsUnmerged answers.now rows.now e) }
{
    if !are_in_order(rows) || !are_full(rows) {
        return Err(Flaw::WrongMerge);
    }
    if are_alone(answers, rows) {
        return Ok(());
    }
    let last = last_listed(alloc, answers)?;
    let mut told = Vec::new(alloc);
    list_rows(alloc, &mut told, rows)?;
    if !same_listed(told.as_slice(), last.as_slice()) {
        return Err(Flaw::WrongMerge);
    }
    Ok(())
}
