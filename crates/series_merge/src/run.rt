//! A label set and samples of it, borrowed from a row of an answer.

ghost use Rattle.std.specs.Prelude.{◌≡◌, OnOk};
ghost use Rattle.std.specs.Bool.{OnTrue};
ghost use Rattle.std.specs.List.Sorted.{IsPermutation, IsSortedBy, IsStableBy};
ghost use Rattle.labels.specs.Labels.{labels_cmp};
ghost use Rattle.labels.specs.Rows.{row_before};

use labels::{LabelSet, Sample};
use std::alloc::AllocError;
use std::cmp::Ordering;
use std::marker::Model;

/// A label set and samples of it, seen as a row. It borrows both.
#[derive(Drop)]
pub(crate) struct Run<'a> {
    labels: &'a LabelSet,
    samples: &'a [Sample],
}

impl<'a> Model for Run<'a> {
    ghost use Rattle.labels.specs.Rows.{Row};

    ghost Value = { Row };

    ghost view = { λ r. (r.labels.now, r.samples.now) };
}

impl<'a> Run<'a> {
    /// These samples of this label set.
    pub(crate) fn new(labels: &'a LabelSet, samples: &'a [Sample]) -> Run<'a>
        ensures { result ≡ (labels.now, samples.now) }
    {
        Run { labels, samples }
    }

    /// The label set.
    pub(crate) fn labels(&self) -> &'a LabelSet
        ensures { result.now ≡ self.now.0 }
    {
        self.labels
    }

    /// The samples.
    pub(crate) fn samples(&self) -> &'a [Sample]
        ensures { result.now ≡ self.now.1 }
    {
        self.samples
    }
}

fn is_before(a: &Run, b: &Run) -> bool
    ensures { result ≡ row_before a.now b.now }
{
    a.labels().cmp(b.labels()).is_lt()
}

/// Whether no run has a label set before that of the run in front of it.
pub(crate) fn are_in_order(runs: &[Run]) -> bool
    ensures { OnTrue result (IsSortedBy row_before runs.now) }
{
    for at in 1..runs.len() {
        if is_before(&runs[at], &runs[at - 1]) {
            return false;
        }
    }
    true
}

/// Puts runs into the order of their label sets. Runs of one label set keep their order.
pub(crate) fn sort_runs(runs: &mut Vec<Run>) -> Result<(), AllocError>
    ensures moved { IsPermutation runs.old.items runs.new.items }
    ensures sorted { OnOk result (IsSortedBy row_before runs.new.items) }
    ensures stable { IsStableBy row_before runs.old.items runs.new.items }
{
    runs.sort_by(
        |a: &Run, b: &Run| -> Ordering
            ensures { result ≡ labels_cmp a.now.0 b.now.0 }
        { a.labels().cmp(b.labels()) },
    )
}
