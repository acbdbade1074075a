//! The runs of one answer, which the walk takes from the front.

ghost use Rattle.std.specs.Prelude.{◌≡◌, ◌++◌, ◌∷◌, [], true, IfNone, IfSome, OnOk};
ghost use Rattle.labels.specs.Labels.{same_labels};
ghost use Rattle.series_merge.specs.Walking.{StartsApart, StartsWith, behind, front_of};

use crate::run::Run;
use labels::LabelSet;
use std::alloc::AllocError;
use std::marker::Model;

/// The runs of an answer that are not taken yet, seen as a list of rows.
#[derive(Drop)]
pub(crate) struct Remaining<'a> {
    runs: Vec<Run<'a>>,
    taken: usize,
}

impl<'a> Model for Remaining<'a> {
    ghost use Rattle.std.specs.Prelude.{List, drop};
    ghost use Rattle.labels.specs.Rows.{Row};

    ghost Value = { List Row };

    ghost view = { λ p. drop p.taken p.runs.items };
}

impl<'a> Remaining<'a> {
    /// All of the runs, none taken.
    pub(crate) fn new(runs: Vec<Run<'a>>) -> Remaining<'a>
        ensures { result ≡ runs.entry.items }
    {
        Remaining { runs, taken: 0 }
    }

    /// The label set of the first one, if any is left.
    pub(crate) fn first(&self) -> Option<&'a LabelSet>
        ensures none { IfNone result (self.now ≡ []) }
        ensures some { IfSome result (λ labels. StartsWith labels.now self.now) }
    {
        if self.taken >= self.runs.len() {
            return None;
        }
        Some(self.runs[self.taken].labels())
    }

    /// Takes the first one if it has the label set.
    fn next_of(&mut self, labels: &LabelSet) -> Option<Run<'a>>
        ensures none { IfNone result (StartsApart labels.now self.old) }
        ensures same { IfNone result (self.new ≡ self.old) }
        ensures some { IfSome result (λ run. self.old ≡ run ∷ self.new) }
        ensures alike { IfSome result (λ run. same_labels run.0 labels.now ≡ true) }
    {
        if self.taken >= self.runs.len() {
            return None;
        }
        let run = &self.runs[self.taken];
        if run.labels() != labels {
            return None;
        }
        let taken = Run::new(run.labels(), run.samples());
        self.taken += 1;
        Some(taken)
    }

    /// Takes the first ones, as long as they have the label set, and puts them behind `alike`.
    pub(crate) fn take_alike(
        &mut self,
        labels: &LabelSet,
        alike: &mut Vec<Run<'a>>,
    ) -> Result<(), AllocError>
        ensures alike { OnOk result
            (alike.new.items ≡ alike.old.items ++ front_of labels.now self.old) }
        ensures left { OnOk result (self.new ≡ behind labels.now self.old) }
    {
        while let Some(run) = self.next_of(labels) {
            alike.push(run)?;
        }
        Ok(())
    }
}
