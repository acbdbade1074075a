//! What actors do.

ghost use Rattle.std.specs.Prelude.{◌≡◌, IsTrue};
ghost use Rattle.labels.specs.Contents.{is_time};
ghost use Rattle.head.specs.Batches.{is_deletion};
ghost use Rattle.head.specs.Worlds.{deletion, cut};
ghost use Rattle.history.specs.Steps.{append, commit, change, query};
ghost use Rattle.history.specs.Shown.{step_of};

use head::Event;
use labels::{LabelSet, Sample};
use matchers::{Matcher, Query};
use std::marker::Model;

#[derive(Drop)]
pub(crate) enum Action {
    Append(LabelSet, Sample),
    Commit,
    Change(Event),
    Query(Query),
}

/// What one actor does. Actors go by numbers, each with a buffer of its own.
#[derive(Drop)]
pub struct Step {
    actor: usize,
    action: Action,
}

impl Model for Step {
    ghost use Rattle.history.specs.Steps.{Step as StepView};

    ghost Value = { StepView };

    ghost use Rattle.history.specs.Shown.{step_of};

    ghost view = { λ s. step_of s.actor s.action };
}

impl Step {
    /// The actor adds a sample to its buffer.
    pub fn append(actor: usize, labels: LabelSet, sample: Sample) -> Step
        ensures { result ≡ append actor labels sample }
    {
        Step {
            actor,
            action: Action::Append(labels, sample),
        }
    }

    /// The actor commits its buffer, as one batch.
    pub fn commit(actor: usize) -> Step
        ensures { result ≡ commit actor }
    {
        Step {
            actor,
            action: Action::Commit,
        }
    }

    /// The actor deletes the samples from one time to another, both included, of the series that
    /// satisfy all matchers.
    pub fn delete(actor: usize, matchers: Vec<Matcher>, from: i64, to: i64) -> Step
        requires { IsTrue (is_deletion matchers.items from to) }
        ensures { result ≡ change actor (deletion matchers.items from to) }
    {
        Step {
            actor,
            action: Action::Change(Event::deletion(matchers, from, to)),
        }
    }

    /// The actor cuts the head at a time, in milliseconds.
    pub fn cut(actor: usize, at: i64) -> Step
        requires { IsTrue (is_time at) }
        ensures { result ≡ change actor (cut at) }
    {
        Step {
            actor,
            action: Action::Change(Event::cut(at)),
        }
    }

    /// The actor asks.
    pub fn query(actor: usize, what: Query) -> Step
        ensures { result ≡ query actor what }
    {
        Step {
            actor,
            action: Action::Query(what),
        }
    }

    /// The actor's number, and what it does.
    pub(crate) fn parts(&self) -> (usize, &Action)
        ensures { step_of result.0 result.1.now ≡ self.now }
    {
        (self.actor, &self.action)
    }
}
