//! Appenders, which gather a batch.

ghost use Rattle.std.specs.Prelude.{◌≡◌, ◌<◌, ◌≤◌, ◌++◌, ◌∷◌, ◌↔◌, [], false, length, Some, None};
ghost use Rattle.std.specs.Prelude.{is_none};
ghost use Rattle.std.specs.Prelude.{IsTrue, IfErr, OnOk, OnErr, MatchResult};
ghost use Rattle.labels.specs.Contents.{is_time};
ghost use Rattle.head.specs.Worlds.{batch, batch_of};

use head::{AppendError, Event, MAX_BATCH};
use labels::{LabelSet, Sample, is_time};
use std::alloc::Global;
use std::marker::Model;

/// Samples that are to be committed as one batch, in this order. Contracts see it as the batch.
#[derive(Drop)]
pub struct Appender {
    samples: Vec<(LabelSet, Sample)>,
}

impl Model for Appender {
    ghost use Rattle.std.specs.Prelude.{IsTrue};
    ghost use Rattle.head.specs.Batches.{is_batch};
    ghost use Rattle.head.specs.Worlds.{Batch};

    ghost Value = { Batch };

    ghost view = { λ a. a.samples.items };

    ghost invariant = { λ a. IsTrue (is_batch a.samples.items) };
}

impl Appender {
    /// An appender that holds nothing. It takes no memory.
    pub fn new(alloc: Global) -> Appender
        ensures { result ≡ [] }
    {
        Appender {
            samples: Vec::new(alloc),
        }
    }

    /// How many samples it holds, 4,096 at most.
    pub fn len(&self) -> usize
        ensures count { result ≡ length self.now }
        ensures few { result ≤ 4096 }
    {
        self.samples.len()
    }

    /// Whether it holds nothing.
    pub fn is_empty(&self) -> bool
        ensures { IsTrue result ↔ (self.now ≡ []) }
    {
        self.samples.is_empty()
    }

    /// The sample goes last. `A1` where it holds 4,096 samples, and then `A2` where the time is
    /// below -2^62 or above 2^62 - 1 ms; the label set comes back.
    pub fn append(
        &mut self,
        labels: LabelSet,
        sample: Sample,
    ) -> Result<(), (LabelSet, AppendError)>
        ensures added { OnOk result (self.new ≡ self.old ++ (labels, sample) ∷ []) }
        ensures kept { OnErr result (self.new ≡ self.old) }
        ensures returned { IfErr result (λ e. e.0 ≡ labels) }
        ensures full { MatchResult result (λ _. length self.old < 4096) (λ e.
            (e.1 ≡ AppendError.Full) ↔ (4096 ≤ length self.old)) }
        ensures time { MatchResult result (λ _. IsTrue (is_time sample.0)) (λ e.
            (e.1 ≡ AppendError.TimeRange)
            ↔ ((length self.old < 4096) × (is_time sample.0 ≡ false))) }
    {
        if self.samples.len() >= MAX_BATCH {
            return Err((labels, AppendError::Full));
        }
        if !is_time(sample.t()) {
            return Err((labels, AppendError::TimeRange));
        }
        match self.samples.push((labels, sample)) {
            Ok(()) => Ok(()),
            Err(refused) => Err((refused.value.0, AppendError::Memory)),
        }
    }

    /// The batch as an event, which `head::apply` takes too. It takes no memory.
    pub fn into_event(self) -> Event
        ensures { result ≡ batch self }
    {
        Event::batch(self.samples)
    }

    /// The appender that the event was made of.
    pub(crate) fn of_batch(event: Event) -> Appender
        requires { is_none (batch_of event) ≡ false }
        ensures { batch_of event ≡ Some result }
    {
        match event.into_batch() {
            Some(samples) => Appender { samples },
            None => unreachable!(),
        }
    }
}
