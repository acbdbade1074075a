//! Events.

ghost use Rattle.std.specs.Prelude.{◌≡◌, IsTrue, Some, None, MatchOption};
ghost use Rattle.std.specs.List.{list_all};
ghost use Rattle.labels.specs.Contents.{is_time};
ghost use Rattle.head.specs.Batches.{is_batch, is_deletion};
ghost use Rattle.head.specs.Worlds.{batch, batch_of, deletion, cut, matchers_of};

use labels::{LabelSet, Sample, is_time};
use matchers::{MAX_MATCHERS, Matcher, is_query_range};
use std::marker::Model;

/// The greatest number of samples in a batch.
pub const MAX_BATCH: usize = 4_096;

#[derive(Drop)]
enum Kind {
    Batch(Vec<(LabelSet, Sample)>),
    Deletion(Vec<Matcher>, i64, i64),
    Cut(i64),
}

/// An event, lent.
#[derive(Drop)]
pub enum EventView<'a> {
    /// The samples of a batch, in its order.
    Batch(&'a [(LabelSet, Sample)]),
    /// The matchers of a deletion, and its first and last time, in milliseconds.
    Deletion(&'a [Matcher], i64, i64),
    /// The time of a cut, in milliseconds.
    Cut(i64),
}

/// What changes a store: a batch of at most 4,096 samples, each at a time; a deletion of samples in
/// a closed range; or a cut, which moves the floor.
#[derive(Drop)]
pub struct Event {
    kind: Kind,
}

impl Model for Event {
    ghost use Rattle.head.specs.Worlds.{Event as Change};

    ghost Value = { Change };

    ghost use Rattle.head.specs.Kinds.{change_of};
    ghost use Rattle.head.specs.Batches.{IsEvent};

    ghost view = { λ e. change_of e.kind };

    ghost invariant = { λ e. IsEvent (change_of e.kind) };
}

fn are_timed(samples: &[(LabelSet, Sample)]) -> bool
    ensures { result ≡ list_all (λ x. is_time x.1.0) samples.now }
{
    samples.iter().all(|sample| is_time(sample.1.t()))
}

impl Event {
    ghost use Rattle.head.specs.Kinds.{change_seen};
    ghost use Rattle.head.specs.Batches.{IsEvent};
    ghost use Rattle.head.specs.Joins.{IsNoJoin};

    /// Whether there are at most 4,096 samples, all at times: what a batch is made of.
    pub fn is_batch(samples: &[(LabelSet, Sample)]) -> bool
        ensures { result ≡ is_batch samples.now }
    {
        samples.len() <= MAX_BATCH && are_timed(samples)
    }

    /// A batch of these samples, in this order.
    pub fn batch(samples: Vec<(LabelSet, Sample)>) -> Event
        requires { IsTrue (is_batch samples.items) }
        ensures { result ≡ batch samples.items }
    {
        Event {
            kind: Kind::Batch(samples),
        }
    }

    /// Whether there are at most 16 matchers, and `from` is not above `to`, both times: what a
    /// deletion is made of.
    pub fn is_deletion(matchers: &[Matcher], from: i64, to: i64) -> bool
        ensures { result ≡ is_deletion matchers.now from to }
    {
        matchers.len() <= MAX_MATCHERS && is_query_range(from, to)
    }

    /// A deletion of the samples from one time to another, both included, of the series that
    /// satisfy all matchers.
    pub fn deletion(matchers: Vec<Matcher>, from: i64, to: i64) -> Event
        requires { IsTrue (is_deletion matchers.items from to) }
        ensures { result ≡ deletion matchers.items from to }
    {
        Event {
            kind: Kind::Deletion(matchers, from, to),
        }
    }

    /// A cut at a time, in milliseconds: the samples below it leave the head for a block.
    pub fn cut(at: i64) -> Event
        requires { IsTrue (is_time at) }
        ensures { result ≡ cut at }
    {
        Event {
            kind: Kind::Cut(at),
        }
    }

    /// The samples of a batch, as they were handed over; `None` for another event.
    pub fn into_batch(self) -> Option<Vec<(LabelSet, Sample)>>
        ensures given_back { MatchOption result (batch_of self
            ≡ None) (λ samples. batch_of self ≡ Some samples.items) }
        ensures kept { IsEvent self }
    {
        match self.kind {
            Kind::Batch(samples) => Some(samples),
            Kind::Deletion(_, _, _) | Kind::Cut(_) => None,
        }
    }

    /// The matchers of a deletion, as they were handed over; `None` for another event.
    pub fn into_matchers(self) -> Option<Vec<Matcher>>
        ensures given_back { MatchOption result (matchers_of self
            ≡ None) (λ ms. matchers_of self ≡ Some ms.items) }
        ensures kept { IsEvent self }
    {
        match self.kind {
            Kind::Deletion(matchers, _, _) => Some(matchers),
            Kind::Batch(_) | Kind::Cut(_) => None,
        }
    }

    /// What it is made of, lent. It takes no memory.
    pub fn view(&self) -> EventView<'_>
        ensures shown { change_seen result ≡ self.now }
        ensures kept { IsEvent self.now }
        ensures unjoined { IsNoJoin self.now }
    {
        match &self.kind {
            Kind::Batch(samples) => EventView::Batch(samples.as_slice()),
            Kind::Deletion(matchers, from, to) => {
                EventView::Deletion(matchers.as_slice(), *from, *to)
            }
            Kind::Cut(at) => EventView::Cut(*at),
        }
    }
}
