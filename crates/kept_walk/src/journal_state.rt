//! What the journal of a store says.

ghost use Rattle.std.specs.Prelude.{◌≡◌, map};
ghost use Rattle.kept_walk.specs.Kept.{event_of};

use labels::{LabelSet, Row, Sample};
use matchers::Matcher;
use std::marker::Model;

/// What the values of a store mean: they are whole numbers of 64 bits.
#[derive(Clone, Copy, Debug, PartialEq, Eq, Drop)]
pub enum Values {
    /// Each stands for itself.
    Whole,
    /// Each stands for a double.
    Doubles,
}

/// One change of a store. `event_of`, in `specs/Kept.antt`, is what contracts see of it.
#[derive(Drop)]
pub enum Change {
    /// Runs in their order, each a label set with samples in theirs: the samples are committed one
    /// after another, all or none.
    Batch(Vec<Row>),
    /// The samples from one time to another, both included and in milliseconds, of the series that
    /// satisfy all matchers.
    Deletion(Vec<Matcher>, i64, i64),
    /// The time in milliseconds below which samples leave the head for a block.
    Cut(i64),
}

/// One series of a head: its samples, and the newest that was committed, which a deletion may have
/// taken from them.
#[derive(Drop)]
pub struct KeptSeries {
    labels: LabelSet,
    newest: Sample,
    samples: Vec<Sample>,
}

impl Model for KeptSeries {
    ghost use Rattle.kept_walk.specs.Kept.{Series};

    ghost Value = { Series };

    ghost view = { λ s.
        record { labels = s.labels; newest = s.newest; samples = s.samples.items } };
}

impl KeptSeries {
    /// The series of a label set with this newest sample and these samples.
    pub fn new(labels: LabelSet, newest: Sample, samples: Vec<Sample>) -> KeptSeries
        ensures { result
            ≡ record { labels = labels; newest = newest; samples = samples.items } }
    {
        KeptSeries {
            labels,
            newest,
            samples,
        }
    }

    /// The label set.
    pub fn labels(&self) -> &LabelSet
        ensures { result.now ≡ self.now.labels }
    {
        &self.labels
    }

    /// The newest committed sample.
    pub fn newest(&self) -> Sample
        ensures { result ≡ self.now.newest }
    {
        self.newest
    }

    /// The samples, the oldest first.
    pub fn samples(&self) -> &[Sample]
        ensures { result.now ≡ self.now.samples }
    {
        self.samples.as_slice()
    }

    /// The label set, the newest sample and the samples, handed over.
    pub fn into_parts(self) -> (LabelSet, Sample, Vec<Sample>)
        ensures labels { result.0 ≡ self.labels }
        ensures newest { result.1 ≡ self.newest }
        ensures samples { result.2.items ≡ self.samples }
    {
        (self.labels, self.newest, self.samples)
    }
}

/// What the journal of a store says: a head, and the changes behind it, the oldest first.
#[derive(Drop)]
pub struct Kept {
    values: Values,
    floor: i64,
    folders: Vec<u64>,
    head: Vec<KeptSeries>,
    changes: Vec<Change>,
}

impl Model for Kept {
    ghost use Rattle.std.specs.Prelude.{map};
    ghost use Rattle.kept_walk.specs.Kept.{Store, event_of};

    ghost Value = { Store };

    ghost view = { λ k. record {
      values = k.values;
      floor = k.floor;
      folders = k.folders.items;
      head = k.head.items;
      events = map event_of k.changes.items;
    } };
}

impl Kept {
    /// A head with this meaning of its values, this floor, blocks in these folders and these
    /// series, and the changes behind it.
    pub fn new(
        values: Values,
        floor: i64,
        folders: Vec<u64>,
        head: Vec<KeptSeries>,
        changes: Vec<Change>,
    ) -> Kept
        ensures { result ≡ record {
          values = values;
          floor = floor;
          folders = folders.items;
          head = head.items;
          events = map event_of changes.items;
        } }
    {
        Kept {
            values,
            floor,
            folders,
            head,
            changes,
        }
    }

    /// What the values mean.
    pub fn values(&self) -> Values
        ensures { result ≡ self.now.values }
    {
        self.values
    }

    /// The floor, in milliseconds.
    pub fn floor(&self) -> i64
        ensures { result ≡ self.now.floor }
    {
        self.floor
    }

    /// The numbers of the folders of the blocks, in the order of the blocks.
    pub fn folders(&self) -> &[u64]
        ensures { result.now ≡ self.now.folders }
    {
        self.folders.as_slice()
    }

    /// The series of the head, in order of creation.
    pub fn head(&self) -> &[KeptSeries]
        ensures { result.now ≡ self.now.head }
    {
        self.head.as_slice()
    }

    /// The changes behind the head, the oldest first.
    pub fn changes(&self) -> &[Change]
        ensures { map event_of result.now ≡ self.now.events }
    {
        self.changes.as_slice()
    }

    /// The series of the head and the changes, handed over.
    pub fn into_parts(self) -> (Vec<KeptSeries>, Vec<Change>)
        ensures head { result.0.items ≡ self.head }
        ensures events { map event_of result.1.items ≡ self.events }
    {
        (self.head, self.changes)
    }
}
