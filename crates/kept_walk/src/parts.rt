//! What is read of contents, before it is put together.

ghost use Rattle.std.specs.Prelude.{◌≡◌};

use crate::journal_state::{KeptSeries, Values};
use labels::Row;
use matchers::Op;
use std::marker::Model;

/// A matcher that is not built yet.
#[derive(Drop)]
pub(crate) struct MatcherParts<'a> {
    pub(crate) name: &'a str,
    pub(crate) op: Op,
    pub(crate) text: &'a str,
}

/// An event, of whose matchers none is built yet.
#[derive(Drop)]
pub(crate) enum EventParts<'a> {
    Batch(Vec<Row>),
    Deletion(Vec<MatcherParts<'a>>, i64, i64),
    Cut(i64),
}

/// What the first content of a head says: what the values mean, the floor, where the blocks lie,
/// and how many series follow.
#[derive(Drop)]
pub(crate) struct OpeningParts {
    pub(crate) values: Values,
    pub(crate) floor: i64,
    pub(crate) places: Vec<(u64, u64)>,
    pub(crate) count: u64,
}

/// A head.
#[derive(Drop)]
pub(crate) struct HeadParts {
    pub(crate) values: Values,
    pub(crate) floor: i64,
    pub(crate) folders: Vec<u64>,
    pub(crate) series: Vec<KeptSeries>,
}

/// The time of the sample before.
#[derive(Clone, Copy, Drop)]
pub(crate) struct Time {
    at: i64,
}

impl Model for Time {
    ghost use Rattle.std.specs.Prelude.{ℤ};

    ghost Value = { ℤ };

    ghost view = { λ t. t.at };

    ghost inverse = { λ t. record { at = t } };
}

impl Time {
    /// This time.
    pub(crate) fn new(at: i64) -> Time
        ensures { result ≡ at }
    {
        Time { at }
    }

    /// It as a number.
    pub(crate) fn at(self) -> i64
        ensures { result ≡ self }
    {
        self.at
    }
}
