//! What a client asks, and why nothing was asked.

ghost use Rattle.std.specs.Prelude.{◌≡◌};
ghost use Rattle.remote_requests.specs.declared.asked.ReadError.TheVariants as read_error;

use crate::{Left, Refusal};
use labels::Row;
use matchers::Query;
use page_requests::Question;
use std::alloc::{AllocError, AllocFailed};
use std::error::Error;
use std::fmt;

/// What a client asks.
#[derive(Drop)]
pub enum Asked {
    /// Samples are to be kept.
    Write(Received),
    /// Each query is to be answered, at most 64, in this order.
    Read(Vec<Reading>),
    /// The version of the program.
    BuildInfo,
    /// Names of labels, values of a label or label sets are to be listed.
    List(Listing),
    /// The form that asks for a page.
    Home,
    /// The page of an answer.
    Page(Question),
}

/// What a listing lists.
#[derive(Drop)]
pub enum Listed {
    /// The names of labels.
    Names,
    /// The values of the label of this name.
    Values(String),
    /// Label sets.
    Series,
}

/// What is to be listed, and of which series.
#[derive(Drop)]
pub struct Listing {
    pub wanted: Listed,
    /// A series is looked at if one of these asks for it: at most 64, one for each selector, or
    /// that of all series where there is none. There are none where the range has no time of the
    /// store.
    pub queries: Vec<Query>,
    /// How many names, values or label sets are told at most; never 0.
    pub limit: Option<usize>,
}

/// What a write brings.
#[derive(Drop)]
pub struct Received {
    /// A row for each series that gives one, in the order of the body: its label set, and those of
    /// its samples that are not left out, at least one, each at a time of the store. A label set
    /// may stand in several rows, and times in any order.
    pub rows: Vec<Row>,
    /// What is left out before the store is asked.
    pub left: Left,
    /// How many samples and histograms the body has, at most 65,536.
    pub of: u64,
}

/// A query of a read.
#[derive(Drop)]
pub struct Reading {
    /// The query, its range cut to the times of the store; none where the range has no such time,
    /// and the answer has no rows.
    pub query: Option<Query>,
    /// Whether label sets without samples are wanted.
    pub names_alone: bool,
}

/// Why nothing was asked.
#[derive(Clone, Copy, Debug, PartialEq, Eq, Drop)]
pub enum ReadError {
    /// The client closed before its first byte. No reply is owed.
    Closed,
    /// The client fell silent, or a read failed. No reply is owed.
    Lost,
    /// There is no memory left.
    Memory,
    /// The request is refused, and a reply is owed.
    Refused(Refusal),
}

impl fmt::Display for ReadError {
    fn fmt<W: fmt::Write>(&self, f: &mut fmt::Formatter<W>) -> fmt::Result {
        match self {
            ReadError::Closed => write!(f, "the client closed before its first byte"),
            ReadError::Lost => write!(f, "the request did not come whole"),
            ReadError::Memory => write!(f, "no memory"),
            ReadError::Refused(refusal) => write!(f, "{refusal}"),
        }
    }
}

impl Error for ReadError {}

impl From<AllocError> for ReadError {
    ghost from_gives = { λ _ e. e ≡ read_error.Memory };

    fn from(_: AllocError) -> ReadError {
        ReadError::Memory
    }
}

impl<T: Drop> From<AllocFailed<T>> for ReadError {
    ghost from_gives = { λ _ e. e ≡ read_error.Memory };

    fn from(_: AllocFailed<T>) -> ReadError {
        ReadError::Memory
    }
}
