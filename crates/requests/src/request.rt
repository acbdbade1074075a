//! What a client asks, and why nothing was read.

ghost use Rattle.std.specs.Prelude.{◌≡◌};
ghost use Rattle.requests.specs.declared.request.ReadError.TheVariants as read_error;

use crate::{Fault, Refusal};
use labels::Row;
use matchers::{Matcher, Query};
use std::alloc::{AllocError, AllocFailed};
use std::error::Error;
use std::fmt;

/// What a client asks.
#[derive(Drop)]
pub enum Request {
    /// The rows that a query finds.
    Select(Query),
    /// Rows whose samples are to be committed as one batch, in this order: at most [`MAX_BATCH`].
    Write(Vec<Row>),
    /// The samples from one time to another, both in the range, of the label sets that satisfy the
    /// matchers, 1 to 16, are to be deleted.
    Delete {
        matchers: Vec<Matcher>,
        from: i64,
        to: i64,
    },
    /// The head is to be cut at a time.
    Cut(i64),
}

/// The most samples of one batch.
pub const MAX_BATCH: usize = 4096;

/// Why no request was read.
#[derive(Clone, Copy, Debug, PartialEq, Eq, Drop)]
pub enum ReadError {
    /// The input ends before its first byte.
    Closed,
    /// The reader failed.
    Fault,
    /// There is no memory left.
    Memory,
    /// The request is refused, and a reply is owed.
    Refused(Refusal),
}

impl fmt::Display for ReadError {
    ghost use Rattle.std.specs.Prelude.{Some};
    ghost use Rattle.requests.specs.ReadErrors.{read_error_message};

    ghost output = { λ error. Some (read_error_message error) };

    fn fmt<W: fmt::Write>(&self, f: &mut fmt::Formatter<W>) -> fmt::Result {
        match self {
            ReadError::Closed => write!(f, "the input ends before its first byte"),
            ReadError::Fault => write!(f, "the input cannot be read"),
            ReadError::Memory => write!(f, "no memory"),
            ReadError::Refused(refusal) => write!(f, "{refusal}"),
        }
    }
}

impl Error for ReadError {}

impl From<AllocError> for ReadError {
    ghost from_gives = { λ _ e. e ≡ read_error.Memory };

    fn from(_: AllocError) -> ReadError {
        ReadError::Memory
    }
}

impl<T: Drop> From<AllocFailed<T>> for ReadError {
    ghost from_gives = { λ _ e. e ≡ read_error.Memory };

    fn from(_: AllocFailed<T>) -> ReadError {
        ReadError::Memory
    }
}

impl From<Fault> for ReadError {
    ghost from_gives = { λ _ e. e ≡ read_error.Fault };

    fn from(_: Fault) -> ReadError {
        ReadError::Fault
    }
}

impl From<Refusal> for ReadError {
    ghost from_gives = { λ refusal e. e ≡ read_error.Refused refusal };

    fn from(refusal: Refusal) -> ReadError {
        ReadError::Refused(refusal)
    }
}
