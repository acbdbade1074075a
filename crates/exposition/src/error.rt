//! Why a text is refused.

ghost use Rattle.std.specs.Prelude.{◌≡◌};
ghost use Rattle.exposition.specs.declared.error.ReadError.TheVariants.{Memory};

use labels::LabelError;
use open_metrics::Reason;
use std::alloc::{AllocError, AllocFailed};
use std::fmt;

/// Why a line is refused.
#[derive(Clone, Copy, Debug, PartialEq, Eq, Drop)]
pub enum Cause {
    /// `P1` to `P9`: the line is wrong.
    Line(Reason),
    /// `P10`: the name or the text of a label is no UTF-8.
    Text,
    /// `L1` to `L3`: the labels make no label set.
    Labels(LabelError),
    /// `P11`: the time is outside -2^62 to 2^62 - 1.
    Time,
    /// `P12`: the text does not end with `# EOF`, or goes on behind it.
    End,
}

impl Cause {
    /// The refusal's number, as it is printed.
    pub fn code(self) -> &'static str {
        match self {
            Cause::Line(reason) => reason.code(),
            Cause::Text => "P10",
            Cause::Labels(error) => error.code(),
            Cause::Time => "P11",
            Cause::End => "P12",
        }
    }
}

impl fmt::Display for Cause {
    fn fmt<W: fmt::Write>(&self, f: &mut fmt::Formatter<W>) -> fmt::Result {
        match self {
            Cause::Line(reason) => write!(f, "{reason}"),
            Cause::Text => write!(f, "P10: the text of a label is no UTF-8"),
            Cause::Labels(error) => write!(f, "{error}"),
            Cause::Time => write!(f, "P11: the time is outside -2^62 to 2^62 - 1"),
            Cause::End => write!(f, "P12: the last line, and no other, is to be # EOF"),
        }
    }
}

/// Where and why a text is refused.
#[derive(Clone, Copy, Debug, PartialEq, Eq, Drop)]
pub struct Refusal {
    /// The number of the line, from 1.
    pub line: u64,
    /// The column of the line in bytes, from 1.
    pub column: u64,
    /// The cause.
    pub cause: Cause,
}

/// Why no rows are read.
#[derive(Clone, Copy, Debug, PartialEq, Eq, Drop)]
pub enum ReadError {
    /// No memory is left.
    Memory,
    /// The first line that is wrong.
    Refused(Refusal),
}

impl From<AllocError> for ReadError {
    ghost from_gives = { λ _ e. e ≡ Memory };

    fn from(_error: AllocError) -> ReadError {
        ReadError::Memory
    }
}

impl<T: Drop> From<AllocFailed<T>> for ReadError {
    ghost from_gives = { λ _ e. e ≡ Memory };

    fn from(_error: AllocFailed<T>) -> ReadError {
        ReadError::Memory
    }
}
