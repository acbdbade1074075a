//! Why a journal is not read, or a content not taken.

ghost use Rattle.std.specs.Prelude.{◌≡◌};
ghost use Rattle.journal.specs.declared.error.JournalError.TheVariants.{Memory};

use std::alloc::{AllocError, AllocFailed};
use std::error::Error;
use std::fmt;

/// Why a journal is not read, or a content not taken.
///
/// `J1` to `J4` are of a file that is read, in the order of its bytes: the first fault is told.
/// `J5` to `J7` are of a content that is to be kept.
#[derive(Clone, Copy, Debug, PartialEq, Eq, Drop)]
pub enum JournalError {
    /// No memory is left.
    Memory,
    /// `J1`: the file does not begin with `FZLJ`.
    Magic,
    /// `J2`: the version is missing or not 1.
    Version,
    /// `J3`: the record that begins at this byte has a wrong checksum, and is not the last.
    Checksum(usize),
    /// `J4`: what begins at this byte is the length of no record, and not zeros up to the end.
    Length(usize),
    /// `J5`: the content has no byte or more than 2^26, or the journal is longer than 2^62 bytes.
    Size,
    /// `J6`: the medium failed.
    Medium,
    /// `J7`: the medium failed before, and the journal takes nothing more.
    Closed,
}

impl JournalError {
    ghost use Rattle.journal.specs.Codes.{code_of};

    /// The refusal's number, as it is printed, or `memory`.
    pub fn code(self) -> &'static str
        ensures { result.now ≡ code_of self }
    {
        match self {
            JournalError::Memory => "memory",
            JournalError::Magic => "J1",
            JournalError::Version => "J2",
            JournalError::Checksum(_) => "J3",
            JournalError::Length(_) => "J4",
            JournalError::Size => "J5",
            JournalError::Medium => "J6",
            JournalError::Closed => "J7",
        }
    }
}

impl fmt::Display for JournalError {
    ghost use Rattle.std.specs.Prelude.{Some};
    ghost use Rattle.journal.specs.Codes.{text_of};

    ghost output = { λ error. Some (text_of error) };

    fn fmt<W: fmt::Write>(&self, f: &mut fmt::Formatter<W>) -> fmt::Result {
        match self {
            JournalError::Memory => write!(f, "no memory"),
            JournalError::Magic => write!(f, "J1: the journal does not begin with FZLJ"),
            JournalError::Version => write!(f, "J2: the version of the journal is not 1"),
            JournalError::Checksum(at) => {
                write!(f, "J3: the checksum of the record at byte {at} is wrong")
            }
            JournalError::Length(at) => {
                write!(f, "J4: the length of the record at byte {at} is wrong")
            }
            JournalError::Size => write!(f, "J5: the journal takes no record so long"),
            JournalError::Medium => write!(f, "J6: the journal could not be written"),
            JournalError::Closed => {
                write!(f, "J7: the journal is closed, since its medium failed")
            }
        }
    }
}

impl Error for JournalError {}

impl From<AllocError> for JournalError {
    ghost from_gives = { λ _ e. e ≡ Memory };

    fn from(_error: AllocError) -> JournalError {
        JournalError::Memory
    }
}

impl<T: Drop> From<AllocFailed<T>> for JournalError {
    ghost from_gives = { λ _ e. e ≡ Memory };

    fn from(_error: AllocFailed<T>) -> JournalError {
        JournalError::Memory
    }
}
