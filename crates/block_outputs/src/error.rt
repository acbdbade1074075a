//! Why an output is not written.

ghost use Rattle.std.specs.Prelude.{◌≡◌};
ghost use Rattle.block_outputs.specs.declared.error.OutputError.TheVariants.{Memory};

use block_folder::FolderError;
use block_writer::WriteError;
use std::alloc::{AllocError, AllocFailed};
use std::error::Error;
use std::fmt;
use time_cuts::CutError;

/// Why an output is not written.
#[derive(Clone, Copy, Debug, PartialEq, Eq, Drop)]
pub enum OutputError {
    /// No memory is left.
    Memory,
    /// A call of the disk failed.
    Disk,
    /// The rows are more than a block may have, or a time is the greatest of all.
    TooLarge,
    /// The rows of the only list do not ascend by their label sets, or a row's times do not.
    Unordered,
}

impl fmt::Display for OutputError {
    fn fmt<W: fmt::Write>(&self, f: &mut fmt::Formatter<W>) -> fmt::Result {
        let text = match self {
            OutputError::Memory => "no memory",
            OutputError::Disk => "cannot write",
            OutputError::TooLarge => "one moment alone is more than an output may have",
            OutputError::Unordered => "rows out of order",
        };
        write!(f, "{text}")
    }
}

impl Error for OutputError {}

impl From<AllocError> for OutputError {
    ghost from_gives = { λ _ e. e ≡ Memory };

    fn from(_error: AllocError) -> OutputError {
        OutputError::Memory
    }
}

impl<T: Drop> From<AllocFailed<T>> for OutputError {
    ghost from_gives = { λ _ e. e ≡ Memory };

    fn from(_error: AllocFailed<T>) -> OutputError {
        OutputError::Memory
    }
}

impl From<WriteError> for OutputError {
    fn from(error: WriteError) -> OutputError {
        match error {
            WriteError::Memory => OutputError::Memory,
            WriteError::Limit => OutputError::TooLarge,
        }
    }
}

impl From<CutError> for OutputError {
    fn from(error: CutError) -> OutputError {
        match error {
            CutError::Memory => OutputError::Memory,
            CutError::Slot => OutputError::TooLarge,
        }
    }
}

impl From<FolderError> for OutputError {
    fn from(error: FolderError) -> OutputError {
        match error {
            FolderError::Memory => OutputError::Memory,
            FolderError::Disk => OutputError::Disk,
        }
    }
}
