//! Why files of rows are not written.

ghost use Rattle.std.specs.Prelude.{◌≡◌};
ghost use Rattle.block_writer.specs.declared.error.WriteError.TheVariants.{Memory};

use std::alloc::{AllocError, AllocFailed};
use std::error::Error;
use std::fmt;

/// Why files of rows are not written.
#[derive(Clone, Copy, Debug, PartialEq, Eq, Drop)]
pub enum WriteError {
    /// No memory.
    Memory,
    /// `N1`: the index or the chunks file would be longer than 1,073,741,824 bytes.
    Limit,
}

impl WriteError {
    ghost use Rattle.block_writer.specs.Codes.{code_of};

    /// The number of the refusal, or `memory`.
    pub fn code(self) -> &'static str
        ensures { result.now ≡ code_of self }
    {
        match self {
            WriteError::Memory => "memory",
            WriteError::Limit => "N1",
        }
    }
}

impl fmt::Display for WriteError {
    ghost use Rattle.std.specs.Prelude.{Some};
    ghost use Rattle.block_writer.specs.Codes.{text_of};

    ghost output = { λ error. Some (text_of error) };

    fn fmt<W: fmt::Write>(&self, f: &mut fmt::Formatter<W>) -> fmt::Result {
        let text = match self {
            WriteError::Memory => "no memory",
            WriteError::Limit => {
                "N1: the index or the chunks file would be longer than 1,073,741,824 bytes"
            }
        };
        write!(f, "{text}")
    }
}

impl Error for WriteError {}

impl From<AllocError> for WriteError {
    ghost from_gives = { λ _ e. e ≡ Memory };

    fn from(_error: AllocError) -> WriteError {
        WriteError::Memory
    }
}

impl<T: Drop> From<AllocFailed<T>> for WriteError {
    ghost from_gives = { λ _ e. e ≡ Memory };

    fn from(_error: AllocFailed<T>) -> WriteError {
        WriteError::Memory
    }
}
