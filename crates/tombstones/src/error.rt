//! Why a file of deletions is refused.

ghost use Rattle.std.specs.Prelude.{◌≡◌};
ghost use Rattle.tombstones.specs.declared.error.TombstoneError.TheVariants.{Memory};

use std::alloc::{AllocError, AllocFailed};
use std::error::Error;
use std::fmt;

/// The first check that failed, or that there is no memory.
#[derive(Clone, Copy, Debug, PartialEq, Eq, Drop)]
pub enum TombstoneError {
    /// No memory.
    Memory,
    /// `T1`: the file does not begin with `01 30 BA 30`.
    Magic,
    /// `T2`: the version that follows is missing or not 1.
    Version,
    /// `T3`: the checksum is not that of the entries.
    Crc,
    /// `T4`: the file is too short or above 1 GiB, or what stands between is no list of entries.
    Shape,
}

impl TombstoneError {
    ghost use Rattle.tombstones.specs.Codes.{code_of};

    /// The number of the refusal, or `memory`.
    pub fn code(self) -> &'static str
        ensures { result.now ≡ code_of self }
    {
        match self {
            TombstoneError::Memory => "memory",
            TombstoneError::Magic => "T1",
            TombstoneError::Version => "T2",
            TombstoneError::Crc => "T3",
            TombstoneError::Shape => "T4",
        }
    }
}

impl fmt::Display for TombstoneError {
    ghost use Rattle.std.specs.Prelude.{Some};
    ghost use Rattle.tombstones.specs.Codes.{text_of};

    ghost output = { λ error. Some (text_of error) };

    fn fmt<W: fmt::Write>(&self, f: &mut fmt::Formatter<W>) -> fmt::Result {
        let text = match self {
            TombstoneError::Memory => "no memory",
            TombstoneError::Magic => "T1: the file does not begin with 01 30 BA 30",
            TombstoneError::Version => "T2: the version is missing or not 1",
            TombstoneError::Crc => "T3: the checksum is not that of the entries",
            TombstoneError::Shape => {
                "T4: the file is too short or too long, or holds no list of entries"
            }
        };
        write!(f, "{text}")
    }
}

impl Error for TombstoneError {}

impl From<AllocError> for TombstoneError {
    ghost from_gives = { λ _ e. e ≡ Memory };

    fn from(_error: AllocError) -> TombstoneError {
        TombstoneError::Memory
    }
}

impl<T: Drop> From<AllocFailed<T>> for TombstoneError {
    ghost from_gives = { λ _ e. e ≡ Memory };

    fn from(_error: AllocFailed<T>) -> TombstoneError {
        TombstoneError::Memory
    }
}
