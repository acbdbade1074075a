//! Why no cuts are made.

ghost use Rattle.std.specs.Prelude.{◌≡◌};
ghost use Rattle.time_cuts.specs.declared.error.CutError.TheVariants.{Memory};

use std::alloc::{AllocError, AllocFailed};
use std::error::Error;
use std::fmt;

/// Why no cuts are made.
#[derive(Clone, Copy, Debug, PartialEq, Eq, Drop)]
pub enum CutError {
    /// No memory is left.
    Memory,
    /// One slot alone is beyond the limits.
    Slot,
}

impl fmt::Display for CutError {
    fn fmt<W: fmt::Write>(&self, f: &mut fmt::Formatter<W>) -> fmt::Result {
        let text = match self {
            CutError::Memory => "no memory",
            CutError::Slot => "one moment alone is more than an output may have",
        };
        write!(f, "{text}")
    }
}

impl Error for CutError {}

impl From<AllocError> for CutError {
    ghost from_gives = { λ _ e. e ≡ Memory };

    fn from(_error: AllocError) -> CutError {
        CutError::Memory
    }
}

impl<T: Drop> From<AllocFailed<T>> for CutError {
    ghost from_gives = { λ _ e. e ≡ Memory };

    fn from(_error: AllocFailed<T>) -> CutError {
        CutError::Memory
    }
}
