//! Why no series is read.

ghost use Rattle.std.specs.Prelude.{◌≡◌};
ghost use Rattle.asked_series.specs.declared.error.SeriesError.TheVariants.{Memory};

use std::alloc::{AllocError, AllocFailed};
use std::error::Error;
use std::fmt;

/// Why a text is not read as a series.
#[derive(Clone, Copy, Debug, PartialEq, Eq, Drop)]
pub enum SeriesError {
    /// The text is no series.
    NoSeries,
    /// No memory: nothing is said of the text.
    Memory,
}

impl From<AllocError> for SeriesError {
    ghost from_gives = { λ _ e. e ≡ Memory };

    fn from(_: AllocError) -> SeriesError {
        SeriesError::Memory
    }
}

impl<T: Drop> From<AllocFailed<T>> for SeriesError {
    ghost from_gives = { λ _ e. e ≡ Memory };

    fn from(_: AllocFailed<T>) -> SeriesError {
        SeriesError::Memory
    }
}

impl fmt::Display for SeriesError {
    ghost use Rattle.std.specs.Prelude.{Some};
    ghost use Rattle.asked_series.specs.Errors.{series_error_text};

    ghost output = { λ error. Some (series_error_text error) };

    fn fmt<W: fmt::Write>(&self, f: &mut fmt::Formatter<W>) -> fmt::Result {
        match self {
            SeriesError::NoSeries => write!(f, "no series"),
            SeriesError::Memory => write!(f, "no memory"),
        }
    }
}

impl Error for SeriesError {}
