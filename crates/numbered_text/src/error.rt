//! Why a content by number stands for no text.

ghost use Rattle.std.specs.Prelude.{◌≡◌};
ghost use Rattle.numbered_text.specs.declared.error.NumberError.TheVariants.{Memory};

use std::alloc::{AllocError, AllocFailed};

/// Why a content by number stands for no text: the first fault from the front.
#[derive(Clone, Copy, Debug, PartialEq, Eq, Drop)]
pub enum NumberError {
    /// No memory is left.
    Memory,
    /// The bytes end within a field, or a number is not spelled in its one way.
    Field,
    /// A time is out of range.
    Bounds,
    /// Bytes follow the batch.
    Rest,
    /// A number that no label set has, nor gets here.
    Number,
    /// A label set is given a number that has one.
    Named,
}

impl From<AllocError> for NumberError {
    ghost from_gives = { λ _ e. e ≡ Memory };

    fn from(_error: AllocError) -> NumberError {
        NumberError::Memory
    }
}

impl<T: Drop> From<AllocFailed<T>> for NumberError {
    ghost from_gives = { λ _ e. e ≡ Memory };

    fn from(_error: AllocFailed<T>) -> NumberError {
        NumberError::Memory
    }
}
