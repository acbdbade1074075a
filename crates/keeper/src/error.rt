//! Why events are not kept.

ghost use Rattle.std.specs.Prelude.{◌≡◌};
ghost use Rattle.keeper.specs.declared.error.KeepError.TheVariants.{Memory};
ghost use Rattle.keeper.specs.Errors.{keep_error};

use journal::JournalError;
use std::alloc::{AllocError, AllocFailed};

/// Why events are not kept.
#[derive(Clone, Copy, Debug, PartialEq, Eq, Drop)]
pub enum KeepError {
    /// No memory is left.
    Memory,
    /// The text of an event, or what is saved, is too long to be kept.
    TooLong,
    /// The events could not be written.
    Failed,
    /// Writing failed before in a way that leaves unknown what was written: nothing more is kept.
    Closed,
}

impl From<AllocError> for KeepError {
    ghost from_gives = { λ _ e. e ≡ Memory };

    fn from(_error: AllocError) -> KeepError {
        KeepError::Memory
    }
}

impl<T: Drop> From<AllocFailed<T>> for KeepError {
    ghost from_gives = { λ _ e. e ≡ Memory };

    fn from(_error: AllocFailed<T>) -> KeepError {
        KeepError::Memory
    }
}

/// Why events are not kept, by why their journal does not take them.
pub fn keep_error(error: JournalError) -> KeepError
    ensures { result ≡ keep_error error }
{
    match error {
        JournalError::Memory => KeepError::Memory,
        JournalError::Size => KeepError::TooLong,
        JournalError::Closed => KeepError::Closed,
        JournalError::Magic
        | JournalError::Version
        | JournalError::Checksum(_)
        | JournalError::Length(_)
        | JournalError::Medium => KeepError::Failed,
    }
}
