//! Why there is no page.

ghost use Rattle.std.specs.Prelude.{◌≡◌};
ghost use Rattle.answer_pages.specs.declared.error.PageError.TheVariants.{Memory};

use std::alloc::{AllocError, AllocFailed};
use std::error::Error;
use std::fmt;

/// Why there is no page of an answer.
#[derive(Clone, Copy, Debug, PartialEq, Eq, Drop)]
pub enum PageError {
    /// There is no memory, or the page would be too long.
    Memory,
    /// The text of the answer is not read back as a reply.
    Unread,
}

impl From<AllocError> for PageError {
    ghost from_gives = { λ _ e. e ≡ Memory };

    fn from(_: AllocError) -> PageError {
        PageError::Memory
    }
}

impl<T: Drop> From<AllocFailed<T>> for PageError {
    ghost from_gives = { λ _ e. e ≡ Memory };

    fn from(_: AllocFailed<T>) -> PageError {
        PageError::Memory
    }
}

impl fmt::Display for PageError {
    fn fmt<W: fmt::Write>(&self, f: &mut fmt::Formatter<W>) -> fmt::Result {
        match self {
            PageError::Memory => write!(f, "no memory"),
            PageError::Unread => write!(f, "the text of the answer is no reply"),
        }
    }
}

impl Error for PageError {}
