//! Why a file is not read as the journal of a store.

ghost use Rattle.std.specs.Prelude.{◌≡◌};
ghost use Rattle.kept_walk.specs.declared.error.KeptError.TheVariants.{Memory};

use journal::JournalError;
use std::alloc::{AllocError, AllocFailed};
use std::error::Error;
use std::fmt;

/// Why a file is not read as the journal of a store: the first fault.
#[derive(Clone, Copy, Debug, PartialEq, Eq, Drop)]
pub enum KeptError {
    /// No memory is left.
    Memory,
    /// `J1` to `J4`: its records are refused.
    Journal(JournalError),
    /// `K1`: it begins with no event, and no head stands in front.
    Head,
    /// `K2`: behind the head and this many events stands no event.
    Change(usize),
    /// `K2`: behind the head and this many events stands a deletion, one of whose matchers is
    /// refused.
    Matcher(usize),
}

impl KeptError {
    ghost use Rattle.kept_walk.specs.Codes.{code_of};

    /// The refusal's number, as it is printed, or `memory`.
    pub fn code(self) -> &'static str
        ensures { result.now ≡ code_of self }
    {
        match self {
            KeptError::Memory => "memory",
            KeptError::Journal(error) => error.code(),
            KeptError::Head => "K1",
            KeptError::Change(_) | KeptError::Matcher(_) => "K2",
        }
    }
}

impl fmt::Display for KeptError {
    ghost use Rattle.std.specs.Prelude.{Some};
    ghost use Rattle.kept_walk.specs.Codes.{text_of};

    ghost output = { λ error. Some (text_of error) };

    fn fmt<W: fmt::Write>(&self, f: &mut fmt::Formatter<W>) -> fmt::Result {
        match self {
            KeptError::Memory => write!(f, "no memory"),
            KeptError::Journal(error) => write!(f, "{error}"),
            KeptError::Head => write!(f, "K1: the journal begins with no head and no event"),
            KeptError::Change(at) => write!(f, "K2: what stands behind {at} events is none"),
            KeptError::Matcher(at) => {
                write!(
                    f,
                    "K2: a matcher of the deletion behind {at} events is refused"
                )
            }
        }
    }
}

impl Error for KeptError {}

impl From<AllocError> for KeptError {
    ghost from_gives = { λ _ e. e ≡ Memory };

    fn from(_error: AllocError) -> KeptError {
        KeptError::Memory
    }
}

impl<T: Drop> From<AllocFailed<T>> for KeptError {
    ghost from_gives = { λ _ e. e ≡ Memory };

    fn from(_error: AllocFailed<T>) -> KeptError {
        KeptError::Memory
    }
}
