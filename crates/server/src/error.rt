//! Why a server ends before each worker has served its connections.

use std::alloc::{AllocError, AllocFailed};
use std::error::Error;
use std::fmt;

/// Why a server ends before each worker has served as many connections as were asked for.
#[derive(Clone, Copy, Debug, PartialEq, Eq, Drop)]
pub enum ServeError {
    /// There is no listener any more.
    NoListener,
    /// A thread cannot be made.
    NoThread,
    /// There is no memory.
    Memory,
}

impl fmt::Display for ServeError {
    ghost use Rattle.std.specs.Prelude.{Some};
    ghost use Rattle.server.specs.Faults.{serve_text};

    ghost output = { λ error. Some (serve_text error) };

    fn fmt<W: fmt::Write>(&self, f: &mut fmt::Formatter<W>) -> fmt::Result {
        let text = match self {
            ServeError::NoListener => "there is no listener any more",
            ServeError::NoThread => "cannot make a thread",
            ServeError::Memory => "no memory",
        };
        write!(f, "{text}")
    }
}

impl Error for ServeError {}

impl From<AllocError> for ServeError {
    ghost use Rattle.std.specs.Prelude.{◌≡◌};
    ghost use Rattle.server.specs.declared.error.ServeError.TheVariants.{Memory};

    ghost from_gives = { λ _ error. error ≡ Memory };

    fn from(_: AllocError) -> ServeError {
        ServeError::Memory
    }
}

impl<T: Drop> From<AllocFailed<T>> for ServeError {
    ghost use Rattle.std.specs.Prelude.{◌≡◌};
    ghost use Rattle.server.specs.declared.error.ServeError.TheVariants.{Memory};

    ghost from_gives = { λ _ error. error ≡ Memory };

    fn from(_: AllocFailed<T>) -> ServeError {
        ServeError::Memory
    }
}
