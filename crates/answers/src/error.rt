//! Why a store gives no answer.

ghost use Rattle.std.specs.Prelude.{◌≡◌};
ghost use Rattle.answers.specs.Refusals.{ask_code};

use snapshots::SnapshotError;
use std::alloc::AllocError;
use std::error::Error;
use std::fmt;

/// Why a question to a store has no answer.
#[derive(Clone, Copy, Debug, PartialEq, Eq, Drop)]
pub enum AskError {
    /// `S1`: the pass has no snapshot.
    Snapshot(SnapshotError),
    /// There is no memory.
    Memory,
}

impl AskError {
    /// The number of the refusal, or `memory`.
    pub fn code(self) -> &'static str
        ensures { result.now ≡ ask_code self }
    {
        match self {
            AskError::Snapshot(error) => error.code(),
            AskError::Memory => "memory",
        }
    }
}

impl fmt::Display for AskError {
    ghost use Rattle.std.specs.Prelude.{Some};
    ghost use Rattle.answers.specs.Refusals.{ask_text};

    ghost output = { λ error. Some (ask_text error) };

    fn fmt<W: fmt::Write>(&self, f: &mut fmt::Formatter<W>) -> fmt::Result {
        match self {
            AskError::Snapshot(error) => write!(f, "{error}"),
            AskError::Memory => write!(f, "no memory"),
        }
    }
}

impl Error for AskError {}

impl From<SnapshotError> for AskError {
    ghost use Rattle.std.specs.Prelude.{◌≡◌};
    ghost use Rattle.answers.specs.declared.error.AskError.TheVariants.{Snapshot};

    ghost from_gives = { λ error refused. refused ≡ Snapshot error };

    fn from(error: SnapshotError) -> AskError {
        AskError::Snapshot(error)
    }
}

impl From<AllocError> for AskError {
    ghost use Rattle.std.specs.Prelude.{◌≡◌};
    ghost use Rattle.answers.specs.declared.error.AskError.TheVariants.{Memory};

    ghost from_gives = { λ _ refused. refused ≡ Memory };

    fn from(_: AllocError) -> AskError {
        AskError::Memory
    }
}
