//! Why a store is not opened, a snapshot is not had, or blocks are not joined.

ghost use Rattle.std.specs.Prelude.{◌≡◌};
ghost use Rattle.snapshots.specs.Refusals.{join_code, join_refusal, open_code, snapshot_code};

use head::CommitError;
use std::error::Error;
use std::fmt;

/// Why a store is not opened.
#[derive(Clone, Copy, Debug, PartialEq, Eq, Drop)]
pub enum OpenError {
    /// `O2`: the passes or the seats are not 1 to 64.
    BadPasses,
    /// `O3`: there are more than 63 blocks.
    Limit,
    /// `O4`: there is no room for another reader.
    Unavailable,
    /// No memory.
    Memory,
}

impl OpenError {
    /// The number of the refusal, or `memory`.
    pub fn code(self) -> &'static str
        ensures { result.now ≡ open_code self }
    {
        match self {
            OpenError::BadPasses => "O2",
            OpenError::Limit => "O3",
            OpenError::Unavailable => "O4",
            OpenError::Memory => "memory",
        }
    }
}

impl fmt::Display for OpenError {
    ghost use Rattle.std.specs.Prelude.{Some};
    ghost use Rattle.snapshots.specs.Refusals.{open_text};

    ghost output = { λ error. Some (open_text error) };

    fn fmt<W: fmt::Write>(&self, f: &mut fmt::Formatter<W>) -> fmt::Result {
        let text = match self {
            OpenError::BadPasses => "O2: a store has 1 to 64 passes and 1 to 64 seats",
            OpenError::Limit => "O3: a store is opened with at most 63 blocks",
            OpenError::Unavailable => "O4: there is no room for another reader",
            OpenError::Memory => "no memory",
        };
        write!(f, "{text}")
    }
}

impl Error for OpenError {}

/// Why a pass has no snapshot.
#[derive(Clone, Copy, Debug, PartialEq, Eq, Drop)]
pub enum SnapshotError {
    /// `S1`: the published version is not available.
    Unavailable,
}

impl SnapshotError {
    /// The number of the refusal.
    pub fn code(self) -> &'static str
        ensures { result.now ≡ snapshot_code self }
    {
        match self {
            SnapshotError::Unavailable => "S1",
        }
    }
}

impl fmt::Display for SnapshotError {
    ghost use Rattle.std.specs.Prelude.{Some};
    ghost use Rattle.snapshots.specs.Refusals.{snapshot_text};

    ghost output = { λ error. Some (snapshot_text error) };

    fn fmt<W: fmt::Write>(&self, f: &mut fmt::Formatter<W>) -> fmt::Result {
        match self {
            SnapshotError::Unavailable => {
                write!(f, "S1: the published version is not available")
            }
        }
    }
}

impl Error for SnapshotError {}

/// Why blocks are not joined.
#[derive(Clone, Copy, Debug, PartialEq, Eq, Drop)]
pub enum JoinError {
    /// `E9`: the blocks at the place are not the ones that are to be joined, or one of those that
    /// are to take it ends above the floor.
    Stale,
    /// `E7`: the seat is none of the store's.
    Seat,
    /// `E8`: the journal did not take the event.
    Journal,
    /// No memory.
    Memory,
}

impl JoinError {
    /// The refusal of a join, where the store's is this one, which is none of a sample or a cut.
    pub(crate) fn of(error: CommitError) -> JoinError
        ensures { result ≡ join_refusal error }
    {
        match error {
            CommitError::Seat => JoinError::Seat,
            CommitError::Journal => JoinError::Journal,
            _ => JoinError::Memory,
        }
    }

    /// The number of the refusal, or `memory`.
    pub fn code(self) -> &'static str
        ensures { result.now ≡ join_code self }
    {
        match self {
            JoinError::Stale => "E9",
            JoinError::Seat => "E7",
            JoinError::Journal => "E8",
            JoinError::Memory => "memory",
        }
    }
}

impl fmt::Display for JoinError {
    ghost use Rattle.std.specs.Prelude.{Some};
    ghost use Rattle.snapshots.specs.Refusals.{join_text};

    ghost output = { λ error. Some (join_text error) };

    fn fmt<W: fmt::Write>(&self, f: &mut fmt::Formatter<W>) -> fmt::Result {
        let text = match self {
            JoinError::Stale => "E9: the blocks that are joined are not the store's",
            JoinError::Seat => "E7: the seat is none of the store's",
            JoinError::Journal => "E8: the journal did not take the event",
            JoinError::Memory => "no memory",
        };
        write!(f, "{text}")
    }
}

impl Error for JoinError {}
