//! Why a sample or an event is refused.

ghost use Rattle.std.specs.Prelude.{◌≡◌};
ghost use Rattle.head.specs.Codes.{append_code, commit_code, replay_code, resume_code};
ghost use Rattle.head.specs.declared.error.CommitError.TheVariants.{Memory};
ghost use Rattle.head.specs.declared.error.ResumeError.TheVariants.{Memory as NoMemory};

use std::alloc::AllocError;
use std::error::Error;
use std::fmt;

/// Why a sample is not taken into a batch.
#[derive(Clone, Copy, Debug, PartialEq, Eq, Drop)]
pub enum AppendError {
    /// A1: the batch has as many samples as it may.
    Full,
    /// A2: the time is below -2^62 or above 2^62 - 1.
    TimeRange,
    /// No memory.
    Memory,
}

impl AppendError {
    /// The number of the refusal, or `memory`.
    pub fn code(self) -> &'static str
        ensures { result.now ≡ append_code self }
    {
        match self {
            AppendError::Full => "A1",
            AppendError::TimeRange => "A2",
            AppendError::Memory => "memory",
        }
    }
}

/// Why an event is refused. `at` is the number, from 0, of the first refused sample of the batch.
#[derive(Clone, Copy, Debug, PartialEq, Eq, Drop)]
pub enum CommitError {
    /// E1: the sample's time is below the floor.
    OutOfBounds { at: usize },
    /// E2: the sample is older than the newest one of its label set.
    OutOfOrder { at: usize },
    /// E3: the sample has the newest time of its label set, and another value.
    Duplicate { at: usize },
    /// E4: the head would have too many series, or one series too many samples, or a file of a
    /// cut's block would be too long.
    Limit,
    /// E5: the time of a cut is not above the floor.
    CutTooLow,
    /// E6: a cut would make one block too many.
    TooManyParts,
    /// E7: the seat is none of the store's.
    Seat,
    /// E8: the journal did not take the event.
    Journal,
    /// No memory.
    Memory,
}

impl CommitError {
    /// The number of the refusal, or `memory`.
    pub fn code(self) -> &'static str
        ensures { result.now ≡ commit_code self }
    {
        match self {
            CommitError::OutOfBounds { .. } => "E1",
            CommitError::OutOfOrder { .. } => "E2",
            CommitError::Duplicate { .. } => "E3",
            CommitError::Limit => "E4",
            CommitError::CutTooLow => "E5",
            CommitError::TooManyParts => "E6",
            CommitError::Seat => "E7",
            CommitError::Journal => "E8",
            CommitError::Memory => "memory",
        }
    }
}

/// Why no snapshot is made of what was saved.
#[derive(Clone, Copy, Debug, PartialEq, Eq, Drop)]
pub enum ResumeError {
    /// J17: no snapshot has these blocks, this floor and these series.
    Unsound,
    /// No memory.
    Memory,
}

impl ResumeError {
    /// The number of the refusal, or `memory`.
    pub fn code(self) -> &'static str
        ensures { result.now ≡ resume_code self }
    {
        match self {
            ResumeError::Unsound => "J17",
            ResumeError::Memory => "memory",
        }
    }
}

/// The first event of several that is refused, and why: `J18`, unless it is memory.
#[derive(Clone, Copy, Debug, PartialEq, Eq, Drop)]
pub struct RefusedEvent {
    /// How many events stand before it.
    pub at: usize,
    /// The refusal of its step.
    pub error: CommitError,
}

impl RefusedEvent {
    /// The number of the refusal, or `memory`.
    pub fn code(self) -> &'static str
        ensures { result.now ≡ replay_code self.error }
    {
        match self.error {
            CommitError::Memory => "memory",
            _ => "J18",
        }
    }
}

impl fmt::Display for AppendError {
    ghost use Rattle.std.specs.Prelude.{Some};
    ghost use Rattle.head.specs.Codes.{append_text};

    ghost output = { λ error. Some (append_text error) };

    fn fmt<W: fmt::Write>(&self, f: &mut fmt::Formatter<W>) -> fmt::Result {
        let text = match self {
            AppendError::Full => "A1: a batch has at most 4096 samples",
            AppendError::TimeRange => "A2: a time is from -2^62 to 2^62 - 1",
            AppendError::Memory => "no memory",
        };
        write!(f, "{text}")
    }
}

impl Error for AppendError {}

impl fmt::Display for CommitError {
    ghost use Rattle.std.specs.Prelude.{Some};
    ghost use Rattle.head.specs.Codes.{commit_text};

    ghost output = { λ error. Some (commit_text error) };

    fn fmt<W: fmt::Write>(&self, f: &mut fmt::Formatter<W>) -> fmt::Result {
        match self {
            CommitError::OutOfBounds { at } => write!(f, "E1: sample {at} is below the floor"),
            CommitError::OutOfOrder { at } => write!(
                f,
                "E2: sample {at} is older than the newest of its series"
            ),
            CommitError::Duplicate { at } => write!(
                f,
                "E3: sample {at} has the newest time of its series and another value"
            ),
            CommitError::Limit => write!(
                f,
                "E4: too many series, too many samples of one, or too large a block"
            ),
            CommitError::CutTooLow => write!(f, "E5: the time of the cut is not above the floor"),
            CommitError::TooManyParts => write!(f, "E6: there would be more than 63 blocks"),
            CommitError::Seat => write!(f, "E7: the seat is none of this store's"),
            CommitError::Journal => write!(f, "E8: the journal did not take the event"),
            CommitError::Memory => write!(f, "no memory"),
        }
    }
}

impl Error for CommitError {}

impl From<AllocError> for CommitError {
    ghost from_gives = { λ _ e. e ≡ Memory };

    fn from(_error: AllocError) -> CommitError {
        CommitError::Memory
    }
}

impl From<AllocError> for ResumeError {
    ghost from_gives = { λ _ e. e ≡ NoMemory };

    fn from(_error: AllocError) -> ResumeError {
        ResumeError::Memory
    }
}
