//! Why pairs make no label set.

ghost use Rattle.std.specs.Prelude.{◌≡◌};
ghost use Rattle.labels.specs.declared.error.LabelError.TheVariants.{Memory};
ghost use Rattle.labels.specs.Errors.{code_of};

use std::alloc::AllocError;
use std::error::Error;
use std::fmt;

/// Why pairs make no label set.
#[derive(Clone, Copy, Debug, PartialEq, Eq, Drop)]
pub enum LabelError {
    /// `L1`: a name is no label name.
    BadName,
    /// `L2`: a name stands twice.
    Repeated,
    /// `L3`: more than 64 pairs have a value.
    Limit,
    /// No memory.
    Memory,
}

impl LabelError {
    /// The number of the refusal, or `memory`.
    pub fn code(self) -> &'static str
        ensures { result.now ≡ code_of self }
    {
        match self {
            LabelError::BadName => "L1",
            LabelError::Repeated => "L2",
            LabelError::Limit => "L3",
            LabelError::Memory => "memory",
        }
    }
}

impl fmt::Display for LabelError {
    ghost use Rattle.std.specs.Prelude.{Some};
    ghost use Rattle.labels.specs.Errors.{text_of};

    ghost output = { λ error. Some (text_of error) };

    fn fmt<W: fmt::Write>(&self, f: &mut fmt::Formatter<W>) -> fmt::Result {
        let text = match self {
            LabelError::BadName => "L1: a label name has the form [a-zA-Z_][a-zA-Z0-9_]*",
            LabelError::Repeated => "L2: a label name stands twice",
            LabelError::Limit => "L3: a label set has at most 64 labels",
            LabelError::Memory => "no memory",
        };
        write!(f, "{text}")
    }
}

impl Error for LabelError {}

impl From<AllocError> for LabelError {
    ghost from_gives = { λ _ e. e ≡ Memory };

    fn from(_error: AllocError) -> LabelError {
        LabelError::Memory
    }
}
