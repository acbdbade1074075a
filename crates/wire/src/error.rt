//! Why a read is refused.

ghost use Rattle.std.specs.Prelude.{◌≡◌};

use std::error::Error;
use std::fmt;

/// Why no value could be read.
#[derive(Clone, Copy, Debug, PartialEq, Eq, Drop)]
pub enum WireError {
    /// `W1`: too few bytes are left.
    Short,
    /// `W2`: the number has a shorter spelling.
    LongForm,
    /// `W3`: the number is above 2^64 - 1.
    TooBig,
}

impl WireError {
    ghost use Rattle.wire.specs.Codes.{code_of};

    /// The refusal's number, as it is printed.
    pub fn code(self) -> &'static str
        ensures { result.now ≡ code_of self }
    {
        match self {
            WireError::Short => "W1",
            WireError::LongForm => "W2",
            WireError::TooBig => "W3",
        }
    }
}

impl fmt::Display for WireError {
    ghost use Rattle.std.specs.Prelude.{Some};
    ghost use Rattle.wire.specs.Codes.{text_of};

    ghost output = { λ error. Some (text_of error) };

    fn fmt<W: fmt::Write>(&self, f: &mut fmt::Formatter<W>) -> fmt::Result {
        let text = match self {
            WireError::Short => "W1: too few bytes are left",
            WireError::LongForm => "W2: the number has a shorter spelling",
            WireError::TooBig => "W3: the number is above 2^64 - 1",
        };
        write!(f, "{text}")
    }
}

impl Error for WireError {}
