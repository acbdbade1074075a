//! Why the data of a chunk is refused.

ghost use Rattle.std.specs.Prelude.{◌≡◌};

use std::alloc::{AllocError, AllocFailed};
use std::error::Error;
use std::fmt;
use wire::WireError;

/// The first check that failed, or want of memory.
#[derive(Clone, Copy, Debug, PartialEq, Eq)]
pub enum XorError {
    /// No memory is left.
    Memory,
    /// `X1`: the data ends before the last sample does.
    Short,
    /// `X2`: the count of samples is 0.
    Empty,
    /// `X3`: the first time, or the step to the second, has a longer spelling than it needs, or
    /// more than 64 bits.
    Number,
    /// `X4`: a time is not above the one before it.
    NotAscending,
    /// `X5`: a time is outside [`MIN_TIME`](labels::MIN_TIME) to [`MAX_TIME`](labels::MAX_TIME).
    OutOfRange,
    /// `X6`: the window of a value ends beyond its 64 bits.
    Window,
    /// `X7`: what follows the last sample is not up to eight bits of 0.
    Trailing,
}

impl XorError {
    ghost use Rattle.xor_reader.specs.Codes.{code_of};

    /// The refusal's number, as it is printed.
    pub fn code(self) -> &'static str
        ensures { result.now ≡ code_of self }
    {
        match self {
            XorError::Memory => "memory",
            XorError::Short => "X1",
            XorError::Empty => "X2",
            XorError::Number => "X3",
            XorError::NotAscending => "X4",
            XorError::OutOfRange => "X5",
            XorError::Window => "X6",
            XorError::Trailing => "X7",
        }
    }
}

impl fmt::Display for XorError {
    ghost use Rattle.std.specs.Prelude.{Some};
    ghost use Rattle.xor_reader.specs.Codes.{text_of};

    ghost output = { λ error. Some (text_of error) };

    fn fmt<W: fmt::Write>(&self, f: &mut fmt::Formatter<W>) -> fmt::Result {
        let text = match self {
            XorError::Memory => "no memory",
            XorError::Short => "X1: a chunk ends before its last sample does",
            XorError::Empty => "X2: a chunk counts no sample",
            XorError::Number => "X3: a chunk spells a number longer than it needs to be",
            XorError::NotAscending => "X4: the times of a chunk do not ascend",
            XorError::OutOfRange => "X5: a time of a chunk is outside -2^62 to 2^62 - 1",
            XorError::Window => "X6: the window of a value ends beyond its 64 bits",
            XorError::Trailing => "X7: a chunk goes on after its last sample",
        };
        write!(f, "{text}")
    }
}

impl Error for XorError {}

impl From<AllocError> for XorError {
    ghost use Rattle.xor_reader.specs.declared.error.XorError.TheVariants.{Memory};

    ghost from_gives = { λ _ e. e ≡ Memory };

    fn from(_error: AllocError) -> XorError {
        XorError::Memory
    }
}

impl<T: Drop> From<AllocFailed<T>> for XorError {
    ghost use Rattle.xor_reader.specs.declared.error.XorError.TheVariants.{Memory};

    ghost from_gives = { λ _ e. e ≡ Memory };

    fn from(_error: AllocFailed<T>) -> XorError {
        XorError::Memory
    }
}

impl From<WireError> for XorError {
    ghost use Rattle.xor_reader.specs.Outcome.{refusal_of};

    ghost from_gives = { λ w e. e ≡ refusal_of w };

    fn from(error: WireError) -> XorError {
        match error {
            WireError::Short => XorError::Short,
            WireError::LongForm | WireError::TooBig => XorError::Number,
        }
    }
}
