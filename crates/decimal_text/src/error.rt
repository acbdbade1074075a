//! Why a text is no number of parts.

ghost use Rattle.std.specs.Prelude.{◌≡◌};

use std::error::Error;
use std::fmt;

/// The first check that failed.
#[derive(Clone, Copy, Debug, PartialEq, Eq, Drop)]
pub enum DecimalError {
    /// `V1`: the text is not digits, perhaps with a point before, among or behind them.
    Form,
    /// `V2`: it has a digit other than 0 beyond the parts.
    Finer,
    /// `V3`: it is 2^63 parts or more.
    Large,
}

impl DecimalError {
    ghost use Rattle.decimal_text.specs.Codes.{code_of};

    /// The refusal's number, as it is printed.
    pub fn code(self) -> &'static str
        ensures { result.now ≡ code_of self }
    {
        match self {
            DecimalError::Form => "V1",
            DecimalError::Finer => "V2",
            DecimalError::Large => "V3",
        }
    }
}

impl fmt::Display for DecimalError {
    ghost use Rattle.std.specs.Prelude.{Some};
    ghost use Rattle.decimal_text.specs.Codes.{text_of};

    ghost output = { λ error. Some (text_of error) };

    fn fmt<W: fmt::Write>(&self, f: &mut fmt::Formatter<W>) -> fmt::Result {
        let text = match self {
            DecimalError::Form => "V1: a number is not digits, perhaps with a point",
            DecimalError::Finer => "V2: a number has more digits after its point than are kept",
            DecimalError::Large => "V3: a number is 2^63 or more in the parts that are kept",
        };
        write!(f, "{text}")
    }
}

impl Error for DecimalError {}
