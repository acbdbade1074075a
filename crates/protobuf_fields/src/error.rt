//! What is wrong with a message.

ghost use Rattle.std.specs.Prelude.{◌≡◌};

use std::error::Error;
use std::fmt;

/// The first fault of a message.
#[derive(Clone, Copy, Debug, PartialEq, Eq, Drop)]
pub enum Fault {
    /// `U1`: the bytes end within a field.
    Short,
    /// `U2`: a number is above 2^64 - 1, or longer than ten bytes.
    TooBig,
    /// `U3`: a field's number is 0 or above 2^29 - 1.
    Key,
    /// `U4`: a field is of a kind that is no longer used (a group, 3 and 4), or of none (6, 7).
    Kind,
    /// `U5`: a field that the message has is of another kind than the message says.
    Unexpected,
}

impl Fault {
    ghost use Rattle.protobuf_fields.specs.Codes.{code_of};

    /// The refusal's number, as it is printed.
    pub fn code(self) -> &'static str
        ensures { result.now ≡ code_of self }
    {
        match self {
            Fault::Short => "U1",
            Fault::TooBig => "U2",
            Fault::Key => "U3",
            Fault::Kind => "U4",
            Fault::Unexpected => "U5",
        }
    }
}

impl fmt::Display for Fault {
    ghost use Rattle.std.specs.Prelude.{Some};
    ghost use Rattle.protobuf_fields.specs.Codes.{text_of};

    ghost output = { λ fault. Some (text_of fault) };

    fn fmt<W: fmt::Write>(&self, f: &mut fmt::Formatter<W>) -> fmt::Result {
        let text = match self {
            Fault::Short => "U1: the bytes end within a field",
            Fault::TooBig => "U2: a number is above 2^64 - 1",
            Fault::Key => "U3: a field's number is 0 or above 2^29 - 1",
            Fault::Kind => "U4: a field is of a kind that is not read",
            Fault::Unexpected => "U5: a field is of another kind than the message says",
        };
        write!(f, "{text}")
    }
}

impl Error for Fault {}
