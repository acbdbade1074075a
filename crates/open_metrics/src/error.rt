//! Why a line is refused.

ghost use Rattle.std.specs.Prelude.{◌≡◌};
ghost use Rattle.open_metrics.specs.declared.error.Fault.TheVariants.{Memory};

use std::alloc::{AllocError, AllocFailed};
use std::fmt;

/// What is wrong at a place of a line.
#[derive(Clone, Copy, Debug, PartialEq, Eq, Drop)]
pub enum Reason {
    /// `P1`: a line of OpenMetrics is empty, or is a comment other than HELP, TYPE, UNIT and EOF.
    Comment,
    /// `P2`: no name of a metric stands here.
    Name,
    /// `P3`: no type of a metric stands here.
    Kind,
    /// `P4`: no label stands here: its name, `=`, and what goes on or ends the labels.
    Label,
    /// `P5`: the text of a label does not begin, or the line ends before the text does.
    Text,
    /// `P6`: there are more than 64 labels.
    Many,
    /// `P7`: no value stands here.
    Value,
    /// `P8`: no time stands here, or none that is a whole number of milliseconds.
    Time,
    /// `P9`: something else stands after a sample.
    After,
}

impl Reason {
    ghost use Rattle.open_metrics.specs.Codes.{code_of};

    /// The refusal's number, as it is printed.
    pub fn code(self) -> &'static str
        ensures { result.now ≡ code_of self }
    {
        match self {
            Reason::Comment => "P1",
            Reason::Name => "P2",
            Reason::Kind => "P3",
            Reason::Label => "P4",
            Reason::Text => "P5",
            Reason::Many => "P6",
            Reason::Value => "P7",
            Reason::Time => "P8",
            Reason::After => "P9",
        }
    }
}

impl fmt::Display for Reason {
    ghost use Rattle.std.specs.Prelude.{Some};
    ghost use Rattle.open_metrics.specs.Codes.{text_of};

    ghost output = { λ reason. Some (text_of reason) };

    fn fmt<W: fmt::Write>(&self, f: &mut fmt::Formatter<W>) -> fmt::Result {
        let text = match self {
            Reason::Comment => "P1: a line is none of HELP, TYPE, UNIT, EOF and a sample",
            Reason::Name => "P2: no name of a metric stands here",
            Reason::Kind => "P3: no type of a metric stands here",
            Reason::Label => "P4: no label stands here",
            Reason::Text => "P5: no text of a label stands here",
            Reason::Many => "P6: a sample has more than 64 labels",
            Reason::Value => "P7: no value stands here",
            Reason::Time => "P8: no time in whole milliseconds stands here",
            Reason::After => "P9: something else stands after a sample",
        };
        write!(f, "{text}")
    }
}

/// The first fault of a line, or want of memory.
#[derive(Clone, Copy, Debug, PartialEq, Eq, Drop)]
pub enum Fault {
    /// No memory is left.
    Memory,
    /// What is wrong, and how many bytes of the line stand from there on.
    At(Reason, usize),
}

impl From<AllocError> for Fault {
    ghost from_gives = { λ _ e. e ≡ Memory };

    fn from(_error: AllocError) -> Fault {
        Fault::Memory
    }
}

impl<T: Drop> From<AllocFailed<T>> for Fault {
    ghost from_gives = { λ _ e. e ≡ Memory };

    fn from(_error: AllocFailed<T>) -> Fault {
        Fault::Memory
    }
}
