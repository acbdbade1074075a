//! Why a content is read as no event.

ghost use Rattle.std.specs.Prelude.{◌≡◌};

use event_text::EventError;
use std::error::Error;
use std::fmt;

/// Why a content is read as no event.
#[derive(Clone, Copy, Debug, PartialEq, Eq, Drop)]
pub enum ContentError {
    /// `J8` to `J14`, or that no memory was left: what it spells is no event.
    Event(EventError),
    /// `J19`: it names a series by a number that none has.
    Number,
    /// `J20`: it names a series that has a number.
    Named,
}

impl ContentError {
    ghost use Rattle.event_journal.specs.Codes.{content_code};

    /// The refusal's number, as it is printed, or `memory`.
    pub fn code(self) -> &'static str
        ensures { result.now ≡ content_code self }
    {
        match self {
            ContentError::Event(error) => error.code(),
            ContentError::Number => "J19",
            ContentError::Named => "J20",
        }
    }
}

impl fmt::Display for ContentError {
    ghost use Rattle.std.specs.Prelude.{Some};
    ghost use Rattle.event_journal.specs.Codes.{content_text};

    ghost output = { λ error. Some (content_text error) };

    fn fmt<W: fmt::Write>(&self, f: &mut fmt::Formatter<W>) -> fmt::Result {
        match self {
            ContentError::Event(error) => write!(f, "{error}"),
            ContentError::Number => {
                write!(f, "J19: a record names a series by a number that none has")
            }
            ContentError::Named => { write!(f, "J20: a record names a series that has a number") }
        }
    }
}

impl Error for ContentError {}
