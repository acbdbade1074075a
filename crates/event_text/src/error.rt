//! Why bytes are not read as an event.

ghost use Rattle.std.specs.Prelude.{◌≡◌};
ghost use Rattle.event_text.specs.declared.error.TextError.TheVariants.{Memory};
ghost use Rattle.event_text.specs.declared.error.EventError.TheVariants.{Text};

use matchers::MatcherError;
use std::alloc::{AllocError, AllocFailed};
use std::error::Error;
use std::fmt;

/// Why bytes spell no event: the first fault from the front.
#[derive(Clone, Copy, Debug, PartialEq, Eq, Drop)]
pub enum TextError {
    /// No memory is left.
    Memory,
    /// `J8`: the first byte is missing, or no kind of event.
    Kind,
    /// `J9`: the bytes end within a field, a number is not spelled in its one way, a text is no
    /// UTF-8, or an operator of a matcher is none.
    Field,
    /// `J10`: pairs are no label set in its order.
    Labels,
    /// `J11`: a run has no sample, or the label set of the run before it.
    Runs,
    /// `J12`: the event is outside its bounds: more than 4,096 samples or 16 matchers, a number
    /// that is no time, or a range that ends before it begins.
    Bounds,
    /// `J13`: bytes follow the event.
    Rest,
}

/// Why bytes are not read as an event.
#[derive(Clone, Copy, Debug, PartialEq, Eq, Drop)]
pub enum EventError {
    /// `J8` to `J13`: the bytes spell no event.
    Text(TextError),
    /// `J14`: they spell a deletion, one of whose matchers is refused, for this cause.
    Matcher(MatcherError),
}

impl TextError {
    ghost use Rattle.event_text.specs.Codes.{code_of};

    /// The refusal's number, as it is printed, or `memory`.
    pub fn code(self) -> &'static str
        ensures { result.now ≡ code_of self }
    {
        match self {
            TextError::Memory => "memory",
            TextError::Kind => "J8",
            TextError::Field => "J9",
            TextError::Labels => "J10",
            TextError::Runs => "J11",
            TextError::Bounds => "J12",
            TextError::Rest => "J13",
        }
    }
}

impl EventError {
    ghost use Rattle.event_text.specs.Codes.{event_code};

    /// The refusal's number, as it is printed, or `memory`.
    pub fn code(self) -> &'static str
        ensures { result.now ≡ event_code self }
    {
        match self {
            EventError::Text(error) => error.code(),
            EventError::Matcher(_) => "J14",
        }
    }
}

impl fmt::Display for TextError {
    ghost use Rattle.std.specs.Prelude.{Some};
    ghost use Rattle.event_text.specs.Codes.{text_of};

    ghost output = { λ error. Some (text_of error) };

    fn fmt<W: fmt::Write>(&self, f: &mut fmt::Formatter<W>) -> fmt::Result {
        let text = match self {
            TextError::Memory => "no memory",
            TextError::Kind => "J8: a record begins with no kind of event",
            TextError::Field => "J9: a record ends within a field, or a field is not well formed",
            TextError::Labels => "J10: the labels of a record are no label set",
            TextError::Runs => {
                "J11: a run of a record is empty, or goes on with the label set before it"
            }
            TextError::Bounds => "J12: the event of a record is outside its bounds",
            TextError::Rest => "J13: bytes follow the event of a record",
        };
        write!(f, "{text}")
    }
}

impl fmt::Display for EventError {
    ghost use Rattle.std.specs.Prelude.{Some};
    ghost use Rattle.event_text.specs.Codes.{event_text};

    ghost output = { λ error. Some (event_text error) };

    fn fmt<W: fmt::Write>(&self, f: &mut fmt::Formatter<W>) -> fmt::Result {
        match self {
            EventError::Text(error) => write!(f, "{error}"),
            EventError::Matcher(error) => {
                write!(f, "J14: a matcher of a record is refused: {error}")
            }
        }
    }
}

impl Error for TextError {}

impl Error for EventError {}

impl From<TextError> for EventError {
    ghost from_gives = { λ error e. e ≡ Text error };

    fn from(error: TextError) -> EventError {
        EventError::Text(error)
    }
}

impl From<AllocError> for TextError {
    ghost from_gives = { λ _ e. e ≡ Memory };

    fn from(_error: AllocError) -> TextError {
        TextError::Memory
    }
}

impl<T: Drop> From<AllocFailed<T>> for TextError {
    ghost from_gives = { λ _ e. e ≡ Memory };

    fn from(_error: AllocFailed<T>) -> TextError {
        TextError::Memory
    }
}

impl From<AllocError> for EventError {
    ghost from_gives = { λ _ e. e ≡ Text Memory };

    fn from(_error: AllocError) -> EventError {
        EventError::Text(TextError::Memory)
    }
}

impl<T: Drop> From<AllocFailed<T>> for EventError {
    ghost from_gives = { λ _ e. e ≡ Text Memory };

    fn from(_error: AllocFailed<T>) -> EventError {
        EventError::Text(TextError::Memory)
    }
}
