//! Why a matcher, a query or the text of a selector is refused.

ghost use Rattle.std.specs.Prelude.{◌≡◌};
ghost use Rattle.matchers.specs.Errors.{matcher_code, query_code, selector_code};

use std::alloc::{AllocError, AllocFailed};
use std::error::Error;
use std::fmt;

/// Why a matcher is refused; the first cause, in this order.
#[derive(Clone, Copy, Debug, PartialEq, Eq, Drop)]
pub enum MatcherError {
    /// `M1`: the name is not of the form `[a-zA-Z_][a-zA-Z0-9_]*`.
    BadName,
    /// `M3`: the pattern has more bytes than its limits allow, which are 256 as a rule.
    PatternTooLong,
    /// `M2`: `regex` does not build the pattern, or not between `^(?s:` and `)$`.
    PatternRefused,
    /// No memory.
    Memory,
}

impl MatcherError {
    /// The number of the refusal, or `memory`.
    pub fn code(self) -> &'static str
        ensures { result.now ≡ matcher_code self }
    {
        match self {
            MatcherError::BadName => "M1",
            MatcherError::PatternTooLong => "M3",
            MatcherError::PatternRefused => "M2",
            MatcherError::Memory => "memory",
        }
    }
}

impl fmt::Display for MatcherError {
    ghost use Rattle.std.specs.Prelude.{Some};
    ghost use Rattle.matchers.specs.Errors.{matcher_text};

    ghost output = { λ error. Some (matcher_text error) };

    fn fmt<W: fmt::Write>(&self, f: &mut fmt::Formatter<W>) -> fmt::Result {
        let text = match self {
            MatcherError::BadName => "M1: a label name has the form [a-zA-Z_][a-zA-Z0-9_]*",
            MatcherError::PatternTooLong => "M3: a pattern has at most 256 bytes",
            MatcherError::PatternRefused => {
                "M2: a pattern is no regular expression, or too big a one"
            }
            MatcherError::Memory => "no memory",
        };
        write!(f, "{text}")
    }
}

impl Error for MatcherError {}

impl From<AllocError> for MatcherError {
    ghost use Rattle.std.specs.Prelude.{◌≡◌};
    ghost use Rattle.matchers.specs.declared.error.MatcherError.TheVariants.{Memory};

    ghost from_gives = { λ _ e. e ≡ Memory };

    fn from(_: AllocError) -> MatcherError {
        MatcherError::Memory
    }
}

impl<T: Drop> From<AllocFailed<T>> for MatcherError {
    ghost use Rattle.std.specs.Prelude.{◌≡◌};
    ghost use Rattle.matchers.specs.declared.error.MatcherError.TheVariants.{Memory};

    ghost from_gives = { λ _ e. e ≡ Memory };

    fn from(_: AllocFailed<T>) -> MatcherError {
        MatcherError::Memory
    }
}

/// Why a query is refused; the first cause, in this order.
#[derive(Clone, Copy, Debug, PartialEq, Eq, Drop)]
pub enum QueryError {
    /// `Q1`: the range ends before it begins, or one of its ends is no time.
    BadRange,
    /// `Q2`: there are more than 16 matchers.
    TooManyMatchers,
}

impl QueryError {
    /// The number of the refusal.
    pub fn code(self) -> &'static str
        ensures { result.now ≡ query_code self }
    {
        match self {
            QueryError::BadRange => "Q1",
            QueryError::TooManyMatchers => "Q2",
        }
    }
}

impl fmt::Display for QueryError {
    ghost use Rattle.std.specs.Prelude.{Some};
    ghost use Rattle.matchers.specs.Errors.{query_text};

    ghost output = { λ error. Some (query_text error) };

    fn fmt<W: fmt::Write>(&self, f: &mut fmt::Formatter<W>) -> fmt::Result {
        let text = match self {
            QueryError::BadRange => {
                "Q1: the range ends before it begins, or one of its ends is no time"
            }
            QueryError::TooManyMatchers => "Q2: a query has at most 16 matchers",
        };
        write!(f, "{text}")
    }
}

impl Error for QueryError {}

/// Why the text of a selector is refused; the first cause, in this order.
#[derive(Clone, Copy, Debug, PartialEq, Eq, Drop)]
pub enum SelectorError {
    /// `M4`: the text is none of the language; `at` is the length in bytes of its longest prefix
    /// that also begins a selector.
    Syntax { at: usize },
    /// `M6`: there is no matcher.
    Empty,
    /// `M5`: there are more than 16 matchers.
    TooMany,
    /// `M3`: the pattern of the first matcher at fault has more than 256 bytes.
    PatternTooLong,
    /// `M2`: `regex` refuses the pattern of the first matcher at fault.
    PatternRefused,
    /// No memory.
    Memory,
}

impl SelectorError {
    /// The number of the refusal, or `memory`.
    pub fn code(self) -> &'static str
        ensures { result.now ≡ selector_code self }
    {
        match self {
            SelectorError::Syntax { at: _ } => "M4",
            SelectorError::Empty => "M6",
            SelectorError::TooMany => "M5",
            SelectorError::PatternTooLong => "M3",
            SelectorError::PatternRefused => "M2",
            SelectorError::Memory => "memory",
        }
    }
}

impl fmt::Display for SelectorError {
    ghost use Rattle.std.specs.Prelude.{Some};
    ghost use Rattle.matchers.specs.Errors.{selector_text};

    ghost output = { λ error. Some (selector_text error) };

    fn fmt<W: fmt::Write>(&self, f: &mut fmt::Formatter<W>) -> fmt::Result {
        match self {
            SelectorError::Syntax { at } => write!(
                f,
                "M4: the first {at} bytes may begin a selector, and no more of the text"
            ),
            SelectorError::Empty => write!(f, "M6: a selector has at least one matcher"),
            SelectorError::TooMany => write!(f, "M5: a selector has at most 16 matchers"),
            SelectorError::PatternTooLong => write!(f, "M3: a pattern has at most 256 bytes"),
            SelectorError::PatternRefused => write!(
                f,
                "M2: a pattern is no regular expression, or too big a one"
            ),
            SelectorError::Memory => write!(f, "no memory"),
        }
    }
}

impl Error for SelectorError {}

impl From<AllocError> for SelectorError {
    ghost use Rattle.std.specs.Prelude.{◌≡◌};
    ghost use Rattle.matchers.specs.declared.error.SelectorError.TheVariants.{Memory};

    ghost from_gives = { λ _ e. e ≡ Memory };

    fn from(_: AllocError) -> SelectorError {
        SelectorError::Memory
    }
}

impl<T: Drop> From<AllocFailed<T>> for SelectorError {
    ghost use Rattle.std.specs.Prelude.{◌≡◌};
    ghost use Rattle.matchers.specs.declared.error.SelectorError.TheVariants.{Memory};

    ghost from_gives = { λ _ e. e ≡ Memory };

    fn from(_: AllocFailed<T>) -> SelectorError {
        SelectorError::Memory
    }
}
