//! Why a query string asks for no page.

ghost use Rattle.std.specs.Prelude.{◌≡◌, option_map};
ghost use Rattle.page_requests.specs.Refusals.{code_of, cause_of};

use matchers::SelectorError;
use std::error::Error;
use std::fmt;

/// Why a query string asks for no page. Several may hold: the first in this order is told.
#[derive(Clone, Copy, Debug, PartialEq, Eq, Drop)]
pub enum Refusal {
    /// `H5`: it is not of the form, or its range has no time.
    BadQuery,
    /// `H6`: the selector is refused.
    BadSelector(SelectorError),
    /// `G16`: what is asked about is no series.
    NoSeries,
}

impl Refusal {
    /// The number of the refusal.
    pub fn code(&self) -> &'static str
        ensures { result.now ≡ code_of self.now }
    {
        match self {
            Refusal::BadQuery => "H5",
            Refusal::BadSelector(_) => "H6",
            Refusal::NoSeries => "G16",
        }
    }

    /// The number of the refusal behind `H6`.
    pub fn cause(&self) -> Option<&'static str>
        ensures { option_map (λ code. code.now) result ≡ cause_of self.now }
    {
        match self {
            Refusal::BadSelector(error) => Some(error.code()),
            Refusal::BadQuery | Refusal::NoSeries => None,
        }
    }
}

impl fmt::Display for Refusal {
    ghost use Rattle.std.specs.Prelude.{Some};
    ghost use Rattle.page_requests.specs.Refusals.{refusal_message};

    ghost output = { λ refusal. Some (refusal_message refusal) };

    fn fmt<W: fmt::Write>(&self, f: &mut fmt::Formatter<W>) -> fmt::Result {
        match self {
            Refusal::BadQuery => write!(f, "H5: the query string is not of the path's form"),
            Refusal::BadSelector(error) => write!(f, "H6: the selector is refused: {error}"),
            Refusal::NoSeries => write!(f, "G16: what is asked about is no series"),
        }
    }
}

impl Error for Refusal {}
