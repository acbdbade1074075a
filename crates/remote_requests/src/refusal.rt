//! Why a request is refused.

ghost use Rattle.std.specs.Prelude.{◌≡◌, option_map};
ghost use Rattle.remote_requests.specs.Refusals.{code_of, status_of, cause_of};
ghost use Rattle.remote_requests.specs.Refusals.{body_fault_code, query_fault_code, error_of};

use crate::Status;
use matchers::SelectorError;
use std::error::Error;
use std::fmt;

/// What is wrong with the bytes of a body.
#[derive(Clone, Copy, Debug, PartialEq, Eq, Drop)]
pub enum BodyFault {
    /// `Z1` to `Z7`: they are no stream of Snappy, or one of too long a text.
    Packed(snappy::Fault),
    /// `U1` to `U5`: the text is no message.
    Spelled(protobuf_fields::Fault),
}

impl BodyFault {
    /// The number of the fault.
    pub fn code(self) -> &'static str
        ensures { result.now ≡ body_fault_code self }
    {
        match self {
            BodyFault::Packed(fault) => fault.code(),
            BodyFault::Spelled(fault) => fault.code(),
        }
    }
}

/// What is wrong with a query, the first in this order: of its matchers in their order, the first
/// that cannot be made.
#[derive(Clone, Copy, Debug, PartialEq, Eq, Drop)]
pub enum QueryFault {
    /// `M5`: there are more than 64 matchers.
    TooMany,
    /// `M7`: the kind of a matcher is none of 0 to 3.
    Kind,
    /// `L4`: the name or the value is no UTF-8.
    BadText,
    /// `M1`: the name is not of the form `[a-zA-Z_][a-zA-Z0-9_]*`.
    BadName,
    /// `M3`: the pattern has more than 65,536 bytes, or more than 256 and is no choice of texts.
    PatternTooLong,
    /// `M2`: `regex` does not build the pattern.
    PatternRefused,
}

impl QueryFault {
    /// The number of the fault.
    pub fn code(self) -> &'static str
        ensures { result.now ≡ query_fault_code self }
    {
        match self {
            QueryFault::TooMany => "M5",
            QueryFault::Kind => "M7",
            QueryFault::BadText => "L4",
            QueryFault::BadName => "M1",
            QueryFault::PatternTooLong => "M3",
            QueryFault::PatternRefused => "M2",
        }
    }
}

/// Why a request is refused. Several may hold: the first in this order is answered. The last four
/// are of a store that was asked, and no bytes alone are refused by them.
#[derive(Clone, Copy, Debug, PartialEq, Eq, Drop)]
pub enum Refusal {
    /// `H1`: the bytes are no request head of at most 64 fields, or end within one.
    BadHead,
    /// `H2`: 8,192 bytes do not end the head.
    HeadTooLong,
    /// `H12`: the rules of the server do not admit the request: it comes from a page of a browser,
    /// does not name this machine, or is a write that bears no token.
    Guarded,
    /// `H3`: there is no such path, or it is that of writes where nothing changes the store.
    NoSuchPath,
    /// `H4`: the path takes another method.
    Method,
    /// `G1`: there is not exactly one `Content-Length` of decimal digits, or there is a
    /// `Transfer-Encoding`.
    NoLength,
    /// `G2`: the body has more than 16,777,216 bytes, or ends before its length.
    BadLength,
    /// `G3`: the only `Content-Encoding` is not `snappy`, or a form has one.
    Encoding,
    /// `G4`: the only `Content-Type` is not that of the path, or the version of the protocol does
    /// not begin with `0.1.`.
    Form,
    /// `G6`: the bytes of the body are refused.
    BadBody(BodyFault),
    /// `G7`: the body has more than 65,536 series, 65,536 samples and histograms, 1,048,576 labels
    /// or 64 queries, or a listing is asked for with more than 64 `match[]`.
    TooMany,
    /// `G8`: a query is refused.
    BadQuery(QueryFault),
    /// `G12`: the name in the path of a label's values is no label name.
    NoLabel,
    /// `G13`: label sets are asked for without a `match[]`.
    NoMatch,
    /// `G14`: the `start`, the `end` or the `limit` of a listing is not of its form.
    BadParameter,
    /// `G15`: the first `match[]` that cannot be made is refused.
    BadSelector(SelectorError),
    /// `H5`, `H6` or `G16`: the query string of a page is refused.
    BadPage(page_requests::Refusal),
    /// `G9`: a row of the answer has a `__name__` that names no metric.
    NoMetric,
    /// `G10`: the clock is before the day on which the program was made.
    ClockBehind,
    /// `H10`: the store lends no snapshot.
    Unavailable,
    /// `H11`: the store cannot keep the samples where they would outlast the program.
    NotKept,
}

impl Refusal {
    /// The number of the refusal.
    pub fn code(&self) -> &'static str
        ensures { result.now ≡ code_of self.now }
    {
        match self {
            Refusal::BadHead => "H1",
            Refusal::HeadTooLong => "H2",
            Refusal::Guarded => "H12",
            Refusal::NoSuchPath => "H3",
            Refusal::Method => "H4",
            Refusal::NoLength => "G1",
            Refusal::BadLength => "G2",
            Refusal::Encoding => "G3",
            Refusal::Form => "G4",
            Refusal::BadBody(_) => "G6",
            Refusal::TooMany => "G7",
            Refusal::BadQuery(_) => "G8",
            Refusal::NoLabel => "G12",
            Refusal::NoMatch => "G13",
            Refusal::BadParameter => "G14",
            Refusal::BadSelector(_) => "G15",
            Refusal::BadPage(refusal) => refusal.code(),
            Refusal::NoMetric => "G9",
            Refusal::ClockBehind => "G10",
            Refusal::Unavailable => "H10",
            Refusal::NotKept => "H11",
        }
    }

    /// The status of the reply.
    pub fn status(&self) -> Status
        ensures { result ≡ status_of self.now }
    {
        match self {
            Refusal::BadHead
            | Refusal::BadLength
            | Refusal::BadBody(_)
            | Refusal::TooMany
            | Refusal::BadQuery(_)
            | Refusal::NoLabel
            | Refusal::NoMatch
            | Refusal::BadParameter
            | Refusal::BadSelector(_)
            | Refusal::BadPage(_)
            | Refusal::NoMetric => Status::BadRequest,
            Refusal::HeadTooLong => Status::HeadTooLarge,
            Refusal::Guarded => Status::Forbidden,
            Refusal::NoSuchPath => Status::NotFound,
            Refusal::Method => Status::MethodNotAllowed,
            Refusal::NoLength => Status::LengthRequired,
            Refusal::Encoding | Refusal::Form => Status::UnsupportedMediaType,
            Refusal::ClockBehind | Refusal::Unavailable | Refusal::NotKept =>
                Status::ServiceUnavailable,
        }
    }

    /// The number of the refusal behind `G6`, `G8`, `G15` and `H6`.
    pub fn cause(&self) -> Option<&'static str>
        ensures { option_map (λ code. code.now) result ≡ cause_of self.now }
    {
        match self {
            Refusal::BadBody(fault) => Some(fault.code()),
            Refusal::BadQuery(fault) => Some(fault.code()),
            Refusal::BadSelector(error) => Some(error.code()),
            Refusal::BadPage(refusal) => refusal.cause(),
            _ => None,
        }
    }

    /// What is wrong with what is asked of a listing, in words; none for other refusals.
    pub fn error(&self) -> Option<&'static str>
        ensures { option_map (λ text. text.now) result ≡ error_of self.now }
    {
        match self {
            Refusal::NoLabel => Some("G12: the name in the path is no label name"),
            Refusal::NoMatch => Some("G13: series are asked for by at least one match[]"),
            Refusal::BadParameter => Some(
                "G14: start and end are seconds, perhaps with a point, and limit is a whole number",
            ),
            Refusal::BadSelector(_) => Some("G15: a match[] is refused for its cause"),
            _ => None,
        }
    }
}

impl fmt::Display for Refusal {
    fn fmt<W: fmt::Write>(&self, f: &mut fmt::Formatter<W>) -> fmt::Result {
        let code = self.code();
        match self.cause() {
            Some(cause) => write!(f, "{code}: {cause}"),
            None => write!(f, "{code}"),
        }
    }
}

impl Error for Refusal {}
