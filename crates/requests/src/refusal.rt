//! Why a request is refused.

ghost use Rattle.std.specs.Prelude.{◌≡◌, option_map};
ghost use Rattle.requests.specs.Refusals.{code_of, status_of, cause_of, told_cause};

use crate::Status;
use matchers::SelectorError;
use std::error::Error;
use std::fmt;

/// The refusal that stands behind one of a request.
#[derive(Clone, Copy, Debug, PartialEq, Eq, Drop)]
pub struct Cause {
    /// Its number, as `M4` or `E3`.
    pub code: &'static str,
    /// Where in the selector, in bytes, or which sample of the batch, from 0.
    pub at: Option<usize>,
}

/// Why a request is refused. Several may hold: the first in this order is answered, save that `H8`
/// comes before `H7` and `H6` comes after them in a body.
#[derive(Clone, Copy, Debug, PartialEq, Eq, Drop)]
pub enum Refusal {
    /// `H1`: the bytes are no request head of at most 64 fields, or end within one.
    BadHead,
    /// `H2`: 8,192 bytes do not end the head.
    HeadTooLong,
    /// `H3`: there is no such path.
    NoSuchPath,
    /// `H4`: the path takes another method.
    Method,
    /// `H5`: the query string is not of the path's form.
    BadQuery,
    /// `H6`: the selector is refused.
    BadSelector(SelectorError),
    /// `H7`: the body is not of the path's form, or its length is not told, or it ends early.
    BadBody,
    /// `H8`: the body has more than 1,048,576 bytes.
    BodyTooLong,
    /// `H9`: the store refuses the event.
    Refused(Cause),
    /// `H10`: the store lends no snapshot.
    Unavailable,
    /// `H11`: the store cannot keep the event where it would outlast the program, so no reader sees
    /// it.
    NotKept,
    /// `H12`: the rules of the server do not admit the request: it comes from a page of a browser,
    /// does not name this machine, or bears no token.
    Guarded,
    /// `H13`: the memory for replies has no room for this one. Only a server that was given a bound
    /// answers it.
    NoRoom,
}

impl Refusal {
    /// The number of the refusal.
    pub fn code(&self) -> &'static str
        ensures { result.now ≡ code_of self.now }
    {
        match self {
            Refusal::BadHead => "H1",
            Refusal::HeadTooLong => "H2",
            Refusal::NoSuchPath => "H3",
            Refusal::Method => "H4",
            Refusal::BadQuery => "H5",
            Refusal::BadSelector(_) => "H6",
            Refusal::BadBody => "H7",
            Refusal::BodyTooLong => "H8",
            Refusal::Refused(_) => "H9",
            Refusal::Unavailable => "H10",
            Refusal::NotKept => "H11",
            Refusal::Guarded => "H12",
            Refusal::NoRoom => "H13",
        }
    }

    /// The status of the reply.
    pub fn status(&self) -> Status
        ensures { result ≡ status_of self.now }
    {
        match self {
            Refusal::BadHead | Refusal::BadQuery | Refusal::BadSelector(_) | Refusal::BadBody =>
                Status::BadRequest,
            Refusal::HeadTooLong => Status::HeadTooLarge,
            Refusal::NoSuchPath => Status::NotFound,
            Refusal::Method => Status::MethodNotAllowed,
            Refusal::BodyTooLong => Status::ContentTooLarge,
            Refusal::Refused(_) => Status::Conflict,
            Refusal::Unavailable | Refusal::NotKept | Refusal::NoRoom => Status::ServiceUnavailable,
            Refusal::Guarded => Status::Forbidden,
        }
    }

    /// The refusal behind `H6` and `H9`.
    pub fn cause(&self) -> Option<Cause>
        ensures { option_map told_cause result ≡ cause_of self.now }
    {
        match self {
            Refusal::BadSelector(error) => Some(Cause {
                code: error.code(),
                at: place_in(*error),
            }),
            Refusal::Refused(cause) => Some(*cause),
            _ => None,
        }
    }
}

impl fmt::Display for Refusal {
    ghost use Rattle.std.specs.Prelude.{Some};
    ghost use Rattle.requests.specs.Refusals.{refusal_message};

    ghost output = { λ refusal. Some (refusal_message refusal) };

    fn fmt<W: fmt::Write>(&self, f: &mut fmt::Formatter<W>) -> fmt::Result {
        match self {
            Refusal::BadHead => write!(f, "H1: the bytes are no head of a request"),
            Refusal::HeadTooLong => write!(f, "H2: the head has more than 8192 bytes"),
            Refusal::NoSuchPath => write!(f, "H3: there is no such path"),
            Refusal::Method => write!(f, "H4: the path takes another method"),
            Refusal::BadQuery => write!(f, "H5: the query string is not of the path's form"),
            Refusal::BadSelector(error) => write!(f, "H6: the selector is refused: {error}"),
            Refusal::BadBody => {
                write!(f, "H7: the body is not of the path's form, or is cut short")
            }
            Refusal::BodyTooLong => write!(f, "H8: the body has more than 1048576 bytes"),
            Refusal::Refused(cause) => {
                let code = cause.code;
                write!(f, "H9: the store refuses the event: {code}")
            }
            Refusal::Unavailable => write!(f, "H10: the store lends no snapshot"),
            Refusal::NotKept => write!(f, "H11: the event is not kept"),
            Refusal::Guarded => write!(f, "H12: the rules of the server do not admit it"),
            Refusal::NoRoom => write!(f, "H13: the memory for replies has no room for this one"),
        }
    }
}

impl Error for Refusal {}

/// Where a selector ends to be one, if that is why it is refused.
fn place_in(error: SelectorError) -> Option<usize>
    ensures { result ≡ place_of error }
{
    match error {
        SelectorError::Syntax { at } => Some(at),
        _ => None,
    }
}

ghost use Rattle.requests.specs.Refusals.{place_of};
