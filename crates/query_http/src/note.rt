//! What is noted of a connection, for those that count.

ghost use Rattle.std.specs.Prelude.{◌≡◌, ◌≤◌, length, Some, None};
ghost use Rattle.requests.specs.Fitting.{IsFit};
ghost use Rattle.requests.specs.Rows.{batch_of};
ghost use Rattle.query_http.specs.Noting.{path_of, samples_of, number_of};

use labels::Row;
use requests::{Path, Refusal, Request, Status};

/// What is noted of a connection, for those that count. No clause of a reply speaks of it.
#[derive(Clone, Copy, Debug, PartialEq, Eq, Drop)]
pub struct Note {
    /// The path that was asked for, if it is one.
    pub path: Option<Path>,
    /// The number of the refusal of what came, as 3 of `H3`, if it asks nothing, or of `H13`.
    pub refusal: Option<u64>,
    /// How many samples were to be written.
    pub samples: u64,
    /// The status of the reply that was made, if one was.
    pub status: Option<Status>,
}

fn path_of(request: &Request) -> Path
    ensures { result ≡ path_of request.now }
{
    match request {
        Request::Select(_) => Path::Select,
        Request::Write(_) => Path::Write,
        Request::Delete { .. } => Path::Delete,
        Request::Cut(_) => Path::Cut,
    }
}

/// How many samples the rows have, which are few.
fn samples_in(rows: &[Row]) -> u64
    requires { length (batch_of rows.now) ≤ 4096 }
    ensures { result ≡ length (batch_of rows.now) }
{
    let mut count = 0u64;
    for row in rows {
        count += row.samples().len() as u64;
    }
    count
}

fn samples_of(request: &Request) -> u64
    requires { IsFit request.now }
    ensures { result ≡ samples_of request.now }
{
    match request {
        Request::Write(rows) => samples_in(rows.as_slice()),
        Request::Select(_) | Request::Delete { .. } | Request::Cut(_) => 0,
    }
}

fn number_of(refusal: &Refusal) -> u64
    ensures { result ≡ number_of refusal.now }
{
    match refusal {
        Refusal::BadHead => 1,
        Refusal::HeadTooLong => 2,
        Refusal::NoSuchPath => 3,
        Refusal::Method => 4,
        Refusal::BadQuery => 5,
        Refusal::BadSelector(_) => 6,
        Refusal::BadBody => 7,
        Refusal::BodyTooLong => 8,
        Refusal::Refused(_) => 9,
        Refusal::Unavailable => 10,
        Refusal::NotKept => 11,
        Refusal::Guarded => 12,
        Refusal::NoRoom => 13,
    }
}

impl Note {
    /// Nothing is noted.
    pub(crate) fn none() -> Note
        ensures { result.status ≡ None }
    {
        Note {
            path: None,
            refusal: None,
            samples: 0,
            status: None,
        }
    }

    /// What a request asks.
    pub(crate) fn asked(request: &Request) -> Note
        requires { IsFit request.now }
        ensures path { result.path ≡ Some (path_of request.now) }
        ensures refusal { result.refusal ≡ None }
        ensures samples { result.samples ≡ samples_of request.now }
        ensures status { result.status ≡ None }
    {
        Note {
            path: Some(path_of(request)),
            refusal: None,
            samples: samples_of(request),
            status: None,
        }
    }

    /// The same, and that what is asked is refused so.
    pub(crate) fn crowded(self, refusal: &Refusal) -> Note
        ensures path { result.path ≡ self.path }
        ensures refusal { result.refusal ≡ Some (number_of refusal.now) }
        ensures samples { result.samples ≡ self.samples }
        ensures status { result.status ≡ self.status }
    {
        Note {
            refusal: Some(number_of(refusal)),
            ..self
        }
    }

    /// Notes that what came is refused.
    pub(crate) fn refused(path: Option<Path>, refusal: &Refusal) -> Note
        ensures path { result.path ≡ path }
        ensures refusal { result.refusal ≡ Some (number_of refusal.now) }
        ensures samples { result.samples ≡ 0 }
        ensures status { result.status ≡ None }
    {
        Note {
            path,
            refusal: Some(number_of(refusal)),
            samples: 0,
            status: None,
        }
    }
}
