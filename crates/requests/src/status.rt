//! The status of a reply.

ghost use Rattle.std.specs.Prelude.{◌≡◌};
ghost use Rattle.requests.specs.Statuses.{status_number, status_reason};

/// The status of a reply.
#[derive(Clone, Copy, Debug, PartialEq, Eq, Drop)]
pub enum Status {
    /// 200: the request was done.
    Done,
    /// 400: the request says nothing that can be done.
    BadRequest,
    /// 403: the rules of the server do not admit the request.
    Forbidden,
    /// 404: there is no such path.
    NotFound,
    /// 405: the path takes another method.
    MethodNotAllowed,
    /// 409: the store refuses the event.
    Conflict,
    /// 413: the body is too long.
    ContentTooLarge,
    /// 431: the head is too long.
    HeadTooLarge,
    /// 503: the store lends no snapshot, or cannot keep an event, or the memory for replies has no
    /// room.
    ServiceUnavailable,
}

impl Status {
    fn line(self) -> (u16, &'static str)
        ensures number { result.0 ≡ status_number self }
        ensures reason { result.1.now ≡ status_reason self }
    {
        match self {
            Status::Done => (200, "OK"),
            Status::BadRequest => (400, "Bad Request"),
            Status::Forbidden => (403, "Forbidden"),
            Status::NotFound => (404, "Not Found"),
            Status::MethodNotAllowed => (405, "Method Not Allowed"),
            Status::Conflict => (409, "Conflict"),
            Status::ContentTooLarge => (413, "Content Too Large"),
            Status::HeadTooLarge => (431, "Request Header Fields Too Large"),
            Status::ServiceUnavailable => (503, "Service Unavailable"),
        }
    }

    /// The number, from 200 to 503.
    pub fn number(self) -> u16
        ensures { result ≡ status_number self }
    {
        self.line().0
    }

    /// The reason that stands after the number.
    pub fn reason(self) -> &'static str
        ensures { result.now ≡ status_reason self }
    {
        self.line().1
    }
}
