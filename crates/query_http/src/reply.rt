//! A reply as it is made.

ghost use Rattle.std.specs.Prelude.{◌≡◌};
ghost use Rattle.query_http.specs.Reply.{text_of};

use answers::AnswerText;
use requests::Status;

/// A reply: its status, and its whole text, of which a long answer is kept apart.
#[derive(Drop)]
pub(crate) struct Reply {
    pub(crate) status: Status,
    pub(crate) head: Vec<u8>,
    pub(crate) answer: Option<AnswerText>,
}

impl Reply {
    /// A reply with this text.
    pub(crate) fn new(status: Status, text: Vec<u8>) -> Reply
        ensures number { result.status ≡ status }
        ensures spelled { text_of result ≡ text.items }
    {
        Reply {
            status,
            head: text,
            answer: None,
        }
    }
}
