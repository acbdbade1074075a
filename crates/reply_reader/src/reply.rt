//! Replies: what a store says of each part, and the rows of all.

ghost use Rattle.std.specs.Prelude.{◌≡◌};
ghost use Rattle.reply_reader.specs.declared.reply.ReplyError.TheVariants.{Memory};

use cover::PartAnswer;
use labels::Row;
use std::alloc::{AllocError, AllocFailed};
use std::error::Error;
use std::fmt;

/// What a reply says of a part.
#[derive(Drop)]
pub enum ToldPart {
    /// The answer of a part that was searched. It does not say how often lists moved: that is 0.
    Searched(PartAnswer),
    /// The block of this number, from 0, was skipped.
    Skipped(usize),
}

/// A reply: what is said of each part, in order, and the rows of all of them.
#[derive(Drop)]
pub struct Reply {
    pub parts: Vec<ToldPart>,
    pub rows: Vec<Row>,
}

/// Why a text is not read as a reply.
#[derive(Clone, Copy, Debug, PartialEq, Eq, Drop)]
pub enum ReplyError {
    /// The text is not of a reply's shape.
    BadReply,
    /// No memory: nothing is said of the text.
    Memory,
}

impl From<AllocError> for ReplyError {
    ghost from_gives = { λ _ e. e ≡ Memory };

    fn from(_error: AllocError) -> ReplyError {
        ReplyError::Memory
    }
}

impl<T: Drop> From<AllocFailed<T>> for ReplyError {
    ghost from_gives = { λ _ e. e ≡ Memory };

    fn from(_error: AllocFailed<T>) -> ReplyError {
        ReplyError::Memory
    }
}

impl fmt::Display for ReplyError {
    ghost use Rattle.std.specs.Prelude.{Some};
    ghost use Rattle.reply_reader.specs.Errors.{reply_error_text};

    ghost output = { λ error. Some (reply_error_text error) };

    fn fmt<W: fmt::Write>(&self, f: &mut fmt::Formatter<W>) -> fmt::Result {
        match self {
            ReplyError::BadReply => write!(f, "bad reply"),
            ReplyError::Memory => write!(f, "no memory"),
        }
    }
}

impl Error for ReplyError {}
