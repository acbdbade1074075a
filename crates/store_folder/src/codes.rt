//! How the refusals of a start are numbered, and what is none.

ghost use Rattle.std.specs.Prelude.{◌≡◌};
ghost use Rattle.store_folder.specs.Codes.{block_cause, block_code, event_cause, head_cause};
ghost use Rattle.store_folder.specs.Codes.{read_cause, read_code, read_place, refused_cause};
ghost use Rattle.store_folder.specs.Codes.{refused_code, step_cause};

use crate::error::{BlockFault, ReadError, RollFault, StartCause, StartError, UnreadBlock};
use block::BlockError;
use data_folder::RollError;
use event_journal::{ContentError, Refused};
use event_text::{EventError, TextError};
use head::{CommitError, RefusedEvent, ResumeError};
use head_record::RefusedHead;
use journal::JournalError;
use std::error::Error;
use std::fmt;

/// The number of the refusal of a journal.
fn read_code(error: ReadError) -> &'static str
    ensures { result.now ≡ read_code error }
{
    match error {
        ReadError::Journal(error) => error.code(),
        ReadError::Head(refused) => refused.error.code(),
        ReadError::Event(refused) => refused.error.code(),
    }
}

/// The number of the refusal of a block's files.
fn refused_code(error: BlockError) -> &'static str
    ensures { result.now ≡ refused_code error }
{
    match error {
        BlockError::Memory => "memory",
        _ => "J16",
    }
}

fn block_code(fault: BlockFault) -> &'static str
    ensures { result.now ≡ block_code fault }
{
    match fault {
        BlockFault::Memory => "memory",
        BlockFault::Medium => "folder",
        BlockFault::Missing => "J15",
        BlockFault::Refused(error) => refused_code(error),
    }
}

/// The byte at which a journal is refused.
fn byte_of(error: JournalError) -> usize
    ensures { result ≡ journal_place error }
{
    match error {
        JournalError::Checksum(at) | JournalError::Length(at) => at,
        JournalError::Version => 4,
        _ => 0,
    }
}

ghost use Rattle.event_journal.specs.Codes.{journal_place};

/// Where a journal is refused.
fn read_place(error: ReadError) -> usize
    ensures { result ≡ read_place error }
{
    match error {
        ReadError::Journal(error) => byte_of(error),
        ReadError::Head(refused) => refused.at,
        ReadError::Event(refused) => refused.at,
    }
}

/// What the refusal of a head's content is.
fn head_cause(error: TextError) -> StartCause
    ensures { result ≡ head_cause error }
{
    match error {
        TextError::Memory => StartCause::Memory,
        _ => StartCause::Refused,
    }
}

/// What the refusal of an event's content is.
fn event_cause(error: ContentError) -> StartCause
    ensures { result ≡ event_cause error }
{
    match error {
        ContentError::Event(EventError::Text(error)) => head_cause(error),
        ContentError::Event(EventError::Matcher(_)) | ContentError::Number | ContentError::Named =>
            StartCause::Refused,
    }
}

fn read_cause(error: ReadError) -> StartCause
    ensures { result ≡ read_cause error }
{
    match error {
        ReadError::Journal(JournalError::Memory) => StartCause::Memory,
        ReadError::Journal(_) => StartCause::Refused,
        ReadError::Head(refused) => head_cause(refused.error),
        ReadError::Event(refused) => event_cause(refused.error),
    }
}

fn refused_cause(error: BlockError) -> StartCause
    ensures { result ≡ refused_cause error }
{
    match error {
        BlockError::Memory => StartCause::Memory,
        _ => StartCause::Refused,
    }
}

fn block_cause(fault: BlockFault) -> StartCause
    ensures { result ≡ block_cause fault }
{
    match fault {
        BlockFault::Memory => StartCause::Memory,
        BlockFault::Medium => StartCause::Folder,
        BlockFault::Missing => StartCause::Refused,
        BlockFault::Refused(error) => refused_cause(error),
    }
}

/// What the refusal of an event's step is.
fn step_cause(error: CommitError) -> StartCause
    ensures { result ≡ step_cause error }
{
    match error {
        CommitError::Memory => StartCause::Memory,
        _ => StartCause::Refused,
    }
}

impl StartError {
    ghost use Rattle.store_folder.specs.Codes.{cause_of, start_code, start_place};

    /// The refusal's number, as it is printed; else `memory` or `folder`.
    pub fn code(self) -> &'static str
        ensures { result.now ≡ start_code self }
    {
        match self {
            StartError::Medium => "folder",
            StartError::Journal(error) => read_code(error),
            StartError::Block(unread) => block_code(unread.fault),
            StartError::Head(error) => error.code(),
            StartError::Event(refused) => refused.code(),
        }
    }

    /// Where it is: at which byte of the journal (`J1` to `J4`), after how many contents (the
    /// others of a head) or events (of an event), or in the folder of which number (`J15`, `J16`).
    pub fn place(self) -> usize
        ensures { result ≡ start_place self }
    {
        match self {
            StartError::Medium => 0,
            StartError::Journal(error) => read_place(error),
            StartError::Block(unread) => unread.number as usize,
            StartError::Head(_) => 0,
            StartError::Event(refused) => refused.at,
        }
    }

    /// Whether what the folder has is refused, or memory or the folder failed.
    pub fn cause(self) -> StartCause
        ensures { result ≡ cause_of self }
    {
        match self {
            StartError::Medium => StartCause::Folder,
            StartError::Journal(error) => read_cause(error),
            StartError::Block(unread) => block_cause(unread.fault),
            StartError::Head(ResumeError::Memory) => StartCause::Memory,
            StartError::Head(ResumeError::Unsound) => StartCause::Refused,
            StartError::Event(refused) => step_cause(refused.error),
        }
    }
}

impl fmt::Display for ReadError {
    ghost use Rattle.std.specs.Prelude.{Some};
    ghost use Rattle.store_folder.specs.Codes.{read_text};

    ghost output = { λ error. Some (read_text error) };

    fn fmt<W: fmt::Write>(&self, f: &mut fmt::Formatter<W>) -> fmt::Result {
        match self {
            ReadError::Journal(error) => write!(f, "{error}"),
            ReadError::Head(RefusedHead { at, error }) => {
                write!(f, "{error} (in the head, after {at} contents)")
            }
            ReadError::Event(Refused { at, error }) => write!(f, "{error} (after {at} events)"),
        }
    }
}

impl Error for ReadError {}

impl fmt::Display for UnreadBlock {
    ghost use Rattle.std.specs.Prelude.{Some};
    ghost use Rattle.store_folder.specs.Codes.{block_text};

    ghost output = { λ unread. Some (block_text unread.number unread.fault) };

    fn fmt<W: fmt::Write>(&self, f: &mut fmt::Formatter<W>) -> fmt::Result {
        let number = self.number;
        match self.fault {
            BlockFault::Memory => write!(f, "no memory"),
            BlockFault::Medium => write!(f, "the folder could not be read"),
            BlockFault::Missing => write!(f, "J15: a file of block {number} is missing"),
            BlockFault::Refused(BlockError::Memory) => write!(f, "no memory"),
            BlockFault::Refused(error) => {
                write!(f, "J16: the files of block {number} are refused: {error}")
            }
        }
    }
}

impl Error for UnreadBlock {}

impl fmt::Display for StartError {
    ghost use Rattle.std.specs.Prelude.{Some};
    ghost use Rattle.store_folder.specs.Codes.{start_text};

    ghost output = { λ error. Some (start_text error) };

    fn fmt<W: fmt::Write>(&self, f: &mut fmt::Formatter<W>) -> fmt::Result {
        match self {
            StartError::Medium => write!(f, "the folder could not be read or written"),
            StartError::Journal(error) => write!(f, "{error}"),
            StartError::Block(unread) => write!(f, "{unread}"),
            StartError::Head(ResumeError::Memory) => write!(f, "no memory"),
            StartError::Head(ResumeError::Unsound) => {
                write!(
                    f,
                    "J17: no snapshot has this floor, these blocks and these series"
                )
            }
            StartError::Event(RefusedEvent { at, error }) => {
                write!(f, "J18: the event after {at} events is refused: {error}")
            }
        }
    }
}

impl Error for StartError {}

impl fmt::Display for RollFault {
    ghost use Rattle.std.specs.Prelude.{Some};
    ghost use Rattle.store_folder.specs.Codes.{roll_text};

    ghost output = { λ fault. Some (roll_text fault) };

    fn fmt<W: fmt::Write>(&self, f: &mut fmt::Formatter<W>) -> fmt::Result {
        let text = match self {
            RollFault::Text(JournalError::Size) => "a series is too long to be saved",
            RollFault::Text(_) | RollFault::Memory => "no memory",
            RollFault::Folder(RollError::Lost) => "the journal is lost until the next start",
            RollFault::Folder(RollError::Closed) => "the journal is closed",
            RollFault::Folder(RollError::NotWritten) => "the next journal is not written",
            RollFault::Block(_) => "a block is not written",
        };
        write!(f, "{text}")
    }
}

impl Error for RollFault {}
