//! Why a store is not started.

use block::BlockError;
use block_rewriter::RewriteError;
use data_folder::{ApartError, RollError};
use event_journal::Refused;
use head::{RefusedEvent, ResumeError};
use head_record::RefusedHead;
use journal::JournalError;

/// Why the file of a journal is not read: the first fault.
#[derive(Clone, Copy, Debug, PartialEq, Eq, Drop)]
pub enum ReadError {
    /// `J1` to `J4`: it is no journal, or damaged; or no memory was left.
    Journal(JournalError),
    /// `J8` to `J10`, `J13`: it does not begin with a head.
    Head(RefusedHead),
    /// `J8` to `J14`, `J19`, `J20`: a content after the head is no event; its number counts from
    /// the head's end.
    Event(Refused),
}

/// Why a block that the head names is not opened.
#[derive(Clone, Copy, Debug, PartialEq, Eq, Drop)]
pub enum BlockFault {
    /// No memory is left.
    Memory,
    /// The folder could not be read.
    Medium,
    /// A file of it is not there.
    Missing,
    /// Its files are refused, for this cause.
    Refused(BlockError),
}

/// The first block that is not opened.
#[derive(Clone, Copy, Debug, PartialEq, Eq, Drop)]
pub struct UnreadBlock {
    /// The number of its folder.
    pub number: u64,
    /// Why it is not opened.
    pub fault: BlockFault,
}

/// Why a store is not started: the first check that failed. First all of the journal is read as
/// records, then its contents as a head and as events, then the blocks that the head names are
/// opened, and then the events are applied.
#[derive(Clone, Copy, Debug, PartialEq, Eq, Drop)]
pub enum StartError {
    /// The folder could not be read or written.
    Medium,
    /// `J1` to `J4`, `J8` to `J14`, `J19`, `J20`: the journal is refused; or no memory was left for
    /// it.
    Journal(ReadError),
    /// `J15`, `J16`: a block is not opened.
    Block(UnreadBlock),
    /// `J17`: no snapshot has what the head and the blocks say.
    Head(ResumeError),
    /// `J18`: an event is refused.
    Event(RefusedEvent),
}

/// What the error of a start is.
#[derive(Clone, Copy, Debug, PartialEq, Eq, Drop)]
pub enum StartCause {
    /// No memory is left.
    Memory,
    /// The folder could not be read or written.
    Folder,
    /// What the folder has is refused.
    Refused,
}

/// Why a block is not written.
#[derive(Clone, Copy, Debug, PartialEq, Eq, Drop)]
pub enum WriteFault {
    /// No memory is left.
    Memory,
    /// A folder could not be made.
    Medium,
    /// A file is not written, for this cause.
    File(ApartError),
    /// No files of it are made, for this cause.
    Block(RewriteError),
    /// There is no number left for its folder.
    Numbers,
}

/// Why a journal does not begin with a new head.
#[derive(Clone, Copy, Debug, PartialEq, Eq, Drop)]
pub enum RollFault {
    /// `J5`: what is saved of a series is too long; or no memory was left. The journal goes on.
    Text(JournalError),
    /// The next journal was not written, or could not take the journal's name.
    Folder(RollError),
    /// No memory is left for what is saved. The journal goes on.
    Memory,
    /// A block is not written. The journal goes on.
    Block(WriteFault),
}
