//! Why the program ends before it is done.

ghost use Rattle.std.specs.Prelude.{◌≡◌, IfSome, OnOk};
ghost use Rattle.std.specs.Io.KnownBytes.{Appends};
ghost use Rattle.commands.specs.Faults.{refusal_code, refusal_place, status_of, line_of};

use answers::AskError;
use block::BlockError;
use folder_lock::Holder;
use head::CommitError;
use labels::LabelError;
use matchers::{MatcherError, QueryError, SelectorError};
use server::ServeError;
use snapshots::{OpenError, SnapshotError};
use std::alloc::{AllocError, AllocFailed};
use std::error::Error;
use std::fmt;
use std::io::{self, Write};
use store_folder::StartError;

/// What was refused, and why.
#[derive(Clone, Copy, Debug, PartialEq, Eq, Drop)]
pub enum Refusal {
    /// Pairs that make no label set: `L1` to `L3`.
    Labels(LabelError),
    /// A matcher: `M1` to `M3`.
    Matcher(MatcherError),
    /// The text of a selector: `M2` to `M6`.
    Selector(SelectorError),
    /// A query: `Q1`, `Q2`.
    Query(QueryError),
    /// An event: `E1` to `E8`.
    Commit(CommitError),
    /// The files of a block: `B1`, `B2`, `I1` to `I15`, `C1` to `C8`, `T1` to `T5`.
    Block(BlockError),
    /// The opening of a store: `O2` to `O4`.
    Open(OpenError),
    /// A snapshot of a store: `S1`.
    Snapshot(SnapshotError),
    /// The folder of a store that is kept: `J1` to `J4`, `J8` to `J20`.
    Start(StartError),
    /// `O5`: the port of Prometheus is for a store whose values are doubles, and those of the store
    /// that a folder has are whole numbers.
    WholeNumbers,
    /// `O6`: the folder of a copy is not empty.
    NotEmpty,
    /// `O7`: the journal of the store that is to be copied was begun anew each time that it was
    /// read.
    Unsettled,
}

impl Refusal {
    /// The code that users see.
    pub fn code(&self) -> &'static str
        ensures { result.now ≡ refusal_code self.now }
    {
        match self {
            Refusal::Labels(error) => error.code(),
            Refusal::Matcher(error) => error.code(),
            Refusal::Selector(error) => error.code(),
            Refusal::Query(error) => error.code(),
            Refusal::Commit(error) => error.code(),
            Refusal::Block(error) => error.code(),
            Refusal::Open(error) => error.code(),
            Refusal::Snapshot(error) => error.code(),
            Refusal::Start(error) => error.code(),
            Refusal::WholeNumbers => "O5",
            Refusal::NotEmpty => "O6",
            Refusal::Unsettled => "O7",
        }
    }

    /// The place of the fault, from 0. In a selector it is in bytes. In a batch it is the number of
    /// the sample. In a journal it is the byte (`J1` to `J4`) or how many contents of its head or
    /// events are before it. Of a block it is the number of its folder (`J15`, `J16`).
    pub fn place(&self) -> Option<usize>
        ensures { result ≡ refusal_place self.now }
    {
        match self {
            Refusal::Selector(SelectorError::Syntax { at })
            | Refusal::Commit(CommitError::OutOfBounds { at })
            | Refusal::Commit(CommitError::OutOfOrder { at })
            | Refusal::Commit(CommitError::Duplicate { at }) => Some(*at),
            Refusal::Start(error) => Some(error.place()),
            _ => None,
        }
    }
}

impl fmt::Display for Refusal {
    ghost use Rattle.std.specs.Prelude.{Some};
    ghost use Rattle.commands.specs.Faults.{refusal_text};

    ghost output = { λ refusal. Some (refusal_text refusal) };

    fn fmt<W: fmt::Write>(&self, f: &mut fmt::Formatter<W>) -> fmt::Result {
        let code = self.code();
        match self.place() {
            Some(at) => write!(f, "{code} at {at}"),
            None => write!(f, "{code}"),
        }
    }
}

impl Error for Refusal {}

/// Why the program ends before it is done.
#[derive(Debug, Drop)]
pub enum Fault {
    /// The words are none of the program's lines.
    Words(clap::Error),
    /// What was asked for is refused.
    Refused(Refusal),
    /// The file at this path cannot be read.
    CannotRead(String),
    /// A writer refused.
    CannotWrite,
    /// What is at this path cannot be written.
    CannotWriteAt(String),
    /// Another process has locked this folder.
    Locked(String, Holder),
    /// This port of 127.0.0.1 cannot be listened on.
    CannotListen(u64),
    /// The listener of a server is gone.
    NoListener,
    /// A thread of a server cannot be made.
    NoThread,
    /// A growth was refused.
    Memory,
}

impl Fault {
    /// The exit status: 1 for a refusal, 2 for a fault of the words, 4 for no memory, and 3 for all
    /// that the system refuses: a file, a lock, a writer, a port, the listener or a thread of a
    /// server.
    pub fn status(&self) -> u8
        ensures { result ≡ status_of self.now }
    {
        match self {
            Fault::Refused(_) => 1,
            Fault::Words(_) => 2,
            Fault::CannotRead(_) | Fault::CannotWrite => 3,
            Fault::CannotWriteAt(_) | Fault::Locked(_, _) => 3,
            Fault::CannotListen(_) | Fault::NoListener | Fault::NoThread => 3,
            Fault::Memory => 4,
        }
    }

    /// Reports the fault in a line, as `refused M4 at 7` or `cannot read DIR/index`, or says how
    /// the program is used.
    pub fn tell<W: Write>(&self, to: &mut W) -> io::Result<()>
        ensures { OnOk result
            (IfSome (line_of self.now) (Appends (W.contents to.old) (W.contents to.new))) }
    {
        match self {
            Fault::Words(error) => write!(to, "{error}"),
            fault => writeln!(to, "{fault}"),
        }
    }
}

impl fmt::Display for Fault {
    ghost use Rattle.commands.specs.Faults.{fault_text};

    ghost output = { λ fault. fault_text fault };

    fn fmt<W: fmt::Write>(&self, f: &mut fmt::Formatter<W>) -> fmt::Result {
        match self {
            Fault::Refused(refusal) => write!(f, "refused {refusal}"),
            Fault::Words(error) => write!(f, "{error}"),
            Fault::CannotRead(path) => write!(f, "cannot read {path}"),
            Fault::CannotWrite => write!(f, "cannot write"),
            Fault::CannotWriteAt(path) => write!(f, "cannot write {path}"),
            Fault::Locked(folder, holder) => write!(f, "cannot lock {folder}: {holder}"),
            Fault::CannotListen(port) => write!(f, "cannot listen on 127.0.0.1:{port}"),
            Fault::NoListener => write!(f, "there is no listener any more"),
            Fault::NoThread => write!(f, "cannot make a thread"),
            Fault::Memory => write!(f, "no memory"),
        }
    }
}

impl Error for Fault {}

impl From<AllocError> for Fault {
    ghost use Rattle.std.specs.Prelude.{◌≡◌};
    ghost use Rattle.commands.specs.declared.fault.Fault.TheVariants.{Memory};

    ghost from_gives = { λ _ fault. fault ≡ Memory };

    fn from(_: AllocError) -> Fault {
        Fault::Memory
    }
}

impl<T: Drop> From<AllocFailed<T>> for Fault {
    ghost use Rattle.std.specs.Prelude.{◌≡◌};
    ghost use Rattle.commands.specs.declared.fault.Fault.TheVariants.{Memory};

    ghost from_gives = { λ _ fault. fault ≡ Memory };

    fn from(_: AllocFailed<T>) -> Fault {
        Fault::Memory
    }
}

impl From<io::Error> for Fault {
    ghost use Rattle.std.specs.Prelude.{◌≡◌};
    ghost use Rattle.commands.specs.declared.fault.Fault.TheVariants.{CannotWrite};

    ghost from_gives = { λ _ fault. fault ≡ CannotWrite };

    fn from(_: io::Error) -> Fault {
        Fault::CannotWrite
    }
}

impl From<LabelError> for Fault {
    ghost use Rattle.std.specs.Prelude.{◌≡◌};
    ghost use Rattle.commands.specs.Faults.{label_fault};

    ghost from_gives = { λ error fault. fault ≡ label_fault error };

    fn from(error: LabelError) -> Fault {
        match error {
            LabelError::Memory => Fault::Memory,
            refusal => Fault::Refused(Refusal::Labels(refusal)),
        }
    }
}

impl From<MatcherError> for Fault {
    ghost use Rattle.std.specs.Prelude.{◌≡◌};
    ghost use Rattle.commands.specs.Faults.{matcher_fault};

    ghost from_gives = { λ error fault. fault ≡ matcher_fault error };

    fn from(error: MatcherError) -> Fault {
        match error {
            MatcherError::Memory => Fault::Memory,
            refusal => Fault::Refused(Refusal::Matcher(refusal)),
        }
    }
}

impl From<SelectorError> for Fault {
    ghost use Rattle.std.specs.Prelude.{◌≡◌};
    ghost use Rattle.commands.specs.Faults.{selector_fault};

    ghost from_gives = { λ error fault. fault ≡ selector_fault error };

    fn from(error: SelectorError) -> Fault {
        match error {
            SelectorError::Memory => Fault::Memory,
            refusal => Fault::Refused(Refusal::Selector(refusal)),
        }
    }
}

impl From<QueryError> for Fault {
    ghost use Rattle.std.specs.Prelude.{◌≡◌};
    ghost use Rattle.commands.specs.declared.fault.Fault.TheVariants.{Refused};
    ghost use Rattle.commands.specs.declared.fault.Refusal.TheVariants.{Query};

    ghost from_gives = { λ error fault. fault ≡ Refused (Query error) };

    fn from(error: QueryError) -> Fault {
        Fault::Refused(Refusal::Query(error))
    }
}

impl From<CommitError> for Fault {
    ghost use Rattle.std.specs.Prelude.{◌≡◌};
    ghost use Rattle.commands.specs.Faults.{commit_fault};

    ghost from_gives = { λ error fault. fault ≡ commit_fault error };

    fn from(error: CommitError) -> Fault {
        match error {
            CommitError::Memory => Fault::Memory,
            refusal => Fault::Refused(Refusal::Commit(refusal)),
        }
    }
}

impl From<BlockError> for Fault {
    ghost use Rattle.std.specs.Prelude.{◌≡◌};
    ghost use Rattle.commands.specs.Faults.{block_fault};

    ghost from_gives = { λ error fault. fault ≡ block_fault error };

    fn from(error: BlockError) -> Fault {
        match error {
            BlockError::Memory => Fault::Memory,
            refusal => Fault::Refused(Refusal::Block(refusal)),
        }
    }
}

impl From<OpenError> for Fault {
    ghost use Rattle.std.specs.Prelude.{◌≡◌};
    ghost use Rattle.commands.specs.Faults.{open_fault};

    ghost from_gives = { λ error fault. fault ≡ open_fault error };

    fn from(error: OpenError) -> Fault {
        match error {
            OpenError::Memory => Fault::Memory,
            refusal => Fault::Refused(Refusal::Open(refusal)),
        }
    }
}

impl From<AskError> for Fault {
    ghost use Rattle.std.specs.Prelude.{◌≡◌};
    ghost use Rattle.commands.specs.Faults.{ask_fault};

    ghost from_gives = { λ error fault. fault ≡ ask_fault error };

    fn from(error: AskError) -> Fault {
        match error {
            AskError::Memory => Fault::Memory,
            AskError::Snapshot(refusal) => Fault::Refused(Refusal::Snapshot(refusal)),
        }
    }
}

impl From<ServeError> for Fault {
    ghost use Rattle.std.specs.Prelude.{◌≡◌};
    ghost use Rattle.commands.specs.Faults.{serve_fault};

    ghost from_gives = { λ error fault. fault ≡ serve_fault error };

    fn from(error: ServeError) -> Fault {
        match error {
            ServeError::NoListener => Fault::NoListener,
            ServeError::NoThread => Fault::NoThread,
            ServeError::Memory => Fault::Memory,
        }
    }
}
