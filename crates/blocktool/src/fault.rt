//! Why the program ends before it is done.

ghost use Rattle.std.specs.Prelude.{◌≡◌};
ghost use Rattle.blocktool.specs.declared.fault.Fault.TheVariants.{Memory};

use block::BlockError;
use block_outputs::OutputError;
use exposition::{Left, Refusal};
use folder_lock::Holder;
use imported_values::Reason;
use prometheus_block::SourceError;
use std::alloc::{AllocError, AllocFailed};
use std::error::Error;
use std::fmt;
use std::io::{self, Write};
use store_folder::StartError;

/// Why the program ends before it is done.
#[derive(Debug, Drop)]
pub enum Fault {
    /// The words are none of the program's lines.
    Words(clap::Error),
    /// An input is refused: its directory, and the first check that fails.
    Source(String, SourceError),
    /// A block of this project is refused: its directory, and the first check that fails.
    Block(String, BlockError),
    /// The store in a folder is refused, and the first check that fails.
    Store(String, StartError),
    /// Another process has locked this folder.
    Locked(String, Holder),
    /// The values of the block in this directory have another number of digits.
    Digits(String),
    /// The values of the block in this directory mean something else.
    Meaning(String),
    /// The block in this directory has this whole number at this time, which is beyond 2^53 and
    /// represents no double of its own.
    Beyond(String, i64, i64),
    /// A value is refused.
    Value {
        /// Why.
        reason: Reason,
        /// The series, as text.
        series: String,
        /// Its time, in milliseconds.
        t: i64,
        /// The bits of the double.
        bits: u64,
    },
    /// A text is refused: its name, and its first line that is wrong.
    Text(String, Refusal),
    /// A value of a text is refused: the text's name, and the sample.
    Other(String, Left),
    /// A text is no reply.
    BadReply,
    /// A row has no `__name__` that names a metric.
    NoMetric,
    /// Standard input cannot be read.
    NoInput,
    /// The file or directory at this path cannot be read.
    CannotRead(String),
    /// The file or directory at this path cannot be written.
    CannotWrite(String),
    /// The directory for the outputs holds something.
    NotEmpty(String),
    /// There would be more outputs than one answer can take.
    TooMany(usize),
    /// A store would have more blocks than it may.
    TooManyBlocks(usize),
    /// The head of the store in this folder has samples below this time, where a block ends that is
    /// to be added.
    HeadBelow(String, i64),
    /// The samples of one moment, or the labels, are more than an output may have.
    TooLarge,
    /// Rows or times of an input do not ascend.
    Unordered,
    /// An input changed while it was read.
    Changed,
    /// A standard output refused.
    NoOutput,
    /// No memory is left.
    Memory,
}

impl Fault {
    /// The exit status: 1 for a refusal, 2 for a fault of the words, 3 for what cannot be read or
    /// written, 4 for no memory.
    pub fn status(&self) -> u8 {
        match self {
            Fault::Source(_, SourceError::Unreadable(_)) => 3,
            Fault::Source(_, _) | Fault::Value { .. } | Fault::TooMany(_) => 1,
            Fault::TooManyBlocks(_) | Fault::HeadBelow(_, _) => 1,
            Fault::Block(_, _) | Fault::Store(_, _) | Fault::Digits(_) => 1,
            Fault::Meaning(_) | Fault::Beyond(_, _, _) => 1,
            Fault::TooLarge | Fault::Unordered | Fault::Changed => 1,
            Fault::BadReply | Fault::NoMetric => 1,
            Fault::Text(_, _) | Fault::Other(_, _) => 1,
            Fault::Words(_) => 2,
            Fault::CannotRead(_) | Fault::CannotWrite(_) | Fault::NotEmpty(_) | Fault::NoOutput =>
                3,
            Fault::NoInput | Fault::Locked(_, _) => 3,
            Fault::Memory => 4,
        }
    }

    /// Reports the fault in a line, or says how the program is used.
    pub fn tell<W: Write>(&self, to: &mut W) -> io::Result<()> {
        match self {
            Fault::Words(error) => write!(to, "{error}"),
            fault => writeln!(to, "{fault}"),
        }
    }
}

impl fmt::Display for Fault {
    fn fmt<W: fmt::Write>(&self, f: &mut fmt::Formatter<W>) -> fmt::Result {
        match self {
            Fault::Words(error) => write!(f, "{error}"),
            Fault::Source(directory, SourceError::Unreadable(number)) => {
                let place = number.saturating_add(1);
                write!(f, "cannot read {directory}/chunks/{place:06}")
            }
            Fault::Source(directory, error) => write!(f, "refused {error} ({directory})"),
            Fault::Block(directory, error) => write!(f, "refused {error} ({directory})"),
            Fault::Store(data, error) => write!(f, "refused {error} ({data})"),
            Fault::Locked(data, holder) => write!(f, "cannot lock {data}: {holder}"),
            Fault::Digits(directory) => {
                write!(f, "refused: values with other digits in {directory}")
            }
            Fault::Meaning(directory) => {
                write!(f, "refused V5: values of another meaning in {directory}")
            }
            Fault::Beyond(directory, t, v) => {
                write!(
                    f,
                    "refused V4: {v} at {t} is beyond 2^53, and no double for itself ({directory})"
                )
            }
            Fault::Value {
                reason,
                series,
                t,
                bits,
            } => {
                let why = match reason {
                    Reason::Stale => "a stale marker",
                    Reason::Rest => "no whole number of parts",
                };
                write!(
                    f,
                    "refused value: {series} at {t}: {why} (the double {bits:#018x})"
                )
            }
            Fault::Text(name, refusal) => {
                let Refusal {
                    line,
                    column,
                    cause,
                } = *refusal;
                write!(f, "refused {cause} ({name}, line {line}, column {column})")
            }
            Fault::Other(name, left) => {
                let Left { line, column, .. } = *left;
                write!(
                    f,
                    "refused value: no whole number of parts \
                     ({name}, line {line}, column {column})"
                )
            }
            Fault::BadReply => write!(f, "refused: bad reply"),
            Fault::NoMetric => write!(f, "refused: a series without the name of a metric"),
            Fault::NoInput => write!(f, "cannot read standard input"),
            Fault::CannotRead(path) => write!(f, "cannot read {path}"),
            Fault::CannotWrite(path) => write!(f, "cannot write {path}"),
            Fault::NotEmpty(path) => write!(f, "{path} is not empty"),
            Fault::TooMany(count) => {
                write!(
                    f,
                    "refused: there would be {count} outputs, and 63 is the most"
                )
            }
            Fault::TooManyBlocks(count) => {
                write!(
                    f,
                    "refused: there would be {count} blocks, and 63 is the most"
                )
            }
            Fault::HeadBelow(data, end) => {
                write!(
                    f,
                    "refused: {data} has samples before {end} that were not cut"
                )
            }
            Fault::TooLarge => {
                write!(
                    f,
                    "refused: one moment alone is more than an output may have"
                )
            }
            Fault::Unordered => write!(f, "refused: rows out of order"),
            Fault::Changed => write!(f, "refused: an input changed while it was read"),
            Fault::NoOutput => write!(f, "cannot write the lines"),
            Fault::Memory => write!(f, "no memory"),
        }
    }
}

impl Error for Fault {}

impl From<AllocError> for Fault {
    ghost from_gives = { λ _ e. e ≡ Memory };

    fn from(_error: AllocError) -> Fault {
        Fault::Memory
    }
}

impl<T: Drop> From<AllocFailed<T>> for Fault {
    ghost from_gives = { λ _ e. e ≡ Memory };

    fn from(_error: AllocFailed<T>) -> Fault {
        Fault::Memory
    }
}

impl From<io::Error> for Fault {
    fn from(_error: io::Error) -> Fault {
        Fault::NoOutput
    }
}

impl From<OutputError> for Fault {
    fn from(error: OutputError) -> Fault {
        match error {
            OutputError::Memory => Fault::Memory,
            OutputError::Disk => Fault::NoOutput,
            OutputError::TooLarge => Fault::TooLarge,
            OutputError::Unordered => Fault::Unordered,
        }
    }
}
