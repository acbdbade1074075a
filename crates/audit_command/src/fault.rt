//! Why the program ends before it has printed its lines.

ghost use Rattle.std.specs.Prelude.{◌≡◌, IfSome, OnOk};
ghost use Rattle.std.specs.Io.KnownBytes.{Appends};
ghost use Rattle.audit_command.specs.Faults.{refusal_code, refusal_place, status_of, line_of};

use matchers::{QueryError, SelectorError};
use std::alloc::{AllocError, AllocFailed};
use std::error::Error;
use std::fmt;
use std::io::{self, Write};

/// Why the query is refused.
#[derive(Clone, Copy, Debug, PartialEq, Eq, Drop)]
pub enum Refusal {
    /// The selector: `M2` to `M6`.
    Selector(SelectorError),
    /// The range: `Q1`.
    Query(QueryError),
}

impl Refusal {
    /// The code that users see.
    pub fn code(&self) -> &'static str
        ensures { result.now ≡ refusal_code self.now }
    {
        match self {
            Refusal::Selector(error) => error.code(),
            Refusal::Query(error) => error.code(),
        }
    }

    /// The place of the fault in a selector, in bytes from 0.
    pub fn place(&self) -> Option<usize>
        ensures { result ≡ refusal_place self.now }
    {
        match self {
            Refusal::Selector(SelectorError::Syntax { at }) => Some(*at),
            _ => None,
        }
    }
}

impl fmt::Display for Refusal {
    ghost use Rattle.std.specs.Prelude.{Some};
    ghost use Rattle.audit_command.specs.Faults.{refusal_text};

    ghost output = { λ refusal. Some (refusal_text refusal) };

    fn fmt<W: fmt::Write>(&self, f: &mut fmt::Formatter<W>) -> fmt::Result {
        let code = self.code();
        match self.place() {
            Some(at) => write!(f, "{code} at {at}"),
            None => write!(f, "{code}"),
        }
    }
}

impl Error for Refusal {}

/// Why the program ends before it has printed its lines.
#[derive(Debug, Drop)]
pub enum Fault {
    /// The words are not those of the program.
    Words(clap::Error),
    /// The query is refused.
    Refused(Refusal),
    /// Standard input cannot be read.
    CannotReadInput,
    /// What was read from standard input is not of a reply's shape.
    BadReply,
    /// The file at this path cannot be read.
    CannotRead(String),
    /// A writer refused.
    CannotWrite,
    /// A growth was refused.
    Memory,
}

impl Fault {
    /// The exit status: 1 for a refusal, 2 for a fault of the words, 3 for what cannot be read, for
    /// a text that is no reply and for a writer that refused, 4 for no memory.
    pub fn status(&self) -> u8
        ensures { result ≡ status_of self.now }
    {
        match self {
            Fault::Refused(_) => 1,
            Fault::Words(_) => 2,
            Fault::CannotReadInput | Fault::BadReply | Fault::CannotRead(_) | Fault::CannotWrite =>
                3,
            Fault::Memory => 4,
        }
    }

    /// Tells the fault in a line, as `refused M4 at 7`, `bad reply` or `cannot read DIR/index`, or
    /// how the program is used.
    pub fn tell<W: Write>(&self, to: &mut W) -> io::Result<()>
        ensures { OnOk result
            (IfSome (line_of self.now) (Appends (W.contents to.old) (W.contents to.new))) }
    {
        match self {
            Fault::Words(error) => write!(to, "{error}"),
            fault => writeln!(to, "{fault}"),
        }
    }
}

impl fmt::Display for Fault {
    ghost use Rattle.audit_command.specs.Faults.{fault_text};

    ghost output = { λ fault. fault_text fault };

    fn fmt<W: fmt::Write>(&self, f: &mut fmt::Formatter<W>) -> fmt::Result {
        match self {
            Fault::Refused(refusal) => write!(f, "refused {refusal}"),
            Fault::Words(error) => write!(f, "{error}"),
            Fault::CannotReadInput => write!(f, "cannot read standard input"),
            Fault::BadReply => write!(f, "bad reply"),
            Fault::CannotRead(path) => write!(f, "cannot read {path}"),
            Fault::CannotWrite => write!(f, "cannot write"),
            Fault::Memory => write!(f, "no memory"),
        }
    }
}

impl Error for Fault {}

impl From<AllocError> for Fault {
    ghost use Rattle.std.specs.Prelude.{◌≡◌};
    ghost use Rattle.audit_command.specs.declared.fault.Fault.TheVariants.{Memory};

    ghost from_gives = { λ _ fault. fault ≡ Memory };

    fn from(_: AllocError) -> Fault {
        Fault::Memory
    }
}

impl<T: Drop> From<AllocFailed<T>> for Fault {
    ghost use Rattle.std.specs.Prelude.{◌≡◌};
    ghost use Rattle.audit_command.specs.declared.fault.Fault.TheVariants.{Memory};

    ghost from_gives = { λ _ fault. fault ≡ Memory };

    fn from(_: AllocFailed<T>) -> Fault {
        Fault::Memory
    }
}

impl From<io::Error> for Fault {
    ghost use Rattle.std.specs.Prelude.{◌≡◌};
    ghost use Rattle.audit_command.specs.declared.fault.Fault.TheVariants.{CannotWrite};

    ghost from_gives = { λ _ fault. fault ≡ CannotWrite };

    fn from(_: io::Error) -> Fault {
        Fault::CannotWrite
    }
}

impl From<SelectorError> for Fault {
    ghost use Rattle.std.specs.Prelude.{◌≡◌};
    ghost use Rattle.audit_command.specs.Faults.{selector_fault};

    ghost from_gives = { λ error fault. fault ≡ selector_fault error };

    fn from(error: SelectorError) -> Fault {
        match error {
            SelectorError::Memory => Fault::Memory,
            refusal => Fault::Refused(Refusal::Selector(refusal)),
        }
    }
}

impl From<QueryError> for Fault {
    ghost use Rattle.std.specs.Prelude.{◌≡◌};
    ghost use Rattle.audit_command.specs.declared.fault.Fault.TheVariants.{Refused};
    ghost use Rattle.audit_command.specs.declared.fault.Refusal.TheVariants.{Query};

    ghost from_gives = { λ error fault. fault ≡ Refused (Query error) };

    fn from(error: QueryError) -> Fault {
        Fault::Refused(Refusal::Query(error))
    }
}
