//! Why the program ends before it has written a page.

ghost use Rattle.std.specs.Prelude.{◌≡◌, OnOk, IfSome};
ghost use Rattle.std.specs.Io.KnownBytes.{Appends};
ghost use Rattle.explain.specs.Faults.{status_of, line_of};

use audit_command::Fault as AuditFault;
use std::alloc::{AllocError, AllocFailed};
use std::io::{self, Write};
use store_command::Fault as StoreFault;

/// Why the program ends before it has written a page.
#[derive(Debug, Drop)]
pub enum Fault {
    /// As an audit would end: the words, the query, what cannot be read or written, no memory.
    Audit(AuditFault),
    /// What is asked about is no series.
    NoSeries,
    /// What is said of values is no meaning of them.
    NoMeaning,
    /// Directories are given beside a store.
    Beside,
    /// As an audit over a store would end: the folder cannot be read, is refused, or changes.
    Store(StoreFault),
}

impl Fault {
    /// The exit status: 1 for a refusal, 2 for a fault of the words and for directories beside a
    /// store, 3 for what cannot be read, for a text that is no reply, for a store that is refused
    /// or changes and for a writer that refused, 4 for no memory.
    pub fn status(&self) -> u8
        ensures { result ≡ status_of self.now }
    {
        match self {
            Fault::Audit(fault) => fault.status(),
            Fault::NoSeries | Fault::NoMeaning => 1,
            Fault::Beside => 2,
            Fault::Store(fault) => fault.status(),
        }
    }

    /// Tells the fault in a line, or how the program is used.
    pub fn tell<W: Write>(&self, to: &mut W) -> io::Result<()>
        ensures { OnOk result
            (IfSome (line_of self.now) (Appends (W.contents to.old) (W.contents to.new))) }
    {
        match self {
            Fault::Audit(fault) => fault.tell(to),
            Fault::NoSeries => writeln!(to, "refused --about: no series"),
            Fault::NoMeaning => writeln!(to, "refused --values: no meaning"),
            Fault::Beside => writeln!(to, "--store: no directory beside it"),
            Fault::Store(fault) => fault.tell(to),
        }
    }
}

impl From<AuditFault> for Fault {
    ghost use Rattle.std.specs.Prelude.{◌≡◌};
    ghost use Rattle.explain.specs.declared.fault.Fault.TheVariants.{Audit};

    ghost from_gives = { λ audit fault. fault ≡ Audit audit };

    fn from(fault: AuditFault) -> Fault {
        Fault::Audit(fault)
    }
}

impl From<StoreFault> for Fault {
    ghost use Rattle.std.specs.Prelude.{◌≡◌};
    ghost use Rattle.explain.specs.declared.fault.Fault.TheVariants.{Store};

    ghost from_gives = { λ store fault. fault ≡ Store store };

    fn from(fault: StoreFault) -> Fault {
        Fault::Store(fault)
    }
}

impl From<AllocError> for Fault {
    ghost use Rattle.std.specs.Prelude.{◌≡◌};
    ghost use Rattle.audit_command.specs.declared.fault.Fault.TheVariants.{Memory};
    ghost use Rattle.explain.specs.declared.fault.Fault.TheVariants.{Audit};

    ghost from_gives = { λ _ fault. fault ≡ Audit Memory };

    fn from(_: AllocError) -> Fault {
        Fault::Audit(AuditFault::Memory)
    }
}

impl<T: Drop> From<AllocFailed<T>> for Fault {
    ghost use Rattle.std.specs.Prelude.{◌≡◌};
    ghost use Rattle.audit_command.specs.declared.fault.Fault.TheVariants.{Memory};
    ghost use Rattle.explain.specs.declared.fault.Fault.TheVariants.{Audit};

    ghost from_gives = { λ _ fault. fault ≡ Audit Memory };

    fn from(_: AllocFailed<T>) -> Fault {
        Fault::Audit(AuditFault::Memory)
    }
}

impl From<io::Error> for Fault {
    ghost use Rattle.std.specs.Prelude.{◌≡◌};
    ghost use Rattle.audit_command.specs.declared.fault.Fault.TheVariants.{CannotWrite};
    ghost use Rattle.explain.specs.declared.fault.Fault.TheVariants.{Audit};

    ghost from_gives = { λ _ fault. fault ≡ Audit CannotWrite };

    fn from(_: io::Error) -> Fault {
        Fault::Audit(AuditFault::CannotWrite)
    }
}
