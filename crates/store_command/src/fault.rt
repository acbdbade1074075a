//! Why the program ends before it has printed its lines.

ghost use Rattle.std.specs.Prelude.{◌≡◌, ◌++◌, ◌∷◌, [], OnOk, IfSome};
ghost use Rattle.std.specs.Io.KnownBytes.{Appends};
ghost use Rattle.store_command.specs.Faults.{earlier_text, status_of, line_of, place_of};

use audit_command::Fault as AuditFault;
use kept_walk::KeptError;
use std::alloc::{AllocError, AllocFailed};
use std::io::{self, Write};

/// A state before a mark.
#[derive(Debug, Drop)]
pub struct Earlier {
    /// After how many events it is.
    pub at: usize,
    /// How many events the journal has behind its head.
    pub events: usize,
    /// The mark.
    pub mark: String,
}

/// Why the program ends before it has printed its lines.
#[derive(Debug, Drop)]
pub enum Fault {
    /// As an audit over directories ends: the words, the query, the reply, what cannot be read or
    /// written, no memory.
    Audit(AuditFault),
    /// What is given to `--since` is no mark.
    NoMark,
    /// The journal is refused: `J1` to `J4`, `K1` or `K2`.
    Journal(KeptError),
    /// `K1`: the head in the journal is none that a store has.
    Head,
    /// `K3`: the event at this place, from 0, is one that no store accepted after those before it.
    Event(usize),
    /// The folder at this path changed each time that it was read.
    Changes(String),
    /// The reply is right of no state, and the journal is another than that of this mark.
    Rolled(String),
    /// The reply is right of no state from the mark on, but of this one before it.
    Before(Earlier),
}

/// The place that the refusal of a journal tells: behind how many events.
fn place_of(error: KeptError) -> Option<usize>
    ensures { result ≡ place_of error }
{
    match error {
        KeptError::Change(at) | KeptError::Matcher(at) => Some(at),
        KeptError::Memory | KeptError::Journal(_) | KeptError::Head => None,
    }
}

fn tell_journal<W: Write>(error: KeptError, to: &mut W) -> io::Result<()>
    ensures { OnOk result
        (IfSome (line_of (Fault.Journal error))
        (Appends (W.contents to.old) (W.contents to.new))) }
{
    let code = error.code();
    match place_of(error) {
        Some(at) => writeln!(to, "refused {code} at {at}"),
        None => writeln!(to, "refused {code}"),
    }
}

fn tell_earlier<W: Write>(earlier: &Earlier, to: &mut W) -> io::Result<()>
    ensures { OnOk result (Appends (W.contents to.old) (W.contents to.new)
        (earlier_text earlier.now ++ 10 ∷ [])) }
{
    let at = earlier.at;
    let events = earlier.events;
    let mark = earlier.mark.as_str();
    writeln!(
        to,
        "at event {at} of {events}, before mark {mark}: ask again"
    )
}

impl Fault {
    /// The exit status: 1 for a refused query, 2 for a fault of the words or of the mark, 3 for
    /// what cannot be read, for a store that is refused, changes or is rolled, for a reply from
    /// before the mark, and for a writer that refused, 4 for no memory.
    pub fn status(&self) -> u8
        ensures { result ≡ status_of self.now }
    {
        match self {
            Fault::Audit(fault) => fault.status(),
            Fault::NoMark => 2,
            Fault::Journal(_)
            | Fault::Head
            | Fault::Event(_)
            | Fault::Changes(_)
            | Fault::Rolled(_)
            | Fault::Before(_) => 3,
        }
    }

    /// Tells the fault in a line, or how the program is used.
    pub fn tell<W: Write>(&self, to: &mut W) -> io::Result<()>
        ensures { OnOk result
            (IfSome (line_of self.now) (Appends (W.contents to.old) (W.contents to.new))) }
    {
        match self {
            Fault::Audit(fault) => fault.tell(to),
            Fault::NoMark => writeln!(to, "--since: no mark"),
            Fault::Journal(error) => tell_journal(*error, to),
            Fault::Head => writeln!(to, "refused K1"),
            Fault::Event(at) => writeln!(to, "refused K3 at {at}"),
            Fault::Changes(folder) => writeln!(to, "{folder} changes"),
            Fault::Rolled(mark) => writeln!(to, "rolled since {mark}: ask again"),
            Fault::Before(earlier) => tell_earlier(earlier, to),
        }
    }
}

impl From<AuditFault> for Fault {
    ghost use Rattle.std.specs.Prelude.{◌≡◌};
    ghost use Rattle.store_command.specs.declared.fault.Fault.TheVariants.{Audit};

    ghost from_gives = { λ error fault. fault ≡ Audit error };

    fn from(error: AuditFault) -> Fault {
        Fault::Audit(error)
    }
}

impl From<AllocError> for Fault {
    ghost use Rattle.std.specs.Prelude.{◌≡◌};
    ghost use Rattle.audit_command.specs.declared.fault.Fault.TheVariants.{Memory};
    ghost use Rattle.store_command.specs.declared.fault.Fault.TheVariants.{Audit};

    ghost from_gives = { λ _ fault. fault ≡ Audit Memory };

    fn from(_: AllocError) -> Fault {
        Fault::Audit(AuditFault::Memory)
    }
}

impl<T: Drop> From<AllocFailed<T>> for Fault {
    ghost use Rattle.std.specs.Prelude.{◌≡◌};
    ghost use Rattle.audit_command.specs.declared.fault.Fault.TheVariants.{Memory};
    ghost use Rattle.store_command.specs.declared.fault.Fault.TheVariants.{Audit};

    ghost from_gives = { λ _ fault. fault ≡ Audit Memory };

    fn from(_: AllocFailed<T>) -> Fault {
        Fault::Audit(AuditFault::Memory)
    }
}

impl From<io::Error> for Fault {
    ghost use Rattle.std.specs.Prelude.{◌≡◌};
    ghost use Rattle.audit_command.specs.declared.fault.Fault.TheVariants.{CannotWrite};
    ghost use Rattle.store_command.specs.declared.fault.Fault.TheVariants.{Audit};

    ghost from_gives = { λ _ fault. fault ≡ Audit CannotWrite };

    fn from(_: io::Error) -> Fault {
        Fault::Audit(AuditFault::CannotWrite)
    }
}
