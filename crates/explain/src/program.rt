//! What the program does.

ghost use Rattle.std.specs.Prelude.{◌≡◌, ◌≤◌};
ghost use Rattle.std.specs.Io.KnownBytes.{Keeps};
ghost use Rattle.audit_command.specs.Asking.{texts_of};
ghost use Rattle.explain.specs.Asking.{AreTaken};
ghost use Rattle.explain.specs.Running.{IsPageEnd, IsEnd, IsNoPage, IsTold, HasEnded};
ghost use Rattle.explain.specs.Running.{status_at};

use crate::answer::answer;
use crate::command::{Asked, read_words};
use crate::fault::Fault;
use audit_command::{Ending, Fault as AuditFault, ReadFiles, send};
use clap::error::ErrorKind;
use std::alloc::Global;
use std::io::{self, Read, Write};

/// Writes the page of the reply that a reader gives, and says whether it claims that no series is
/// missing.
fn write_answer<F: ReadFiles, R: Read, W: Write>(
    alloc: Global,
    files: &F,
    asked: &Asked<'_>,
    input: &mut R,
    out: &mut W,
) -> Result<bool, Fault>
    ensures { IsPageEnd (F.may_read files.now) (R.remaining input.old) asked.now
        (W.contents out.old) (W.contents out.new) result }
{
    let page = answer(alloc, files, asked, input)?;
    send(out, page.bytes.as_slice())?;
    Ok(page.claim.completeness.is_shown())
}

fn execute<F: ReadFiles, R: Read, W: Write>(
    alloc: Global,
    files: &F,
    words: &[String],
    input: &mut R,
    out: &mut W,
) -> Result<bool, Fault>
    ensures ends { AreTaken (texts_of words.now)
        → IsEnd (F.may_read files.now) (R.remaining input.old) (texts_of words.now)
        (W.contents out.old) (W.contents out.new) result }
    ensures no_page { (AreTaken (texts_of words.now) → ⊥) → IsNoPage (texts_of words.now) result }
{
    match read_words(alloc, words) {
        Ok(asked) => write_answer(alloc, files, &asked, input, out),
        Err(error) => match error.kind() {
            ErrorKind::OutOfMemory => Err(Fault::Audit(AuditFault::Memory)),
            ErrorKind::DisplayHelp | ErrorKind::DisplayVersion => {
                write!(out, "{error}")?;
                Ok(true)
            }
            _ => Err(Fault::Audit(AuditFault::Words(error))),
        },
    }
}

/// The exit status of an end.
fn status_of(end: &Result<bool, Fault>) -> u8
    ensures { result ≡ status_at end.now }
{
    match end {
        Ok(true) => 0,
        Ok(false) => 1,
        Err(fault) => fault.status(),
    }
}

/// Tells the fault that an end is, and of another end nothing.
fn tell<E: Write>(end: &Result<bool, Fault>, to: &mut E) -> io::Result<()>
    ensures { IsTold end.now result (E.contents to.old) (E.contents to.new) }
{
    match end {
        Ok(_) => Ok(()),
        Err(fault) => fault.tell(to),
    }
}

/// Writes the page of the reply that a reader gives, as the words after the program's name ask for
/// it, and gives the exit status. If it ends before that is done, it tells why on the second
/// writer.
///
/// 0 if the page says that no series is missing; 1 if it does not, and for a selector, a range, a
/// series or a meaning of values that is refused; 2 for a fault of the words, with the usage on the
/// second writer, and for directories beside a store; 3 for what cannot be read, which is named
/// there, for a text that is no reply, for a store that is refused or changes, and if the first
/// writer fails; 4 if memory does. The words come first, then directories beside a store, the
/// selector, the range, the series, the meaning of values, the reply, and the directories in the
/// order given, or the store. Nothing is written before the page is whole.
pub fn run<F: ReadFiles, R: Read, W: Write, E: Write>(
    alloc: Global,
    files: &F,
    words: &[String],
    input: &mut R,
    out: &mut W,
    err: &mut E,
) -> Ending
    ensures ended { HasEnded (F.may_read files.now) (R.remaining input.old) (texts_of words.now)
        (W.contents out.old) (W.contents out.new) (E.contents err.old) (E.contents err.new) result }
    ensures few { result.status ≤ 4 }
    ensures nothing_told { result.status ≡ 0 → Keeps (E.contents err.old) (E.contents err.new) }
{
    let end = execute(alloc, files, words, input, out);
    let told = tell(&end, err);
    Ending {
        status: status_of(&end),
        told,
    }
}
