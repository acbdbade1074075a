//! What the program does.

ghost use Rattle.std.specs.Prelude.{◌≡◌, ◌≤◌, OnOk};
ghost use Rattle.std.specs.Io.KnownBytes.{Appends, Keeps};
ghost use Rattle.audit_command.specs.Asking.{texts_of, AreTaken};
ghost use Rattle.audit_command.specs.Running.{IsAuditEnd, IsEnd, IsNoAudit, IsTold, HasEnded};
ghost use Rattle.audit_command.specs.Running.{status_at};

use crate::command::{Asked, read_words};
use crate::fault::Fault;
use crate::files::ReadFiles;
use crate::report::{Outcome, audit};
use crate::walking::{OneThread, Walker, Workers};
use clap::error::ErrorKind;
use std::alloc::Global;
use std::io::{self, Read, Write};
use std::thread::Threads;

/// Writes a text whole and passes it on.
pub fn send<W: Write>(out: &mut W, text: &[u8]) -> io::Result<()>
    ensures { OnOk result (Appends (W.contents out.old) (W.contents out.new) text.now) }
{
    out.write_all(text)?;
    out.flush()
}

/// Audits the reply that a reader gives, and writes the lines.
fn write_audit<K: Walker, F: ReadFiles, R: Read, W: Write>(
    walker: &K,
    alloc: Global,
    files: &F,
    asked: &Asked<'_>,
    input: &mut R,
    out: &mut W,
) -> Result<Outcome, Fault>
    requires ready { K.is_ready walker.now }
    ensures { IsAuditEnd (F.may_read files.now) (R.remaining input.old) asked.now
        (W.contents out.old) (W.contents out.new) result }
{
    let report = audit(walker, alloc, files, asked, input)?;
    send(out, report.text.as_bytes())?;
    Ok(report.outcome)
}

fn execute<K: Walker, F: ReadFiles, R: Read, W: Write>(
    walker: &K,
    alloc: Global,
    files: &F,
    words: &[String],
    input: &mut R,
    out: &mut W,
) -> Result<Outcome, Fault>
    requires ready { K.is_ready walker.now }
    ensures ends { AreTaken (texts_of words.now)
        → IsEnd (F.may_read files.now) (R.remaining input.old) (texts_of words.now)
        (W.contents out.old) (W.contents out.new) result }
    ensures no_audit { (AreTaken (texts_of words.now) → ⊥) → IsNoAudit (texts_of words.now) result }
{
    match read_words(alloc, words) {
        Ok(asked) => write_audit(walker, alloc, files, &asked, input, out),
        Err(error) => match error.kind() {
            ErrorKind::OutOfMemory => Err(Fault::Memory),
            ErrorKind::DisplayHelp | ErrorKind::DisplayVersion => {
                write!(out, "{error}")?;
                Ok(Outcome::Done)
            }
            _ => Err(Fault::Words(error)),
        },
    }
}

/// How a program ends.
#[derive(Debug, Drop)]
pub struct Ending {
    /// The exit status.
    pub status: u8,
    /// Whether the fault was told, if there is one: an error is the second writer's.
    pub told: io::Result<()>,
}

/// The exit status of an end.
fn status_of(end: &Result<Outcome, Fault>) -> u8
    ensures { result ≡ status_at end.now }
{
    match end {
        Ok(Outcome::Done) => 0,
        Ok(Outcome::Flawed) => 1,
        Err(fault) => fault.status(),
    }
}

/// Tells the fault that an end is, and of another end nothing.
fn tell<E: Write>(end: &Result<Outcome, Fault>, to: &mut E) -> io::Result<()>
    ensures { IsTold end.now result (E.contents to.old) (E.contents to.new) }
{
    match end {
        Ok(_) => Ok(()),
        Err(fault) => fault.tell(to),
    }
}

/// What [`run`] does, by the one who walks.
fn run_with<K: Walker, F: ReadFiles, R: Read, W: Write, E: Write>(
    walker: &K,
    alloc: Global,
    files: &F,
    words: &[String],
    input: &mut R,
    out: &mut W,
    err: &mut E,
) -> Ending
    requires ready { K.is_ready walker.now }
    ensures ended { HasEnded (F.may_read files.now) (R.remaining input.old) (texts_of words.now)
        (W.contents out.old) (W.contents out.new) (E.contents err.old) (E.contents err.new) result }
    ensures few { result.status ≤ 4 }
    ensures nothing_told { result.status ≡ 0 → Keeps (E.contents err.old) (E.contents err.new) }
{
    let end = execute(walker, alloc, files, words, input, out);
    let told = tell(&end, err);
    Ending {
        status: status_of(&end),
        told,
    }
}

/// Audits the reply that a reader gives, as the words after the program's name ask for it, writes
/// the lines, and gives the exit status. Where it ends before that is done, it tells why on the
/// second writer.
///
/// 0 where nothing is wrong; 1 where a line names a flaw or a refusal, and for a selector or a
/// range that is refused; 2 for a fault of the words, with the usage on the second writer; 3 for
/// what cannot be read, which is named there, for a text that is no reply, and where the first
/// writer fails; 4 where memory does. The words come first, then the selector, the range, the
/// reply, and the directories in the order given. Nothing is written before all is judged.
pub fn run<F: ReadFiles, R: Read, W: Write, E: Write>(
    alloc: Global,
    files: &F,
    words: &[String],
    input: &mut R,
    out: &mut W,
    err: &mut E,
) -> Ending
    ensures ended { HasEnded (F.may_read files.now) (R.remaining input.old) (texts_of words.now)
        (W.contents out.old) (W.contents out.new) (E.contents err.old) (E.contents err.new) result }
    ensures few { result.status ≤ 4 }
    ensures nothing_told { result.status ≡ 0 → Keeps (E.contents err.old) (E.contents err.new) }
{
    run_with(&OneThread, alloc, files, words, input, out, err)
}

/// The same as [`run`], with each block walked by several threads, the calling one among them. What
/// is written does not depend on whether they can be started.
pub fn run_by<T: Threads + Sync, F: ReadFiles, R: Read, W: Write, E: Write>(
    rt: &T,
    alloc: Global,
    files: &F,
    words: &[String],
    input: &mut R,
    out: &mut W,
    err: &mut E,
) -> Ending
    ensures ended { HasEnded (F.may_read files.now) (R.remaining input.old) (texts_of words.now)
        (W.contents out.old) (W.contents out.new) (E.contents err.old) (E.contents err.new) result }
    ensures few { result.status ≤ 4 }
    ensures nothing_told { result.status ≡ 0 → Keeps (E.contents err.old) (E.contents err.new) }
{
    run_with(&Workers { rt }, alloc, files, words, input, out, err)
}
