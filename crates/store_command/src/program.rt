//! What the program does.

ghost use Rattle.std.specs.Prelude.{◌≡◌, ◌≤◌};
ghost use Rattle.std.specs.Io.KnownBytes.{Keeps};
ghost use Rattle.audit_command.specs.Asking.{texts_of};
ghost use Rattle.store_command.specs.Asking.{AreTaken, aim_of};
ghost use Rattle.store_command.specs.Running.{HasEnded, HasRun, IsAuditEnd, IsEnd, IsMarkEnd};
ghost use Rattle.store_command.specs.Running.{IsNoTask, IsTaskEnd, IsTold, status_at};

use crate::command::{Aim, Asked, Task, aim_of, read_words};
use crate::fault::Fault;
use crate::judging::{audit, read_journal};
use crate::mark::Mark;
use audit_command::{
    Ending, Fault as AuditFault, ReadFiles, Walker, Workers, run_by as run_over_directories, send,
};
use clap::error::ErrorKind;
use std::alloc::Global;
use std::io::{self, Read, Write};
use std::thread::Threads;

/// Judges the reply that a reader gives, writes the lines, and says whether it is right of a state.
fn write_audit<K: Walker, F: ReadFiles, R: Read, W: Write>(
    walker: &K,
    alloc: Global,
    files: &F,
    asked: &Asked<'_>,
    input: &mut R,
    out: &mut W,
) -> Result<bool, Fault>
    requires ready { K.is_ready walker.now }
    ensures { IsAuditEnd (F.may_read files.now) (R.remaining input.old) asked.now
        (W.contents out.old) (W.contents out.new) result }
{
    let report = audit(walker, alloc, files, asked, input)?;
    send(out, report.text.as_bytes())?;
    Ok(report.is_right)
}

/// Writes the mark of the store in a folder.
fn write_mark<F: ReadFiles, W: Write>(
    alloc: Global,
    files: &F,
    folder: &str,
    out: &mut W,
) -> Result<bool, Fault>
    ensures { IsMarkEnd (F.may_read files.now) folder.now
        (W.contents out.old) (W.contents out.new) result }
{
    let found = read_journal(alloc, files, folder)?;
    let mark = Mark::at(found.head, found.kept.changes().len()).text(alloc)?;
    let line = format!(in alloc; "mark {mark}\n")?;
    send(out, line.as_bytes())?;
    Ok(true)
}

fn do_task<K: Walker, F: ReadFiles, R: Read, W: Write>(
    walker: &K,
    alloc: Global,
    files: &F,
    task: &Task<'_>,
    input: &mut R,
    out: &mut W,
) -> Result<bool, Fault>
    requires ready { K.is_ready walker.now }
    ensures { IsTaskEnd (F.may_read files.now) (R.remaining input.old) task.now
        (W.contents out.old) (W.contents out.new) result }
{
    match task {
        Task::Audit(asked) => write_audit(walker, alloc, files, asked, input, out),
        Task::Mark(folder) => write_mark(alloc, files, folder, out),
    }
}

fn execute<K: Walker, F: ReadFiles, R: Read, W: Write>(
    walker: &K,
    alloc: Global,
    files: &F,
    aim: Aim,
    words: &[String],
    input: &mut R,
    out: &mut W,
) -> Result<bool, Fault>
    requires ready { K.is_ready walker.now }
    ensures ends { AreTaken aim (texts_of words.now)
        → IsEnd aim (F.may_read files.now) (R.remaining input.old) (texts_of words.now)
        (W.contents out.old) (W.contents out.new) result }
    ensures no_task { (AreTaken aim (texts_of words.now) → ⊥)
        → IsNoTask aim (texts_of words.now) result }
{
    match read_words(alloc, aim, words) {
        Ok(task) => do_task(walker, alloc, files, &task, input, out),
        Err(error) => match error.kind() {
            ErrorKind::OutOfMemory => Err(Fault::Audit(AuditFault::Memory)),
            ErrorKind::DisplayHelp | ErrorKind::DisplayVersion => {
                write!(out, "{error}")?;
                Ok(true)
            }
            _ => Err(Fault::Audit(AuditFault::Words(error))),
        },
    }
}

/// The exit status of an end.
fn status_of(end: &Result<bool, Fault>) -> u8
    ensures { result ≡ status_at end.now }
{
    match end {
        Ok(true) => 0,
        Ok(false) => 1,
        Err(fault) => fault.status(),
    }
}

/// Tells the fault that an end is, and of another end nothing.
fn tell<E: Write>(end: &Result<bool, Fault>, to: &mut E) -> io::Result<()>
    ensures { IsTold end.now result (E.contents to.old) (E.contents to.new) }
{
    match end {
        Ok(_) => Ok(()),
        Err(fault) => fault.tell(to),
    }
}

/// Does what words want of a store.
fn run_over_store<K: Walker, F: ReadFiles, R: Read, W: Write, E: Write>(
    walker: &K,
    alloc: Global,
    files: &F,
    aim: Aim,
    words: &[String],
    input: &mut R,
    out: &mut W,
    err: &mut E,
) -> Ending
    requires ready { K.is_ready walker.now }
    ensures ended { HasEnded aim (F.may_read files.now) (R.remaining input.old)
        (texts_of words.now) (W.contents out.old) (W.contents out.new)
        (E.contents err.old) (E.contents err.new) result }
    ensures few { result.status ≤ 4 }
    ensures nothing_told { result.status ≡ 0 → Keeps (E.contents err.old) (E.contents err.new) }
{
    let end = execute(walker, alloc, files, aim, words, input, out);
    let told = tell(&end, err);
    Ending {
        status: status_of(&end),
        told,
    }
}

/// Does what the words after the program's name ask for, and gives the exit status: it audits a
/// reply over directories, as [`audit_command::run_by`] does, or over the folder of a store, or
/// writes the mark of a store. If it ends before that is done, it tells why on the second writer.
///
/// Over a store, 0 if the reply is right of a state of it, and if the mark is written; 1 if it is
/// right of none, if the files of a block are refused, and for a selector or a range that is
/// refused; 2 for a fault of the words or of the mark; 3 for what cannot be read, which is named
/// there, for a text that is no reply, a journal that is refused, a folder that changes or is
/// rolled, a reply that is right of a state before the mark alone, and if the first writer fails;
/// 4 if memory does. The words come first, then the mark, the selector, the range, the reply, and
/// the folder. Nothing is written before all is judged.
pub fn run_by<T: Threads + Sync, F: ReadFiles, R: Read, W: Write, E: Write>(
    rt: &T,
    alloc: Global,
    files: &F,
    words: &[String],
    input: &mut R,
    out: &mut W,
    err: &mut E,
) -> Ending
    ensures ended { HasRun (aim_of (texts_of words.now)) (F.may_read files.now)
        (R.remaining input.old) (texts_of words.now) (W.contents out.old) (W.contents out.new)
        (E.contents err.old) (E.contents err.new) result }
    ensures few { result.status ≤ 4 }
    ensures nothing_told { result.status ≡ 0 → Keeps (E.contents err.old) (E.contents err.new) }
{
    match aim_of(words) {
        Some(aim) => {
            let walker = Workers { rt };
            run_over_store(&walker, alloc, files, aim, words, input, out, err)
        }
        None => run_over_directories(rt, alloc, files, words, input, out, err),
    }
}
