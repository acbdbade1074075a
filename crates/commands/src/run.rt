//! What the program does.

ghost use Rattle.std.specs.Prelude.{◌≡◌, ◌≤◌, ◌⊎◌};
ghost use Rattle.std.specs.Io.KnownBytes.{Keeps};
ghost use Rattle.commands.specs.Lines.{texts_of, AreNoCommandLine, AreRefusedByClap};
ghost use Rattle.commands.specs.Lines.{AreTakenByClap};
ghost use Rattle.commands.specs.Running.{IsTaken, IsLineEnd, IsEnd, IsNoLine, IsRefusedEnd};
ghost use Rattle.commands.specs.Running.{IsWordsFault};
ghost use Rattle.commands.specs.Running.{IsEarlyLine, IsTold, HasEnded, KeepsAtEnd, status_at};

use crate::backup::backup;
use crate::check::{Outcome, check};
use crate::command::{Line, read_line};
use crate::demo::demo;
use crate::fault::Fault;
use crate::files::ReadFiles;
use crate::listing::list;
use crate::progress::Followed;
use crate::select::select;
use crate::serve::serve;
use clap::error::ErrorKind;
use std::alloc::Global;
use std::io::{self, Write};
use std::net::{Net, TcpListener, TcpStream};
use std::sync::Wait;
use std::thread::Threads;
use std::time::Clock;

/// Does what a line asks for.
fn answer_line<
    Q: Wait + Threads + Net<Listener = TcpListener, Stream = TcpStream> + Clock + Eprint + Sync,
    F: ReadFiles,
    W: Write,
>(
    rt: &Q,
    alloc: Global,
    files: &F,
    line: Line<'_>,
    out: &mut W,
    is_terminal: bool,
) -> Result<Outcome, Fault>
    ensures { IsLineEnd (F.may_read files.now) line.entry (W.contents out.old)
        (W.contents out.new) result }
{
    match line {
        Line::Demo => demo(rt, alloc, out)?,
        Line::Select(selection, reading) => {
            let followed = Followed::new(rt, files, &reading, is_terminal);
            let directories = reading.directories.as_slice();
            select(rt, alloc, &followed, selection, directories, out)?;
        }
        Line::Check(reading) => {
            let followed = Followed::new(rt, files, &reading, is_terminal);
            return check(rt, alloc, &followed, reading.directories.as_slice(), out);
        }
        Line::Serve(serving, reading) => {
            let followed = Followed::new(rt, files, &reading, is_terminal);
            let directories = reading.directories.as_slice();
            serve(rt, alloc, &followed, serving, directories, out)?;
        }
        Line::Journal(path) => list(alloc, files, path, out)?,
        Line::Backup(from, folder) => backup(rt, alloc, files, from, folder, out)?,
    }
    Ok(Outcome::Done)
}

fn execute<
    Q: Wait + Threads + Net<Listener = TcpListener, Stream = TcpStream> + Clock + Eprint + Sync,
    F: ReadFiles,
    W: Write,
>(
    rt: &Q,
    alloc: Global,
    files: &F,
    words: &[String],
    out: &mut W,
    is_terminal: bool,
) -> Result<Outcome, Fault>
    ensures ends { IsTaken (texts_of words.now) → IsEnd (F.may_read files.now) (texts_of words.now)
        (W.contents out.old) (W.contents out.new) result }
    ensures no_line { AreNoCommandLine (texts_of words.now) → IsNoLine result }
    ensures refused { AreTakenByClap (texts_of words.now)
        → AreNoCommandLine (texts_of words.now) → IsWordsFault result }
    ensures by_clap { AreRefusedByClap (texts_of words.now)
        → IsRefusedEnd (texts_of words.now) result }
    ensures kept { IsEarlyLine (texts_of words.now)
        ⊎ KeepsAtEnd (W.contents out.old) (W.contents out.new) result }
{
    match read_line(alloc, words) {
        Ok(line) => answer_line(rt, alloc, files, line, out, is_terminal),
        Err(error) => match error.kind() {
            ErrorKind::OutOfMemory => Err(Fault::Memory),
            ErrorKind::DisplayHelp | ErrorKind::DisplayVersion => {
                write!(out, "{error}")?;
                Ok(Outcome::Done)
            }
            _ => Err(Fault::Words(error)),
        },
    }
}

/// How the program ends.
#[derive(Debug, Drop)]
pub struct Ending {
    /// The exit status.
    pub status: u8,
    /// Whether the fault was reported, if there is one. An error is the second writer's.
    pub told: io::Result<()>,
}

/// The exit status of an end.
fn status_of(end: &Result<Outcome, Fault>) -> u8
    ensures { result ≡ status_at end.now }
{
    match end {
        Ok(Outcome::Done) => 0,
        Ok(Outcome::Refused) => 1,
        Err(fault) => fault.status(),
    }
}

/// Reports the fault that an end is, and nothing of another end.
fn tell<E: Write>(end: &Result<Outcome, Fault>, to: &mut E) -> io::Result<()>
    ensures { IsTold end.now result (E.contents to.old) (E.contents to.new) }
{
    match end {
        Ok(_) => Ok(()),
        Err(fault) => fault.tell(to),
    }
}

/// Does what the words after the program's name ask for, and returns the exit status. If it ends
/// before that is done, it reports why.
///
/// The status is 0 if it is done. It is 1 for a refusal, with its code on the second writer, or in
/// the lines of a check. It is 2 for a fault of the words, with the usage on the second writer. It
/// is 3 if a file cannot be read or written, a folder cannot be locked or a port cannot be listened
/// on, which is named on the second writer. It is also 3 if the first writer fails, or if a server
/// loses its listener or cannot make a thread. It is 4 if there is no memory. The store of the demo
/// waits for nobody else's threads. A server waits for clients, and reports what becomes of them,
/// and what it recovered, on the host's own standard error. If that is a terminal, the directory
/// that is read is also reported there.
pub fn run<
    Q: Wait + Threads + Net<Listener = TcpListener, Stream = TcpStream> + Clock + Eprint + Sync,
    F: ReadFiles,
    W: Write,
    E: Write,
>(
    rt: &Q,
    alloc: Global,
    files: &F,
    words: &[String],
    out: &mut W,
    err: &mut E,
    is_terminal: bool,
) -> Ending
    ensures ended { HasEnded (F.may_read files.now) (texts_of words.now) (W.contents out.old)
        (W.contents out.new) (E.contents err.old) (E.contents err.new) result }
    ensures few { result.status ≤ 4 }
    ensures nothing_written { (result.status ≡ 0) ⊎ (result.status ≡ 3)
        ⊎ IsEarlyLine (texts_of words.now) ⊎ Keeps (W.contents out.old) (W.contents out.new) }
    ensures nothing_told { result.status ≡ 0 → Keeps (E.contents err.old) (E.contents err.new) }
{
    let end = execute(rt, alloc, files, words, out, is_terminal);
    let told = tell(&end, err);
    Ending {
        status: status_of(&end),
        told,
    }
}
