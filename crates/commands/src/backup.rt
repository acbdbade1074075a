//! A store that is kept, copied while its server may run.

ghost use Rattle.std.specs.Prelude.{◌≡◌, ◌⊎◌, IfErr, IfOk, OnOk, string_bytes, true};
ghost use Rattle.commands.specs.Backing.{IsBackedUp, IsBackupFault, IsCopyFault, backup_line};
ghost use Rattle.commands.specs.Keeping.{IsDataFault, IsFolderFault};
ghost use Rattle.commands.specs.Selecting.{KeepsAt};
ghost use Rattle.data_folder.specs.Hosts.{host_sound};
ghost use Rattle.store_backup.specs.Copies.{TellsSome};
ghost use Rattle.store_folder.specs.Codes.{cause_of};
ghost use Rattle.store_folder.specs.Refusals.{IsRefusal};
ghost use Rattle.store_folder.specs.declared.error.StartCause.TheVariants.{Refused as IsRefused};

use crate::fault::{Fault, Refusal};
use crate::files::ReadFiles;
use crate::keeping::{no_journal, unreadable};
use crate::locking::{cannot_read, cannot_write, lock_data};
use crate::sending::send;
use data_folder::HostFolder;
use std::alloc::{AllocError, Global};
use std::fs;
use std::io::{ErrorKind, Write};
use std::thread::Threads;
use store_backup::{Copied, CopyFault, copy_between};
use store_folder::{RollFault, StartCause, StartError};

/// The line of a copy, as `OUT: 2 blocks, 37 events`.
fn line_of(alloc: Global, out: &str, copied: Copied) -> Result<String, AllocError>
    ensures { IfOk result (λ line.
        string_bytes line ≡ backup_line out.now copied.blocks copied.events) }
{
    let Copied { events, blocks } = copied;
    format!(in alloc; "{out}: {blocks} blocks, {events} events\n")
}

/// Refuses a folder that is there and is not empty, with `O6`.
fn check_empty(alloc: Global, host: &HostRuntime, folder: &str) -> Result<(), Fault>
    ensures { IfErr result (λ fault. IsFolderFault folder.now fault
        ⊎ (fault ≡ Fault.Refused Refusal.NotEmpty)) }
{
    match fs::read_dir(host, folder) {
        Ok(mut entries) => match entries.next() {
            Some(_) => Err(Fault::Refused(Refusal::NotEmpty)),
            None => Ok(()),
        },
        Err(error) if error.kind() == ErrorKind::NotFound => Ok(()),
        Err(_) => Err(cannot_read(alloc, folder)),
    }
}

/// Why the store of a folder is not read.
fn not_read(alloc: Global, folder: &str, error: StartError) -> Fault
    requires { cause_of error ≡ IsRefused → IsRefusal error }
    ensures { IsDataFault folder.now result }
{
    match error.cause() {
        StartCause::Memory => Fault::Memory,
        StartCause::Folder => unreadable(alloc, folder, error),
        StartCause::Refused => Fault::Refused(Refusal::Start(error)),
    }
}

/// Why a copy is not written.
fn not_written(alloc: Global, folder: &str, fault: RollFault) -> Fault
    ensures { IsFolderFault folder.now result }
{
    match fault {
        RollFault::Memory => Fault::Memory,
        _ => cannot_write(alloc, folder),
    }
}

/// Why the store of a folder is not copied to another one.
fn not_copied(alloc: Global, from: &str, out: &str, fault: CopyFault) -> Fault
    requires { (error : StartError) → fault ≡ CopyFault.Source error
        → cause_of error ≡ IsRefused → IsRefusal error }
    ensures { IsCopyFault from.now out.now result }
{
    match fault {
        CopyFault::Taken | CopyFault::Blocks => Fault::Refused(Refusal::NotEmpty),
        CopyFault::NoStore => no_journal(alloc, from),
        CopyFault::Changed => Fault::Refused(Refusal::Unsettled),
        CopyFault::Source(error) => not_read(alloc, from, error),
        CopyFault::Write(fault) => not_written(alloc, out, fault),
        CopyFault::Target => cannot_write(alloc, out),
    }
}

/// Two views of a folder of the host, to read a store by.
fn views_of<'a>(
    alloc: Global,
    host: &'a HostRuntime,
    folder: &'a str,
) -> (HostFolder<'a, HostRuntime>, HostFolder<'a, HostRuntime>)
    ensures { (host_sound result.0 ≡ true) × (host_sound result.1 ≡ true) }
{
    (
        HostFolder::new(host, alloc, folder),
        HostFolder::new(host, alloc, folder),
    )
}

/// Copies a store of the host to a folder, which is made if there is none, and locked meanwhile.
fn copy<R: Threads + Sync>(
    rt: &R,
    alloc: Global,
    host: &HostRuntime,
    from: &str,
    out: &str,
) -> Result<Copied, Fault>
    ensures ok { IfOk result TellsSome }
    ensures err { IfErr result (IsCopyFault from.now out.now) }
{
    check_empty(alloc, host, out)?;
    let lock = lock_data(alloc, host, out)?;
    // The source's journal may be begun anew each time that it is read, five times in all.
    let mut views = [
        views_of(alloc, host, from),
        views_of(alloc, host, from),
        views_of(alloc, host, from),
        views_of(alloc, host, from),
        views_of(alloc, host, from),
    ];
    let target = HostFolder::new(host, alloc, out);
    let copied = match copy_between(rt, alloc, &mut views, target) {
        Ok((copied, _)) => copied,
        Err((fault, _)) => return Err(not_copied(alloc, from, out, fault)),
    };
    drop(lock);
    Ok(copied)
}

/// Copies the store that is kept in a folder to another folder, and reports how many blocks and
/// events the copy has. The other folder must not be there, or must be empty. A server may keep the
/// store meanwhile.
pub(crate) fn backup<R: Threads + Sync, F: ReadFiles, W: Write>(
    rt: &R,
    alloc: Global,
    files: &F,
    from: &str,
    folder: &str,
    out: &mut W,
) -> Result<(), Fault>
    ensures ok { OnOk result (IsBackedUp folder.now (W.contents out.old) (W.contents out.new)) }
    ensures err { IfErr result (IsBackupFault from.now folder.now) }
    ensures kept { IfErr result (λ fault. KeepsAt fault (W.contents out.old) (W.contents out.new)) }
{
    let Some(host) = files.host() else {
        return Err(cannot_write(alloc, folder));
    };
    let copied = copy(rt, alloc, host, from, folder)?;
    let line = line_of(alloc, folder, copied)?;
    send(out, line.as_bytes())?;
    Ok(())
}
