//! A store that is kept in a folder, and its server.

ghost use Rattle.std.specs.Prelude.{◌≡◌, ◌⊎◌, ℕ, List, Option, None, Ok, false, true, IfOk, IfErr};
ghost use Rattle.std.specs.Prelude.{OnOk, map, vec_len};
ghost use Rattle.std.specs.List.{All};
ghost use Rattle.std.specs.Thread.{IsSend, IsSync};
ghost use Rattle.data_folder.specs.Folders.{HasFile, LeavesOnly, Untouched};
ghost use Rattle.data_folder.specs.JournalFile.{journal_name};
ghost use Rattle.head.specs.Blocks.{part_in};
ghost use Rattle.head.specs.Heads.{world_of};
ghost use Rattle.head.specs.Worlds.{replayed};
ghost use Rattle.store_folder.specs.Codes.{cause_of};
ghost use Rattle.store_folder.specs.Faults.{TellsFiles};
ghost use Rattle.store_folder.specs.Finding.{IsFoundStore};
ghost use Rattle.store_folder.specs.Holding.{HoldsOrLost};
ghost use Rattle.store_folder.specs.Starting.{GoesOn};
ghost use Rattle.store_folder.specs.Origins.{beginning};
ghost use Rattle.store_folder.specs.Plain.{HasEither, may_be_plain};
ghost use Rattle.store_folder.specs.States.{origin_of};
ghost use Rattle.store_folder.specs.Sweeps.{ListsNumber};
ghost use Rattle.server.specs.Shifts.{AreUnder, EachServed};
ghost use Rattle.store_folder.specs.Refusals.{IsRefusal};
ghost use Rattle.store_folder.specs.declared.error.StartCause.TheVariants.{Refused};
ghost use Rattle.commands.specs.Keeping.{IsDataFault, IsFoundOnHost, IsRead, first_of};
ghost use Rattle.commands.specs.Keeping.{IsMeant, IsPortFault, asked_values};
ghost use Rattle.commands.specs.Selecting.{KeepsAt};
ghost use Rattle.commands.specs.ServingRuns.{TellsPort, IsKeepingFault, IsServingFault};
ghost use Rattle.commands.specs.ServingRuns.{IsFolderRunFault};

use crate::command::Serving;
use crate::fault::{Fault, Refusal};
use crate::files::ReadFiles;
use crate::locking::{block_path_in, cannot_read, cannot_write, lock_data, path_in};
use crate::process::Process;
use crate::serve::{Doors, counts_of, passes_of, seats_of, serve_workers, watch_at, with_roles};
use crate::upkeep::upkeep_of;
use block_folder::Values;
use data_folder::{Folder, HostFolder, RollError};
use guard::Rules;
use server::{Shift, Workers, report_opening};
use snapshots::{Joining, Naming, Store};
use std::alloc::Global;
use std::io::Write;
use std::marker::Brand;
use std::net::{Net, TcpListener, TcpStream};
use std::sync::Wait;
use std::sync::atomic::{AtomicBool, Ordering};
use std::thread::{Threads, join};
use std::time::Clock;
use store_folder::{
    Beginning, FoundJournal, FoundStore, RollFault, StartCause, StartError, StartedStore,
    StoreKeeper, begin_store, has_blocks, open_store, resume_store,
};

/// How many bytes one MB of a journal has.
const MB: u64 = 1_048_576;

/// The fault that what is in a folder cannot be read: the folder of a block, or the journal.
pub(crate) fn unreadable(alloc: Global, folder: &str, error: StartError) -> Fault
    ensures { IsDataFault folder.now result }
{
    let path = match error {
        StartError::Block(unread) => block_path_in(alloc, folder, unread.number),
        _ => path_in(alloc, folder, "journal"),
    };
    match path {
        Ok(path) => cannot_read(alloc, path.as_str()),
        Err(_) => Fault::Memory,
    }
}

/// The fault that the journal in a folder is not there.
pub(crate) fn no_journal(alloc: Global, folder: &str) -> Fault
    ensures { IsDataFault folder.now result }
{
    match path_in(alloc, folder, "journal") {
        Ok(path) => cannot_read(alloc, path.as_str()),
        Err(_) => Fault::Memory,
    }
}

/// The fault that the journal in a folder cannot be written.
fn unwritable(alloc: Global, folder: &str) -> Fault
    ensures { IsDataFault folder.now result }
{
    match path_in(alloc, folder, "journal") {
        Ok(path) => cannot_write(alloc, path.as_str()),
        Err(_) => Fault::Memory,
    }
}

/// Checks that a folder that has no journal has no blocks either. Whoever has lost a journal shall
/// not lose the blocks as well. Nothing is changed.
fn check_nothing<H: Folder>(alloc: Global, disk: &mut H, folder: &str) -> Result<(), Fault>
    requires { H.sound disk.old ≡ true }
    ensures none { OnOk result (ListsNumber H.lists disk.new false) }
    ensures sound { H.sound disk.new ≡ true }
    ensures untouched { Untouched H.shows H.kept H.moment H.left_since disk.old disk.new }
    ensures err { IfErr result (IsDataFault folder.now) }
{
    match has_blocks(alloc, disk) {
        Ok(false) => Ok(()),
        Ok(true) | Err(_) => Err(no_journal(alloc, folder)),
    }
}

/// The store that a folder has, if it has one. `None` only if it has no blocks either. Nothing is
/// changed, but a journal of events alone is given a head.
fn read_data<R: Threads + Sync, H: Folder>(
    rt: &R,
    alloc: Global,
    disk: &mut H,
    folder: &str,
) -> Result<Option<FoundStore>, Fault>
    requires { H.sound disk.old ≡ true }
    ensures read { IfOk result (IsRead H.shows H.kept H.sound disk.new) }
    ensures none { result ≡ Ok None → ListsNumber H.lists disk.new false }
    // These hold of a folder that says what its files have, whatever is answered. Nothing is
    // changed, unless the journal is one of events alone. Then a crash leaves it as it was, or with
    // a head.
    ensures whole { TellsFiles H.shows → (x : Option (List ℕ)) → H.shows disk.old journal_name x
        → may_be_plain x ≡ false
        → Untouched H.shows H.kept H.moment H.left_since disk.old disk.new }
    ensures any_moment { TellsFiles H.shows → (file : List ℕ)
        → HasFile H.shows H.kept journal_name file disk.old
        → LeavesOnly H.moment H.left_since disk.old disk.new (HasEither file) }
    ensures err { IfErr result (IsDataFault folder.now) }
{
    match open_store(rt, alloc, disk) {
        Ok(Some(found)) => Ok(Some(found)),
        Ok(None) => match check_nothing(alloc, disk, folder) {
            Ok(()) => Ok(None),
            Err(fault) => Err(fault),
        },
        Err(error) => Err(match error.cause() {
            StartCause::Memory => Fault::Memory,
            StartCause::Folder => unreadable(alloc, folder, error),
            StartCause::Refused => Fault::Refused(Refusal::Start(error)),
        }),
    }
}

/// Reads the store that a folder of the host has, if it has one.
fn read_host<R: Threads + Sync, F: ReadFiles>(
    rt: &R,
    alloc: Global,
    files: &F,
    folder: &str,
) -> Result<Option<FoundStore>, Fault>
    ensures read { IfOk result IsFoundOnHost }
    ensures err { IfErr result (IsDataFault folder.now) }
{
    let Some(host) = files.host() else {
        return Err(cannot_write(alloc, folder));
    };
    let mut disk = HostFolder::new(host, alloc, folder);
    let found = read_data(rt, alloc, &mut disk, folder)?;
    Ok(found)
}

/// Reads as [`read_host`] does, and meanwhile answers those that watch.
fn read_watched<R: Threads + Clock + Sync, F: ReadFiles>(
    rt: &R,
    alloc: Global,
    files: &F,
    folder: &str,
    listener: &TcpListener,
) -> Result<Option<FoundStore>, Fault>
    ensures read { IfOk result IsFoundOnHost }
    ensures err { IfErr result (IsDataFault folder.now) }
{
    let process = Process { alloc, files };
    let watch = watch_at(listener, &process);
    let over = AtomicBool::new(false);
    let (watch, ended) = (&watch, &over);
    let apart = || report_opening(rt, alloc, watch, ended);
    let here = || -> Result<Option<FoundStore>, Fault>
        requires { IsSync R.row × IsSync F.row }
        ensures read { IfOk result IsFoundOnHost }
        ensures err { IfErr result (IsDataFault folder.entry.now) }
    {
        let read = read_host(rt, alloc, files, folder);
        ended.store(true, Ordering::SeqCst);
        read
    };
    let (_, read) = join(rt, apart, here);
    read
}

/// Reads as [`read_host`] does, and meanwhile answers those that watch, if any can.
fn read_beside<R: Threads + Clock + Sync, F: ReadFiles>(
    rt: &R,
    alloc: Global,
    files: &F,
    folder: &str,
    beside: Option<&TcpListener>,
) -> Result<Option<FoundStore>, Fault>
    ensures read { IfOk result IsFoundOnHost }
    ensures err { IfErr result (IsDataFault folder.now) }
{
    match beside {
        Some(listener) => read_watched(rt, alloc, files, folder, listener),
        None => read_host(rt, alloc, files, folder),
    }
}

/// Reports that a journal was begun.
fn tell_begun<R: Eprint>(rt: &R, folder: &str) {
    let _ = eprintln!(rt; "began {folder}/journal");
}

/// Reports what a start recovered: the blocks that the head names, if there are any, and the
/// events.
fn tell_recovered<R: Eprint>(rt: &R, journal: &FoundJournal) {
    let (blocks, events) = (journal.head.places().len(), journal.events.len());
    if blocks > 0 {
        let noun = if blocks == 1 { "block" } else { "blocks" };
        let _ = eprint!(rt; "recovered {blocks} {noun}, ");
    } else {
        let _ = eprint!(rt; "recovered ");
    }
    let torn = journal.torn;
    let noun = if events == 1 { "event" } else { "events" };
    let _ = if torn == 0 {
        eprintln!(rt; "{events} {noun}")
    } else {
        eprintln!(rt; "{events} {noun}, {torn} bytes of a torn record cut off")
    };
}

/// Reports that a journal was begun anew.
fn tell_rolled<R: Eprint>(rt: &R, folder: &str, blocks: usize, series: usize) {
    let noun = if blocks == 1 { "block" } else { "blocks" };
    let _ = eprintln!(rt; "rolled {folder}/journal: {blocks} {noun}, {series} series");
}

/// Reports that a journal was not begun anew, and goes on.
fn tell_not_rolled<R: Eprint>(rt: &R, folder: &str, fault: RollFault) {
    let _ = eprintln!(rt; "did not roll {folder}/journal: {fault}");
}

/// Saves a store, if that is worth it, and reports what came of it.
fn roll_data<R: Eprint, N: Beginning, H: Folder + Drop>(
    rt: &R,
    alloc: Global,
    folder: &str,
    most: u64,
    kept: StartedStore<N, H>,
) -> Result<StartedStore<N, H>, Fault>
    requires { GoesOn H.shows H.kept H.sound H.moment H.left_since N.first
        kept.keeper.store.events.journal.medium kept.keeper.store.events.journal.len
        kept.keeper.store.events.journal.closed kept.journal.events.items
        kept.keeper.places.items (map part_in kept.keeper.blocks.items) kept.snapshot }
    ensures journal { IfOk result (λ x. x.journal ≡ kept.journal) }
    ensures world { IfOk result (λ x. replayed N.first.world x.journal.events.items
        ≡ Ok (world_of x.snapshot)) }
    ensures held { IfOk result (λ x. HoldsOrLost H.shows H.kept H.sound H.moment H.left_since
        N.first x.keeper.store.events.journal.medium x.keeper.store.events.journal.len
        x.keeper.store.events.journal.closed x.journal.events.items x.keeper.places.items
        (map part_in x.keeper.blocks.items)) }
    ensures err { IfErr result (IsDataFault folder.now) }
{
    let mut kept = kept;
    if !kept.is_due(most) {
        return Ok(kept);
    }
    match kept.keeper.roll(alloc, &kept.snapshot) {
        Ok(blocks) => {
            tell_rolled(rt, folder, blocks, kept.snapshot.head().series_count());
            Ok(kept)
        }
        Err(RollFault::Folder(RollError::Lost)) => Err(unwritable(alloc, folder)),
        Err(fault) => {
            tell_not_rolled(rt, folder, fault);
            Ok(kept)
        }
    }
}

/// Why a store does not go on or begin: its folder is refused, or cannot be written.
fn not_started(alloc: Global, folder: &str, error: StartError) -> Fault
    requires { cause_of error ≡ Refused → IsRefusal error }
    ensures { IsDataFault folder.now result }
{
    match error.cause() {
        StartCause::Memory => Fault::Memory,
        StartCause::Folder => unwritable(alloc, folder),
        StartCause::Refused => Fault::Refused(Refusal::Start(error)),
    }
}

/// Begins the store of a folder that has none, and reports it. The values of the store mean this.
fn begin_data<R: Eprint, N: Beginning, H: Folder + Drop>(
    rt: &R,
    alloc: Global,
    disk: H,
    folder: &str,
    values: Values,
    most: u64,
) -> Result<StartedStore<N, H>, Fault>
    requires read { IsRead H.shows H.kept H.sound disk None }
    requires first { N.first ≡ beginning values }
    ensures world { IfOk result (λ x. replayed N.first.world x.journal.events.items
        ≡ Ok (world_of x.snapshot)) }
    ensures held { IfOk result (λ x. HoldsOrLost H.shows H.kept H.sound H.moment H.left_since
        N.first x.keeper.store.events.journal.medium x.keeper.store.events.journal.len
        x.keeper.store.events.journal.closed x.journal.events.items x.keeper.places.items
        (map part_in x.keeper.blocks.items)) }
    ensures err { IfErr result (IsDataFault folder.now) }
{
    match begin_store(alloc, disk, values, most) {
        Ok(kept) => {
            tell_begun(rt, folder);
            Ok(kept)
        }
        Err((error, _)) => Err(not_started(alloc, folder, error)),
    }
}

/// Goes on with the store that was found in a folder, reports it, and saves it if that is worth it.
fn resume_data<R: Eprint, N: Beginning, H: Folder + Drop>(
    rt: &R,
    alloc: Global,
    disk: H,
    found: FoundStore,
    folder: &str,
    most: u64,
) -> Result<StartedStore<N, H>, Fault>
    requires sound { H.sound disk ≡ true }
    requires found { IsFoundStore H.shows H.kept found.journal (map part_in found.blocks.items)
        disk }
    requires first { N.first
        ≡ origin_of found.journal.head (map part_in found.blocks.items) }
    ensures world { IfOk result (λ x. replayed N.first.world x.journal.events.items
        ≡ Ok (world_of x.snapshot)) }
    ensures held { IfOk result (λ x. HoldsOrLost H.shows H.kept H.sound H.moment H.left_since
        N.first x.keeper.store.events.journal.medium x.keeper.store.events.journal.len
        x.keeper.store.events.journal.closed x.journal.events.items x.keeper.places.items
        (map part_in x.keeper.blocks.items)) }
    ensures err { IfErr result (IsDataFault folder.now) }
{
    match resume_store(alloc, disk, found, most) {
        Ok(kept) => {
            tell_recovered(rt, &kept.journal);
            roll_data(rt, alloc, folder, most, kept)
        }
        Err((error, _)) => Err(not_started(alloc, folder, error)),
    }
}

/// Goes on with the store that was found in a folder, or begins one there. What is answered is the
/// snapshot that the journal's events make of its head and blocks, and what keeps these events.
fn start_data<R: Eprint, N: Beginning, H: Folder + Drop>(
    rt: &R,
    alloc: Global,
    disk: H,
    found: Option<FoundStore>,
    folder: &str,
    values: Values,
    most: u64,
) -> Result<StartedStore<N, H>, Fault>
    requires read { IsRead H.shows H.kept H.sound disk found }
    requires first { N.first ≡ first_of values found }
    ensures world { IfOk result (λ x. replayed N.first.world x.journal.events.items
        ≡ Ok (world_of x.snapshot)) }
    ensures held { IfOk result (λ x. HoldsOrLost H.shows H.kept H.sound H.moment H.left_since
        N.first x.keeper.store.events.journal.medium x.keeper.store.events.journal.len
        x.keeper.store.events.journal.closed x.journal.events.items x.keeper.places.items
        (map part_in x.keeper.blocks.items)) }
    ensures err { IfErr result (IsDataFault folder.now) }
{
    match found {
        Some(found) => resume_data(rt, alloc, disk, found, folder, most),
        None => begin_data(rt, alloc, disk, folder, values, most),
    }
}

/// Starts a store as [`start_data`] does, and meanwhile answers those that watch.
fn start_watched<
    R: Threads + Clock + Eprint + Sync,
    N: Beginning + Send,
    F: ReadFiles,
    H: Folder + Drop + Send,
>(
    rt: &R,
    alloc: Global,
    files: &F,
    disk: H,
    found: Option<FoundStore>,
    folder: &str,
    values: Values,
    most: u64,
    listener: &TcpListener,
) -> Result<StartedStore<N, H>, Fault>
    requires read { IsRead H.shows H.kept H.sound disk found }
    requires first { N.first ≡ first_of values found }
    ensures world { IfOk result (λ x. replayed N.first.world x.journal.events.items
        ≡ Ok (world_of x.snapshot)) }
    ensures held { IfOk result (λ x. HoldsOrLost H.shows H.kept H.sound H.moment H.left_since
        N.first x.keeper.store.events.journal.medium x.keeper.store.events.journal.len
        x.keeper.store.events.journal.closed x.journal.events.items x.keeper.places.items
        (map part_in x.keeper.blocks.items)) }
    ensures err { IfErr result (IsDataFault folder.now) }
{
    let process = Process { alloc, files };
    let watch = watch_at(listener, &process);
    let over = AtomicBool::new(false);
    let (watch, ended) = (&watch, &over);
    let apart = || report_opening(rt, alloc, watch, ended);
    let here = || -> Result<StartedStore<N, H>, Fault>
        requires { IsSync R.row × IsSend H.row
            × IsRead H.shows H.kept H.sound disk found × (N.first ≡ first_of values found) }
        ensures world { IfOk result (λ x. replayed N.first.world x.journal.events.items
            ≡ Ok (world_of x.snapshot)) }
        ensures held { IfOk result (λ x. HoldsOrLost H.shows H.kept H.sound H.moment
            H.left_since N.first x.keeper.store.events.journal.medium
            x.keeper.store.events.journal.len x.keeper.store.events.journal.closed
            x.journal.events.items x.keeper.places.items
            (map part_in x.keeper.blocks.items)) }
        ensures err { IfErr result (IsDataFault folder.entry.now) }
    {
        let started = start_data(rt, alloc, disk, found, folder, values, most);
        ended.store(true, Ordering::SeqCst);
        started
    };
    let (_, started) = join(rt, apart, here);
    started
}

/// Starts a store as [`start_data`] does, and meanwhile answers those that watch, if any can.
fn start_beside<
    R: Threads + Clock + Eprint + Sync,
    N: Beginning + Send,
    F: ReadFiles,
    H: Folder + Drop + Send,
>(
    rt: &R,
    alloc: Global,
    files: &F,
    disk: H,
    found: Option<FoundStore>,
    folder: &str,
    values: Values,
    most: u64,
    beside: Option<&TcpListener>,
) -> Result<StartedStore<N, H>, Fault>
    requires read { IsRead H.shows H.kept H.sound disk found }
    requires first { N.first ≡ first_of values found }
    ensures world { IfOk result (λ x. replayed N.first.world x.journal.events.items
        ≡ Ok (world_of x.snapshot)) }
    ensures held { IfOk result (λ x. HoldsOrLost H.shows H.kept H.sound H.moment H.left_since
        N.first x.keeper.store.events.journal.medium x.keeper.store.events.journal.len
        x.keeper.store.events.journal.closed x.journal.events.items x.keeper.places.items
        (map part_in x.keeper.blocks.items)) }
    ensures err { IfErr result (IsDataFault folder.now) }
{
    match beside {
        Some(listener) => {
            start_watched(
                rt, alloc, files, disk, found, folder, values, most, listener,
            )
        }
        None => start_data(rt, alloc, disk, found, folder, values, most),
    }
}

/// Serves a store that was kept, under the rules that the options ask for, until each worker has
/// ended. Returns what each has done.
fn serve_kept<
    'a,
    J: Naming + Send + Sync,
    N: Beginning + Send + Sync,
    H: Folder + Drop + Send,
    R: Wait + Threads + Net<Listener = TcpListener, Stream = TcpStream> + Clock + Eprint + Sync,
    F: ReadFiles,
    W: Write,
>(
    rt: &R,
    alloc: Global,
    files: &F,
    store: Store,
    kept: StartedStore<N, H>,
    rules: &'a Rules,
    doors: Doors<'_>,
    serving: Serving<'_>,
    out: &mut W,
) -> Result<Vec<Shift<'a>>, Fault>
    requires book { store.seen.book ≡ J.book }
    requires opening { kept.snapshot ≡ J.opening }
    requires held { HoldsOrLost H.shows H.kept H.sound H.moment H.left_since N.first
        kept.keeper.store.events.journal.medium kept.keeper.store.events.journal.len
        kept.keeper.store.events.journal.closed J.before kept.keeper.places.items
        (map part_in kept.keeper.blocks.items) }
    requires world { replayed N.first.world J.before ≡ Ok (world_of J.opening) }
    requires meant { IsMeant serving N.first.values }
    ensures ok { OnOk result (TellsPort (W.contents out.old) (W.contents out.new)) }
    ensures workers { IfOk result (λ shifts. vec_len shifts ≡ serving.entry.workers) }
    ensures served { IfOk result (λ shifts. EachServed serving.entry.requests shifts.items) }
    ensures ruled { IfOk result (λ shifts. AreUnder rules.now shifts.items) }
    ensures err { IfErr result (λ fault.
        IsServingFault serving.entry (W.contents out.old) (W.contents out.new) fault) }
{
    let StartedStore {
        snapshot,
        keeper,
        journal,
    } = kept;
    drop(journal);
    let seats = seats_of(serving);
    let passes = passes_of(serving);
    let found = (snapshot, keeper);
    let opened = Workers::<Joining<J>, &R, StoreKeeper<N, H>>::resume(
        rt, alloc, store, found, passes, seats,
    )?;
    let workers = with_roles(alloc, opened, serving)?;
    let workers = workers.joining(alloc, upkeep_of(serving));
    serve_workers(rt, alloc, files, workers, rules, doors, serving, out)
}

/// The path of the folder of a store.
#[derive(Clone, Copy)]
struct DataPath<'a> {
    path: &'a str,
}

/// Serves the store that was found in a folder, or that begins there, as [`serve_kept`] does.
/// Returns how many connections each worker served.
fn serve_found<
    N: Beginning + Send + Sync,
    H: Folder + Drop + Send,
    R: Wait + Threads + Net<Listener = TcpListener, Stream = TcpStream> + Clock + Eprint + Sync,
    F: ReadFiles,
    W: Write,
>(
    rt: &R,
    alloc: Global,
    files: &F,
    disk: H,
    found: Option<FoundStore>,
    at: DataPath<'_>,
    rules: &Rules,
    doors: Doors<'_>,
    serving: Serving<'_>,
    out: &mut W,
) -> Result<Vec<u64>, Fault>
    requires read { IsRead H.shows H.kept H.sound disk found }
    requires first { N.first ≡ first_of (asked_values serving) found }
    requires meant { IsMeant serving N.first.values }
    ensures ok { OnOk result (TellsPort (W.contents out.old) (W.contents out.new)) }
    ensures workers { IfOk result (λ counts. vec_len counts ≡ serving.entry.workers) }
    ensures served { IfOk result (λ counts. All (λ n. n ≡ serving.entry.requests) counts.items) }
    ensures err { IfErr result (λ fault. IsKeepingFault at.entry.path.now serving.entry
        (W.contents out.old) (W.contents out.new) fault) }
{
    let most = serving.journal_mb.saturating_mul(MB);
    let values = asked_values(serving);
    let kept = start_beside::<R, N, F, H>(
        rt,
        alloc,
        files,
        disk,
        found,
        at.path,
        values,
        most,
        doors.status,
    )?;
    let name = Store::new();
    let shifts = serve_kept::<Brand, N, H, R, F, W>(
        rt, alloc, files, name, kept, rules, doors, serving, out,
    )?;
    let counts = counts_of(alloc, shifts.as_slice())?;
    Ok(counts)
}

/// What the values of a store that begins mean.
fn asked_values(serving: Serving<'_>) -> Values
    ensures { result ≡ asked_values serving.entry }
{
    if serving.prometheus_port == 0 {
        Values::Whole
    } else {
        Values::Doubles
    }
}

/// Refuses the port of Prometheus over a store of whole numbers, with `O5`.
fn allow_port(found: &Option<FoundStore>, serving: Serving<'_>) -> Result<(), Fault>
    ensures meant { OnOk result
        (IsMeant serving.entry (first_of (asked_values serving.entry) found.now).values) }
    ensures err { IfErr result (IsPortFault found.now serving.entry) }
{
    let Some(store) = found else {
        return Ok(());
    };
    if serving.prometheus_port == 0 {
        return Ok(());
    }
    match store.journal.head.values() {
        Values::Doubles => Ok(()),
        Values::Whole => Err(Fault::Refused(Refusal::WholeNumbers)),
    }
}

/// Serves the store that a folder was found to have, or that begins there, as [`serve_found`] does.
fn serve_folder<
    H: Folder + Drop + Send,
    R: Wait + Threads + Net<Listener = TcpListener, Stream = TcpStream> + Clock + Eprint + Sync,
    F: ReadFiles,
    W: Write,
>(
    rt: &R,
    alloc: Global,
    files: &F,
    disk: H,
    found: Option<FoundStore>,
    folder: &str,
    rules: &Rules,
    doors: Doors<'_>,
    serving: Serving<'_>,
    out: &mut W,
) -> Result<Vec<u64>, Fault>
    requires { IsRead H.shows H.kept H.sound disk found }
    ensures ok { OnOk result (TellsPort (W.contents out.old) (W.contents out.new)) }
    ensures workers { IfOk result (λ counts. vec_len counts ≡ serving.entry.workers) }
    ensures served { IfOk result (λ counts. All (λ n. n ≡ serving.entry.requests) counts.items) }
    ensures err { IfErr result (λ fault.
        (IsPortFault found serving.entry fault
        × KeepsAt fault (W.contents out.old) (W.contents out.new))
        ⊎ IsKeepingFault folder.now serving.entry
        (W.contents out.old) (W.contents out.new) fault) }
{
    allow_port(&found, serving)?;
    let at = DataPath { path: folder };
    serve_found::<Brand, H, R, F, W>(
        rt, alloc, files, disk, found, at, rules, doors, serving, out,
    )
}

/// Serves the store that is kept in a folder of the host. Returns how many connections each worker
/// served. The folder is made if there is none, and is locked until each worker has ended.
pub(crate) fn serve_data<
    R: Wait + Threads + Net<Listener = TcpListener, Stream = TcpStream> + Clock + Eprint + Sync,
    F: ReadFiles,
    W: Write,
>(
    rt: &R,
    alloc: Global,
    files: &F,
    folder: &str,
    rules: &Rules,
    doors: Doors<'_>,
    serving: Serving<'_>,
    out: &mut W,
) -> Result<Vec<u64>, Fault>
    ensures ok { OnOk result (TellsPort (W.contents out.old) (W.contents out.new)) }
    ensures workers { IfOk result (λ counts. vec_len counts ≡ serving.entry.workers) }
    ensures served { IfOk result (λ counts. All (λ n. n ≡ serving.entry.requests) counts.items) }
    ensures err { IfErr result (λ fault. IsFolderRunFault folder.now serving.entry
        (W.contents out.old) (W.contents out.new) fault) }
{
    let Some(host) = files.host() else {
        return Err(cannot_write(alloc, folder));
    };
    let lock = lock_data(alloc, host, folder)?;
    let found = read_beside(rt, alloc, files, folder, doors.status)?;
    let disk = HostFolder::new(host, alloc, folder);
    let counts = serve_folder(
        rt, alloc, files, disk, found, folder, rules, doors, serving, out,
    )?;
    drop(lock);
    Ok(counts)
}
