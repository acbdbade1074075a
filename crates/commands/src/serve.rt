//! The server: a store, and its workers.

ghost use Rattle.std.specs.Prelude.{◌≡◌, ◌≤◌, min, length, map, string_bytes, vec_len};
ghost use Rattle.std.specs.Prelude.{◌*◌, IfOk, IfErr, IfSome, IfNone, OnOk};
ghost use Rattle.std.specs.Duration.{as_nanos};
ghost use Rattle.std.specs.List.{All};
ghost use Rattle.head.specs.Blocks.{part_in, opening_of};
ghost use Rattle.commands.specs.Reading.{paths_of};
ghost use Rattle.commands.specs.Selecting.{KeepsAt};
ghost use Rattle.commands.specs.ServingRuns.{listening_line, TellsPort, IsListening, IsServing};
ghost use Rattle.commands.specs.ServingRuns.{IsStoreFault, IsServeFault, IsServingFault};
ghost use Rattle.commands.specs.ServingRuns.{IsDirectoriesFault, IsWatchFault, passes_of};
ghost use Rattle.commands.specs.ServingRuns.{remote_workers_of, seats_of, reply_bytes_of};
ghost use Rattle.commands.specs.Guarding.{AreRulesOf};
ghost use Rattle.commands.specs.Opening.{AreBlocksAt, IsOpeningFault};
ghost use Rattle.std.specs.Thread.{IsSync};
ghost use Rattle.server.specs.Shifts.{AreUnder, EachServed, served_in};
ghost use Rattle.snapshots.specs.Seats.{IsRoom};
ghost use Rattle.commands.specs.declared.fault.Fault.TheVariants.{CannotListen};

use crate::command::Serving;
use crate::fault::Fault;
use crate::files::ReadFiles;
use crate::help::{KIT_VERSION, OWN_VERSION};
use crate::keeping::serve_data;
use crate::opening::open_blocks;
use crate::process::Process;
use crate::rules::rules_of;
use crate::sending::send;
use crate::upkeep::check_upkeep;
use block::Block;
use guard::Rules;
use keeper::Keeper;
use server::{
    Listeners, Schedule, ServeError, Shift, Terms, Watch, Workers, report_opening, serve_watched,
};
use snapshots::{Naming, Open, OpenNaming, Store};
use std::alloc::{AllocError, Global};
use std::io::Write;
use std::marker::Brand;
use std::net::{Net, TcpListener, TcpStream};
use std::sync::Wait;
use std::sync::atomic::{AtomicBool, Ordering};
use std::thread::{Threads, join};
use std::time::{Clock, Duration};

/// Listens on a port of 127.0.0.1.
fn listen<R: Net<Listener = TcpListener, Stream = TcpStream>>(
    rt: &R,
    port: u64,
) -> Result<TcpListener, Fault>
    ensures { IfErr result (λ fault. fault ≡ CannotListen port) }
{
    let Ok(number) = u16::try_from(port) else {
        return Err(Fault::CannotListen(port));
    };
    match TcpListener::bind(rt, ("127.0.0.1", number)) {
        Ok(listener) => Ok(listener),
        Err(_) => Err(Fault::CannotListen(port)),
    }
}

fn line_of(alloc: Global, port: u16) -> Result<String, AllocError>
    ensures { IfOk result (λ line. string_bytes line ≡ listening_line port) }
{
    format!(in alloc; "listening {port}\n")
}

/// Reports the port of a listener in a line.
fn tell_port<W: Write>(
    alloc: Global,
    listener: &TcpListener,
    serving: Serving<'_>,
    out: &mut W,
) -> Result<(), Fault>
    ensures ok { OnOk result (TellsPort (W.contents out.old) (W.contents out.new)) }
    ensures faults { IfErr result (λ fault. IsStoreFault serving.entry fault) }
    ensures kept { IfErr result (λ fault. KeepsAt fault (W.contents out.old) (W.contents out.new)) }
{
    let Ok(address) = listener.local_addr() else {
        return Err(Fault::CannotListen(serving.port));
    };
    let line = line_of(alloc, address.port())?;
    send(out, line.as_bytes())?;
    Ok(())
}

/// How many bytes one MB has.
const MB: u64 = 1_000_000;

/// The bytes of so many MB of replies, as far as they can be counted; any number of 0.
fn reply_bytes_of(mb: u64) -> Option<u64>
    ensures { result ≡ reply_bytes_of mb }
{
    if mb == 0 {
        None
    } else {
        Some(mb.saturating_mul(MB))
    }
}

fn terms_of(serving: Serving<'_>) -> Terms
    ensures requests { result.requests ≡ serving.entry.requests }
    ensures never { IfNone result.idle (serving.entry.idle_seconds ≡ 0) }
    ensures limit { IfSome result.idle (λ d. as_nanos d ≡ serving.entry.idle_seconds * 1000000000) }
    ensures memory { result.reply_memory ≡ reply_bytes_of serving.entry.reply_memory }
{
    let idle = match serving.idle_seconds {
        0 => None,
        seconds => Some(Duration::from_secs(seconds)),
    };
    Terms {
        requests: serving.requests,
        idle,
        version: OWN_VERSION,
        reply_memory: reply_bytes_of(serving.reply_memory),
    }
}

/// The listeners beside that of the first port, as far as the options ask for them.
#[derive(Clone, Copy)]
pub(crate) struct Doors<'a> {
    /// For those that ask for the state of the server.
    pub status: Option<&'a TcpListener>,
    /// For what a Prometheus sends and asks.
    pub prometheus: Option<&'a TcpListener>,
}

/// What is reported to those that ask at a listener.
pub(crate) fn watch_at<'a, F>(
    listener: &'a TcpListener,
    process: &'a Process<'a, F>,
) -> Watch<'a, Process<'a, F>> {
    Watch {
        listener,
        memory: process,
        version: OWN_VERSION,
        kit: KIT_VERSION,
    }
}

/// Runs workers, and meanwhile answers those that watch, if any can.
fn run_workers<
    'a,
    J: OpenNaming + Send + Sync,
    K: Keeper + Drop + Send,
    R: Wait + Threads + Clock + Eprint + Sync,
    F: ReadFiles,
>(
    rt: &R,
    alloc: Global,
    workers: Workers<J, &R, K>,
    listener: &TcpListener,
    rules: &'a Rules,
    process: &Process<'_, F>,
    doors: Doors<'_>,
    terms: Terms,
) -> Result<Vec<Shift<'a>>, ServeError>
where
    K::Last: Send,
    K::Settled: Send,
    ensures all { IfOk result (λ shifts. vec_len shifts ≡ workers.entry) }
    ensures each { IfOk result (λ shifts. EachServed terms.requests shifts.items) }
    ensures ruled { IfOk result (λ shifts. AreUnder rules.now shifts.items) }
{
    let listeners = Listeners {
        first: listener,
        prometheus: doors.prometheus,
    };
    let Some(asked) = doors.status else {
        return server::serve(rt, alloc, workers, listeners, rules, terms);
    };
    let watch = watch_at(asked, process);
    serve_watched(rt, alloc, workers, listeners, rules, terms, &watch)
}

/// How many workers serve the port of Prometheus.
fn remote_workers_of(serving: Serving<'_>) -> usize
    ensures { result ≡ remote_workers_of serving.entry }
{
    if serving.prometheus_port == 0 {
        0
    } else {
        serving.prometheus_workers as usize
    }
}

/// How many seats there are, as far as they can be counted: one for each worker of either port, and
/// one for the cuts of the server itself.
pub(crate) fn seats_of(serving: Serving<'_>) -> usize
    ensures { result ≡ min (seats_of serving.entry) 18446744073709551615 }
{
    let workers = (serving.workers as usize).saturating_add(remote_workers_of(serving));
    let cutters = if serving.cut_every == 0 { 0 } else { 1 };
    workers.saturating_add(cutters)
}

/// How many passes there are, as far as they can be counted: one for each seat, and one for those
/// that watch.
pub(crate) fn passes_of(serving: Serving<'_>) -> usize
    ensures { result ≡ min (passes_of serving.entry) 18446744073709551615 }
{
    let seats = seats_of(serving);
    if serving.status_port == 0 {
        seats
    } else {
        seats.saturating_add(1)
    }
}

/// The workers of the first port, of as many as there are seats. The others serve the port of
/// Prometheus, as many as the options ask for. One seat is for the cuts of the server itself, if
/// the options ask for them.
pub(crate) fn with_roles<J: OpenNaming, C: Wait + Drop, K: Keeper + Drop>(
    alloc: Global,
    workers: Workers<J, C, K>,
    serving: Serving<'_>,
) -> Result<Workers<J, C, K>, AllocError>
    requires { workers ≡ seats_of serving }
    ensures { IfOk result (λ w. w ≡ serving.entry.workers) }
{
    let workers = workers.receiving(alloc, remote_workers_of(serving))?;
    if serving.cut_every == 0 {
        Ok(workers)
    } else {
        let when = Schedule {
            every: serving.cut_every,
            after: serving.cut_after,
        };
        Ok(workers.cutting(when))
    }
}

/// Serves by these workers, under the rules that the options ask for, until each of them has ended.
/// Returns what each has done.
pub(crate) fn serve_workers<
    'a,
    J: OpenNaming + Send + Sync,
    K: Keeper + Drop + Send,
    R: Wait + Threads + Net<Listener = TcpListener, Stream = TcpStream> + Clock + Eprint + Sync,
    F: ReadFiles,
    W: Write,
>(
    rt: &R,
    alloc: Global,
    files: &F,
    workers: Workers<J, &R, K>,
    rules: &'a Rules,
    doors: Doors<'_>,
    serving: Serving<'_>,
    out: &mut W,
) -> Result<Vec<Shift<'a>>, Fault>
where
    K::Last: Send,
    K::Settled: Send,
    ensures ok { OnOk result (TellsPort (W.contents out.old) (W.contents out.new)) }
    ensures workers { IfOk result (λ shifts. vec_len shifts ≡ workers.entry) }
    ensures served { IfOk result (λ shifts. EachServed serving.entry.requests shifts.items) }
    ensures ruled { IfOk result (λ shifts. AreUnder rules.now shifts.items) }
    ensures err { IfErr result (λ fault.
        IsServingFault serving.entry (W.contents out.old) (W.contents out.new) fault) }
{
    let listener = listen(rt, serving.port)?;
    tell_port(alloc, &listener, serving, out)?;
    let process = Process { alloc, files };
    let terms = terms_of(serving);
    let shifts = run_workers(rt, alloc, workers, &listener, rules, &process, doors, terms)?;
    Ok(shifts)
}

/// Serves a store over these blocks, under the rules that the options ask for, until each worker
/// has ended. Returns what each has done.
fn serve_blocks<
    'a,
    J: Naming + Send + Sync,
    R: Wait + Threads + Net<Listener = TcpListener, Stream = TcpStream> + Clock + Eprint + Sync,
    F: ReadFiles,
    W: Write,
>(
    rt: &R,
    alloc: Global,
    files: &F,
    store: Store,
    blocks: Vec<Block>,
    rules: &'a Rules,
    doors: Doors<'_>,
    serving: Serving<'_>,
    out: &mut W,
) -> Result<Vec<Shift<'a>>, Fault>
    requires book { store.seen.book ≡ J.book }
    requires opening { opening_of (map part_in blocks.items) ≡ J.opening }
    requires few { length blocks.items ≤ 63 }
    requires asked { AreRulesOf (F.may_read files.now) serving rules.now }
    ensures ok { OnOk result (TellsPort (W.contents out.old) (W.contents out.new)) }
    ensures workers { IfOk result (λ shifts. vec_len shifts ≡ serving.entry.workers) }
    ensures served { IfOk result (λ shifts. EachServed serving.entry.requests shifts.items) }
    ensures ruled { IfOk result (λ shifts. AreUnder rules.now shifts.items) }
    ensures err { IfErr result (λ fault.
        IsServingFault serving.entry (W.contents out.old) (W.contents out.new) fault) }
{
    let seats = seats_of(serving);
    let passes = passes_of(serving);
    let opened = Workers::<Open<J>, &R>::open(rt, alloc, store, blocks, passes, seats)?;
    let workers = with_roles(alloc, opened, serving)?;
    serve_workers(rt, alloc, files, workers, rules, doors, serving, out)
}

/// Listens on the status port, if there is one, and does not wait for its clients.
fn listen_beside<R: Net<Listener = TcpListener, Stream = TcpStream>>(
    rt: &R,
    serving: Serving<'_>,
) -> Result<Option<TcpListener>, Fault>
    ensures { IfErr result (IsWatchFault serving.entry) }
{
    if serving.status_port == 0 {
        return Ok(None);
    }
    let listener = listen(rt, serving.status_port)?;
    if listener.set_nonblocking(true).is_err() {
        return Err(Fault::CannotListen(serving.status_port));
    }
    Ok(Some(listener))
}

/// Listens on the port of Prometheus, if there is one.
fn listen_prometheus<R: Net<Listener = TcpListener, Stream = TcpStream>>(
    rt: &R,
    serving: Serving<'_>,
) -> Result<Option<TcpListener>, Fault>
    ensures { IfErr result (IsWatchFault serving.entry) }
{
    if serving.prometheus_port == 0 {
        return Ok(None);
    }
    Ok(Some(listen(rt, serving.prometheus_port)?))
}

/// Opens blocks as [`open_blocks`] does, and meanwhile answers those that watch.
fn open_watched<R: Threads + Clock + Sync, F: ReadFiles>(
    rt: &R,
    alloc: Global,
    files: &F,
    directories: &[&str],
    listener: &TcpListener,
) -> Result<Vec<Block>, Fault>
    ensures ok { IfOk result (λ blocks.
        AreBlocksAt (F.may_read files.now) (paths_of directories.now) (map part_in blocks.items)) }
    ensures few { IfOk result (λ blocks. length blocks.items ≤ 63) }
    ensures err { IfErr result (λ fault.
        IsOpeningFault (F.may_read files.now) (paths_of directories.now) fault) }
{
    let process = Process { alloc, files };
    let watch = watch_at(listener, &process);
    let over = AtomicBool::new(false);
    let (watch, ended) = (&watch, &over);
    let apart = || report_opening(rt, alloc, watch, ended);
    let here = || -> Result<Vec<Block>, Fault>
        requires { IsSync R.row × IsSync F.row }
        ensures ok { IfOk result (λ blocks. AreBlocksAt (F.may_read files.entry.now)
            (paths_of directories.entry.now) (map part_in blocks.items)) }
        ensures few { IfOk result (λ blocks. length blocks.items ≤ 63) }
        ensures err { IfErr result (λ fault. IsOpeningFault (F.may_read files.entry.now)
            (paths_of directories.entry.now) fault) }
    {
        let blocks = open_blocks(rt, alloc, files, directories);
        ended.store(true, Ordering::SeqCst);
        blocks
    };
    let (_, blocks) = join(rt, apart, here);
    blocks
}

/// Opens blocks, and meanwhile answers those that watch, if any can.
fn open_beside<R: Threads + Clock + Sync, F: ReadFiles>(
    rt: &R,
    alloc: Global,
    files: &F,
    directories: &[&str],
    beside: Option<&TcpListener>,
) -> Result<Vec<Block>, Fault>
    ensures ok { IfOk result (λ blocks.
        AreBlocksAt (F.may_read files.now) (paths_of directories.now) (map part_in blocks.items)) }
    ensures few { IfOk result (λ blocks. length blocks.items ≤ 63) }
    ensures err { IfErr result (λ fault.
        IsOpeningFault (F.may_read files.now) (paths_of directories.now) fault) }
{
    match beside {
        Some(listener) => open_watched(rt, alloc, files, directories, listener),
        None => open_blocks(rt, alloc, files, directories),
    }
}

/// How many connections each worker served.
pub(crate) fn counts_of(alloc: Global, shifts: &[Shift<'_>]) -> Result<Vec<u64>, AllocError>
    ensures { IfOk result (λ counts. counts.items ≡ map served_in shifts.now) }
{
    let mut counts = Vec::new(alloc);
    for shift in shifts {
        counts.push(shift.served())?;
    }
    Ok(counts)
}

/// Serves a store over the blocks in these directories, and over them an empty head, as
/// [`serve_blocks`] does. Returns how many connections each worker served.
fn serve_directories<
    R: Wait + Threads + Net<Listener = TcpListener, Stream = TcpStream> + Clock + Eprint + Sync,
    F: ReadFiles,
    W: Write,
>(
    rt: &R,
    alloc: Global,
    files: &F,
    directories: &[&str],
    rules: &Rules,
    doors: Doors<'_>,
    serving: Serving<'_>,
    out: &mut W,
) -> Result<Vec<u64>, Fault>
    requires asked { AreRulesOf (F.may_read files.now) serving rules.now }
    ensures ok { OnOk result (IsListening (F.may_read files.now) serving.entry
        (paths_of directories.now) (W.contents out.old) (W.contents out.new)) }
    ensures workers { IfOk result (λ counts. vec_len counts ≡ serving.entry.workers) }
    ensures served { IfOk result (λ counts. All (λ n. n ≡ serving.entry.requests) counts.items) }
    ensures err { IfErr result (λ fault. IsDirectoriesFault (F.may_read files.now)
        (paths_of directories.now) serving.entry (W.contents out.old) (W.contents out.new) fault) }
{
    let blocks = open_beside(rt, alloc, files, directories, doors.status)?;
    let store = Store::new();
    let shifts = serve_blocks::<Brand, R, F, W>(
        rt, alloc, files, store, blocks, rules, doors, serving, out,
    )?;
    let counts = counts_of(alloc, shifts.as_slice())?;
    Ok(counts)
}

/// Serves a store until each worker has ended. Returns how many connections each worker served,
/// which is as many as were asked for. The store is that which is kept in a folder, if the options
/// name one. Otherwise it is a store over the blocks in these directories, with an empty head over
/// them.
///
/// The options of how long samples are kept are looked at first. Then the rules are read, and the
/// status port and that of Prometheus are listened on. Then the folder is locked and its journal
/// replayed, or the directories are opened as by `select`. Then the store is opened, the port is
/// listened on, and `listening P` is written. It refuses with `O5` if the port of Prometheus is
/// asked for and the folder has a store of whole numbers, which then stays as it was.
pub fn serve<
    R: Wait + Threads + Net<Listener = TcpListener, Stream = TcpStream> + Clock + Eprint + Sync,
    F: ReadFiles,
    W: Write,
>(
    rt: &R,
    alloc: Global,
    files: &F,
    serving: Serving<'_>,
    directories: &[&str],
    out: &mut W,
) -> Result<Vec<u64>, Fault>
    ensures ok { OnOk result (IsServing (F.may_read files.now) serving.entry
        (paths_of directories.now) (W.contents out.old) (W.contents out.new)) }
    ensures workers { IfOk result (λ counts. vec_len counts ≡ serving.entry.workers) }
    ensures served { IfOk result (λ counts. All (λ n. n ≡ serving.entry.requests) counts.items) }
    ensures err { IfErr result (λ fault. IsServeFault (F.may_read files.now)
        (paths_of directories.now) serving.entry (W.contents out.old) (W.contents out.new) fault) }
{
    check_upkeep(alloc, serving)?;
    let rules = rules_of(alloc, files, serving)?;
    let listener = listen_beside(rt, serving)?;
    let door = listen_prometheus(rt, serving)?;
    let doors = Doors {
        status: listener.as_ref(),
        prometheus: door.as_ref(),
    };
    match serving.folder {
        Some(folder) => serve_data(rt, alloc, files, folder, &rules, doors, serving, out),
        None => serve_directories(rt, alloc, files, directories, &rules, doors, serving, out),
    }
}
