//! The workers of a store, each in a thread of its own.

ghost use Rattle.std.specs.Prelude.{◌≡◌, vec_len, IfOk};
ghost use Rattle.std.specs.Thread.{IsSync};
ghost use Rattle.server.specs.Shifts.{AreUnder, EachServed};

use crate::caretaker::Caretaker;
use crate::error::ServeError;
use crate::place::Place;
use crate::places::Workers;
use crate::receiving::{receive_all, threads_with};
use crate::server_state::{Memory, Watch, report_open};
use crate::sharing::{buffers_of, share_room};
use crate::sockets::Sockets;
use crate::tally::Tally;
use crate::tending::{is_tended, tend_while};
use crate::worker::{Shift, work};
use guard::Rules;
use keeper::Keeper;
use snapshots::{Committer, OpenNaming, Pass};
use std::alloc::{AllocError, Global};
use std::net::TcpListener;
use std::sync::atomic::{AtomicBool, Ordering};
use std::sync::{Arc, Mutex, Wait};
use std::thread::{self, Threads, join, map_vec};
use std::time::{Clock, Duration};

/// How connections are served.
#[derive(Clone, Copy, Debug, PartialEq, Eq)]
pub struct Terms {
    /// After how many connections a worker ends.
    pub requests: u64,
    /// How long a client may give no byte, or take none. It is for ever if there is no limit.
    pub idle: Option<Duration>,
    /// The version of the program, as the port of Prometheus reports it.
    pub version: &'static str,
    /// How many bytes the replies of the first port that are under way may take together. None is
    /// any number.
    pub reply_memory: Option<u64>,
}

/// The listeners of a server.
#[derive(Clone, Copy)]
pub struct Listeners<'a> {
    /// That of the first port.
    pub first: &'a TcpListener,
    /// That of the port of Prometheus, if it is served.
    pub prometheus: Option<&'a TcpListener>,
}

/// The work of one worker.
fn work_at<
    'a,
    J: OpenNaming,
    C: Wait + Drop,
    K: Keeper + Drop,
    R: Wait + Threads + Clock + Eprint + Sync,
>(
    rt: &R,
    alloc: Global,
    rules: &'a Rules,
    listener: &TcpListener,
    committer: &Committer<J, C, K>,
    place: Place<J>,
    terms: Terms,
) -> Shift<'a>
    ensures { result.rules.now ≡ rules.now }
{
    let Place {
        mut pass,
        mut seat,
        tally,
        holder,
    } = place;
    let mut sockets = Sockets::new(rt, alloc, listener, terms.idle, &tally);
    let mut buffers = buffers_of(alloc, holder);
    let most = terms.requests;
    work(
        rt,
        alloc,
        rules,
        &mut buffers,
        &mut sockets,
        &mut pass,
        &mut seat,
        committer,
        most,
    )
}

/// What workers have done, if each has served as many connections as were asked for. A worker that
/// served fewer has lost its listener.
fn all_served(shifts: Vec<Shift<'_>>, requests: u64) -> Result<Vec<Shift<'_>>, ServeError>
    ensures same { IfOk result (λ all. all.items ≡ shifts.entry.items) }
    ensures each { IfOk result (λ all. EachServed requests all.items) }
{
    if shifts.iter().all(|shift| shift.served() == requests) {
        Ok(shifts)
    } else {
        Err(ServeError::NoListener)
    }
}

/// Waits until the gate is open.
fn wait_at(rt: &impl Wait, gate: &Mutex<()>) {
    drop(gate.lock(rt));
}

/// Whether this many threads can be made, all at one time. They end before the call does.
fn can_make<R: Threads + Wait + Sync>(rt: &R, count: usize) -> bool {
    let closed = Mutex::new(());
    let gate = &closed;
    thread::scope(thread::scope_env(), rt, |scope| {
        let _held = gate.lock(rt);
        for _ in 0..count {
            if scope.spawn(move || wait_at(rt, gate)).is_err() {
                return false;
            }
        }
        true
    })
}

/// Serves the connections of a listener until each worker has ended.
fn run_all<
    'a,
    J: OpenNaming + Send + Sync,
    C: Wait + Drop + Send + Sync,
    K: Keeper + Drop + Send,
    R: Threads + Wait + Clock + Eprint + Sync,
>(
    rt: &R,
    alloc: Global,
    committer: &Committer<J, C, K>,
    places: Vec<Place<J>>,
    listener: &TcpListener,
    rules: &'a Rules,
    terms: Terms,
) -> Result<Vec<Shift<'a>>, ServeError>
where
    K::Last: Send,
    K::Settled: Send,
    ensures all { IfOk result (λ shifts. vec_len shifts ≡ vec_len places) }
    ensures each { IfOk result (λ shifts. EachServed terms.requests shifts.items) }
    ensures ruled { IfOk result (λ shifts. AreUnder rules.now shifts.items) }
{
    if !can_make(rt, places.len()) {
        return Err(ServeError::NoThread);
    }
    let shifts = map_vec(
        rt,
        places,
        &|place: Place<J>| -> Shift<'_>
            ensures { result.rules.now ≡ rules.entry.now }
        { work_at(rt, alloc, rules, listener, committer, place, terms) },
    )?;
    all_served(shifts, terms.requests)
}

/// Serves both ports until each worker has ended. Returns what the workers of the first port have
/// done.
fn run_ports<
    'a,
    J: OpenNaming + Send + Sync,
    C: Wait + Drop + Send + Sync,
    K: Keeper + Drop + Send,
    R: Threads + Wait + Clock + Eprint + Sync,
>(
    rt: &R,
    alloc: Global,
    committer: &Committer<J, C, K>,
    places: Vec<Place<J>>,
    receivers: Vec<Place<J>>,
    listeners: Listeners<'_>,
    rules: &'a Rules,
    terms: Terms,
) -> Result<Vec<Shift<'a>>, ServeError>
where
    K::Last: Send,
    K::Settled: Send,
    ensures all { IfOk result (λ shifts. vec_len shifts ≡ vec_len places) }
    ensures each { IfOk result (λ shifts. EachServed terms.requests shifts.items) }
    ensures ruled { IfOk result (λ shifts. AreUnder rules.now shifts.items) }
{
    let Some(door) = listeners.prometheus else {
        return run_all(rt, alloc, committer, places, listeners.first, rules, terms);
    };
    if !can_make(
        rt,
        places.len().saturating_add(threads_with(receivers.len())),
    ) {
        return Err(ServeError::NoThread);
    }
    let apart = ||
        requires { IsSync R.row }
    { receive_all(rt, alloc, committer, receivers, door, rules, terms) };
    let here = || -> Result<Vec<Shift<'_>>, ServeError>
        requires { IsSync R.row }
        ensures all { IfOk result (λ shifts. vec_len shifts ≡ vec_len places) }
        ensures each { IfOk result (λ shifts. EachServed terms.requests shifts.items) }
        ensures ruled { IfOk result (λ shifts. AreUnder rules.entry.now shifts.items) }
    { run_all(rt, alloc, committer, places, listeners.first, rules, terms) };
    let (received, shifts) = join(rt, apart, here);
    received?;
    shifts
}

/// Serves as [`run_ports`] does, and tends the store at the same time.
fn run_tended<
    'a,
    J: OpenNaming + Send + Sync,
    C: Wait + Drop + Send + Sync,
    K: Keeper + Drop + Send,
    R: Threads + Wait + Clock + Eprint + Sync,
>(
    rt: &R,
    alloc: Global,
    committer: &Committer<J, C, K>,
    caretaker: Option<Caretaker<J>>,
    places: Vec<Place<J>>,
    receivers: Vec<Place<J>>,
    listeners: Listeners<'_>,
    rules: &'a Rules,
    terms: Terms,
) -> Result<Vec<Shift<'a>>, ServeError>
where
    K::Last: Send,
    K::Settled: Send,
    ensures all { IfOk result (λ shifts. vec_len shifts ≡ vec_len places) }
    ensures each { IfOk result (λ shifts. EachServed terms.requests shifts.items) }
    ensures ruled { IfOk result (λ shifts. AreUnder rules.now shifts.items) }
{
    let over = AtomicBool::new(false);
    let ended = &over;
    let apart = || tend_while(rt, alloc, caretaker, committer, ended);
    let here = || -> Result<Vec<Shift<'_>>, ServeError>
        requires { IsSync R.row }
        ensures all { IfOk result (λ shifts. vec_len shifts ≡ vec_len places) }
        ensures each { IfOk result (λ shifts. EachServed terms.requests shifts.items) }
        ensures ruled { IfOk result (λ shifts. AreUnder rules.entry.now shifts.items) }
    {
        let shifts = run_ports(
            rt, alloc, committer, places, receivers, listeners, rules, terms,
        );
        ended.store(true, Ordering::SeqCst);
        shifts
    };
    let (_, shifts) = join(rt, apart, here);
    shifts
}

/// Serves the connections of listeners under rules until each worker has ended, each in a thread of
/// its own. Returns what each worker of the first port has done, under these rules and for as many
/// connections as the terms ask for. Other workers serve the port of Prometheus, under the same
/// rules and terms. What is written to its connections is the 503 of the room in front of them or
/// the reply of the store to the bytes that came. What a reply reports is kept by then. If the
/// terms bound the memory for replies, the workers of the first port share it.
///
/// `NoThread` is returned before any connection is accepted, if that many threads cannot be made.
/// `NoListener` is returned if a worker has ended because there is no listener any more.
pub fn serve<
    'a,
    J: OpenNaming + Send + Sync,
    C: Wait + Drop + Send + Sync,
    K: Keeper + Drop + Send,
    R: Threads + Wait + Clock + Eprint + Sync,
>(
    rt: &R,
    alloc: Global,
    workers: Workers<J, C, K>,
    listeners: Listeners<'_>,
    rules: &'a Rules,
    terms: Terms,
) -> Result<Vec<Shift<'a>>, ServeError>
where
    K::Last: Send,
    K::Settled: Send,
    ensures all { IfOk result (λ shifts. vec_len shifts ≡ workers) }
    ensures each { IfOk result (λ shifts. EachServed terms.requests shifts.items) }
    ensures ruled { IfOk result (λ shifts. AreUnder rules.now shifts.items) }
{
    let Workers {
        committer,
        places,
        receivers,
        spare: _,
        caretaker,
    } = workers;
    let places = share_room(rt, alloc, places, terms.reply_memory, terms.idle)?;
    if !is_tended::<J, K>(caretaker.as_ref()) {
        return run_ports(
            rt, alloc, &committer, places, receivers, listeners, rules, terms,
        );
    }
    run_tended(
        rt, alloc, &committer, caretaker, places, receivers, listeners, rules, terms,
    )
}

/// What the workers count, and who tends the store beside them, if anyone does.
fn tallies_of<J: OpenNaming>(
    alloc: Global,
    places: &[Place<J>],
    receivers: &[Place<J>],
    caretaker: Option<&Caretaker<J>>,
) -> Result<Vec<Arc<Tally>>, AllocError> {
    let mut tallies = Vec::new(alloc);
    for place in places {
        tallies.push(Arc::try_clone(&place.tally)?)?;
    }
    for place in receivers {
        tallies.push(Arc::try_clone(&place.tally)?)?;
    }
    if let Some(caretaker) = caretaker {
        tallies.push(Arc::try_clone(caretaker.tally())?)?;
    }
    Ok(tallies)
}

/// Answers the clients of the status port, and tends the store if that is needed, until that is
/// over.
fn watch_and_tend<
    J: OpenNaming + Send + Sync,
    C: Wait + Drop + Send + Sync,
    K: Keeper + Drop + Send,
    R: Threads + Wait + Clock + Eprint + Sync,
    M: Memory + Sync,
>(
    rt: &R,
    alloc: Global,
    watch: &Watch<'_, M>,
    over: &AtomicBool,
    seen: (Option<Pass<J>>, Vec<Arc<Tally>>, u64),
    committer: &Committer<J, C, K>,
    caretaker: Option<Caretaker<J>>,
)
where
    K::Last: Send,
    K::Settled: Send,
{
    let (pass, tallies, workers) = seen;
    if !is_tended::<J, K>(caretaker.as_ref()) {
        return report_open(rt, alloc, watch, over, pass, tallies, workers);
    }
    let _ = join(
        rt,
        || tend_while(rt, alloc, caretaker, committer, over),
        || report_open(rt, alloc, watch, over, pass, tallies, workers),
    );
}

/// Serves as [`serve`] does, and answers the clients of the status port at the same time.
pub fn serve_watched<
    'a,
    J: OpenNaming + Send + Sync,
    C: Wait + Drop + Send + Sync,
    K: Keeper + Drop + Send,
    R: Threads + Wait + Clock + Eprint + Sync,
    M: Memory + Sync,
>(
    rt: &R,
    alloc: Global,
    workers: Workers<J, C, K>,
    listeners: Listeners<'_>,
    rules: &'a Rules,
    terms: Terms,
    watch: &Watch<'_, M>,
) -> Result<Vec<Shift<'a>>, ServeError>
where
    K::Last: Send,
    K::Settled: Send,
    ensures all { IfOk result (λ shifts. vec_len shifts ≡ workers) }
    ensures each { IfOk result (λ shifts. EachServed terms.requests shifts.items) }
    ensures ruled { IfOk result (λ shifts. AreUnder rules.now shifts.items) }
{
    let Workers {
        committer,
        places,
        receivers,
        mut spare,
        caretaker,
    } = workers;
    let tallies = tallies_of(
        alloc,
        places.as_slice(),
        receivers.as_slice(),
        caretaker.as_ref(),
    )?;
    let places = share_room(rt, alloc, places, terms.reply_memory, terms.idle)?;
    let seen = (spare.pop(), tallies, places.len() as u64);
    let over = AtomicBool::new(false);
    let (shared, ended) = (&committer, &over);
    let apart = ||
        requires { IsSync R.row × IsSync M.row }
    { watch_and_tend(rt, alloc, watch, ended, seen, shared, caretaker) };
    let here = || -> Result<Vec<Shift<'_>>, ServeError>
        requires { IsSync R.row }
        ensures all { IfOk result (λ shifts. vec_len shifts ≡ vec_len places) }
        ensures each { IfOk result (λ shifts. EachServed terms.requests shifts.items) }
        ensures ruled { IfOk result (λ shifts. AreUnder rules.entry.now shifts.items) }
    {
        let shifts = run_ports(
            rt, alloc, shared, places, receivers, listeners, rules, terms,
        );
        ended.store(true, Ordering::SeqCst);
        shifts
    };
    let (_, shifts) = join(rt, apart, here);
    shifts
}
