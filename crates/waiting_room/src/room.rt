//! The threads of a room over a listening socket: those that wait, and the workers.

ghost use Rattle.std.specs.Prelude.{◌≡◌, ◌+◌, IfOk, IfSome, vec_len};
ghost use Rattle.std.specs.Thread.{IsSync};

use crate::budget::{Budget, Money, Pool};
use crate::connection::{Outcome, Terms, attend};
use crate::ending::end;
use crate::gate::Gate;
use crate::handing::{Asked, Line, Meaning, Work, answer};
use crate::socket::Socket;
use crossbeam_channel::{Receiver, Sender, bounded};
use std::alloc::{AllocError, Global};
use std::io;
use std::marker::Brand;
use std::net::{TcpListener, TcpStream};
use std::sync::ledger::{Blank, Share};
use std::sync::{Mutex, Wait};
use std::thread::{self, Builder, Threads, join, map_vec, sleep};
use std::time::{Clock, Duration};

/// The stack of a thread that waits, in bytes.
const STACK: usize = 262_144;

/// How long an accept that failed waits, in milliseconds.
const PAUSE: u64 = 100;

/// A part of the right to claim from the budget, with nothing claimed.
#[derive(Drop)]
struct Part<L: Budget> {
    share: Share<L>,
    ghost one: { share.parts ≡ 1 },
    ghost none: { share.amount ≡ 0 },
}

impl<L: Budget> Part<L> {
    fn new(share: Share<L>) -> Part<L>
        requires one { share.parts ≡ 1 }
        requires none { share.amount ≡ 0 }
    {
        Part { share }
    }
}

/// Who is told how connections end; it may be told by many threads at a time.
pub trait Observer {
    /// A connection has come.
    fn begun(&self);

    /// A connection has ended so. Its client may still be sending.
    fn ended(&self, outcome: &Outcome);

    /// A connection could not be accepted, or its limits not be set.
    fn failed(&self, error: &io::Error);
}

/// What a room leaves when it ends.
#[derive(Drop)]
pub struct Ended<W> {
    /// The workers, in their order.
    pub workers: Vec<W>,
    /// What is left of the budget, in bytes: all of it. None if a thread did not give its part
    /// back.
    pub left: Option<u64>,
}

/// Whether an accept failed because there is no listener any more.
fn is_gone(error: &io::Error) -> bool {
    matches!(
        error.raw_os_error(),
        Some(libc::EBADF | libc::EINVAL | libc::ENOTSOCK)
    )
}

/// Whether a client that got this may still be sending what was not read.
fn is_refused(outcome: &Outcome) -> bool {
    match outcome {
        Outcome::Replied(reply) => reply.status != 200,
        Outcome::Busy(_) => true,
        Outcome::WriteFault => false,
    }
}

/// Attends one connection, and ends it.
fn attend_stream<L: Budget, M: Meaning, H: Observer, R: Wait + Clock>(
    rt: &R,
    alloc: Global,
    stream: &TcpStream,
    gate: &Gate,
    money: &mut Money<'_, L, R>,
    line: &Line<M>,
    observer: &H,
    terms: Terms,
)
    requires { money.old.bytes ≡ 0 }
    ensures { money.new.bytes ≡ 0 }
{
    if let Err(error) = stream.set_write_timeout(Some(terms.limits.idle)) {
        observer.failed(&error);
        return;
    }
    let mut source = Socket::new(rt, stream, gate, terms.limits);
    let mut writer = stream;
    let outcome = attend(rt, alloc, &mut source, &mut writer, money, line, terms);
    observer.ended(&outcome);
    end(rt, stream, is_refused(&outcome));
}

/// The next connection, if one comes: an error is that an accept failed.
fn next_stream(listener: &TcpListener, gate: &Gate) -> io::Result<Option<TcpStream>> {
    let (stream, _peer) = listener.accept()?;
    if gate.is_shut() {
        return Ok(None);
    }
    Ok(Some(stream))
}

/// Attends one connection after another at a place, until no more come.
fn wait_at<L: Budget, M: Meaning, H: Observer, R: Wait + Clock>(
    rt: &R,
    alloc: Global,
    listener: &TcpListener,
    gate: &Gate,
    pool: &Mutex<Pool<L>>,
    part: Part<L>,
    line: Line<M>,
    observer: &H,
    terms: Terms,
) -> Part<L> {
    let Part { share } = part;
    let mut money = Money::new(rt, pool, share);
    'attended: for _ in 0..u64::MAX {
        if !gate.admits() {
            break;
        }
        match next_stream(listener, gate) {
            Ok(Some(stream)) => {
                gate.enter();
                observer.begun();
                attend_stream(rt, alloc, &stream, gate, &mut money, &line, observer, terms);
                gate.leave();
            }
            Ok(None) => break,
            Err(error) => {
                observer.failed(&error);
                gate.miss();
                if is_gone(&error) {
                    break;
                }
                sleep(rt, Duration::from_millis(PAUSE));
            }
        }
    }
    Part::new(money.end())
}

/// Answers what is asked until nobody asks any more.
fn work_on<M: Meaning, W: Work<M> + Drop>(rt: &impl Wait, job: Job<M, W>) -> W
    requires ready { W.is_ready }
{
    let Job {
        mut worker,
        requests,
    } = job;
    for _ in rt.forever() {
        match requests.recv(rt) {
            Ok(asked) => answer(rt, &mut worker, asked),
            Err(_) => break,
        }
    }
    worker
}

/// So many parts of the right to claim; one is left.
fn parts_of<L: Budget>(
    alloc: Global,
    all: &mut Share<L>,
    count: usize,
) -> Result<Vec<Part<L>>, AllocError>
    requires parts { all.old.parts ≡ count + 1 }
    requires none { all.old.amount ≡ 0 }
    ensures parts { IfOk result (λ _. all.new.parts ≡ 1) }
    ensures none { IfOk result (λ _. all.new.amount ≡ 0) }
{
    let mut parts = Vec::new(alloc);
    'cut: for _i in 0..count {
        parts.push(Part::new(all.split_off(1, 0)))?;
    }
    Ok(parts)
}

/// Puts parts together, at most so many: how many they were.
fn merge_all<L: Budget>(all: &mut Share<L>, parts: Vec<Part<L>>, most: usize) -> usize
    requires parts { all.old.parts ≡ 1 }
    requires none { all.old.amount ≡ 0 }
    ensures parts { all.new.parts ≡ result + 1 }
    ensures none { all.new.amount ≡ 0 }
{
    let mut left = parts;
    let mut count = 0;
    'merged: while count < most {
        let Some(Part { share }) = left.pop() else {
            break;
        };
        all.merge(share);
        count += 1;
    }
    count
}

/// Runs those that wait until all have ended: their parts.
fn run_waiting<
    L: Budget + Send + Sync,
    M: Meaning + Send + Sync,
    H: Observer + Sync,
    R: Threads + Wait + Clock + Sync,
>(
    rt: &R,
    alloc: Global,
    listener: &TcpListener,
    gate: &Gate,
    pool: &Mutex<Pool<L>>,
    parts: Vec<Part<L>>,
    to: Sender<Asked<M>, Global>,
    observer: &H,
    terms: Terms,
) -> io::Result<Vec<Part<L>>> {
    thread::scope(
        thread::scope_env(),
        rt,
        move |scope| -> io::Result<Vec<Part<L>>> {
            let mut waiting = Vec::new(alloc);
            for part in parts {
                let line = Line::new(to.clone()?);
                let handle = Builder::new()
                    .stack_size(STACK)
                    .spawn_scoped(scope, move || {
                        wait_at(rt, alloc, listener, gate, pool, part, line, observer, terms)
                    })?;
                waiting.push(handle)?;
            }
            drop(to);
            let mut parts = Vec::new(alloc);
            for handle in waiting {
                parts.push(handle.join(rt))?;
            }
            Ok(parts)
        },
    )
}

/// A worker, with the end of the queue that it takes from.
#[derive(Drop)]
struct Job<M: Meaning, W> {
    worker: W,
    requests: Receiver<Asked<M>, Global>,
}

fn jobs_of<M: Meaning, W: Drop>(
    alloc: Global,
    workers: Vec<W>,
    from: Receiver<Asked<M>, Global>,
) -> Result<Vec<Job<M, W>>, AllocError>
    ensures { IfOk result (λ jobs. vec_len jobs ≡ vec_len workers) }
{
    let mut jobs = Vec::new(alloc);
    for worker in workers {
        let requests = from.clone()?;
        jobs.push(Job { worker, requests })?;
    }
    Ok(jobs)
}

/// Runs the workers until nobody asks any more.
fn run_working<M: Meaning + Send + Sync, W: Work<M> + Send + Drop, R: Threads + Wait + Sync>(
    rt: &R,
    jobs: Vec<Job<M, W>>,
) -> Result<Vec<W>, AllocError>
    requires ready { W.is_ready }
    ensures { IfOk result (λ workers. vec_len workers ≡ vec_len jobs) }
{
    map_vec(
        rt,
        jobs,
        &|job: Job<M, W>| -> W
            requires { W.is_ready }
        { work_on(rt, job) },
    )
}

/// Runs the workers and those that wait, until all have ended: the parts and the workers.
fn run_threads<
    L: Budget + Send + Sync,
    M: Meaning + Send + Sync,
    W: Work<M> + Send + Drop,
    H: Observer + Sync,
    R: Threads + Wait + Clock + Sync,
>(
    rt: &R,
    alloc: Global,
    listener: &TcpListener,
    gate: &Gate,
    pool: &Mutex<Pool<L>>,
    parts: Vec<Part<L>>,
    workers: Vec<W>,
    observer: &H,
    terms: Terms,
) -> io::Result<(Vec<Part<L>>, Vec<W>)>
    requires ready { W.is_ready }
    ensures { IfOk result (λ ended. vec_len ended.1 ≡ vec_len workers) }
{
    let (to, from) = bounded::<Asked<M>, Global>(alloc, parts.len().max(1))?;
    let jobs = jobs_of(alloc, workers, from)?;
    let apart = || -> Result<Vec<W>, AllocError>
        requires { W.is_ready × IsSync R.row }
        ensures { IfOk result (λ workers. vec_len workers ≡ vec_len jobs) }
    { run_working(rt, jobs) };
    let here = || run_waiting(rt, alloc, listener, gate, pool, parts, to, observer, terms);
    let (workers, parts) = join(rt, apart, here);
    Ok((parts?, workers?))
}

fn run<
    L: Budget + Send + Sync,
    M: Meaning + Send + Sync,
    W: Work<M> + Send + Drop,
    H: Observer + Sync,
    R: Threads + Wait + Clock + Sync,
>(
    rt: &R,
    alloc: Global,
    listener: &TcpListener,
    gate: &Gate,
    workers: Vec<W>,
    observer: &H,
    terms: Terms,
    blank: Blank,
) -> io::Result<Ended<W>>
    requires name { blank.name ≡ L.name }
    requires parts { blank.parts ≡ L.parts }
    requires many { blank.parts ≡ terms.places + 1 }
    requires whole { terms.together ≡ L.whole }
    requires ready { W.is_ready }
    ensures left { IfOk result (λ ended. IfSome ended.left (λ left. left ≡ terms.together)) }
    ensures workers { IfOk result (λ ended. vec_len ended.workers ≡ vec_len workers) }
{
    let count = terms.places as usize;
    let (pool, mut all) = Pool::<L>::open(blank, terms.together);
    let shared = Mutex::new(pool);
    let parts = parts_of(alloc, &mut all, count)?;
    let (parts, workers) = run_threads(
        rt, alloc, listener, gate, &shared, parts, workers, observer, terms,
    )?;
    let left = if merge_all(&mut all, parts, count) == count {
        Some(shared.lock(rt).left(&mut all))
    } else {
        None
    };
    Ok(Ended { workers, left })
}

/// Runs a room in front of these workers, each thread of its own, until the gate admits no more
/// connections and all that came are attended: the workers, and the budget, which is whole again.
///
/// The gate has as many places as the terms say. A thread that waits has a stack of 256 KiB. An
/// error is that a thread could not be made, or that there is no memory: then the threads that
/// were made go on until the gate admits no more.
pub fn serve<
    M: Meaning + Send + Sync,
    W: Work<M> + Send + Drop,
    H: Observer + Sync,
    R: Threads + Wait + Clock + Sync,
>(
    rt: &R,
    alloc: Global,
    listener: &TcpListener,
    gate: &Gate,
    workers: Vec<W>,
    observer: &H,
    terms: Terms,
) -> io::Result<Ended<W>>
    requires ready { W.is_ready }
    ensures left { IfOk result (λ ended. IfSome ended.left (λ left. left ≡ terms.together)) }
    ensures workers { IfOk result (λ ended. vec_len ended.workers ≡ vec_len workers) }
{
    let blank = Blank::new(terms.places as u64 + 1);
    run::<Brand, M, W, H, R>(rt, alloc, listener, gate, workers, observer, terms, blank)
}
