//! Workers of the port of Prometheus, behind a room in which slow clients wait.

ghost use Rattle.std.specs.Prelude.{◌≡◌, ◌≢◌, [], IfErr, IfOk, vec_len};
ghost use Rattle.std.specs.Thread.{IsSync};
ghost use Rattle.server.specs.Receiving.{end_of};
ghost use Rattle.server.specs.declared.error.ServeError.TheVariants.{NoListener};

use crate::clock::now_in;
use crate::error::ServeError;
use crate::place::Place;
use crate::pool::Terms;
use crate::tally::Tally;
use guard::Rules;
use keeper::Keeper;
use remote_http::{Silence, answer};
use remote_requests::{Came, End};
use snapshots::{Committer, Naming, OpenNaming, Pass, Seat};
use std::alloc::{AllocError, Global};
use std::io;
use std::marker::{Brand, PhantomData};
use std::net::TcpListener;
use std::sync::{Arc, Mutex, Wait};
use std::thread::Threads;
use std::time::{Clock, Duration};
use waiting_room::{
    End as RoomEnd, Ended, Gate, Limits, Meaning, Observer, Outcome, Reply, Terms as RoomTerms,
    Work,
};

/// The most bytes of a body.
const MAX_BODY: u32 = 16_777_216;

/// How many connections wait beside the workers.
const PLACES: u32 = 128;

/// The most bytes of all that wait, together.
const TOGETHER: u64 = 268_435_456;

/// How long a request may take to come, in seconds.
const WHOLE: u64 = 60;

/// How long a client may be silent if all places are taken, in seconds.
const CROWDED: u64 = 1;

/// What is written if a request cannot be taken.
const BUSY: &str = "HTTP/1.1 503 Service Unavailable\r\nContent-Type: application/json\r\n\
    Content-Length: 17\r\nConnection: close\r\n\r\n{\"refused\":\"G11\"}";

/// Under which rules the requests of a port are judged, and which version its replies report. The
/// call that serves the port is generic in it.
pub(crate) trait Ruling {
    ghost use Rattle.std.specs.Prelude.{ℕ, List};
    ghost use Rattle.guard.specs.declared.rules.Rules.{Rules};

    ghost rules: { Rules };

    ghost version: { List ℕ };
}

impl Ruling for Brand {
    ghost use Rattle.std.specs.Prelude.{[], None, true};

    ghost rules = { record { read_only = true; token = None } };

    ghost version = { [] };
}

/// What the replies of a store's workers are. They are under these rules, with this version, and of
/// what is kept in a keeper of this type.
struct Replies<J: Naming, K: Keeper, B: Ruling> {
    store: PhantomData<J>,
    keeper: PhantomData<Mutex<K>>,
    port: PhantomData<B>,
}

impl<J: Naming, K: Keeper, B: Ruling> Meaning for Replies<J, K, B> {
    ghost use Rattle.server.specs.Receiving.{IsTold};

    ghost made = { λ bytes end text.
        IsTold B.rules B.version K.holds K.stays J.before J.opening K.idle bytes end text };
}

/// One worker of the port.
#[derive(Drop)]
struct Receiver<'a, J: Naming, C: Wait + Drop, K: Keeper + Drop, B: Ruling, R> {
    rt: &'a R,
    alloc: Global,
    rules: &'a Rules,
    committer: &'a Committer<J, C, K>,
    version: &'static str,
    pass: Pass<J>,
    seat: Seat<J>,
    tally: Arc<Tally>,
    port: PhantomData<B>,
    ghost ruled: { rules.now ≡ B.rules },
    ghost told: { version.now ≡ B.version },
}

/// How what came ended, as far as it matters for what it asks.
fn end_of(end: RoomEnd) -> End
    ensures { result ≡ end_of end }
{
    match end {
        RoomEnd::Whole | RoomEnd::Astray => End::Whole,
        RoomEnd::Closed | RoomEnd::CutShort => End::Closed,
        RoomEnd::Silent | RoomEnd::Late => End::Silent,
        RoomEnd::Failed => End::Failed,
    }
}

/// What is handed over if no reply is owed.
fn nothing(alloc: Global) -> Reply
    ensures head { result.head.items ≡ [] }
    ensures body { result.body.items ≡ [] }
{
    Reply {
        status: 200,
        head: Vec::new(alloc),
        body: Vec::new(alloc),
    }
}

impl<
    J: OpenNaming,
    C: Wait + Drop,
    K: Keeper + Drop,
    B: Ruling,
    R: Wait + Threads + Clock + Sync,
> Work<Replies<J, K, B>> for Receiver<'_, J, C, K, B, R> {
    ghost is_ready = { IsSync R.row };

    fn reply(&mut self, bytes: &[u8], end: RoomEnd) -> Result<Reply, AllocError> {
        let came = Came {
            bytes,
            end: end_of(end),
        };
        let now = now_in(self.rt);
        let answered = answer(
            self.rt,
            self.alloc,
            self.rules,
            self.version,
            now,
            came,
            &mut self.pass,
            &mut self.seat,
            self.committer,
        );
        match answered {
            Ok(reply) => {
                let status = reply.status().number();
                self.tally.count_port(status as u64);
                let (head, body) = reply.into_parts();
                Ok(Reply { status, head, body })
            }
            Err(Silence::Memory) => Err(AllocError),
            Err(Silence::Closed | Silence::Lost) => Ok(nothing(self.alloc)),
        }
    }
}

/// Counts the connections of the port, in one of its workers' tallies. Their faults go to standard
/// error.
#[derive(Drop)]
struct Door<'a, R> {
    rt: &'a R,
    tally: Option<Arc<Tally>>,
}

impl<R: Eprint> Observer for Door<'_, R> {
    fn begun(&self) {
        if let Some(tally) = &self.tally {
            tally.begin_connection();
        }
    }

    fn ended(&self, outcome: &Outcome) {
        if let Some(tally) = &self.tally {
            tally.end_connection();
        }
        if matches!(outcome, Outcome::WriteFault) {
            let _ = eprintln!(self.rt; "cannot write a reply");
        }
    }

    fn failed(&self, error: &io::Error) {
        let _ = eprintln!(self.rt; "cannot accept a connection: {error}");
    }
}

fn terms_of(idle: Option<Duration>) -> RoomTerms {
    let whole = Duration::from_secs(WHOLE);
    RoomTerms {
        most: MAX_BODY,
        places: PLACES,
        together: TOGETHER,
        busy: BUSY,
        limits: Limits {
            idle: idle.unwrap_or(whole).min(whole),
            crowded: Duration::from_secs(CROWDED),
            whole,
        },
    }
}

/// What each of these places is for, at the port of Prometheus.
fn receivers_of<'a, J: OpenNaming, C: Wait + Drop, K: Keeper + Drop, B: Ruling, R>(
    rt: &'a R,
    alloc: Global,
    committer: &'a Committer<J, C, K>,
    places: Vec<Place<J>>,
    rules: &'a Rules,
    version: &'static str,
) -> Result<Vec<Receiver<'a, J, C, K, B, R>>, AllocError>
    requires ruled { rules.now ≡ B.rules }
    requires told { version.now ≡ B.version }
    ensures { IfOk result (λ receivers. vec_len receivers ≡ vec_len places) }
{
    let mut receivers = Vec::new(alloc);
    for Place {
        pass,
        seat,
        tally,
        holder: _,
    } in places {
        receivers.push(Receiver {
            rt,
            alloc,
            rules,
            committer,
            version,
            pass,
            seat,
            tally,
            port: PhantomData,
        })?;
    }
    Ok(receivers)
}

/// The tally of the first of these places.
fn first_tally<J: Naming>(places: &[Place<J>]) -> Result<Option<Arc<Tally>>, AllocError> {
    match places.first() {
        Some(place) => Ok(Some(Arc::try_clone(&place.tally)?)),
        None => Ok(None),
    }
}

/// Runs the room of the port in front of these workers, until all have ended.
fn run_room<
    M: Meaning + Send + Sync,
    W: Work<M> + Send + Drop,
    H: Observer + Sync,
    R: Threads + Wait + Clock + Sync,
>(
    rt: &R,
    alloc: Global,
    listener: &TcpListener,
    gate: &Gate,
    workers: Vec<W>,
    observer: &H,
    idle: Option<Duration>,
) -> io::Result<Ended<W>>
    requires ready { W.is_ready }
    ensures { IfOk result (λ ended. vec_len ended.workers ≡ vec_len workers) }
{
    let terms = terms_of(idle);
    waiting_room::serve::<M, W, H, R>(rt, alloc, listener, gate, workers, observer, terms)
}

/// Serves the connections of the port of Prometheus as [`receive_all`] does.
fn receive_under<
    J: OpenNaming + Send + Sync,
    C: Wait + Drop + Send + Sync,
    K: Keeper + Drop + Send,
    B: Ruling + Send + Sync,
    R: Threads + Wait + Clock + Eprint + Sync,
>(
    rt: &R,
    alloc: Global,
    committer: &Committer<J, C, K>,
    places: Vec<Place<J>>,
    listener: &TcpListener,
    rules: &Rules,
    terms: Terms,
) -> Result<usize, ServeError>
where
    K::Last: Send,
    K::Settled: Send,
    requires ruled { rules.now ≡ B.rules }
    requires told { terms.version.now ≡ B.version }
    ensures all { IfOk result (λ count. count ≡ vec_len places) }
    ensures err { IfErr result (λ error. error ≢ NoListener) }
{
    let most = terms.requests.saturating_mul(places.len() as u64);
    let gate = Gate::new(PLACES, most);
    let door = Door {
        rt,
        tally: first_tally(places.as_slice())?,
    };
    let workers = receivers_of::<J, C, K, B, R>(
        rt,
        alloc,
        committer,
        places,
        rules,
        terms.version,
    )?;
    let idle = terms.idle;
    match run_room::<Replies<J, K, B>, _, _, R>(rt, alloc, listener, &gate, workers, &door, idle) {
        Ok(ended) => Ok(ended.workers.len()),
        Err(_) => Err(ServeError::NoThread),
    }
}

/// How many threads serve the port of Prometheus with this many workers, as far as they can be
/// counted.
pub(crate) fn threads_with(workers: usize) -> usize {
    workers.saturating_add(PLACES as usize)
}

/// Serves the connections of the port of Prometheus until as many were attended as its workers are
/// to serve. Returns how many workers there were.
///
/// What the room in front of them writes is its 503 or a reply that [`Replies`] allows. That reply
/// is the store's to the bytes that came, under these rules and with the version of the terms. A
/// keeper holds what was published.
pub(crate) fn receive_all<
    J: OpenNaming + Send + Sync,
    C: Wait + Drop + Send + Sync,
    K: Keeper + Drop + Send,
    R: Threads + Wait + Clock + Eprint + Sync,
>(
    rt: &R,
    alloc: Global,
    committer: &Committer<J, C, K>,
    places: Vec<Place<J>>,
    listener: &TcpListener,
    rules: &Rules,
    terms: Terms,
) -> Result<usize, ServeError>
where
    K::Last: Send,
    K::Settled: Send,
    ensures all { IfOk result (λ count. count ≡ vec_len places) }
    ensures err { IfErr result (λ error. error ≢ NoListener) }
{
    receive_under::<J, C, K, Brand, R>(rt, alloc, committer, places, listener, rules, terms)
}
