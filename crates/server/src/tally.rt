//! What a worker counts, while others read it.

ghost use Rattle.std.specs.Prelude.{◌≡◌};
ghost use Rattle.server.specs.Counting.{event_at, event_of, refusal_told, refusal_noted};
ghost use Rattle.server.specs.Counting.{refusal_unavailable};

use query_http::Note;
use requests::{Path, Status};
use server_metrics::{
    Counts, PathCounts, Times, place_in, place_of_port_status, place_of_refusal, place_of_status,
};
use std::alloc::{AllocError, Global};
use std::sync::atomic::{AtomicU64, Ordering};

/// Counts of one kind, each in its place.
#[derive(Drop)]
struct Cells {
    cells: Vec<AtomicU64>,
}

impl Cells {
    fn new(alloc: Global, count: usize) -> Result<Cells, AllocError> {
        let mut cells = Vec::new(alloc);
        for _ in 0..count {
            cells.push(AtomicU64::new(0))?;
        }
        Ok(Cells { cells })
    }

    /// One more in a place, if it is one.
    fn count(&self, place: usize) {
        if let Some(cell) = self.cells.get(place) {
            add(cell, 1);
        }
    }

    /// Adds each count to the count in its place.
    fn add_to(&self, counts: &mut [u64]) {
        for (count, cell) in counts.iter_mut().zip(self.cells.iter()) {
            *count = count.saturating_add(read(cell));
        }
    }
}

fn add(cell: &AtomicU64, n: u64) {
    let _ = cell.fetch_add(n, Ordering::Relaxed);
}

fn read(cell: &AtomicU64) -> u64 {
    cell.load(Ordering::Relaxed)
}

/// What is counted of the requests of one path.
#[derive(Drop)]
struct PathTally {
    replies: Cells,
    times: Cells,
    microseconds: AtomicU64,
}

impl PathTally {
    fn new(alloc: Global) -> Result<PathTally, AllocError> {
        let times = Cells::new(alloc, 11)?;
        Ok(PathTally {
            replies: Cells::new(alloc, 9)?,
            times,
            microseconds: AtomicU64::new(0),
        })
    }

    /// Counts a reply with this status, of a request that took this long.
    fn count(&self, status: Status, microseconds: u64) {
        if let Some(place) = place_of_status(status.number() as u64) {
            self.replies.count(place);
        }
        self.times.count(place_in(microseconds));
        add(&self.microseconds, microseconds);
    }

    fn add_to(&self, counts: &mut PathCounts) {
        self.replies.add_to(&mut counts.replies);
        add_times(self, &mut counts.times);
    }
}

fn add_times(tally: &PathTally, times: &mut Times) {
    tally.times.add_to(&mut times.counts);
    times.microseconds = times.microseconds.saturating_add(read(&tally.microseconds));
}

/// What one worker counts. Only the worker adds to it. Whoever has it reads it, without a lock.
#[derive(Drop)]
pub struct Tally {
    select: PathTally,
    write: PathTally,
    delete: PathTally,
    cut: PathTally,
    other: PathTally,
    refusals: Cells,
    batches: AtomicU64,
    deletions: AtomicU64,
    cuts: AtomicU64,
    samples: AtomicU64,
    bytes: AtomicU64,
    busy: AtomicU64,
    port_replies: Cells,
    port_connections: AtomicU64,
    joins: AtomicU64,
    removed: AtomicU64,
}

/// An event that the store accepted.
#[derive(Clone, Copy, Debug, PartialEq, Eq, Drop)]
enum Event {
    /// This many samples.
    Batch(u64),
    Deletion,
    Cutting,
    Nothing,
}

/// The number of the refusal that a reply of 503 has of a store, by the path. The store lends no
/// snapshot, or does not keep an event.
fn refusal_unavailable(path: Option<Path>) -> u64
    ensures { result ≡ refusal_unavailable path }
{
    match path {
        Some(Path::Write | Path::Delete | Path::Cut) => 11,
        Some(Path::Select) | None => 10,
    }
}

/// The number of the refusal that a reply of 503 has: the one that is noted, which is that of a
/// reply without room, or that of a store.
fn refusal_noted(note: Note) -> u64
    ensures { result ≡ refusal_noted note }
{
    match note.refusal {
        Some(number) => number,
        None => refusal_unavailable(note.path),
    }
}

/// The number of the refusal that a connection got, if it got one. Either what came is refused, or
/// the status of the reply says which refusal of a store it is.
fn refusal_of(note: Note, status: Status) -> Option<u64>
    ensures { result ≡ refusal_told note status }
{
    match status {
        Status::Conflict => Some(9),
        Status::ServiceUnavailable => Some(refusal_noted(note)),
        _ => note.refusal,
    }
}

/// The event that a request of a path publishes, with this many samples.
fn event_at(path: Option<Path>, samples: u64) -> Event
    ensures { result ≡ event_at path samples }
{
    match path {
        Some(Path::Write) => Event::Batch(samples),
        Some(Path::Delete) => Event::Deletion,
        Some(Path::Cut) => Event::Cutting,
        Some(Path::Select) | None => Event::Nothing,
    }
}

/// The event that was accepted on a connection of which this was noted.
fn event_of(note: Note, status: Status) -> Event
    ensures { result ≡ event_of note status }
{
    match status {
        Status::Done => event_at(note.path, note.samples),
        _ => Event::Nothing,
    }
}

impl Tally {
    /// Nothing was counted.
    pub fn new(alloc: Global) -> Result<Tally, AllocError> {
        let select = PathTally::new(alloc)?;
        let write = PathTally::new(alloc)?;
        let delete = PathTally::new(alloc)?;
        let cut = PathTally::new(alloc)?;
        let other = PathTally::new(alloc)?;
        Ok(Tally {
            select,
            write,
            delete,
            cut,
            other,
            refusals: Cells::new(alloc, 13)?,
            batches: AtomicU64::new(0),
            deletions: AtomicU64::new(0),
            cuts: AtomicU64::new(0),
            samples: AtomicU64::new(0),
            bytes: AtomicU64::new(0),
            busy: AtomicU64::new(0),
            port_replies: Cells::new(alloc, 9)?,
            port_connections: AtomicU64::new(0),
            joins: AtomicU64::new(0),
            removed: AtomicU64::new(0),
        })
    }

    fn path(&self, path: Option<Path>) -> &PathTally {
        match path {
            Some(Path::Select) => &self.select,
            Some(Path::Write) => &self.write,
            Some(Path::Delete) => &self.delete,
            Some(Path::Cut) => &self.cut,
            None => &self.other,
        }
    }

    /// Counts an event.
    fn count_event(&self, event: Event) {
        match event {
            Event::Batch(samples) => {
                add(&self.batches, 1);
                add(&self.samples, samples);
            }
            Event::Deletion => add(&self.deletions, 1),
            Event::Cutting => add(&self.cuts, 1),
            Event::Nothing => {}
        }
    }

    /// Counts a cut that no client asked for.
    pub(crate) fn count_cut(&self) {
        self.count_event(Event::Cutting);
    }

    /// Counts a deletion that no client asked for.
    pub(crate) fn count_deletion(&self) {
        self.count_event(Event::Deletion);
    }

    /// Counts a join.
    pub(crate) fn count_join(&self) {
        add(&self.joins, 1);
    }

    /// Counts blocks that left.
    pub(crate) fn count_removed(&self, blocks: u64) {
        add(&self.removed, blocks);
    }

    /// Counts a refusal with this number.
    fn count_refusal(&self, number: u64) {
        if let Some(place) = place_of_refusal(number) {
            self.refusals.count(place);
        }
    }

    /// Counts a connection of which this was noted, if a reply was made for it. It took this long,
    /// and this many bytes were written.
    pub(crate) fn count(&self, note: Note, microseconds: u64, bytes: u64) {
        add(&self.bytes, bytes);
        let Some(status) = note.status else {
            return;
        };
        self.path(note.path).count(status, microseconds);
        if let Some(number) = refusal_of(note, status) {
            self.count_refusal(number);
        }
        self.count_event(event_of(note, status));
    }

    /// Says whether the worker serves a connection.
    pub(crate) fn set_busy(&self, busy: bool) {
        let busy = if busy { 1 } else { 0 };
        self.busy.store(busy, Ordering::Relaxed);
    }

    /// 1 if the worker serves a connection, else 0.
    pub(crate) fn busy(&self) -> u64 {
        read(&self.busy)
    }

    /// Counts a reply of the port of Prometheus, by its status.
    pub(crate) fn count_port(&self, status: u64) {
        if let Some(place) = place_of_port_status(status) {
            self.port_replies.count(place);
        }
    }

    /// A connection on the port of Prometheus has come.
    pub(crate) fn begin_connection(&self) {
        add(&self.port_connections, 1);
    }

    /// A connection on the port of Prometheus has ended.
    pub(crate) fn end_connection(&self) {
        let _ = self.port_connections.fetch_sub(1, Ordering::Relaxed);
    }

    /// How many connections on the port of Prometheus there are.
    pub(crate) fn connections(&self) -> u64 {
        read(&self.port_connections)
    }

    fn add_paths_to(&self, counts: &mut Counts) {
        self.select.add_to(&mut counts.select);
        self.write.add_to(&mut counts.write);
        self.delete.add_to(&mut counts.delete);
        self.cut.add_to(&mut counts.cut);
        self.other.add_to(&mut counts.other);
    }

    /// Adds what was counted.
    pub(crate) fn add_to(&self, counts: &mut Counts) {
        self.add_paths_to(counts);
        self.refusals.add_to(&mut counts.refusals);
        self.port_replies.add_to(&mut counts.port_replies);
        counts.batches = counts.batches.saturating_add(read(&self.batches));
        counts.deletions = counts.deletions.saturating_add(read(&self.deletions));
        counts.cuts = counts.cuts.saturating_add(read(&self.cuts));
        counts.samples = counts.samples.saturating_add(read(&self.samples));
        counts.bytes = counts.bytes.saturating_add(read(&self.bytes));
        counts.joins = counts.joins.saturating_add(read(&self.joins));
        counts.removed = counts.removed.saturating_add(read(&self.removed));
    }
}
