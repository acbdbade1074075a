//! The state of a server, for those that ask at the status port.

use crate::status::{Report, answer_status};
use crate::tally::Tally;
use head::HeadView;
use labels::{MIN_TIME, SeriesRef};
use server_metrics::{Counts, State};
use snapshots::{Naming, Pass};
use std::alloc::Global;
use std::net::TcpListener;
use std::sync::Arc;
use std::sync::atomic::AtomicBool;
use std::time::Clock;

/// What knows how much memory the process occupies.
pub trait Memory {
    /// How much memory it occupies, in bytes, or 0 if that is not known.
    fn resident(&self) -> u64;
}

/// The status port, and what is reported there beside what the server knows.
#[derive(Drop)]
pub struct Watch<'a, M> {
    /// Its listener, which does not block.
    pub listener: &'a TcpListener,
    pub memory: &'a M,
    /// The version of the program, and of its kit.
    pub version: &'static str,
    pub kit: &'static str,
}

/// The state of a server with an empty head and no block.
fn state_of<M: Memory>(watch: &Watch<'_, M>, workers: u64, busy: u64) -> State {
    State {
        series: 0,
        samples: 0,
        floor: MIN_TIME,
        blocks: 0,
        workers,
        busy,
        port_connections: 0,
        resident: watch.memory.resident(),
        version: watch.version,
        kit: watch.kit,
    }
}

/// The state of a server whose blocks are not open yet.
#[derive(Drop)]
struct Opening<'a, 'b, M> {
    watch: &'a Watch<'b, M>,
}

impl<M: Memory> Report for Opening<'_, '_, M> {
    ghost use Rattle.std.specs.Prelude.{false};

    ghost ready = { λ _. false };

    fn is_ready(&self) -> bool {
        false
    }

    fn counts(&self) -> Counts {
        Counts::none()
    }

    fn state(&mut self) -> Option<State> {
        Some(state_of(self.watch, 0, 0))
    }
}

/// Answers the clients of the status port while the blocks are opened, until that is over.
pub fn report_opening<R: Clock, M: Memory>(
    rt: &R,
    alloc: Global,
    watch: &Watch<'_, M>,
    over: &AtomicBool,
) {
    let mut report = Opening { watch };
    answer_status(rt, alloc, watch.listener, over, &mut report);
}

/// How many series and samples a head has. Its series are numbered from 1. It looks at each of
/// them, and copies no sample.
fn head_counts(head: &HeadView) -> (u64, u64) {
    let (mut series, mut samples) = (0u64, 0u64);
    for number in 1..u32::MAX {
        let reference = SeriesRef::new(number);
        if head.labels_of(reference).is_none() {
            break;
        }
        series = series.saturating_add(1);
        samples = samples.saturating_add(head.sample_count_of(reference) as u64);
    }
    (series, samples)
}

/// The state of a server whose blocks are open.
#[derive(Drop)]
struct Open<'a, 'b, M, J: Naming> {
    watch: &'a Watch<'b, M>,
    pass: Option<Pass<J>>,
    tallies: Vec<Arc<Tally>>,
    workers: u64,
}

impl<M: Memory, J: Naming> Open<'_, '_, M, J> {
    fn busy(&self) -> u64 {
        let mut busy = 0u64;
        for tally in &self.tallies {
            busy = busy.saturating_add(tally.busy());
        }
        busy
    }

    fn connections(&self) -> u64 {
        let mut connections = 0u64;
        for tally in &self.tallies {
            connections = connections.saturating_add(tally.connections());
        }
        connections
    }
}

impl<M: Memory, J: Naming> Report for Open<'_, '_, M, J> {
    ghost use Rattle.std.specs.Prelude.{true};

    ghost ready = { λ _. true };

    fn is_ready(&self) -> bool {
        true
    }

    fn counts(&self) -> Counts {
        let mut counts = Counts::none();
        for tally in &self.tallies {
            tally.add_to(&mut counts);
        }
        counts
    }

    fn state(&mut self) -> Option<State> {
        let state = state_of(self.watch, self.workers, self.busy());
        let Some(pass) = self.pass.as_mut() else {
            return None;
        };
        let Ok(snapshot) = pass.snapshot() else {
            return None;
        };
        let (series, samples) = head_counts(snapshot.head());
        Some(State {
            series,
            samples,
            floor: snapshot.floor(),
            blocks: snapshot.blocks().len() as u64,
            port_connections: self.connections(),
            ..state
        })
    }
}

/// Answers the clients of the status port while this many workers serve, until that is over.
pub(crate) fn report_open<R: Clock, M: Memory, J: Naming>(
    rt: &R,
    alloc: Global,
    watch: &Watch<'_, M>,
    over: &AtomicBool,
    pass: Option<Pass<J>>,
    tallies: Vec<Arc<Tally>>,
    workers: u64,
) {
    let mut report = Open {
        watch,
        pass,
        tallies,
        workers,
    };
    answer_status(rt, alloc, watch.listener, over, &mut report);
}
