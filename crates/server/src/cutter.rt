//! Cuts that a server makes by itself.

use crate::clock::now_in;
use crate::place::Place;
use crate::sockets::micros_of;
use cut_schedule::{awaited, due};
use head::{CommitError, HeadView, MAX_SERIES};
use keeper::Keeper;
use labels::{MAX_TIME, MIN_TIME, is_time};
use postings::{Postings, Source};
use snapshots::{Committer, Naming, OpenNaming, Pass};
use std::alloc::{AllocError, Global};
use std::sync::Wait;
use std::time::{Clock, Instant};

/// How long a pause is, in milliseconds. After each pause the end of a server is noticed.
pub(crate) const PAUSE: u64 = 100;

/// How often a cut's distance from the floor is halved.
const HALVINGS: usize = 64;

/// The greatest number of milliseconds between cuts.
const MOST: u64 = 4_611_686_018_427_387_903;

/// When a server cuts by itself: at multiples of `every` milliseconds, 1 to 2^62 - 1. Each cut is
/// made once it lies `after` milliseconds, 0 to 2^62 - 1, behind the newest sample and the clock.
/// With other numbers the server never cuts by itself.
#[derive(Clone, Copy, Debug, PartialEq, Eq, Drop)]
pub struct Schedule {
    pub every: u64,
    pub after: u64,
}

/// A cut that is due, and the floor below it.
#[derive(Clone, Copy, Drop)]
struct DueCut {
    floor: i64,
    at: i64,
}

/// What became of a cut.
#[derive(Clone, Copy, PartialEq, Eq, Drop)]
enum Tried {
    /// It was made, or someone else made it or a later one.
    Made,
    /// It would make a block too long.
    TooLong,
    /// It was refused.
    Refused,
}

/// Who cuts a store.
#[derive(Drop)]
pub(crate) struct Cutter {
    when: Schedule,
    /// The time up to which it tries no cut again.
    tried: i64,
    /// How many events the store had when it last looked for its newest sample, and the time of
    /// that, if a cut can be due by it.
    seen: Option<u64>,
    newest: i64,
}

/// The time of the newest of the samples of a head that are not before a time, or the smallest time
/// if there are none. It looks at each series, and copies these samples.
fn newest_from(alloc: Global, head: &HeadView, from: i64) -> Result<i64, AllocError> {
    let mut newest = MIN_TIME;
    let mut live = head.live(alloc, from, MAX_TIME)?;
    for _ in 0..MAX_SERIES {
        let Some(reference) = live.current() else {
            return Ok(newest);
        };
        let samples = head.samples_of(alloc, reference, from, MAX_TIME)?;
        if let Some(last) = samples.last() {
            newest = newest.max(last.t());
        }
        live.advance();
    }
    Ok(newest)
}

/// How many pauses there are after a look. They last twenty times as long as it took, and there is
/// at least one.
pub(crate) fn pauses_after(rt: &impl Clock, start: Option<Instant>) -> u64 {
    let Some(start) = start else {
        return 1;
    };
    match start.elapsed(rt) {
        Ok(took) => (micros_of(took) / (50 * PAUSE)).saturating_add(1),
        Err(_) => 1,
    }
}

/// The code of a refused event, as its client would see it.
pub(crate) fn code_of(error: CommitError) -> &'static str {
    match error {
        CommitError::Journal => "H11",
        error => error.code(),
    }
}

/// Cuts at a time. A refusal is reported, unless someone has cut there or later.
fn cut_at<J: OpenNaming, C: Wait + Drop, K: Keeper + Drop>(
    rt: &(impl Wait + Eprint),
    committer: &Committer<J, C, K>,
    place: &mut Place<J>,
    at: i64,
) -> Tried {
    if !is_time(at) {
        return Tried::Refused;
    }
    match committer.cut(rt, &mut place.seat, at) {
        Ok(receipt) => {
            place.pass.learn(&receipt);
            place.tally.count_cut();
            Tried::Made
        }
        Err(refused) => match refused.error {
            CommitError::CutTooLow => Tried::Made,
            error => {
                let code = code_of(error);
                let _ = eprintln!(rt; "cannot cut at {at}: {code}");
                match error {
                    CommitError::Limit => Tried::TooLong,
                    _ => Tried::Refused,
                }
            }
        },
    }
}

impl Cutter {
    pub(crate) fn new(when: Schedule) -> Cutter {
        Cutter {
            when,
            tried: MIN_TIME,
            seen: None,
            newest: MIN_TIME,
        }
    }

    /// How many milliseconds lie between the times of cuts.
    pub(crate) fn every(&self) -> u64 {
        self.when.every
    }

    /// Which cut of the store is due now. It is above the floor, and above each time that was
    /// tried. There is none if nothing was published since the last look and that look found none
    /// that waits for the clock.
    fn due_now<J: Naming>(
        &mut self,
        rt: &impl Clock,
        alloc: Global,
        pass: &mut Pass<J>,
    ) -> Option<DueCut> {
        let Schedule { every, after } = self.when;
        if every == 0 || every > MOST || after > MOST {
            return None;
        }
        let Ok(snapshot) = pass.snapshot() else {
            return None;
        };
        let events = pass.events();
        let floor = snapshot.floor().max(self.tried);
        if self.seen != Some(events) {
            let Ok(newest) = newest_from(alloc, snapshot.head(), awaited(every, after, floor))
            else {
                return None;
            };
            self.seen = Some(events);
            self.newest = newest;
        }
        let at = due(every, after, floor, self.newest, now_in(rt))?;
        Some(DueCut {
            floor: snapshot.floor(),
            at,
        })
    }

    /// Makes a cut that is due. If a file of its block would be too long, a cut at half the
    /// distance from the floor is tried, until one is made. The next look then tries the rest.
    fn cut<J: OpenNaming, C: Wait + Drop, K: Keeper + Drop>(
        &mut self,
        rt: &(impl Wait + Eprint),
        committer: &Committer<J, C, K>,
        place: &mut Place<J>,
        due: DueCut,
    ) {
        let mut at = due.at;
        self.tried = at;
        for _ in 0..HALVINGS {
            match cut_at(rt, committer, place, at) {
                Tried::Made => {
                    self.tried = at;
                    return;
                }
                Tried::Refused => return,
                Tried::TooLong => {}
            }
            let half = (at.abs_diff(due.floor) / 2) as i64;
            if half == 0 {
                return;
            }
            at = at.saturating_sub(half);
        }
    }

    /// Looks whether the store is to be cut, and cuts it. Returns how many pauses there are then.
    pub(crate) fn look<J: OpenNaming, C: Wait + Drop, K: Keeper + Drop>(
        &mut self,
        rt: &(impl Wait + Clock + Eprint),
        alloc: Global,
        committer: &Committer<J, C, K>,
        place: &mut Place<J>,
    ) -> u64 {
        let start = Instant::now(rt).ok();
        let due = self.due_now(rt, alloc, &mut place.pass);
        let pauses = pauses_after(rt, start);
        if let Some(due) = due {
            self.cut(rt, committer, place, due);
        }
        pauses
    }
}
