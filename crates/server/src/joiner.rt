//! Joins that a server makes by itself, and samples that leave it.

use crate::clock::now_in;
use crate::cutter::{PAUSE, code_of, pauses_after};
use crate::join_right::JoinRight;
use crate::place::Place;
use crate::shapes::{count_ended, shape_of, shapes_of};
use block::Block;
use block_joiner::{are_emptied, join_blocks};
use block_upkeep::{Task, Upkeep};
use head::{Event, MAX_BLOCKS, Snapshot};
use join_schedule::{Run, Shape};
use keeper::Keeper;
use labels::MIN_TIME;
use snapshots::{Committer, JoinError, JoinedRun, JoiningNaming, OpenNaming};
use std::alloc::{AllocError, Global};
use std::sync::{Arc, Wait};
use std::time::{Clock, Instant};

/// After so many looks, five minutes, it does not rest on: what hindered a join may be gone.
const LONGEST_REST: u64 = 300_000 / PAUSE;

/// How the blocks of a store stand. It changes with each cut, and with each join.
#[derive(Clone, Copy, Debug, PartialEq, Eq, Drop)]
struct Standing {
    floor: i64,
    blocks: usize,
}

/// What became of it.
#[derive(Clone, Copy, Debug, PartialEq, Eq, Drop)]
enum Outcome {
    /// It is done, and there may be more to do.
    Done,
    /// It is tried again, after a pause.
    Later,
    /// It is not tried again before the blocks stand otherwise, or a long rest is over.
    GivenUp,
}

/// What a look at the blocks came to.
#[derive(Clone, Copy, Debug, PartialEq, Eq, Drop)]
pub(crate) enum Look {
    /// Something was done, and there may be more to do.
    Done,
    /// There is nothing to do before so many pauses.
    Rest(u64),
}

/// Blocks of a store, side by side from a place on.
#[derive(Drop)]
struct Part {
    at: usize,
    blocks: Vec<Block>,
}

/// What is to be done, and with what.
#[derive(Drop)]
enum Work {
    /// These blocks leave.
    Remove(Part),
    /// The samples before this time leave. So many blocks end by then.
    Expire { before: i64, ended: usize },
    /// These blocks are joined.
    Join(Part),
}

/// Who joins the blocks of a store, and lets samples leave it.
#[derive(Drop)]
pub(crate) struct Joiner<J: OpenNaming> {
    right: JoinRight<J>,
    upkeep: Upkeep,
    /// The store is cut at multiples of so many milliseconds.
    cut: u64,
    /// How the blocks stood when nothing was left to do.
    rested: Option<Standing>,
    /// For how many looks it rests while they stand so.
    rest: u64,
    /// With how many blocks the round of joins began, or 0 if none is on.
    begun: usize,
    /// Blocks that were too much for one. None of them is joined as long as it stays as it is.
    unjoined: Vec<Shape>,
}

fn standing_of(snapshot: &Snapshot) -> Standing {
    Standing {
        floor: snapshot.floor(),
        blocks: snapshot.blocks().len(),
    }
}

/// The word for so many blocks.
fn noun_of(count: usize) -> &'static str {
    if count == 1 { "block" } else { "blocks" }
}

/// The code of a refused join, as a client would see it.
fn join_code_of(error: JoinError) -> &'static str {
    match error {
        JoinError::Journal => "H11",
        error => error.code(),
    }
}

/// So many blocks from a place on. They share their files with those of the snapshot.
fn part_of(
    alloc: Global,
    snapshot: &Snapshot,
    at: usize,
    count: usize,
) -> Result<Part, AllocError> {
    let mut blocks = Vec::new(alloc);
    for block in snapshot.blocks().iter().skip(at).take(count) {
        blocks.push(block.share(alloc)?)?;
    }
    Ok(Part { at, blocks })
}

/// A task by which something leaves, with the blocks of the snapshot that it is done with.
fn leaving_of(
    alloc: Global,
    snapshot: &Snapshot,
    shapes: &[Shape],
    task: Task,
) -> Result<Work, AllocError> {
    match task {
        Task::Remove(stretch) => {
            let part = part_of(alloc, snapshot, stretch.at, stretch.count)?;
            Ok(Work::Remove(part))
        }
        Task::Expire(before) => Ok(Work::Expire {
            before,
            ended: count_ended(shapes, before),
        }),
    }
}

/// The blocks of a part, and none in their place, if no sample is left in any of them.
fn removed(alloc: Global, part: Part) -> Option<JoinedRun> {
    let Part { at, blocks } = part;
    if blocks.is_empty() {
        return None;
    }
    if !are_emptied(blocks.as_slice()) {
        return None;
    }
    Some(JoinedRun::of(at, blocks, Vec::new(alloc)))
}

/// What becomes of a join that was refused. One that came too late is made anew.
fn refused(rt: &impl Eprint, count: usize, error: JoinError) -> Outcome {
    if error == JoinError::Stale {
        return Outcome::Later;
    }
    let (noun, code) = (noun_of(count), join_code_of(error));
    let _ = eprintln!(rt; "cannot join {count} {noun}: {code}");
    Outcome::GivenUp
}

/// Publishes a join.
fn publish<J: OpenNaming, C: Wait + Drop, K: Keeper + Drop>(
    rt: &impl Wait,
    right: &JoinRight<J>,
    committer: &Committer<J, C, K>,
    place: &mut Place<J>,
    run: &JoinedRun,
) -> Result<(), JoinError> {
    let receipt = committer.join(rt, &mut place.seat, run)?;
    place.pass.learn(&receipt);
    place.tally.count_join();
    Ok(())
}

/// Lets blocks leave in which no sample is left.
fn remove<J: OpenNaming, C: Wait + Drop, K: Keeper + Drop>(
    rt: &(impl Wait + Eprint),
    alloc: Global,
    right: &JoinRight<J>,
    committer: &Committer<J, C, K>,
    place: &mut Place<J>,
    part: Part,
) -> Outcome {
    let count = part.blocks.len();
    let Some(run) = removed(alloc, part) else {
        return Outcome::Later;
    };
    match publish(rt, right, committer, place, &run) {
        Ok(()) => {
            place.tally.count_removed(count as u64);
            let noun = noun_of(count);
            let _ = eprintln!(rt; "removed {count} empty {noun}");
            Outcome::Done
        }
        Err(error) => refused(rt, count, error),
    }
}

/// Lets the samples before a time leave, by a deletion without matchers. Series stay, and so do the
/// times of their newest samples: the time is that of a block's end, which is at or below the
/// floor.
fn expire<J: OpenNaming, C: Wait + Drop, K: Keeper + Drop>(
    rt: &(impl Wait + Eprint),
    alloc: Global,
    committer: &Committer<J, C, K>,
    place: &mut Place<J>,
    before: i64,
    ended: usize,
) -> Outcome {
    let matchers = Vec::new(alloc);
    let last = before.saturating_sub(1);
    if !Event::is_deletion(matchers.as_slice(), MIN_TIME, last) {
        return Outcome::GivenUp;
    }
    match committer.delete(rt, &mut place.seat, matchers, MIN_TIME, last) {
        Ok(receipt) => {
            place.pass.learn(&receipt);
            place.tally.count_deletion();
            let noun = noun_of(ended);
            let _ = eprintln!(rt; "dropped samples before {before}: {ended} {noun}");
            Outcome::Done
        }
        Err((_matchers, error)) => {
            let code = code_of(error);
            let _ = eprintln!(rt; "cannot drop samples before {before}: {code}");
            Outcome::GivenUp
        }
    }
}

impl<J: JoiningNaming> Joiner<J> {
    pub(crate) fn new(alloc: Global, upkeep: Upkeep, cut: u64) -> Joiner<J> {
        Joiner {
            right: JoinRight::new(),
            upkeep,
            cut,
            rested: None,
            rest: 0,
            begun: 0,
            unjoined: Vec::new(alloc),
        }
    }
}

impl<J: OpenNaming> Joiner<J> {
    /// The shapes as joins see them: a block that was too much for one with others fits nowhere.
    fn joinable(&self, alloc: Global, shapes: &[Shape]) -> Result<Vec<Shape>, AllocError> {
        let mut seen = Vec::new(alloc);
        for shape in shapes {
            let samples = if self.unjoined.iter().any(|other| other == shape) {
                u64::MAX
            } else {
                shape.samples
            };
            seen.push(Shape { samples, ..*shape })?;
        }
        Ok(seen)
    }

    /// Which blocks are joined next.
    fn next_join(
        &mut self,
        alloc: Global,
        shapes: &[Shape],
        floor: i64,
    ) -> Result<Option<Run>, AllocError> {
        let seen = self.joinable(alloc, shapes)?;
        self.begun = self.begun.max(seen.len());
        Ok(
            self.upkeep
                .next_join(seen.as_slice(), floor, self.cut, self.begun),
        )
    }

    /// What is to be done next, if anything.
    fn next_work(
        &mut self,
        alloc: Global,
        snapshot: &Snapshot,
        now: i64,
    ) -> Result<Option<Work>, AllocError> {
        let shapes = shapes_of(alloc, snapshot)?;
        let floor = snapshot.floor();
        if let Some(task) = self.upkeep.next_leaving(shapes.as_slice(), floor, now) {
            let work = leaving_of(alloc, snapshot, shapes.as_slice(), task)?;
            return Ok(Some(work));
        }
        match self.next_join(alloc, shapes.as_slice(), floor)? {
            Some(run) => {
                let part = part_of(alloc, snapshot, run.at, run.count)?;
                Ok(Some(Work::Join(part)))
            }
            None => Ok(None),
        }
    }

    /// Remembers blocks that were too much for one.
    fn give_up(&mut self, rt: &impl Eprint, blocks: &[Block]) -> Outcome {
        let count = blocks.len();
        let noun = noun_of(count);
        let _ = eprintln!(rt; "cannot join {count} {noun}: too much for one");
        if self.unjoined.len() > MAX_BLOCKS {
            self.unjoined.clear();
        }
        for block in blocks {
            if self.unjoined.push(shape_of(block)).is_err() {
                return Outcome::GivenUp;
            }
        }
        Outcome::Done
    }

    /// Joins blocks. The new ones are made without a lock.
    fn join<C: Wait + Drop, K: Keeper + Drop>(
        &mut self,
        rt: &(impl Wait + Eprint),
        alloc: Global,
        committer: &Committer<J, C, K>,
        place: &mut Place<J>,
        part: Part,
    ) -> Outcome {
        let Part { at, blocks } = part;
        let count = blocks.len();
        let Ok(made) = join_blocks(alloc, blocks.as_slice()) else {
            return refused(rt, count, JoinError::Memory);
        };
        let left = made.len();
        if left >= count {
            return self.give_up(rt, blocks.as_slice());
        }
        let run = JoinedRun::of(at, blocks, made);
        match publish(rt, &self.right, committer, place, &run) {
            Ok(()) => {
                let noun = noun_of(count);
                let _ = eprintln!(rt; "joined {count} {noun} into {left}");
                Outcome::Done
            }
            Err(error) => refused(rt, count, error),
        }
    }

    fn perform<C: Wait + Drop, K: Keeper + Drop>(
        &mut self,
        rt: &(impl Wait + Eprint),
        alloc: Global,
        committer: &Committer<J, C, K>,
        place: &mut Place<J>,
        work: Work,
    ) -> Outcome {
        match work {
            Work::Remove(part) => remove(rt, alloc, &self.right, committer, place, part),
            Work::Expire { before, ended } => { expire(rt, alloc, committer, place, before, ended) }
            Work::Join(part) => self.join(rt, alloc, committer, place, part),
        }
    }

    /// Does the next task for the blocks of a snapshot, if there is one. The snapshot is let go
    /// before that.
    fn tend<C: Wait + Drop, K: Keeper + Drop>(
        &mut self,
        rt: &(impl Wait + Clock + Eprint),
        alloc: Global,
        committer: &Committer<J, C, K>,
        place: &mut Place<J>,
        snapshot: Arc<Snapshot>,
    ) -> Outcome {
        let work = self.next_work(alloc, &snapshot, now_in(rt));
        drop(snapshot);
        match work {
            Ok(Some(work)) => self.perform(rt, alloc, committer, place, work),
            Ok(None) => Outcome::GivenUp,
            Err(_) => Outcome::Later,
        }
    }

    /// Looks what is to be done for the blocks of a store, and does the next of it. While they
    /// stand as they did when nothing was left to do, or a join was refused, it rests for some
    /// minutes: so what a client deletes is looked at after these, or after the next cut.
    pub(crate) fn look<C: Wait + Drop, K: Keeper + Drop>(
        &mut self,
        rt: &(impl Wait + Clock + Eprint),
        alloc: Global,
        committer: &Committer<J, C, K>,
        place: &mut Place<J>,
    ) -> Look {
        let start = Instant::now(rt).ok();
        let Ok(snapshot) = place.pass.snapshot() else {
            return Look::Rest(1);
        };
        let standing = standing_of(&snapshot);
        if self.rested == Some(standing) && self.rest > 0 {
            self.rest -= 1;
            return Look::Rest(1);
        }
        let outcome = self.tend(rt, alloc, committer, place, snapshot);
        if outcome == Outcome::Done {
            return Look::Done;
        }
        if outcome == Outcome::GivenUp {
            self.rested = Some(standing);
            self.rest = LONGEST_REST;
        }
        self.begun = 0;
        Look::Rest(pauses_after(rt, start))
    }
}
