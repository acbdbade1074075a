//! The store after some events.

ghost use Rattle.std.specs.Prelude.{◌≡◌, ◌+◌, ◌<◌, ◌≤◌, ◌^◌, ℕ, List, IfOk, MatchOption, Some, None, IfSome};
ghost use Rattle.std.specs.Prelude.{length, map, take};
ghost use Rattle.labels.specs.Rows.{Row as RowValue};
ghost use Rattle.matchers.specs.Satisfies.{satisfies_all};
ghost use Rattle.kept_walk.specs.Kept.{event_of, batch, cut};
ghost use Rattle.kept_world.specs.States.{State, stepped, state_after, deleted, numbered, shown};
ghost use Rattle.kept_world.specs.States.{max_series, with_block};
ghost use Rattle.kept_world.specs.Births.{came_by, AreBornBy, batches};
ghost use Rattle.kept_world.specs.Sound.{IsSoundHead, started};
ghost use Rattle.kept_world.specs.Changes.{events_of, IsReplay};

use crate::block::blocks_without;
use crate::choice::Choice;
use crate::head::Head;
use crate::numbering::Leaving;
use block_walk::Table;
use kept_walk::{Change, KeptSeries};
use labels::Row;
use matchers::Matcher;
use std::alloc::{AllocError, Global};
use std::marker::Model;

/// The greatest number of blocks.
const MAX_BLOCKS: usize = 63;

/// A kept store after some events.
#[derive(Drop)]
pub struct World {
    number: usize,
    floor: i64,
    head: Head,
    blocks: Vec<Table>,
    stored: usize,
}

impl Model for World {
    ghost use Rattle.kept_world.specs.States.{State};

    ghost Value = { State };

    ghost view = { λ w. record {
      number = w.number;
      floor = w.floor;
      head = w.head;
      blocks = w.blocks.items;
      stored = w.stored;
    } };
}

/// Where events led to.
#[derive(Drop)]
pub enum Replay {
    /// Each was accepted: the world after them.
    Last(World),
    /// The place of the first that is refused, from 0.
    Refused(usize),
}

/// Blocks, and one more of the rows that leave the head, if there are any; `None` if there are as
/// many as there may be.
fn blocks_after(
    alloc: Global,
    blocks: Vec<Table>,
    leaving: Leaving,
) -> Result<Option<Vec<Table>>, AllocError>
    requires { length leaving ≤ max_series }
    ensures { IfOk result (λ after. MatchOption after
        (with_block leaving blocks.items ≡ None)
        (λ all. with_block leaving blocks.items ≡ Some all.items)) }
{
    let mut blocks = blocks;
    if leaving.is_empty() {
        return Ok(Some(blocks));
    }
    if blocks.len() >= MAX_BLOCKS {
        return Ok(None);
    }
    blocks.push(leaving.into_table(alloc)?)?;
    Ok(Some(blocks))
}

impl World {
    /// What a head record says, with the blocks that it names. `None` if no head is so: the times
    /// of a series do not ascend up to its newest sample, a label set stands twice, or there are
    /// more than 1,048,576 series.
    pub fn start(
        alloc: Global,
        floor: i64,
        head: Vec<KeptSeries>,
        blocks: Vec<Table>,
    ) -> Result<Option<World>, AllocError>
        ensures made { IfOk result (λ world. MatchOption world
            (IsSoundHead head.items → ⊥)
            (λ made. IsSoundHead head.items × (made ≡ started floor head.items blocks.items))) }
        ensures born { IfOk result (λ world. IfSome world (λ made. AreBornBy 0 made.head)) }
    {
        match Head::first(alloc, head)? {
            Some(head) => Ok(Some(World {
                number: 0,
                floor,
                head,
                stored: blocks.len(),
                blocks,
            })),
            None => Ok(None),
        }
    }

    /// How many events led to it.
    pub fn number(&self) -> usize
        ensures { result ≡ self.now.number }
    {
        self.number
    }

    /// The floor, in milliseconds.
    pub fn floor(&self) -> i64
        ensures { result ≡ self.now.floor }
    {
        self.floor
    }

    /// The blocks. The first ones have the references of their files ([`World::stored`]); a block
    /// of a cut is numbered from 1 here, and otherwise in the store.
    pub fn blocks(&self) -> &[Table]
        ensures { result.now ≡ self.now.blocks }
    {
        self.blocks.as_slice()
    }

    /// How many blocks the head record names.
    pub fn stored(&self) -> usize
        ensures { result ≡ self.now.stored }
    {
        self.stored
    }

    fn batch(self, alloc: Global, runs: &[Row]) -> Result<Option<World>, AllocError>
        requires { self.number + 1 < 2 ^ 64 }
        ensures { IfOk result (λ next. next ≡ stepped self (batch runs.now)) }
    {
        let World {
            number,
            floor,
            head,
            blocks,
            stored,
        } = self;
        let number = number + 1;
        match head.add_all(alloc, number, &floor, runs)? {
            Some(head) => Ok(Some(World {
                number,
                floor,
                head,
                blocks,
                stored,
            })),
            None => Ok(None),
        }
    }

    fn delete(self, alloc: Global, choice: &mut Choice<'_>) -> Result<World, AllocError>
        requires { self.number + 1 < 2 ^ 64 }
        ensures { IfOk result (λ next. next ≡ deleted (satisfies_all choice.old.matchers)
            choice.old.from choice.old.to self) }
    {
        let World {
            number,
            floor,
            head,
            blocks,
            stored,
        } = self;
        let head = head.without(choice);
        let blocks = blocks_without(alloc, blocks, choice)?;
        Ok(World {
            number: number + 1,
            floor,
            head,
            blocks,
            stored,
        })
    }

    fn cut(self, alloc: Global, time: &i64) -> Result<Option<World>, AllocError>
        requires { self.number + 1 < 2 ^ 64 }
        ensures { IfOk result (λ next. next ≡ stepped self (cut time.now)) }
    {
        let World {
            number,
            floor,
            head,
            blocks,
            stored,
        } = self;
        if *time <= floor {
            return Ok(None);
        }
        let leaving = head.leaving(alloc, time)?;
        let Some(blocks) = blocks_after(alloc, blocks, leaving)? else {
            return Ok(None);
        };
        let head = head.staying(alloc, time)?;
        Ok(Some(World {
            number: number + 1,
            floor: *time,
            head,
            blocks,
            stored,
        }))
    }

    /// The world after one more event; `None` if the store would not have accepted it.
    pub fn step(self, alloc: Global, change: &Change) -> Result<Option<World>, AllocError>
        requires { self.number + 1 < 2 ^ 64 }
        ensures { IfOk result (λ next. next ≡ stepped self (event_of change.now)) }
    {
        match change {
            Change::Batch(runs) => Ok(self.batch(alloc, runs)?),
            Change::Deletion(matchers, from, to) => {
                let mut choice = Choice::new(alloc, matchers, *from, *to)?;
                Ok(Some(self.delete(alloc, &mut choice)?))
            }
            Change::Cut(time) => Ok(self.cut(alloc, time)?),
        }
    }

    /// The world after events in turn, or the place of the first that is refused.
    pub fn replay(self, alloc: Global, changes: &[Change]) -> Result<Replay, AllocError>
        requires { self.number + length changes.now < 2 ^ 64 }
        ensures { IfOk result (λ replay. IsReplay self (events_of changes.now) replay) }
    {
        let mut world = self;
        for (i, change) in changes.iter().enumerate() {
            match world.step(alloc, change)? {
                Some(next) => world = next,
                None => return Ok(Replay::Refused(i)),
            }
        }
        Ok(Replay::Last(world))
    }

    /// The head after an event of the present run of batches, by its number: a part whose
    /// references are numbered from 1. It copies what came by the event.
    pub fn head_at(&self, alloc: Global, number: usize) -> Result<Table, AllocError>
        ensures came { IfOk result (λ part. part ≡ numbered 1 (came_by number self.now.head)) }
        ensures of_run { IfOk result (λ part. (first : State) (bs : List (List RowValue)) (p : ℕ)
            → AreBornBy first.number first.head → state_after (batches bs) first ≡ Some self.now
            → p ≤ length bs → number ≡ first.number + p
            → (s : State) × (state_after (batches (take p bs)) first ≡ Some s)
            × (part ≡ numbered 1 (shown s.head))) }
    {
        Ok(self.head.came_by(alloc, number)?)
    }
}
