//! An open store and its workers, each with what is its own.

ghost use Rattle.std.specs.Prelude.{◌≡◌, ◌≤◌, ◌<◌, ◌+◌, Ok, length, map, vec_len, IfOk, IfErr};
ghost use Rattle.head.specs.Blocks.{part_in, opening_of};
ghost use Rattle.head.specs.Heads.{world_of};
ghost use Rattle.head.specs.Worlds.{replayed};
ghost use Rattle.snapshots.specs.Keeping.{MayBeKept};
ghost use Rattle.snapshots.specs.Seats.{IsRoom};
ghost use Rattle.snapshots.specs.declared.error.OpenError.TheVariants.{BadPasses, Limit};

use crate::caretaker::Caretaker;
use crate::cutter::Schedule;
use crate::place::Place;
use crate::tally::Tally;
use block::Block;
use block_upkeep::Upkeep;
use head::Snapshot;
use keeper::{Keeper, NoKeeper};
use snapshots::{Committer, JoiningNaming, Naming, OpenError, OpenNaming, Pass, Seat, Store};
use std::alloc::{AllocError, Global};
use std::marker::Model;
use std::sync::{Arc, Wait};

/// An open store and its workers. Contracts see how many workers of the first port there are.
#[derive(Drop)]
pub struct Workers<J: OpenNaming, C: Wait + Drop, K: Keeper + Drop = NoKeeper> {
    pub(crate) committer: Committer<J, C, K>,
    pub(crate) places: Vec<Place<J>>,
    /// Those that serve the port of Prometheus.
    pub(crate) receivers: Vec<Place<J>>,
    pub(crate) spare: Vec<Pass<J>>,
    pub(crate) caretaker: Option<Caretaker<J>>,
}

impl<J: OpenNaming, C: Wait + Drop, K: Keeper + Drop> Model for Workers<J, C, K> {
    ghost use Rattle.std.specs.Prelude.{ℕ, vec_len};

    ghost Value = { ℕ };

    ghost view = { λ w. vec_len w.places };
}

/// Each seat with a pass. There are as many passes as seats, or more.
fn places_of<J: Naming>(
    alloc: Global,
    passes: &mut Vec<Pass<J>>,
    seats: Vec<Seat<J>>,
) -> Result<Vec<Place<J>>, AllocError>
    ensures { IfOk result (λ places. vec_len places ≡ vec_len seats) }
{
    let mut places = Vec::new(alloc);
    for seat in seats {
        let Some(pass) = passes.pop() else {
            return Err(AllocError);
        };
        let tally = Arc::new(alloc, Tally::new(alloc)?)?;
        places.push(Place {
            pass,
            seat,
            tally,
            holder: None,
        })?;
    }
    Ok(places)
}

impl<J: OpenNaming, C: Wait + Drop> Workers<J, C> {
    /// Opens a store over these blocks with this many passes and workers. Each worker has a pass
    /// and a seat of its own. A further pass is for whoever watches them. It refuses with `O2` if
    /// there are not 1 to 64 of each, then with `O3` if there are more than 63 blocks, then with
    /// `O4` and for memory.
    pub fn open(
        rt: C,
        alloc: Global,
        store: Store,
        blocks: Vec<Block>,
        passes: usize,
        count: usize,
    ) -> Result<Workers<J, C>, OpenError>
        requires book { store.seen.book ≡ J.book }
        requires opening { opening_of (map part_in blocks.items) ≡ J.opening }
        ensures workers { IfOk result (λ w. w ≡ count) }
        ensures room { IfOk result (λ _. IsRoom passes count) }
        ensures refused { IfErr result (λ e. e ≡ BadPasses → ¬ IsRoom passes count) }
        ensures few { IfErr result (λ e. e ≡ Limit → 63 < length blocks.items) }
    {
        let opened = store.open::<J, C>(rt, alloc, blocks, passes, count)?;
        Workers::seated(alloc, opened)
    }
}

impl<J: OpenNaming, C: Wait + Drop, K: Keeper + Drop> Workers<J, C, K> {
    /// Opens a store over what a start found of a store that was kept, with this many passes and
    /// workers, as [`Workers::open`] does. The keeper holds the events from before, which make the
    /// world of the snapshot. It refuses with `O2` if there are not 1 to 64 of each, then with `O4`
    /// and for memory.
    pub fn resume(
        rt: C,
        alloc: Global,
        store: Store,
        found: (Snapshot, K),
        passes: usize,
        count: usize,
    ) -> Result<Workers<J, C, K>, OpenError>
        requires book { store.seen.book ≡ J.book }
        requires opening { found.0 ≡ J.opening }
        requires kept { K.holds found.1 J.before }
        requires world { replayed K.first J.before ≡ Ok (world_of J.opening) }
        requires may { MayBeKept K.may J.asked J.opening J.before }
        ensures workers { IfOk result (λ w. w ≡ count) }
        ensures room { IfOk result (λ _. IsRoom passes count) }
        ensures refused { IfErr result (λ e. e ≡ BadPasses → ¬ IsRoom passes count) }
        ensures few { IfErr result (λ e. ¬ (e ≡ Limit)) }
    {
        let (snapshot, keeper) = found;
        let opened = store.resume::<J, C, K>(rt, alloc, snapshot, keeper, passes, count)?;
        Workers::seated(alloc, opened)
    }

    /// The workers of an open store.
    fn seated(
        alloc: Global,
        opened: (Committer<J, C, K>, Vec<Pass<J>>, Vec<Seat<J>>),
    ) -> Result<Workers<J, C, K>, OpenError>
        ensures workers { IfOk result (λ w. w ≡ vec_len opened.2) }
        ensures refused { IfErr result (λ e. e ≡ OpenError.Memory) }
    {
        let (committer, mut spare, seats) = opened;
        match places_of(alloc, &mut spare, seats) {
            Ok(places) => Ok(Workers {
                committer,
                places,
                receivers: Vec::new(alloc),
                spare,
                caretaker: None,
            }),
            Err(_) => Err(OpenError::Memory),
        }
    }

    /// This many workers fewer. What was their own is for workers of the port of Prometheus.
    pub fn receiving(self, alloc: Global, count: usize) -> Result<Workers<J, C, K>, AllocError>
        requires { count ≤ self }
        ensures { IfOk result (λ w. w + count ≡ self) }
    {
        let Workers {
            committer,
            mut places,
            receivers: _,
            spare,
            caretaker,
        } = self;
        let left = places.len() - count;
        let receivers = places.split_off(left)?;
        Ok(Workers {
            committer,
            places,
            receivers,
            spare,
            caretaker,
        })
    }

    /// One worker fewer. What was its own is for cuts that the store makes by itself. Each is made
    /// as soon as it is due by `cut_schedule`.
    pub fn cutting(self, when: Schedule) -> Workers<J, C, K>
        requires { 0 < self }
        ensures { result + 1 ≡ self }
    {
        let Workers {
            committer,
            mut places,
            receivers,
            spare,
            caretaker: _,
        } = self;
        let Some(place) = places.pop() else {
            unreachable!()
        };
        Workers {
            committer,
            places,
            receivers,
            spare,
            caretaker: Some(Caretaker::new(place, when)),
        }
    }
}

impl<J: JoiningNaming, C: Wait + Drop, K: Keeper + Drop> Workers<J, C, K> {
    /// If the store makes cuts by itself and it is told how, it also joins its blocks and lets old
    /// samples leave.
    pub fn joining(self, alloc: Global, upkeep: Option<Upkeep>) -> Workers<J, C, K>
        ensures { result ≡ self }
    {
        let Workers {
            committer,
            places,
            receivers,
            spare,
            caretaker,
        } = self;
        let caretaker = match caretaker {
            Some(caretaker) => Some(caretaker.joining(alloc, upkeep)),
            None => None,
        };
        Workers {
            committer,
            places,
            receivers,
            spare,
            caretaker,
        }
    }
}
