//! Who tends a store.

use crate::cutter::{Cutter, Schedule};
use crate::joiner::{Joiner, Look};
use crate::place::Place;
use crate::tally::Tally;
use block_upkeep::Upkeep;
use keeper::Keeper;
use snapshots::{Committer, JoiningNaming, OpenNaming};
use std::alloc::Global;
use std::sync::{Arc, Wait};
use std::time::Clock;

/// Who cuts a store, with a pass and a seat of its own. If there is a joiner, its blocks are joined
/// too, and samples leave it.
#[derive(Drop)]
pub(crate) struct Caretaker<J: OpenNaming> {
    place: Place<J>,
    cutter: Cutter,
    joiner: Option<Joiner<J>>,
    /// How many pauses there are before it looks for a cut, and at the blocks.
    until_cut: u64,
    until_join: u64,
}

impl<J: JoiningNaming> Caretaker<J> {
    /// The same one, who tends the blocks too, if it is told how.
    pub(crate) fn joining(self, alloc: Global, upkeep: Option<Upkeep>) -> Caretaker<J> {
        let Caretaker {
            place,
            cutter,
            joiner: _,
            until_cut,
            until_join,
        } = self;
        let joiner = match upkeep {
            Some(upkeep) => Some(Joiner::new(alloc, upkeep, cutter.every())),
            None => None,
        };
        Caretaker {
            place,
            cutter,
            joiner,
            until_cut,
            until_join,
        }
    }
}

impl<J: OpenNaming> Caretaker<J> {
    /// One who cuts by a schedule.
    pub(crate) fn new(place: Place<J>, when: Schedule) -> Caretaker<J> {
        Caretaker {
            place,
            cutter: Cutter::new(when),
            joiner: None,
            until_cut: 0,
            until_join: 0,
        }
    }

    pub(crate) fn tally(&self) -> &Arc<Tally> {
        &self.place.tally
    }

    /// Cuts the store if that is due. Looks for it only after the pauses of the look before.
    fn look_for_cut<C: Wait + Drop, K: Keeper + Drop>(
        &mut self,
        rt: &(impl Wait + Clock + Eprint),
        alloc: Global,
        committer: &Committer<J, C, K>,
    ) {
        if self.until_cut == 0 {
            self.until_cut = self.cutter.look(rt, alloc, committer, &mut self.place);
        }
        self.until_cut = self.until_cut.saturating_sub(1);
    }

    /// Does what is next for the blocks. Returns whether it did anything, so that there may be
    /// more. Looks for it only after the pauses of the look before.
    fn tends_blocks<C: Wait + Drop, K: Keeper + Drop>(
        &mut self,
        rt: &(impl Wait + Clock + Eprint),
        alloc: Global,
        committer: &Committer<J, C, K>,
    ) -> bool {
        self.until_join = self.until_join.saturating_sub(1);
        if self.until_join > 0 {
            return false;
        }
        let Some(joiner) = &mut self.joiner else {
            return false;
        };
        match joiner.look(rt, alloc, committer, &mut self.place) {
            Look::Done => true,
            Look::Rest(pauses) => {
                self.until_join = pauses;
                false
            }
        }
    }

    /// Does what is next for the blocks; once nothing is left, looks whether the store is to be
    /// cut. So cuts do not outrun joins.
    pub(crate) fn look<C: Wait + Drop, K: Keeper + Drop>(
        &mut self,
        rt: &(impl Wait + Clock + Eprint),
        alloc: Global,
        committer: &Committer<J, C, K>,
    ) {
        if !self.tends_blocks(rt, alloc, committer) {
            self.look_for_cut(rt, alloc, committer);
        }
    }
}
