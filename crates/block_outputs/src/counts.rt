//! How many samples there are at which times.

ghost use Rattle.std.specs.Prelude.{IfOk};
ghost use Rattle.block_outputs.specs.Tiles.{AreTiles};

use crate::error::OutputError;
use crate::tiles::{Stretch, tile};
use std::alloc::{AllocError, Global};
use time_cuts::{Limits, Slot, cut};

/// In how many stretches times are counted.
const SLOTS: u64 = 1024;

/// The most samples of one series in a block.
const MOST_OF_SERIES: u64 = 1_048_576;

/// Outputs of fewer samples are not split.
const FEW: u64 = 0x100_0000;

/// The greatest length of a file, in bytes.
const MAX_LEN: u64 = 1_073_741_824;

/// How many samples there are at which times: of one input after another, of one of its series
/// after another.
#[derive(Drop)]
pub struct Counts {
    whole: Stretch,
    width: u64,
    slots: Vec<Slot>,
    of_series: Vec<u64>,
    /// Where the counts of the series begin that are not 0, and where they end.
    first: usize,
    behind: usize,
    of_input: Vec<u64>,
    samples: u64,
    series: u64,
    largest: u64,
}

fn room_of(whole: Stretch) -> u64 {
    u64::try_from(i128::from(whole.to) - i128::from(whole.from)).unwrap_or(0)
}

fn zeros(alloc: Global, count: usize) -> Result<Vec<u64>, AllocError> {
    let mut zeros = Vec::new(alloc);
    zeros.resize(count, 0)?;
    Ok(zeros)
}

// The most of each of some places, of one series more, whose counts are 0 again.
fn raise(most: &mut [u64], of_series: &mut [u64], first: usize, behind: usize) {
    for at in first..behind.min(most.len()).min(of_series.len()) {
        most[at] = most[at].max(of_series[at]);
        of_series[at] = 0;
    }
}

// The most of each slot, of one input more, whose counts are 0 again.
fn add_most(slots: &mut [Slot], of_input: &mut [u64]) {
    for at in 0..slots.len().min(of_input.len()) {
        slots[at].most = slots[at].most.saturating_add(of_input[at]);
        of_input[at] = 0;
    }
}

impl Counts {
    /// No samples, and which times they may have: none but these need be told apart.
    pub fn new(alloc: Global, whole: Stretch) -> Result<Counts, AllocError> {
        let room = room_of(whole);
        let width = room / SLOTS + 1;
        let count = (room / width).saturating_add(1) as usize;
        let mut slots = Vec::new(alloc);
        slots.resize(count, Slot::new(0, 0, 0))?;
        Ok(Counts {
            whole,
            width,
            slots,
            of_series: zeros(alloc, count)?,
            first: count,
            behind: 0,
            of_input: zeros(alloc, count)?,
            samples: 0,
            series: 0,
            largest: 0,
        })
    }

    fn place_of(&self, t: i64) -> usize {
        let before = room_of(Stretch {
            from: self.whole.from,
            to: t.max(self.whole.from).min(self.whole.to),
        });
        before.checked_div(self.width).unwrap_or(0) as usize
    }

    /// So many samples more of the series, none before the first time or after the last. They are
    /// read together.
    pub fn add(&mut self, first: i64, last: i64, count: u64) {
        let begin = self.place_of(first);
        let end = self.place_of(last);
        self.samples = self.samples.saturating_add(count);
        self.largest = self.largest.max(count);
        self.first = self.first.min(begin);
        self.behind = self.behind.max(begin.saturating_add(1));
        if let Some(slot) = self.slots.get_mut(begin) {
            slot.begun = slot.begun.saturating_add(count);
        }
        if let Some(sum) = self.of_series.get_mut(begin) {
            *sum = sum.saturating_add(count);
        }
        for at in begin.saturating_add(1)..end.saturating_add(1) {
            if let Some(slot) = self.slots.get_mut(at) {
                slot.carried = slot.carried.saturating_add(count);
            }
        }
    }

    /// The next series follows.
    pub fn end_series(&mut self) {
        self.series = self.series.saturating_add(1);
        raise(
            self.of_input.as_mut_slice(),
            self.of_series.as_mut_slice(),
            self.first,
            self.behind,
        );
        self.first = self.of_series.len();
        self.behind = 0;
    }

    /// The next input follows.
    pub fn end_input(&mut self) {
        add_most(self.slots.as_mut_slice(), self.of_input.as_mut_slice());
    }

    fn limits(&self) -> Limits {
        let series_bytes = self.series.saturating_mul(9).saturating_add(8);
        let by_len = MAX_LEN.saturating_sub(series_bytes) / 1929 * 120;
        Limits {
            samples: (self.samples / 32).max(FEW).min(by_len),
            series: MOST_OF_SERIES.saturating_sub(self.largest),
        }
    }

    /// The last time of the slots before a place.
    fn end_of(&self, place: u64) -> i64 {
        let begin = i128::from(self.whole.from);
        let end = begin.saturating_add(i128::from(place).saturating_mul(i128::from(self.width)));
        i64::try_from(end.saturating_sub(1)).unwrap_or(self.whole.to)
    }

    /// The last time of each tile but the last, in which all later times are.
    fn ends(&self, alloc: Global) -> Result<Vec<i64>, OutputError> {
        let mut ends = Vec::new(alloc);
        let mut place = 0u64;
        let counts = cut(alloc, self.slots.as_slice(), self.limits())?;
        for count in counts.as_slice() {
            place = place.saturating_add(*count as u64);
            ends.push(self.end_of(place))?;
        }
        let _ = ends.pop();
        Ok(ends)
    }

    /// A range of times cut into tiles, such that in none there are more samples than an output may
    /// have, as far as they were counted.
    pub fn cut(&self, alloc: Global, times: Stretch) -> Result<Vec<Stretch>, OutputError>
        ensures { IfOk result (λ tiles. AreTiles times.from times.to tiles.items) }
    {
        let ends = self.ends(alloc)?;
        let tiles = tile(alloc, times, ends.as_slice())?;
        Ok(tiles)
    }
}
