//! How long samples are kept, and what blocks are joined by.

ghost use Rattle.std.specs.Prelude.{◌≡◌, ◌<◌, ◌/◌, Some, None, IfSome, IfNone};
ghost use Rattle.join_schedule.specs.Blocks.{IsRun, Fits, run_of};
ghost use Rattle.join_schedule.specs.Windows.{NoWindowFits};
ghost use Rattle.block_upkeep.specs.Limits.{limits_of};

use join_schedule::{Limits, Run, Shape, plan};

/// What is done with the blocks of a store: they are joined, as `join_schedule` says, and samples
/// leave that are too old or too many.
#[derive(Clone, Copy, Debug, PartialEq, Eq, Drop)]
pub struct Upkeep {
    /// How many milliseconds a sample is kept at least. None is for ever.
    pub keep: Option<u64>,
    /// How many bytes the blocks may have before the oldest samples leave. None is any number.
    pub keep_bytes: Option<u64>,
    /// The most samples of a joined block: a join has some 70 bytes for each in memory.
    pub join_samples: u64,
}

/// The most series of the blocks that are joined.
const MOST_SERIES: u64 = 1_048_576;

/// The most bytes of the files of the blocks that are joined.
const MOST_BYTES: u64 = 1_073_741_824;

/// With more blocks than this neighbours are joined, until there are few.
const MANY_BLOCKS: usize = 56;

const FEW_BLOCKS: usize = 44;

/// The longest window in which blocks are joined: an eighth of how long samples are kept.
fn longest_window(keep: Option<u64>) -> Option<u64>
    ensures none { IfNone keep (result ≡ None) }
    ensures some { IfSome keep (λ n. result ≡ Some (n / 8)) }
{
    match keep {
        Some(keep) => Some(keep / 8),
        None => None,
    }
}

impl Upkeep {
    /// What blocks are joined by, in a store that is cut at multiples of so many milliseconds, in a
    /// round of joins that began with so many blocks.
    fn limits(&self, cut: u64, begun: usize) -> Limits
        ensures { result ≡ limits_of self.now cut begun }
    {
        let limits = Limits {
            samples: self.join_samples,
            series: MOST_SERIES,
            bytes: MOST_BYTES,
            cut,
            longest_window: longest_window(self.keep),
            many: MANY_BLOCKS,
            few: FEW_BLOCKS,
        };
        limits.of_round(begun)
    }

    /// Which blocks are joined next, in a store with this floor that is cut at multiples of so many
    /// milliseconds, in a round of joins that began with so many blocks. None if there are none.
    pub fn next_join(&self, blocks: &[Shape], floor: i64, cut: u64, begun: usize) -> Option<Run>
        ensures run { IfSome result (IsRun blocks.now) }
        ensures fits { IfSome result (λ run.
            Fits (limits_of self.now cut begun) floor (run_of run blocks.now)) }
        ensures none { IfNone result (0 < cut
            → NoWindowFits (limits_of self.now cut begun) floor blocks.now) }
    {
        if cut == 0 {
            return None;
        }
        plan(blocks, floor, &self.limits(cut, begun))
    }
}
