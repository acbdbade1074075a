//! Which blocks are joined next.

ghost use Rattle.std.specs.Prelude.{◌≤◌, ◌<◌, ◌⊎◌, length, IfSome, IfNone};
ghost use Rattle.join_schedule.specs.Blocks.{IsRun, Fits, run_of};
ghost use Rattle.join_schedule.specs.Windows.{IsFirstWindow, NoWindowFits};
ghost use Rattle.join_schedule.specs.Neighbours.{AreLeastNeighbours, NoNeighboursFit};

use crate::blocks::{Limits, Run, Shape};
use crate::neighbours::least_neighbours;
use crate::windows::first_window;

/// The blocks that are joined next, in a store with this floor: those of the first of the shortest
/// windows that fit, or, if none does and there are more blocks than are many, the two neighbours
/// with the fewest samples. None if there are none.
///
/// The blocks are in the order of the store. Time in proportion to them, for each of the spans of
/// windows.
pub fn plan(blocks: &[Shape], floor: i64, limits: &Limits) -> Option<Run>
    requires { 0 < limits.now.cut }
    ensures run { IfSome result (IsRun blocks.now) }
    ensures fits { IfSome result (λ run. Fits limits.now floor (run_of run blocks.now)) }
    ensures chosen { IfSome result (λ run. IsFirstWindow limits.now floor blocks.now run
        ⊎ ((limits.now.many < length blocks.now) × NoWindowFits limits.now floor blocks.now
        × AreLeastNeighbours limits.now floor blocks.now run)) }
    ensures none { IfNone result (NoWindowFits limits.now floor blocks.now
        × (limits.now.many < length blocks.now → NoNeighboursFit limits.now floor blocks.now)) }
{
    match first_window(blocks, floor, limits) {
        Some(run) => Some(run),
        None if blocks.len() > limits.many => least_neighbours(blocks, floor, limits),
        None => None,
    }
}
