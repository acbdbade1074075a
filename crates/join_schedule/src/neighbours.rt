//! Neighbours that may become one block.

ghost use Rattle.std.specs.Prelude.{◌≡◌, ◌≤◌, ◌⊎◌, ◌+◌, ◌*◌, ℕ, List, length, IfSome, IfNone};
ghost use Rattle.std.specs.Prelude.{IsNone};
ghost use Rattle.join_schedule.specs.declared.blocks.Shape.{Shape as ShapeOf};
ghost use Rattle.join_schedule.specs.Blocks.{Fits, samples_in};
ghost use Rattle.join_schedule.specs.Neighbours.{pair_at, NoNeighboursFit, AreLeastNeighbours};
ghost use Rattle.join_schedule.specs.Neighbours.{AllPairsExceed};

use crate::blocks::{Limits, Run, Shape, blocks_of, joined_samples};

// Two neighbours that may become one block: the place of the first, and their samples together.
#[derive(Clone, Copy)]
struct Pair {
    at: usize,
    samples: u64,
}

// The one with fewer samples, if there is one; the first, if both have as many.
fn with_fewer(one: Option<Pair>, other: Option<Pair>) -> Option<Pair>
    ensures none { IsNone result → IsNone one × IsNone other }
    ensures either { IfSome result (λ p. (one ≡ Some p) ⊎ (other ≡ Some p)) }
    ensures fewer { IfSome result (λ p. IfSome one (λ q. p.samples ≤ q.samples)
        × IfSome other (λ q. p.samples ≤ q.samples)) }
{
    let Some(one) = one else {
        return other;
    };
    match other {
        Some(other) if other.samples < one.samples => Some(other),
        _ => Some(one),
    }
}

// The neighbours of which the first is at this place, if they may become one block.
fn fitting_pair(blocks: &[Shape], at: usize, floor: i64, limits: &Limits) -> Option<Pair>
    requires { at + 2 ≤ length blocks.now }
    ensures at { IfSome result (λ p. p.at ≡ at) }
    ensures samples { IfSome result (λ p. p.samples ≡ samples_in (pair_at at blocks.now)) }
    ensures fits { IfSome result (λ _. Fits limits.now floor (pair_at at blocks.now)) }
    ensures none { IfNone result (Fits limits.now floor (pair_at at blocks.now) → ⊥) }
{
    let samples = joined_samples(blocks_of(Run { at, count: 2 }, blocks), floor, limits)?;
    Some(Pair { at, samples })
}

/// Of the neighbours that may become one block, those with the fewest samples. Time in proportion
/// to the blocks.
pub(crate) fn least_neighbours(blocks: &[Shape], floor: i64, limits: &Limits) -> Option<Run>
    ensures some { IfSome result (AreLeastNeighbours limits.now floor blocks.now) }
    ensures none { IfNone result (NoNeighboursFit limits.now floor blocks.now) }
{
    let mut least = None;
    for next in 1..blocks.len() {
        least = with_fewer(least, fitting_pair(blocks, next - 1, floor, limits));
    }
    let pair = least?;
    Some(Run {
        at: pair.at,
        count: 2,
    })
}

/// Where any two neighbours have more samples than a block may have, there are few blocks.
pub fn few_blocks()
    ensures { (most : ℕ) (blocks : List ShapeOf) → AllPairsExceed most blocks
        → length blocks * most ≤ 2 * samples_in blocks + most }
{}
