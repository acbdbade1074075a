//! One run of batches.

ghost use Rattle.std.specs.Prelude.{◌≡◌, ◌≤◌, ◌↔◌, IsTrue, IfOk, IfSome, IfNone, MatchOption};
ghost use Rattle.labels.specs.Parts.{IsPart};
ghost use Rattle.kept_world.specs.States.{numbered};
ghost use Rattle.kept_world.specs.Births.{came_by};
ghost use Rattle.state_search.specs.Firsts.{GrowsBetween, IsFirst, IsNowhere};

use crate::told::Told;
use kept_world::World;
use std::alloc::{AllocError, Global};

fn is_shown_at<T: Told>(
    alloc: Global,
    world: &World,
    told: &T,
    number: usize,
) -> Result<bool, AllocError>
    ensures shown { IfOk result (λ b. IsTrue b
        ↔ T.shows told.now (numbered 1 (came_by number world.now.head))) }
{
    let head = world.head_at(alloc, number)?;
    Ok(told.is_shown_by(alloc, &head)?)
}

fn is_sound_at<T: Told>(
    alloc: Global,
    world: &World,
    told: &T,
    number: usize,
) -> Result<bool, AllocError>
    ensures sound { IfOk result (λ b. IsTrue b
        ↔ T.sound told.now (numbered 1 (came_by number world.now.head))) }
    ensures part { IfOk result (λ _. IsPart (numbered 1 (came_by number world.now.head))) }
{
    let head = world.head_at(alloc, number)?;
    let _ = head.series();
    Ok(told.is_sound_of(alloc, &head)?)
}

/// The first place of a run at which the head has all that is shown, by halving.
fn first_shown<T: Told>(
    alloc: Global,
    world: &World,
    told: &T,
    from: usize,
    until: usize,
) -> Result<Option<usize>, AllocError>
    requires order { from ≤ until }
    requires grows { GrowsBetween from until world.now.head }
    requires part { IsPart (numbered 1 (came_by until world.now.head)) }
    ensures { IfOk result (λ found. MatchOption found
        (IsNowhere (λ p. T.shows told.now (numbered 1 (came_by p world.now.head))) from until)
        (λ n. IsFirst (λ p. T.shows told.now (numbered 1 (came_by p world.now.head)))
        from until n)) }
{
    if !is_shown_at(alloc, world, told, until)? {
        return Ok(None);
    }
    let mut low = from;
    let mut high = until;
    while low < high {
        let middle = low + (high - low) / 2;
        let shown = is_shown_at(alloc, world, told, middle)?;
        if shown {
            high = middle;
        } else {
            low = middle + 1;
        }
    }
    Ok(Some(low))
}

/// A place of a run, from one number of events to another, at which what is told is sound of the
/// head; `None` if there is no such place.
///
/// The last place is tried first, then the first whose head has all that is shown. It takes as many
/// copies of the head as halving takes steps.
pub fn find_in_run<T: Told>(
    alloc: Global,
    world: &World,
    told: &T,
    from: usize,
    until: usize,
) -> Result<Option<usize>, AllocError>
    requires order { from ≤ until }
    requires grows { GrowsBetween from until world.now.head }
    ensures some { IfOk result (λ found. IfSome found (λ n. (from ≤ n) × (n ≤ until)
        × T.sound told.now (numbered 1 (came_by n world.now.head)))) }
    ensures none { IfOk result (λ found. IfNone found
        (IsNowhere (λ p. T.sound told.now (numbered 1 (came_by p world.now.head))) from until)) }
{
    if is_sound_at(alloc, world, told, until)? {
        return Ok(Some(until));
    }
    match first_shown(alloc, world, told, from, until)? {
        Some(number) => {
            if is_sound_at(alloc, world, told, number)? {
                return Ok(Some(number));
            }
            Ok(None)
        }
        None => Ok(None),
    }
}
