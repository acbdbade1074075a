//! The tiles of a column.

ghost use Rattle.std.specs.Prelude.{◌≡◌, ◌<◌, ◌≤◌, ◌+◌, ◌-◌, ◌^◌, ◌++◌, IfOk, OnOk};
ghost use Rattle.page_marks.specs.Tiles.{kinds_below, count_below, tile_of, tiles};

use cover::Interval;
use page_claims::{SLOTS, count_in};
use page_layout::top;
use page_text::Mark;
use std::alloc::{AllocError, Global};

/// Where the tiles of a column stand: from where across, and how wide, in hundredths of a percent;
/// where their foot is below, and how high they are together.
#[derive(Clone, Copy, Debug, PartialEq, Eq, Drop)]
pub struct Frame {
    pub x: u64,
    pub width: u64,
    pub foot: u64,
    pub height: u64,
}

/// The layers of the first slots: how many there are, and of how many intervals.
#[derive(Clone, Copy, Debug, PartialEq, Eq, Drop)]
struct Stack {
    layers: u64,
    below: u64,
}

/// How many verdicts occur.
#[tactic(auto, using(crate::proofs::Stacks::kinds))]
fn kinds_in(intervals: &[Interval]) -> u64
    ensures value { result ≡ kinds_below intervals.now 19 }
    ensures few { result ≤ 19 }
{
    let mut kinds = 0;
    for slot in 0..SLOTS {
        if count_in(intervals, slot) > 0 {
            kinds += 1;
        }
    }
    kinds
}

/// Appends the tile of a slot, if it occurs, and gives the layers up to it. `room` is what is left
/// of the height besides a unit for each verdict that occurs.
#[tactic(auto, using(crate::proofs::Stacks::stacks), unfolding(crate::specs::Tiles::tile_of))]
fn append_tile(
    marks: &mut Vec<Mark>,
    intervals: &[Interval],
    frame: Frame,
    room: u64,
    slot: usize,
    stack: Stack,
) -> Result<Stack, AllocError>
    requires room { room ≡ frame.height - kinds_below intervals.now 19 }
    requires small { frame.height < 2 ^ 32 }
    requires few { slot < 19 }
    requires layers { stack.layers ≡ kinds_below intervals.now slot }
    requires below { stack.below ≡ count_below intervals.now slot }
    ensures drawn { OnOk result (marks.new.items ≡ marks.old.items
        ++ tile_of frame.x frame.width frame.foot frame.height intervals.now slot) }
    ensures layers { IfOk result (λ s. s.layers ≡ kinds_below intervals.now (slot + 1)) }
    ensures below { IfOk result (λ s. s.below ≡ count_below intervals.now (slot + 1)) }
{
    let count = count_in(intervals, slot) as u64;
    if count == 0 {
        return Ok(stack);
    }
    let total = intervals.len() as u64;
    let lower = top(stack.layers, stack.below, total, room);
    let (layers, below) = (stack.layers + 1, stack.below + count);
    let upper = top(layers, below, total, room);
    marks.push(Mark::Tile {
        slot,
        x: frame.x,
        y: frame.foot.saturating_sub(upper),
        width: frame.width,
        height: upper.saturating_sub(lower),
    })?;
    Ok(Stack { layers, below })
}

/// Appends the tiles of a column, one on the other: a layer for each verdict that occurs.
#[tactic(auto, using(crate::proofs::Steps::steps, crate::proofs::Stacks::stacks))]
pub(crate) fn append_tiles(
    marks: &mut Vec<Mark>,
    intervals: &[Interval],
    frame: Frame,
) -> Result<(), AllocError>
    requires { frame.height < 2 ^ 32 }
    ensures { OnOk result (marks.new.items ≡ marks.old.items
        ++ tiles frame.x frame.width frame.foot frame.height intervals.now) }
{
    let room = frame.height.saturating_sub(kinds_in(intervals));
    let mut stack = Stack {
        layers: 0,
        below: 0,
    };
    for slot in 0..SLOTS {
        stack = append_tile(marks, intervals, frame, room, slot, stack)?;
    }
    Ok(())
}

/// The tiles of a column of intervals, from the bottom, in the order of their slots. If there
/// are intervals and the height has a unit for each verdict that occurs, they fill it, each with at
/// least one unit; their foot is to be at least the height.
pub fn tiles_of(
    alloc: Global,
    intervals: &[Interval],
    frame: Frame,
) -> Result<Vec<Mark>, AllocError>
    requires { frame.height < 2 ^ 32 }
    ensures { IfOk result (λ marks. marks.items
        ≡ tiles frame.x frame.width frame.foot frame.height intervals.now) }
{
    let mut marks = Vec::new(alloc);
    append_tiles(&mut marks, intervals, frame)?;
    Ok(marks)
}
