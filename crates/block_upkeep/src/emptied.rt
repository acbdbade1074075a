//! Blocks in which no sample is left.

ghost use Rattle.std.specs.Prelude.{◌≡◌, ◌≤◌, ◌<◌, IfSome, IfNone, All, length, take};
ghost use Rattle.block_upkeep.specs.Emptied.{AreEmptied};

use join_schedule::Shape;

/// Blocks side by side.
#[derive(Clone, Copy, Debug, PartialEq, Eq)]
pub struct Stretch {
    /// The place of the first, from 0 on.
    pub at: usize,
    /// How many there are, 1 or more.
    pub count: usize,
}

/// How many blocks from the front on have no sample left.
fn count_emptied(blocks: &[Shape]) -> usize
    ensures within { result ≤ length blocks.now }
    ensures emptied { All (λ b. b.samples ≡ 0) (take result blocks.now) }
{
    for (at, block) in blocks.iter().enumerate() {
        if block.samples > 0 {
            return at;
        }
    }
    blocks.len()
}

/// The first blocks side by side in which no sample is left. None if each block has one. Time in
/// proportion to the blocks.
pub(crate) fn emptied_stretch(blocks: &[Shape]) -> Option<Stretch>
    ensures some { IfSome result (AreEmptied blocks.now) }
    ensures none { IfNone result (All (λ b. 0 < b.samples) blocks.now) }
{
    for (at, block) in blocks.iter().enumerate() {
        if block.samples == 0 {
            let behind = blocks.split_at(at + 1).1;
            return Some(Stretch {
                at,
                count: count_emptied(behind) + 1,
            });
        }
    }
    None
}
