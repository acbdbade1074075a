//! Closed ranges of times, one after another.

ghost use Rattle.std.specs.Prelude.{◌≡◌, ℤ, ◌≤ℤ◌, IfOk};
ghost use Rattle.block_outputs.specs.Tiles.{AreTiles, AreTilesUpTo};

use std::alloc::{AllocError, Global};

/// A closed range of times, in milliseconds.
#[derive(Clone, Copy, Debug, PartialEq, Eq, Drop)]
pub struct Stretch {
    /// The first time.
    pub from: i64,
    /// The last time.
    pub to: i64,
}

impl Stretch {
    ghost use Rattle.std.specs.Prelude.{◌≡◌};
    ghost use Rattle.labels.specs.Contents.{in_range};

    /// Whether a time lies in it.
    pub fn has(self, t: i64) -> bool
        ensures { result ≡ in_range self.from self.to t }
    {
        self.from <= t && t <= self.to
    }
}

// A tile more, up to an end, if this is before the last time, and what is left after the tiles.
fn push_tile(tiles: &mut Vec<Stretch>, left: Stretch, end: i64) -> Result<Stretch, AllocError>
    requires { left.from ≤ℤ left.to }
    ensures order { IfOk result (λ next. next.from ≤ℤ next.to) }
    ensures last { IfOk result (λ next. next.to ≡ left.to) }
    ensures tiles { IfOk result (λ next. (begin : ℤ)
        → AreTilesUpTo begin left.from left.to tiles.old.items
        → AreTilesUpTo begin next.from left.to tiles.new.items) }
{
    if end < left.from || left.to <= end {
        return Ok(left);
    }
    tiles.push(Stretch {
        from: left.from,
        to: end,
    })?;
    Ok(Stretch {
        from: end + 1,
        to: left.to,
    })
}

/// A range of times in tiles: each begins where the one before it ended, and they end at these
/// times, as far as these ascend and lie in the range, and at the end of the range. None for a
/// range that ends before it begins.
pub fn tile(alloc: Global, whole: Stretch, ends: &[i64]) -> Result<Vec<Stretch>, AllocError>
    ensures { IfOk result (λ tiles. AreTiles whole.from whole.to tiles.items) }
{
    let mut tiles = Vec::new(alloc);
    if whole.to < whole.from {
        return Ok(tiles);
    }
    let mut left = whole;
    for end in ends {
        left = push_tile(&mut tiles, left, *end)?;
    }
    tiles.push(left)?;
    Ok(tiles)
}
