//! Blocks that hold nothing any more.

ghost use Rattle.std.specs.Prelude.{◌≡◌, ◌↔◌, [], All, IsTrue, map};
ghost use Rattle.block.specs.Blocks.{sample_count};
ghost use Rattle.head.specs.Blocks.{part_in};
ghost use Rattle.head.specs.Joins.{HoldSame};

use block::Block;

/// Whether no sample is left in any of these blocks: none of them is needed then.
#[tactic(auto, using(crate::proofs::NoSamples::nothing_holds))]
pub fn are_emptied(blocks: &[Block]) -> bool
    ensures none { IsTrue result ↔ All (λ b. sample_count b.part ≡ 0) blocks.now }
    ensures same { IsTrue result → HoldSame (map part_in blocks.now) [] }
{
    blocks.iter().all(|block| block.sample_count() == 0)
}
