//! What a walk says of files that a block is opened of.

ghost use Rattle.std.specs.Prelude.{◌≡◌, ℕ, ℤ, List, Ok, IfOk};
ghost use Rattle.labels.specs.Parts.{Part};
ghost use Rattle.block.specs.Grammar.{IsBlock};
ghost use Rattle.block.specs.Opening.{block_of};
ghost use Rattle.block.specs.Outcome.{Gives as Opens};
ghost use Rattle.block_walk.specs.IndexFile.Outcome.{Gives};
ghost use Rattle.block_walk.specs.BlockFiles.Spelled.{IsWalked};

use auditor::{Table, WalkError};
use block::{Block, BlockError, Range};
use std::alloc::{AllocError, Global};

/// The law of the two readers: files that spell a block of a part spell that part without the
/// postings and the range.
pub fn blocks_are_walked()
    ensures { (range : ℤ × ℤ) (index chunks tombstones : List ℕ) (part : Part)
        → IsBlock range index chunks tombstones part → IsWalked index chunks tombstones part }
{}

/// A block that was opened, and what a walk over the same files gave.
#[derive(Drop)]
pub struct Opened {
    pub block: Block,
    pub walked: Result<Table, WalkError>,
}

fn copy_of(alloc: Global, bytes: &[u8]) -> Result<Vec<u8>, AllocError>
    ensures { IfOk result (λ copy. copy.items ≡ bytes.now) }
{
    let mut copy = Vec::new(alloc);
    copy.extend_from_slice(bytes)?;
    Ok(copy)
}

/// Opens the files of a block, and then walks them without the postings: the walk gives the part
/// that the block shows, unless memory runs out. What the opening refuses is refused with its code.
pub fn open_and_walk(
    alloc: Global,
    range: Range,
    index: &[u8],
    chunks: Vec<u8>,
    tombstones: &[u8],
) -> Result<Opened, BlockError>
    ensures opened { Opens (λ o. o.block) result
        (block_of range index.now chunks.items tombstones.now) }
    ensures walked { IfOk result (λ o. Gives (λ t. t) o.walked (Ok o.block.part)) }
{
    let copy = copy_of(alloc, chunks.as_slice())?;
    let block = Block::open(alloc, range, index, chunks, tombstones)?;
    let walked = Table::walk(alloc, index, copy, tombstones);
    Ok(Opened { block, walked })
}
