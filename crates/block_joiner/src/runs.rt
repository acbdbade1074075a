//! Blocks that are joined, one run after another.

ghost use Rattle.std.specs.Prelude.{◌≡◌, ◌≤◌, ◌∷◌, ◌++◌, [], List, IfOk, IfSome, length, map};
ghost use Rattle.std.specs.Prelude.{OnOk};
ghost use Rattle.block.specs.Ranges.{IsRange};
ghost use Rattle.block_outputs.specs.Joined.{IsJoined, lists_in};
ghost use Rattle.block_writer.specs.SpellRows.{AreWithin};
ghost use Rattle.head.specs.Blocks.{part_in};
ghost use Rattle.head.specs.Heads.{BlockPart};
ghost use Rattle.labels.specs.Parts.{rows_in};
ghost use Rattle.head.specs.Joins.{HoldSame, parts_in};

use block::{Block, Range};
use block_outputs::{OutputError, are_within, join};
use block_writer::{BlockBytes, PartRows, WriteError, write};
use labels::{MAX_TIME, MIN_TIME, Row, SeriesRef};
use std::alloc::{AllocError, Global};

/// The range from the first time of blocks to the last end, if there is a block.
fn range_of(blocks: &[Block]) -> Option<Range>
    ensures { IfSome result IsRange }
{
    let mut min = MAX_TIME;
    let mut max = MIN_TIME;
    for block in blocks {
        min = min.min(block.range().min());
        max = max.max(block.range().max());
    }
    Range::new(min, max)
}

/// The rows of listed series.
fn keep_rows(alloc: Global, listed: Vec<(SeriesRef, Row)>) -> Result<Vec<Row>, AllocError>
    ensures { IfOk result (λ rows. rows.items ≡ rows_in listed.items) }
{
    let mut rows = Vec::new(alloc);
    for (_, row) in listed {
        rows.push(row)?;
    }
    Ok(rows)
}

/// The rows of a block.
fn rows_of(alloc: Global, block: &Block) -> Result<Vec<Row>, AllocError>
    ensures { IfOk result (λ rows. rows.items ≡ rows_in block.now.part) }
{
    let listed = block.list_all(alloc)?;
    keep_rows(alloc, listed)
}

/// The rows of each of these blocks.
fn lists_of(alloc: Global, blocks: &[Block]) -> Result<Vec<Vec<Row>>, AllocError>
    ensures { IfOk result (λ lists.
        lists_in lists.items ≡ map rows_in (parts_in (map part_in blocks.now))) }
{
    let mut lists = Vec::new(alloc);
    for block in blocks {
        lists.push(rows_of(alloc, block)?)?;
    }
    Ok(lists)
}

/// The block of a range that is written for these rows, and read again; none if a file of them is
/// too long.
fn block_of(alloc: Global, range: Range, rows: &PartRows) -> Result<Option<Block>, AllocError>
    requires ranged { IsRange range }
    requires within { AreWithin range rows.now }
    ensures rows { IfOk result (λ made. IfSome made (λ b. rows_in b.part ≡ rows.now)) }
{
    let files = match write(alloc, rows) {
        Ok(files) => files,
        Err(WriteError::Limit) => return Ok(None),
        Err(WriteError::Memory) => return Err(AllocError),
    };
    let BlockBytes {
        index,
        chunks,
        tombstones,
    } = files;
    match Block::open(alloc, range, &index, chunks, &tombstones) {
        Ok(block) => Ok(Some(block)),
        Err(_) => Err(AllocError),
    }
}

/// The rows of several blocks as those of one.
fn joined_rows(alloc: Global, blocks: &[Block]) -> Result<Option<PartRows>, AllocError>
    ensures { IfOk result (λ made. IfSome made (λ rows.
        IsJoined (map rows_in (parts_in (map part_in blocks.now))) rows)) }
{
    match join(alloc, lists_of(alloc, blocks)?) {
        Ok(rows) => Ok(Some(rows)),
        Err(OutputError::Memory) => Err(AllocError),
        Err(_) => Ok(None),
    }
}

/// One block that holds what these blocks hold; none if one may not have so much.
#[tactic(auto, using(crate::proofs::Held::one_holds))]
fn one_block(alloc: Global, blocks: &[Block]) -> Result<Option<Block>, AllocError>
    ensures { IfOk result (λ made. IfSome made (λ b.
        HoldSame (map part_in blocks.now) (part_in b ∷ []))) }
{
    let Some(range) = range_of(blocks) else {
        return Ok(None);
    };
    let Some(rows) = joined_rows(alloc, blocks)? else {
        return Ok(None);
    };
    if !are_within(range, rows.rows()) {
        return Ok(None);
    }
    block_of(alloc, range, &rows)
}

/// Adds blocks to others. They share their files.
pub fn share_into(
    alloc: Global,
    blocks: &[Block],
    joined: &mut Vec<Block>,
) -> Result<(), AllocError>
    ensures { OnOk result (map part_in joined.new.items
        ≡ map part_in joined.old.items ++ map part_in blocks.now) }
{
    for block in blocks {
        joined.push(block.share(alloc)?)?;
    }
    Ok(())
}

/// Joins blocks, and adds what they make to others.
#[cycle(halves)]
fn join_into(alloc: Global, blocks: &[Block], joined: &mut Vec<Block>) -> Result<(), AllocError>
    ensures { OnOk result ((made : List BlockPart)
        × (map part_in joined.new.items ≡ map part_in joined.old.items ++ made)
        × HoldSame (map part_in blocks.now) made × (length made ≤ length blocks.now)) }
{
    if blocks.len() < 2 {
        return share_into(alloc, blocks, joined);
    }
    if let Some(block) = one_block(alloc, blocks)? {
        joined.push(block)?;
        return Ok(());
    }
    let (front, back) = blocks.split_at(blocks.len() / 2);
    join_into(alloc, front, joined)?;
    join_into(alloc, back, joined)
}

/// Blocks that hold what these hold, and are no more of them: one, if it may have so much, or else
/// what each half is joined to.
///
/// It takes memory for the rows of all of them.
pub fn join_blocks(alloc: Global, blocks: &[Block]) -> Result<Vec<Block>, AllocError>
    // Laid over any content they make the same.
    ensures same { IfOk result (λ made.
        HoldSame (map part_in blocks.now) (map part_in made.items)) }
    ensures few { IfOk result (λ made. length made.items ≤ length blocks.now) }
{
    let mut joined = Vec::new(alloc);
    join_into(alloc, blocks, &mut joined)?;
    Ok(joined)
}
