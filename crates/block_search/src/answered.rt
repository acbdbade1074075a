//! What is told of each part of a snapshot: what it answers, or that it is skipped.

ghost use Rattle.std.specs.Prelude.{◌≡◌, ◌++◌, IfOk, OnOk, drop, reverse};
ghost use Rattle.matchers.specs.Views.{QueryView};
ghost use Rattle.block_search.specs.Answers.{AreAnswers};
ghost use Rattle.block_search.specs.Answered.{AreAnsweredParts};
ghost use Rattle.block_search.specs.Telling.{is_block, is_next, told_of_block, told_of_head};
ghost use Rattle.block_search.specs.Telling.{left_after_block};

use cover::PartAnswer;
use head::Snapshot;
use postings::PartName;
use std::alloc::{AllocError, Global};

/// What is told of a part of a snapshot.
#[derive(Drop)]
pub enum AnsweredPart {
    /// The answer of a part that was searched.
    Searched(PartAnswer),
    /// The name of a block that the query skips: its range has no time of the query's.
    Skipped(PartName),
}

fn is_block(name: PartName, number: usize) -> bool
    ensures { result ≡ is_block number name }
{
    match name {
        PartName::Block(found) => found == number,
        PartName::Head => false,
    }
}

/// Whether the next answer, which is the last of those that are left, is that of this block.
fn is_next(left: &[PartAnswer], number: usize) -> bool
    ensures { result ≡ is_next number (reverse left.now) }
{
    match left.last() {
        Some(answer) => is_block(answer.part, number),
        None => false,
    }
}

/// Adds the next answer, if there is one.
fn push_next(parts: &mut Vec<AnsweredPart>, left: &mut Vec<PartAnswer>) -> Result<(), AllocError>
    ensures told { OnOk result
        (parts.new.items ≡ parts.old.items ++ told_of_head (reverse left.old.items)) }
    ensures left { OnOk result (reverse left.new.items ≡ drop 1 (reverse left.old.items)) }
{
    if let Some(answer) = left.pop() {
        parts.push(AnsweredPart::Searched(answer))?;
    }
    Ok(())
}

/// Adds what is told of a block: the next answer, if it is this block's.
fn push_block(
    parts: &mut Vec<AnsweredPart>,
    left: &mut Vec<PartAnswer>,
    number: usize,
) -> Result<(), AllocError>
    ensures told { OnOk result
        (parts.new.items ≡ parts.old.items ++ told_of_block number (reverse left.old.items)) }
    ensures left { OnOk result
        (reverse left.new.items ≡ left_after_block number (reverse left.old.items)) }
{
    if is_next(left.as_slice(), number) {
        return push_next(parts, left);
    }
    parts.push(AnsweredPart::Skipped(PartName::Block(number)))?;
    Ok(())
}

/// What is told of each part of a snapshot, in their order, given the answers of [`search`] or
/// [`search_one_by_one`]: a block that has no answer among them was skipped.
///
/// [`search`]: crate::search
/// [`search_one_by_one`]: crate::search_one_by_one
pub fn answered_parts(
    alloc: Global,
    snapshot: &Snapshot,
    answers: Vec<PartAnswer>,
) -> Result<Vec<AnsweredPart>, AllocError>
    ensures { (query : QueryView) → AreAnswers query snapshot.now answers.items
        → IfOk result (λ parts. AreAnsweredParts query snapshot.now parts.items) }
{
    let count = snapshot.blocks().len();
    let mut left = answers;
    left.reverse();
    let mut parts = Vec::new(alloc);
    for number in 0..count {
        push_block(&mut parts, &mut left, number)?;
    }
    push_next(&mut parts, &mut left)?;
    Ok(parts)
}
