//! The rows of several lists as one list.

ghost use Rattle.std.specs.Prelude.{◌≡◌, [], ◌∷◌, vec_len, IfOk};
ghost use Rattle.series_merge.specs.Merging.{row_lists};
ghost use Rattle.block_outputs.specs.Joined.{lists_in, IsJoined};

use crate::error::OutputError;
use block_writer::PartRows;
use cover::{PartAnswer, PartCover};
use labels::Row;
use postings::PartName;
use series_merge::merge;
use std::alloc::{AllocError, Global};

// Rows as the answer of a part. Its name and its certificate are not looked at.
fn answer_of(alloc: Global, rows: Vec<Row>) -> PartAnswer
    ensures { result.rows ≡ rows }
{
    PartAnswer {
        part: PartName::Head,
        rows,
        cover: PartCover {
            certificate: Vec::new(alloc),
            separators: Vec::new(alloc),
            moves: 0,
        },
    }
}

fn answers_of(alloc: Global, lists: Vec<Vec<Row>>) -> Result<Vec<PartAnswer>, AllocError>
    ensures { IfOk result (λ answers. row_lists answers.items ≡ lists_in lists.items) }
{
    let mut lists = lists;
    let mut answers = Vec::new(alloc);
    while let Some(rows) = lists.pop() {
        answers.push(answer_of(alloc, rows))?;
    }
    answers.reverse();
    Ok(answers)
}

// The rows of a list alone.
fn part_of(rows: Vec<Row>) -> Result<PartRows, OutputError>
    ensures { IfOk result (λ part. IsJoined (rows.items ∷ []) part) }
{
    match PartRows::new(rows) {
        Some(part) => Ok(part),
        None => Err(OutputError::Unordered),
    }
}

// The rows of the only list.
fn only_of(lists: Vec<Vec<Row>>) -> Result<PartRows, OutputError>
    requires { vec_len lists ≡ 1 }
    ensures { IfOk result (λ part. IsJoined (lists_in lists.items) part) }
{
    let mut lists = lists;
    match lists.pop() {
        Some(rows) => part_of(rows),
        None => Err(OutputError::Unordered),
    }
}

// The rows of several lists.
fn merged(alloc: Global, lists: Vec<Vec<Row>>) -> Result<PartRows, OutputError>
    ensures { IfOk result (λ part. IsJoined (lists_in lists.items) part) }
{
    let answers = answers_of(alloc, lists)?;
    let rows = merge(alloc, answers.as_slice())?;
    match PartRows::new(rows) {
        Some(part) => Ok(part),
        None => Err(OutputError::Unordered),
    }
}

/// The rows of lists as one: in label order, one row for each label set, its samples in time order;
/// of several samples at one time the last list's stands. One list alone is not copied;
/// `Unordered` where its rows or their times do not ascend.
pub fn join(alloc: Global, lists: Vec<Vec<Row>>) -> Result<PartRows, OutputError>
    ensures { IfOk result (λ part. IsJoined (lists_in lists.items) part) }
{
    if lists.len() == 1 {
        return only_of(lists);
    }
    merged(alloc, lists)
}
