//! Whether a reply is right of one state of a store.

ghost use Rattle.std.specs.Prelude.{◌≡◌, ◌↔◌, ◌++◌, ◌∷◌, [], map, length, IsTrue, IfOk};
ghost use Rattle.std.specs.List.{AllZip, flat_map};
ghost use Rattle.labels.specs.Rows.{AreRows};
ghost use Rattle.auditor.specs.Judgements.{name_of, is_of_block, answers_of};
ghost use Rattle.auditor.specs.Listing.{last_listed};
ghost use Rattle.whole_audit.specs.PartNames.{part_names};
ghost use Rattle.whole_audit.specs.Grading.{are_blocks_from, is_head, is_end};
ghost use Rattle.whole_audit.specs.Wholes.{IsRightOf, AreRightOf, IsWhole};

use crate::grade::grade_of;
use auditor::{Flaw, Reply, Table, ToldPart, audit_merge};
use cover::{PartAnswer, PartName};
use labels::Row;
use matchers::Query;
use std::alloc::{AllocError, Global};

/// The name of the part that something is said of.
pub(crate) fn name_of(part: &ToldPart) -> PartName
    ensures { result ≡ name_of part.now }
{
    match part {
        ToldPart::Searched(answer) => answer.part,
        ToldPart::Skipped(number) => PartName::Block(*number),
    }
}

pub(crate) fn is_of_block(part: &ToldPart, number: usize) -> bool
    ensures { result ≡ is_of_block number (name_of part.now) }
{
    match name_of(part) {
        PartName::Block(named) => named == number,
        PartName::Head => false,
    }
}

pub(crate) fn is_of_head(part: &ToldPart) -> bool
    ensures { result ≡ is_head (name_of part.now) }
{
    match name_of(part) {
        PartName::Block(_) => false,
        PartName::Head => true,
    }
}

/// Whether these are the blocks from 0, in order.
fn are_blocks(parts: &[ToldPart]) -> bool
    ensures { result ≡ are_blocks_from 0 parts.now }
{
    for (at, part) in parts.iter().enumerate() {
        if !is_of_block(part, at) {
            return false;
        }
    }
    true
}

/// Whether these are so many blocks, in order, and the last is the head.
fn is_end(last: &ToldPart, others: &[ToldPart], blocks: usize) -> bool
    ensures { result ≡ is_end last.now others.now blocks }
{
    others.len() == blocks && is_of_head(last) && are_blocks(others)
}

/// Whether something is said of each of so many blocks, in order, and then of the head, and of
/// nothing else. If not, that is the flaw `F11` of a reply.
pub fn are_named(parts: &[ToldPart], blocks: usize) -> bool
    ensures { IsTrue result ↔ (map name_of parts.now ≡ part_names blocks) }
{
    match parts.split_last() {
        Some((last, others)) => is_end(last, others, blocks),
        None => false,
    }
}

fn is_right(
    alloc: Global,
    table: &Table,
    query: &Query,
    told: &ToldPart,
) -> Result<bool, AllocError>
    ensures { IfOk result (λ b. IsTrue b ↔ IsRightOf query.now table.now told.now) }
{
    let grade = grade_of(alloc, table, query, told)?;
    Ok(grade.is_right())
}

/// Whether what is said of each of these blocks is right. The caller gives as many parts as blocks.
pub fn are_right_blocks(
    alloc: Global,
    blocks: &[Table],
    query: &Query,
    parts: &[ToldPart],
) -> Result<bool, AllocError>
    requires { length parts.now ≡ length blocks.now }
    ensures { IfOk result (λ b. IsTrue b ↔ AllZip (IsRightOf query.now) blocks.now parts.now) }
{
    for (at, table) in blocks.iter().enumerate() {
        if !is_right(alloc, table, query, &parts[at])? {
            return Ok(false);
        }
    }
    Ok(true)
}

/// Whether something is said of each block of a state, in order, and then of its head, and all of
/// it is right. It costs what [`grade_of`](crate::grade_of) costs of each part.
pub fn are_right(
    alloc: Global,
    blocks: &[Table],
    head: &Table,
    query: &Query,
    parts: &[ToldPart],
) -> Result<bool, AllocError>
    ensures { IfOk result (λ b. IsTrue b ↔ AreRightOf query.now blocks.now head.now parts.now) }
{
    if !are_named(parts, blocks.len()) {
        return Ok(false);
    }
    match parts.split_last() {
        Some((last, others)) => {
            if !are_right_blocks(alloc, blocks, query, others)? {
                return Ok(false);
            }
            Ok(is_right(alloc, head, query, last)?)
        }
        None => Ok(false),
    }
}

/// The answers of the parts that were searched.
pub(crate) fn answers_of(alloc: Global, parts: Vec<ToldPart>) -> Result<Vec<PartAnswer>, AllocError>
    ensures { IfOk result (λ answers. answers.items ≡ flat_map answers_of parts.items) }
{
    let mut answers = Vec::new(alloc);
    for part in parts {
        if let ToldPart::Searched(answer) = part {
            answers.push(answer)?;
        }
    }
    Ok(answers)
}

/// Whether rows are those of all that answers list, the value listed last at each point.
fn are_listed(alloc: Global, answers: &[PartAnswer], rows: &[Row]) -> Result<bool, AllocError>
    ensures { IfOk result (λ b. IsTrue b ↔ AreRows rows.now (last_listed answers.now)) }
{
    match audit_merge(alloc, answers, rows) {
        Ok(()) => Ok(true),
        Err(Flaw::WrongMerge) => Ok(false),
        Err(_) => Err(AllocError),
    }
}

/// Whether a reply is right of a state that has these blocks and this head.
///
/// It says something of each block, in order, and of the head, once; each answer is sound, or, of a
/// block, explained by the block's samples; the query selects nothing of a block that is skipped;
/// and the rows are those that the query selects of the content of all parts together. So one and
/// the same state is held against all that the reply says. It costs the audits of all parts and of
/// the rows.
pub fn audit_whole(
    alloc: Global,
    blocks: &[Table],
    head: &Table,
    query: &Query,
    reply: Reply,
) -> Result<bool, AllocError>
    ensures { IfOk result (λ b. IsTrue b ↔ IsWhole query.now blocks.now head.now reply) }
{
    let Reply { parts, rows } = reply;
    if !are_right(alloc, blocks, head, query, parts.as_slice())? {
        return Ok(false);
    }
    let answers = answers_of(alloc, parts)?;
    Ok(are_listed(alloc, answers.as_slice(), rows.as_slice())?)
}
