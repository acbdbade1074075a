//! The lines of a reply.

ghost use Rattle.std.specs.Prelude.{◌≡◌, ◌++◌, IfOk, option_map, string_bytes, slice_get};
ghost use Rattle.std.specs.List.{flat_map};
ghost use Rattle.auditor.specs.Judgements.{known_of, name_of, IsOfAnswer, IsOfSkip, IsOfPart};
ghost use Rattle.auditor.specs.Judgements.{IsOfRows, IsPartLine, IsLeftLine, ArePartLines};
ghost use Rattle.auditor.specs.Judgements.{AreLeftLines, is_of_block, is_named, answers_of};
ghost use Rattle.auditor.specs.Judgements.{AreLines, lines_text};

use crate::answer::audit;
use crate::flaw::Flaw;
use crate::judgement::{BlockTable, Judgement, Line, Subject};
use crate::merged::audit_merge;
use crate::skip::audit_skip;
use cover::PartAnswer;
use labels::Row;
use matchers::Query;
use postings::PartName;
use reply_reader::{Reply, ToldPart};
use std::alloc::{AllocError, Global};

/// What is known of the block of a number.
fn block_at(blocks: &[BlockTable], number: usize) -> Option<&BlockTable>
    ensures { option_map (λ b. b.now) result ≡ slice_get blocks.now number }
{
    blocks.get(number)
}

/// What is known of a part.
fn known_of(blocks: &[BlockTable], name: PartName) -> Option<&BlockTable>
    ensures { option_map (λ b. b.now) result ≡ known_of blocks.now name }
{
    match name {
        PartName::Block(number) => block_at(blocks, number),
        PartName::Head => None,
    }
}

fn judge_answer(
    alloc: Global,
    block: Option<&BlockTable>,
    query: &Query,
    answer: &PartAnswer,
) -> Result<Judgement, AllocError>
    ensures { let known = option_map (λ b. b.now) block.entry in
        IfOk result (λ j. IsOfAnswer known query.now answer.now j) }
{
    let table = match block {
        Some(BlockTable::Walked(table)) => table,
        Some(BlockTable::Refused(code)) => return Ok(Judgement::Refused(code)),
        None => return Ok(Judgement::Skipped),
    };
    match audit(alloc, table, query, answer) {
        Ok(()) => Ok(Judgement::Valid),
        Err(Flaw::Memory) => Err(AllocError),
        Err(flaw) => Ok(Judgement::Flawed(flaw)),
    }
}

fn judge_skip(
    alloc: Global,
    block: Option<&BlockTable>,
    query: &Query,
) -> Result<Judgement, AllocError>
    ensures { IfOk result (λ j. IsOfSkip (option_map (λ b. b.now) block.entry) query.now j) }
{
    let table = match block {
        Some(BlockTable::Walked(table)) => table,
        Some(BlockTable::Refused(code)) => return Ok(Judgement::Refused(code)),
        None => return Ok(Judgement::Skipped),
    };
    match audit_skip(alloc, table, query) {
        Ok(()) => Ok(Judgement::Skipped),
        Err(Flaw::Memory) => Err(AllocError),
        Err(flaw) => Ok(Judgement::Flawed(flaw)),
    }
}

fn judge_rows(alloc: Global, answers: &[PartAnswer], rows: &[Row]) -> Result<Judgement, AllocError>
    ensures { IfOk result (λ j. IsOfRows answers.now rows.now j) }
{
    match audit_merge(alloc, answers, rows) {
        Ok(()) => Ok(Judgement::Valid),
        Err(Flaw::Memory) => Err(AllocError),
        Err(flaw) => Ok(Judgement::Flawed(flaw)),
    }
}

fn judge_part(
    alloc: Global,
    blocks: &[BlockTable],
    query: &Query,
    part: &ToldPart,
) -> Result<Judgement, AllocError>
    ensures { IfOk result (λ j. IsOfPart blocks.now query.now part.now j) }
{
    match part {
        ToldPart::Searched(answer) => {
            judge_answer(alloc, known_of(blocks, answer.part), query, answer)
        }
        ToldPart::Skipped(number) => judge_skip(alloc, block_at(blocks, *number), query),
    }
}

/// The name of the part that something is said of.
fn name_of(part: &ToldPart) -> PartName
    ensures { result ≡ name_of part.now }
{
    match part {
        ToldPart::Searched(answer) => answer.part,
        ToldPart::Skipped(number) => PartName::Block(*number),
    }
}

fn part_line(
    alloc: Global,
    blocks: &[BlockTable],
    query: &Query,
    part: &ToldPart,
) -> Result<Line, AllocError>
    ensures { IfOk result (λ line. IsPartLine blocks.now query.now part.now line) }
{
    let subject = Subject::Part(name_of(part));
    let judgement = judge_part(alloc, blocks, query, part)?;
    Ok(Line { subject, judgement })
}

/// A line for each part, in order.
fn part_lines(
    alloc: Global,
    blocks: &[BlockTable],
    query: &Query,
    parts: &[ToldPart],
) -> Result<Vec<Line>, AllocError>
    ensures { IfOk result (λ lines. ArePartLines blocks.now query.now parts.now lines.items) }
{
    let mut lines = Vec::with_capacity(alloc, parts.len())?;
    for part in parts {
        lines.push(part_line(alloc, blocks, query, part)?)?;
    }
    Ok(lines)
}

fn is_of_block(part: &ToldPart, number: usize) -> bool
    ensures { result ≡ is_of_block number (name_of part.now) }
{
    match name_of(part) {
        PartName::Block(named) => named == number,
        PartName::Head => false,
    }
}

/// Whether something is said of the block of this number.
fn is_named(parts: &[ToldPart], number: usize) -> bool
    ensures { result ≡ is_named parts.now number }
{
    for part in parts {
        if is_of_block(part, number) {
            return true;
        }
    }
    false
}

fn left_line(
    alloc: Global,
    blocks: &[BlockTable],
    query: &Query,
    number: usize,
) -> Result<Line, AllocError>
    ensures { IfOk result (λ line. IsLeftLine blocks.now query.now number line) }
{
    let subject = Subject::Part(PartName::Block(number));
    let judgement = judge_skip(alloc, block_at(blocks, number), query)?;
    Ok(Line { subject, judgement })
}

/// A line for each block of which nothing is said.
fn left_lines(
    alloc: Global,
    blocks: &[BlockTable],
    query: &Query,
    parts: &[ToldPart],
) -> Result<Vec<Line>, AllocError>
    ensures { IfOk result (λ lines. AreLeftLines blocks.now query.now parts.now lines.items) }
{
    let mut lines = Vec::new(alloc);
    for number in 0..blocks.len() {
        if !is_named(parts, number) {
            lines.push(left_line(alloc, blocks, query, number)?)?;
        }
    }
    Ok(lines)
}

/// The answers of the parts that were searched.
fn answers_of(alloc: Global, parts: Vec<ToldPart>) -> Result<Vec<PartAnswer>, AllocError>
    ensures { IfOk result (λ answers. answers.items ≡ flat_map answers_of parts.items) }
{
    let mut answers = Vec::new(alloc);
    for part in parts {
        if let ToldPart::Searched(answer) = part {
            answers.push(answer)?;
        }
    }
    Ok(answers)
}

/// The lines of a reply to a query, over what is known of the blocks, in their order.
///
/// A line for each part, in the order of the reply: `valid` or the first flaw of its answer, or,
/// where it was skipped, `skipped` or `F9`. Of a block whose files are refused that is said in its
/// place. The head, and blocks past those that are known, are skipped. Then `skipped` or `F9` for
/// each known block of which the reply says nothing, and last `valid` or `F10` for the rows of all.
/// A part that is named twice has two lines. It takes the memory of the audits, and a line for each
/// part and each block.
pub fn judge(
    alloc: Global,
    blocks: &[BlockTable],
    query: &Query,
    reply: Reply,
) -> Result<Vec<Line>, AllocError>
    ensures { IfOk result (λ lines. AreLines blocks.now query.now reply lines.items) }
{
    let Reply { parts, rows } = reply;
    let mut lines = part_lines(alloc, blocks, query, parts.as_slice())?;
    let mut left = left_lines(alloc, blocks, query, parts.as_slice())?;
    lines.append(&mut left)?;
    let answers = answers_of(alloc, parts)?;
    let judgement = judge_rows(alloc, answers.as_slice(), rows.as_slice())?;
    lines.push(Line {
        subject: Subject::Rows,
        judgement,
    })?;
    Ok(lines)
}

/// The lines as a text, each ended by a line feed.
pub fn lines_text(alloc: Global, lines: &[Line]) -> Result<String, AllocError>
    ensures { IfOk result (λ text. string_bytes text ≡ lines_text lines.now) }
{
    let mut text = String::new(alloc);
    for line in lines {
        let line = format!(in alloc; "{line}\n")?;
        text.push_str(line.as_str())?;
    }
    Ok(text)
}
