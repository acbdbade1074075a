//! The lines of a reply that is held against one state.

ghost use Rattle.std.specs.Prelude.{◌≡◌, ◌↔◌, true, List, length, IfOk, option_map};
ghost use Rattle.auditor.specs.Judgements.{name_of, is_of_block, is_named, unnamed};
ghost use Rattle.std.specs.List.{AllZip};
ghost use Rattle.labels.specs.Parts.{Part};
ghost use Rattle.matchers.specs.Views.{QueryView};
ghost use Rattle.reply_reader.specs.declared.reply.Reply.{Reply as ToldReply};
ghost use Rattle.whole_audit.specs.declared.lines.StateLine.{StateLine as LineValue};
ghost use Rattle.whole_audit.specs.Wholes.{IsWhole};
ghost use Rattle.whole_audit.specs.StateLines.{part_of, has_head, IsGradeIn, IsStatePartLine};
ghost use Rattle.whole_audit.specs.StateLines.{IsStateLeftLine, IsLeftBlockLine, AreLeftHeadLines};
ghost use Rattle.whole_audit.specs.StateLines.{AreNamesLines, IsGradeOfRows, AreStateLines};
ghost use Rattle.whole_audit.specs.StateLines.{are_right_lines};

use crate::grade::{Grade, grade_of, grade_of_skip};
use crate::wholes::{answers_of, are_named, is_of_block, is_of_head, name_of};
use auditor::{Flaw, Reply, Table, ToldPart, audit_merge};
use cover::{PartAnswer, PartName};
use labels::Row;
use matchers::Query;
use std::alloc::{AllocError, Global};
use std::fmt;

/// What a line speaks of.
#[derive(Clone, Copy, Debug, PartialEq, Eq, Drop)]
pub enum StateSubject {
    /// A part.
    Part(PartName),
    /// The names of all parts.
    Parts,
    /// The rows of all parts.
    Rows,
}

/// As `block 0`, `head`, `parts` or `rows`.
impl fmt::Display for StateSubject {
    ghost use Rattle.std.specs.Prelude.{Some};
    ghost use Rattle.whole_audit.specs.StateLines.{state_subject_text};

    ghost output = { λ subject. Some (state_subject_text subject) };

    fn fmt<W: fmt::Write>(&self, f: &mut fmt::Formatter<W>) -> fmt::Result {
        match self {
            StateSubject::Part(PartName::Block(number)) => write!(f, "block {number}"),
            StateSubject::Part(PartName::Head) => write!(f, "head"),
            StateSubject::Parts => write!(f, "parts"),
            StateSubject::Rows => write!(f, "rows"),
        }
    }
}

/// What is said, and of what.
#[derive(Clone, Copy, Debug, PartialEq, Eq, Drop)]
pub struct StateLine {
    pub subject: StateSubject,
    pub grade: Grade,
}

/// As `block 1: valid, numbered otherwise`.
impl fmt::Display for StateLine {
    ghost use Rattle.std.specs.Prelude.{Some};
    ghost use Rattle.whole_audit.specs.StateLines.{state_line_text};

    ghost output = { λ line. Some (state_line_text line) };

    fn fmt<W: fmt::Write>(&self, f: &mut fmt::Formatter<W>) -> fmt::Result {
        write!(f, "{}: {}", self.subject, self.grade)
    }
}

/// The part of this name, if the state has it.
fn part_of<'a>(blocks: &'a [Table], head: &'a Table, name: PartName) -> Option<&'a Table>
    ensures { option_map (λ t. t.now) result ≡ part_of blocks.now head.now name }
{
    match name {
        PartName::Block(number) => blocks.get(number),
        PartName::Head => Some(head),
    }
}

fn grade_in(
    alloc: Global,
    table: Option<&Table>,
    query: &Query,
    told: &ToldPart,
) -> Result<Grade, AllocError>
    ensures { let part = option_map (λ t. t.now) table.entry in
        IfOk result (λ g. IsGradeIn part query.now told.now g) }
{
    match table {
        Some(table) => Ok(grade_of(alloc, table, query, told)?),
        None => Ok(Grade::Skipped),
    }
}

fn part_line(
    alloc: Global,
    blocks: &[Table],
    head: &Table,
    query: &Query,
    told: &ToldPart,
) -> Result<StateLine, AllocError>
    ensures { IfOk result (λ line. IsStatePartLine blocks.now head.now query.now told.now line) }
{
    let name = name_of(told);
    let grade = grade_in(alloc, part_of(blocks, head, name), query, told)?;
    Ok(StateLine {
        subject: StateSubject::Part(name),
        grade,
    })
}

/// A line for each part, in order.
fn part_lines(
    alloc: Global,
    blocks: &[Table],
    head: &Table,
    query: &Query,
    parts: &[ToldPart],
) -> Result<Vec<StateLine>, AllocError>
    ensures { IfOk result (λ lines.
        AllZip (IsStatePartLine blocks.now head.now query.now) parts.now lines.items) }
{
    let mut lines = Vec::with_capacity(alloc, parts.len())?;
    for part in parts {
        lines.push(part_line(alloc, blocks, head, query, part)?)?;
    }
    Ok(lines)
}

fn left_line(
    alloc: Global,
    table: &Table,
    query: &Query,
    name: PartName,
) -> Result<StateLine, AllocError>
    ensures { IfOk result (λ line. IsStateLeftLine table.now query.now name line) }
{
    let grade = grade_of_skip(alloc, table, query)?;
    Ok(StateLine {
        subject: StateSubject::Part(name),
        grade,
    })
}

/// Whether something is said of the block of this number.
fn is_named(parts: &[ToldPart], number: usize) -> bool
    ensures { result ≡ is_named parts.now number }
{
    for part in parts {
        if is_of_block(part, number) {
            return true;
        }
    }
    false
}

/// A line for each block of which nothing is said.
fn left_block_lines(
    alloc: Global,
    blocks: &[Table],
    query: &Query,
    parts: &[ToldPart],
) -> Result<Vec<StateLine>, AllocError>
    ensures { IfOk result (λ lines.
        AllZip (IsLeftBlockLine blocks.now query.now) (unnamed parts.now (length blocks.now))
        lines.items) }
{
    let mut lines = Vec::new(alloc);
    for (number, table) in blocks.iter().enumerate() {
        if !is_named(parts, number) {
            lines.push(left_line(alloc, table, query, PartName::Block(number))?)?;
        }
    }
    Ok(lines)
}

/// Whether something is said of the head.
fn has_head(parts: &[ToldPart]) -> bool
    ensures { result ≡ has_head parts.now }
{
    parts.iter().any(is_of_head)
}

/// The line of the head, if nothing is said of it.
fn left_head_lines(
    alloc: Global,
    head: &Table,
    query: &Query,
    parts: &[ToldPart],
) -> Result<Vec<StateLine>, AllocError>
    ensures { IfOk result (λ lines.
        AreLeftHeadLines (has_head parts.now) head.now query.now lines.items) }
{
    let mut lines = Vec::new(alloc);
    if !has_head(parts) {
        lines.push(left_line(alloc, head, query, PartName::Head)?)?;
    }
    Ok(lines)
}

/// The line of the names, if they are not those of the parts of a state with so many blocks.
fn names_lines(
    alloc: Global,
    parts: &[ToldPart],
    blocks: usize,
) -> Result<Vec<StateLine>, AllocError>
    ensures { IfOk result (λ lines. AreNamesLines parts.now blocks lines.items) }
{
    let mut lines = Vec::new(alloc);
    if !are_named(parts, blocks) {
        lines.push(StateLine {
            subject: StateSubject::Parts,
            grade: Grade::Misnamed,
        })?;
    }
    Ok(lines)
}

fn grade_of_rows(alloc: Global, answers: &[PartAnswer], rows: &[Row]) -> Result<Grade, AllocError>
    ensures { IfOk result (λ g. IsGradeOfRows answers.now rows.now g) }
{
    match audit_merge(alloc, answers, rows) {
        Ok(()) => Ok(Grade::Valid),
        Err(Flaw::Memory) => Err(AllocError),
        Err(flaw) => Ok(Grade::Flawed(flaw)),
    }
}

/// The lines of a reply to a query, held against a state that has these blocks and this head.
///
/// A line for each part, in the order of the reply, as [`grade_of`](crate::grade_of) has it; a part
/// that the state does not have is `skipped`. Then `skipped` or `F9` for each block of which the
/// reply says nothing, and for the head, if it says nothing of that. Then `parts: F11`, unless it
/// says something of each part of the state, once, in order; and last `valid` or `F10` for the rows
/// of all.
pub fn state_lines(
    alloc: Global,
    blocks: &[Table],
    head: &Table,
    query: &Query,
    reply: Reply,
) -> Result<Vec<StateLine>, AllocError>
    ensures { IfOk result (λ lines.
        AreStateLines blocks.now head.now query.now reply lines.items) }
{
    let Reply { parts, rows } = reply;
    let mut lines = part_lines(alloc, blocks, head, query, parts.as_slice())?;
    let mut left = left_block_lines(alloc, blocks, query, parts.as_slice())?;
    lines.append(&mut left)?;
    let mut of_head = left_head_lines(alloc, head, query, parts.as_slice())?;
    lines.append(&mut of_head)?;
    let mut of_names = names_lines(alloc, parts.as_slice(), blocks.len())?;
    lines.append(&mut of_names)?;
    let answers = answers_of(alloc, parts)?;
    let grade = grade_of_rows(alloc, answers.as_slice(), rows.as_slice())?;
    lines.push(StateLine {
        subject: StateSubject::Rows,
        grade,
    })?;
    Ok(lines)
}

/// The law of lines: they all say that nothing is wrong exactly where the reply is right of the
/// state.
pub fn lines_laws()
    ensures { (blocks : List Part) (head : Part) (query : QueryView) (reply : ToldReply)
        (lines : List LineValue) → AreStateLines blocks head query reply lines
        → (are_right_lines lines ≡ true) ↔ IsWhole query blocks head reply }
{}
