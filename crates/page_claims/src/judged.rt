//! Which parts a reply names, and which of them nobody judged.

ghost use Rattle.std.specs.Prelude.{◌≡◌, ◌↔◌, ◌≤◌, not, length, map, option_map, slice_get};
ghost use Rattle.std.specs.Prelude.{IfOk, IsTrue};
ghost use Rattle.std.specs.List.{flat_map};
ghost use Rattle.page_claims.specs.Judging.{names_of, same_name, times_named, names_from};
ghost use Rattle.page_claims.specs.Judging.{names_in_order, is_of, is_valid, is_skip};
ghost use Rattle.page_claims.specs.Judging.{is_found_valid, is_told_skipped, is_table};
ghost use Rattle.page_claims.specs.Judging.{is_found_silent};
ghost use Rattle.page_claims.specs.Judging.{unjudged_answer, unjudged_skip, unjudged_of};

use crate::told::{Place, Told};
use auditor::{BlockTable, Judgement, Line, Subject};
use cover::PartAnswer;
use postings::PartName;
use std::alloc::{AllocError, Global};

fn searched_names(alloc: Global, answers: &[PartAnswer]) -> Result<Vec<PartName>, AllocError>
    ensures { IfOk result (λ names. names.items ≡ map (λ a. a.part) answers.now) }
{
    let mut names = Vec::with_capacity(alloc, answers.len())?;
    for answer in answers {
        names.push(answer.part)?;
    }
    Ok(names)
}

/// The parts that a reply names, in its order: those that were searched, and those that were
/// skipped.
pub fn names_of(alloc: Global, told: &Told) -> Result<Vec<PartName>, AllocError>
    ensures { IfOk result (λ names. names.items ≡ names_of told.now) }
{
    let mut names = Vec::new(alloc);
    let mut answers = told.answers.as_slice();
    for place in &told.places {
        match *place {
            Place::Searched => {
                if let Some((answer, later)) = answers.split_first() {
                    names.push(answer.part)?;
                    answers = later;
                }
            }
            Place::Skipped(number) => names.push(PartName::Block(number))?,
        }
    }
    let mut later = searched_names(alloc, answers)?;
    names.append(&mut later)?;
    Ok(names)
}

/// Whether two names are the same.
pub fn same_name(name: PartName, other: PartName) -> bool
    ensures { result ≡ same_name name other }
{
    match (name, other) {
        (PartName::Block(m), PartName::Block(n)) => m == n,
        (PartName::Head, PartName::Head) => true,
        (PartName::Block(_), PartName::Head) | (PartName::Head, PartName::Block(_)) => false,
    }
}

/// How often a part is named.
pub(crate) fn times_named(name: PartName, names: &[PartName]) -> usize
    ensures value { result ≡ times_named name names.now }
    ensures within { result ≤ length names.now }
{
    let mut count = 0;
    for other in names {
        if same_name(name, *other) {
            count += 1;
        }
    }
    count
}

#[tactic(auto, using(crate::proofs::Names::next_named, crate::proofs::Names::last_named, crate::proofs::Names::none_left))]
fn are_in_order(blocks: usize, names: &[PartName]) -> bool
    ensures { result ≡ names_in_order blocks names.now }
{
    let mut rest = names;
    for number in 0..blocks {
        let Some((name, later)) = rest.split_first() else {
            return false;
        };
        if !same_name(*name, PartName::Block(number)) {
            return false;
        }
        rest = later;
    }
    match rest.split_first() {
        Some((name, later)) => same_name(*name, PartName::Head) && later.is_empty(),
        None => false,
    }
}

/// Whether the parts that are named are so many blocks, each once, in order from block 0 on, and
/// then the head.
#[tactic(auto, using(crate::proofs::Names::same_listed))]
pub fn names_in_order(blocks: usize, names: &[PartName]) -> bool
    ensures value { result ≡ names_in_order blocks names.now }
    ensures listed { IsTrue result ↔ (names.now ≡ names_from 0 blocks) }
{
    are_in_order(blocks, names)
}

fn is_of(name: PartName, subject: Subject) -> bool
    ensures { result ≡ is_of name subject }
{
    match subject {
        Subject::Part(other) => same_name(name, other),
        Subject::Rows => false,
    }
}

fn is_valid(judgement: Judgement) -> bool
    ensures { result ≡ is_valid judgement }
{
    match judgement {
        Judgement::Valid => true,
        Judgement::Skipped | Judgement::Flawed(_) | Judgement::Refused(_) => false,
    }
}

fn is_skip(judgement: Judgement) -> bool
    ensures { result ≡ is_skip judgement }
{
    match judgement {
        Judgement::Skipped => true,
        Judgement::Valid | Judgement::Flawed(_) | Judgement::Refused(_) => false,
    }
}

/// Whether a judge found the answer of a part valid, by the lines of an audit.
pub fn is_found_valid(lines: &[Line], name: PartName) -> bool
    ensures { result ≡ is_found_valid lines.now name }
{
    for line in lines {
        if is_of(name, line.subject) && is_valid(line.judgement) {
            return true;
        }
    }
    false
}

/// Whether a line says of a part that it was skipped.
fn is_told_skipped(lines: &[Line], name: PartName) -> bool
    ensures { result ≡ is_told_skipped lines.now name }
{
    for line in lines {
        if is_of(name, line.subject) && is_skip(line.judgement) {
            return true;
        }
    }
    false
}

fn is_table(table: Option<&BlockTable>) -> bool
    ensures { result ≡ is_table (option_map (λ t. t.now) table.entry) }
{
    match table {
        Some(BlockTable::Walked(_)) => true,
        Some(BlockTable::Refused(_)) | None => false,
    }
}

fn is_walked(tables: &[BlockTable], number: usize) -> bool
    ensures { result ≡ is_table (slice_get tables.now number) }
{
    is_table(tables.get(number))
}

/// Whether a judge found that the query selects nothing of the block of a number, which was
/// skipped: its table was walked, and its line names no flaw. The same line stands of a block
/// without a table, which nobody judged.
pub fn is_found_silent(tables: &[BlockTable], lines: &[Line], number: usize) -> bool
    ensures { result ≡ is_found_silent tables.now lines.now number }
{
    is_walked(tables, number) && is_told_skipped(lines, PartName::Block(number))
}

fn is_unjudged(lines: &[Line], answer: &PartAnswer) -> bool
    ensures { result ≡ not (is_found_valid lines.now answer.now.part) }
{
    !is_found_valid(lines, answer.part)
}

/// The parts of answers that no judge found valid.
fn unjudged_answers(
    alloc: Global,
    lines: &[Line],
    answers: &[PartAnswer],
) -> Result<Vec<PartName>, AllocError>
    ensures { IfOk result
        (λ names. names.items ≡ flat_map (unjudged_answer lines.now) answers.now) }
{
    let mut names = Vec::new(alloc);
    for answer in answers {
        if is_unjudged(lines, answer) {
            names.push(answer.part)?;
        }
    }
    Ok(names)
}

/// The blocks that were skipped and of which no judge found that the query selects nothing.
fn unjudged_skips(
    alloc: Global,
    tables: &[BlockTable],
    lines: &[Line],
    places: &[Place],
) -> Result<Vec<PartName>, AllocError>
    ensures { IfOk result
        (λ names. names.items ≡ flat_map (unjudged_skip tables.now lines.now) places.now) }
{
    let mut names = Vec::new(alloc);
    for place in places {
        if let Place::Skipped(number) = *place {
            if !is_found_silent(tables, lines, number) {
                names.push(PartName::Block(number))?;
            }
        }
    }
    Ok(names)
}

/// The parts that a reply names and that nobody judged.
pub(crate) fn unjudged_of(
    alloc: Global,
    tables: &[BlockTable],
    lines: &[Line],
    told: &Told,
) -> Result<Vec<PartName>, AllocError>
    ensures { IfOk result (λ names. names.items ≡ unjudged_of tables.now lines.now told.now) }
{
    let mut names = unjudged_answers(alloc, lines, told.answers.as_slice())?;
    let mut skips = unjudged_skips(alloc, tables, lines, told.places.as_slice())?;
    names.append(&mut skips)?;
    Ok(names)
}
