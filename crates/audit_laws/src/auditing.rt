//! A search and its audit in one call.

ghost use Rattle.std.specs.Prelude.{◌≡◌, true, [], IfOk, IfErr, OnOk};
ghost use Rattle.std.specs.List.{All};
ghost use Rattle.labels.specs.Rows.{AreRows};
ghost use Rattle.head.specs.Shown.{part_of};
ghost use Rattle.series_merge.specs.Merging.{merged_content};
ghost use Rattle.block_search.specs.Skipping.{is_skipped};
ghost use Rattle.block_search.specs.Answers.{AreAnswers};
ghost use Rattle.auditor.specs.Auditing.{IsSoundAnswer, IsAuditError, IsHiding, selected_content};
ghost use Rattle.auditor.specs.declared.flaw.Flaw.TheVariants.{Memory};
ghost use Rattle.audit_laws.specs.Told.{IsToldOf};

use crate::tables::{table_of_block, table_of_head};
use auditor::{Flaw, Table, audit, audit_merge, audit_skip};
use block::Block;
use block_search::{OpenGate, is_skipped, search, search_one_by_one};
use cover::PartAnswer;
use head::{HeadView, Snapshot};
use labels::Row;
use matchers::Query;
use postings::PartName;
use series_merge::merge;
use std::alloc::Global;
use std::thread::Threads;

/// The answers of the parts that a query searches, in the order of the parts, and the rows of all
/// of them: an auditor has found no flaw in either, and nothing in the parts that were skipped.
#[derive(Drop)]
pub struct SoundAnswers {
    pub answers: Vec<PartAnswer>,
    pub rows: Vec<Row>,
}

/// Audits what is answered of a head.
fn audit_head(
    alloc: Global,
    head: &HeadView,
    query: &Query,
    answer: &PartAnswer,
) -> Result<(), Flaw>
    ensures sound { OnOk result (IsSoundAnswer (part_of head.now) query.now answer.now) }
    ensures flawed { IfErr result (IsAuditError (part_of head.now) query.now answer.now) }
{
    let table = table_of_head(alloc, head)?;
    audit(alloc, &table, query, answer)
}

/// Audits what is answered of a block.
fn audit_block(alloc: Global, block: &Block, query: &Query, answer: &PartAnswer) -> Result<(), Flaw>
    ensures sound { OnOk result (IsSoundAnswer block.now.part query.now answer.now) }
    ensures flawed { IfErr result (IsAuditError block.now.part query.now answer.now) }
{
    let table = table_of_block(alloc, block)?;
    audit(alloc, &table, query, answer)
}

/// Audits what is answered under the name of a part: it is found sound.
fn audit_named(
    alloc: Global,
    snapshot: &Snapshot,
    query: &Query,
    answer: &PartAnswer,
) -> Result<(), Flaw>
    requires { IsToldOf query.now snapshot.now answer.now }
    ensures { IfErr result (λ e. e ≡ Memory) }
{
    match answer.part {
        PartName::Head => audit_head(alloc, snapshot.head(), query, answer),
        PartName::Block(n) => match snapshot.block(n) {
            Some(block) => audit_block(alloc, block, query, answer),
            None => unreachable!(),
        },
    }
}

fn audit_each(
    alloc: Global,
    snapshot: &Snapshot,
    query: &Query,
    answers: &[PartAnswer],
) -> Result<(), Flaw>
    requires { All (IsToldOf query.now snapshot.now) answers.now }
    ensures { IfErr result (λ e. e ≡ Memory) }
{
    for answer in answers {
        audit_named(alloc, snapshot, query, answer)?;
    }
    Ok(())
}

/// Audits a block of which nothing is answered.
fn audit_block_skip(alloc: Global, block: &Block, query: &Query) -> Result<(), Flaw>
    ensures silent { OnOk result (selected_content block.now.part query.now ≡ []) }
    ensures hidden { IfErr result (IsHiding block.now.part query.now) }
{
    let table = table_of_block(alloc, block)?;
    audit_skip(alloc, &table, query)
}

/// Audits a block that a query skips: nothing is found in it.
fn audit_skipped(alloc: Global, block: &Block, query: &Query) -> Result<(), Flaw>
    requires { is_skipped query.now block.now.range ≡ true }
    ensures { IfErr result (λ e. e ≡ Memory) }
{
    let _ = block.range();
    audit_block_skip(alloc, block, query)
}

fn audit_skips(alloc: Global, blocks: &[Block], query: &Query) -> Result<(), Flaw>
    ensures { IfErr result (λ e. e ≡ Memory) }
{
    for block in blocks {
        if is_skipped(block.range(), query) {
            audit_skipped(alloc, block, query)?;
        }
    }
    Ok(())
}

/// Audits rows that are those of all answers together.
fn audit_rows(
    alloc: Global,
    snapshot: &Snapshot,
    query: &Query,
    answers: &[PartAnswer],
    rows: &[Row],
) -> Result<(), Flaw>
    requires answers { AreAnswers query.now snapshot.now answers.now }
    requires rows { AreRows rows.now (merged_content answers.now) }
    ensures { IfErr result (λ e. e ≡ Memory) }
{
    audit_merge(alloc, answers, rows)
}

/// The rows of all that a search answered, after the audit of each answer, of each block that was
/// skipped, and of the rows.
fn audited_rows(
    alloc: Global,
    snapshot: &Snapshot,
    query: &Query,
    answers: &[PartAnswer],
) -> Result<Vec<Row>, Flaw>
    requires { AreAnswers query.now snapshot.now answers.now }
    ensures rows { IfOk result (λ rows. AreRows rows.items (merged_content answers.now)) }
    ensures flawless { IfErr result (λ e. e ≡ Memory) }
{
    audit_each(alloc, snapshot, query, answers)?;
    audit_skips(alloc, snapshot.blocks(), query)?;
    let rows = merge(alloc, answers)?;
    audit_rows(alloc, snapshot, query, answers, rows.as_slice())?;
    Ok(rows)
}

/// Searches the parts of a snapshot, merges what they answer, and audits all of it: each answer
/// against a table of its part's series, each block that the query skips, and the rows of all.
///
/// No flaw is ever told: it fails for want of memory alone. It costs a search and an audit, and
/// lists all samples of all parts.
pub fn search_and_audit(
    alloc: Global,
    snapshot: &Snapshot,
    query: &Query,
) -> Result<SoundAnswers, Flaw>
    ensures answers { IfOk result (λ a. AreAnswers query.now snapshot.now a.answers.items) }
    ensures rows { IfOk result (λ a. AreRows a.rows.items (merged_content a.answers.items)) }
    ensures flawless { IfErr result (λ e. e ≡ Memory) }
{
    let answers = search_one_by_one(alloc, snapshot, query)?;
    let rows = audited_rows(alloc, snapshot, query, answers.as_slice())?;
    Ok(SoundAnswers { answers, rows })
}

/// The same as [`search_and_audit`], each part searched by a worker of its own.
pub fn search_and_audit_by_workers<R: Threads + Sync>(
    rt: &R,
    alloc: Global,
    snapshot: &Snapshot,
    query: &Query,
) -> Result<SoundAnswers, Flaw>
    ensures answers { IfOk result (λ a. AreAnswers query.now snapshot.now a.answers.items) }
    ensures rows { IfOk result (λ a. AreRows a.rows.items (merged_content a.answers.items)) }
    ensures flawless { IfErr result (λ e. e ≡ Memory) }
{
    let answers = search(rt, alloc, snapshot, query, &OpenGate)?;
    let rows = audited_rows(alloc, snapshot, query, answers.as_slice())?;
    Ok(SoundAnswers { answers, rows })
}
