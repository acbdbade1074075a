//! The answer of a snapshot to a query: what it says of each part, and the rows of all.

ghost use Rattle.std.specs.Prelude.{◌≡◌, ◌≤◌, IfOk, OnOk, drop, length};
ghost use Rattle.labels.specs.Rows.{AreRows};
ghost use Rattle.block_search.specs.Skipping.{LosesNothing};
ghost use Rattle.block_search.specs.Answers.{AreAnswers};
ghost use Rattle.block_search.specs.Answered.{AreAnsweredParts};
ghost use Rattle.answers.specs.Audited.{selected_in};
ghost use Rattle.answers.specs.MergedRows.{rows_told, first_rows, rows_of, HasRowsNext};

use block_search::{
    AnsweredPart, OpenGate, answered_parts, search, search_in_turn, search_one_by_one,
};
use cover::PartAnswer;
use head::Snapshot;
use labels::Row;
use matchers::Query;
use series_merge::{MergedRows, merged_rows};
use std::alloc::{AllocError, Global};
use std::thread::Threads;

/// What an answer says of each part, in the order of the parts, and the rows of all of them.
#[derive(Drop)]
pub struct AuditedAnswer {
    pub(crate) parts: Vec<AnsweredPart>,
    pub(crate) merged: MergedRows,
}

/// The rows that an answer has of a part.
fn rows_told(part: &AnsweredPart) -> &[Row]
    ensures { result.now ≡ rows_told part.now }
{
    match part {
        AnsweredPart::Searched(answer) => answer.rows.as_slice(),
        AnsweredPart::Skipped(_) => &[],
    }
}

/// How many parts come before the first that has rows.
fn count_before_rows(parts: &[AnsweredPart]) -> usize
    ensures within { result ≤ length parts.now }
    ensures next { HasRowsNext (drop result parts.now) (first_rows parts.now) }
{
    for at in 0..parts.len() {
        if !rows_told(&parts[at]).is_empty() {
            return at;
        }
    }
    parts.len()
}

/// The rows of the first part that has any.
fn first_rows(parts: &[AnsweredPart]) -> &[Row]
    ensures { result.now ≡ first_rows parts.now }
{
    let mut rest = parts;
    while let Some((first, later)) = rest.split_first() {
        let rows = rows_told(first);
        if !rows.is_empty() {
            return rows;
        }
        rest = later;
    }
    &[]
}

impl AuditedAnswer {
    /// What the answer says of each part, in the order of the parts.
    pub fn parts(&self) -> &[AnsweredPart]
        ensures { result.now ≡ self.now.parts.items }
    {
        self.parts.as_slice()
    }

    /// The rows of all parts. It takes no time.
    pub fn rows(&self) -> &[Row]
        ensures { result.now ≡ rows_of self.now }
    {
        match &self.merged {
            MergedRows::OfOnePart => first_rows(self.parts.as_slice()),
            MergedRows::Merged(rows) => rows.as_slice(),
        }
    }

    /// How many parts come before the only part that has rows. If none or several have rows, it is
    /// the number of all parts.
    pub(crate) fn count_before_rows(&self) -> usize
        ensures within { result ≤ length self.now.parts.items }
        ensures next { HasRowsNext (drop result self.now.parts.items) (rows_of self.now) }
    {
        match &self.merged {
            MergedRows::OfOnePart => count_before_rows(self.parts.as_slice()),
            MergedRows::Merged(_) => self.parts.len(),
        }
    }
}

/// The audited answer of a snapshot, given the answers of the parts that are searched.
fn audited_answer(
    alloc: Global,
    snapshot: &Snapshot,
    query: &Query,
    answers: Vec<PartAnswer>,
) -> Result<AuditedAnswer, AllocError>
    requires each { AreAnswers query.now snapshot.now answers.items }
    requires whole { LosesNothing query.now snapshot.now }
    ensures each { IfOk result (λ a. AreAnsweredParts query.now snapshot.now a.parts.items) }
    ensures rows { IfOk result (λ a. AreRows (rows_of a) (selected_in query.now snapshot.now)) }
{
    let merged = merged_rows(alloc, answers.as_slice())?;
    let parts = answered_parts(alloc, snapshot, answers)?;
    Ok(AuditedAnswer { parts, merged })
}

/// The audited answer to a query. One part is searched after another.
pub fn answer(
    alloc: Global,
    snapshot: &Snapshot,
    query: &Query,
) -> Result<AuditedAnswer, AllocError>
    ensures each { IfOk result (λ a. AreAnsweredParts query.now snapshot.now a.parts.items) }
    ensures rows { IfOk result (λ a. AreRows (rows_of a) (selected_in query.now snapshot.now)) }
    ensures whole { OnOk result (LosesNothing query.now snapshot.now) }
{
    let answers = search_one_by_one(alloc, snapshot, query)?;
    audited_answer(alloc, snapshot, query, answers)
}

/// The audited answer to a query. One part is searched after another, and several threads make the
/// rows of a part's many matches. The answer is that of [`answer`] but for the moves.
pub fn answer_in_turn<R: Threads + Sync>(
    rt: &R,
    alloc: Global,
    snapshot: &Snapshot,
    query: &Query,
) -> Result<AuditedAnswer, AllocError>
    ensures each { IfOk result (λ a. AreAnsweredParts query.now snapshot.now a.parts.items) }
    ensures rows { IfOk result (λ a. AreRows (rows_of a) (selected_in query.now snapshot.now)) }
    ensures whole { OnOk result (LosesNothing query.now snapshot.now) }
{
    let answers = search_in_turn(rt, alloc, snapshot, query)?;
    audited_answer(alloc, snapshot, query, answers)
}

/// The audited answer to a query. A worker of its own searches each part. The answer is that of
/// [`answer`] but for the moves.
pub fn answer_by_workers<R: Threads + Sync>(
    rt: &R,
    alloc: Global,
    snapshot: &Snapshot,
    query: &Query,
) -> Result<AuditedAnswer, AllocError>
    ensures each { IfOk result (λ a. AreAnsweredParts query.now snapshot.now a.parts.items) }
    ensures rows { IfOk result (λ a. AreRows (rows_of a) (selected_in query.now snapshot.now)) }
    ensures whole { OnOk result (LosesNothing query.now snapshot.now) }
{
    let answers = search(rt, alloc, snapshot, query, &OpenGate)?;
    audited_answer(alloc, snapshot, query, answers)
}
