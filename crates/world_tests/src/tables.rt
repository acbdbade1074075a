//! Audits of the parts of a snapshot against tables of their series.

ghost use Rattle.labels.specs.Parts.{IsPart};

use auditor::{Flaw, Table, audit};
use block::Block;
use cover::PartAnswer;
use head::{HeadView, Snapshot};
use matchers::Query;
use postings::{PartName, Source};
use std::alloc::Global;

/// The law of what a source lends lists of: it is a part.
fn lends_a_part<S: Source>(source: &S)
    ensures { IsPart (S.part source.now) }
{}

/// The table of what a head lists.
fn table_of_head(alloc: Global, head: &HeadView) -> Option<Table> {
    lends_a_part(&head);
    Some(Table::of_series(head.list_all(alloc).ok()?))
}

/// The table of what a block lists.
fn table_of_block(alloc: Global, block: &Block) -> Option<Table> {
    // What holds of a block's part is known once its range is asked for.
    let _ = block.range();
    Some(Table::of_series(block.list_all(alloc).ok()?))
}

/// The table of a part.
fn table_of(alloc: Global, snapshot: &Snapshot, part: PartName) -> Option<Table> {
    match part {
        PartName::Head => table_of_head(alloc, snapshot.head()),
        PartName::Block(n) => table_of_block(alloc, snapshot.block(n)?),
    }
}

/// 1 if a row that is left out of an answer is found, and 0 if the answer has no row. It is nothing
/// if the row is not found.
fn count_spoiled(
    alloc: Global,
    snapshot: &Snapshot,
    query: &Query,
    mut answer: PartAnswer,
) -> Option<u64> {
    if answer.rows.pop().is_none() {
        return Some(0);
    }
    let table = table_of(alloc, snapshot, answer.part)?;
    match audit(alloc, &table, query, &answer) {
        Err(Flaw::WrongRows) => Some(1),
        _ => None,
    }
}

fn audit_part(
    alloc: Global,
    snapshot: &Snapshot,
    query: &Query,
    answer: &PartAnswer,
) -> Option<()> {
    let table = table_of(alloc, snapshot, answer.part)?;
    audit(alloc, &table, query, answer).ok()
}

/// Audits each of the answers. Returns nothing if one has a flaw.
pub fn audit_parts(
    alloc: Global,
    snapshot: &Snapshot,
    query: &Query,
    answers: &[PartAnswer],
) -> Option<()> {
    for answer in answers {
        audit_part(alloc, snapshot, query, answer)?;
    }
    Some(())
}

/// Whether a row that is left out is found in each answer that has rows, and at least one answer
/// has rows.
pub fn finds_spoiled(
    alloc: Global,
    snapshot: &Snapshot,
    query: &Query,
    answers: Vec<PartAnswer>,
) -> Option<bool> {
    let mut found = 0u64;
    for answer in answers {
        found = found.saturating_add(count_spoiled(alloc, snapshot, query, answer)?);
    }
    Some(found > 0)
}
