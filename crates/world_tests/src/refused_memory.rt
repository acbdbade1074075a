//! Calls that are refused memory, made again. `tests/allocations.sh` runs these tests with each of
//! their allocations refused in turn.

use crate::answered::{FOUND, SOUND, answer, query, rows_at};
use crate::worked_block::{CHUNKS, INDEX, TOMBSTONES, table_of_files, walk_outcome};
use auditor::{Flaw, Table, audit, audit_merge, audit_skip};
use cover::PartAnswer;
use labels::Row;
use matchers::Query;
use std::alloc::Global;

type Audited = Result<(), Flaw>;

fn skip_again(alloc: Global, table: &Table, query: &Query) -> Audited {
    match audit_skip(alloc, table, query) {
        Err(Flaw::Memory) => audit_skip(alloc, table, query),
        told => told,
    }
}

fn merge_again(alloc: Global, answers: &[PartAnswer], rows: &[Row]) -> Audited {
    match audit_merge(alloc, answers, rows) {
        Err(Flaw::Memory) => audit_merge(alloc, answers, rows),
        told => told,
    }
}

/// Whether these rows are those of the answer, and not those of none.
fn are_merged(alloc: Global, answer: PartAnswer, rows: &[Row]) -> bool {
    merge_again(alloc, &[answer], rows).is_ok()
        && merge_again(alloc, &[], rows) == Err(Flaw::WrongMerge)
}

fn audit_again(alloc: Global, table: &Table, query: &Query, answer: &PartAnswer) -> Audited {
    match audit(alloc, table, query, answer) {
        Err(Flaw::Memory) => audit(alloc, table, query, answer),
        told => told,
    }
}

/// Whether a sound answer is valid and its part is hidden, in one range, and not in another.
fn are_judged(alloc: Global, table: &Table, answer: &PartAnswer) -> Option<bool> {
    let (early, late) = query(alloc, 0).zip(query(alloc, 20))?;
    Some(
        audit_again(alloc, table, &early, answer).is_ok()
            && skip_again(alloc, table, &early) == Err(Flaw::Hidden)
            && skip_again(alloc, table, &late).is_ok(),
    )
}

/// Whether all is reported as it should be, and the rows of an answer are those of all answers, and
/// not those of none. It is `None` if the part, the answer or a query are refused memory.
fn is_told(alloc: Global) -> Option<bool> {
    let table = table_of_files(alloc, INDEX, CHUNKS, TOMBSTONES).ok()?;
    let (answer, rows) = answer(alloc, &table, &SOUND).zip(rows_at(alloc, &table, FOUND))?;
    let judged = are_judged(alloc, &table, &answer)?;
    Some(judged && are_merged(alloc, answer, rows.as_slice()))
}

#[test]
fn audits_refused_memory_answer_when_made_again(rt: HostRuntime) {
    let told = match is_told(rt.alloc()) {
        None => is_told(rt.alloc()),
        told => told,
    };
    assert!(rt; told == Some(true));
}

#[test]
fn a_walk_refused_memory_answers_when_made_again(rt: HostRuntime) {
    let told = match walk_outcome(rt.alloc(), INDEX, CHUNKS, TOMBSTONES) {
        "memory" => walk_outcome(rt.alloc(), INDEX, CHUNKS, TOMBSTONES),
        told => told,
    };
    assert!(rt; told == "part");
}
