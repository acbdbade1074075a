//! The example of the first page of `audit_laws`.

use audit_laws::{SoundAnswers, search_and_audit};
use head::Snapshot;
use matchers::{Query, Selector};
use std::alloc::Global;

fn query_up(alloc: Global) -> Option<Query> {
    Query::new(Selector::parse(alloc, "up").ok()?, 0, 100).ok()
}

/// What the example of `audit_laws` does.
fn audit_an_empty_snapshot(alloc: Global) -> Option<SoundAnswers> {
    let (query, empty) = query_up(alloc).zip(Snapshot::opening(alloc, Vec::new(alloc)).ok())?;
    search_and_audit(alloc, &empty, &query).ok()
}

#[test]
fn the_example_of_the_first_page_of_audit_laws(rt: HostRuntime) {
    let sound = audit_an_empty_snapshot(rt.alloc()).expect(&rt, "a snapshot is audited");
    assert!(rt; sound.answers.len() == 1 && sound.rows.is_empty());
}
