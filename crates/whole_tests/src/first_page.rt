//! The example of the first page of `whole_audit`.

use auditor::{Reply, Table};
use matchers::{Query, Selector};
use std::alloc::Global;
use whole_audit::{StateLine, state_lines};

fn query_up(alloc: Global) -> Option<Query> {
    Query::new(Selector::parse(alloc, "up").ok()?, 0, 100).ok()
}

/// The lines of a reply that says nothing, of a state without series.
fn lines_of_nothing(alloc: Global) -> Option<Vec<StateLine>> {
    let query = query_up(alloc)?;
    let reply = Reply::read(alloc, br#"{"parts":[],"rows":[]}"#).ok()?;
    let head = Table::of_series(Vec::new(alloc));
    state_lines(alloc, &[], &head, &query, reply).ok()
}

fn first_two(alloc: Global, lines: &[StateLine]) -> Option<String> {
    match lines {
        [first, second, _] => format!(in alloc; "{first}, {second}").ok(),
        _ => None,
    }
}

#[test]
fn the_example_of_the_first_page_of_whole_audit(rt: HostRuntime) {
    let lines = lines_of_nothing(rt.alloc()).expect(&rt, "a reply has lines");
    let told = first_two(rt.alloc(), lines.as_slice()).expect(&rt, "there are three lines");
    assert!(rt; told.as_str() == "head: skipped, parts: F11");
}
