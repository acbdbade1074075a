//! A session: replies of a server, over the journal that it kept.

use kept_walk::Kept;
use matchers::{Query, Selector};
use reply_reader::Reply;
use std::alloc::Global;
use store_audit::{StateReport, StoreJudgement, judge_store};
use whole_audit::StateLine;

/// Twelve samples of six series, a cut at 20, one more sample, the same again, and a deletion of
/// what `{job="a"}` has.
#[rattlefmt::skip]
const JOURNAL: &[u8] = &[
    0x46, 0x5A, 0x4C, 0x4A, 0x01, 0x00, 0x00, 0x00, 0xA4, 0x2D, 0xB6, 0x69, 0x7E, 0x01, 0x06, 0x02,
    0x08, 0x5F, 0x5F, 0x6E, 0x61, 0x6D, 0x65, 0x5F, 0x5F, 0x02, 0x75, 0x70, 0x03, 0x6A, 0x6F, 0x62,
    0x01, 0x61, 0x02, 0x14, 0x02, 0x28, 0x02, 0x02, 0x08, 0x5F, 0x5F, 0x6E, 0x61, 0x6D, 0x65, 0x5F,
    0x5F, 0x02, 0x75, 0x70, 0x03, 0x6A, 0x6F, 0x62, 0x01, 0x62, 0x02, 0x14, 0x04, 0x28, 0x04, 0x03,
    0x08, 0x5F, 0x5F, 0x6E, 0x61, 0x6D, 0x65, 0x5F, 0x5F, 0x02, 0x75, 0x70, 0x03, 0x6A, 0x6F, 0x62,
    0x01, 0x62, 0x04, 0x7A, 0x6F, 0x6E, 0x65, 0x01, 0x78, 0x02, 0x14, 0x06, 0x28, 0x06, 0x02, 0x08,
    0x5F, 0x5F, 0x6E, 0x61, 0x6D, 0x65, 0x5F, 0x5F, 0x04, 0x64, 0x6F, 0x77, 0x6E, 0x03, 0x6A, 0x6F,
    0x62, 0x01, 0x61, 0x02, 0x14, 0x08, 0x28, 0x08, 0x02, 0x08, 0x5F, 0x5F, 0x6E, 0x61, 0x6D, 0x65,
    0x5F, 0x5F, 0x04, 0x64, 0x6F, 0x77, 0x6E, 0x03, 0x6A, 0x6F, 0x62, 0x01, 0x62, 0x02, 0x14, 0x0A,
    0x28, 0x0A, 0x03, 0x08, 0x5F, 0x5F, 0x6E, 0x61, 0x6D, 0x65, 0x5F, 0x5F, 0x02, 0x75, 0x70, 0x03,
    0x6A, 0x6F, 0x62, 0x01, 0x61, 0x04, 0x7A, 0x6F, 0x6E, 0x65, 0x01, 0x78, 0x02, 0x14, 0x0C, 0x28,
    0x0C, 0x29, 0x20, 0x85, 0xF6, 0x00, 0x00, 0x00, 0x02, 0xA9, 0x5C, 0x3B, 0x30, 0x03, 0x28, 0x6F,
    0xE2, 0x09, 0x5A, 0x00, 0x00, 0x00, 0x18, 0xD2, 0xE0, 0xD4, 0x67, 0x01, 0x01, 0x02, 0x08, 0x5F,
    0x5F, 0x6E, 0x61, 0x6D, 0x65, 0x5F, 0x5F, 0x02, 0x75, 0x70, 0x03, 0x6A, 0x6F, 0x62, 0x01, 0x61,
    0x01, 0x3C, 0x0A, 0x49, 0xC3, 0x72, 0xB5, 0x00, 0x00, 0x00, 0x18, 0xD2, 0xE0, 0xD4, 0x67, 0x01,
    0x01, 0x02, 0x08, 0x5F, 0x5F, 0x6E, 0x61, 0x6D, 0x65, 0x5F, 0x5F, 0x02, 0x75, 0x70, 0x03, 0x6A,
    0x6F, 0x62, 0x01, 0x61, 0x01, 0x3C, 0x0A, 0x49, 0xC3, 0x72, 0xB5, 0x00, 0x00, 0x00, 0x0C, 0x05,
    0x24, 0x84, 0x17, 0x02, 0x01, 0x00, 0x03, 0x6A, 0x6F, 0x62, 0x01, 0x61, 0x00, 0xD0, 0x0F, 0xB8,
    0x93, 0xED, 0x72,
];

/// Replies of the server, as `case_files` has them (sessions.txt): behind the first batch,
const AT_FIRST: &str =
    r#"{"parts":[{"intervals":[{"from":1,"until":2,"verdict":"match"},{"from":2,"until":4,"verdict":1},{"from":4,"until":6,"verdict":0},{"from":6,"until":4294967296,"verdict":"match"}],"part":"head","rows":[{"labels":{"__name__":"up","job":"a"},"samples":[[10,1],[20,1]]},{"labels":{"__name__":"up","job":"a","zone":"x"},"samples":[[10,6],[20,6]]}],"separators":[1,2,4,6]}],"rows":[{"labels":{"__name__":"up","job":"a"},"samples":[[10,1],[20,1]]},{"labels":{"__name__":"up","job":"a","zone":"x"},"samples":[[10,6],[20,6]]}]}"#;

/// behind the cut,
const BEHIND_A_CUT: &str =
    r#"{"parts":[{"intervals":[{"from":4,"until":6,"verdict":0},{"from":6,"until":7,"verdict":"match"},{"from":7,"until":8,"verdict":"match"},{"from":8,"until":4294967296,"verdict":1}],"part":"block 0","rows":[{"labels":{"__name__":"up","job":"a"},"samples":[[10,1]]},{"labels":{"__name__":"up","job":"a","zone":"x"},"samples":[[10,6]]}],"separators":[4,6,7,8]},{"intervals":[{"from":1,"until":2,"verdict":"match"},{"from":2,"until":4,"verdict":1},{"from":4,"until":6,"verdict":0},{"from":6,"until":4294967296,"verdict":"match"}],"part":"head","rows":[{"labels":{"__name__":"up","job":"a"},"samples":[[20,1]]},{"labels":{"__name__":"up","job":"a","zone":"x"},"samples":[[20,6]]}],"separators":[1,2,4,6]}],"rows":[{"labels":{"__name__":"up","job":"a"},"samples":[[10,1],[20,1]]},{"labels":{"__name__":"up","job":"a","zone":"x"},"samples":[[10,6],[20,6]]}]}"#;

/// from 30 to 40, behind the second batch and its repetition,
const WITHOUT_A_BLOCK: &str =
    r#"{"parts":[{"part":"block 0","skipped":true},{"intervals":[{"from":1,"until":2,"verdict":"match"},{"from":2,"until":4294967296,"verdict":"none"}],"part":"head","rows":[{"labels":{"__name__":"up","job":"a"},"samples":[[30,5]]}],"separators":[1,2]}],"rows":[{"labels":{"__name__":"up","job":"a"},"samples":[[30,5]]}]}"#;

/// and behind the deletion.
const BEHIND_A_DELETION: &str =
    r#"{"parts":[{"intervals":[{"from":4,"until":6,"verdict":0},{"from":6,"until":8,"verdict":"none"},{"from":8,"until":4294967296,"verdict":1}],"part":"block 0","rows":[],"separators":[4,6,8]},{"intervals":[{"from":1,"until":2,"verdict":"none"},{"from":2,"until":4,"verdict":1},{"from":4,"until":6,"verdict":0},{"from":6,"until":4294967296,"verdict":"none"}],"part":"head","rows":[],"separators":[1,2,4,6]}],"rows":[]}"#;

/// The first with another value at 20, in the head and in the rows.
const WITH_ANOTHER_VALUE: &str =
    r#"{"parts":[{"intervals":[{"from":1,"until":2,"verdict":"match"},{"from":2,"until":4,"verdict":1},{"from":4,"until":6,"verdict":0},{"from":6,"until":4294967296,"verdict":"match"}],"part":"head","rows":[{"labels":{"__name__":"up","job":"a"},"samples":[[10,1],[20,7]]},{"labels":{"__name__":"up","job":"a","zone":"x"},"samples":[[10,6],[20,6]]}],"separators":[1,2,4,6]}],"rows":[{"labels":{"__name__":"up","job":"a"},"samples":[[10,1],[20,7]]},{"labels":{"__name__":"up","job":"a","zone":"x"},"samples":[[10,6],[20,6]]}]}"#;

/// The first with rows that lack a sample.
const WITH_A_SAMPLE_LESS: &str =
    r#"{"parts":[{"intervals":[{"from":1,"until":2,"verdict":"match"},{"from":2,"until":4,"verdict":1},{"from":4,"until":6,"verdict":0},{"from":6,"until":4294967296,"verdict":"match"}],"part":"head","rows":[{"labels":{"__name__":"up","job":"a"},"samples":[[10,1],[20,1]]},{"labels":{"__name__":"up","job":"a","zone":"x"},"samples":[[10,6],[20,6]]}],"separators":[1,2,4,6]}],"rows":[{"labels":{"__name__":"up","job":"a"},"samples":[[10,1]]},{"labels":{"__name__":"up","job":"a","zone":"x"},"samples":[[10,6],[20,6]]}]}"#;

/// The block behind the deletion, beside the head before it.
const OF_TWO_STATES: &str =
    r#"{"parts":[{"intervals":[{"from":4,"until":6,"verdict":0},{"from":6,"until":8,"verdict":"none"},{"from":8,"until":4294967296,"verdict":1}],"part":"block 0","rows":[],"separators":[4,6,8]},{"intervals":[{"from":1,"until":2,"verdict":"match"},{"from":2,"until":4,"verdict":1},{"from":4,"until":6,"verdict":0},{"from":6,"until":4294967296,"verdict":"match"}],"part":"head","rows":[{"labels":{"__name__":"up","job":"a"},"samples":[[20,1]]},{"labels":{"__name__":"up","job":"a","zone":"x"},"samples":[[20,6]]}],"separators":[1,2,4,6]}],"rows":[{"labels":{"__name__":"up","job":"a"},"samples":[[10,1],[20,1]]},{"labels":{"__name__":"up","job":"a","zone":"x"},"samples":[[10,6],[20,6]]}]}"#;

/// The query of all replies, over this range.
fn query_of(alloc: Global, from: i64, to: i64) -> Option<Query> {
    Query::new(Selector::parse(alloc, "up{job=\"a\"}").ok()?, from, to).ok()
}

fn are_right(lines: &[StateLine]) -> bool {
    for line in lines {
        if !line.grade.is_right() {
            return false;
        }
    }
    true
}

/// What is said of a reply over the journal, whose store has no blocks but those of its cuts.
fn report_of(alloc: Global, query: &Query, reply: &str, since: usize) -> Option<StateReport> {
    let kept = Kept::read(alloc, JOURNAL).ok()?;
    let reply = Reply::read(alloc, reply.as_bytes()).ok()?;
    match judge_store(alloc, kept, Vec::new(alloc), query, reply, since).ok()? {
        StoreJudgement::Told(report) => Some(report),
        StoreJudgement::BadHead | StoreJudgement::BadEvent(_) => None,
    }
}

/// After how many events the state is of which the reply is right, if it is right of one.
fn found_at(alloc: Global, reply: &str, from: i64, to: i64, since: usize) -> Option<usize> {
    let query = query_of(alloc, from, to)?;
    let report = report_of(alloc, &query, reply, since)?;
    if are_right(report.lines.as_slice()) {
        report.found
    } else {
        None
    }
}

#[test]
fn each_reply_is_right_of_a_state(rt: HostRuntime) {
    assert_eq!(rt; found_at(rt.alloc(), AT_FIRST, 0, 100, 0), Some(1));
    assert_eq!(rt; found_at(rt.alloc(), BEHIND_A_CUT, 0, 100, 0), Some(2));
    assert_eq!(rt; found_at(rt.alloc(), WITHOUT_A_BLOCK, 30, 40, 0), Some(4));
    assert_eq!(rt; found_at(rt.alloc(), BEHIND_A_DELETION, 0, 100, 0), Some(5));
}

#[test]
fn other_replies_are_right_of_none(rt: HostRuntime) {
    assert_eq!(rt; found_at(rt.alloc(), WITH_ANOTHER_VALUE, 0, 100, 0), None);
    assert_eq!(rt; found_at(rt.alloc(), OF_TWO_STATES, 0, 100, 0), None);
    assert_eq!(rt; found_at(rt.alloc(), AT_FIRST, 0, 100, 2), None);
}

/// After how many events the state before `since` is of which the reply is right, if it is right of
/// none from there on.
fn earlier_at(alloc: Global, reply: &str, from: i64, to: i64, since: usize) -> Option<usize> {
    report_of(alloc, &query_of(alloc, from, to)?, reply, since)?.earlier
}

#[test]
fn a_state_before_is_told_of_a_reply_that_is_right_of_it_alone(rt: HostRuntime) {
    assert_eq!(rt; earlier_at(rt.alloc(), AT_FIRST, 0, 100, 2), Some(1));
    assert_eq!(rt; earlier_at(rt.alloc(), BEHIND_A_CUT, 0, 100, 5), Some(2));
    assert_eq!(rt; earlier_at(rt.alloc(), WITHOUT_A_BLOCK, 30, 40, 5), Some(4));
    assert_eq!(rt; earlier_at(rt.alloc(), AT_FIRST, 0, 100, 1), None);
    assert_eq!(rt; earlier_at(rt.alloc(), WITH_ANOTHER_VALUE, 0, 100, 2), None);
    assert_eq!(rt; earlier_at(rt.alloc(), WITH_A_SAMPLE_LESS, 0, 100, 2), None);
    assert_eq!(rt; earlier_at(rt.alloc(), OF_TWO_STATES, 0, 100, 6), None);
}
