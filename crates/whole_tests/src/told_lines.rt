//! What is said of the replies.

use crate::replies::{
    A_BLOCK_TOO_MANY, A_ROW_LEFT_OUT, NUMBERED_OTHERWISE, ONE_MATCH_FOR_TWO, SOUND, THE_HEAD_TWICE,
};
use crate::worked_block::worked_block;
use auditor::{Reply, Table, ToldPart};
use matchers::{Query, Selector};
use std::alloc::Global;
use whole_audit::{StateLine, audit_whole, has_all_shown, state_lines};

fn query_up(alloc: Global) -> Option<Query> {
    Query::new(Selector::parse(alloc, "up{job=\"a\"}").ok()?, 0, 100).ok()
}

fn text_of(alloc: Global, lines: &[StateLine]) -> Option<String> {
    let mut text = String::new(alloc);
    for line in lines {
        let line = format!(in alloc; "{line}\n").ok()?;
        text.push_str(line.as_str()).ok()?;
    }
    Some(text)
}

fn lines_of_reply(alloc: Global, blocks: &[Table], query: &Query, reply: Reply) -> Option<String> {
    let head = Table::of_series(Vec::new(alloc));
    let lines = state_lines(alloc, blocks, &head, query, reply).ok()?;
    text_of(alloc, lines.as_slice())
}

/// The lines of a reply.
fn lines_of(alloc: Global, reply: &[u8]) -> Option<String> {
    let (query, block) = query_up(alloc).zip(worked_block(alloc))?;
    let reply = Reply::read(alloc, reply).ok()?;
    lines_of_reply(alloc, &[block], &query, reply)
}

/// Whether a reply is right of the state.
fn is_whole(alloc: Global, reply: &[u8]) -> Option<bool> {
    let (query, block) = query_up(alloc).zip(worked_block(alloc))?;
    let reply = Reply::read(alloc, reply).ok()?;
    let head = Table::of_series(Vec::new(alloc));
    audit_whole(alloc, &[block], &head, &query, reply).ok()
}

fn has_first_part(alloc: Global, table: &Table, query: &Query, reply: &Reply) -> Option<bool> {
    match reply.parts.first() {
        Some(ToldPart::Searched(answer)) => has_all_shown(alloc, table, query, answer).ok(),
        _ => None,
    }
}

/// Whether the block has all that the first answer of a reply shows.
fn has_all_of(alloc: Global, reply: &[u8]) -> Option<bool> {
    let (query, block) = query_up(alloc).zip(worked_block(alloc))?;
    let reply = Reply::read(alloc, reply).ok()?;
    has_first_part(alloc, &block, &query, &reply)
}

fn has_lines(alloc: Global, reply: &[u8], lines: &str) -> bool {
    match lines_of(alloc, reply) {
        Some(text) => text.as_str() == lines,
        None => false,
    }
}

#[test]
fn a_right_reply_is_whole(rt: HostRuntime) {
    let alloc = rt.alloc();
    assert!(rt; has_lines(alloc, SOUND, "block 0: valid\nhead: valid\nrows: valid\n"));
    assert!(rt; is_whole(alloc, SOUND) == Some(true));
    let otherwise = "block 0: valid, numbered otherwise\nhead: valid\nrows: valid\n";
    assert!(rt; has_lines(alloc, NUMBERED_OTHERWISE, otherwise));
    assert!(rt; is_whole(alloc, NUMBERED_OTHERWISE) == Some(true));
}

#[test]
fn lies_are_told(rt: HostRuntime) {
    let alloc = rt.alloc();
    assert!(rt;
        has_lines(
            alloc,
            ONE_MATCH_FOR_TWO,
            "block 0: F2\nhead: valid\nrows: valid\n"
        )
    );
    assert!(rt;
        has_lines(
            alloc,
            A_ROW_LEFT_OUT,
            "block 0: F6\nhead: valid\nrows: valid\n"
        )
    );
    let twice = "head: valid\nhead: valid\nblock 0: F9\nparts: F11\nrows: valid\n";
    assert!(rt; has_lines(alloc, THE_HEAD_TWICE, twice));
    let more = "block 1: skipped\nblock 0: F9\nhead: skipped\nparts: F11\nrows: valid\n";
    assert!(rt; has_lines(alloc, A_BLOCK_TOO_MANY, more));
    for lie in [
        ONE_MATCH_FOR_TWO,
        A_ROW_LEFT_OUT,
        THE_HEAD_TWICE,
        A_BLOCK_TOO_MANY,
    ] {
        assert!(rt; is_whole(alloc, lie) == Some(false));
    }
}

#[test]
fn a_part_has_what_it_shows(rt: HostRuntime) {
    let alloc = rt.alloc();
    assert!(rt; has_all_of(alloc, SOUND) == Some(true));
    assert!(rt; has_all_of(alloc, A_ROW_LEFT_OUT) == Some(true));
    assert!(rt; has_all_of(alloc, NUMBERED_OTHERWISE) == Some(false));
}
