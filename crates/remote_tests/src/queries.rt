//! Bodies of remote read, and replies.

use remote_read::{Matcher, Query, put_response, read_queries};
use remote_write::{Series, read_request};
use snappy::decompress;
use std::test::Fail;

/// A body that Prometheus 2.42 sent for `/api/v1/series` of `up`, without a range.
const SERIES: &[u8] = &[
    0x43, 0xb8, 0x0a, 0x41, 0x08, 0x90, 0xbe, 0xb3, 0x91, 0xb1, 0x90, 0x8e, 0x80, 0x80, 0x01, 0x10,
    0x80, 0xcc, 0xa6, 0x94, 0xa2, 0x34, 0x1a, 0x0e, 0x12, 0x08, 0x5f, 0x5f, 0x6e, 0x61, 0x6d, 0x65,
    0x5f, 0x5f, 0x1a, 0x02, 0x75, 0x70, 0x22, 0x1d, 0x12, 0x06, 0x73, 0x65, 0x72, 0x69, 0x65, 0x73,
    0x18, 0x19, 0x2c, 0x24, 0x20, 0xd7, 0xc9, 0xcc, 0xee, 0xce, 0xef, 0xf1, 0xff, 0x7f,
];

/// A body that it sent for a query with a pattern.
const PATTERN: &[u8] = &[
    0x59, 0xf0, 0x58, 0x0a, 0x57, 0x08, 0xf2, 0x88, 0xb4, 0x8d, 0xa2, 0x34, 0x10, 0xd2, 0xdd, 0xb7,
    0x8d, 0xa2, 0x34, 0x1a, 0x21, 0x08, 0x02, 0x12, 0x08, 0x5f, 0x5f, 0x6e, 0x61, 0x6d, 0x65, 0x5f,
    0x5f, 0x1a, 0x13, 0x70, 0x72, 0x6f, 0x6d, 0x65, 0x74, 0x68, 0x65, 0x75, 0x73, 0x5f, 0x2e, 0x2a,
    0x5f, 0x74, 0x6f, 0x74, 0x61, 0x6c, 0x1a, 0x0a, 0x08, 0x01, 0x12, 0x03, 0x6a, 0x6f, 0x62, 0x1a,
    0x01, 0x78, 0x22, 0x18, 0x12, 0x04, 0x72, 0x61, 0x74, 0x65, 0x18, 0xf2, 0x88, 0xb4, 0x8d, 0xa2,
    0x34, 0x20, 0xd2, 0xdd, 0xb7, 0x8d, 0xa2, 0x34, 0x38, 0xe0, 0xd4, 0x03,
];

fn is_matcher(matcher: &Matcher<'_>, kind: u64, name: &[u8], value: &[u8]) -> bool {
    matcher.kind == kind && matcher.name == name && matcher.value == value
}

fn is_query(query: &Query<'_>, start: i64, end: i64, func: &[u8]) -> bool {
    query.start == start && query.end == end && query.func == func
}

#[test]
fn a_body_that_asks_for_series_is_read(rt: HostRuntime) -> Result<(), Fail> {
    let text = decompress(rt.alloc(), SERIES, 67)?;
    let all = read_queries(rt.alloc(), text.as_slice())?;
    assert!(rt; all.len() == 1);
    let start = -9_223_309_901_257_974_000;
    assert!(rt; is_query(&all[0], start, 1_795_875_776_000, b"series"));
    assert!(rt; all[0].matchers.len() == 1);
    assert!(rt; is_matcher(&all[0].matchers[0], 0, b"__name__", b"up"));
    Ok(())
}

#[test]
fn a_body_with_a_pattern_is_read(rt: HostRuntime) -> Result<(), Fail> {
    let text = decompress(rt.alloc(), PATTERN, 89)?;
    let all = read_queries(rt.alloc(), text.as_slice())?;
    assert!(rt; all.len() == 1);
    assert!(rt; is_query(&all[0], 1_795_861_316_722, 1_795_861_376_722, b"rate"));
    assert!(rt; all[0].matchers.len() == 2);
    assert!(rt; is_matcher(&all[0].matchers[0], 2, b"__name__", b"prometheus_.*_total"));
    assert!(rt; is_matcher(&all[0].matchers[1], 1, b"job", b"x"));
    Ok(())
}

/// Two queries: of the first the hints come twice, and name a function the first time; the second
/// has a start twice. Accepted types of replies stand between, packed and not.
const MIXED: &[u8] = b"\x0a\x0a\x22\x04\x12\x02xy\x22\x02\x08\x01\x10\x00\x12\x01\x00\
    \x0a\x04\x08\x05\x08\x07";

#[test]
fn the_last_of_a_field_counts(rt: HostRuntime) -> Result<(), Fail> {
    let all = read_queries(rt.alloc(), MIXED)?;
    assert!(rt; all.len() == 2);
    assert!(rt; is_query(&all[0], 0, 0, b"xy"));
    assert!(rt; is_query(&all[1], 7, 0, b""));
    Ok(())
}

/// `up{job="a"}` with 5 at 30, as a body of remote write.
const ROWS: &[u8] = b"\x0a\x27\x0a\x0e\x0a\x08__name__\x12\x02up\x0a\x08\x0a\x03job\x12\x01a\
    \x12\x0b\x09\x00\x00\x00\x00\x00\x00\x14\x40\x10\x1e";

/// The reply of two results, of these rows and of none, as Python's protobuf writes it.
const REPLY: &[u8] = b"\x0a\x29\
    \x0a\x27\x0a\x0e\x0a\x08__name__\x12\x02up\x0a\x08\x0a\x03job\x12\x01a\
    \x12\x0b\x09\x00\x00\x00\x00\x00\x00\x14\x40\x10\x1e\x0a\x00";

#[test]
fn a_reply_is_written(rt: HostRuntime) -> Result<(), Fail> {
    let mut results: Vec<Vec<Series<'_>>> = Vec::new(rt.alloc());
    results.push(read_request(rt.alloc(), ROWS)?)?;
    results.push(Vec::new(rt.alloc()))?;
    let mut out = Vec::new(rt.alloc());
    put_response(rt.alloc(), &mut out, results.as_slice())?;
    assert!(rt; out.as_slice() == REPLY);
    Ok(())
}
