//! What the bytes of a connection to the port ask.

use guard::{Rules, Token};
use labels::{MIN_TIME, Row};
use remote_requests::{Asked, Came, End, ReadError, Reading, answer};
use std::alloc::{AllocError, Global};
use std::test::Fail;

/// A time of the clock, in milliseconds.
const NOW: i64 = 1_795_875_776_000;

/// A body of `up{job="a"}` with the double 5 at 30 ms, by libsnappy and protobuf of Python.
const UP: &[u8] = b"\x29\xa0\x0a\x27\x0a\x0e\x0a\x08__name__\x12\x02up\x0a\x08\x0a\x03job\x12\x01a\
    \x12\x0b\x09\x00\x00\x00\x00\x00\x00\x14\x40\x10\x1e";

/// A body that Prometheus 2.42 sent for `/api/v1/series` of `up`, from before the times of a store.
const SERIES: &[u8] = &[
    0x43, 0xb8, 0x0a, 0x41, 0x08, 0x90, 0xbe, 0xb3, 0x91, 0xb1, 0x90, 0x8e, 0x80, 0x80, 0x01, 0x10,
    0x80, 0xcc, 0xa6, 0x94, 0xa2, 0x34, 0x1a, 0x0e, 0x12, 0x08, 0x5f, 0x5f, 0x6e, 0x61, 0x6d, 0x65,
    0x5f, 0x5f, 0x1a, 0x02, 0x75, 0x70, 0x22, 0x1d, 0x12, 0x06, 0x73, 0x65, 0x72, 0x69, 0x65, 0x73,
    0x18, 0x19, 0x2c, 0x24, 0x20, 0xd7, 0xc9, 0xcc, 0xee, 0xce, 0xef, 0xf1, 0xff, 0x7f,
];

/// The head of a write as Prometheus sends it, with a field more.
fn write_of(alloc: Global, field: &str, body: &[u8]) -> Result<Vec<u8>, AllocError> {
    let len = body.len();
    let mut text = format!(in alloc;
        "POST /api/v1/write HTTP/1.1\r\nHost: 127.0.0.1:9201\r\n\
         User-Agent: Prometheus/2.42.0+ds\r\nContent-Length: {len}\r\n\
         Content-Encoding: snappy\r\nContent-Type: application/x-protobuf\r\n\
         X-Prometheus-Remote-Write-Version: 0.1.0\r\n{field}\r\n"
    )?
    .into_bytes();
    text.extend_from_slice(body)?;
    Ok(text)
}

fn read_of(alloc: Global, body: &[u8]) -> Result<Vec<u8>, AllocError> {
    let len = body.len();
    let mut text = format!(in alloc;
        "POST /api/v1/read HTTP/1.1\r\nHost: 127.0.0.1:9201\r\n\
         User-Agent: Prometheus/2.42.0+ds\r\nContent-Length: {len}\r\n\
         Accept-Encoding: snappy\r\nContent-Encoding: snappy\r\n\
         Content-Type: application/x-protobuf\r\nX-Prometheus-Remote-Read-Version: 0.1.0\r\n\r\n"
    )?
    .into_bytes();
    text.extend_from_slice(body)?;
    Ok(text)
}

fn asked(alloc: Global, rules: &Rules, bytes: &[u8]) -> Result<Asked, ReadError> {
    let end = End::Whole;
    answer(alloc, rules, NOW, Came { bytes, end })
}

/// The code of the refusal, or the empty text.
fn code_of(alloc: Global, rules: &Rules, bytes: &[u8]) -> &'static str {
    match asked(alloc, rules, bytes) {
        Err(ReadError::Refused(refusal)) => refusal.code(),
        _ => "",
    }
}

fn guarded(alloc: Global) -> Result<Rules, AllocError> {
    Ok(Rules {
        read_only: false,
        token: Token::new(Vec::from_slice(alloc, b"s3cret")?),
    })
}

fn reading() -> Rules {
    Rules {
        read_only: true,
        token: None,
    }
}

fn is_up(row: &Row) -> bool {
    row.labels().len() == 2
        && row.labels().value("__name__") == "up"
        && row.labels().value("job") == "a"
        && row.samples().len() == 1
        && row.samples()[0].t() == 30
        && row.samples()[0].v() == 5
}

#[test]
fn a_write_is_a_row(rt: HostRuntime) -> Result<(), Fail> {
    let bytes = write_of(rt.alloc(), "", UP)?;
    let asked = asked(rt.alloc(), &Rules::none(), bytes.as_slice())?;
    assert!(rt;
        matches!(&asked, Asked::Write(received)
        if received.rows.len() == 1 && is_up(&received.rows[0])
            && received.left.first().is_none() && received.of == 1)
    );
    Ok(())
}

fn is_cut(reading: &Reading) -> bool {
    match &reading.query {
        Some(query) => {
            query.from() == MIN_TIME
                && query.to() == NOW
                && query.matchers().len() == 1
                && query.matchers()[0].text() == "up"
        }
        None => false,
    }
}

#[test]
fn a_range_is_cut_to_the_times_of_a_store(rt: HostRuntime) -> Result<(), Fail> {
    let bytes = read_of(rt.alloc(), SERIES)?;
    let asked = asked(rt.alloc(), &Rules::none(), bytes.as_slice())?;
    assert!(rt;
        matches!(&asked, Asked::Read(readings)
        if readings.len() == 1 && readings[0].names_alone && is_cut(&readings[0]))
    );
    Ok(())
}

#[test]
fn the_token_is_asked_of_writes(rt: HostRuntime) -> Result<(), Fail> {
    let alloc = rt.alloc();
    let rules = guarded(alloc)?;
    let bare = write_of(alloc, "", UP)?;
    let borne = write_of(alloc, "Authorization: Bearer s3cret\r\n", UP)?;
    let read = read_of(alloc, SERIES)?;
    assert!(rt; code_of(alloc, &rules, bare.as_slice()) == "H12");
    assert!(rt; code_of(alloc, &rules, borne.as_slice()) == "");
    assert!(rt; code_of(alloc, &rules, read.as_slice()) == "");
    assert!(rt; code_of(alloc, &reading(), bare.as_slice()) == "H3");
    assert!(rt; code_of(alloc, &reading(), read.as_slice()) == "");
    Ok(())
}
