//! A write, a repeat of it, and reads, over one empty store.

ghost use Rattle.std.specs.Prelude.{◌≡◌, []};
ghost use Rattle.head.specs.Blocks.{opening_of};

use guard::Rules;
use remote_http::answer;
use remote_requests::{Came, End};
use snapshots::{Committer, Naming, Open, OpenNaming, Pass, Seat, Store};
use std::alloc::{AllocError, Global};
use std::marker::Brand;
use std::sync::Wait;
use std::test::Fail;
use std::thread::Threads;

/// A time of the clock, in milliseconds.
const NOW: i64 = 1_795_875_776_000;

/// A body of `up{job="a"}` with the double 5 at 30 ms, by libsnappy and protobuf of Python.
pub const UP: &[u8] =
    b"\x29\xa0\x0a\x27\x0a\x0e\x0a\x08__name__\x12\x02up\x0a\x08\x0a\x03job\x12\x01a\
    \x12\x0b\x09\x00\x00\x00\x00\x00\x00\x14\x40\x10\x1e";

/// The same with the double 7.
const OTHER: &[u8] =
    b"\x29\xa0\x0a\x27\x0a\x0e\x0a\x08__name__\x12\x02up\x0a\x08\x0a\x03job\x12\x01a\
    \x12\x0b\x09\x00\x00\x00\x00\x00\x00\x1c\x40\x10\x1e";

/// A query of `up` from 0 to 100, as one literal of Snappy.
const QUERY: &[u8] = b"\x14\x4c\x0a\x12\x10\x64\x1a\x0e\x12\x08__name__\x1a\x02up";

pub fn request(alloc: Global, path: &str, body: &[u8]) -> Result<Vec<u8>, AllocError> {
    let len = body.len();
    let mut text = format!(in alloc;
        "POST /api/v1/{path} HTTP/1.1\r\nHost: 127.0.0.1:9201\r\n\
         Content-Length: {len}\r\nContent-Encoding: snappy\r\n\
         Content-Type: application/x-protobuf\r\n\r\n"
    )?
    .into_bytes();
    text.extend_from_slice(body)?;
    Ok(text)
}

/// The whole reply to these bytes, or none if there is no reply.
pub fn reply_to<J: OpenNaming, C: Wait + Drop, R: Wait + Threads + Sync>(
    rt: &R,
    alloc: Global,
    bytes: &[u8],
    pass: &mut Pass<J>,
    seat: &mut Seat<J>,
    committer: &Committer<J, C>,
) -> Result<Vec<u8>, AllocError> {
    let rules = Rules::none();
    let end = End::Whole;
    let came = Came { bytes, end };
    let mut text = Vec::new(alloc);
    if let Ok(reply) = answer(rt, alloc, &rules, "1.2.3", NOW, came, pass, seat, committer) {
        text.extend_from_slice(reply.head())?;
        text.extend_from_slice(reply.body())?;
    }
    Ok(text)
}

const DONE: &[u8] = b"HTTP/1.1 200 OK\r\nContent-Type: application/json\r\nContent-Length: 11\r\n\
    Connection: close\r\n\r\n{\"ok\":true}";

const LEFT: &[u8] = b"HTTP/1.1 400 Bad Request\r\nContent-Type: application/json\r\n\
    Content-Length: 52\r\nConnection: close\r\n\r\n\
    {\"cause\":\"E3\",\"left\":{\"E3\":1},\"of\":1,\"refused\":\"G5\"}";

const BUILD: &[u8] = b"HTTP/1.1 200 OK\r\nContent-Type: application/json\r\nContent-Length: 47\r\n\
    Connection: close\r\n\r\n{\"data\":{\"version\":\"1.2.3\"},\"status\":\"success\"}";

/// What the replies were: to a write, to it again, to one with another value, to a read, and to
/// the question of the version.
fn replies<J: Naming, R: Wait + Threads + Sync>(
    rt: &R,
    alloc: Global,
    store: Store,
) -> Result<Vec<Vec<u8>>, AllocError>
    requires book { store.seen.book ≡ J.book }
    requires opening { opening_of [] ≡ J.opening }
{
    let mut all = Vec::new(alloc);
    let opened = store.open::<Open<J>, &R>(rt, alloc, Vec::new(alloc), 1, 1);
    let Ok((committer, mut passes, mut seats)) = opened else {
        return Ok(all);
    };
    let (Some(mut pass), Some(mut seat)) = (passes.pop(), seats.pop()) else {
        return Ok(all);
    };
    for (path, body) in [
        ("write", UP),
        ("write", UP),
        ("write", OTHER),
        ("read", QUERY),
    ] {
        let bytes = request(alloc, path, body)?;
        all.push(reply_to(
            rt,
            alloc,
            bytes.as_slice(),
            &mut pass,
            &mut seat,
            &committer,
        )?)?;
    }
    let asked = b"GET /api/v1/status/buildinfo HTTP/1.1\r\nHost: a\r\n\r\n";
    all.push(reply_to(rt, alloc, asked, &mut pass, &mut seat, &committer)?)?;
    Ok(all)
}

#[test]
fn what_is_written_is_read(rt: HostRuntime) -> Result<(), Fail> {
    let alloc = rt.alloc();
    let all = replies::<Brand, HostRuntime>(&rt, alloc, Store::new())?;
    assert!(rt; all.len() == 5);
    assert!(rt; all[0].as_slice() == DONE);
    assert!(rt; all[1].as_slice() == DONE);
    assert!(rt; all[2].as_slice() == LEFT);
    let read = b"HTTP/1.1 200 OK\r\nContent-Type: application/x-protobuf\r\n\
        Content-Encoding: snappy\r\nContent-Length: ";
    assert!(rt; all[3].as_slice().starts_with(read));
    assert!(rt; all[3].as_slice().ends_with(b"\x00\x14\x40\x10\x1e"));
    assert!(rt; all[4].as_slice() == BUILD);
    Ok(())
}
