//! Listings over one store. The expected bodies are worked out by hand from Prometheus's document
//! of its HTTP API.

ghost use Rattle.std.specs.Prelude.{◌≡◌, []};
ghost use Rattle.head.specs.Blocks.{opening_of};

use crate::port::{UP, reply_to, request};
use snapshots::{Naming, Open, Store};
use std::alloc::{AllocError, Global};
use std::marker::Brand;
use std::sync::Wait;
use std::test::Fail;
use std::thread::Threads;

/// A body of `down{job="b"}` with the double 1 at 5,000 ms and `up{job="b"}` with 2 at 70,000 ms.
const OTHERS: &[u8] = b"\x57\xf0\x56\
    \x0a\x2a\x0a\x10\x0a\x08__name__\x12\x04down\x0a\x08\x0a\x03job\x12\x01b\
    \x12\x0c\x09\x00\x00\x00\x00\x00\x00\xf0\x3f\x10\x88\x27\
    \x0a\x29\x0a\x0e\x0a\x08__name__\x12\x02up\x0a\x08\x0a\x03job\x12\x01b\
    \x12\x0d\x09\x00\x00\x00\x00\x00\x00\x00\x40\x10\xf0\xa2\x04";

/// What comes behind the path of a request without a body.
const GET: &str = " HTTP/1.1\r\nHost: a\r\n\r\n";

/// Targets, and the body of the reply to each.
const ASKED: [(&str, &str); 11] = [
    (
        "labels",
        "{\"status\":\"success\",\"data\":[\"__name__\",\"job\"]}",
    ),
    (
        "label/job/values?match[]=up",
        "{\"status\":\"success\",\"data\":[\"a\",\"b\"]}",
    ),
    (
        "label/__name__/values?start=5&end=60",
        "{\"status\":\"success\",\"data\":[\"down\"]}",
    ),
    (
        "label/__name__/values?start=0.03&end=4.9994",
        "{\"status\":\"success\",\"data\":[\"up\"]}",
    ),
    (
        "series?match%5B%5D=down&match[]=up%7Bjob%3D%22a%22%7D",
        "{\"status\":\"success\",\"data\":[{\"__name__\":\"down\",\"job\":\"b\"},\
         {\"__name__\":\"up\",\"job\":\"a\"}]}",
    ),
    (
        "series?match[]=up&limit=1",
        "{\"status\":\"success\",\"data\":[{\"__name__\":\"up\",\"job\":\"a\"}],\
         \"warnings\":[\"results truncated due to limit\"]}",
    ),
    (
        "label/job/values?start=71",
        "{\"status\":\"success\",\"data\":[]}",
    ),
    (
        "series",
        "{\"error\":\"G13: series are asked for by at least one match[]\",\
         \"errorType\":\"bad_data\",\"refused\":\"G13\",\"status\":\"error\"}",
    ),
    (
        "labels?start=now",
        "{\"error\":\"G14: start and end are seconds, perhaps with a point, and limit is a whole \
         number\",\"errorType\":\"bad_data\",\"refused\":\"G14\",\"status\":\"error\"}",
    ),
    (
        "label/9/values",
        "{\"error\":\"G12: the name in the path is no label name\",\
         \"errorType\":\"bad_data\",\"refused\":\"G12\",\"status\":\"error\"}",
    ),
    (
        "series?match[]=up%7B",
        "{\"cause\":\"M4\",\"error\":\"G15: a match[] is refused for its cause\",\
         \"errorType\":\"bad_data\",\"refused\":\"G15\",\"status\":\"error\"}",
    ),
];

fn get(alloc: Global, target: &str) -> Result<Vec<u8>, AllocError> {
    let text = format!(in alloc; "GET /api/v1/{target}{GET}")?;
    Ok(text.into_bytes())
}

/// The replies to a request for each of [`ASKED`], and to a form.
fn replies<J: Naming, R: Wait + Threads + Sync>(
    rt: &R,
    alloc: Global,
    store: Store,
) -> Result<Vec<Vec<u8>>, AllocError>
    requires book { store.seen.book ≡ J.book }
    requires opening { opening_of [] ≡ J.opening }
{
    let mut all = Vec::new(alloc);
    let opened = store.open::<Open<J>, &R>(rt, alloc, Vec::new(alloc), 1, 1);
    let Ok((committer, mut passes, mut seats)) = opened else {
        return Ok(all);
    };
    let (Some(mut pass), Some(mut seat)) = (passes.pop(), seats.pop()) else {
        return Ok(all);
    };
    for body in [UP, OTHERS] {
        let bytes = request(alloc, "write", body)?;
        reply_to(
            rt,
            alloc,
            bytes.as_slice(),
            &mut pass,
            &mut seat,
            &committer,
        )?;
    }
    for (target, _) in ASKED {
        let bytes = get(alloc, target)?;
        all.push(reply_to(
            rt,
            alloc,
            bytes.as_slice(),
            &mut pass,
            &mut seat,
            &committer,
        )?)?;
    }
    let form = b"POST /api/v1/series?limit=5 HTTP/1.1\r\nHost: a\r\nContent-Length: 14\r\n\
        Content-Type: application/x-www-form-urlencoded; charset=UTF-8\r\n\r\nmatch%5B%5D=up";
    all.push(reply_to(rt, alloc, form, &mut pass, &mut seat, &committer)?)?;
    Ok(all)
}

#[test]
fn a_snapshot_is_listed(rt: HostRuntime) -> Result<(), Fail> {
    let alloc = rt.alloc();
    let all = replies::<Brand, HostRuntime>(&rt, alloc, Store::new())?;
    assert!(rt; all.len() == 12);
    for (reply, (_, body)) in all.iter().zip(ASKED) {
        assert!(rt; reply.as_slice().ends_with(body.as_bytes()));
    }
    let both = b"\r\n\r\n{\"status\":\"success\",\"data\":[{\"__name__\":\"up\",\"job\":\"a\"},\
        {\"__name__\":\"up\",\"job\":\"b\"}]}";
    assert!(rt; all[11].as_slice().ends_with(both));
    Ok(())
}
