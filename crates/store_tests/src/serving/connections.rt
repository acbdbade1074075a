//! A session over memory whose connections are refused memory, and made again.

ghost use Rattle.std.specs.Prelude.{◌≡◌, []};
ghost use Rattle.head.specs.Blocks.{opening_of};

use crate::serving::script::{Script, Sink};
use crate::serving::store::{EmptyStore, open_empty};
use query_http::{Served, serve_one};
use snapshots::{Naming, Open, OpenNaming, Store};
use std::alloc::Global;
use std::marker::Brand;
use std::sync::Wait;
use std::thread::Threads;
use std::time::Clock;

/// More bytes than a reply of these tests has.
const ROOM: usize = 2000;

/// How a connection is served, in pieces of seven bytes, and what is written. There is nothing if
/// there is no memory to write to.
fn serve<J: OpenNaming, R: Wait + Drop>(
    rt: &(impl Wait + Threads + Clock + Sync),
    alloc: Global,
    store: &mut EmptyStore<J, R>,
    input: &[u8],
) -> Option<(Served, Vec<u8>)> {
    let bytes = Vec::with_capacity(alloc, ROOM).ok()?;
    let mut reader = Script {
        rest: input,
        at_most: 7,
        reads: usize::MAX,
        failed: 0,
    };
    let mut writer = Sink {
        bytes,
        room: usize::MAX,
        at_most: 7,
        failed: 0,
    };
    let served = serve_one(
        rt,
        alloc,
        &mut reader,
        &mut writer,
        &mut store.pass,
        &mut store.seat,
        &store.committer,
    );
    let Sink {
        bytes,
        room: _,
        at_most: _,
        failed: _,
    } = writer;
    Some((served, bytes))
}

/// The same, but a connection that is refused memory, and gets nothing, is made again.
fn serve_again<J: OpenNaming, R: Wait + Drop>(
    rt: &(impl Wait + Threads + Clock + Sync),
    alloc: Global,
    store: &mut EmptyStore<J, R>,
    input: &[u8],
) -> Option<(Served, Vec<u8>)> {
    match serve(rt, alloc, store, input) {
        Some((Served::NoMemory, bytes)) => {
            if bytes.is_empty() {
                serve(rt, alloc, store, input)
            } else {
                None
            }
        }
        None => serve(rt, alloc, store, input),
        served => served,
    }
}

/// The six series of the worked rows, each with two samples.
const WRITE_SIX: &[u8] =
    b"POST /write HTTP/1.1\r\nContent-Length: 417\r\n\r\n[{\"labels\":{\"__name__\":\"up\",\"job\":\"a\"},\"samples\":[[10,1],[20,1]]},{\"labels\":{\"__name__\":\"up\",\"job\":\"b\"},\"samples\":[[10,2],[20,2]]},{\"labels\":{\"__name__\":\"up\",\"job\":\"b\",\"zone\":\"x\"},\"samples\":[[10,3],[20,3]]},{\"labels\":{\"__name__\":\"down\",\"job\":\"a\"},\"samples\":[[10,4],[20,4]]},{\"labels\":{\"__name__\":\"down\",\"job\":\"b\"},\"samples\":[[10,5],[20,5]]},{\"labels\":{\"__name__\":\"up\",\"job\":\"a\",\"zone\":\"x\"},\"samples\":[[10,6],[20,6]]}]";

/// A new sample, and another value at the newest time of the second series.
const WRITE_TWO: &[u8] =
    b"POST /write HTTP/1.1\r\nContent-Length: 117\r\n\r\n[{\"labels\":{\"__name__\":\"up\",\"job\":\"a\"},\"samples\":[[30,7]]},{\"labels\":{\"__name__\":\"up\",\"job\":\"b\"},\"samples\":[[20,9]]}]";

/// A new sample of the first series.
const WRITE_ONE: &[u8] =
    b"POST /write HTTP/1.1\r\nContent-Length: 59\r\n\r\n[{\"labels\":{\"__name__\":\"up\",\"job\":\"a\"},\"samples\":[[30,5]]}]";

/// A sample of a new series before the time of the cut.
const WRITE_EARLY: &[u8] =
    b"POST /write HTTP/1.1\r\nContent-Length: 50\r\n\r\n[{\"labels\":{\"__name__\":\"new\"},\"samples\":[[15,5]]}]";

/// The head is cut at 20.
const CUT: &[u8] = b"POST /cut HTTP/1.1\r\nContent-Length: 9\r\n\r\n{\"at\":20}";

/// What the series of the job have is deleted.
const DELETE: &[u8] =
    b"POST /delete HTTP/1.1\r\nContent-Length: 45\r\n\r\n{\"from\":0,\"selector\":\"{job=\\\"a\\\"}\",\"to\":1000}";

/// The worked query.
const SELECT: &[u8] = b"GET /select?selector=up%7Bjob%3D%22a%22%7D&from=0&to=100 HTTP/1.1\r\n\r\n";

/// The same of later times.
const SELECT_LATER: &[u8] =
    b"GET /select?selector=up%7Bjob%3D%22a%22%7D&from=30&to=40 HTTP/1.1\r\n\r\n";

/// A path that is none.
const NONE: &[u8] = b"GET /none HTTP/1.1\r\n\r\n";

/// The worked reply to the query.
const SELECTED: &[u8] =
    b"HTTP/1.1 200 OK\r\nContent-Type: application/json\r\nContent-Length: 517\r\nConnection: close\r\n\r\n{\"parts\":[{\"intervals\":[{\"from\":1,\"until\":2,\"verdict\":\"match\"},{\"from\":2,\"until\":4,\"verdict\":1},{\"from\":4,\"until\":6,\"verdict\":0},{\"from\":6,\"until\":4294967296,\"verdict\":\"match\"}],\"part\":\"head\",\"rows\":[{\"labels\":{\"__name__\":\"up\",\"job\":\"a\"},\"samples\":[[10,1],[20,1]]},{\"labels\":{\"__name__\":\"up\",\"job\":\"a\",\"zone\":\"x\"},\"samples\":[[10,6],[20,6]]}],\"separators\":[1,2,4,6]}],\"rows\":[{\"labels\":{\"__name__\":\"up\",\"job\":\"a\"},\"samples\":[[10,1],[20,1]]},{\"labels\":{\"__name__\":\"up\",\"job\":\"a\",\"zone\":\"x\"},\"samples\":[[10,6],[20,6]]}]}";

/// The worked reply to a batch whose second sample is refused.
const DUPLICATE: &[u8] =
    b"HTTP/1.1 409 Conflict\r\nContent-Type: application/json\r\nContent-Length: 36\r\nConnection: close\r\n\r\n{\"at\":1,\"cause\":\"E3\",\"refused\":\"H9\"}";

/// The worked reply to a path that is none.
const NO_PATH: &[u8] =
    b"HTTP/1.1 404 Not Found\r\nContent-Type: application/json\r\nContent-Length: 16\r\nConnection: close\r\n\r\n{\"refused\":\"H3\"}";

/// The reply to a change.
const DONE: &[u8] =
    b"HTTP/1.1 200 OK\r\nContent-Type: application/json\r\nContent-Length: 11\r\nConnection: close\r\n\r\n{\"ok\":true}";

/// The reply to a cut that is not above the floor.
const NO_CUT: &[u8] =
    b"HTTP/1.1 409 Conflict\r\nContent-Type: application/json\r\nContent-Length: 29\r\nConnection: close\r\n\r\n{\"cause\":\"E5\",\"refused\":\"H9\"}";

/// The reply to a sample below the floor.
const BELOW: &[u8] =
    b"HTTP/1.1 409 Conflict\r\nContent-Type: application/json\r\nContent-Length: 36\r\nConnection: close\r\n\r\n{\"at\":0,\"cause\":\"E1\",\"refused\":\"H9\"}";

/// The worked reply to the query after the cut.
const CUT_SELECTED: &[u8] =
    b"HTTP/1.1 200 OK\r\nContent-Type: application/json\r\nContent-Length: 848\r\nConnection: close\r\n\r\n{\"parts\":[{\"intervals\":[{\"from\":4,\"until\":6,\"verdict\":0},{\"from\":6,\"until\":7,\"verdict\":\"match\"},{\"from\":7,\"until\":8,\"verdict\":\"match\"},{\"from\":8,\"until\":4294967296,\"verdict\":1}],\"part\":\"block 0\",\"rows\":[{\"labels\":{\"__name__\":\"up\",\"job\":\"a\"},\"samples\":[[10,1]]},{\"labels\":{\"__name__\":\"up\",\"job\":\"a\",\"zone\":\"x\"},\"samples\":[[10,6]]}],\"separators\":[4,6,7,8]},{\"intervals\":[{\"from\":1,\"until\":2,\"verdict\":\"match\"},{\"from\":2,\"until\":4,\"verdict\":1},{\"from\":4,\"until\":6,\"verdict\":0},{\"from\":6,\"until\":4294967296,\"verdict\":\"match\"}],\"part\":\"head\",\"rows\":[{\"labels\":{\"__name__\":\"up\",\"job\":\"a\"},\"samples\":[[20,1]]},{\"labels\":{\"__name__\":\"up\",\"job\":\"a\",\"zone\":\"x\"},\"samples\":[[20,6]]}],\"separators\":[1,2,4,6]}],\"rows\":[{\"labels\":{\"__name__\":\"up\",\"job\":\"a\"},\"samples\":[[10,1],[20,1]]},{\"labels\":{\"__name__\":\"up\",\"job\":\"a\",\"zone\":\"x\"},\"samples\":[[10,6],[20,6]]}]}";

/// The reply to the later query: the block is skipped, and one series has a sample.
const LATER_SELECTED: &[u8] =
    b"HTTP/1.1 200 OK\r\nContent-Type: application/json\r\nContent-Length: 314\r\nConnection: close\r\n\r\n{\"parts\":[{\"part\":\"block 0\",\"skipped\":true},{\"intervals\":[{\"from\":1,\"until\":2,\"verdict\":\"match\"},{\"from\":2,\"until\":4294967296,\"verdict\":\"none\"}],\"part\":\"head\",\"rows\":[{\"labels\":{\"__name__\":\"up\",\"job\":\"a\"},\"samples\":[[30,5]]}],\"separators\":[1,2]}],\"rows\":[{\"labels\":{\"__name__\":\"up\",\"job\":\"a\"},\"samples\":[[30,5]]}]}";

/// The reply to the query after the deletion: each series that is asked for is silent.
const NONE_SELECTED: &[u8] =
    b"HTTP/1.1 200 OK\r\nContent-Type: application/json\r\nContent-Length: 412\r\nConnection: close\r\n\r\n{\"parts\":[{\"intervals\":[{\"from\":4,\"until\":6,\"verdict\":0},{\"from\":6,\"until\":8,\"verdict\":\"none\"},{\"from\":8,\"until\":4294967296,\"verdict\":1}],\"part\":\"block 0\",\"rows\":[],\"separators\":[4,6,8]},{\"intervals\":[{\"from\":1,\"until\":2,\"verdict\":\"none\"},{\"from\":2,\"until\":4,\"verdict\":1},{\"from\":4,\"until\":6,\"verdict\":0},{\"from\":6,\"until\":4294967296,\"verdict\":\"none\"}],\"part\":\"head\",\"rows\":[],\"separators\":[1,2,4,6]}],\"rows\":[]}";

/// Requests to one store, each with its reply.
const SESSION: &[(&[u8], &[u8])] = &[
    (WRITE_SIX, DONE),
    (SELECT, SELECTED),
    (WRITE_TWO, DUPLICATE),
    (NONE, NO_PATH),
    (SELECT, SELECTED),
    (CUT, DONE),
    (SELECT, CUT_SELECTED),
    (CUT, NO_CUT),
    (WRITE_EARLY, BELOW),
    (WRITE_ONE, DONE),
    (WRITE_ONE, DONE),
    (SELECT_LATER, LATER_SELECTED),
    (DELETE, DONE),
    (SELECT, NONE_SELECTED),
];

/// Whether a request gets this reply.
fn is_replied<J: OpenNaming, R: Wait + Drop>(
    rt: &(impl Wait + Threads + Clock + Sync),
    alloc: Global,
    store: &mut EmptyStore<J, R>,
    input: &[u8],
    text: &[u8],
) -> bool {
    match serve_again(rt, alloc, store, input) {
        Some((Served::Replied(_), bytes)) => bytes.as_slice() == text,
        _ => false,
    }
}

/// Whether each request of the session gets its reply.
fn are_replied<J: OpenNaming, R: Wait + Drop>(
    rt: &(impl Wait + Threads + Clock + Sync),
    alloc: Global,
    store: &mut EmptyStore<J, R>,
) -> bool {
    for (input, text) in SESSION {
        if !is_replied(rt, alloc, store, input, text) {
            return false;
        }
    }
    true
}

/// The same of a store that is opened for it, or nothing if none was opened.
fn is_session<J: Naming, R: Wait + Threads + Clock + Sync>(
    rt: &R,
    alloc: Global,
    store: Store,
) -> Option<bool>
    requires book { store.seen.book ≡ J.book }
    requires opening { opening_of [] ≡ J.opening }
{
    let mut store = open_empty::<Open<J>, &R>(rt, alloc, store)?;
    Some(are_replied(rt, alloc, &mut store))
}

/// The same of a new store, which is opened again if that was refused memory.
fn is_held<R: Wait + Threads + Clock + Sync>(rt: &R, alloc: Global) -> Option<bool> {
    match is_session::<Brand, R>(rt, alloc, Store::new()) {
        None => is_session::<Brand, R>(rt, alloc, Store::new()),
        held => held,
    }
}

/// `tests/allocations.sh` runs this test with each of its allocations refused in turn.
#[test]
fn a_connection_refused_memory_is_served_when_made_again(rt: HostRuntime) {
    assert!(rt; is_held(&rt, rt.alloc()) == Some(true));
}
