//! Workers and clients as threads of one process.

ghost use Rattle.std.specs.Prelude.{◌≡◌, []};
ghost use Rattle.head.specs.Blocks.{opening_of};

use guard::Rules;
use server::{Listeners, Terms, Workers, serve};
use snapshots::{Naming, Open, OpenNaming, Store};
use std::alloc::Global;
use std::io::{Read, Write};
use std::marker::Brand;
use std::net::{Net, TcpListener, TcpStream};
use std::sync::Wait;
use std::thread::{Threads, join};
use std::time::{Clock, Duration};

fn connect<R: Net<Stream = TcpStream>>(rt: &R, port: u16) -> Option<TcpStream> {
    TcpStream::connect(rt, ("127.0.0.1", port)).ok()
}

/// This many clients that say nothing.
fn connect_silent<R: Net<Stream = TcpStream>>(
    rt: &R,
    alloc: Global,
    port: u16,
    count: usize,
) -> Option<Vec<TcpStream>> {
    let mut waiting = Vec::new(alloc);
    for _ in 0..count {
        waiting.push(connect(rt, port)?).ok()?;
    }
    Some(waiting)
}

/// Adds the reply to a request.
fn ask<R: Net<Stream = TcpStream>>(
    rt: &R,
    port: u16,
    request: &[u8],
    replies: &mut Vec<u8>,
) -> Option<()> {
    let mut stream = connect(rt, port)?;
    stream.write_all(request).ok()?;
    let _count = stream.read_to_end(replies).ok()?;
    Some(())
}

/// All replies to these requests, asked one after another.
fn ask_each<R: Net<Stream = TcpStream>>(
    rt: &R,
    alloc: Global,
    port: u16,
    requests: &[&[u8]],
) -> Option<Vec<u8>> {
    let mut replies = Vec::new(alloc);
    for request in requests {
        ask(rt, port, request, &mut replies)?;
    }
    Some(replies)
}

/// The same, while this many clients stay silent.
fn ask_all<R: Net<Stream = TcpStream>>(
    rt: &R,
    alloc: Global,
    port: u16,
    silent: usize,
    requests: &[&[u8]],
) -> Option<Vec<u8>> {
    let _waiting = connect_silent(rt, alloc, port, silent)?;
    ask_each(rt, alloc, port, requests)
}

/// Whether the workers all ended.
fn serve_all<
    J: OpenNaming + Send + Sync,
    C: Wait + Drop + Send + Sync,
    R: Threads + Wait + Clock + Eprint + Sync,
>(rt: &R, alloc: Global, workers: Workers<J, C>, listener: &TcpListener) -> bool {
    let terms = Terms {
        requests: 2,
        idle: Some(Duration::from_secs(1)),
        reply_memory: None,
        version: "test",
    };
    let listeners = Listeners {
        first: listener,
        prometheus: None,
    };
    let rules = Rules::none();
    serve(rt, alloc, workers, listeners, &rules, terms).is_ok()
}

/// The replies to these requests, asked by a thread beside the workers, if the workers all ended.
fn serve_beside<
    J: OpenNaming + Send + Sync,
    C: Wait + Drop + Send + Sync,
    R: Threads + Wait + Clock + Eprint + Net<Stream = TcpStream> + Sync,
>(
    rt: &R,
    alloc: Global,
    workers: Workers<J, C>,
    listener: &TcpListener,
    port: u16,
    asked: (usize, &[&[u8]]),
) -> Option<Vec<u8>> {
    let (silent, requests) = asked;
    let (served, replies) = join(
        rt,
        || serve_all(rt, alloc, workers, listener),
        || ask_all(rt, alloc, port, silent, requests),
    );
    if served { replies } else { None }
}

fn port_of(listener: &TcpListener) -> Option<u16> {
    match listener.local_addr() {
        Ok(address) => Some(address.port()),
        Err(_) => None,
    }
}

/// The replies to these requests by two workers of an empty store, of two connections each, while
/// this many clients stay silent.
fn replies_of_two<
    J: Naming + Send + Sync,
    R: Threads + Wait + Clock + Eprint + Net<Stream = TcpStream> + Sync,
>(
    rt: &R,
    alloc: Global,
    store: Store,
    listener: &TcpListener,
    asked: (usize, &[&[u8]]),
) -> Option<Vec<u8>>
    requires book { store.seen.book ≡ J.book }
    requires opening { opening_of [] ≡ J.opening }
{
    let port = port_of(listener)?;
    let workers = Workers::<Open<J>, &R>::open(rt, alloc, store, Vec::new(alloc), 2, 2).ok()?;
    serve_beside(rt, alloc, workers, listener, port, asked)
}

const WRITE: &[u8] =
    b"POST /write HTTP/1.1\r\nContent-Length: 59\r\n\r\n[{\"labels\":{\"__name__\":\"up\",\"job\":\"a\"},\"samples\":[[30,5]]}]";

const NOWHERE: &[u8] = b"GET /none HTTP/1.1\r\n\r\n";

const CUT: &[u8] = b"POST /cut HTTP/1.1\r\nContent-Length: 9\r\n\r\n{\"at\":31}";

const SELECT: &[u8] = b"GET /select?selector=up&from=31&to=100 HTTP/1.1\r\n\r\n";

const ASKED: &[&[u8]] = &[WRITE, NOWHERE, CUT, SELECT];

/// The replies of a store to which a sample is written and then cut away, and to a path that is
/// none.
const REPLIES: &[u8] =
    b"HTTP/1.1 200 OK\r\nContent-Type: application/json\r\nContent-Length: 11\r\nConnection: close\r\n\r\n{\"ok\":true}HTTP/1.1 404 Not Found\r\nContent-Type: application/json\r\nContent-Length: 16\r\nConnection: close\r\n\r\n{\"refused\":\"H3\"}HTTP/1.1 200 OK\r\nContent-Type: application/json\r\nContent-Length: 11\r\nConnection: close\r\n\r\n{\"ok\":true}HTTP/1.1 200 OK\r\nContent-Type: application/json\r\nContent-Length: 112\r\nConnection: close\r\n\r\n{\"parts\":[{\"part\":\"block 0\",\"skipped\":true},{\"intervals\":[],\"part\":\"head\",\"rows\":[],\"separators\":[]}],\"rows\":[]}";

const ASKED_TWICE: &[&[u8]] = &[NOWHERE, NOWHERE];

/// Two replies to a path that is none.
const NOWHERE_TWICE: &[u8] =
    b"HTTP/1.1 404 Not Found\r\nContent-Type: application/json\r\nContent-Length: 16\r\nConnection: close\r\n\r\n{\"refused\":\"H3\"}HTTP/1.1 404 Not Found\r\nContent-Type: application/json\r\nContent-Length: 16\r\nConnection: close\r\n\r\n{\"refused\":\"H3\"}";

fn is_replied<R: Threads + Wait + Clock + Eprint + Net<Stream = TcpStream> + Sync>(
    rt: &R,
    alloc: Global,
    listener: &TcpListener,
    asked: (usize, &[&[u8]]),
    want: &[u8],
) -> bool {
    match replies_of_two::<Brand, R>(rt, alloc, Store::new(), listener, asked) {
        Some(replies) => replies.as_slice() == want,
        None => false,
    }
}

/// Two workers serve one store. Two clients that say nothing hold no worker for ever while another
/// client asks twice.
#[test]
fn two_workers_serve_one_store_and_silent_clients_hold_none_for_ever(rt: HostRuntime) {
    let listener = TcpListener::bind(&rt, "127.0.0.1:0").ok();
    let listener = listener.expect(&rt, "a port is free");
    assert!(rt; is_replied(&rt, rt.alloc(), &listener, (0, ASKED), REPLIES));
    assert!(rt; is_replied(&rt, rt.alloc(), &listener, (2, ASKED_TWICE), NOWHERE_TWICE));
}
