//! Connections to a store, one after another.

ghost use Rattle.std.specs.Prelude.{◌≡◌, map};
ghost use Rattle.head.specs.Blocks.{part_in, opening_of};

use crate::directories::Directories;
use crate::edges::{Script, Sink};
use crate::report::Report;
use crate::steps::{Step, Way};
use block::Block;
use commands::open_blocks;
use query_http::{Served, serve_one};
use snapshots::{Committer, Naming, Open, OpenNaming, Pass, Seat, Store};
use std::alloc::Global;
use std::marker::Brand;
use std::str;
use std::sync::Wait;
use std::thread::Threads;
use std::time::Clock;

/// The pieces that connections give and take: whole, of seven bytes, and of one.
const PIECES: [usize; 3] = [usize::MAX, 7, 1];

/// How a connection gives and takes bytes. The numbers are how many at most at a time, in how many
/// reads, and with room for how many.
type Edge = (usize, usize, usize);

/// A committer of a store, with the pass and the seat of one worker.
#[derive(Drop)]
struct Opened<J: Naming, C: Wait + Drop> {
    committer: Committer<J, C>,
    pass: Pass<J>,
    seat: Seat<J>,
}

/// How a connection is served, and what is written.
fn serve<J: OpenNaming, C: Wait + Drop>(
    rt: &(impl Wait + Threads + Clock + Sync),
    alloc: Global,
    store: &mut Opened<J, C>,
    input: &[u8],
    edge: Edge,
) -> (Served, Vec<u8>) {
    let (at_most, reads, room) = edge;
    let mut reader = Script {
        rest: input,
        at_most,
        reads,
        failed: 0,
    };
    let mut writer = Sink {
        bytes: Vec::new(alloc),
        room,
        at_most,
        failed: 0,
    };
    let served = serve_one(
        rt,
        alloc,
        &mut reader,
        &mut writer,
        &mut store.pass,
        &mut store.seat,
        &store.committer,
    );
    let Sink {
        bytes,
        room: _,
        at_most: _,
        failed: _,
    } = writer;
    (served, bytes)
}

/// Whether a text is in the bytes of a reply of success.
fn has(bytes: &[u8], text: &[u8]) -> bool {
    match (str::from_utf8(bytes), str::from_utf8(text)) {
        (Ok(bytes), Ok(text)) => bytes.starts_with("HTTP/1.1 200 OK\r\n") && bytes.contains(text),
        _ => false,
    }
}

/// Whether a connection of a step is served as the step says, and gets what it says.
fn went(step: &Step<'_>, number: usize, served: Served, bytes: &[u8]) -> bool {
    let text = step.text.as_slice();
    match step.way {
        Way::Replied => matches!(served, Served::Replied(_)) && bytes == text,
        Way::RepliedWith => matches!(served, Served::Replied(_)) && has(bytes, text),
        Way::Closed => served == Served::Closed && bytes == text,
        Way::CutShort => {
            served == Served::WriteFault && bytes.len() == number && text.starts_with(bytes)
        }
        Way::Unread => served == Served::ReadFault && bytes.is_empty(),
    }
}

/// How many connections a step has, of pieces of this many bytes.
fn count_of(step: &Step<'_>, at_most: usize) -> usize {
    match step.way {
        Way::CutShort => step.text.len(),
        Way::Unread => step.input.len().div_ceil(at_most.max(1)),
        Way::Replied | Way::RepliedWith | Way::Closed => 1,
    }
}

/// Makes the connections of a step, up to the first that goes otherwise.
fn make<J: OpenNaming, C: Wait + Drop>(
    rt: &(impl Wait + Threads + Clock + Sync),
    alloc: Global,
    store: &mut Opened<J, C>,
    report: &mut Report,
    step: &Step<'_>,
    at_most: usize,
) {
    let mut came = Vec::new(alloc);
    let mut right = true;
    for number in 0..count_of(step, at_most) {
        if right {
            let edge = match step.way {
                Way::CutShort => (at_most, usize::MAX, number),
                Way::Unread => (at_most, number, usize::MAX),
                Way::Replied | Way::RepliedWith | Way::Closed => (at_most, usize::MAX, usize::MAX),
            };
            let (served, bytes) = serve(rt, alloc, store, &step.input, edge);
            right = went(step, number, served, &bytes);
            came = bytes;
        }
    }
    report.count(right, step.line, &step.text, &came);
}

/// Opens a store and makes the connections of each step.
fn hold<J: Naming, R: Wait + Threads + Clock + Sync>(
    rt: &R,
    alloc: Global,
    store: Store,
    blocks: Vec<Block>,
    report: &mut Report,
    steps: &[Step<'_>],
    at_most: usize,
) -> Option<()>
    requires book { store.seen.book ≡ J.book }
    requires opening { opening_of (map part_in blocks.items) ≡ J.opening }
{
    let opened = store.open::<Open<J>, &R>(rt, alloc, blocks, 1, 1);
    let (committer, mut passes, mut seats) = opened.ok()?;
    let (pass, seat) = passes.pop().zip(seats.pop())?;
    let mut store = Opened {
        committer,
        pass,
        seat,
    };
    for step in steps {
        make(rt, alloc, &mut store, report, step, at_most);
    }
    Some(())
}

/// Connections to a store over the blocks in these directories.
#[derive(Drop)]
pub struct Session<'a> {
    pub names: &'a str,
    pub steps: Vec<Step<'a>>,
}

/// Opens the blocks of a session, and makes its connections in pieces of one size.
fn hold_over<R: Wait + Threads + Clock + Sync>(
    rt: &R,
    alloc: Global,
    directories: &Directories,
    report: &mut Report,
    session: &Session<'_>,
    at_most: usize,
) -> Option<()> {
    let names: Vec<&str> = session.names.split_whitespace().collect(alloc).ok()?;
    let blocks = open_blocks(rt, alloc, directories, &names).ok()?;
    hold::<Brand, R>(
        rt,
        alloc,
        Store::new(),
        blocks,
        report,
        &session.steps,
        at_most,
    )
}

/// Tries a session in pieces of each size.
pub fn try_session<R: Wait + Threads + Clock + Sync>(
    rt: &R,
    alloc: Global,
    directories: &Directories,
    report: &mut Report,
    session: &Session<'_>,
) {
    for at_most in PIECES {
        if hold_over(rt, alloc, directories, report, session, at_most).is_none() {
            report.misread(session.names);
        }
    }
}
