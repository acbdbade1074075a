//! Answers and runs that are refused memory, and writers that refuse.

use crate::subcommands::directories::DIRECTORIES;
use crate::subcommands::rows::{Told, ending_of, is_given, told_by};
use answers::{answer, body};
use commands::{first_batch, query, second_batch};
use head::{Snapshot, apply};
use std::alloc::Global;
use std::net::{Net, TcpListener, TcpStream};
use std::sync::Wait;
use std::thread::Threads;
use std::time::Clock;

const DEMO: &str =
    "{\"parts\":[{\"intervals\":[{\"from\":1,\"until\":2,\"verdict\":\"match\"},{\"from\":2,\"until\":4,\"verdict\":1},{\"from\":4,\"until\":6,\"verdict\":0},{\"from\":6,\"until\":4294967296,\"verdict\":\"match\"}],\"part\":\"head\",\"rows\":[{\"labels\":{\"__name__\":\"up\",\"job\":\"a\"},\"samples\":[[10,1],[20,1]]},{\"labels\":{\"__name__\":\"up\",\"job\":\"a\",\"zone\":\"x\"},\"samples\":[[10,6],[20,6]]}],\"separators\":[1,2,4,6]}],\"rows\":[{\"labels\":{\"__name__\":\"up\",\"job\":\"a\"},\"samples\":[[10,1],[20,1]]},{\"labels\":{\"__name__\":\"up\",\"job\":\"a\",\"zone\":\"x\"},\"samples\":[[10,6],[20,6]]}]}\n";

const NOTHING: &str =
    "{\"parts\":[{\"intervals\":[],\"part\":\"head\",\"rows\":[],\"separators\":[]}],\"rows\":[]}";

const FIRST_ALONE: &str =
    "{\"parts\":[{\"intervals\":[{\"from\":1,\"until\":2,\"verdict\":\"match\"},{\"from\":2,\"until\":4294967296,\"verdict\":1}],\"part\":\"head\",\"rows\":[{\"labels\":{\"__name__\":\"up\",\"job\":\"a\"},\"samples\":[[10,1],[20,1]]}],\"separators\":[1,2]}],\"rows\":[{\"labels\":{\"__name__\":\"up\",\"job\":\"a\"},\"samples\":[[10,1],[20,1]]}]}";

/// The two batches of the demo.
enum Batch {
    First,
    Second,
}

/// The store after a further batch.
fn after(alloc: Global, at: &Snapshot, batch: &Batch) -> Option<Snapshot> {
    let appender = match batch {
        Batch::First => first_batch(alloc),
        Batch::Second => second_batch(alloc),
    };
    apply(alloc, at, &appender.ok()?.into_event()).ok()
}

fn after_again(alloc: Global, at: &Snapshot, batch: &Batch) -> Option<Snapshot> {
    match after(alloc, at, batch) {
        None => after(alloc, at, batch),
        made => made,
    }
}

/// An empty store.
fn empty_again(alloc: Global) -> Option<Snapshot> {
    match Snapshot::opening(alloc, Vec::new(alloc)) {
        Err(_) => Snapshot::opening(alloc, Vec::new(alloc)).ok(),
        Ok(store) => Some(store),
    }
}

/// The text of the answer of a store to `up{job="a"}` in a closed range of times.
fn text_of(alloc: Global, store: &Snapshot, from: i64, to: i64) -> Option<Vec<u8>> {
    let query = query(alloc, from, to).ok()?;
    let answer = answer(alloc, store, &query).ok()?;
    body(alloc, answer.parts(), answer.rows()).ok()
}

/// Whether a store answers with this text, when it is first asked or when it is asked again.
fn tells(alloc: Global, store: &Snapshot, from: i64, to: i64, text: &str) -> bool {
    let told = match text_of(alloc, store, from, to) {
        None => text_of(alloc, store, from, to),
        told => told,
    };
    match told {
        Some(told) => told.as_slice() == text.as_bytes(),
        None => false,
    }
}

/// Whether a store before the batches of the demo, after the first and after both answers as each
/// of them should, once all three are there.
fn answers_again(alloc: Global) -> Option<bool> {
    let empty = empty_again(alloc)?;
    let one = after_again(alloc, &empty, &Batch::First)?;
    let two = after_again(alloc, &one, &Batch::Second)?;
    Some(tell(alloc, &empty, &one, &two))
}

fn tell(alloc: Global, empty: &Snapshot, one: &Snapshot, two: &Snapshot) -> bool {
    tells(alloc, empty, 0, 100, NOTHING)
        && tells(alloc, one, 0, 100, FIRST_ALONE)
        && tells(alloc, two, 0, 100, DEMO.trim_end())
}

/// `tests/allocations.sh` runs this test with each of its allocations refused in turn.
#[test]
fn a_call_refused_memory_changes_nothing_and_answers_when_made_again(rt: HostRuntime) {
    assert!(rt; matches!(answers_again(rt.alloc()), Some(true)));
}

/// Whether a run whose first writer has no room says so.
fn is_unwritten<
    Q: Wait + Threads + Net<Listener = TcpListener, Stream = TcpStream> + Clock + Eprint + Sync,
>(rt: &Q, alloc: Global) -> bool {
    let mut room = [0u8; 100];
    let mut out = room.as_mut_slice();
    let mut err = Vec::new(alloc);
    match ending_of(rt, alloc, &DIRECTORIES, &["demo"], &mut out, &mut err) {
        Some(ending) => ending.status == 3 && err.as_slice() == b"cannot write\n".as_slice(),
        None => false,
    }
}

/// Whether a run whose fault cannot be reported keeps its status.
fn is_untold<
    Q: Wait + Threads + Net<Listener = TcpListener, Stream = TcpStream> + Clock + Eprint + Sync,
>(rt: &Q, alloc: Global) -> bool {
    let mut out = Vec::new(alloc);
    let mut room = [0u8; 5];
    let mut err = room.as_mut_slice();
    match ending_of(
        rt,
        alloc,
        &DIRECTORIES,
        &["select", "{}"],
        &mut out,
        &mut err,
    ) {
        Some(ending) => ending.status == 1 && ending.told.is_err() && out.is_empty(),
        None => false,
    }
}

#[test]
fn a_writer_that_refuses_is_told_and_a_fault_that_cannot_be_told_keeps_its_status(rt: HostRuntime) {
    assert!(rt; is_unwritten(&rt, rt.alloc()));
    assert!(rt; is_untold(&rt, rt.alloc()));
}

/// The line of the answer to `up` over the blocks `a` and `b`.
const A_THEN_B: &str =
    "{\"parts\":[{\"intervals\":[{\"from\":3,\"until\":4294967296,\"verdict\":\"match\"}],\"part\":\"block 0\",\"rows\":[{\"labels\":{\"__name__\":\"up\",\"job\":\"a\"},\"samples\":[[10,1],[15,2]]}],\"separators\":[3]},{\"intervals\":[{\"from\":3,\"until\":4294967296,\"verdict\":\"match\"}],\"part\":\"block 1\",\"rows\":[{\"labels\":{\"__name__\":\"up\",\"job\":\"a\"},\"samples\":[[10,9]]}],\"separators\":[3]},{\"intervals\":[],\"part\":\"head\",\"rows\":[],\"separators\":[]}],\"rows\":[{\"labels\":{\"__name__\":\"up\",\"job\":\"a\"},\"samples\":[[10,9],[15,2]]}]}\n";

/// How a run ends that was refused memory once, or whose writer was. It is reported.
fn is_refusal(told: &Told) -> bool {
    match told.status {
        3 => told.err.as_slice() == b"cannot write\n".as_slice(),
        4 => told.out.is_empty() && told.err.as_slice() == b"no memory\n".as_slice(),
        _ => false,
    }
}

/// Whether a run with these words writes this line. If memory is refused at first, it writes the
/// line when it is made again.
fn is_run_again<
    Q: Wait + Threads + Net<Listener = TcpListener, Stream = TcpStream> + Clock + Eprint + Sync,
>(rt: &Q, alloc: Global, words: &[&str], line: &str) -> bool {
    match told_by(rt, alloc, &DIRECTORIES, words) {
        Some(told) if told.status == 0 => told.out.as_slice() == line.as_bytes(),
        Some(told) if !is_refusal(&told) => false,
        _ => is_given(rt, alloc, &DIRECTORIES, &(words, 0, line, "")),
    }
}

/// `tests/allocations.sh` runs this test with each of its allocations refused in turn.
#[test]
fn a_program_refused_memory_says_so(rt: HostRuntime) {
    assert!(rt; is_run_again(&rt, rt.alloc(), &["demo"], DEMO));
}

/// `tests/allocations.sh` runs this test with each of its allocations refused in turn: those of two
/// workers, of the merge and of the text.
#[test]
fn a_selection_refused_memory_says_so(rt: HostRuntime) {
    assert!(rt; is_run_again(&rt, rt.alloc(), &["select", "up", "a", "b"], A_THEN_B));
}
