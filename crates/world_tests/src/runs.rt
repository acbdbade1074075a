//! A run of the program that is refused memory. How runs end is in `case_files`.

use crate::worked_block::{CHUNKS, INDEX, TOMBSTONES};
use audit_command::{Ending, ReadError, ReadFiles, run};
use std::alloc::{AllocError, Global};

/// The worked block in the directory `data`.
struct Block;

fn file_at(path: &str) -> Option<&'static [u8]> {
    match path {
        "data/index" => Some(INDEX),
        "data/chunks/000001" => Some(CHUNKS),
        "data/tombstones" => Some(TOMBSTONES),
        _ => None,
    }
}

impl ReadFiles for Block {
    ghost use Rattle.std.specs.Prelude.{⊤};

    ghost may_read = { λ _ _ _. ⊤ };

    fn read_file(&self, alloc: Global, path: &str, most: usize) -> Result<Vec<u8>, ReadError> {
        let Some(file) = file_at(path) else {
            return Err(ReadError::Unreadable);
        };
        match file.to_vec(alloc) {
            Ok(mut bytes) => {
                bytes.truncate(most);
                Ok(bytes)
            }
            Err(_) => Err(ReadError::Memory),
        }
    }
}

const WORDS: &[&str] = &[
    "--selector",
    "up{job=\"a\"}",
    "--from=0",
    "--to=100",
    "data",
];

/// What a store with the worked block and an empty head replies.
const REPLY: &[u8] = br#"{"parts":[
{"intervals":[{"from":4,"until":6,"verdict":0},{"from":6,"until":7,"verdict":"match"},
  {"from":7,"until":8,"verdict":"match"},{"from":8,"until":4294967296,"verdict":1}],
 "part":"block 0",
 "rows":[{"labels":{"__name__":"up","job":"a"},"samples":[[10,1]]},
  {"labels":{"__name__":"up","job":"a","zone":"x"},"samples":[[10,6]]}],
 "separators":[4,6,7,8]},
{"intervals":[],"part":"head","rows":[],"separators":[]}],
"rows":[{"labels":{"__name__":"up","job":"a"},"samples":[[10,1]]},
 {"labels":{"__name__":"up","job":"a","zone":"x"},"samples":[[10,6]]}]}"#;

/// What a run says of it.
const LINES: &[u8] = b"block 0: valid\nhead: skipped\nrows: valid\n";

/// What a run gives: how it ends, and what it writes to both writers.
#[derive(Drop)]
struct Told {
    ending: Ending,
    out: Vec<u8>,
    err: Vec<u8>,
}

fn words(alloc: Global) -> Result<Vec<String>, AllocError> {
    let mut words = Vec::new(alloc);
    for word in WORDS {
        words.push(String::from_str(alloc, word)?)?;
    }
    Ok(words)
}

fn told_by_run(alloc: Global) -> Option<Told> {
    let words = words(alloc).ok()?;
    let mut input = REPLY;
    let mut out = Vec::new(alloc);
    let mut err = Vec::new(alloc);
    let ending = run(
        alloc,
        &Block,
        words.as_slice(),
        &mut input,
        &mut out,
        &mut err,
    );
    Some(Told { ending, out, err })
}

/// How a run ends that was refused memory, or whose writer was.
fn is_refusal(told: &Told) -> bool {
    match told.ending.status {
        3 => told.err.as_slice() == b"cannot write\n".as_slice(),
        4 => told.out.is_empty() && told.err.as_slice() == b"no memory\n".as_slice(),
        _ => false,
    }
}

fn is_run(alloc: Global) -> bool {
    match told_by_run(alloc) {
        Some(told) => told.ending.status == 0 && told.out.as_slice() == LINES,
        None => false,
    }
}

/// Whether a run says these lines. If memory is refused at first, it says them when it is made
/// again.
fn is_run_again(alloc: Global) -> bool {
    match told_by_run(alloc) {
        Some(told) if told.ending.status == 0 => told.out.as_slice() == LINES,
        Some(told) if !is_refusal(&told) => false,
        _ => is_run(alloc),
    }
}

/// `tests/allocations.sh` runs this test with each of its allocations refused in turn.
#[test]
fn a_program_refused_memory_says_so(rt: HostRuntime) {
    assert!(rt; is_run_again(rt.alloc()));
}
