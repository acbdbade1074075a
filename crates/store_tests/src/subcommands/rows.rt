//! Runs of the program: words, and what it gives for them.

use commands::ReadFiles;
use commands::run::{Ending, run};
use std::alloc::{AllocError, Global};
use std::io::Write;
use std::net::{Net, TcpListener, TcpStream};
use std::sync::Wait;
use std::thread::Threads;
use std::time::Clock;

/// Words, the exit status, and what goes to the first and to the second writer.
pub type Row<'a> = (&'a [&'a str], u8, &'a str, &'a str);

fn given_of(alloc: Global, words: &[&str]) -> Result<Vec<String>, AllocError> {
    let mut given = Vec::new(alloc);
    for word in words {
        given.push(String::from_str(alloc, word)?)?;
    }
    Ok(given)
}

/// How a run that writes to these writers ends.
pub fn ending_of<
    Q: Wait + Threads + Net<Listener = TcpListener, Stream = TcpStream> + Clock + Eprint + Sync,
    F: ReadFiles,
    W: Write,
    E: Write,
>(rt: &Q, alloc: Global, files: &F, words: &[&str], out: &mut W, err: &mut E) -> Option<Ending> {
    let given = given_of(alloc, words).ok()?;
    Some(run(rt, alloc, files, given.as_slice(), out, err, false))
}

/// What a run gives: how it ends, and what it writes to both writers.
#[derive(Drop)]
pub struct Told {
    pub status: u8,
    pub out: Vec<u8>,
    pub err: Vec<u8>,
}

pub fn told_by<
    Q: Wait + Threads + Net<Listener = TcpListener, Stream = TcpStream> + Clock + Eprint + Sync,
    F: ReadFiles,
>(rt: &Q, alloc: Global, files: &F, words: &[&str]) -> Option<Told> {
    let mut out = Vec::new(alloc);
    let mut err = Vec::new(alloc);
    let status = ending_of(rt, alloc, files, words, &mut out, &mut err)?.status;
    Some(Told { status, out, err })
}

/// Whether a row is what the program gives over these files.
pub fn is_given<
    Q: Wait + Threads + Net<Listener = TcpListener, Stream = TcpStream> + Clock + Eprint + Sync,
    F: ReadFiles,
>(rt: &Q, alloc: Global, files: &F, row: &Row<'_>) -> bool {
    match told_by(rt, alloc, files, row.0) {
        Some(told) => {
            told.status == row.1
                && told.out.as_slice() == row.2.as_bytes()
                && told.err.as_slice() == row.3.as_bytes()
        }
        None => false,
    }
}
