//! What the program does.

use crate::adding::add;
use crate::command::{Line, read_line};
use crate::fault::Fault;
use crate::from_openmetrics::from_openmetrics;
use crate::from_prometheus::from_prometheus;
use crate::from_rows::from_rows;
use crate::joining::join;
use crate::list::list;
use crate::progress::Teller;
use crate::rewrite::rewrite;
use crate::to_openmetrics::to_openmetrics;
use clap::error::ErrorKind;
use std::alloc::Global;
use std::io::{self, Read, Write};
use std::thread::Threads;

fn execute<T: Threads + Sync, I: Read, W: Write, E: Write>(
    threads: &T,
    alloc: Global,
    rt: &HostRuntime,
    words: &[String],
    input: &mut I,
    out: &mut W,
    teller: &mut Teller<'_, E>,
) -> Result<(), Fault> {
    match read_line(alloc, words) {
        Ok(Line::FromPrometheus(options, blocks)) => {
            from_prometheus(alloc, rt, &options, blocks.as_slice(), out, teller)
        }
        Ok(Line::Rewrite(into, values, directories)) => {
            rewrite(alloc, rt, into, values, directories.as_slice(), out, teller)
        }
        Ok(Line::Add(data, directories)) => {
            add(
                threads,
                alloc,
                rt,
                data,
                directories.as_slice(),
                out,
                teller,
            )
        }
        Ok(Line::Join(data)) => join(threads, alloc, rt, data, out, teller),
        Ok(Line::List(directories)) => list(alloc, rt, directories.as_slice(), out),
        Ok(Line::FromOpenMetrics(options, text_in)) => {
            from_openmetrics(alloc, rt, &options, text_in, input, out, teller)
        }
        Ok(Line::FromRows(target, file)) => {
            from_rows(alloc, rt, &target, file, input, out, teller)
        }
        Ok(Line::ToOpenMetrics(reply_in)) => to_openmetrics(alloc, rt, &reply_in, input, out),
        Err(error) if matches!(error.kind(), ErrorKind::OutOfMemory) => Err(Fault::Memory),
        Err(error) if error.use_stderr() => Err(Fault::Words(error)),
        Err(help) => {
            write!(out, "{help}")?;
            Ok(())
        }
    }
}

/// How the program ends.
#[derive(Debug, Drop)]
pub struct Ending {
    /// The exit status.
    pub status: u8,
    /// Whether the fault was reported, if there is one. An error is the second writer's.
    pub told: io::Result<()>,
}

/// Does what the words after the program's name ask for.
///
/// Standard output has a line for each output and one that reports what became of every sample. The
/// status is 0 if all was done, 1 for a refusal, 2 for a fault of the words, 3 for what cannot be
/// read or written, and 4 for want of memory. A line on the second writer says why. The second
/// writer also gets what is passed over and, if it is a terminal, what the program is at. The
/// reader is standard input, which is read only if the words name no file of text. `threads` starts
/// those that open the blocks of a store.
pub fn run<T: Threads + Sync, I: Read, W: Write, E: Write>(
    threads: &T,
    alloc: Global,
    rt: &HostRuntime,
    words: &[String],
    input: &mut I,
    out: &mut W,
    err: &mut E,
    is_terminal: bool,
) -> Ending {
    let mut teller = Teller { err, is_terminal };
    match execute(threads, alloc, rt, words, input, out, &mut teller) {
        Ok(()) => Ending {
            status: 0,
            told: Ok(()),
        },
        Err(fault) => Ending {
            status: fault.status(),
            told: fault.tell(teller.err),
        },
    }
}
