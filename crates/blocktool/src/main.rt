//! The program `blocktool`: it makes blocks for `querier` and `auditor` out of other programs'
//! data, and changes stores that no server keeps.
//!
//! `run` does what the words after the program's name ask for. An `Input` gives rows in a range of
//! times and counts what it read. `conversion` makes one output after another of several inputs, of
//! which the later wins. `from_prometheus` finds blocks of Prometheus (`folder`), opens them
//! (`prometheus`) as inputs and plans into how many outputs their times are cut. Values are kept as
//! a `form` says. `fault` and `program` say what is refused, and with which status a line ends.
//!
//! It uses `prometheus_block` for what is read, `imported_values` for values, `block_outputs` and
//! `block_folder` for what is written, and `clap` for words.
#![tactic(auto)]

mod adding;
mod command;
mod conversion;
mod fault;
mod files;
mod folder;
mod form;
mod from_openmetrics;
mod from_prometheus;
mod from_rows;
mod input;
mod joining;
mod laws;
mod list;
mod listed;
mod own_blocks;
mod plan;
mod program;
mod progress;
mod prometheus;
mod rewrite;
mod store_lock;
mod summary;
mod target;
mod text_commands;
mod text_input;
mod texts;
mod to_openmetrics;
mod words;
mod writing;

use crate::program::run;
use std::io::{self, IsTerminal};
use std::process::ExitCode;

fn main(rt: HostRuntime) -> io::Result<ExitCode> {
    let alloc = rt.alloc();
    let mut words: Vec<String> = std::env::args(&rt)?.collect(alloc)?;
    if !words.is_empty() {
        let _program = words.remove(0);
    }
    let mut input = rt.reader();
    let (stdout, stderr) = (rt.stdout(), rt.stderr());
    let mut out = io::writer(&stdout);
    let mut err = io::writer(&stderr);
    let ending = run(
        &rt,
        alloc,
        &rt,
        words.as_slice(),
        &mut input,
        &mut out,
        &mut err,
        stderr.is_terminal(),
    );
    Ok(ExitCode::from(ending.status))
}
