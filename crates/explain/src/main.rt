//! The program `explain`: it reads a reply from standard input, and writes a page that shows it.
//!
//! [`run`] does what the words after the program's name ask for, over files, a reader and two
//! writers: `--selector S [--from N] [--to N] [--about SERIES] [--store DIR] [DIR]...` has it write
//! one file of HTML. `command` says what the words ask for, `answer` makes the page, and `fault`
//! says why there is none. If directories are given, the library `auditor` judges the reply first,
//! over the files that `audit_command` reads. If the folder of a store is given, `store_audit`
//! does, over what `kept_folder` reads (`judging`). The contract of `run` says with which status
//! the program ends.
//!
//! ```
//! let words = [String::from_str(alloc, "--selector=up")?];
//! let mut reply = br#"{"parts":[],"rows":[]}"#.as_slice();
//! let mut out: Vec<u8> = Vec::new(alloc);
//! let mut err: Vec<u8> = Vec::new(alloc);
//! let ending = run(alloc, &rt, &words, &mut reply, &mut out, &mut err);
//! assert_eq!(rt; (ending.status, err.len()), (0, 0));
//! ```
//!
//! It stands on `page`, `page_claims` and `state_claims`, on `auditor` and `audit_command`, on
//! `store_audit`, `store_command` and `kept_folder`, on `asked_series`, `labels` and `matchers`, on
//! `clap` for words and on `sha2` for the reply's digest.
#![tactic(auto)]

mod answer;
mod command;
mod fault;
mod judging;
mod program;

use crate::program::run;
use std::io;
use std::process::ExitCode;

fn main(rt: HostRuntime) -> io::Result<ExitCode> {
    let alloc = rt.alloc();
    let mut words: Vec<String> = std::env::args(&rt)?.collect(alloc)?;
    if !words.is_empty() {
        let _program = words.remove(0);
    }
    let mut input = rt.reader();
    let (stdout, stderr) = (rt.stdout(), rt.stderr());
    let mut out = io::writer(&stdout);
    let mut err = io::writer(&stderr);
    let ending = run(alloc, &rt, words.as_slice(), &mut input, &mut out, &mut err);
    Ok(ExitCode::from(ending.status))
}
