//! The program `auditor`: it reads a reply from standard input, and the files of blocks or the
//! folder of a store from disk, and says whether the reply is right. It shares no index reader,
//! search or merge with the store that sent it.
//!
//! It passes its words, the host's files and input and its two outputs to `store_command::run_by`,
//! whose contract says what is written and with which status it ends.
#![tactic(auto)]

use std::io;
use std::process::ExitCode;
use store_command::run_by;

fn main(rt: HostRuntime) -> io::Result<ExitCode> {
    let alloc = rt.alloc();
    let mut words: Vec<String> = std::env::args(&rt)?.collect(alloc)?;
    if !words.is_empty() {
        let _program = words.remove(0);
    }
    let mut input = rt.reader();
    let (stdout, stderr) = (rt.stdout(), rt.stderr());
    let mut out = io::writer(&stdout);
    let mut err = io::writer(&stderr);
    let ending = run_by(
        &rt,
        alloc,
        &rt,
        words.as_slice(),
        &mut input,
        &mut out,
        &mut err,
    );
    Ok(ExitCode::from(ending.status))
}
