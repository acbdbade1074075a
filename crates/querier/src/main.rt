//! The program `querier`: audited answers to selectors over Prometheus time series.
//!
//! It passes its words, the files of the host and its two outputs to `commands::run::run`, whose
//! contract says what is written and with which status it ends.
#![tactic(auto)]

use commands::run::run;
use std::io::{self, IsTerminal};
use std::process::ExitCode;

fn main(rt: HostRuntime) -> io::Result<ExitCode> {
    let alloc = rt.alloc();
    let mut words: Vec<String> = std::env::args(&rt)?.collect(alloc)?;
    if !words.is_empty() {
        let _program = words.remove(0);
    }
    let (stdout, stderr) = (rt.stdout(), rt.stderr());
    let mut out = io::writer(&stdout);
    let mut err = io::writer(&stderr);
    let is_terminal = stderr.is_terminal();
    let words = words.as_slice();
    let ending = run(&rt, alloc, &rt, words, &mut out, &mut err, is_terminal);
    Ok(ExitCode::from(ending.status))
}
