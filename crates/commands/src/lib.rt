//! What the program `querier` does: audited answers to selectors over Prometheus time series.
//!
//! `run` does what the words after the program's name ask for, over files, two writers and a host.
//! `demo` opens an empty store, to which two seats commit a batch each, and writes the answer of a
//! pass that learnt both receipts to `up{job="a"}` from 0 to 100 as one line of JSON. The line has
//! the rows of each part with the certificate that shows that they are all, and the rows of all
//! parts. `select` asks the blocks in directories, which `opening` opens, any selector in the same
//! way. What is written is the text of an audited answer, byte for byte, and a line feed (`demo`,
//! `write_answer`, `select`). `check` verifies blocks completely and writes a line for each.
//! `files` says what is read of a directory, `judgement` what that is judged to be, and `check`
//! which lines are written. `fault` and `run` say what is refused, and with which status a line
//! ends. `serve` serves the blocks in directories, under an empty head, to HTTP clients. `backup`
//! copies a store that `serve` keeps. `progress` says on a terminal which directory is read.
//!
//! ```
//! let words = [
//!     String::from_str(alloc, "select")?,
//!     String::from_str(alloc, "{}")?,
//! ];
//! let mut out: Vec<u8> = Vec::new(alloc);
//! let mut err: Vec<u8> = Vec::new(alloc);
//! let ending = run(&rt, alloc, &rt, &words, &mut out, &mut err, false);
//! assert_eq!(rt; (ending.status, out.len()), (1, 0));
//! assert_eq!(rt; err.as_slice(), b"refused M6\n".as_slice());
//! ```
//!
//! It uses `server` for workers, `answers` for answers and their text, `snapshots` for the store of
//! the demo, `block` for what a block is, `clap` for words, and `labels`, `matchers`,
//! `index_reader` and `head`. Certificates are the partition certificates of Barbay and Kenyon,
//! SODA 2002.
#![tactic(auto)]

mod backup;
pub mod check;
mod command;
mod demo;
mod fault;
mod files;
mod help;
mod judgement;
mod keeping;
pub mod listing;
mod locking;
mod opening;
mod process;
mod progress;
mod rules;
pub mod run;
pub mod select;
mod sending;
pub mod serve;
mod upkeep;
mod writing;

pub use check::Outcome;
pub use command::{Line, Reading, Selection, Serving, read_line};
pub use demo::{demo_answer, first_batch, query, second_batch};
pub use fault::{Fault, Refusal};
pub use files::{BlockFiles, FileName, ReadError, ReadFiles, read_block};
pub use judgement::{Judgement, judge, open};
pub use opening::{open_blocks, open_store};
pub use sending::send;
