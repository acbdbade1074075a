//! What the program `auditor` does: it reads a reply and the files of blocks, and says whether the
//! reply is right. It shares no index reader, search or merge with the store that sent it.
//!
//! [`run`] does what the words after the program's name ask for, over files, a reader and two
//! writers: `--selector S [--from N] [--to N] [DIR]...` has it write a line for each part of the
//! reply, for each block that no part names, and for the rows of all. `command` says what the
//! words ask for, `input` reads the reply, `files` the files in a directory, and `tables` what is
//! known of their blocks; `report` makes the lines, and `fault` says why there are none. [`run_by`]
//! does the same, and has several threads walk each block. The audit itself is the library
//! `auditor`, whose definitions say what each line means.
//!
//! ```
//! let words = [String::from_str(alloc, "--selector=up")?];
//! let mut reply = br#"{"parts":[],"rows":[]}"#.as_slice();
//! let mut out: Vec<u8> = Vec::new(alloc);
//! let mut err: Vec<u8> = Vec::new(alloc);
//! let ending = run(alloc, &rt, &words, &mut reply, &mut out, &mut err);
//! assert_eq!(rt; (ending.status, err.len()), (0, 0));
//! assert_eq!(rt; out.as_slice(), b"rows: valid\n".as_slice());
//! ```
//!
//! Programs that ask the same of a reply take their words, their query, the reply and the blocks
//! from here: [`with_query`], [`with_arguments`] and [`asked_in`], [`query_of`], [`reply_in`], or
//! [`all_of`] and [`reply_of`], and [`tables_at`] or, by several threads,
//! [`tables_by`]; and they
//! end alike, by [`send`] and an [`Ending`].
//!
//! It stands on `auditor`, on `labels` and `matchers` for times and queries, and on `clap` for
//! words.
#![tactic(auto)]

mod command;
mod fault;
mod files;
mod input;
mod program;
mod report;
mod tables;
mod walking;

pub use command::{Asked, asked_in, with_arguments, with_query};
pub use fault::{Fault, Refusal};
pub use files::{BlockFiles, ReadError, ReadFiles};
pub use input::{all_of, reply_in, reply_of};
pub use program::{Ending, run, run_by, send};
pub use report::query_of;
pub use tables::{tables_at, tables_by};
pub use walking::{OneThread, Walker, Workers};
