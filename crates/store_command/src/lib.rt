//! The words of the program `auditor`, over directories and over the folder of a kept store.
//!
//! [`run_by`] does what the words after the program's name ask for. If they name a store, by
//! `--store DIR`, it judges a reply over its folder: `command` says what the words ask for, `mark`
//! what a mark is, `report` makes the lines, and `fault` says why there are none. With `--mark` it
//! prints the mark of the store. Other words it hands to [`audit_command::run_by`], which audits
//! over directories.
//!
//! ```text
//! --store DIR --selector S [--from N] [--to N] [--since MARK] < REPLY
//! --store DIR --mark
//! ```
//!
//! The folder is read by `kept_folder`, the reply is judged by `store_audit`, and the query, the
//! reply and directories are read by `audit_command`. [`right_replies`] is the law of what the
//! status 0 means, and [`earlier_replies`] of what it means that a reply is from before the mark.
#![tactic(auto)]

mod command;
mod fault;
mod judging;
mod laws;
mod mark;
mod program;
mod report;

pub use command::{Aim, Beside, check_names};
pub use fault::Fault;
pub use judging::read_folder;
pub use laws::{earlier_replies, right_replies};
pub use mark::Mark;
pub use program::run_by;
pub use report::{has_refused, mark_of, refused_lines, walked};
