//! A whole audit: a reply is held against one state of a store, its blocks and its head.
//!
//! [`audit_whole`] says yes exactly where the reply says something of each block, in order, and of
//! the head, once; where all of it is right; and where the rows are those that the query selects of
//! the content of all parts together. A part is a [`Table`](auditor::Table): a block's as its files
//! spell it, and that of a head with its series numbered from 1, in the order of their creation.
//! [`state_lines`] gives the lines, as `block 0: valid`; by the law of [`lines_laws`] they are all
//! right exactly where `audit_whole` says yes. [`grade_of`] is what is said of one part, with the
//! flaws of `auditor` in its order. There is one flaw more: `F11`, where the parts of the
//! reply are not those of the state ([`are_named`]).
//!
//! A block whose numbers were others when it was asked is not refused: [`is_explained`] says
//! whether an answer is right of the block's samples, whatever references the series had, and its
//! line says `valid, numbered otherwise`. By the law of [`explaining_laws`] each right answer is
//! explained.
//!
//! A head grows from batch to batch. [`has_all_shown`] says whether it has all that an answer
//! shows. By the laws of [`showing_laws`] the first head that has all decides: if the answer is
//! sound of a later one, it is sound of that one.
//!
//! ```
//! let query = Query::new(Selector::parse(alloc, "up").ok()?, 0, 100).ok()?;
//! let head = Table::of_series(Vec::new(alloc));
//! let text = r#"{"parts":[],"rows":[]}"#;
//! let reply = Reply::read(alloc, text.as_bytes()).ok()?;
//! let lines = state_lines(alloc, &[], &head, &query, reply).ok()?;
//! let told = format!(in alloc; "{}, {}", lines[0], lines[1]).ok()?;
//! assert_eq!(rt; told.as_str(), "head: skipped, parts: F11");
//! ```
//!
//! The crate stands on `auditor` and what that stands on. It shares no search and no merge with the
//! store whose replies it judges.
#![tactic(auto)]

mod explaining;
mod grade;
mod lines;
mod looks;
mod references;
mod selection;
mod showing;
mod wholes;

pub use explaining::{explaining_laws, is_explained};
pub use grade::{Grade, grade_of};
pub use lines::{StateLine, StateSubject, lines_laws, state_lines};
pub use showing::{has_all_shown, showing_laws};
pub use wholes::{are_named, are_right, are_right_blocks, audit_whole};
