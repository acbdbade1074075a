//! An auditor: it takes a part and what was answered of it, and says that the answer is sound, or
//! its first flaw.
//!
//! [`audit`] says yes exactly where no verdict names a missing matcher (`F7`), the intervals are a
//! valid certificate of the part (`F1`, then in the order of the intervals `F2`, `F3` and `F8`),
//! the separators show that no valid certificate has fewer (`F4`, `F5`), and the rows are those
//! that the query selects (`F6`). [`audit_skip`] says yes exactly where the query selects nothing
//! of the part (`F9`), [`audit_merge`] exactly where rows are those of all that several answers
//! list, the value listed last at each point (`F10`). So a certificate that it accepts is least.
//!
//! A [`Table`] is the part: the library `block_walk` reads it from the files of a block. A
//! [`Reply`] is read by `reply_reader`. [`judge`] gives the lines of a reply over what is known of
//! the blocks: one for each part, in order, one for each block of which the reply says nothing, and
//! last that of the rows.
//!
//! ```
//! let query = Query::new(Selector::parse(alloc, "up").ok()?, 0, 100).ok()?;
//! let text = r#"{"parts":[],"rows":[{"labels":{"job":"a"},"samples":[[10,1]]}]}"#;
//! let reply = Reply::read(alloc, text.as_bytes()).ok()?;
//! let lines = judge(alloc, &[BlockTable::Refused("I9")], &query, reply).ok()?;
//! let told = lines_text(alloc, &lines).ok()?;
//! assert_eq!(rt; told.as_str(), "block 0: refused I9\nrows: F10\n");
//! ```
//!
//! The crate stands on `block_walk` and `reply_reader`, on `labels` and `matchers`, and on the
//! types and definitions of `cover`. It shares no reader of an index, no search, no merge and no
//! walk of certificates with the store whose answers it judges.
#![tactic(auto)]

mod alone;
mod answer;
mod flaw;
mod intervals;
mod judgement;
mod looks;
mod merged;
mod report;
mod rows;
mod separators;
mod skip;

pub use answer::{audit, audit_laws};
pub use block_walk::{Table, WalkError};
pub use flaw::Flaw;
pub use judgement::{BlockTable, Judgement, Line, Subject};
pub use merged::audit_merge;
pub use reply_reader::{Reply, ReplyError, ToldPart, name_law};
pub use report::{judge, lines_text};
pub use skip::audit_skip;
