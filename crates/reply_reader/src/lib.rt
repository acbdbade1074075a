//! Replies: what a store says of each part, and the rows of all, read from a reply's JSON.
//!
//! [`Reply::read`] reads a whole reply: it is `Ok` exactly where the text is JSON of a reply's
//! shape, and then the reply is what it says. A [`ToldPart`] is what it says of one part. A reply
//! that is spelled as usual is read token by token, any other by the tree of its values.
//!
//! ```
//! let text = r#"{"parts":[{"part":"block 0","skipped":true}],"rows":[]}"#;
//! let reply = Reply::read(alloc, text.as_bytes()).ok()?;
//! assert_eq!(rt; (reply.parts.len(), reply.rows.len()), (1, 0));
//!
//! let bad = Reply::read(alloc, b"{}");
//! assert!(rt; matches!(bad, Err(ReplyError::BadReply)));
//! ```
//!
//! The crate stands on `labels`, on `postings` and `cover` for the types of an answer, and on
//! `json`, `fast_float`, `simdutf8` and `serde_json`.
#![tactic(auto)]

mod reading;
mod reply;
mod usual;

pub use reading::name_law;
pub use reply::{Reply, ReplyError, ToldPart};
