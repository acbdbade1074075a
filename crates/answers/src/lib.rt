//! The audited answer to a query, and its text.
//!
//! An [`AuditedAnswer`] says of each part of a snapshot ([`AnsweredPart`]) what it answers, or that
//! the query skips it. It has the rows of all parts: exactly the rows of the snapshot's content
//! restricted to the matchers and the range. [`answer`] gives the answer of a snapshot. [`ask`]
//! puts a query to a store that others change meanwhile. Its answer is that of the next snapshot of
//! a pass, after all events that the pass had seen or whose receipts it had learnt. [`body`] is the
//! text of an answer, as compact JSON, byte for byte. [`answer_text`] keeps it so that rows that it
//! has twice are in memory once. [`room_to_ask`] tells about how much memory an answer takes,
//! before it is made.
//!
//! Of a `snapshot` whose head has one sample, 1 at time 10, of the series `up`:
//!
//! ```
//! let query = Query::new(Selector::parse(alloc, "up").ok()?, 0, 20).ok()?;
//! let found = answer(alloc, snapshot, &query).ok()?;
//! assert_eq!(rt; (found.parts().len(), found.rows().len()), (1, 1));
//! let text = body(alloc, found.parts(), found.rows()).ok()?;
//! let end = br#""rows":[{"labels":{"__name__":"up"},"samples":[[10,1]]}]}"#;
//! assert!(rt; text.ends_with(end));
//! ```
#![tactic(auto)]

mod audited;
mod body_text;
mod brackets;
mod error;
mod headline;
mod number;
mod part_pieces;
mod parts;
mod pieces;
mod room;
mod rows;
mod samples;
mod strings;
mod text_pieces;
mod told;
mod unescaped;

pub use audited::{AuditedAnswer, answer, answer_by_workers, answer_in_turn};
pub use block_search::AnsweredPart;
pub use body_text::{Rooms, answer_text, append_text, body, length_of};
pub use error::AskError;
pub use headline::{ask, ask_by};
pub use room::{room_of_answer, room_to_ask};
pub use text_pieces::AnswerText;
