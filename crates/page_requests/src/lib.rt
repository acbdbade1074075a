//! What the query string of `/page` asks.
//!
//! [`read_question`] reads a [`Question`]: a selector, a range of times, and a series that somebody
//! asks about; or it gives the first [`Refusal`], as `/select` of the first port decides it. A time
//! is a number of milliseconds. `from`, `to` and `about` may be left out, or be empty, as a form of
//! a browser sends them: then all times are asked for, and no series is asked about.
//!
//! ```
//! let question = read_question(alloc, b"selector=up&from=&to=20&about=up%7Bjob%3D%22b%22%7D")?;
//! assert_eq!(rt; (question.selector.as_str(), question.query.to()), ("up", 20));
//! let refused = read_question(alloc, b"selector=up&selector=up").err();
//! assert_eq!(rt; refused, Some(QuestionError::Refused(Refusal::BadQuery)));
//! ```
//!
//! It stands on `labels` and `matchers`, on `asked_series`, on the definitions of `requests`, and
//! on `form_urlencoded`.
#![tactic(auto)]

mod fields;
mod form;
mod question;
mod refusal;
mod times;

pub use question::{Question, QuestionError, read_question};
pub use refusal::Refusal;
