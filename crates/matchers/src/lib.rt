//! What is asked of label sets: matchers, and queries of several matchers over a range of times.
//!
//! A [`Matcher`] names a label and says by its [`Op`] and its text which of the label's values it
//! accepts; a label set satisfies it where it accepts the value that the name has there, an
//! absent label counting as the empty text. A [`Tester`] makes the search of a pattern once for
//! many values. [`Selector::parse`] reads the matchers of a text, and a [`Query`] is matchers
//! with a closed range of times. [`MatcherError`], [`SelectorError`] and [`QueryError`] say why
//! one is refused, and [`Limits`] how many matchers and how large patterns are taken.
//!
//! ```
//! let alloc = rt.alloc();
//! let matchers = Selector::parse(alloc, "up{job=~\"a|b\"}")?;
//! assert_eq!(rt; matchers.len(), 2);
//! if let Some(job) = matchers.last() {
//!     assert_eq!(rt; job.accepts(alloc, "b"), Ok(true));
//!     assert_eq!(rt; job.accepts(alloc, "ab"), Ok(false));
//! }
//! ```
//!
//! `specs/Satisfies.antt` says what a matcher accepts, and `specs/Grammar.antt` which texts stand
//! for which matchers, apart from how they are read. It stands on `labels`, and on `regex` for
//! patterns. The operators are those of Prometheus's selectors.
#![tactic(auto)]

mod choices;
mod error;
mod limits;
mod matcher;
mod pattern;
mod query;
mod scanner;
mod selector;
mod tester;

pub use error::{MatcherError, QueryError, SelectorError};
pub use limits::Limits;
pub use matcher::{Matcher, Op};
pub use pattern::MAX_PATTERN_BYTES;
pub use query::{MAX_MATCHERS, Query, is_query_range};
pub use selector::Selector;
pub use tester::Tester;
