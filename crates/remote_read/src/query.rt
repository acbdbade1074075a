//! A query, where it stands.

use crate::matcher::Matcher;

/// A query: the first and the last time in milliseconds, both in the range, its matchers in the
/// order of the message, and the function of its hints. The range is the query's: that of the
/// hints, which may be wider, is not read. The function is empty if none is named; `series` says
/// that label sets are wanted and no samples.
#[derive(Drop)]
pub struct Query<'a> {
    pub start: i64,
    pub end: i64,
    pub matchers: Vec<Matcher<'a>>,
    pub func: &'a [u8],
}
