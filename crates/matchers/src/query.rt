//! Queries.

ghost use Rattle.std.specs.Prelude.{◌≡◌, ◌↔◌, ◌<◌, ◌≤◌, true, false, length, IfOk, IsErrOf};
ghost use Rattle.matchers.specs.Limits.{most_matchers};
ghost use Rattle.matchers.specs.Queries.{is_query_range};

use crate::{Limits, Matcher, QueryError};
use labels::{MAX_TIME, MIN_TIME};
use std::marker::Model;

/// The most matchers of a query within the shorter limits.
pub const MAX_MATCHERS: usize = 16;

/// Matchers, and a closed range of times.
#[derive(Drop)]
pub struct Query {
    matchers: Vec<Matcher>,
    from: i64,
    to: i64,
}

impl Model for Query {
    ghost use Rattle.std.specs.Prelude.{◌≡◌, ◌≤◌, length, true};
    ghost use Rattle.matchers.specs.Views.{QueryView};

    ghost Value = { QueryView };

    ghost use Rattle.matchers.specs.Queries.{is_query_range};

    ghost view = { λ q. record { matchers = q.matchers.items; from = q.from; to = q.to } };

    ghost invariant = { λ q. (is_query_range q.from q.to ≡ true) × (length q.matchers.items ≤ 64) };
}

/// Whether both ends are in [`MIN_TIME`] to [`MAX_TIME`], and the first is not above the second.
pub fn is_query_range(from: i64, to: i64) -> bool
    ensures { result ≡ is_query_range from to }
{
    MIN_TIME <= from && from <= to && to <= MAX_TIME
}

impl Query {
    /// The query of these matchers from one time to another, both ends in the range, in
    /// milliseconds.
    ///
    /// `Q1` where the range ends before it begins or one end is not in [`MIN_TIME`] to
    /// [`MAX_TIME`], then `Q2` where there are more than [`MAX_MATCHERS`] matchers.
    pub fn new(matchers: Vec<Matcher>, from: i64, to: i64) -> Result<Query, QueryError>
        ensures ok { IfOk result (λ q.
            q ≡ record { matchers = matchers.items; from = from; to = to }) }
        ensures bad_range { IsErrOf result QueryError.BadRange ↔ (is_query_range from to ≡ false) }
        ensures too_many { IsErrOf result QueryError.TooManyMatchers
            ↔ ((is_query_range from to ≡ true) × (16 < length matchers.items)) }
    {
        Query::within(Limits::Short, matchers, from, to)
    }

    /// The same, with `Q2` where there are more matchers than these limits allow.
    pub fn within(
        limits: Limits,
        matchers: Vec<Matcher>,
        from: i64,
        to: i64,
    ) -> Result<Query, QueryError>
        ensures ok { IfOk result (λ q.
            q ≡ record { matchers = matchers.items; from = from; to = to }) }
        ensures bad_range { IsErrOf result QueryError.BadRange ↔ (is_query_range from to ≡ false) }
        ensures too_many { IsErrOf result QueryError.TooManyMatchers
            ↔ ((is_query_range from to ≡ true)
            × (most_matchers limits < length matchers.items)) }
    {
        if !is_query_range(from, to) {
            return Err(QueryError::BadRange);
        }
        if matchers.len() > limits.most_matchers() {
            return Err(QueryError::TooManyMatchers);
        }
        Ok(Query { matchers, from, to })
    }

    /// The matchers, at most 64.
    pub fn matchers(&self) -> &[Matcher]
        ensures items { result.now ≡ self.now.matchers }
        ensures few { length self.now.matchers ≤ 64 }
    {
        self.matchers.as_slice()
    }

    /// The first time of the range, in milliseconds.
    pub fn from(&self) -> i64
        ensures value { result ≡ self.now.from }
        ensures range { is_query_range self.now.from self.now.to ≡ true }
    {
        self.from
    }

    /// The last time of the range, in milliseconds.
    pub fn to(&self) -> i64
        ensures { result ≡ self.now.to }
    {
        self.to
    }
}
