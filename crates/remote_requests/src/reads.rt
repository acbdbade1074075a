//! The body of a read.

ghost use Rattle.std.specs.Prelude.{◌≡◌, ◌≤◌, length, map, MatchResult};
ghost use Rattle.std.specs.List.{AllZip};
ghost use Rattle.remote_read.specs.Reading.{matcher_seen, query_seen};
ghost use Rattle.remote_requests.specs.Writing.{Told};
ghost use Rattle.remote_requests.specs.Queries.{op_of, query_over};
ghost use Rattle.remote_requests.specs.Queries.{IsMatcherOf, IsMatcherFault, HasMatcherFault};
ghost use Rattle.remote_requests.specs.Queries.{IsReadingOf, IsQueryFault, HasQueryFault};
ghost use Rattle.remote_requests.specs.NoQueries.{OrMemory};
ghost use Rattle.remote_requests.specs.Reading.{ReadMeans};

use crate::body::{misspelled, unpacked};
use crate::{Asked, QueryFault, ReadError, Reading, Refusal};
use asked_times::{first_time, last_time};
use matchers::{Limits, Matcher, MatcherError, Op, Query};
use remote_read::read_queries;
use std::alloc::{AllocError, AllocFailed, Global};

/// The most bytes of the text of a read.
const MAX_TEXT: usize = 1_048_576;

/// The most queries of a read.
const MAX_QUERIES: usize = 64;

/// The most matchers of a query.
const MAX_MATCHERS: usize = 64;

/// Why no query was made.
pub enum NoQuery {
    Memory,
    Fault(QueryFault),
}

impl From<AllocError> for NoQuery {
    ghost use Rattle.std.specs.Prelude.{◌≡◌};
    ghost use Rattle.remote_requests.specs.declared.reads.NoQuery.TheVariants.{Memory};

    ghost from_gives = { λ _ e. e ≡ Memory };

    fn from(_: AllocError) -> NoQuery {
        NoQuery::Memory
    }
}

impl<T: Drop> From<AllocFailed<T>> for NoQuery {
    ghost use Rattle.std.specs.Prelude.{◌≡◌};
    ghost use Rattle.remote_requests.specs.declared.reads.NoQuery.TheVariants.{Memory};

    ghost from_gives = { λ _ e. e ≡ Memory };

    fn from(_: AllocFailed<T>) -> NoQuery {
        NoQuery::Memory
    }
}

fn op_of(kind: u64) -> Option<Op>
    ensures { result ≡ op_of kind }
{
    match kind {
        0 => Some(Op::Equal),
        1 => Some(Op::NotEqual),
        2 => Some(Op::Like),
        3 => Some(Op::NotLike),
        _ => None,
    }
}

/// The matcher of the store that was sent.
fn matcher_of(alloc: Global, sent: &remote_read::Matcher<'_>) -> Result<Matcher, NoQuery>
    ensures { MatchResult result (IsMatcherOf (matcher_seen sent.now))
        (OrMemory (IsMatcherFault (matcher_seen sent.now))) }
{
    let Some(op) = op_of(sent.kind) else {
        return Err(NoQuery::Fault(QueryFault::Kind));
    };
    let Ok(name) = simdutf8::compat::from_utf8(sent.name) else {
        return Err(NoQuery::Fault(QueryFault::BadText));
    };
    let Ok(text) = simdutf8::compat::from_utf8(sent.value) else {
        return Err(NoQuery::Fault(QueryFault::BadText));
    };
    let name = String::from_str(alloc, name)?;
    let text = String::from_str(alloc, text)?;
    match Matcher::within(alloc, Limits::Long, name, op, text) {
        Ok(matcher) => Ok(matcher),
        Err(MatcherError::BadName) => Err(NoQuery::Fault(QueryFault::BadName)),
        Err(MatcherError::PatternTooLong) => Err(NoQuery::Fault(QueryFault::PatternTooLong)),
        Err(MatcherError::PatternRefused) => Err(NoQuery::Fault(QueryFault::PatternRefused)),
        Err(MatcherError::Memory) => Err(NoQuery::Memory),
    }
}

fn matchers_of(alloc: Global, sent: &[remote_read::Matcher<'_>]) -> Result<Vec<Matcher>, NoQuery>
    ensures { MatchResult result
        (λ v. AllZip IsMatcherOf (map matcher_seen sent.now) v.items)
        (OrMemory (HasMatcherFault (map matcher_seen sent.now))) }
{
    let mut matchers = Vec::with_capacity(alloc, sent.len())?;
    for matcher in sent {
        matchers.push(matcher_of(alloc, matcher)?)?;
    }
    Ok(matchers)
}

/// The query of these matchers over the times of the store in a range, if it has one.
pub fn query_over(matchers: Vec<Matcher>, start: i64, end: i64) -> Option<Query>
    requires { length matchers.items ≤ 64 }
    ensures { result ≡ query_over matchers.items start end }
{
    let from = first_time(start);
    let to = last_time(end);
    if to < from {
        return None;
    }
    match Query::within(Limits::Long, matchers, from, to) {
        Ok(query) => Some(query),
        // The range is one, and the matchers are at most 64.
        Err(_) => None,
    }
}

fn reading_of(alloc: Global, sent: &remote_read::Query<'_>) -> Result<Reading, NoQuery>
    ensures { MatchResult result (IsReadingOf (query_seen sent.now))
        (OrMemory (IsQueryFault (query_seen sent.now))) }
{
    if sent.matchers.len() > MAX_MATCHERS {
        return Err(NoQuery::Fault(QueryFault::TooMany));
    }
    let matchers = matchers_of(alloc, sent.matchers.as_slice())?;
    Ok(Reading {
        query: query_over(matchers, sent.start, sent.end),
        names_alone: sent.func == b"series".as_slice(),
    })
}

fn readings_of(alloc: Global, sent: &[remote_read::Query<'_>]) -> Result<Vec<Reading>, NoQuery>
    ensures { MatchResult result
        (λ v. AllZip IsReadingOf (map query_seen sent.now) v.items)
        (OrMemory (HasQueryFault (map query_seen sent.now))) }
{
    let mut readings = Vec::with_capacity(alloc, sent.len())?;
    for query in sent {
        readings.push(reading_of(alloc, query)?)?;
    }
    Ok(readings)
}

/// What the body of a read asks: `G6`, then `G7`, then `G8`.
pub fn read(alloc: Global, body: &[u8]) -> Result<Asked, ReadError>
    ensures { Told (ReadMeans body.now) result }
{
    let text = unpacked(alloc, body, MAX_TEXT)?;
    let all = match read_queries(alloc, text.as_slice()) {
        Ok(all) => all,
        Err(error) => return Err(misspelled(error)),
    };
    if all.len() > MAX_QUERIES {
        return Err(ReadError::Refused(Refusal::TooMany));
    }
    match readings_of(alloc, all.as_slice()) {
        Ok(readings) => Ok(Asked::Read(readings)),
        Err(NoQuery::Memory) => Err(ReadError::Memory),
        Err(NoQuery::Fault(why)) => Err(ReadError::Refused(Refusal::BadQuery(why))),
    }
}
