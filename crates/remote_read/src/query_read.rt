//! Reading a query.

ghost use Rattle.std.specs.Prelude.{◌≡◌, ◌+◌, ◌<◌, ◌≤◌, length, IfOk, IfErr, Ok};
ghost use Rattle.wire.specs.Outcome.{Answers, Gives};
ghost use Rattle.protobuf_fields.specs.Reading.{known_at, message_at, seen, text_len};
ghost use Rattle.remote_write.specs.Reading.{IsWithin, is_memory, or_error};
ghost use Rattle.remote_read.specs.Format.{query_allows};
ghost use Rattle.remote_read.specs.Reading.{query_at, query_seen, query_step};

use crate::hints_read::func_of;
use crate::matcher_read::matcher_of;
use crate::query::Query;
use protobuf_fields::{Fault, Field, field_of};
use remote_write::ReadError;
use std::alloc::Global;

#[inline(always)]
#[tactic(auto, unfolding(protobuf_fields::specs::Reading::known_at))]
fn known_of(bytes: &[u8]) -> Result<(Field<'_>, &[u8]), Fault>
    ensures exact { Answers (λ x. (seen x.0, x.1.now)) result (known_at query_allows bytes.now) }
    ensures shorter { IfOk result (λ x. text_len (seen x.0) + length x.1.now < length bytes.now) }
{
    let (field, rest) = field_of(bytes)?;
    let expected = match field {
        Field::Number(n, _) => (n != 3) & (n != 4),
        Field::Text(n, _) => (n != 1) & (n != 2),
        Field::Eight(n, _) | Field::Four(n, _) => (n == 0) | (n > 4),
    };
    if !expected {
        return Err(Fault::Unexpected);
    }
    Ok((field, rest))
}

#[inline(always)]
#[tactic(auto, unfolding(crate::specs::Reading::query_step))]
fn add_field<'a>(query: &mut Query<'a>, field: Field<'a>) -> Result<(), ReadError>
    ensures exact { Gives is_memory (λ _. query_seen query.new) result
        (or_error (query_step (query_seen query.old) (seen field.entry))) }
    ensures place { IfErr result (IsWithin (text_len (seen field.entry))) }
{
    match field {
        Field::Number(1, start) => {
            query.start = start.cast_signed();
            Ok(())
        }
        Field::Number(2, end) => {
            query.end = end.cast_signed();
            Ok(())
        }
        Field::Text(3, text) => match matcher_of(text) {
            Ok(matcher) => {
                query.matchers.push(matcher)?;
                Ok(())
            }
            Err((fault, left)) => Err(ReadError::Fault(fault, left)),
        },
        Field::Text(4, text) => match func_of(query.func, text) {
            Ok(func) => {
                query.func = func;
                Ok(())
            }
            Err((fault, left)) => Err(ReadError::Fault(fault, left)),
        },
        _ => Ok(()),
    }
}

fn add_query<'a>(query: &mut Query<'a>, bytes: &'a [u8]) -> Result<(), ReadError>
    ensures exact { Gives is_memory (λ _. query_seen query.new) result
        (or_error (message_at query_allows query_step (length bytes.now)
        (query_seen query.old) bytes.now)) }
    ensures place { IfErr result (IsWithin (length bytes.now)) }
{
    let mut rest = bytes;
    for _ in 0..bytes.len() {
        if rest.is_empty() {
            return Ok(());
        }
        let (field, after) = match known_of(rest) {
            Ok(x) => x,
            Err(fault) => return Err(ReadError::Fault(fault, rest.len())),
        };
        match add_field(query, field) {
            Ok(()) => {}
            Err(error) => return Err(error.behind(after.len())),
        }
        rest = after;
    }
    Ok(())
}

/// The query that the bytes are, of which 0 and empty are left out.
#[tactic(auto, unfolding(crate::specs::Reading::query_at))]
pub fn query_of(alloc: Global, bytes: &[u8]) -> Result<Query<'_>, ReadError>
    ensures exact { Gives is_memory query_seen result (or_error (query_at bytes.now)) }
    ensures place { IfErr result (IsWithin (length bytes.now)) }
{
    let mut query = Query {
        start: 0,
        end: 0,
        matchers: Vec::new(alloc),
        func: &[],
    };
    add_query(&mut query, bytes)?;
    Ok(query)
}
