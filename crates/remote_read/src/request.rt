//! All queries of a body.

ghost use Rattle.std.specs.Prelude.{◌≡◌, ◌+◌, ◌<◌, length, map, List, IfOk, IfErr, Ok};
ghost use Rattle.wire.specs.Outcome.{Answers, Gives};
ghost use Rattle.protobuf_fields.specs.Reading.{known_at, seen, text_len};
ghost use Rattle.remote_write.specs.Reading.{IsWithin, is_memory, or_error};
ghost use Rattle.remote_read.specs.Format.{IsRequest, QueryValue, request_allows};
ghost use Rattle.remote_read.specs.Reading.{query_seen, request_at, request_step};

use crate::query::Query;
use crate::query_read::query_of;
use protobuf_fields::{Fault, Field, field_of};
use remote_write::ReadError;
use std::alloc::Global;

#[inline(always)]
#[tactic(auto, unfolding(protobuf_fields::specs::Reading::known_at))]
fn known_of(bytes: &[u8]) -> Result<(Field<'_>, &[u8]), Fault>
    ensures exact { Answers (λ x. (seen x.0, x.1.now)) result (known_at request_allows bytes.now) }
    ensures shorter { IfOk result (λ x. text_len (seen x.0) + length x.1.now < length bytes.now) }
{
    let (field, rest) = field_of(bytes)?;
    match field {
        Field::Text(_, _) => {}
        Field::Number(n, _) | Field::Eight(n, _) | Field::Four(n, _) => {
            if n == 1 {
                return Err(Fault::Unexpected);
            }
        }
    }
    Ok((field, rest))
}

#[tactic(auto, unfolding(crate::specs::Reading::request_step))]
fn add_field<'a>(alloc: Global, all: &mut Vec<Query<'a>>, field: Field<'a>) -> Result<(), ReadError>
    ensures exact { Gives is_memory (λ _. map query_seen all.new.items) result
        (or_error (request_step (map query_seen all.old.items) (seen field.entry))) }
    ensures place { IfErr result (IsWithin (text_len (seen field.entry))) }
{
    match field {
        Field::Text(1, text) => {
            let query = query_of(alloc, text)?;
            all.push(query)?;
            Ok(())
        }
        _ => Ok(()),
    }
}

#[tactic(auto, unfolding(crate::specs::Reading::request_at))]
fn all_queries(alloc: Global, bytes: &[u8]) -> Result<Vec<Query<'_>>, ReadError>
    ensures { Gives is_memory (λ v. map query_seen v.items) result
        (or_error (request_at bytes.now)) }
{
    let mut all = Vec::new(alloc);
    let mut rest = bytes;
    for _ in 0..bytes.len() {
        if rest.is_empty() {
            return Ok(all);
        }
        let (field, after) = match known_of(rest) {
            Ok(x) => x,
            Err(fault) => return Err(ReadError::Fault(fault, rest.len())),
        };
        match add_field(alloc, &mut all, field) {
            Ok(()) => {}
            Err(error) => return Err(error.behind(after.len())),
        }
        rest = after;
    }
    Ok(all)
}

/// All queries of a body of remote read, in its order. One step a byte.
pub fn read_queries(alloc: Global, bytes: &[u8]) -> Result<Vec<Query<'_>>, ReadError>
    // The queries, or the first fault and its place.
    ensures exact { Gives is_memory (λ v. map query_seen v.items) result
        (or_error (request_at bytes.now)) }
    // What is given is what the bytes mean.
    ensures found { IfOk result (λ v. IsRequest bytes.now (map query_seen v.items)) }
    // Bytes that are a body are read, unless memory runs out.
    ensures only { (all : List QueryValue) → IsRequest bytes.now all
        → Gives {Y = List QueryValue} is_memory (λ v. map query_seen v.items) result (Ok all) }
{
    all_queries(alloc, bytes)
}
