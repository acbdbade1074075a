//! Reading a matcher.

ghost use Rattle.std.specs.Prelude.{◌≡◌, ◌<◌, ◌≤◌, length, IfOk, IfErr, Ok};
ghost use Rattle.wire.specs.Outcome.{Answers};
ghost use Rattle.protobuf_fields.specs.Reading.{known_at, seen};
ghost use Rattle.remote_read.specs.Format.{matcher_allows};
ghost use Rattle.remote_read.specs.Reading.{matcher_at, matcher_seen, matcher_step};

use crate::matcher::Matcher;
use protobuf_fields::{Fault, Field, field_of};

#[inline(always)]
#[tactic(auto, unfolding(protobuf_fields::specs::Reading::known_at))]
fn known_of(bytes: &[u8]) -> Result<(Field<'_>, &[u8]), Fault>
    ensures exact { Answers (λ x. (seen x.0, x.1.now)) result (known_at matcher_allows bytes.now) }
    ensures shorter { IfOk result (λ x. length x.1.now < length bytes.now) }
{
    let (field, rest) = field_of(bytes)?;
    let expected = match field {
        Field::Number(n, _) => (n != 2) & (n != 3),
        Field::Text(n, _) => n != 1,
        Field::Eight(n, _) | Field::Four(n, _) => (n != 1) & (n != 2) & (n != 3),
    };
    if !expected {
        return Err(Fault::Unexpected);
    }
    Ok((field, rest))
}

#[inline(always)]
fn with_field<'a>(matcher: Matcher<'a>, field: Field<'a>) -> Matcher<'a>
    ensures { matcher_step (matcher_seen matcher.entry) (seen field.entry)
        ≡ Ok (matcher_seen result) }
{
    match field {
        Field::Number(1, kind) => Matcher { kind, ..matcher },
        Field::Text(2, name) => Matcher { name, ..matcher },
        Field::Text(3, value) => Matcher { value, ..matcher },
        _ => matcher,
    }
}

/// The matcher that the bytes are.
pub fn matcher_of(bytes: &[u8]) -> Result<Matcher<'_>, (Fault, usize)>
    ensures exact { Answers matcher_seen result (matcher_at bytes.now) }
    ensures place { IfErr result (λ e. e.1 ≤ length bytes.now) }
{
    let mut matcher = Matcher {
        kind: 0,
        name: &[],
        value: &[],
    };
    let mut rest = bytes;
    for _ in 0..bytes.len() {
        if rest.is_empty() {
            return Ok(matcher);
        }
        let (field, after) = match known_of(rest) {
            Ok(x) => x,
            Err(fault) => return Err((fault, rest.len())),
        };
        matcher = with_field(matcher, field);
        rest = after;
    }
    Ok(matcher)
}
