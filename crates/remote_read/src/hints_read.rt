//! Reading hints, of which the function's name is taken.

ghost use Rattle.std.specs.Prelude.{◌≡◌, ◌<◌, ◌≤◌, length, IfOk, IfErr, Ok};
ghost use Rattle.wire.specs.Outcome.{Answers};
ghost use Rattle.protobuf_fields.specs.Reading.{known_at, seen};
ghost use Rattle.remote_read.specs.Format.{hints_allows};
ghost use Rattle.remote_read.specs.Reading.{hints_at, hints_step};

use protobuf_fields::{Fault, Field, field_of};

#[inline(always)]
#[tactic(auto, unfolding(protobuf_fields::specs::Reading::known_at))]
fn known_of(bytes: &[u8]) -> Result<(Field<'_>, &[u8]), Fault>
    ensures exact { Answers (λ x. (seen x.0, x.1.now)) result (known_at hints_allows bytes.now) }
    ensures shorter { IfOk result (λ x. length x.1.now < length bytes.now) }
{
    let (field, rest) = field_of(bytes)?;
    match field {
        Field::Text(_, _) => {}
        Field::Number(n, _) | Field::Eight(n, _) | Field::Four(n, _) => {
            if n == 2 {
                return Err(Fault::Unexpected);
            }
        }
    }
    Ok((field, rest))
}

#[inline(always)]
fn with_field<'a>(func: &'a [u8], field: Field<'a>) -> &'a [u8]
    ensures { hints_step func.now (seen field.entry) ≡ Ok result.now }
{
    match field {
        Field::Text(2, named) => named,
        _ => func,
    }
}

/// The function that the hints name, or `func` where they name none.
pub fn func_of<'a>(func: &'a [u8], bytes: &'a [u8]) -> Result<&'a [u8], (Fault, usize)>
    ensures exact { Answers (λ f. f.now) result (hints_at func.now bytes.now) }
    ensures place { IfErr result (λ e. e.1 ≤ length bytes.now) }
{
    let mut named = func;
    let mut rest = bytes;
    for _ in 0..bytes.len() {
        if rest.is_empty() {
            return Ok(named);
        }
        let (field, after) = match known_of(rest) {
            Ok(x) => x,
            Err(fault) => return Err((fault, rest.len())),
        };
        named = with_field(named, field);
        rest = after;
    }
    Ok(named)
}
