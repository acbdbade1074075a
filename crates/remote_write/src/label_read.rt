//! Reading a label.

ghost use Rattle.std.specs.Prelude.{◌≡◌, ◌<◌, ◌≤◌, length, IfOk, IfErr, Ok};
ghost use Rattle.wire.specs.Outcome.{Answers};
ghost use Rattle.protobuf_fields.specs.Reading.{known_at, seen};
ghost use Rattle.remote_write.specs.Format.{label_allows};
ghost use Rattle.remote_write.specs.Reading.{label_at, label_seen, label_step};

use crate::label::Label;
use protobuf_fields::{Fault, Field, field_of};

#[inline(always)]
#[tactic(auto, unfolding(protobuf_fields::specs::Reading::known_at))]
fn known_of(bytes: &[u8]) -> Result<(Field<'_>, &[u8]), Fault>
    ensures exact { Answers (λ x. (seen x.0, x.1.now)) result (known_at label_allows bytes.now) }
    ensures shorter { IfOk result (λ x. length x.1.now < length bytes.now) }
{
    let (field, rest) = field_of(bytes)?;
    match field {
        Field::Text(_, _) => {}
        Field::Number(n, _) | Field::Eight(n, _) | Field::Four(n, _) => {
            let known = (n == 1) | (n == 2);
            if known {
                return Err(Fault::Unexpected);
            }
        }
    }
    Ok((field, rest))
}

#[inline(always)]
fn with_field<'a>(label: Label<'a>, field: Field<'a>) -> Label<'a>
    ensures { label_step (label_seen label.entry) (seen field.entry) ≡ Ok (label_seen result) }
{
    match field {
        Field::Text(1, name) => Label {
            name,
            value: label.value,
        },
        Field::Text(2, value) => Label {
            name: label.name,
            value,
        },
        _ => label,
    }
}

/// The label that the bytes are.
pub fn label_of(bytes: &[u8]) -> Result<Label<'_>, (Fault, usize)>
    ensures exact { Answers label_seen result (label_at bytes.now) }
    ensures place { IfErr result (λ e. e.1 ≤ length bytes.now) }
{
    let mut label = Label {
        name: &[],
        value: &[],
    };
    let mut rest = bytes;
    for _ in 0..bytes.len() {
        if rest.is_empty() {
            return Ok(label);
        }
        let (field, after) = match known_of(rest) {
            Ok(x) => x,
            Err(fault) => return Err((fault, rest.len())),
        };
        label = with_field(label, field);
        rest = after;
    }
    Ok(label)
}
