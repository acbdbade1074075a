//! Reading a sample.

ghost use Rattle.std.specs.Prelude.{◌≡◌, ◌<◌, ◌≤◌, length, IfOk, IfErr, Ok};
ghost use Rattle.wire.specs.Outcome.{Answers};
ghost use Rattle.protobuf_fields.specs.Reading.{known_at, seen};
ghost use Rattle.remote_write.specs.Format.{sample_allows};
ghost use Rattle.remote_write.specs.Reading.{sample_at, sample_seen, sample_step};

use crate::sample::Sample;
use protobuf_fields::{Fault, Field, field_of};

#[inline(always)]
#[tactic(auto, unfolding(protobuf_fields::specs::Reading::known_at))]
fn known_of(bytes: &[u8]) -> Result<(Field<'_>, &[u8]), Fault>
    ensures exact { Answers (λ x. (seen x.0, x.1.now)) result (known_at sample_allows bytes.now) }
    ensures shorter { IfOk result (λ x. length x.1.now < length bytes.now) }
{
    let (field, rest) = field_of(bytes)?;
    let expected = match field {
        Field::Number(n, _) => n != 1,
        Field::Eight(n, _) => n != 2,
        Field::Text(n, _) | Field::Four(n, _) => (n != 1) & (n != 2),
    };
    if !expected {
        return Err(Fault::Unexpected);
    }
    Ok((field, rest))
}

#[inline(always)]
fn with_field(sample: Sample, field: Field<'_>) -> Sample
    ensures { sample_step (sample_seen sample) (seen field.entry) ≡ Ok (sample_seen result) }
{
    match field {
        Field::Number(2, value) => Sample {
            time: value.cast_signed(),
            value: sample.value,
        },
        Field::Eight(1, value) => Sample {
            time: sample.time,
            value,
        },
        _ => sample,
    }
}

/// The sample that the bytes are.
pub fn sample_of(bytes: &[u8]) -> Result<Sample, (Fault, usize)>
    ensures exact { Answers sample_seen result (sample_at bytes.now) }
    ensures place { IfErr result (λ e. e.1 ≤ length bytes.now) }
{
    let mut sample = Sample { time: 0, value: 0 };
    let mut rest = bytes;
    for _ in 0..bytes.len() {
        if rest.is_empty() {
            return Ok(sample);
        }
        let (field, after) = match known_of(rest) {
            Ok(x) => x,
            Err(fault) => return Err((fault, rest.len())),
        };
        sample = with_field(sample, field);
        rest = after;
    }
    Ok(sample)
}
