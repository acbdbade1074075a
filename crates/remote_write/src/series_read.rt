//! Reading a series.

ghost use Rattle.std.specs.Prelude.{◌≡◌, ◌+◌, ◌<◌, ◌≤◌, ◌^◌, length, IfOk, IfErr, Ok};
ghost use Rattle.wire.specs.Outcome.{Answers, Gives};
ghost use Rattle.protobuf_fields.specs.Reading.{known_at, message_at, seen, text_len};
ghost use Rattle.remote_write.specs.Format.{series_allows};
ghost use Rattle.remote_write.specs.Reading.{IsWithin, is_memory, or_error};
ghost use Rattle.remote_write.specs.Reading.{series_seen, series_step};

use crate::error::ReadError;
use crate::label_read::label_of;
use crate::sample_read::sample_of;
use crate::series::Series;
use protobuf_fields::{Fault, Field, field_of};

#[inline(always)]
#[tactic(auto, unfolding(protobuf_fields::specs::Reading::known_at))]
fn known_of(bytes: &[u8]) -> Result<(Field<'_>, &[u8]), Fault>
    ensures exact { Answers (λ x. (seen x.0, x.1.now)) result (known_at series_allows bytes.now) }
    ensures shorter { IfOk result (λ x. text_len (seen x.0) + length x.1.now < length bytes.now) }
{
    let (field, rest) = field_of(bytes)?;
    match field {
        Field::Text(_, _) => {}
        Field::Number(n, _) | Field::Eight(n, _) | Field::Four(n, _) => {
            let known = (n == 1) | (n == 2) | (n == 4);
            if known {
                return Err(Fault::Unexpected);
            }
        }
    }
    Ok((field, rest))
}

#[inline(always)]
#[tactic(auto, unfolding(crate::specs::Reading::series_step))]
fn add_field<'a>(series: &mut Series<'a>, field: Field<'a>) -> Result<(), ReadError>
    requires { series.old.histograms + 1 < 2 ^ 64 }
    ensures exact { Gives is_memory (λ _. series_seen series.new) result
        (or_error (series_step (series_seen series.old) (seen field.entry))) }
    ensures place { IfErr result (IsWithin (text_len (seen field.entry))) }
    ensures count { series.new.histograms ≤ series.old.histograms + 1 }
{
    match field {
        Field::Text(1, text) => match label_of(text) {
            Ok(label) => {
                series.labels.push(label)?;
                Ok(())
            }
            Err((fault, left)) => Err(ReadError::Fault(fault, left)),
        },
        Field::Text(2, text) => match sample_of(text) {
            Ok(sample) => {
                series.samples.push(sample)?;
                Ok(())
            }
            Err((fault, left)) => Err(ReadError::Fault(fault, left)),
        },
        Field::Text(4, _) => {
            series.histograms += 1;
            Ok(())
        }
        _ => Ok(()),
    }
}

/// Adds the labels and the samples of the series that the bytes are, and counts its histograms.
pub fn add_series<'a>(series: &mut Series<'a>, bytes: &'a [u8]) -> Result<(), ReadError>
    requires { series.old.histograms + length bytes.now < 2 ^ 64 }
    ensures exact { Gives is_memory (λ _. series_seen series.new) result
        (or_error (message_at series_allows series_step (length bytes.now)
        (series_seen series.old) bytes.now)) }
    ensures place { IfErr result (IsWithin (length bytes.now)) }
{
    let mut rest = bytes;
    for _ in 0..bytes.len() {
        if rest.is_empty() {
            return Ok(());
        }
        let (field, after) = match known_of(rest) {
            Ok(x) => x,
            Err(fault) => return Err(ReadError::Fault(fault, rest.len())),
        };
        match add_field(series, field) {
            Ok(()) => {}
            Err(error) => return Err(error.behind(after.len())),
        }
        rest = after;
    }
    Ok(())
}
