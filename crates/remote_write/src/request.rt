//! Reading a body, a series at a time.

ghost use Rattle.std.specs.Prelude.{◌≡◌, ◌+◌, ◌<◌, ◌++◌, ◌∷◌, [], List, length, map};
ghost use Rattle.std.specs.Prelude.{IfOk, Ok, MatchOption, MatchResult};
ghost use Rattle.wire.specs.Outcome.{Answers, Fails, Gives};
ghost use Rattle.protobuf_fields.specs.Reading.{known_at, seen, text_len};
ghost use Rattle.protobuf_fields.specs.Format.{Text};
ghost use Rattle.remote_write.specs.Format.{request_allows, IsRequest, SeriesValue};
ghost use Rattle.remote_write.specs.Reading.{IsSkipped, is_memory, or_error, request_at};
ghost use Rattle.remote_write.specs.Reading.{request_from, series_seen};

use crate::error::ReadError;
use crate::series::Series;
use crate::series_read::add_series;
use protobuf_fields::{Fault, Field, field_of};
use std::alloc::Global;

#[inline(always)]
#[tactic(auto, unfolding(protobuf_fields::specs::Reading::known_at))]
fn known_of(bytes: &[u8]) -> Result<(Field<'_>, &[u8]), Fault>
    ensures exact { Answers (λ x. (seen x.0, x.1.now)) result (known_at request_allows bytes.now) }
    ensures shorter { IfOk result (λ x. text_len (seen x.0) + length x.1.now < length bytes.now) }
{
    let (field, rest) = field_of(bytes)?;
    match field {
        Field::Text(_, _) => {}
        Field::Number(n, _) | Field::Eight(n, _) | Field::Four(n, _) => {
            if n == 1 {
                return Err(Fault::Unexpected);
            }
        }
    }
    Ok((field, rest))
}

// The text of a series.
#[inline(always)]
#[tactic(auto, unfolding(crate::specs::Reading::request_step))]
fn series_text(field: Field<'_>) -> Option<&[u8]>
    ensures { MatchOption result (IsSkipped (seen field.entry))
        (λ text. seen field.entry ≡ Text 1 text.now) }
{
    match field {
        Field::Text(1, text) => Some(text),
        _ => None,
    }
}

/// Reads the next series of a body into `series`, in the place of what it holds, whose room is used
/// again. Gives the bytes after it, or `None` where no series is left. One step a byte.
///
/// A body that is refused at its end was given series by series before: keep nothing of it until
/// `None` came.
pub fn next_series<'a>(
    bytes: &'a [u8],
    series: &mut Series<'a>,
) -> Result<Option<&'a [u8]>, ReadError>
    // After any series, those of the body are this one and those of the rest, or none.
    ensures exact { MatchResult result
        (λ next. MatchOption next
        ((front : List SeriesValue) → request_from front bytes.now ≡ Ok front)
        (λ rest. (front : List SeriesValue) → request_from front bytes.now
        ≡ request_from (front ++ series_seen series.new ∷ []) rest.now))
        (λ e. (front : List SeriesValue)
        → Fails is_memory e (or_error (request_from front bytes.now))) }
    ensures shorter { IfOk result
        (λ next. MatchOption next (Unit {0}) (λ rest. length rest.now < length bytes.now)) }
{
    series.labels.clear();
    series.samples.clear();
    series.histograms = 0;
    let mut rest = bytes;
    while !rest.is_empty() {
        let (field, after) = match known_of(rest) {
            Ok(x) => x,
            Err(fault) => return Err(ReadError::Fault(fault, rest.len())),
        };
        if let Some(text) = series_text(field) {
            return match add_series(series, text) {
                Ok(()) => Ok(Some(after)),
                Err(error) => Err(error.behind(after.len())),
            };
        }
        rest = after;
    }
    Ok(None)
}

fn all_series(alloc: Global, bytes: &[u8]) -> Result<Vec<Series<'_>>, ReadError>
    ensures { Gives is_memory (λ v. map series_seen v.items) result
        (or_error (request_from [] bytes.now)) }
{
    let mut all = Vec::new(alloc);
    let mut rest = bytes;
    loop {
        let mut series = Series {
            labels: Vec::new(alloc),
            samples: Vec::new(alloc),
            histograms: 0,
        };
        match next_series(rest, &mut series)? {
            Some(after) => {
                all.push(series)?;
                rest = after;
            }
            None => return Ok(all),
        }
    }
}

/// All series of a body, in its order.
pub fn read_request(alloc: Global, bytes: &[u8]) -> Result<Vec<Series<'_>>, ReadError>
    // The series, or the first fault and its place.
    ensures exact { Gives is_memory (λ v. map series_seen v.items) result
        (or_error (request_at bytes.now)) }
    // What is given is what the bytes mean.
    ensures found { IfOk result (λ v. IsRequest bytes.now (map series_seen v.items)) }
    // Bytes that are a body are read, unless memory runs out.
    ensures only { (all : List SeriesValue) → IsRequest bytes.now all
        → Gives {Y = List SeriesValue} is_memory (λ v. map series_seen v.items) result (Ok all) }
{
    all_series(alloc, bytes)
}
