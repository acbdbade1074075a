//! The bodies of `/delete` and `/cut`.

ghost use Rattle.std.specs.Prelude.{◌≡◌, option_map, IfOk};
ghost use Rattle.serde_json.specs.View.{view};
ghost use Rattle.requests.specs.Changes.{cut_in, cut_of, deletion_in, CutMeans, DeleteMeans};
ghost use Rattle.requests.specs.Requests.{Told};

use crate::select::matchers_of;
use crate::values::{has_members, json_of, text_at, time_at};
use crate::{ReadError, Refusal, Request};
use selector_cache::KeptSelectors;
use serde_json::Value;
use std::alloc::{AllocError, Global};

fn cut_in(value: &Value) -> Option<i64>
    ensures { result ≡ cut_in (view value.now) }
{
    if has_members(value, 1) {
        time_at(value, "at")
    } else {
        None
    }
}

fn cut_of(alloc: Global, body: &[u8]) -> Result<Option<i64>, AllocError>
    ensures { IfOk result (λ t. t ≡ cut_of body.now) }
{
    match json_of(alloc, body)? {
        Some(value) => Ok(cut_in(&value)),
        None => Ok(None),
    }
}

/// The cut that a body asks: `H7` where it is not of the form.
pub fn cut(alloc: Global, body: &[u8]) -> Result<Request, ReadError>
    ensures { Told (CutMeans body.now) result }
{
    match cut_of(alloc, body)? {
        Some(t) => Ok(Request::Cut(t)),
        None => Err(ReadError::Refused(Refusal::BadBody)),
    }
}

/// The text of the selector, and the ends of the range.
fn deletion_in(value: &Value) -> Option<(&str, i64, i64)>
    ensures { option_map (λ a. (a.0.now, a.1, a.2)) result ≡ deletion_in (view value.now) }
{
    if !has_members(value, 3) {
        return None;
    }
    let text = text_at(value, "selector")?;
    let from = time_at(value, "from")?;
    let to = time_at(value, "to")?;
    if to < from {
        return None;
    }
    Some((text, from, to))
}

/// The deletion that a body asks: `H7` where it is not of the form, then `H6`.
pub fn delete(alloc: Global, kept: &mut KeptSelectors, body: &[u8]) -> Result<Request, ReadError>
    ensures { Told (DeleteMeans body.now) result }
{
    let Some(value) = json_of(alloc, body)? else {
        return Err(ReadError::Refused(Refusal::BadBody));
    };
    let Some((text, from, to)) = deletion_in(&value) else {
        return Err(ReadError::Refused(Refusal::BadBody));
    };
    let matchers = matchers_of(alloc, kept, text)?;
    Ok(Request::Delete { matchers, from, to })
}
