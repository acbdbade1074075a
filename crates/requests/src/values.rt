//! What stands in the JSON of a body.

ghost use Rattle.std.specs.Prelude.{◌≡◌, option_map, IfOk};
ghost use Rattle.serde_json.specs.View.{view};
ghost use Rattle.requests.specs.Json.{json_of, has_members, time_at, text_at};

use labels::is_time;
use serde_json::Value;
use std::alloc::{AllocError, Global};

/// The value that a body writes, if it is JSON.
pub fn json_of(alloc: Global, body: &[u8]) -> Result<Option<Value>, AllocError>
    ensures { IfOk result (λ o. option_map view o ≡ json_of body.now) }
{
    match Value::from_slice(alloc, body) {
        Ok(value) => Ok(Some(value)),
        Err(error) => {
            if error.is_memory() {
                Err(AllocError)
            } else {
                Ok(None)
            }
        }
    }
}

/// Whether a value is an object with so many members.
pub fn has_members(value: &Value, count: usize) -> bool
    ensures { result ≡ has_members count (view value.now) }
{
    match value.as_object() {
        Some(members) => members.len() == count,
        None => false,
    }
}

/// The time under a name.
pub fn time_at(value: &Value, name: &str) -> Option<i64>
    ensures { result ≡ time_at name.now (view value.now) }
{
    let t = value.get(name)?.as_i64()?;
    if is_time(t) { Some(t) } else { None }
}

/// The text under a name.
pub fn text_at<'v>(value: &'v Value, name: &str) -> Option<&'v str>
    ensures { option_map (λ text. text.now) result ≡ text_at name.now (view value.now) }
{
    value.get(name)?.as_str()
}
