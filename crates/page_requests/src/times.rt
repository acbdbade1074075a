//! Times as they stand in a query string.

ghost use Rattle.std.specs.Prelude.{◌≡◌, IfSome, true};
ghost use Rattle.labels.specs.Contents.{is_time};
ghost use Rattle.std.specs.List.{list_all};
ghost use Rattle.std.specs.Char.{is_ascii_digit};
ghost use Rattle.requests.specs.Times.{is_counted, is_integer, time_of};
ghost use Rattle.page_requests.specs.Fields.{time_or};

use labels::is_time;

/// Whether each byte is a decimal digit.
fn are_digits(text: &[u8]) -> bool
    ensures { result ≡ list_all is_ascii_digit text.now }
{
    text.iter().all(|byte| byte.is_ascii_digit())
}

fn is_counted(text: &[u8]) -> bool
    ensures { result ≡ is_counted text.now }
{
    match text.split_first() {
        Some((first, rest)) => *first != b'0' && first.is_ascii_digit() && are_digits(rest),
        None => false,
    }
}

fn is_integer(text: &[u8]) -> bool
    ensures { result ≡ is_integer text.now }
{
    match text.split_first() {
        Some((b'-', rest)) => is_counted(rest),
        Some((b'0', rest)) => rest.is_empty(),
        Some(_) => is_counted(text),
        None => false,
    }
}

/// The time that a text writes: `0`, or an optional `-` and digits that do not begin with `0`.
fn time_of(text: &str) -> Option<i64>
    ensures value { result ≡ time_of text.now }
    ensures time { IfSome result (λ t. is_time t ≡ true) }
{
    if !is_integer(text.as_bytes()) {
        return None;
    }
    match text.parse::<i64>() {
        Ok(t) if is_time(t) => Some(t),
        _ => None,
    }
}

/// The time that a text writes; this one, where it is empty.
pub fn time_or(absent: i64, text: &str) -> Option<i64>
    requires { is_time absent ≡ true }
    ensures value { result ≡ time_or absent text.now }
    ensures time { IfSome result (λ t. is_time t ≡ true) }
{
    if text.is_empty() {
        Some(absent)
    } else {
        time_of(text)
    }
}
