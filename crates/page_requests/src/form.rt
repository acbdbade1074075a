//! What the fields of a query string ask, as it is written.

ghost use Rattle.std.specs.Prelude.{◌≡◌, true, option_map, IfSome};
ghost use Rattle.labels.specs.Pairs.{pairs_of};
ghost use Rattle.matchers.specs.Queries.{is_query_range};
ghost use Rattle.labels.specs.Contents.{is_time};
ghost use Rattle.page_requests.specs.Fields.{form_in, form_seen, range_in, time_in};

use crate::fields::{are_fields, field_text, only_value};
use crate::times::time_or;
use labels::{MAX_TIME, MIN_TIME};

/// What the fields of a query string ask, as it is written.
#[derive(Clone, Copy, Debug)]
pub struct Form<'p> {
    pub selector: &'p str,
    pub from: i64,
    pub to: i64,
    /// The series that is asked about, empty if none is.
    pub about: &'p str,
}

/// The time of a field; this one, if it is left out.
fn time_in(absent: i64, pairs: &[(String, String)], name: &str) -> Option<i64>
    requires { is_time absent ≡ true }
    ensures value { result ≡ time_in absent name.now (pairs_of pairs.now) }
    ensures time { IfSome result (λ t. is_time t ≡ true) }
{
    time_or(absent, field_text(pairs, name)?)
}

/// The text of the selector, and the ends of the range.
fn range_in<'p>(pairs: &'p [(String, String)]) -> Option<(&'p str, i64, i64)>
    ensures value { option_map (λ a. (a.0.now, a.1, a.2)) result ≡ range_in (pairs_of pairs.now) }
    ensures range { IfSome result (λ a. is_query_range a.1 a.2 ≡ true) }
{
    let text = only_value(pairs, "selector")?;
    let from = time_in(MIN_TIME, pairs, "from")?;
    let to = time_in(MAX_TIME, pairs, "to")?;
    if to < from {
        return None;
    }
    Some((text, from, to))
}

/// What pairs ask, each of which is a field, and no field twice.
pub fn form_in<'p>(pairs: &'p [(String, String)]) -> Option<Form<'p>>
    ensures value { option_map form_seen result ≡ form_in (pairs_of pairs.now) }
    ensures range { IfSome result (λ form. is_query_range form.from form.to ≡ true) }
{
    if !are_fields(pairs) {
        return None;
    }
    let (selector, from, to) = range_in(pairs)?;
    let about = field_text(pairs, "about")?;
    Some(Form {
        selector,
        from,
        to,
        about,
    })
}
