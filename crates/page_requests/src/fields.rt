//! The names and the values of a query string.

ghost use Rattle.std.specs.Prelude.{◌≡◌, option_map, IfOk};
ghost use Rattle.labels.specs.Pairs.{pairs_of};
ghost use Rattle.requests.specs.QueryStrings.{only, query_pairs, values_named};
ghost use Rattle.page_requests.specs.Fields.{are_fields, field_text, is_field};

use std::alloc::{AllocError, Global};

/// The names and the values of a query string.
pub fn query_pairs(alloc: Global, query: &[u8]) -> Result<Vec<(String, String)>, AllocError>
    ensures { IfOk result (λ v. pairs_of v.items ≡ query_pairs query.now) }
{
    let mut pairs = Vec::new(alloc);
    for pair in form_urlencoded::parse(alloc, query).into_owned() {
        pairs.push(pair?)?;
    }
    Ok(pairs)
}

fn is_field(name: &str) -> bool
    ensures { result ≡ is_field name.now }
{
    name == "selector" || name == "from" || name == "to" || name == "about"
}

/// Whether each name is that of a field.
pub fn are_fields(pairs: &[(String, String)]) -> bool
    ensures { result ≡ are_fields (pairs_of pairs.now) }
{
    for pair in pairs {
        if !is_field(pair.0.as_str()) {
            return false;
        }
    }
    true
}

/// The value under a name, where there is exactly one.
pub fn only_value<'p>(pairs: &'p [(String, String)], name: &str) -> Option<&'p str>
    ensures { option_map (λ v. v.now) result ≡ only (values_named name.now (pairs_of pairs.now)) }
{
    let mut found: Option<&str> = None;
    for pair in pairs {
        if pair.0.as_str() == name {
            if found.is_some() {
                return None;
            }
            found = Some(pair.1.as_str());
        }
    }
    found
}

/// The value under a name, where there is at most one: an empty one, where there is none.
pub fn field_text<'p>(pairs: &'p [(String, String)], name: &str) -> Option<&'p str>
    ensures { option_map (λ v. v.now) result ≡ field_text name.now (pairs_of pairs.now) }
{
    let mut found: Option<&str> = None;
    for pair in pairs {
        if pair.0.as_str() == name {
            if found.is_some() {
                return None;
            }
            found = Some(pair.1.as_str());
        }
    }
    match found {
        Some(text) => Some(text),
        None => Some(""),
    }
}
