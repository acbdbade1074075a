//! The query string of `/select`.

ghost use Rattle.std.specs.Prelude.{◌≡◌, string_bytes, true, option_map, IfSome, IfOk, IfErr};
ghost use Rattle.labels.specs.Pairs.{pairs_of};
ghost use Rattle.matchers.specs.Queries.{is_query_range};
ghost use Rattle.matchers.specs.Selectors.{IsAccepted};
ghost use Rattle.requests.specs.QueryStrings.{query_pairs, values_named, only, asked_in};
ghost use Rattle.requests.specs.Selecting.{IsSelectorError, SelectMeans};
ghost use Rattle.requests.specs.Requests.{Told};

use crate::times::time_of;
use crate::{ReadError, Refusal, Request};
use matchers::{Matcher, Query, SelectorError};
use selector_cache::KeptSelectors;
use std::alloc::{AllocError, Global};

fn query_pairs(alloc: Global, query: &[u8]) -> Result<Vec<(String, String)>, AllocError>
    ensures { IfOk result (λ v. pairs_of v.items ≡ query_pairs query.now) }
{
    let mut pairs = Vec::new(alloc);
    for pair in form_urlencoded::parse(alloc, query).into_owned() {
        pairs.push(pair?)?;
    }
    Ok(pairs)
}

fn only_value<'p>(pairs: &'p [(String, String)], name: &str) -> Option<&'p str>
    ensures { option_map (λ v. v.now) result ≡ only (values_named name.now (pairs_of pairs.now)) }
{
    let mut found: Option<&str> = None;
    for pair in pairs {
        if pair.0.as_str() == name {
            if found.is_some() {
                return None;
            }
            found = Some(pair.1.as_str());
        }
    }
    found
}

/// The text of the selector, and the ends of the range.
fn asked_in<'p>(pairs: &'p [(String, String)]) -> Option<(&'p str, i64, i64)>
    ensures value { option_map (λ a. (a.0.now, a.1, a.2)) result ≡ asked_in (pairs_of pairs.now) }
    ensures range { IfSome result (λ a. is_query_range a.1 a.2 ≡ true) }
{
    if pairs.len() != 3 {
        return None;
    }
    let text = only_value(pairs, "selector")?;
    let from = time_of(only_value(pairs, "from")?)?;
    let to = time_of(only_value(pairs, "to")?)?;
    if to < from {
        return None;
    }
    Some((text, from, to))
}

/// The matchers of a selector's text; `H6` where it is refused.
pub fn matchers_of(
    alloc: Global,
    kept: &mut KeptSelectors,
    text: &str,
) -> Result<Vec<Matcher>, ReadError>
    ensures ok { IfOk result (λ v. IsAccepted text.now v.items) }
    ensures err { IfErr result (λ e. IsSelectorError text.now e) }
{
    match kept.parse(alloc, text) {
        Ok(matchers) => Ok(matchers),
        Err(SelectorError::Memory) => Err(ReadError::Memory),
        Err(error) => Err(ReadError::Refused(Refusal::BadSelector(error))),
    }
}

/// The query that a query string asks: `H5` where it is not of the form, then `H6`.
pub fn select(alloc: Global, kept: &mut KeptSelectors, query: &[u8]) -> Result<Request, ReadError>
    ensures { Told (SelectMeans query.now) result }
{
    let pairs = query_pairs(alloc, query)?;
    let Some((text, from, to)) = asked_in(pairs.as_slice()) else {
        return Err(ReadError::Refused(Refusal::BadQuery));
    };
    let matchers = matchers_of(alloc, kept, text)?;
    match Query::new(matchers, from, to) {
        Ok(query) => Ok(Request::Select(query)),
        // The range is one, and a selector has at most 16 matchers.
        Err(_) => Err(ReadError::Refused(Refusal::BadQuery)),
    }
}
