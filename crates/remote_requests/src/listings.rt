//! What is asked of a listing.

ghost use Rattle.std.specs.Prelude.{◌≡◌, ◌≤◌, ◌++◌, ◌==◌, [], option_map, map, position};
ghost use Rattle.std.specs.Prelude.{IfOk, IfSome, MatchResult, Ok};
ghost use Rattle.labels.specs.Pairs.{pairs_of};
ghost use Rattle.matchers.specs.declared.limits.Limits.TheVariants as Limits;
ghost use Rattle.matchers.specs.Limits.{IsRefusalWithin};
ghost use Rattle.requests.specs.QueryStrings.{query_pairs, values_named};
ghost use Rattle.requests.specs.Targets.{query_text};
ghost use Rattle.requests.specs.Fields.{is_decimal};
ghost use Rattle.remote_requests.specs.Asking.{AddsSelected, AreSelected, HasSelectorFault};
ghost use Rattle.remote_requests.specs.Asking.{AreQueries, ListMeans, ListingMeans, match_name};
ghost use Rattle.remote_requests.specs.Asking.{selector_error};
ghost use Rattle.matchers.specs.Selectors.{OrMemory};
ghost use Rattle.remote_requests.specs.Parameters.{bounds_of, enough, given, label_in};
ghost use Rattle.remote_requests.specs.Parameters.{if_name, limit_by, limit_of, limit_told};
ghost use Rattle.remote_requests.specs.Parameters.{not_empty};
ghost use Rattle.remote_requests.specs.Parameters.{end_in, limit_in, signed, size_of, start_in};
ghost use Rattle.remote_requests.specs.Parameters.{time_after, time_in, time_of, time_told};
ghost use Rattle.remote_requests.specs.Parameters.{wanted_of, wanted_seen};
ghost use Rattle.remote_requests.specs.Writing.{Told, Tells};

use crate::fields::is_decimal;
use crate::path::names_values;
use crate::reads::query_over;
use crate::{Asked, Listed, Listing, Path, ReadError, Refusal};
use decimal_text::{DecimalError, rounded};
use labels::{MAX_TIME, MIN_TIME, is_name};
use matchers::{Limits, Query, Selector, SelectorError};
use requests::path_text;
use std::alloc::{AllocError, Global};

/// The most `match[]` of a request.
const MAX_SELECTORS: usize = 64;

/// The greatest size of a time, in milliseconds: 2^62.
const MOST: u64 = 4_611_686_018_427_387_904;

fn mark_in(target: &[u8]) -> Option<usize>
    ensures { result ≡ position (λ byte. byte == 63) target.now }
{
    target.iter().position(|byte| *byte == b'?')
}

/// What stands after the first `?` of a target, nothing where there is none.
pub fn query_text(target: &[u8]) -> &[u8]
    ensures { result.now ≡ query_text target.now }
{
    match mark_in(target) {
        Some(at) => &target[at + 1..],
        None => &[],
    }
}

/// The names and the values of a form.
fn query_pairs(alloc: Global, query: &[u8]) -> Result<Vec<(String, String)>, AllocError>
    ensures { IfOk result (λ v. pairs_of v.items ≡ query_pairs query.now) }
{
    let mut pairs = Vec::new(alloc);
    for pair in form_urlencoded::parse(alloc, query).into_owned() {
        pairs.push(pair?)?;
    }
    Ok(pairs)
}

/// The pairs of a body, and then those of a query string.
fn pairs_asked(
    alloc: Global,
    target: &[u8],
    body: &[u8],
) -> Result<Vec<(String, String)>, AllocError>
    ensures { IfOk result (λ v. pairs_of v.items
        ≡ query_pairs body.now ++ query_pairs (query_text target.now)) }
{
    let mut pairs = query_pairs(alloc, body)?;
    let mut more = query_pairs(alloc, query_text(target))?;
    pairs.append(&mut more)?;
    Ok(pairs)
}

fn not_empty(text: &str) -> Option<&str>
    ensures { option_map (λ t. t.now) result ≡ not_empty text.now }
{
    if text.is_empty() { None } else { Some(text) }
}

/// The first value of a name, unless it is empty.
fn given<'p>(pairs: &'p [(String, String)], name: &str) -> Option<&'p str>
    ensures { option_map (λ v. v.now) result ≡ given name.now (pairs_of pairs.now) }
{
    for pair in pairs {
        if pair.0.as_str() == name {
            return not_empty(pair.1.as_str());
        }
    }
    None
}

/// The texts of the selectors.
fn selector_texts(alloc: Global, pairs: &[(String, String)]) -> Result<Vec<&str>, AllocError>
    ensures { IfOk result (λ texts. map (λ t. t.now) texts.items
        ≡ values_named match_name (pairs_of pairs.now)) }
{
    let mut texts = Vec::new(alloc);
    for pair in pairs {
        if pair.0.as_str() == "match[]" {
            texts.push(pair.1.as_str())?;
        }
    }
    Ok(texts)
}

/// The milliseconds nearest to the seconds that digits write, at most 2^62.
#[tactic(auto, unfolding(crate::specs::Parameters::size_of))]
fn size_of(text: &[u8]) -> Option<u64>
    ensures value { result ≡ size_of text.now }
    ensures within { IfSome result (λ n. n ≤ 4611686018427387904) }
{
    match rounded(text, 3, 0) {
        Ok(nearest) => Some(nearest.size.min(MOST)),
        Err(DecimalError::Large) => Some(MOST),
        Err(DecimalError::Form) => None,
        Err(DecimalError::Finer) => None,
    }
}

/// A size, before 0 or behind it.
fn signed(before: bool, size: u64) -> i64
    requires { size ≤ 4611686018427387904 }
    ensures { result ≡ signed before size }
{
    let time = size as i64;
    if before { -time } else { time }
}

/// The time that digits write, before 0 or behind it.
fn time_in(before: bool, digits: &[u8]) -> Option<i64>
    ensures { result ≡ time_in before digits.now }
{
    match size_of(digits) {
        Some(size) => Some(signed(before, size)),
        None => None,
    }
}

fn time_after(first: u8, digits: &[u8], text: &[u8]) -> Option<i64>
    ensures { result ≡ time_after first digits.now text.now }
{
    if first == b'-' {
        time_in(true, digits)
    } else {
        time_in(false, text)
    }
}

/// The time that a text of seconds writes, in milliseconds.
fn time_of(text: &str) -> Option<i64>
    ensures { result ≡ time_of text.now }
{
    let bytes = text.as_bytes();
    match bytes.split_first() {
        Some((first, digits)) => time_after(*first, digits, bytes),
        None => None,
    }
}

/// The time of a parameter, or that it is none.
fn time_told(text: Option<&str>, absent: i64) -> Result<i64, Refusal>
    ensures { result ≡ time_told absent (option_map (λ t. t.now) text.entry) }
{
    match text {
        None => Ok(absent),
        Some(text) => match time_of(text) {
            Some(time) => Ok(time),
            None => Err(Refusal::BadParameter),
        },
    }
}

fn limit_by(most: usize) -> Option<usize>
    ensures { Ok result ≡ limit_by most }
{
    if most == 0 { None } else { Some(most) }
}

/// The limit that a text writes; 0 is none.
fn limit_of(text: &str) -> Result<Option<usize>, Refusal>
    ensures { result ≡ limit_of text.now }
{
    if !is_decimal(text.as_bytes()) {
        return Err(Refusal::BadParameter);
    }
    match text.parse::<usize>() {
        Ok(most) => Ok(limit_by(most)),
        Err(_) => Err(Refusal::BadParameter),
    }
}

/// The limit of a parameter, or that it is none.
fn limit_told(text: Option<&str>) -> Result<Option<usize>, Refusal>
    ensures { result ≡ limit_told (option_map (λ t. t.now) text.entry) }
{
    match text {
        None => Ok(None),
        Some(text) => limit_of(text),
    }
}

/// The ends of the range that is asked for, and the limit.
#[derive(Clone, Copy, Drop)]
pub struct Bounds {
    pub start: i64,
    pub end: i64,
    pub limit: Option<usize>,
}

/// The first time that is asked for.
fn start_in(pairs: &[(String, String)]) -> Result<i64, Refusal>
    ensures { result ≡ start_in (pairs_of pairs.now) }
{
    time_told(given(pairs, "start"), MIN_TIME)
}

/// The last time that is asked for.
fn end_in(pairs: &[(String, String)]) -> Result<i64, Refusal>
    ensures { result ≡ end_in (pairs_of pairs.now) }
{
    time_told(given(pairs, "end"), MAX_TIME)
}

/// How many are asked for at most.
fn limit_in(pairs: &[(String, String)]) -> Result<Option<usize>, Refusal>
    ensures { result ≡ limit_in (pairs_of pairs.now) }
{
    limit_told(given(pairs, "limit"))
}

/// The bounds that pairs ask for: the first of `start`, `end` and `limit` that is not of its form
/// is refused.
fn bounds_of(pairs: &[(String, String)]) -> Result<Bounds, Refusal>
    ensures { result ≡ bounds_of (pairs_of pairs.now) }
{
    let start = start_in(pairs)?;
    let end = end_in(pairs)?;
    let limit = limit_in(pairs)?;
    Ok(Bounds { start, end, limit })
}

/// Whether there are enough selectors, and not too many: `G13`, then `G7`.
fn enough(wanted: &Listed, count: usize) -> Result<(), Refusal>
    ensures { result ≡ enough (wanted_seen wanted.now) count }
{
    if matches!(wanted, Listed::Series) && count == 0 {
        return Err(Refusal::NoMatch);
    }
    if count > MAX_SELECTORS {
        return Err(Refusal::TooMany);
    }
    Ok(())
}

/// Adds the query of a selector over a range, if it has one.
fn add_selected(
    alloc: Global,
    queries: &mut Vec<Query>,
    text: &str,
    start: i64,
    end: i64,
) -> Result<(), SelectorError>
    ensures { MatchResult result
        (λ _. AddsSelected text.now start end queries.old.items queries.new.items)
        (OrMemory (IsRefusalWithin Limits.Long text.now)) }
{
    let matchers = Selector::parse_within(alloc, Limits::Long, text)?;
    if let Some(query) = query_over(matchers, start, end) {
        queries.push(query)?;
    }
    Ok(())
}

/// The queries of selectors over a range, each for one of them.
fn selected(
    alloc: Global,
    texts: &[&str],
    start: i64,
    end: i64,
) -> Result<Vec<Query>, SelectorError>
    ensures { MatchResult result
        (λ v. AreSelected (map (λ t. t.now) texts.now) start end v.items)
        (OrMemory (HasSelectorFault (map (λ t. t.now) texts.now))) }
{
    let mut queries = Vec::with_capacity(alloc, texts.len())?;
    for text in texts {
        add_selected(alloc, &mut queries, text, start, end)?;
    }
    Ok(queries)
}

/// The query of all series over a range, if it has one.
fn all_series(alloc: Global, start: i64, end: i64) -> Result<Vec<Query>, SelectorError>
    ensures ok { IfOk result (λ v. v.items ≡ cons_option (query_over [] start end) []) }
    ensures err { IfErr result (λ e. e ≡ SelectorError.Memory) }
{
    let mut queries = Vec::new(alloc);
    if let Some(query) = query_over(Vec::new(alloc), start, end) {
        queries.push(query)?;
    }
    Ok(queries)
}

ghost use Rattle.std.specs.Prelude.{IfErr};
ghost use Rattle.std.specs.List.{cons_option};
ghost use Rattle.remote_requests.specs.Queries.{query_over};
ghost use Rattle.matchers.specs.declared.error.SelectorError.TheVariants as SelectorError;

/// The queries that are asked for: of each selector, or of all series where there is none.
fn queries_of(alloc: Global, texts: &[&str], bounds: Bounds) -> Result<Vec<Query>, SelectorError>
    ensures { MatchResult result
        (λ v. AreQueries (map (λ t. t.now) texts.now) bounds.start bounds.end v.items)
        (OrMemory (HasSelectorFault (map (λ t. t.now) texts.now))) }
{
    if texts.is_empty() {
        return all_series(alloc, bounds.start, bounds.end);
    }
    selected(alloc, texts, bounds.start, bounds.end)
}

/// The bounds of a listing, if there are enough selectors: `G13`, then `G7`, then `G14`.
fn bounds_for(wanted: &Listed, count: usize, pairs: &[(String, String)]) -> Result<Bounds, Refusal>
    ensures { result ≡ bounds_for (wanted_seen wanted.now) count (pairs_of pairs.now) }
{
    enough(wanted, count)?;
    bounds_of(pairs)
}

ghost use Rattle.remote_requests.specs.Parameters.{bounds_for};

/// A selector that is refused: `G15`.
fn refused_selector(error: SelectorError) -> ReadError
    ensures { result ≡ selector_error error }
{
    match error {
        SelectorError::Memory => ReadError::Memory,
        error => ReadError::Refused(Refusal::BadSelector(error)),
    }
}

/// What pairs ask of a listing: `G13`, `G7`, `G14`, then `G15`.
fn list(alloc: Global, wanted: Listed, pairs: &[(String, String)]) -> Result<Asked, ReadError>
    ensures { Told (ListMeans (wanted_seen wanted) (pairs_of pairs.now)) result }
{
    let texts = selector_texts(alloc, pairs)?;
    let bounds = match bounds_for(&wanted, texts.len(), pairs) {
        Ok(bounds) => bounds,
        Err(refusal) => return Err(ReadError::Refused(refusal)),
    };
    match queries_of(alloc, texts.as_slice(), bounds) {
        Ok(queries) => Ok(Asked::List(Listing {
            wanted,
            queries,
            limit: bounds.limit,
        })),
        Err(error) => Err(refused_selector(error)),
    }
}

/// A label name.
fn if_name(bytes: &[u8]) -> Option<&str>
    ensures { option_map (λ t. t.now) result ≡ if_name bytes.now }
{
    let Ok(name) = std::str::from_utf8(bytes) else {
        return None;
    };
    if is_name(name) { Some(name) } else { None }
}

/// The name in the path of a label's values, if it is a label name.
fn label_in(target: &[u8]) -> Option<&str>
    ensures { option_map (λ t. t.now) result ≡ label_in target.now }
{
    let text = path_text(target);
    if !names_values(text) {
        return None;
    }
    if_name(&text[14..text.len() - 7])
}

/// What a path wants: `G12` where it names no label.
fn wanted_of(alloc: Global, path: Path, target: &[u8]) -> Result<Listed, ReadError>
    ensures { Tells wanted_seen result (wanted_of path target.now) }
{
    match path {
        Path::Labels | Path::LabelsByForm => Ok(Listed::Names),
        Path::Series | Path::SeriesByForm => Ok(Listed::Series),
        Path::Values => match label_in(target) {
            Some(name) => Ok(Listed::Values(String::from_str(alloc, name)?)),
            None => Err(ReadError::Refused(Refusal::NoLabel)),
        },
        Path::Write | Path::Read | Path::BuildInfo | Path::Home | Path::Page => {
            Err(ReadError::Refused(Refusal::NoSuchPath))
        }
    }
}

/// What a path of listings asks, with the form of a body.
pub fn listing(alloc: Global, path: Path, target: &[u8], body: &[u8]) -> Result<Asked, ReadError>
    ensures { Told (ListingMeans path target.now body.now) result }
{
    let wanted = wanted_of(alloc, path, target)?;
    let pairs = pairs_asked(alloc, target, body)?;
    list(alloc, wanted, pairs.as_slice())
}
