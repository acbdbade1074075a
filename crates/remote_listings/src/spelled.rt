//! The bodies of listings.

ghost use Rattle.std.specs.Prelude.{◌≡◌, map, IfOk};
ghost use Rattle.remote_listings.specs.Spelled.{names_body, series_body, values_body};
ghost use Rattle.remote_listings.specs.Texts.{cut_to, is_cut, labels_tokens, listing_text};
ghost use Rattle.remote_listings.specs.Texts.{text_tokens};

use crate::listed::listed;
use crate::texts::{names_of, values_of};
use crate::writing::{put_back, put_front, put_sets, put_texts};
use head::Snapshot;
use json::Writer;
use labels::LabelSet;
use matchers::Query;
use std::alloc::{AllocError, Global};

/// At most so many of the items, if there is a limit.
fn cut_to<T>(limit: Option<usize>, all: &[T]) -> &[T]
    ensures { result.now ≡ cut_to limit all.now }
{
    match limit {
        Some(most) => &all[..all.len().min(most)],
        None => all,
    }
}

/// Whether that leaves some out.
fn is_cut<T>(limit: Option<usize>, all: &[T]) -> bool
    ensures { result ≡ is_cut limit all.now }
{
    match limit {
        Some(most) => most < all.len(),
        None => false,
    }
}

fn sets_text(alloc: Global, sets: &[LabelSet], limit: Option<usize>) -> Result<Vec<u8>, AllocError>
    ensures { IfOk result (λ text. text.items ≡ listing_text labels_tokens limit sets.now) }
{
    let mut out = Writer::new(Vec::new(alloc));
    put_front(&mut out)?;
    put_sets(&mut out, cut_to(limit, sets))?;
    put_back(&mut out, is_cut(limit, sets))?;
    Ok(out.into_inner())
}

fn texts_text(alloc: Global, texts: &[&str], limit: Option<usize>) -> Result<Vec<u8>, AllocError>
    ensures { IfOk result (λ text. text.items
        ≡ listing_text text_tokens limit (map (λ text. text.now) texts.now)) }
{
    let mut out = Writer::new(Vec::new(alloc));
    put_front(&mut out)?;
    put_texts(&mut out, cut_to(limit, texts))?;
    put_back(&mut out, is_cut(limit, texts))?;
    Ok(out.into_inner())
}

/// The body of the label sets of the series that answer one of the queries.
pub fn series_body(
    alloc: Global,
    snapshot: &Snapshot,
    queries: &[Query],
    limit: Option<usize>,
) -> Result<Vec<u8>, AllocError>
    ensures { IfOk result (λ text. text.items ≡ series_body snapshot.now queries.now limit) }
{
    let sets = listed(alloc, snapshot, queries)?;
    sets_text(alloc, sets.as_slice(), limit)
}

/// The body of the names of their labels.
pub fn names_body(
    alloc: Global,
    snapshot: &Snapshot,
    queries: &[Query],
    limit: Option<usize>,
) -> Result<Vec<u8>, AllocError>
    ensures { IfOk result (λ text. text.items ≡ names_body snapshot.now queries.now limit) }
{
    let sets = listed(alloc, snapshot, queries)?;
    let names = names_of(alloc, sets.as_slice())?;
    texts_text(alloc, names.as_slice(), limit)
}

/// The body of the values that they have under a name.
pub fn values_body(
    alloc: Global,
    snapshot: &Snapshot,
    queries: &[Query],
    name: &str,
    limit: Option<usize>,
) -> Result<Vec<u8>, AllocError>
    ensures { IfOk result (λ text.
        text.items ≡ values_body snapshot.now queries.now name.now limit) }
{
    let sets = listed(alloc, snapshot, queries)?;
    let values = values_of(alloc, sets.as_slice(), name)?;
    texts_text(alloc, values.as_slice(), limit)
}
