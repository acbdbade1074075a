//! The pairs and the texts that rows use, each once, ascending.

ghost use Rattle.std.specs.Prelude.{◌≡◌, ◌<◌, ◌++◌, ◌∷◌, [], length, take, slice_get, Some, OnOk};
ghost use Rattle.std.specs.Prelude.{IfOk, if◌then◌else◌};
ghost use Rattle.std.specs.Bool.{OnTrue};
ghost use Rattle.std.specs.List.{Contains};
ghost use Rattle.std.specs.List.Sorted.{IsStrictlySortedBy};
ghost use Rattle.std.specs.Str.{IsUtf8};
ghost use Rattle.labels.specs.Labels.{text_cmp, pair_cmp};
ghost use Rattle.labels.specs.Pairs.{texts_of};
ghost use Rattle.index_reader.specs.Seen.{bytes_of};
ghost use Rattle.block_writer.specs.InUse.{label_texts, texts_in, pairs_in, HoldsAlso};
ghost use Rattle.block_writer.specs.InUse.{HoldsEachOnce, HoldsThose};
ghost use Rattle.block_writer.specs.EntryBodies.{number_of};
ghost use Rattle.block_writer.specs.Typed.{AreOfTexts, HaveTexts};

use labels::{LabelSet, Row};
use std::alloc::{AllocError, Global};

/// Fewer pairs are not put in order before all are found.
const FEW: usize = 4096;

/// The pairs of all rows, each once, ascending by name and then by value. It takes memory in
/// proportion to these, if the rows share most of their pairs.
pub fn pairs_of<'a>(alloc: Global, rows: &'a [Row]) -> Result<Vec<(&'a str, &'a str)>, AllocError>
    ensures held { IfOk result (λ v.
        HoldsEachOnce pair_cmp (pairs_in rows.now) (texts_of v.items)) }
    ensures typed { OnOk result (HaveTexts rows.now) }
{
    let mut pairs = all_pairs(alloc, rows)?;
    keep_once(&mut pairs);
    Ok(pairs)
}

// Puts pairs in order, and keeps each once.
fn keep_once<'a>(pairs: &mut Vec<(&'a str, &'a str)>)
    ensures { HoldsEachOnce pair_cmp (texts_of pairs.old.items) (texts_of pairs.new.items) }
{
    pairs.sort_unstable();
    pairs.dedup();
}

// The pairs of all rows, some of them more than once.
fn all_pairs<'a>(alloc: Global, rows: &'a [Row]) -> Result<Vec<(&'a str, &'a str)>, AllocError>
    ensures held { IfOk result (λ v. HoldsThose (pairs_in rows.now) (texts_of v.items)) }
    ensures typed { OnOk result (HaveTexts rows.now) }
{
    let mut found = Vec::new(alloc);
    let mut many = FEW;
    for (i, row) in rows.iter().enumerate() {
        put_row(&mut found, rows, i, row.labels())?;
        many = thin_out(&mut found, many);
    }
    Ok(found)
}

// Keeps each pair once where they are many, and gives how many are many from here on.
fn thin_out<'a>(found: &mut Vec<(&'a str, &'a str)>, many: usize) -> usize
    ensures { HoldsThose (texts_of found.old.items) (texts_of found.new.items) }
{
    if found.len() < many {
        return many;
    }
    keep_once(found);
    found.len().saturating_mul(2).max(FEW)
}

// Adds the pairs of a row, but those that the row before it has at the same place.
fn put_row<'a>(
    found: &mut Vec<(&'a str, &'a str)>,
    rows: &[Row],
    at: usize,
    labels: &'a LabelSet,
) -> Result<(), AllocError>
    requires within { at < length rows.now }
    requires held { HoldsThose (pairs_in (take at rows.now)) (texts_of found.old.items) }
    ensures added { OnOk result
        (HoldsAlso (texts_of found.old.items) labels.now (texts_of found.new.items)) }
    ensures typed { OnOk result (AreOfTexts labels.now) }
{
    for i in 0..labels.len() {
        let (name, value) = labels.pair(i);
        let known = stood_before(rows, at, i, name, value);
        put_pair(found, name, value, known)?;
    }
    Ok(())
}

// Adds a pair, unless it is known.
fn put_pair<'a>(
    found: &mut Vec<(&'a str, &'a str)>,
    name: &'a str,
    value: &'a str,
    known: bool,
) -> Result<(), AllocError>
    ensures text { OnOk result (texts_of found.new.items ≡ (if known then texts_of found.old.items
        else texts_of found.old.items ++ (name.now, value.now) ∷ [])) }
    ensures typed { OnOk result (IsUtf8 name.now × IsUtf8 value.now) }
{
    if known {
        return Ok(());
    }
    found.push((name, value))?;
    Ok(())
}

// Whether the row before one has this pair at a place.
fn stood_before(rows: &[Row], at: usize, i: usize, name: &str, value: &str) -> bool
    requires { at < length rows.now }
    ensures { OnTrue result (Contains (pairs_in (take at rows.now)) (name.now, value.now)) }
{
    if at == 0 {
        return false;
    }
    let labels = rows[at - 1].labels();
    if i >= labels.len() {
        return false;
    }
    let (a, b) = labels.pair(i);
    is_same(a, name) & is_same(b, value)
}

/// Whether two texts are the same.
pub fn is_same(a: &str, b: &str) -> bool
    ensures { OnTrue result (a.now ≡ b.now) }
{
    a == b
}

/// The names and the values of rows, each once, ascending by their bytes. They are those of the
/// rows' pairs.
pub fn symbols_of<'a>(
    alloc: Global,
    rows: &[Row],
    pairs: &[(&'a str, &'a str)],
) -> Result<Vec<&'a str>, AllocError>
    requires { HoldsEachOnce pair_cmp (pairs_in rows.now) (texts_of pairs.now) }
    ensures { IfOk result (λ v. HoldsEachOnce text_cmp (texts_in rows.now) (bytes_of v.items)) }
{
    let _ = rows;
    let mut symbols = texts_of_pairs(alloc, pairs)?;
    symbols.sort_unstable();
    symbols.dedup();
    Ok(symbols)
}

fn texts_of_pairs<'a>(
    alloc: Global,
    pairs: &[(&'a str, &'a str)],
) -> Result<Vec<&'a str>, AllocError>
    ensures { IfOk result (λ v. bytes_of v.items ≡ label_texts (texts_of pairs.now)) }
{
    let mut found = Vec::new(alloc);
    for i in 0..pairs.len() {
        let (name, value) = pairs[i];
        found.push(name)?;
        found.push(value)?;
    }
    Ok(found)
}

/// How many of the symbols are below a text: its place, where it is one of them. It takes time in
/// proportion to the logarithm of their count.
pub fn number_of(symbols: &[&str], text: &str) -> usize
    requires { IsStrictlySortedBy text_cmp (bytes_of symbols.now) }
    ensures { result ≡ number_of (bytes_of symbols.now) text.now }
{
    symbols.partition_point(|symbol| *symbol < text)
}

/// The same as [`number_of`], where the symbol at a place is looked at first.
pub fn number_near(symbols: &[&str], guess: usize, text: &str) -> usize
    requires { IsStrictlySortedBy text_cmp (bytes_of symbols.now) }
    ensures { result ≡ number_of (bytes_of symbols.now) text.now }
{
    if stands_at(symbols, guess, text) {
        return guess;
    }
    number_of(symbols, text)
}

// Whether a text is the symbol at a place.
fn stands_at(symbols: &[&str], at: usize, text: &str) -> bool
    ensures { OnTrue result (slice_get (bytes_of symbols.now) at ≡ Some text.now) }
{
    if at >= symbols.len() {
        return false;
    }
    is_same(text_at(symbols, at), text)
}

fn text_at<'a>(symbols: &[&'a str], at: usize) -> &'a str
    requires { at < length symbols.now }
    ensures { slice_get (bytes_of symbols.now) at ≡ Some result.now }
{
    symbols[at]
}
