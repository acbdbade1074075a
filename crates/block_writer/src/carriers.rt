//! Which series carry each pair.

ghost use Rattle.std.specs.Prelude.{◌≡◌, ◌<◌, [], length, vec_len, slice_get, Some, OnOk, IfOk};
ghost use Rattle.std.specs.Bool.{OnTrue};
ghost use Rattle.std.specs.List.{All, Contains};
ghost use Rattle.std.specs.List.Sorted.{IsStrictlySortedBy};
ghost use Rattle.labels.specs.Labels.{pair_cmp};
ghost use Rattle.labels.specs.Pairs.{texts_of};
ghost use Rattle.block_writer.specs.InUse.{pairs_in, HoldsEachOnce};
ghost use Rattle.block_writer.specs.EntryBodies.{place_among};
ghost use Rattle.block_writer.specs.IndexText.{given_at, lists_in, lists_of, IsGivenTo};

use crate::near::Near;
use crate::symbols::is_same;
use labels::{LabelSet, Row};
use std::alloc::{AllocError, Global};

/// The references of the rows that carry each pair, in the order of the rows. It goes over the rows
/// once, and finds the place of each of their pairs in time in proportion to the logarithm of the
/// count of pairs, or at once if the row before has the pair at the same place.
pub fn lists_of(
    alloc: Global,
    pairs: &[(&str, &str)],
    rows: &[Row],
    references: &[u32],
) -> Result<Vec<Vec<u32>>, AllocError>
    requires held { HoldsEachOnce pair_cmp (pairs_in rows.now) (texts_of pairs.now) }
    requires each { length references.now ≡ length rows.now }
    ensures { IfOk result (λ v.
        lists_in v.items ≡ lists_of (texts_of pairs.now) rows.now references.now) }
{
    let mut lists = empty_lists(alloc, pairs.len())?;
    let mut near = Near::new(alloc);
    for (i, row) in rows.iter().enumerate() {
        put_row(&mut lists, pairs, row.labels(), references[i], &mut near)?;
    }
    Ok(lists)
}

fn empty_lists(alloc: Global, count: usize) -> Result<Vec<Vec<u32>>, AllocError>
    ensures count { IfOk result (λ v. vec_len v ≡ count) }
    ensures empty { IfOk result (λ v. All (λ l. l.items ≡ []) v.items) }
{
    let mut lists = Vec::new(alloc);
    for _ in 0..count {
        lists.push(Vec::new(alloc))?;
    }
    Ok(lists)
}

// Appends a reference to the list of each pair of its labels.
fn put_row(
    lists: &mut Vec<Vec<u32>>,
    pairs: &[(&str, &str)],
    labels: &LabelSet,
    reference: u32,
    near: &mut Near,
) -> Result<(), AllocError>
    requires ascending { IsStrictlySortedBy pair_cmp (texts_of pairs.now) }
    requires held { All (Contains (texts_of pairs.now)) labels.now }
    requires each { vec_len lists.old ≡ length pairs.now }
    ensures given { OnOk result (IsGivenTo (texts_of pairs.now) labels.now reference
        (lists_in lists.old.items) (lists_in lists.new.items)) }
    ensures each { vec_len lists.new ≡ vec_len lists.old }
{
    for i in 0..labels.len() {
        let place = place_near(pairs, near.guess(i), labels.pair(i));
        near.keep(i, place)?;
        put_at(lists, place, reference)?;
    }
    Ok(())
}

fn put_at(lists: &mut Vec<Vec<u32>>, at: usize, reference: u32) -> Result<(), AllocError>
    requires { at < vec_len lists.old }
    ensures added { OnOk result
        (lists_in lists.new.items ≡ given_at at reference (lists_in lists.old.items)) }
    ensures each { vec_len lists.new ≡ vec_len lists.old }
{
    lists[at].push(reference)?;
    Ok(())
}

// How many of the pairs are below one: its place, where it is one of them.
fn place_of(pairs: &[(&str, &str)], pair: (&str, &str)) -> usize
    requires { IsStrictlySortedBy pair_cmp (texts_of pairs.now) }
    ensures { result
        ≡ place_among pair_cmp (texts_of pairs.now) (pair.entry.0.now, pair.entry.1.now) }
{
    pairs.partition_point(|held| held.cmp(&pair).is_lt())
}

// The same as `place_of`, where the pair at a place is looked at first.
fn place_near(pairs: &[(&str, &str)], guess: usize, pair: (&str, &str)) -> usize
    requires { IsStrictlySortedBy pair_cmp (texts_of pairs.now) }
    ensures { result
        ≡ place_among pair_cmp (texts_of pairs.now) (pair.entry.0.now, pair.entry.1.now) }
{
    if stands_at(pairs, guess, pair) {
        return guess;
    }
    place_of(pairs, pair)
}

// Whether a pair is the one at a place.
fn stands_at(pairs: &[(&str, &str)], at: usize, pair: (&str, &str)) -> bool
    ensures { OnTrue result
        (slice_get (texts_of pairs.now) at ≡ Some (pair.entry.0.now, pair.entry.1.now)) }
{
    if at >= pairs.len() {
        return false;
    }
    let (name, value) = pair_at(pairs, at);
    is_same(name, pair.0) & is_same(value, pair.1)
}

fn pair_at<'a>(pairs: &[(&'a str, &'a str)], at: usize) -> (&'a str, &'a str)
    requires { at < length pairs.now }
    ensures { slice_get (texts_of pairs.now) at ≡ Some (result.0.now, result.1.now) }
{
    pairs[at]
}
