//! Pairs by the symbols of their names and values, and where they stand.

ghost use Rattle.std.specs.Prelude.{◌≡◌, ◌<◌, ◌≤◌, length, slice_get, Some, ℕ, IfSome, get_or};
ghost use Rattle.std.specs.Prelude.{true};
ghost use Rattle.index_reader.specs.Layout.{rises};
ghost use Rattle.index_reader.specs.Lookups.{key_cmp, key_before, place_of};

use std::alloc::{AllocError, Global};
use std::cmp::Ordering;

/// The pairs that an index lists, by the symbols of their names and values: each below the next.
#[derive(Drop)]
pub struct Keys {
    pub pairs: Vec<(u32, u32)>,
    ghost rising: { rises key_before pairs.items ≡ true },
}

fn key_cmp(a: (u32, u32), b: (u32, u32)) -> Ordering
    ensures { result ≡ key_cmp a b }
{
    a.cmp(&b)
}

/// Whether both are the same labels.
pub fn are_same_labels(xs: &[(u32, u32)], ys: &[(u32, u32)]) -> bool
    ensures { result ≡ true → xs.now ≡ ys.now }
{
    xs == ys
}

/// The label at a place.
pub fn key_in(labels: &[(u32, u32)], i: usize) -> (u32, u32)
    requires { i < length labels.now }
    ensures { slice_get labels.now i ≡ Some result }
{
    labels[i]
}

/// The pair at a place.
pub fn pair_at(keys: &Keys, i: usize) -> (u32, u32)
    requires { i < length keys.now.pairs.items }
    ensures { slice_get keys.now.pairs.items i ≡ Some result }
{
    keys.pairs[i]
}

/// The place of a pair among ascending ones.
pub fn place_of(keys: &Keys, key: (u32, u32)) -> Option<usize>
    ensures exact { result ≡ place_of keys.now.pairs.items key }
    ensures within { IfSome result (λ i. i < length keys.now.pairs.items) }
{
    keys.pairs.binary_search(&key).ok()
}

/// For each symbol the place of a pair whose value it is, where there is one: the first place to
/// look at.
pub fn guesses_of(alloc: Global, symbols: usize, keys: &Keys) -> Result<Vec<usize>, AllocError> {
    let mut guesses = Vec::new(alloc);
    guesses.resize(symbols, 0usize)?;
    for at in 0..keys.pairs.len() {
        let value = keys.pairs[at].1 as usize;
        if value < guesses.len() {
            guesses[value] = at;
        }
    }
    Ok(guesses)
}

/// The same as [`place_of`], where the guess for the value is looked at first.
pub fn place_near(keys: &Keys, guesses: &[usize], key: (u32, u32)) -> Option<usize>
    ensures exact { result ≡ place_of keys.now.pairs.items key }
    ensures within { IfSome result (λ i. i < length keys.now.pairs.items) }
{
    let value = key.1 as usize;
    if value < guesses.len() {
        let guess = guesses[value];
        if guess < keys.pairs.len()
            && matches!(key_cmp(pair_at(keys, guess), key), Ordering::Equal)
        {
            return Some(guess);
        }
    }
    place_of(keys, key)
}

fn is_before(a: (u32, u32), b: (u32, u32)) -> bool
    ensures { result ≡ key_before a b }
{
    matches!(key_cmp(a, b), Ordering::Less)
}

/// Whether each pair is below the next.
pub fn is_rising(keys: &[(u32, u32)]) -> bool
    ensures { result ≡ rises key_before keys.now }
{
    keys.is_sorted_by(|a, b| is_before(*a, *b))
}

/// How many of ascending pairs have a name below this one.
pub fn count_below(keys: &Keys, name: u64) -> usize
    ensures within { result ≤ length keys.now.pairs.items }
    ensures below { (k : ℕ) → k < result → (get_or keys.now.pairs.items k (0, 0)).0 < name }
    ensures above { (k : ℕ) → result ≤ k → k < length keys.now.pairs.items
        → name ≤ (get_or keys.now.pairs.items k (0, 0)).0 }
{
    keys.pairs.partition_point(|pair| u64::from(pair.0) < name)
}
