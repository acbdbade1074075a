//! Pairs of texts are checked, and put in order.

ghost use Rattle.std.specs.Prelude.{◌≡◌, ◌+◌, ◌<◌, ℕ, List, length, IfSome, IfNone, IsOkAnd};
ghost use Rattle.std.specs.Prelude.{IsSorted, IsPermutation, slice_index_or};
ghost use Rattle.std.specs.Bool.{OnFalse};
ghost use Rattle.labels.specs.Labels.{pair_cmp, IsByName};
ghost use Rattle.labels.specs.LabelSets.{IsMadeOf, are_named, repeats, refusal_of, with_values};
ghost use Rattle.labels.specs.Pairs.{pairs_of};

use crate::LabelError;
use crate::name::is_name;

/// The greatest number of labels of a label set.
pub const MAX_LABELS: usize = 64;

fn are_named(pairs: &[(String, String)]) -> bool
    ensures { result ≡ are_named (pairs_of pairs.now) }
{
    pairs.iter().all(|pair| is_name(pair.0.as_str()))
}

// By name, and by value where a name repeats.
fn sort(pairs: &mut Vec<(String, String)>)
    ensures same { IsPermutation (pairs_of pairs.old.items) (pairs_of pairs.new.items) }
    ensures sorted { IsSorted pair_cmp (pairs_of pairs.new.items) }
{
    pairs.sort_unstable();
}

fn name_at(pairs: &[(String, String)], at: usize) -> &str
    requires { at < length pairs.now }
    ensures { (d : List ℕ × List ℕ) → result.now ≡ (slice_index_or (pairs_of pairs.now) at d).0 }
{
    pairs[at].0.as_str()
}

fn repeats(pairs: &[(String, String)]) -> bool
    requires { IsSorted pair_cmp (pairs_of pairs.now) }
    ensures value { result ≡ repeats (pairs_of pairs.now) }
    ensures by_name { OnFalse result (IsByName (pairs_of pairs.now)) }
{
    for at in 1..pairs.len() {
        if name_at(pairs, at - 1) == name_at(pairs, at) {
            return true;
        }
    }
    false
}

fn drop_empty(pairs: &mut Vec<(String, String)>)
    ensures { pairs_of pairs.new.items ≡ with_values (pairs_of pairs.old.items) }
{
    pairs.retain(|pair| !pair.1.is_empty());
}

/// The pairs of a label set, in its order, or why they make none.
pub fn check(pairs: Vec<(String, String)>) -> Result<Vec<(String, String)>, LabelError>
    ensures refused { IfSome (refusal_of (pairs_of pairs.items)) (λ e. result ≡ Err e) }
    ensures made { IfNone (refusal_of (pairs_of pairs.items))
        (IsOkAnd result (λ kept. IsMadeOf (pairs_of kept.items) (pairs_of pairs.items))) }
{
    let mut pairs = pairs;
    if !are_named(&pairs) {
        return Err(LabelError::BadName);
    }
    sort(&mut pairs);
    if repeats(&pairs) {
        return Err(LabelError::Repeated);
    }
    drop_empty(&mut pairs);
    if pairs.len() > MAX_LABELS {
        return Err(LabelError::Limit);
    }
    Ok(pairs)
}
