//! Label sets.

ghost use Rattle.std.specs.Prelude.{◌≡◌, ◌<◌, ℕ, [], length, ◌↔◌, slice_get, Some, IsTrue, IfOk};
ghost use Rattle.std.specs.Prelude.{IfSome, IfNone, MatchResult, refl};
ghost use Rattle.std.specs.Cmp.{eq_by_cmp_equiv, partial_equiv_from_equiv};
ghost use Rattle.std.specs.Cmp.{partial_order_from_agreeing_total};
ghost use Rattle.std.specs.Ordering.{eq_by_cmp};
ghost use Rattle.labels.specs.Pairs.{pairs_of, texts_of};
ghost use Rattle.labels.specs.PairsLeft.{pairs_left};
ghost use Rattle.labels.specs.Labels.{pair_cmp, labels_cmp, value_of, IsByName, IsNamedAt};
ghost use Rattle.labels.specs.LabelSets.{IsLabelSet, IsMadeOf, refusal_of};
ghost use Rattle.labels.specs.Laws.{labels_total};

use crate::making::check;
use crate::text::Pairs;
use crate::{LabelError, LabelPairs};
use std::alloc::{AllocError, Global};
use std::cmp::Ordering;
use std::marker::Model;
use std::sync::Arc;

/// Label names with values that are not empty, in one text that copies share. The order is by the
/// pairs in name order, name and then value, by bytes; a prefix is smaller.
#[derive(Drop)]
pub struct LabelSet {
    pairs: Arc<Pairs>,
}

impl Model for LabelSet {
    ghost use Rattle.std.specs.Prelude.{List, ℕ};

    ghost Value = { List (List ℕ × List ℕ) };

    ghost use Rattle.std.specs.Arc.{arc_value};
    ghost use Rattle.labels.specs.LabelSets.{IsLabelSet};

    ghost view = { λ l. arc_value l.pairs };

    ghost invariant = { λ l. IsLabelSet (arc_value l.pairs) };
}

// How many bytes the pairs have.
fn room_of(pairs: &[(String, String)]) -> usize {
    let mut room = 0usize;
    for pair in pairs {
        room = room
            .saturating_add(pair.0.as_str().len())
            .saturating_add(pair.1.as_str().len());
    }
    room
}

fn pack(alloc: Global, pairs: &[(String, String)]) -> Result<Pairs, AllocError>
    ensures { IfOk result (λ p. p ≡ pairs_of pairs.now) }
{
    let mut packed = Pairs::with_room(alloc, room_of(pairs), pairs.len())?;
    for pair in pairs {
        packed.push(pair.0.as_str(), pair.1.as_str())?;
    }
    Ok(packed)
}

fn room_of_texts(pairs: &[(&str, &str)]) -> usize {
    let mut room = 0usize;
    for &(name, value) in pairs {
        room = room.saturating_add(name.len()).saturating_add(value.len());
    }
    room
}

fn pack_texts(alloc: Global, pairs: &[(&str, &str)]) -> Result<Pairs, AllocError>
    ensures { IfOk result (λ p. p ≡ texts_of pairs.now) }
{
    let mut packed = Pairs::with_room(alloc, room_of_texts(pairs), pairs.len())?;
    for &(name, value) in pairs {
        packed.push(name, value)?;
    }
    Ok(packed)
}

fn order_of(a: (&str, &str), b: (&str, &str)) -> Ordering
    ensures { result ≡ pair_cmp (a.entry.0.now, a.entry.1.now) (b.entry.0.now, b.entry.1.now) }
{
    a.cmp(&b)
}

fn order_of_pairs(a: &Pairs, b: &Pairs) -> Ordering
    ensures { result ≡ labels_cmp a.now b.now }
{
    let mut at = 0;
    while at < a.len() {
        if at == b.len() {
            return Ordering::Greater;
        }
        match order_of(a.pair(at), b.pair(at)) {
            Ordering::Equal => {}
            other => return other,
        }
        at += 1;
    }
    if at < b.len() {
        return Ordering::Less;
    }
    Ordering::Equal
}

// Label sets that were made of the same pairs have one text, which is compared first.
fn are_equal(a: &Pairs, b: &Pairs) -> bool
    ensures { result ≡ eq_by_cmp labels_cmp a.now b.now }
{
    a.is_cut_alike(b) || matches!(order_of_pairs(a, b), Ordering::Equal)
}

// Where the pair of a name stands.
fn place_of(pairs: &Pairs, name: &str) -> Option<usize>
    requires { IsByName pairs.now }
    ensures found { IfSome result (IsNamedAt pairs.now name.now) }
    ensures none { IfNone result ((i : ℕ) → IsNamedAt pairs.now name.now i → ⊥) }
{
    let mut low = 0;
    let mut high = pairs.len();
    while low < high {
        let middle = low + (high - low) / 2;
        match pairs.pair(middle).0.as_bytes().cmp(name.as_bytes()) {
            Ordering::Less => low = middle + 1,
            Ordering::Equal => return Some(middle),
            Ordering::Greater => high = middle,
        }
    }
    None
}

impl LabelSet {
    /// The label set of these pairs, in any order, without those whose value is empty. `L1` where a
    /// name is no label name, `L2` where a name stands twice (also with an empty value), `L3` where
    /// more than 64 values are not empty: the first of these that holds. No memory is taken before
    /// they are checked.
    pub fn new(alloc: Global, pairs: Vec<(String, String)>) -> Result<LabelSet, LabelError>
        ensures refused { IfSome (refusal_of (pairs_of pairs.items)) (λ e. result ≡ Err e) }
        ensures made { IfNone (refusal_of (pairs_of pairs.items))
            (MatchResult result (λ l. IsMadeOf l (pairs_of pairs.items))
            (λ e. e ≡ LabelError.Memory)) }
    {
        let pairs = check(pairs)?;
        Ok(LabelSet::of_sorted(alloc, &pairs)?)
    }

    /// The label set of pairs that are one already, in their order.
    pub fn of_sorted(alloc: Global, pairs: &[(String, String)]) -> Result<LabelSet, AllocError>
        requires { IsLabelSet (pairs_of pairs.now) }
        ensures { IfOk result (λ l. l ≡ pairs_of pairs.now) }
    {
        let pairs = Arc::new(alloc, pack(alloc, pairs)?)?;
        Ok(LabelSet { pairs })
    }

    /// The label set of borrowed pairs that are one already, in their order. It copies them into
    /// one text.
    pub fn of_sorted_texts(alloc: Global, pairs: &[(&str, &str)]) -> Result<LabelSet, AllocError>
        requires { IsLabelSet (texts_of pairs.now) }
        ensures { IfOk result (λ l. l ≡ texts_of pairs.now) }
    {
        let pairs = Arc::new(alloc, pack_texts(alloc, pairs)?)?;
        Ok(LabelSet { pairs })
    }

    /// The pairs, in the order of their names.
    pub fn pairs(&self) -> LabelPairs<'_>
        ensures { pairs_left result ≡ self.now }
    {
        LabelPairs::new(&self.pairs)
    }

    /// How many pairs there are, at most 64. Each has a label name and a value that is not empty.
    pub fn len(&self) -> usize
        ensures count { result ≡ length self.now }
        ensures label_set { IsLabelSet self.now }
    {
        self.pairs.len()
    }

    /// Whether there is no pair.
    pub fn is_empty(&self) -> bool
        ensures { IsTrue result ↔ (self.now ≡ []) }
    {
        self.pairs.len() == 0
    }

    /// The name and the value at a place, in the order of names.
    pub fn pair(&self, i: usize) -> (&str, &str)
        requires { i < length self.now }
        ensures { slice_get self.now i ≡ Some (result.0.now, result.1.now) }
    {
        self.pairs.pair(i)
    }

    /// The value of a name, or the empty text.
    pub fn value(&self, name: &str) -> &str
        ensures { result.now ≡ value_of self.now name.now }
    {
        match place_of(&self.pairs, name) {
            Some(i) => self.pairs.pair(i).1,
            None => "",
        }
    }

    /// An equal one, which shares the text.
    pub fn try_clone(&self) -> Result<LabelSet, AllocError>
        ensures { IfOk result (λ l. l ≡ self.now) }
    {
        let pairs = Arc::try_clone(&self.pairs)?;
        Ok(LabelSet { pairs })
    }
}

impl PartialEq for LabelSet {
    ghost eq = { eq_by_cmp labels_cmp };

    ghost laws = { partial_equiv_from_equiv (eq_by_cmp_equiv labels_total) };

    fn eq(&self, other: &LabelSet) -> bool {
        are_equal(&self.pairs, &other.pairs)
    }
}

impl Eq for LabelSet {
    ghost laws = { eq_by_cmp_equiv labels_total };
}

impl PartialOrd for LabelSet {
    ghost partial_cmp = { λ a b. Some (labels_cmp a b) };

    ghost laws = { partial_order_from_agreeing_total labels_cmp labels_total
        (λ a b. refl) (λ a b. refl) };

    fn partial_cmp(&self, other: &LabelSet) -> Option<Ordering> {
        Some(self.cmp(other))
    }
}

impl Ord for LabelSet {
    ghost cmp = { labels_cmp };

    ghost total = { labels_total };

    ghost matches_partial_cmp = { λ a b. refl };

    ghost matches_eq = { λ a b. refl };

    fn cmp(&self, other: &LabelSet) -> Ordering {
        order_of_pairs(&self.pairs, &other.pairs)
    }
}
