//! The union of lists.

ghost use Rattle.std.specs.Prelude.{◌≡◌, ℕ, ◌<◌, ◌≤◌, map, suc, Some, IfOk, refl};
ghost use Rattle.std.specs.BinaryHeap.{IsHeap, heap_items};
ghost use Rattle.std.specs.Cmp.{eq_by_cmp_equiv, partial_equiv_from_equiv};
ghost use Rattle.std.specs.Cmp.{partial_order_from_agreeing_total};
ghost use Rattle.std.specs.Ordering.{eq_by_cmp};
ghost use Rattle.labels.specs.Ascending.{first_of, rest_of, not_below, first_or_end, or_end};
ghost use Rattle.labels.specs.Sets.{union_all};
ghost use Rattle.postings.specs.Laws.{earlier_total};
ghost use Rattle.postings.specs.Standing.{earlier, united, Begins, HasMoved};

use crate::Postings;
use labels::{END, SeriesRef};
use std::alloc::{AllocError, Global};
use std::cmp::Ordering;
use std::collections::BinaryHeap;
use std::marker::Model;

/// The number of a reference, or the end of all.
pub(crate) fn number_or_end(next: Option<SeriesRef>) -> u64
    ensures value { result ≡ or_end next }
    ensures none { 4294967296 ≤ result → next ≡ None }
{
    match next {
        Some(reference) => u64::from(reference.number()),
        None => END,
    }
}

/// A list among others, and where it begins. The one that begins first is the greatest, so that
/// it is the top of a heap.
#[derive(Drop)]
struct Standing<P: Postings> {
    first: u64,
    list: P,
    ghost begins: { Begins first (P.remaining list) },
}

impl<P: Postings> Standing<P> {
    fn new(list: P) -> Standing<P>
        ensures { P.remaining result.list ≡ P.remaining list }
    {
        let first = number_or_end(list.current());
        Standing { first, list }
    }

    /// Goes on past the first reference.
    fn advance(&mut self)
        ensures { P.remaining self.new.list ≡ rest_of (P.remaining self.old.list) }
    {
        self.list.advance();
        self.first = number_or_end(self.list.current());
    }

    /// Goes on to the first reference that is not below the target.
    fn seek(&mut self, target: SeriesRef)
        ensures { P.remaining self.new.list ≡ not_below target (P.remaining self.old.list) }
    {
        self.list.seek(target);
        self.first = number_or_end(self.list.current());
    }
}

impl<P: Postings> PartialEq for Standing<P> {
    ghost eq = { eq_by_cmp (earlier (λ s. s.first)) };

    ghost laws = { partial_equiv_from_equiv (eq_by_cmp_equiv (earlier_total (λ s. s.first))) };

    fn eq(&self, other: &Standing<P>) -> bool {
        matches!(self.cmp(other), Ordering::Equal)
    }
}

impl<P: Postings> Eq for Standing<P> {
    ghost laws = { eq_by_cmp_equiv (earlier_total (λ s. s.first)) };
}

impl<P: Postings> PartialOrd for Standing<P> {
    ghost partial_cmp = { λ a b. Some (earlier (λ s. s.first) a b) };

    ghost laws = { partial_order_from_agreeing_total (earlier (λ s. s.first))
        (earlier_total (λ s. s.first)) (λ a b. refl) (λ a b. refl) };

    fn partial_cmp(&self, other: &Standing<P>) -> Option<Ordering> {
        Some(self.cmp(other))
    }
}

impl<P: Postings> Ord for Standing<P> {
    ghost cmp = { earlier (λ s. s.first) };

    ghost total = { earlier_total (λ s. s.first) };

    ghost matches_partial_cmp = { λ a b. refl };

    ghost matches_eq = { λ a b. refl };

    fn cmp(&self, other: &Standing<P>) -> Ordering {
        other.first.cmp(&self.first)
    }
}

/// Where the list on top of the heap begins, which is where the first of all does, or the end.
fn begins<P: Postings>(lists: &BinaryHeap<Standing<P>>) -> u64
    requires { IsHeap (earlier (λ s. s.first)) (heap_items lists.now) }
    ensures { Begins result (united (λ s. P.remaining s.list) (heap_items lists.now)) }
{
    match lists.peek() {
        Some(top) => top.first,
        None => END,
    }
}

/// Moves the list that begins first past its first reference, which is not above the number.
fn pass_first<P: Postings + Drop>(lists: &mut BinaryHeap<Standing<P>>, number: u64)
    requires heap { IsHeap (earlier (λ s. s.first)) (heap_items lists.old) }
    requires first { first_or_end (united (λ s. P.remaining s.list) (heap_items lists.old))
        ≤ number }
    requires within { number < 4294967296 }
    ensures heap { IsHeap (earlier (λ s. s.first)) (heap_items lists.new) }
    ensures moved { HasMoved (λ s. P.remaining s.list) (suc number)
        (heap_items lists.old) (heap_items lists.new) }
{
    if let Some(mut top) = lists.peek_mut() {
        top.advance();
    }
}

/// Moves the list that begins first, below the target, to the target.
fn seek_first<P: Postings + Drop>(lists: &mut BinaryHeap<Standing<P>>, target: SeriesRef)
    requires heap { IsHeap (earlier (λ s. s.first)) (heap_items lists.old) }
    requires first { first_or_end (united (λ s. P.remaining s.list) (heap_items lists.old))
        < target }
    requires within { target < 4294967296 }
    ensures heap { IsHeap (earlier (λ s. s.first)) (heap_items lists.new) }
    ensures moved { HasMoved (λ s. P.remaining s.list) target
        (heap_items lists.old) (heap_items lists.new) }
{
    if let Some(mut top) = lists.peek_mut() {
        top.seek(target);
    }
}

/// What stands in some of the lists. The lists stand in a heap, the one that begins first on top:
/// a move takes the logarithm of their number for each list that it moves, and looks at no other.
#[derive(Drop)]
pub struct Union<P: Postings> {
    lists: BinaryHeap<Standing<P>>,
}

impl<P: Postings> Model for Union<P> {
    ghost use Rattle.std.specs.Prelude.{List, ℕ, map};
    ghost use Rattle.std.specs.BinaryHeap.{IsHeap, heap_items};
    ghost use Rattle.postings.specs.Standing.{earlier};

    ghost Value = { List (List ℕ) };

    // What remains of each list.
    ghost view = { λ u. map (λ s. P.remaining s.list) (heap_items u.lists) };

    ghost invariant = { λ u. IsHeap (earlier (λ s. s.first)) (heap_items u.lists) };
}

impl<P: Postings + Drop> Union<P> {
    /// The references that stand in some of the lists. Takes memory for the lists once more; its
    /// moves take none.
    pub fn new(alloc: Global, lists: Vec<P>) -> Result<Union<P>, AllocError>
        ensures { IfOk result (λ union.
            ⟦<Union<P> as Postings>⟧.remaining union ≡ union_all (map P.remaining lists.items)) }
    {
        let mut standing = Vec::with_capacity(alloc, lists.len())?;
        for list in lists {
            standing.push(Standing::new(list))?;
        }
        Ok(Union {
            lists: BinaryHeap::from(standing),
        })
    }
}

impl<P: Postings + Drop> Postings for Union<P> {
    ghost use Rattle.labels.specs.Sets.{union_all};
    ghost use Rattle.labels.proofs.SetLemmas.{union-rises};
    ghost use Rattle.labels.proofs.Lists.{not_below-twice};

    ghost remaining = { λ u. union_all u };

    fn current(&self) -> Option<SeriesRef> {
        self.lists.peek()?.list.current()
    }

    fn advance(&mut self) {
        let first = begins(&self.lists);
        if first >= END {
            return;
        }
        while begins(&self.lists) <= first {
            pass_first(&mut self.lists, first);
        }
    }

    fn seek(&mut self, target: SeriesRef) {
        while begins(&self.lists) < u64::from(target.number()) {
            seek_first(&mut self.lists, target);
        }
    }

    ghost ascending = { λ u. union-rises u };

    ghost two_seeks = { λ u a b. not_below-twice a b (union_all u) };
}
