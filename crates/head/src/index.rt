//! The postings index of a head.

ghost use Rattle.std.specs.Prelude.{◌≡◌, ◌+◌, ◌-◌, ◌<◌, ◌≤◌, ℕ, ℤ, List, [], ◌∷◌, ◌++◌, length};
ghost use Rattle.std.specs.Prelude.{get_or};
ghost use Rattle.std.specs.Prelude.{slice_get, IfOk, OnOk, OnErr, IfSome, IfNone, Some, None};
ghost use Rattle.std.specs.Arc.{arc_value};
ghost use Rattle.std.specs.Prelude.{T};
ghost use Rattle.std.specs.FinMap.Entries.{is_sorted, find};
ghost use Rattle.labels.specs.Labels.{pair_cmp};
ghost use Rattle.labels.specs.LabelSets.{IsLabelSet};
ghost use Rattle.head.specs.Index.{listed_more, listed_each, values_under, IsIndexOf, AddsSeries};
ghost use Rattle.head.specs.Places.{BeginsName, EndsName, IsRunOf};
ghost use Rattle.pages.specs.Sorted.{entries_of, place_of, IsSpot};

use crate::listed::{Listed, order_of};
use crate::references::References;
use labels::{LabelSet, SeriesRef};
use pages::{Probe, SortedPages, Spot, WholeChange};
use std::alloc::{AllocError, Global};
use std::cmp::Ordering;
use std::marker::Model;
use std::sync::Arc;

type Lists = SortedPages<Arc<Listed>>;

/// The pair that a search seeks.
#[derive(Drop)]
struct Sought<'a> {
    name: &'a str,
    value: &'a str,
}

impl<'a> Probe<Arc<Listed>> for Sought<'a> {
    ghost use Rattle.labels.specs.Labels.{pair_cmp};

    ghost order = { λ probe y. pair_cmp y.0 (probe.name.now, probe.value.now) };

    fn compare(&self, entry: &Arc<Listed>) -> Ordering {
        order_of(entry.pair(), (self.name, self.value))
    }
}

/// The first pair of a name, or of a greater one.
#[derive(Drop)]
struct FirstOf<'a> {
    name: &'a str,
}

impl<'a> Probe<Arc<Listed>> for FirstOf<'a> {
    ghost use Rattle.std.specs.Ordering.{is_lt, nat_cmp};
    ghost use Rattle.std.specs.Cmp.Lexicographic.{slice_cmp};
    ghost use Rattle.head.specs.Places.{side_of};

    ghost order = { λ probe y. side_of (is_lt (slice_cmp nat_cmp y.0.0 probe.name.now)) };

    fn compare(&self, entry: &Arc<Listed>) -> Ordering {
        if entry.name_order(self.name).is_lt() {
            Ordering::Less
        } else {
            Ordering::Greater
        }
    }
}

/// The first pair of a name that is greater than this one.
#[derive(Drop)]
struct FirstAfter<'a> {
    name: &'a str,
}

impl<'a> Probe<Arc<Listed>> for FirstAfter<'a> {
    ghost use Rattle.std.specs.Ordering.{is_le, nat_cmp};
    ghost use Rattle.std.specs.Cmp.Lexicographic.{slice_cmp};
    ghost use Rattle.head.specs.Places.{side_of};

    ghost order = { λ probe y. side_of (is_le (slice_cmp nat_cmp y.0.0 probe.name.now)) };

    fn compare(&self, entry: &Arc<Listed>) -> Ordering {
        if entry.name_order(self.name).is_le() {
            Ordering::Less
        } else {
            Ordering::Greater
        }
    }
}

/// The list with one reference more; it is copied where another version holds it.
fn push_to(alloc: Global, listed: &mut Arc<Listed>, reference: SeriesRef) -> Result<(), AllocError>
    ensures ok { OnOk result (arc_value listed.new
        ≡ ((arc_value listed.old).0, (arc_value listed.old).1 ++ reference ∷ [])) }
    ensures err { OnErr result (arc_value listed.new ≡ arc_value listed.old) }
{
    if let Some(own) = Arc::get_mut(listed) {
        return own.push(alloc, reference);
    }
    *listed = Arc::new(alloc, listed.with(alloc, reference)?)?;
    Ok(())
}

/// One reference more at the end of a list.
#[derive(Drop)]
struct Push {
    alloc: Global,
    reference: SeriesRef,
}

impl WholeChange<Arc<Listed>> for Push {
    ghost use Rattle.std.specs.Prelude.{[], ◌∷◌, ◌++◌};

    ghost after = { λ push listed. (listed.0, listed.1 ++ push.reference ∷ []) };

    fn change(&self, entry: &mut Arc<Listed>) -> Result<(), AllocError> {
        push_to(self.alloc, entry, self.reference)
    }
}

/// Where the lists of a name begin.
fn first_of(lists: &Lists, name: &str) -> Spot
    requires { T (is_sorted pair_cmp (entries_of lists.now)) }
    ensures spot { IsSpot lists.now result }
    ensures place { BeginsName name.now (entries_of lists.now) (place_of lists.now result) }
{
    match lists.find(&FirstOf { name }) {
        Ok(spot) => spot,
        Err(spot) => spot,
    }
}

/// Where the lists of a name end.
fn first_after(lists: &Lists, name: &str) -> Spot
    requires { T (is_sorted pair_cmp (entries_of lists.now)) }
    ensures spot { IsSpot lists.now result }
    ensures place { EndsName name.now (entries_of lists.now) (place_of lists.now result) }
{
    match lists.find(&FirstAfter { name }) {
        Ok(spot) => spot,
        Err(spot) => spot,
    }
}

/// Where the lists of a name begin, and where they end.
fn run_of(lists: &Lists, name: &str) -> (Spot, Spot)
    requires { T (is_sorted pair_cmp (entries_of lists.now)) }
    ensures first { IsSpot lists.now result.0 }
    ensures after { IsSpot lists.now result.1 }
    ensures run { IsRunOf name.now (entries_of lists.now)
        (place_of lists.now result.0) (place_of lists.now result.1) }
{
    (first_of(lists, name), first_after(lists, name))
}

/// The value of the pair of the list so many places after a spot.
fn value_after(lists: &Lists, spot: Spot, i: usize) -> &str
    requires spot { IsSpot lists.now spot }
    requires held { place_of lists.now spot + i < length (entries_of lists.now) }
    ensures { result.now
        ≡ (get_or (entries_of lists.now) (place_of lists.now spot + i) (([], []), [])).0.1 }
{
    lists.entry_after(spot, i).pair().1
}

/// The references of the series that carry each pair, in the order of the pairs. Versions share
/// what they have in common: one pointer is copied, and a series that is added copies a page and a
/// list for each of its pairs.
#[derive(Drop)]
pub struct Index {
    lists: Lists,
}

impl Model for Index {
    ghost use Rattle.std.specs.Prelude.{ℕ, List, T};
    ghost use Rattle.std.specs.FinMap.Entries.{is_sorted};
    ghost use Rattle.labels.specs.Labels.{pair_cmp};
    ghost use Rattle.pages.specs.Sorted.{entries_of};

    ghost Value = { List ((List ℕ × List ℕ) × List ℕ) };

    ghost view = { λ index. entries_of index.lists };

    ghost invariant = { λ index. T (is_sorted pair_cmp (entries_of index.lists)) };
}

impl Index {
    /// The index of no series.
    pub fn new(alloc: Global) -> Result<Index, AllocError>
        ensures empty { IfOk result (λ index. index ≡ []) }
        ensures indexed { IfOk result (λ index. IsIndexOf index []) }
    {
        let lists = SortedPages::new(alloc)?;
        Ok(Index { lists })
    }

    /// An equal one, which shares all lists: one pointer is copied.
    pub fn try_clone(&self) -> Result<Index, AllocError>
        ensures { IfOk result (λ index. index ≡ self.now) }
    {
        let lists = self.lists.try_clone()?;
        Ok(Index { lists })
    }

    /// Adds a reference at the end of the list of one pair of a label set.
    fn add_at(
        &mut self,
        alloc: Global,
        labels: &LabelSet,
        place: usize,
        reference: SeriesRef,
    ) -> Result<(), AllocError>
        requires { place < length labels.now }
        ensures { OnOk result (self.new
            ≡ listed_more (get_or labels.now place ([], [])) reference self.old) }
    {
        let (name, value) = labels.pair(place);
        match self.lists.find(&Sought { name, value }) {
            Ok(spot) => self.lists.change(spot, &Push { alloc, reference }),
            Err(spot) => {
                let listed = Arc::new(alloc, Listed::new(alloc, labels, place, reference)?)?;
                self.lists.insert(alloc, spot, listed)
            }
        }
    }

    /// Adds a reference at the end of the list of each pair of a label set.
    fn add_pairs(
        &mut self,
        alloc: Global,
        labels: &LabelSet,
        reference: SeriesRef,
    ) -> Result<(), AllocError>
        ensures added { OnOk result (self.new ≡ listed_each labels.now reference self.old) }
        ensures label_set { IsLabelSet labels.now }
    {
        for place in 0..labels.len() {
            self.add_at(alloc, labels, place, reference)?;
        }
        Ok(())
    }

    /// Adds a series with a further reference, which has to be above all others. What another
    /// version holds is copied first: for each of its pairs a page of each level, of the lists and
    /// of the references of a long one. After an `Err` the index may list it at some pairs.
    pub fn add(
        &mut self,
        alloc: Global,
        labels: &LabelSet,
        reference: SeriesRef,
    ) -> Result<(), AllocError>
        ensures { OnOk result (AddsSeries reference labels.now self.old self.new) }
    {
        self.add_pairs(alloc, labels, reference)
    }

    /// The references at a pair, `None` where the pair is not listed.
    pub fn list(&self, name: &str, value: &str) -> Option<&References>
        ensures none { IfNone result (find pair_cmp (name.now, value.now) self.now ≡ None) }
        ensures some { IfSome result (λ list. find pair_cmp (name.now, value.now) self.now
            ≡ Some list.now) }
    {
        match self.lists.find(&Sought { name, value }) {
            Ok(spot) => Some(self.lists.at(spot).references()),
            Err(_) => None,
        }
    }

    /// How many values are listed under a name.
    pub fn value_count(&self, name: &str) -> usize
        ensures { result ≡ length (values_under name.now self.now) }
    {
        let (start, end) = run_of(&self.lists, name);
        self.lists.place(end) - self.lists.place(start)
    }

    /// The value at a place, from 0, among those that are listed under a name.
    pub fn value_at(&self, name: &str, i: usize) -> &str
        requires { i < length (values_under name.now self.now) }
        ensures { slice_get (values_under name.now self.now) i ≡ Some result.now }
    {
        let (start, _) = run_of(&self.lists, name);
        value_after(&self.lists, start, i)
    }

    /// The value at a place that is not the first, found by one search for the one before it.
    pub fn value_after(&self, name: &str, i: usize, before: &str) -> &str
        requires later { 0 < i }
        requires within { i < length (values_under name.now self.now) }
        requires before { slice_get (values_under name.now self.now) (i - 1) ≡ Some before.now }
        ensures { slice_get (values_under name.now self.now) i ≡ Some result.now }
    {
        let value = before;
        match self.lists.find(&Sought { name, value }) {
            Ok(spot) => value_after(&self.lists, spot, 1),
            Err(spot) => value_after(&self.lists, spot, 0),
        }
    }
}
