//! The order of a head: the places of its series, by their label sets.

ghost use Rattle.std.specs.Prelude.{◌≡◌, [], IfOk, OnOk, OnErr};
ghost use Rattle.std.specs.FinMap.Entries.{find, put};
ghost use Rattle.labels.specs.Labels.{labels_cmp};

use labels::LabelSet;
use pages::{Entry, Probe, SortedPages, Spot};
use std::alloc::{AllocError, Global};
use std::cmp::Ordering;
use std::marker::Model;

/// A label set, and the place of its series.
#[derive(Drop)]
struct Placed {
    labels: LabelSet,
    place: u32,
}

impl Model for Placed {
    ghost use Rattle.std.specs.Prelude.{ℕ, List};

    ghost Value = { List (List ℕ × List ℕ) × ℕ };

    ghost view = { λ p. (p.labels, p.place) };
}

impl Clone for Placed {
    ghost is_clone = { λ x y. y ≡ x };

    fn clone(&self) -> Result<Placed, AllocError> {
        Placed::new(&self.labels, self.place)
    }
}

impl Entry for Placed {
    type Item = Placed;

    ghost item = { λ x. x };

    ghost same = { λ x y e. e };
}

impl Placed {
    fn new(labels: &LabelSet, place: u32) -> Result<Placed, AllocError>
        ensures { IfOk result (λ placed. placed ≡ (labels.now, place)) }
    {
        let labels = labels.try_clone()?;
        Ok(Placed { labels, place })
    }

    fn labels(&self) -> &LabelSet
        ensures { result.now ≡ self.now.0 }
    {
        &self.labels
    }

    fn place(&self) -> u32
        ensures { result ≡ self.now.1 }
    {
        self.place
    }
}

/// The label set that a search seeks.
#[derive(Drop)]
struct Sought<'a> {
    labels: &'a LabelSet,
}

impl<'a> Probe<Placed> for Sought<'a> {
    ghost use Rattle.labels.specs.Labels.{labels_cmp};

    ghost order = { λ probe y. labels_cmp y.0 probe.labels.now };

    fn compare(&self, entry: &Placed) -> Ordering {
        entry.labels().cmp(self.labels)
    }
}

/// Label sets, each with the place of its series. Versions share what they have in common.
///
/// Clauses see the label sets in ascending order, each with its place.
#[derive(Drop)]
pub(crate) struct Order {
    sets: SortedPages<Placed>,
}

impl Model for Order {
    ghost use Rattle.std.specs.Prelude.{ℕ, List, T};
    ghost use Rattle.std.specs.FinMap.Entries.{is_sorted};
    ghost use Rattle.labels.specs.Labels.{labels_cmp};
    ghost use Rattle.pages.specs.Sorted.{entries_of};

    ghost Value = { List (List (List ℕ × List ℕ) × ℕ) };

    ghost view = { λ order. entries_of order.sets };

    ghost invariant = { λ order. T (is_sorted labels_cmp (entries_of order.sets)) };
}

impl Order {
    ghost use Rattle.std.specs.Prelude.{T, Some, IfSome, IfNone, None, is_some};
    ghost use Rattle.std.specs.FinMap.Entries.{is_sorted};

    /// The order of no label set.
    pub(crate) fn new(alloc: Global) -> Result<Order, AllocError>
        ensures { IfOk result (λ order. order ≡ []) }
    {
        let sets = SortedPages::new(alloc)?;
        Ok(Order { sets })
    }

    /// The same order, which shares all pages: one pointer is copied.
    pub(crate) fn try_clone(&self) -> Result<Order, AllocError>
        ensures { IfOk result (λ order. order ≡ self.now) }
    {
        let sets = self.sets.try_clone()?;
        Ok(Order { sets })
    }

    /// The place of a label set, if its entry stands at a spot.
    fn place_at(&self, labels: &LabelSet, spot: Spot) -> Option<u32>
        ensures { IfSome result (λ place. find labels_cmp labels.now self.now ≡ Some place) }
    {
        let placed = self.sets.get(spot)?;
        match placed.labels().cmp(labels) {
            Ordering::Equal => Some(placed.place()),
            _ => None,
        }
    }

    /// The place of a label set. It looks first at the spot after the one where the last search
    /// ended: a batch often has series in their order.
    pub(crate) fn place_of(&self, labels: &LabelSet, near: &mut Spot) -> Option<u32>
        ensures { result ≡ find labels_cmp labels.now self.now }
    {
        let next = Spot {
            group: near.group,
            page: near.page,
            at: near.at.saturating_add(1),
        };
        if let Some(place) = self.place_at(labels, next) {
            *near = next;
            return Some(place);
        }
        match self.sets.find(&Sought { labels }) {
            Ok(spot) => {
                *near = spot;
                Some(self.sets.at(spot).place())
            }
            Err(_) => None,
        }
    }

    /// Whether a label set has a place.
    pub(crate) fn has(&self, labels: &LabelSet) -> bool
        ensures { result ≡ is_some (find labels_cmp labels.now self.now) }
    {
        let mut near = Spot {
            group: 0,
            page: 0,
            at: 0,
        };
        self.place_of(labels, &mut near).is_some()
    }

    /// Gives a label set a place. After an `Err` all is as it was.
    pub(crate) fn insert(
        &mut self,
        alloc: Global,
        labels: &LabelSet,
        place: u32,
    ) -> Result<(), AllocError>
        ensures ok { OnOk result (self.new ≡ put labels_cmp labels.now place self.old) }
        ensures err { OnErr result (self.new ≡ self.old) }
    {
        let placed = Placed::new(labels, place)?;
        match self.sets.find(&Sought { labels }) {
            Ok(spot) => self.sets.set(spot, placed),
            Err(spot) => self.sets.insert(alloc, spot, placed),
        }
    }
}
