//! A list in an order, in pages that versions share.

ghost use Rattle.std.specs.Prelude.{◌≡◌, ◌+◌, ◌<◌, ◌≤◌, [], length, map, drop, slice_index_or};
ghost use Rattle.std.specs.Prelude.{slice_get, slice_set, Some, MatchResult, IfSome, IfNone, IfOk};
ghost use Rattle.std.specs.Prelude.{IfErr, OnOk, OnErr};
ghost use Rattle.std.specs.List.{insert};
ghost use Rattle.pages.specs.Pages.{IsPrefix, IsChanged};
ghost use Rattle.pages.specs.Sorted.{place_of, IsSpot, HasEntry, entries_of, IsSplit, IsHit, IsGap};

use crate::edit::{insert_at, replace_at};
use crate::page::Top;
use crate::place::{entry_after, place_at};
use crate::rewrite::{WholeChange, change_at};
use crate::search::{entry_in_groups, find_in_groups, is_in_groups};
use crate::walk::step;
use crate::{Entry, Probe, Spot};
use std::alloc::{AllocError, Global};
use std::marker::Model;
use std::sync::Arc;

/// A list in an order, whose versions share their pages: pages of at most 128 entries, in groups of
/// at most 128 pages.
///
/// Clauses see the lists of the pages of each group, and `entries_of` them is the plain list. The
/// order is the caller's: a search takes a [`Probe`] that knows it, and an insertion takes the
/// [`Spot`] that a search found. A clone copies one pointer. Of one page, one group and the page of
/// groups, an insertion copies those that another version holds.
#[derive(Drop)]
pub struct SortedPages<E: Entry> {
    top: Top<E>,
    len: usize,
}

impl<E: Entry> Model for SortedPages<E> {
    ghost use Rattle.std.specs.Prelude.{◌≡◌, ◌<◌, ◌^◌, List, length};
    ghost use Rattle.pages.specs.Pages.{top_groups};
    ghost use Rattle.pages.specs.Sorted.{AreGroups, entries_of};

    ghost Value = { List (List (List E.Item)) };

    ghost view = { λ pages. top_groups E.item pages.top };

    ghost invariant = { λ pages. AreGroups (top_groups E.item pages.top)
        × (pages.len ≡ length (entries_of (top_groups E.item pages.top)))
        × (pages.len < 2 ^ 64) };
}

impl<E: Entry> SortedPages<E> {
    /// The list of no entry.
    pub fn new(alloc: Global) -> Result<SortedPages<E>, AllocError>
        ensures { IfOk result (λ pages. pages ≡ []) }
    {
        let top = Arc::new(alloc, Vec::new(alloc))?;
        Ok(SortedPages { top, len: 0 })
    }

    /// How many entries it has.
    pub fn len(&self) -> usize
        ensures { result ≡ length (entries_of self.now) }
    {
        self.len
    }

    /// The place of a spot: it goes over the groups, and over the pages of one of them.
    pub fn place(&self, spot: Spot) -> usize
        requires { IsSpot self.now spot }
        ensures { result ≡ place_of self.now spot }
    {
        place_at(self.top.as_slice(), spot)
    }

    /// The entry so many places after a spot: it goes over the pages between.
    pub fn entry_after(&self, spot: Spot, n: usize) -> &E
        requires spot { IsSpot self.now spot }
        requires held { place_of self.now spot + n < length (entries_of self.now) }
        ensures { slice_get (entries_of self.now) (place_of self.now spot + n)
            ≡ Some (E.item result.now) }
    {
        entry_after(self.top.as_slice(), spot, n)
    }

    /// Where the sought entry stands, or else would stand, in a list that the probe splits: three
    /// searches by halving.
    pub fn find<P: Probe<E>>(&self, probe: &P) -> Result<Spot, Spot>
        ensures found { IsSplit (P.order probe.now) (entries_of self.now)
            → IfOk result (λ spot.
            IsHit (P.order probe.now) (entries_of self.now) (place_of self.now spot)) }
        ensures absent { IsSplit (P.order probe.now) (entries_of self.now)
            → IfErr result (λ spot.
            IsGap (P.order probe.now) (entries_of self.now) (place_of self.now spot)) }
        ensures spot { MatchResult result (IsSpot self.now) (IsSpot self.now) }
        ensures entry { IfOk result (HasEntry self.now) }
    {
        find_in_groups(self.top.as_slice(), probe)
    }

    /// The entry at a spot.
    pub fn at(&self, spot: Spot) -> &E
        requires { HasEntry self.now spot }
        ensures { slice_get (entries_of self.now) (place_of self.now spot)
            ≡ Some (E.item result.now) }
    {
        entry_in_groups(self.top.as_slice(), spot)
    }

    /// The entry at a spot, `None` where none stands there.
    pub fn get(&self, spot: Spot) -> Option<&E>
        ensures none { IfNone result (¬ HasEntry self.now spot) }
        ensures entry { IfSome result (λ _. HasEntry self.now spot) }
        ensures some { IfSome result (λ x. slice_get (entries_of self.now) (place_of self.now spot)
            ≡ Some (E.item x.now)) }
    {
        if is_in_groups(self.top.as_slice(), spot) {
            Some(self.at(spot))
        } else {
            None
        }
    }

    /// The spot of the first place.
    pub fn start(&self) -> Spot
        ensures spot { IsSpot self.now result }
        ensures place { place_of self.now result ≡ 0 }
    {
        Spot {
            group: 0,
            page: 0,
            at: 0,
        }
    }

    /// The entries from a spot to the end of a page, and the spot after them; `None` where none
    /// follows.
    pub fn walk(&self, spot: Spot) -> Option<(&[E], Spot)>
        requires { IsSpot self.now spot }
        ensures none { IfNone result (length (entries_of self.now) ≤ place_of self.now spot) }
        ensures some { IfSome result (λ step. 0 < length step.0.now) }
        ensures prefix { IfSome result (λ step. IsPrefix (map E.item step.0.now)
            (drop (place_of self.now spot) (entries_of self.now))) }
        ensures spot { IfSome result (λ step. IsSpot self.now step.1) }
        ensures after { IfSome result (λ step. place_of self.now step.1
            ≡ place_of self.now spot + length step.0.now) }
    {
        step(self.top.as_slice(), spot)
    }

    /// Puts an entry at a spot, before what stands there. Other spots are no longer valid. No list
    /// has more than `usize::MAX` entries: one more is an error.
    pub fn insert(&mut self, alloc: Global, spot: Spot, x: E) -> Result<(), AllocError>
        requires { IsSpot self.old spot }
        ensures ok { OnOk result (entries_of self.new
            ≡ insert (entries_of self.old) (place_of self.old spot) (E.item x)) }
        ensures err { OnErr result (self.new ≡ self.old) }
    {
        let len = self.len;
        if len == usize::MAX {
            return Err(AllocError);
        }
        insert_at(alloc, &mut self.top, spot, x)?;
        self.len = len + 1;
        Ok(())
    }

    /// Replaces the entry at a spot.
    pub fn set(&mut self, spot: Spot, x: E) -> Result<(), AllocError>
        requires { HasEntry self.old spot }
        ensures ok { OnOk result (entries_of self.new
            ≡ slice_set (entries_of self.old) (place_of self.old spot) (E.item x)) }
        ensures err { OnErr result (self.new ≡ self.old) }
    {
        replace_at(&mut self.top, spot, x)
    }

    /// Changes the entry at a spot in its place, or leaves all as it is.
    pub fn change<C: WholeChange<E>>(&mut self, spot: Spot, change: &C) -> Result<(), AllocError>
        requires { HasEntry self.old spot }
        ensures ok { OnOk result (IsChanged (C.after change.now) (entries_of self.old)
            (place_of self.old spot) (entries_of self.new)) }
        ensures err { OnErr result (self.new ≡ self.old) }
    {
        change_at(&mut self.top, spot, change)
    }

    /// The same list, which shares all pages: one pointer is copied.
    pub fn try_clone(&self) -> Result<SortedPages<E>, AllocError>
        ensures { IfOk result (λ pages. pages ≡ self.now) }
    {
        Ok(SortedPages {
            top: Arc::try_clone(&self.top)?,
            len: self.len,
        })
    }
}
