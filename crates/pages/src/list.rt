//! A list in pages that versions share.

ghost use Rattle.std.specs.Prelude.{◌≡◌, ◌<◌, ◌≤◌, ◌++◌, [], ◌∷◌, length, drop, map, slice_get};
ghost use Rattle.std.specs.Prelude.{slice_set, slice_index_or, Some, IfSome, IfNone, IfOk, OnOk};
ghost use Rattle.std.specs.Prelude.{OnErr};
ghost use Rattle.pages.specs.Pages.{IsLeafSize, IsPrefix, IsChanged, IsSetAt};

use crate::Entry;
use crate::change::{Change, change_in_top};
use crate::page::{Top, push_to_top, set_in_top, top_from};
use std::alloc::{AllocError, Global};
use std::marker::Model;
use std::sync::Arc;

/// A list whose versions share their pages: leaves of `LEAF` entries, 128 of them in a branch, and
/// one page of branches.
///
/// Clauses see the plain list. A clone copies one pointer. Of the three pages on its way, a write
/// copies those that another version holds, and no others. So it costs at most `LEAF` clones of an
/// entry and 128 counts of leaves, beside a count of each branch: 512 of them hold 1,048,576
/// entries in leaves of 16, and the page of branches grows beyond that.
#[derive(Drop)]
pub struct PagedList<E: Entry, const LEAF: usize> {
    top: Top<E>,
    len: usize,
}

impl<E: Entry, const LEAF: usize> Model for PagedList<E, LEAF> {
    ghost use Rattle.std.specs.Prelude.{◌≡◌, List, length};
    ghost use Rattle.pages.specs.Pages.{IsLeafSize, IsTop, top_list};

    ghost Value = { List E.Item };

    ghost view = { λ list. top_list E.item list.top };

    ghost invariant = { λ list. IsLeafSize LEAF × IsTop E.item LEAF list.top
        × (list.len ≡ length (top_list E.item list.top)) };
}

impl<E: Entry, const LEAF: usize> PagedList<E, LEAF> {
    /// The empty list. `LEAF` is from 8 to 65,536: small for pointers, whose copies are counted,
    /// and large for numbers.
    pub fn new(alloc: Global) -> Result<PagedList<E, LEAF>, AllocError>
        requires { IsLeafSize LEAF }
        ensures { IfOk result (λ list. list ≡ []) }
    {
        let top = Arc::new(alloc, Vec::new(alloc))?;
        Ok(PagedList { top, len: 0 })
    }

    /// How many entries it has.
    pub fn len(&self) -> usize
        ensures { result ≡ length self.now }
    {
        self.len
    }

    /// The entries from a place to the end of the leaf that holds it.
    pub fn leaf_from(&self, i: usize) -> &[E]
        requires { i < length self.now }
        ensures some { 0 < length result.now }
        ensures prefix { IsPrefix (map E.item result.now) (drop i self.now) }
    {
        top_from::<E, LEAF>(self.top.as_slice(), i)
    }

    /// The entry at a place of the list: three reads, and no search.
    pub fn at(&self, i: usize) -> &E
        requires { i < length self.now }
        ensures { E.item result.now ≡ slice_index_or self.now i (E.item result.now) }
    {
        &self.leaf_from(i)[0]
    }

    /// The entry at a place, `None` from the end on.
    pub fn get(&self, i: usize) -> Option<&E>
        ensures none { IfNone result (length self.now ≤ i) }
        ensures some { IfSome result (λ x. slice_get self.now i ≡ Some (E.item x.now)) }
    {
        if i < self.len() {
            Some(&self.leaf_from(i)[0])
        } else {
            None
        }
    }

    /// Adds an entry at the end. No list has more than `usize::MAX` entries: there it is an error.
    pub fn push(&mut self, alloc: Global, x: E) -> Result<(), AllocError>
        ensures ok { OnOk result (self.new ≡ self.old ++ E.item x ∷ []) }
        ensures err { OnErr result (self.new ≡ self.old) }
    {
        let len = self.len;
        if len == usize::MAX {
            return Err(AllocError);
        }
        push_to_top::<E, LEAF>(alloc, &mut self.top, len, x)?;
        self.len = len + 1;
        Ok(())
    }

    /// Replaces the entry at a place.
    pub fn set(&mut self, i: usize, x: E) -> Result<(), AllocError>
        requires { i < length self.old }
        ensures ok { OnOk result (self.new ≡ slice_set self.old i (E.item x)) }
        ensures err { OnErr result (self.new ≡ self.old) }
    {
        set_in_top::<E, LEAF>(&mut self.top, i, x)
    }

    /// Changes the entry at a place. After an `Err` that entry may be another, and all others are
    /// as they were.
    pub fn change<C: Change<E>>(&mut self, i: usize, change: &C) -> Result<(), AllocError>
        requires { i < length self.old }
        ensures ok { OnOk result (IsChanged (C.after change.now) self.old i self.new) }
        ensures others { IsSetAt self.old i self.new }
        ensures count { length self.new ≡ length self.old }
    {
        change_in_top::<E, LEAF, C>(&mut self.top, i, change)
    }

    /// The same list, which shares all pages: one pointer is copied.
    pub fn try_clone(&self) -> Result<PagedList<E, LEAF>, AllocError>
        ensures { IfOk result (λ list. list ≡ self.now) }
    {
        Ok(PagedList {
            top: Arc::try_clone(&self.top)?,
            len: self.len,
        })
    }
}
