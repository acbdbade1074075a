//! Changes of one entry in its place: of the pages on the way, those that another version holds are
//! copied first.

ghost use Rattle.std.specs.Prelude.{◌≡◌, ◌<◌, length, OnOk};
ghost use Rattle.pages.specs.Pages.{leaf_list, leaf_lists, leaves_list, branch_list, branch_parts};
ghost use Rattle.pages.specs.Pages.{branch_lists, branches_list, top_list, IsLeafSize, IsPaged};
ghost use Rattle.pages.specs.Pages.{IsBranch, AreBranches, IsTop, IsChanged, IsSetAt};

use crate::Entry;
use crate::page::{Branch, FAN, Leaf, Top};
use std::alloc::AllocError;
use std::sync::Arc;

/// What is done to one entry in its place.
pub trait Change<E: Entry> {
    ghost after: { Self → E.Item → E.Item };

    /// Changes the entry. After an `Err` it may be another.
    fn change(&self, entry: &mut E) -> Result<(), AllocError>
        ensures { OnOk result (E.item entry.new ≡ after self.now (E.item entry.old)) };
}

fn change_in_leaf<E: Entry, C: Change<E>>(
    leaf: &mut Leaf<E>,
    at: usize,
    change: &C,
) -> Result<(), AllocError>
    requires { at < length (leaf_list E.item leaf.old) }
    ensures ok { OnOk result (IsChanged (C.after change.now) (leaf_list E.item leaf.old) at
        (leaf_list E.item leaf.new)) }
    ensures others { IsSetAt (leaf_list E.item leaf.old) at (leaf_list E.item leaf.new) }
    ensures count { length (leaf_list E.item leaf.new) ≡ length (leaf_list E.item leaf.old) }
{
    let own = Arc::make_mut(leaf)?;
    change.change(&mut own[at])
}

fn change_in_leaves<E: Entry, const LEAF: usize, C: Change<E>>(
    leaves: &mut Vec<Leaf<E>>,
    at: usize,
    change: &C,
) -> Result<(), AllocError>
    requires size { IsLeafSize LEAF }
    requires paged { IsPaged LEAF (leaf_lists E.item leaves.old.items) }
    requires held { at < length (leaves_list E.item leaves.old.items) }
    ensures ok { OnOk result (IsChanged (C.after change.now)
        (leaves_list E.item leaves.old.items) at (leaves_list E.item leaves.new.items)) }
    ensures others { IsSetAt (leaves_list E.item leaves.old.items) at
        (leaves_list E.item leaves.new.items) }
    ensures count { length (leaves_list E.item leaves.new.items)
        ≡ length (leaves_list E.item leaves.old.items) }
    ensures paged { IsPaged LEAF (leaf_lists E.item leaves.new.items) }
{
    change_in_leaf(&mut leaves[at / LEAF], at % LEAF, change)
}

fn change_in_branch<E: Entry, const LEAF: usize, C: Change<E>>(
    branch: &mut Branch<E>,
    at: usize,
    change: &C,
) -> Result<(), AllocError>
    requires size { IsLeafSize LEAF }
    requires paged { IsBranch E.item LEAF branch.old }
    requires held { at < length (branch_list E.item branch.old) }
    ensures ok { OnOk result (IsChanged (C.after change.now) (branch_list E.item branch.old) at
        (branch_list E.item branch.new)) }
    ensures others { IsSetAt (branch_list E.item branch.old) at (branch_list E.item branch.new) }
    ensures count { length (branch_list E.item branch.new)
        ≡ length (branch_list E.item branch.old) }
    ensures paged { IsBranch E.item LEAF branch.new }
{
    let own = Arc::make_mut(branch)?;
    change_in_leaves::<E, LEAF, C>(own, at, change)
}

fn change_in_branches<E: Entry, const LEAF: usize, C: Change<E>>(
    branches: &mut Vec<Branch<E>>,
    at: usize,
    change: &C,
) -> Result<(), AllocError>
    requires size { IsLeafSize LEAF }
    requires branches { AreBranches E.item LEAF branches.old.items }
    requires held { at < length (branches_list E.item branches.old.items) }
    ensures ok { OnOk result (IsChanged (C.after change.now)
        (branches_list E.item branches.old.items) at (branches_list E.item branches.new.items)) }
    ensures others { IsSetAt (branches_list E.item branches.old.items) at
        (branches_list E.item branches.new.items) }
    ensures count { length (branches_list E.item branches.new.items)
        ≡ length (branches_list E.item branches.old.items) }
    ensures branches { AreBranches E.item LEAF branches.new.items }
{
    change_in_branch::<E, LEAF, C>(&mut branches[at / (LEAF * FAN)], at % (LEAF * FAN), change)
}

/// Changes the entry at a place.
pub(crate) fn change_in_top<E: Entry, const LEAF: usize, C: Change<E>>(
    top: &mut Top<E>,
    at: usize,
    change: &C,
) -> Result<(), AllocError>
    requires size { IsLeafSize LEAF }
    requires top { IsTop E.item LEAF top.old }
    requires held { at < length (top_list E.item top.old) }
    ensures ok { OnOk result (IsChanged (C.after change.now) (top_list E.item top.old) at
        (top_list E.item top.new)) }
    ensures others { IsSetAt (top_list E.item top.old) at (top_list E.item top.new) }
    ensures count { length (top_list E.item top.new) ≡ length (top_list E.item top.old) }
    ensures top { IsTop E.item LEAF top.new }
{
    let own = Arc::make_mut(top)?;
    change_in_branches::<E, LEAF, C>(own, at, change)
}
