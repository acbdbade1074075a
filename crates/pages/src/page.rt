//! Pages, and pages of pages: a write copies those on its way that another version holds.

ghost use Rattle.std.specs.Prelude.{◌≡◌, ◌+◌, ◌<◌, [], ◌∷◌, ◌++◌, length, map, drop, slice_set};
ghost use Rattle.std.specs.Prelude.{IfOk, OnOk, OnErr};
ghost use Rattle.pages.specs.Pages.{leaf_list, leaf_lists, leaves_list, branch_list, branch_parts};
ghost use Rattle.pages.specs.Pages.{branch_lists, branches_list, top_list, IsLeafSize, IsPaged};
ghost use Rattle.pages.specs.Pages.{IsBranch, AreBranches, IsTop, IsPrefix};

use crate::Entry;
use std::alloc::{AllocError, Global};
use std::sync::Arc;

/// The most entries of a sorted page.
pub const FULL: usize = 128;

/// The leaves of a full branch.
pub const FAN: usize = 128;

pub(crate) type Leaf<E> = Arc<Vec<E>>;

pub(crate) type Branch<E> = Arc<Vec<Arc<Vec<E>>>>;

pub(crate) type Top<E> = Arc<Vec<Arc<Vec<Arc<Vec<E>>>>>>;

pub(crate) fn leaf_from<E>(leaf: &[E], at: usize) -> &[E]
    requires { at < length leaf.now }
    ensures { result.now ≡ drop at leaf.now }
{
    &leaf[at..]
}

fn branch_from<E: Entry, const LEAF: usize>(branch: &[Leaf<E>], at: usize) -> &[E]
    requires size { IsLeafSize LEAF }
    requires paged { IsPaged LEAF (leaf_lists E.item branch.now) }
    requires held { at < length (leaves_list E.item branch.now) }
    ensures some { 0 < length result.now }
    ensures prefix { IsPrefix (map E.item result.now) (drop at (leaves_list E.item branch.now)) }
{
    leaf_from(branch[at / LEAF].as_slice(), at % LEAF)
}

/// The entries from a place to the end of the leaf that holds it.
pub(crate) fn top_from<E: Entry, const LEAF: usize>(top: &[Branch<E>], at: usize) -> &[E]
    requires size { IsLeafSize LEAF }
    requires branches { AreBranches E.item LEAF top.now }
    requires held { at < length (branches_list E.item top.now) }
    ensures some { 0 < length result.now }
    ensures prefix { IsPrefix (map E.item result.now) (drop at (branches_list E.item top.now)) }
{
    branch_from::<E, LEAF>(top[at / (LEAF * FAN)].as_slice(), at % (LEAF * FAN))
}

pub(crate) fn set_in_leaf<E: Entry>(leaf: &mut Leaf<E>, at: usize, x: E) -> Result<(), AllocError>
    requires { at < length (leaf_list E.item leaf.old) }
    ensures ok { OnOk result (leaf_list E.item leaf.new
        ≡ slice_set (leaf_list E.item leaf.old) at (E.item x)) }
    ensures err { OnErr result (leaf_list E.item leaf.new ≡ leaf_list E.item leaf.old) }
{
    let own = Arc::make_mut(leaf)?;
    own[at] = x;
    Ok(())
}

fn set_in_leaves<E: Entry, const LEAF: usize>(
    leaves: &mut Vec<Leaf<E>>,
    at: usize,
    x: E,
) -> Result<(), AllocError>
    requires size { IsLeafSize LEAF }
    requires paged { IsPaged LEAF (leaf_lists E.item leaves.old.items) }
    requires held { at < length (leaves_list E.item leaves.old.items) }
    ensures ok { OnOk result (leaves_list E.item leaves.new.items
        ≡ slice_set (leaves_list E.item leaves.old.items) at (E.item x)) }
    ensures err { OnErr result (leaf_lists E.item leaves.new.items
        ≡ leaf_lists E.item leaves.old.items) }
    ensures paged { IsPaged LEAF (leaf_lists E.item leaves.new.items) }
{
    set_in_leaf(&mut leaves[at / LEAF], at % LEAF, x)
}

fn set_in_branch<E: Entry, const LEAF: usize>(
    branch: &mut Branch<E>,
    at: usize,
    x: E,
) -> Result<(), AllocError>
    requires size { IsLeafSize LEAF }
    requires paged { IsBranch E.item LEAF branch.old }
    requires held { at < length (branch_list E.item branch.old) }
    ensures ok { OnOk result (branch_list E.item branch.new
        ≡ slice_set (branch_list E.item branch.old) at (E.item x)) }
    ensures err { OnErr result (branch_list E.item branch.new ≡ branch_list E.item branch.old) }
    ensures paged { IsBranch E.item LEAF branch.new }
{
    let own = Arc::make_mut(branch)?;
    set_in_leaves::<E, LEAF>(own, at, x)
}

fn set_in_branches<E: Entry, const LEAF: usize>(
    branches: &mut Vec<Branch<E>>,
    at: usize,
    x: E,
) -> Result<(), AllocError>
    requires size { IsLeafSize LEAF }
    requires branches { AreBranches E.item LEAF branches.old.items }
    requires held { at < length (branches_list E.item branches.old.items) }
    ensures ok { OnOk result (branches_list E.item branches.new.items
        ≡ slice_set (branches_list E.item branches.old.items) at (E.item x)) }
    ensures err { OnErr result (branches_list E.item branches.new.items
        ≡ branches_list E.item branches.old.items) }
    ensures branches { AreBranches E.item LEAF branches.new.items }
{
    set_in_branch::<E, LEAF>(&mut branches[at / (LEAF * FAN)], at % (LEAF * FAN), x)
}

/// Sets an entry.
pub(crate) fn set_in_top<E: Entry, const LEAF: usize>(
    top: &mut Top<E>,
    at: usize,
    x: E,
) -> Result<(), AllocError>
    requires size { IsLeafSize LEAF }
    requires top { IsTop E.item LEAF top.old }
    requires held { at < length (top_list E.item top.old) }
    ensures ok { OnOk result (top_list E.item top.new
        ≡ slice_set (top_list E.item top.old) at (E.item x)) }
    ensures err { OnErr result (top_list E.item top.new ≡ top_list E.item top.old) }
    ensures top { IsTop E.item LEAF top.new }
{
    let own = Arc::make_mut(top)?;
    set_in_branches::<E, LEAF>(own, at, x)
}

pub(crate) fn leaf_of<E: Entry>(alloc: Global, x: E) -> Result<Leaf<E>, AllocError>
    ensures { IfOk result (λ leaf. leaf_list E.item leaf ≡ E.item x ∷ []) }
{
    let mut leaf = Vec::new(alloc);
    leaf.push(x)?;
    Ok(Arc::new(alloc, leaf)?)
}

pub(crate) fn branch_of<E: Entry>(alloc: Global, x: E) -> Result<Branch<E>, AllocError>
    ensures { IfOk result (λ branch. branch_parts E.item branch ≡ (E.item x ∷ []) ∷ []) }
{
    let mut leaves = Vec::new(alloc);
    leaves.push(leaf_of(alloc, x)?)?;
    Ok(Arc::new(alloc, leaves)?)
}

fn push_to_leaf<E: Entry>(leaf: &mut Leaf<E>, x: E) -> Result<(), AllocError>
    ensures ok { OnOk result (leaf_list E.item leaf.new
        ≡ leaf_list E.item leaf.old ++ E.item x ∷ []) }
    ensures err { OnErr result (leaf_list E.item leaf.new ≡ leaf_list E.item leaf.old) }
{
    let own = Arc::make_mut(leaf)?;
    own.push(x)?;
    Ok(())
}

fn push_to_leaves<E: Entry, const LEAF: usize>(
    alloc: Global,
    leaves: &mut Vec<Leaf<E>>,
    at: usize,
    x: E,
) -> Result<(), AllocError>
    requires size { IsLeafSize LEAF }
    requires paged { IsPaged LEAF (leaf_lists E.item leaves.old.items) }
    requires end { at ≡ length (leaves_list E.item leaves.old.items) }
    ensures ok { OnOk result (leaves_list E.item leaves.new.items
        ≡ leaves_list E.item leaves.old.items ++ E.item x ∷ []) }
    ensures err { OnErr result (leaf_lists E.item leaves.new.items
        ≡ leaf_lists E.item leaves.old.items) }
    ensures paged { IsPaged LEAF (leaf_lists E.item leaves.new.items) }
{
    if at / LEAF < leaves.len() {
        return push_to_leaf(&mut leaves[at / LEAF], x);
    }
    leaves.push(leaf_of(alloc, x)?)?;
    Ok(())
}

fn push_to_branch<E: Entry, const LEAF: usize>(
    alloc: Global,
    branch: &mut Branch<E>,
    at: usize,
    x: E,
) -> Result<(), AllocError>
    requires size { IsLeafSize LEAF }
    requires paged { IsBranch E.item LEAF branch.old }
    requires end { at ≡ length (branch_list E.item branch.old) }
    ensures ok { OnOk result (branch_list E.item branch.new
        ≡ branch_list E.item branch.old ++ E.item x ∷ []) }
    ensures err { OnErr result (branch_list E.item branch.new ≡ branch_list E.item branch.old) }
    ensures paged { IsBranch E.item LEAF branch.new }
{
    let own = Arc::make_mut(branch)?;
    push_to_leaves::<E, LEAF>(alloc, own, at, x)
}

fn push_to_branches<E: Entry, const LEAF: usize>(
    alloc: Global,
    branches: &mut Vec<Branch<E>>,
    at: usize,
    x: E,
) -> Result<(), AllocError>
    requires size { IsLeafSize LEAF }
    requires branches { AreBranches E.item LEAF branches.old.items }
    requires end { at ≡ length (branches_list E.item branches.old.items) }
    ensures ok { OnOk result (branches_list E.item branches.new.items
        ≡ branches_list E.item branches.old.items ++ E.item x ∷ []) }
    ensures err { OnErr result (branches_list E.item branches.new.items
        ≡ branches_list E.item branches.old.items) }
    ensures branches { AreBranches E.item LEAF branches.new.items }
{
    if at / (LEAF * FAN) < branches.len() {
        return push_to_branch::<E, LEAF>(
            alloc,
            &mut branches[at / (LEAF * FAN)],
            at % (LEAF * FAN),
            x,
        );
    }
    branches.push(branch_of(alloc, x)?)?;
    Ok(())
}

/// Adds an entry at the end, which is at this place.
pub(crate) fn push_to_top<E: Entry, const LEAF: usize>(
    alloc: Global,
    top: &mut Top<E>,
    at: usize,
    x: E,
) -> Result<(), AllocError>
    requires size { IsLeafSize LEAF }
    requires top { IsTop E.item LEAF top.old }
    requires end { at ≡ length (top_list E.item top.old) }
    ensures ok { OnOk result (top_list E.item top.new ≡ top_list E.item top.old ++ E.item x ∷ []) }
    ensures err { OnErr result (top_list E.item top.new ≡ top_list E.item top.old) }
    ensures top { IsTop E.item LEAF top.new }
{
    let own = Arc::make_mut(top)?;
    push_to_branches::<E, LEAF>(alloc, own, at, x)
}
