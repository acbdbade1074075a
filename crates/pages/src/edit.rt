//! Writes to sorted pages: what another version holds of the pages on their way is copied first.

ghost use Rattle.std.specs.Prelude.{◌≡◌, ℕ, ◌+◌, ◌<◌, ◌≤◌, [], ◌++◌, length, map, slice_index_or};
ghost use Rattle.std.specs.Prelude.{slice_set, IfOk, OnOk, OnErr};
ghost use Rattle.std.specs.List.{insert};
ghost use Rattle.pages.specs.Pages.{leaf_list, leaf_lists, leaves_list, branch_list, branch_parts};
ghost use Rattle.pages.specs.Pages.{groups_of, top_groups};
ghost use Rattle.pages.specs.Sorted.{start_of, groups_list, top_entries, put_in, set_in, put_at};
ghost use Rattle.pages.specs.Sorted.{set_at, IsSpotIn, IsSpot, HasEntryIn, HasEntry, MakesPage};
ghost use Rattle.pages.specs.Sorted.{EachMakesPage, IsGroup, AreGroups};

use crate::page::{Branch, FAN, FULL, Leaf, Top, branch_of, set_in_leaf};
use crate::{Entry, Spot};
use std::alloc::{AllocError, Global};
use std::sync::Arc;

fn set_in_pages<E: Entry>(pages: &mut Vec<Leaf<E>>, spot: Spot, x: E) -> Result<(), AllocError>
    requires group { IsGroup (leaf_lists E.item pages.old.items) }
    requires entry { HasEntryIn (leaf_lists E.item pages.old.items) spot }
    ensures ok { OnOk result (leaves_list E.item pages.new.items
        ≡ set_in (leaf_lists E.item pages.old.items) spot (E.item x)) }
    ensures err { OnErr result (leaf_lists E.item pages.new.items
        ≡ leaf_lists E.item pages.old.items) }
    ensures group { IsGroup (leaf_lists E.item pages.new.items) }
{
    set_in_leaf(&mut pages[spot.page], spot.at, x)
}

fn set_in_group<E: Entry>(group: &mut Branch<E>, spot: Spot, x: E) -> Result<(), AllocError>
    requires group { IsGroup (branch_parts E.item group.old) }
    requires entry { HasEntryIn (branch_parts E.item group.old) spot }
    ensures ok { OnOk result (branch_list E.item group.new
        ≡ set_in (branch_parts E.item group.old) spot (E.item x)) }
    ensures err { OnErr result (branch_parts E.item group.new ≡ branch_parts E.item group.old) }
    ensures group { IsGroup (branch_parts E.item group.new) }
{
    let own = Arc::make_mut(group)?;
    set_in_pages(own, spot, x)
}

fn set_in_groups<E: Entry>(groups: &mut Vec<Branch<E>>, spot: Spot, x: E) -> Result<(), AllocError>
    requires groups { AreGroups (groups_of E.item groups.old.items) }
    requires entry { HasEntry (groups_of E.item groups.old.items) spot }
    ensures ok { OnOk result (groups_list E.item groups.new.items
        ≡ set_at (groups_of E.item groups.old.items) spot (E.item x)) }
    ensures err { OnErr result (groups_of E.item groups.new.items
        ≡ groups_of E.item groups.old.items) }
    ensures groups { AreGroups (groups_of E.item groups.new.items) }
{
    set_in_group(&mut groups[spot.group], spot, x)
}

/// Replaces the entry at a spot.
pub(crate) fn replace_at<E: Entry>(top: &mut Top<E>, spot: Spot, x: E) -> Result<(), AllocError>
    requires groups { AreGroups (top_groups E.item top.old) }
    requires entry { HasEntry (top_groups E.item top.old) spot }
    ensures ok { OnOk result (top_entries E.item top.new
        ≡ set_at (top_groups E.item top.old) spot (E.item x)) }
    ensures err { OnErr result (top_groups E.item top.new ≡ top_groups E.item top.old) }
    ensures groups { AreGroups (top_groups E.item top.new) }
{
    let own = Arc::make_mut(top)?;
    set_in_groups(own, spot, x)
}

/// A page with one more entry.
fn with_entry<E: Entry>(page: &Vec<E>, at: usize, x: E) -> Result<Vec<E>, AllocError>
    requires { at ≤ length page.now.items }
    ensures { IfOk result (λ long. map E.item long.items
        ≡ insert (map E.item page.now.items) at (E.item x)) }
{
    let mut long = page.clone()?;
    long.insert(at, x)?;
    Ok(long)
}

/// A full page with one more entry, in two halves. Neither has room for more: where entries come in
/// their order, the first half is never written again.
fn halves_with<E: Entry>(page: &Vec<E>, at: usize, x: E) -> Result<(Vec<E>, Vec<E>), AllocError>
    requires inside { at ≤ length page.now.items }
    requires full { length page.now.items ≡ FULL }
    ensures whole { IfOk result (λ p. map E.item p.0.items ++ map E.item p.1.items
        ≡ insert (map E.item page.now.items) at (E.item x)) }
    ensures fits { IfOk result (λ p.
        MakesPage (map E.item p.0.items) × MakesPage (map E.item p.1.items)) }
{
    let mut left = with_entry(page, at, x)?;
    let right = left.split_off(FULL / 2)?;
    left.shrink_to_fit();
    Ok((left, right))
}

fn insert_in_page<E: Entry>(page: &mut Leaf<E>, at: usize, x: E) -> Result<(), AllocError>
    requires { at ≤ length (leaf_list E.item page.old) }
    ensures ok { OnOk result (leaf_list E.item page.new
        ≡ insert (leaf_list E.item page.old) at (E.item x)) }
    ensures err { OnErr result (leaf_list E.item page.new ≡ leaf_list E.item page.old) }
{
    let own = Arc::make_mut(page)?;
    own.insert(at, x)?;
    Ok(())
}

/// Inserts into a full page, which becomes two.
fn insert_in_full_page<E: Entry>(
    alloc: Global,
    pages: &mut Vec<Leaf<E>>,
    page: usize,
    at: usize,
    x: E,
) -> Result<(), AllocError>
    requires group { IsGroup (leaf_lists E.item pages.old.items) }
    requires within { page < length pages.old.items }
    requires full { length (slice_index_or (leaf_lists E.item pages.old.items) page []) ≡ FULL }
    requires inside { at ≤ FULL }
    ensures ok { OnOk result (leaves_list E.item pages.new.items
        ≡ insert (leaves_list E.item pages.old.items)
        (start_of (leaf_lists E.item pages.old.items) page + at) (E.item x)) }
    ensures err { OnErr result (leaf_lists E.item pages.new.items
        ≡ leaf_lists E.item pages.old.items) }
    ensures group { IsGroup (leaf_lists E.item pages.new.items) }
    ensures longer { length pages.old.items ≤ length pages.new.items }
{
    let full = &pages[page];
    let (left, right) = halves_with(full, at, x)?;
    let left = Arc::new(alloc, left)?;
    let right = Arc::new(alloc, right)?;
    pages.insert(page + 1, right)?;
    pages[page] = left;
    Ok(())
}

fn insert_in_pages<E: Entry>(
    alloc: Global,
    pages: &mut Vec<Leaf<E>>,
    spot: Spot,
    x: E,
) -> Result<(), AllocError>
    requires group { IsGroup (leaf_lists E.item pages.old.items) }
    requires spot { IsSpotIn (leaf_lists E.item pages.old.items) spot }
    ensures ok { OnOk result (leaves_list E.item pages.new.items
        ≡ put_in (leaf_lists E.item pages.old.items) spot (E.item x)) }
    ensures err { OnErr result (leaf_lists E.item pages.new.items
        ≡ leaf_lists E.item pages.old.items) }
    ensures group { IsGroup (leaf_lists E.item pages.new.items) }
    ensures longer { length pages.old.items ≤ length pages.new.items }
{
    let page = spot.page;
    if pages[page].len() < FULL {
        return insert_in_page(&mut pages[page], spot.at, x);
    }
    insert_in_full_page(alloc, pages, page, spot.at, x)
}

fn insert_in_group<E: Entry>(
    alloc: Global,
    group: &mut Branch<E>,
    spot: Spot,
    x: E,
) -> Result<(), AllocError>
    requires group { IsGroup (branch_parts E.item group.old) }
    requires spot { IsSpotIn (branch_parts E.item group.old) spot }
    ensures ok { OnOk result (branch_list E.item group.new
        ≡ put_in (branch_parts E.item group.old) spot (E.item x)) }
    ensures err { OnErr result (branch_parts E.item group.new ≡ branch_parts E.item group.old) }
    ensures group { IsGroup (branch_parts E.item group.new) }
{
    let own = Arc::make_mut(group)?;
    insert_in_pages(alloc, own, spot, x)
}

/// A full group with one more entry, in two halves.
fn group_halves_with<E: Entry>(
    alloc: Global,
    group: &Vec<Leaf<E>>,
    spot: Spot,
    x: E,
) -> Result<(Vec<Leaf<E>>, Vec<Leaf<E>>), AllocError>
    requires group { IsGroup (leaf_lists E.item group.now.items) }
    requires spot { IsSpotIn (leaf_lists E.item group.now.items) spot }
    requires full { FAN ≤ length group.now.items }
    ensures whole { IfOk result (λ p. leaves_list E.item p.0.items ++ leaves_list E.item p.1.items
        ≡ put_in (leaf_lists E.item group.now.items) spot (E.item x)) }
    ensures groups { IfOk result (λ p.
        IsGroup (leaf_lists E.item p.0.items) × IsGroup (leaf_lists E.item p.1.items)) }
{
    let mut left = group.clone()?;
    insert_in_pages(alloc, &mut left, spot, x)?;
    let right = left.split_off(FAN / 2)?;
    Ok((left, right))
}

/// Inserts into a full group, which becomes two.
fn insert_in_full_group<E: Entry>(
    alloc: Global,
    groups: &mut Vec<Branch<E>>,
    spot: Spot,
    x: E,
) -> Result<(), AllocError>
    requires groups { AreGroups (groups_of E.item groups.old.items) }
    requires within { spot.group < length groups.old.items }
    requires spot { IsSpotIn
        (slice_index_or (groups_of E.item groups.old.items) spot.group []) spot }
    requires full { FAN
        ≤ length (slice_index_or (groups_of E.item groups.old.items) spot.group []) }
    ensures ok { OnOk result (groups_list E.item groups.new.items
        ≡ put_at (groups_of E.item groups.old.items) spot (E.item x)) }
    ensures err { OnErr result (groups_of E.item groups.new.items
        ≡ groups_of E.item groups.old.items) }
    ensures groups { AreGroups (groups_of E.item groups.new.items) }
{
    let full = &groups[spot.group];
    let (left, right) = group_halves_with(alloc, full, spot, x)?;
    let left = Arc::new(alloc, left)?;
    let right = Arc::new(alloc, right)?;
    groups.insert(spot.group + 1, right)?;
    groups[spot.group] = left;
    Ok(())
}

fn insert_in_groups<E: Entry>(
    alloc: Global,
    groups: &mut Vec<Branch<E>>,
    spot: Spot,
    x: E,
) -> Result<(), AllocError>
    requires groups { AreGroups (groups_of E.item groups.old.items) }
    requires spot { IsSpot (groups_of E.item groups.old.items) spot }
    ensures ok { OnOk result (groups_list E.item groups.new.items
        ≡ put_at (groups_of E.item groups.old.items) spot (E.item x)) }
    ensures err { OnErr result (groups_of E.item groups.new.items
        ≡ groups_of E.item groups.old.items) }
    ensures groups { AreGroups (groups_of E.item groups.new.items) }
{
    if groups.is_empty() {
        groups.push(branch_of(alloc, x)?)?;
        return Ok(());
    }
    let group = spot.group;
    if groups[group].len() < FAN {
        return insert_in_group(alloc, &mut groups[group], spot, x);
    }
    insert_in_full_group(alloc, groups, spot, x)
}

/// Puts an entry at a spot, before what stands there.
pub(crate) fn insert_at<E: Entry>(
    alloc: Global,
    top: &mut Top<E>,
    spot: Spot,
    x: E,
) -> Result<(), AllocError>
    requires groups { AreGroups (top_groups E.item top.old) }
    requires spot { IsSpot (top_groups E.item top.old) spot }
    ensures ok { OnOk result (top_entries E.item top.new
        ≡ put_at (top_groups E.item top.old) spot (E.item x)) }
    ensures err { OnErr result (top_groups E.item top.new ≡ top_groups E.item top.old) }
    ensures groups { AreGroups (top_groups E.item top.new) }
{
    let own = Arc::make_mut(top)?;
    insert_in_groups(alloc, own, spot, x)
}
