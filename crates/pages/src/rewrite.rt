//! Changes of one entry of sorted pages: of the pages on the way, those that another version holds
//! are copied first.

ghost use Rattle.std.specs.Prelude.{◌≡◌, ◌<◌, length, OnOk, OnErr};
ghost use Rattle.pages.specs.Pages.{leaf_list, leaf_lists, branch_parts, groups_of, top_groups};
ghost use Rattle.pages.specs.Pages.{IsChanged};
ghost use Rattle.pages.specs.Sorted.{IsChangedIn, IsChangedAt, HasEntryIn, HasEntry, IsGroup};
ghost use Rattle.pages.specs.Sorted.{AreGroups};

use crate::page::{Branch, Leaf, Top};
use crate::{Entry, Spot};
use std::alloc::AllocError;
use std::sync::Arc;

/// What is done to one entry in its place, or not at all.
pub trait WholeChange<E: Entry> {
    ghost after: { Self → E.Item → E.Item };

    /// Changes the entry. After an `Err` it has the item that it had.
    fn change(&self, entry: &mut E) -> Result<(), AllocError>
        ensures ok { OnOk result (E.item entry.new ≡ after self.now (E.item entry.old)) }
        ensures err { OnErr result (E.item entry.new ≡ E.item entry.old) };
}

fn change_in_page<E: Entry, C: WholeChange<E>>(
    page: &mut Leaf<E>,
    at: usize,
    change: &C,
) -> Result<(), AllocError>
    requires { at < length (leaf_list E.item page.old) }
    ensures ok { OnOk result (IsChanged (C.after change.now) (leaf_list E.item page.old) at
        (leaf_list E.item page.new)) }
    ensures err { OnErr result (leaf_list E.item page.new ≡ leaf_list E.item page.old) }
{
    let own = Arc::make_mut(page)?;
    change.change(&mut own[at])
}

fn change_in_pages<E: Entry, C: WholeChange<E>>(
    pages: &mut Vec<Leaf<E>>,
    spot: Spot,
    change: &C,
) -> Result<(), AllocError>
    requires group { IsGroup (leaf_lists E.item pages.old.items) }
    requires entry { HasEntryIn (leaf_lists E.item pages.old.items) spot }
    ensures ok { OnOk result (IsChangedIn (C.after change.now) (leaf_lists E.item pages.old.items)
        spot (leaf_lists E.item pages.new.items)) }
    ensures err { OnErr result (leaf_lists E.item pages.new.items
        ≡ leaf_lists E.item pages.old.items) }
    ensures group { IsGroup (leaf_lists E.item pages.new.items) }
{
    change_in_page(&mut pages[spot.page], spot.at, change)
}

fn change_in_group<E: Entry, C: WholeChange<E>>(
    group: &mut Branch<E>,
    spot: Spot,
    change: &C,
) -> Result<(), AllocError>
    requires group { IsGroup (branch_parts E.item group.old) }
    requires entry { HasEntryIn (branch_parts E.item group.old) spot }
    ensures ok { OnOk result (IsChangedIn (C.after change.now) (branch_parts E.item group.old) spot
        (branch_parts E.item group.new)) }
    ensures err { OnErr result (branch_parts E.item group.new ≡ branch_parts E.item group.old) }
    ensures group { IsGroup (branch_parts E.item group.new) }
{
    let own = Arc::make_mut(group)?;
    change_in_pages(own, spot, change)
}

fn change_in_groups<E: Entry, C: WholeChange<E>>(
    groups: &mut Vec<Branch<E>>,
    spot: Spot,
    change: &C,
) -> Result<(), AllocError>
    requires groups { AreGroups (groups_of E.item groups.old.items) }
    requires entry { HasEntry (groups_of E.item groups.old.items) spot }
    ensures ok { OnOk result (IsChangedAt (C.after change.now) (groups_of E.item groups.old.items)
        spot (groups_of E.item groups.new.items)) }
    ensures err { OnErr result (groups_of E.item groups.new.items
        ≡ groups_of E.item groups.old.items) }
    ensures groups { AreGroups (groups_of E.item groups.new.items) }
{
    change_in_group(&mut groups[spot.group], spot, change)
}

/// Changes the entry at a spot.
pub(crate) fn change_at<E: Entry, C: WholeChange<E>>(
    top: &mut Top<E>,
    spot: Spot,
    change: &C,
) -> Result<(), AllocError>
    requires groups { AreGroups (top_groups E.item top.old) }
    requires entry { HasEntry (top_groups E.item top.old) spot }
    ensures ok { OnOk result (IsChangedAt (C.after change.now) (top_groups E.item top.old) spot
        (top_groups E.item top.new)) }
    ensures err { OnErr result (top_groups E.item top.new ≡ top_groups E.item top.old) }
    ensures groups { AreGroups (top_groups E.item top.new) }
{
    let own = Arc::make_mut(top)?;
    change_in_groups(own, spot, change)
}
