//! Places of spots among all entries, and the entries at places after a spot.

ghost use Rattle.std.specs.Prelude.{◌≡◌, ◌+◌, ◌<◌, ◌≤◌, ◌^◌, length, map, slice_get, Some};
ghost use Rattle.pages.specs.Pages.{leaf_lists, leaves_list, groups_of, flattened};
ghost use Rattle.pages.specs.Sorted.{start_of, place_in_groups, groups_list, IsSpot, AreGroups};

use crate::page::{Branch, Leaf};
use crate::search::entry_of;
use crate::walk::step;
use crate::{Entry, Spot};

/// How many entries stand in the pages before one.
fn start_in_pages<E: Entry>(pages: &[Leaf<E>], page: usize) -> usize
    requires within { page ≤ length pages.now }
    requires few { length (leaves_list E.item pages.now) < 2 ^ 64 }
    ensures { result ≡ start_of (leaf_lists E.item pages.now) page }
{
    let mut count = 0;
    let mut k = 0;
    while k < page {
        count += pages[k].len();
        k += 1;
    }
    count
}

/// How many entries stand in the groups before one.
fn start_in_groups<E: Entry>(groups: &[Branch<E>], group: usize) -> usize
    requires within { group ≤ length groups.now }
    requires few { length (groups_list E.item groups.now) < 2 ^ 64 }
    ensures { result ≡ start_of (map flattened (groups_of E.item groups.now)) group }
{
    let mut count = 0;
    let mut k = 0;
    while k < group {
        let pages = groups[k].as_slice();
        count += start_in_pages(pages, pages.len());
        k += 1;
    }
    count
}

/// The place of a spot: it goes over the groups, and over the pages of one.
pub(crate) fn place_at<E: Entry>(groups: &[Branch<E>], spot: Spot) -> usize
    requires groups { AreGroups (groups_of E.item groups.now) }
    requires spot { IsSpot (groups_of E.item groups.now) spot }
    requires few { length (groups_list E.item groups.now) < 2 ^ 64 }
    ensures { result ≡ place_in_groups E.item groups.now spot }
{
    if groups.is_empty() {
        return 0;
    }
    let pages = groups[spot.group].as_slice();
    start_in_groups(groups, spot.group) + (start_in_pages(pages, spot.page) + spot.at)
}

/// The entry so many places after a spot: it goes over the pages between.
pub(crate) fn entry_after<E: Entry>(groups: &[Branch<E>], spot: Spot, n: usize) -> &E
    requires groups { AreGroups (groups_of E.item groups.now) }
    requires spot { IsSpot (groups_of E.item groups.now) spot }
    requires held { place_in_groups E.item groups.now spot + n
        < length (groups_list E.item groups.now) }
    ensures { slice_get (groups_list E.item groups.now) (place_in_groups E.item groups.now spot + n)
        ≡ Some (E.item result.now) }
{
    let mut spot = spot;
    let mut left = n;
    while let Some((entries, next)) = step(groups, spot) {
        if left < entries.len() {
            return entry_of(entries, left);
        }
        left -= entries.len();
        spot = next;
    }
    unreachable!()
}
