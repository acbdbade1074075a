//! Searches among pages, and among groups of pages.

ghost use Rattle.std.specs.Prelude.{◌≡◌, ℕ, ◌<◌, ◌≤◌, [], true, false, nat_lt, length, map};
ghost use Rattle.std.specs.Prelude.{slice_index_or, slice_get, Some, MatchResult, IfOk, IfErr};
ghost use Rattle.std.specs.Ordering.{ordering_index};
ghost use Rattle.std.specs.List.Sorted.{IsNonDecreasingBy, IsSearchInRange};
ghost use Rattle.pages.specs.Pages.{leaf_list, leaf_lists, leaves_list, branch_parts, groups_of};
ghost use Rattle.pages.specs.Pages.{flattened};
ghost use Rattle.pages.specs.Sorted.{page_of_spot, place_in_pages, place_in_groups, groups_list};
ghost use Rattle.pages.specs.Sorted.{IsSpotIn, IsSpot, HasEntryIn, HasEntry, EachMakesPage};
ghost use Rattle.pages.specs.Sorted.{AreGroups, IsRising, IsSplit, IsHit, IsHitIn, IsHitAt, IsGap};
ghost use Rattle.pages.specs.Sorted.{IsGapIn, IsGapAt, starts_low, StartLowUpTo};

use crate::page::{Branch, Leaf};
use crate::{Entry, Probe, Spot};

fn starts_by<E: Entry, P: Probe<E>>(page: &Leaf<E>, probe: &P) -> bool
    ensures { result ≡ starts_low (P.order probe.now) (leaf_list E.item page.now) }
{
    match page.first() {
        Some(entry) => probe.compare(entry).is_le(),
        None => true,
    }
}

/// How many pages start by an entry that is not greater than what is sought.
fn pages_before<E: Entry, P: Probe<E>>(pages: &[Leaf<E>], probe: &P) -> usize
    requires { EachMakesPage (leaf_lists E.item pages.now) }
    ensures inside { result ≤ length pages.now }
    ensures starts { IsSplit (P.order probe.now) (leaves_list E.item pages.now)
        → StartLowUpTo (P.order probe.now) result (leaf_lists E.item pages.now) }
{
    pages.partition_point(|page| starts_by(page, probe))
}

fn search_page<E: Entry, P: Probe<E>>(page: &[E], probe: &P) -> Result<usize, usize>
    ensures inside { IsSearchInRange result (length page.now) }
    ensures found { IsRising (P.order probe.now) (map E.item page.now)
        → IfOk result (IsHit (P.order probe.now) (map E.item page.now)) }
    ensures absent { IsRising (P.order probe.now) (map E.item page.now)
        → IfErr result (IsGap (P.order probe.now) (map E.item page.now)) }
{
    page.binary_search_by(|entry| probe.compare(entry))
}

/// Searches the pages of a group.
fn find_in_pages<E: Entry, P: Probe<E>>(
    pages: &[Leaf<E>],
    group: usize,
    probe: &P,
) -> Result<Spot, Spot>
    requires { EachMakesPage (leaf_lists E.item pages.now) }
    ensures found { IsSplit (P.order probe.now) (leaves_list E.item pages.now)
        → IfOk result (IsHitIn (P.order probe.now) (leaf_lists E.item pages.now)) }
    ensures absent { IsSplit (P.order probe.now) (leaves_list E.item pages.now)
        → IfErr result (IsGapIn (P.order probe.now) (leaf_lists E.item pages.now)) }
    ensures spot { MatchResult result (IsSpotIn (leaf_lists E.item pages.now))
        (IsSpotIn (leaf_lists E.item pages.now)) }
    ensures entry { IfOk result (HasEntryIn (leaf_lists E.item pages.now)) }
    ensures group { MatchResult result (λ spot. spot.group ≡ group) (λ spot. spot.group ≡ group) }
{
    let count = pages_before(pages, probe);
    if count == 0 {
        return Err(Spot {
            group,
            page: 0,
            at: 0,
        });
    }
    let page = count - 1;
    match search_page(pages[page].as_slice(), probe) {
        Ok(at) => Ok(Spot { group, page, at }),
        Err(at) => Err(Spot { group, page, at }),
    }
}

fn first_starts_by<E: Entry, P: Probe<E>>(group: &Branch<E>, probe: &P) -> bool
    ensures { result
        ≡ starts_low (P.order probe.now) (slice_index_or (branch_parts E.item group.now) 0 []) }
{
    match group.first() {
        Some(page) => starts_by(page, probe),
        None => true,
    }
}

/// How many groups start by an entry that is not greater than what is sought.
fn groups_before<E: Entry, P: Probe<E>>(groups: &[Branch<E>], probe: &P) -> usize
    requires { AreGroups (groups_of E.item groups.now) }
    ensures inside { result ≤ length groups.now }
    ensures starts { IsSplit (P.order probe.now) (groups_list E.item groups.now)
        → StartLowUpTo (P.order probe.now) result (map flattened (groups_of E.item groups.now)) }
{
    groups.partition_point(|group| first_starts_by(group, probe))
}

/// Where the sought entry stands, or else would stand.
pub(crate) fn find_in_groups<E: Entry, P: Probe<E>>(
    groups: &[Branch<E>],
    probe: &P,
) -> Result<Spot, Spot>
    requires { AreGroups (groups_of E.item groups.now) }
    ensures found { IsSplit (P.order probe.now) (groups_list E.item groups.now)
        → IfOk result (IsHitAt (P.order probe.now) (groups_of E.item groups.now)) }
    ensures absent { IsSplit (P.order probe.now) (groups_list E.item groups.now)
        → IfErr result (IsGapAt (P.order probe.now) (groups_of E.item groups.now)) }
    ensures spot { MatchResult result (IsSpot (groups_of E.item groups.now))
        (IsSpot (groups_of E.item groups.now)) }
    ensures entry { IfOk result (HasEntry (groups_of E.item groups.now)) }
{
    let count = groups_before(groups, probe);
    if count == 0 {
        return Err(Spot {
            group: 0,
            page: 0,
            at: 0,
        });
    }
    let group = count - 1;
    find_in_pages(groups[group].as_slice(), group, probe)
}

pub(crate) fn entry_of<E: Entry>(page: &[E], at: usize) -> &E
    requires { at < length (map E.item page.now) }
    ensures { slice_get (map E.item page.now) at ≡ Some (E.item result.now) }
{
    &page[at]
}

fn entry_in_pages<E: Entry>(pages: &[Leaf<E>], spot: Spot) -> &E
    requires { HasEntryIn (leaf_lists E.item pages.now) spot }
    ensures { slice_get (leaves_list E.item pages.now) (place_in_pages E.item pages.now spot)
        ≡ Some (E.item result.now) }
{
    entry_of(pages[spot.page].as_slice(), spot.at)
}

/// The entry at a spot.
pub(crate) fn entry_in_groups<E: Entry>(groups: &[Branch<E>], spot: Spot) -> &E
    requires { HasEntry (groups_of E.item groups.now) spot }
    ensures { slice_get (groups_list E.item groups.now) (place_in_groups E.item groups.now spot)
        ≡ Some (E.item result.now) }
{
    entry_in_pages(groups[spot.group].as_slice(), spot)
}

fn is_in_pages<E: Entry>(pages: &[Leaf<E>], spot: Spot) -> bool
    ensures { result
        ≡ nat_lt spot.at (length (slice_index_or (leaf_lists E.item pages.now) spot.page [])) }
{
    spot.page < pages.len() && spot.at < pages[spot.page].len()
}

/// Whether an entry stands at a spot.
pub(crate) fn is_in_groups<E: Entry>(groups: &[Branch<E>], spot: Spot) -> bool
    ensures { result ≡ nat_lt spot.at (length (page_of_spot (groups_of E.item groups.now) spot)) }
{
    spot.group < groups.len() && is_in_pages(groups[spot.group].as_slice(), spot)
}
