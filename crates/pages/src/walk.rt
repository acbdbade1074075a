//! A walk over sorted pages, page by page.

ghost use Rattle.std.specs.Prelude.{◌≡◌, ◌+◌, ◌<◌, ◌≤◌, [], length, map, drop, slice_index_or};
ghost use Rattle.std.specs.Prelude.{IfSome, IfNone};
ghost use Rattle.pages.specs.Pages.{leaf_list, leaf_lists, leaves_list, groups_of, IsPrefix};
ghost use Rattle.pages.specs.Sorted.{page_of_spot, place_in_pages, place_in_groups, groups_list};
ghost use Rattle.pages.specs.Sorted.{IsSpotIn, IsSpot, HasEntryIn, HasEntry, IsGroup, AreGroups};

use crate::page::{Branch, Leaf, leaf_from};
use crate::{Entry, Spot};

/// The same place, as the spot of the entry that stands there.
fn entry_spot_in_pages<E: Entry>(pages: &[Leaf<E>], spot: Spot) -> Option<Spot>
    requires group { IsGroup (leaf_lists E.item pages.now) }
    requires spot { IsSpotIn (leaf_lists E.item pages.now) spot }
    ensures none { IfNone result (length (leaves_list E.item pages.now)
        ≤ place_in_pages E.item pages.now spot) }
    ensures entry { IfSome result (HasEntryIn (leaf_lists E.item pages.now)) }
    ensures same { IfSome result (λ next. place_in_pages E.item pages.now next
        ≡ place_in_pages E.item pages.now spot) }
    ensures group { IfSome result (λ next. next.group ≡ spot.group) }
{
    let Spot { group, page, at } = spot;
    if at < pages[page].len() {
        return Some(spot);
    }
    if page + 1 < pages.len() {
        return Some(Spot {
            group,
            page: page + 1,
            at: 0,
        });
    }
    None
}

fn entry_spot<E: Entry>(groups: &[Branch<E>], spot: Spot) -> Option<Spot>
    requires groups { AreGroups (groups_of E.item groups.now) }
    requires spot { IsSpot (groups_of E.item groups.now) spot }
    ensures none { IfNone result (length (groups_list E.item groups.now)
        ≤ place_in_groups E.item groups.now spot) }
    ensures entry { IfSome result (HasEntry (groups_of E.item groups.now)) }
    ensures same { IfSome result (λ next. place_in_groups E.item groups.now next
        ≡ place_in_groups E.item groups.now spot) }
{
    if groups.is_empty() {
        return None;
    }
    let group = spot.group;
    match entry_spot_in_pages(groups[group].as_slice(), spot) {
        Some(next) => Some(next),
        None => {
            if group + 1 < groups.len() {
                Some(Spot {
                    group: group + 1,
                    page: 0,
                    at: 0,
                })
            } else {
                None
            }
        }
    }
}

fn page_in_pages<E: Entry>(pages: &[Leaf<E>], spot: Spot) -> &[E]
    requires { HasEntryIn (leaf_lists E.item pages.now) spot }
    ensures { map E.item result.now ≡ slice_index_or (leaf_lists E.item pages.now) spot.page [] }
{
    pages[spot.page].as_slice()
}

fn page_in_groups<E: Entry>(groups: &[Branch<E>], spot: Spot) -> &[E]
    requires { HasEntry (groups_of E.item groups.now) spot }
    ensures { map E.item result.now ≡ page_of_spot (groups_of E.item groups.now) spot }
{
    page_in_pages(groups[spot.group].as_slice(), spot)
}

/// The entries from a spot to the end of the page, and the spot after them.
pub(crate) fn step<E: Entry>(groups: &[Branch<E>], spot: Spot) -> Option<(&[E], Spot)>
    requires groups { AreGroups (groups_of E.item groups.now) }
    requires spot { IsSpot (groups_of E.item groups.now) spot }
    ensures none { IfNone result (length (groups_list E.item groups.now)
        ≤ place_in_groups E.item groups.now spot) }
    ensures some { IfSome result (λ step. 0 < length step.0.now) }
    ensures prefix { IfSome result (λ step. IsPrefix (map E.item step.0.now)
        (drop (place_in_groups E.item groups.now spot) (groups_list E.item groups.now))) }
    ensures spot { IfSome result (λ step. IsSpot (groups_of E.item groups.now) step.1) }
    ensures after { IfSome result (λ step. place_in_groups E.item groups.now step.1
        ≡ place_in_groups E.item groups.now spot + length step.0.now) }
{
    let next = entry_spot(groups, spot)?;
    let page = page_in_groups(groups, next);
    let after = Spot {
        group: next.group,
        page: next.page,
        at: page.len(),
    };
    Some((leaf_from(page, next.at), after))
}
