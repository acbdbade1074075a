//! A snapshot out of what was saved of one.

ghost use Rattle.std.specs.Prelude.{◌≡◌, ◌≤◌, ◌<◌, ◌++◌, ◌∷◌, [], length, map, IfOk, IfErr, OnOk};
ghost use Rattle.std.specs.Prelude.{◌&&◌, not, is_some};
ghost use Rattle.std.specs.Ordering.{int_cmp, is_lt};
ghost use Rattle.std.specs.FinMap.Entries.{find, is_sorted};
ghost use Rattle.labels.specs.Labels.{labels_cmp};
ghost use Rattle.head.specs.Blocks.{part_in, EachInside};
ghost use Rattle.head.specs.Orders.{IsOrderOf};
ghost use Rattle.head.specs.Resuming.{is_sound, may_have, resumed, Denies, MayJoin, MayStand};
ghost use Rattle.head.specs.Resuming.{MayStandInHead};
ghost use Rattle.head.specs.Heads.{IsSoundHead};
ghost use Rattle.head.specs.Shown.{series_of, copied_of};
ghost use Rattle.head.specs.Slots.{Own, series_in_each};

use crate::cut::MAX_BLOCKS;
use crate::draft::Draft;
use crate::error::ResumeError;
use crate::head::HeadView;
use crate::joining::begin;
use crate::order::Order;
use crate::saved::SavedSeries;
use crate::series::{Series, SeriesList, are_within};
use crate::snapshot::{Snapshot, floor_of};
use crate::{MAX_SAMPLES, MAX_SERIES};
use block::Block;
use labels::{Sample, is_time};
use pages::PagedList;
use std::alloc::Global;
use std::sync::Arc;

/// Whether a snapshot of this floor may have the blocks.
fn may_have(floor: i64, blocks: &[Block]) -> bool
    ensures told { result ≡ may_have floor blocks.now }
    ensures inside { EachInside blocks.now }
{
    let end = floor_of(blocks);
    blocks.len() <= MAX_BLOCKS && is_time(floor) && end <= floor
}

fn times_rise(samples: &[Sample]) -> bool
    ensures { result ≡ is_sorted int_cmp samples.now }
{
    samples.is_sorted_by(|a, b| is_earlier(*a, *b))
}

fn is_earlier(a: Sample, b: Sample) -> bool
    ensures { result ≡ is_lt (int_cmp a.0 b.0) }
{
    a.t().cmp(&b.t()).is_lt()
}

/// Whether a head of this floor may have the series.
fn is_sound(floor: i64, saved: &SavedSeries) -> bool
    ensures { result ≡ is_sound floor saved.now }
{
    let samples = saved.samples();
    samples.len() <= MAX_SAMPLES
        && times_rise(samples)
        && are_within(samples, floor, saved.newest().t())
}

/// Whether a head of this floor may have the series beside those that have their places.
fn may_join(floor: i64, order: &Order, saved: &SavedSeries) -> bool
    ensures { result ≡ (is_sound floor saved.now
        && not (is_some (find labels_cmp saved.now.labels order.now))) }
{
    is_sound(floor, saved) && !order.has(saved.labels())
}

/// Adds a series that was saved, if a head of this floor may have it after the others.
fn add_saved(
    alloc: Global,
    draft: &mut Draft,
    order: &mut Order,
    floor: i64,
    saved: &SavedSeries,
) -> Result<(), ResumeError>
    requires ordered { IsOrderOf order.old (series_in_each draft.old) }
    requires few { length draft.old < MAX_SERIES }
    ensures added { OnOk result (draft.new ≡ draft.old ++ Own saved.now ∷ []) }
    ensures ordered { OnOk result (IsOrderOf order.new (series_in_each draft.new)) }
    ensures joins { OnOk result (MayJoin floor (series_in_each draft.old) saved.now) }
    ensures refused { IfErr result (λ e.
        Denies e (MayJoin floor (series_in_each draft.old) saved.now)) }
{
    if !may_join(floor, order, saved) {
        return Err(ResumeError::Unsound);
    }
    let series = Series::of_saved(alloc, saved)?;
    begin(alloc, draft, order, series)?;
    Ok(())
}

/// The series that were saved, in their order, and their places.
fn series_of_saved(
    alloc: Global,
    floor: i64,
    saved: &[SavedSeries],
) -> Result<(SeriesList, Order), ResumeError>
    requires { length saved.now ≤ MAX_SERIES }
    ensures same { IfOk result (λ made. made.0 ≡ saved.now) }
    ensures ordered { IfOk result (λ made. IsOrderOf made.1 made.0) }
    ensures sound { OnOk result (IsSoundHead floor saved.now) }
    ensures refused { IfErr result (λ e. Denies e (IsSoundHead floor saved.now)) }
{
    let mut draft = Draft::new(alloc, PagedList::new(alloc)?);
    let mut order = Order::new(alloc)?;
    for series in saved {
        add_saved(alloc, &mut draft, &mut order, floor, series)?;
    }
    Ok((draft.into_list(alloc)?, order))
}

/// The head of these series.
fn head_of_saved(alloc: Global, floor: i64, saved: &[SavedSeries]) -> Result<HeadView, ResumeError>
    ensures series { IfOk result (λ head. series_of head ≡ saved.now) }
    ensures copied { IfOk result (λ head. copied_of head ≡ 0) }
    ensures stands { OnOk result (MayStandInHead floor saved.now) }
    ensures refused { IfErr result (λ e. Denies e (MayStandInHead floor saved.now)) }
{
    if saved.len() > MAX_SERIES {
        return Err(ResumeError::Unsound);
    }
    let (series, order) = series_of_saved(alloc, floor, saved)?;
    let index = HeadView::empty(alloc)?.index_of(alloc, &series)?;
    Ok(HeadView::of(series, order, index, 0))
}

impl Snapshot {
    /// The snapshot of these blocks, this floor and these series, in order of creation: what the
    /// parts of a snapshot were when they were saved. If no snapshot has them, they are refused;
    /// `J17` says so, and comes in no other case.
    pub fn resumed(
        alloc: Global,
        blocks: Vec<Block>,
        floor: i64,
        saved: &[SavedSeries],
    ) -> Result<Snapshot, ResumeError>
        ensures made { IfOk result (λ s.
            s ≡ resumed (map part_in blocks.items) floor saved.now) }
        ensures stands { OnOk result
            (MayStand (resumed (map part_in blocks.items) floor saved.now)) }
        ensures refused { IfErr result (λ e.
            Denies e (MayStand (resumed (map part_in blocks.items) floor saved.now))) }
    {
        if !may_have(floor, blocks.as_slice()) {
            return Err(ResumeError::Unsound);
        }
        let head = head_of_saved(alloc, floor, saved)?;
        match Arc::new(alloc, blocks) {
            Ok(blocks) => Ok(Snapshot {
                floor,
                head,
                blocks,
            }),
            Err(_) => Err(ResumeError::Memory),
        }
    }
}
