//! Reading the contents of a head.

ghost use Rattle.std.specs.Prelude.{◌≡◌, ◌<◌, ◌≤◌, ◌∷◌, [], IfOk, IfErr, map, length, take, drop};
ghost use Rattle.std.specs.List.{AllZip};
ghost use Rattle.journal.specs.Contents.{contents_in};
ghost use Rattle.kept_walk.specs.declared.fault.Fault.TheVariants.{Form};
ghost use Rattle.kept_walk.specs.Contents.{SpellsOpening, SpellsSeries};
ghost use Rattle.kept_walk.specs.Outcome.{Finds, Gives};
ghost use Rattle.kept_walk.specs.Parts.{FindsHead, head_in, opening_in};
ghost use Rattle.kept_walk.specs.Reading.{all_of, opening_of, opening_whole, series_at, series_of};

use crate::fault::Fault;
use crate::fields::{places_of, series_of};
use crate::journal_state::{KeptSeries, Values};
use crate::parts::{HeadParts, OpeningParts};
use std::alloc::{AllocError, Global};
use wire::Cut;

#[tactic(auto, unfolding(crate::specs::Reading::opening_whole, crate::specs::Reading::all_of, crate::specs::Reading::both_at))]
fn opening_whole(alloc: Global, values: Values, bytes: &[u8]) -> Result<OpeningParts, Fault>
    ensures { Gives opening_in result (opening_whole values bytes.now) }
{
    let mut cut = Cut::new(bytes);
    let floor = cut.varint().or(Err(Fault::Form))?;
    let (places, rest) = places_of(alloc, cut.rest())?;
    let mut cut = Cut::new(rest);
    let count = cut.uvarint().or(Err(Fault::Form))?;
    if cut.rest().len() > 0 {
        return Err(Fault::Form);
    }
    Ok(OpeningParts {
        values,
        floor,
        places,
        count,
    })
}

#[tactic(auto, unfolding(crate::specs::Reading::opening_of))]
fn opening_of(alloc: Global, content: &[u8]) -> Result<OpeningParts, Fault>
    ensures { Gives opening_in result (opening_of content.now) }
{
    let mut cut = Cut::new(content);
    let kind = cut.u8().or(Err(Fault::Form))?;
    match kind {
        16 => opening_whole(alloc, Values::Whole, cut.rest()),
        18 => opening_whole(alloc, Values::Doubles, cut.rest()),
        _ => Err(Fault::Form),
    }
}

fn read_opening(alloc: Global, content: &[u8]) -> Result<OpeningParts, Fault>
    ensures { Finds opening_in (λ o. SpellsOpening content.now o.0 o.1) result }
{
    opening_of(alloc, content)
}

#[tactic(auto, unfolding(crate::specs::Reading::all_of))]
fn series_whole(alloc: Global, bytes: &[u8]) -> Result<KeptSeries, Fault>
    ensures { Gives (λ s. s) result (all_of series_at bytes.now) }
{
    let (series, rest) = series_of(alloc, bytes)?;
    if rest.len() > 0 {
        return Err(Fault::Form);
    }
    Ok(series)
}

#[tactic(auto, unfolding(crate::specs::Reading::series_of))]
fn series_in(alloc: Global, content: &[u8]) -> Result<KeptSeries, Fault>
    ensures { Gives (λ s. s) result (series_of content.now) }
{
    let mut cut = Cut::new(content);
    let kind = cut.u8().or(Err(Fault::Form))?;
    match kind {
        17 => series_whole(alloc, cut.rest()),
        _ => Err(Fault::Form),
    }
}

fn read_series(alloc: Global, content: &[u8]) -> Result<KeptSeries, Fault>
    ensures { Finds (λ s. s) (SpellsSeries content.now) result }
{
    series_in(alloc, content)
}

/// The series that contents spell, in their order.
fn each_series(alloc: Global, contents: &[Vec<u8>]) -> Result<Vec<KeptSeries>, Fault>
    ensures { Finds (λ s. s.items) (AllZip SpellsSeries (contents_in contents.now)) result }
{
    let mut series = Vec::new(alloc);
    for content in contents {
        series.push(read_series(alloc, content)?)?;
    }
    Ok(series)
}

fn folders_of(alloc: Global, places: &[(u64, u64)]) -> Result<Vec<u64>, AllocError>
    ensures { IfOk result (λ folders. folders.items ≡ map (λ p. p.0) places.now) }
{
    let mut folders = Vec::new(alloc);
    for place in places {
        folders.push(place.0)?;
    }
    Ok(folders)
}

/// The contents of as many series as an opening says, and those behind them.
fn parted(count: u64, others: &[Vec<u8>]) -> Result<(&[Vec<u8>], &[Vec<u8>]), Fault>
    ensures enough { IfOk result (λ x. count ≤ length (contents_in others.now)) }
    ensures own { IfOk result (λ x. contents_in x.0.now ≡ take count (contents_in others.now)) }
    ensures behind { IfOk result (λ x. contents_in x.1.now ≡ drop count (contents_in others.now)) }
    ensures few { IfErr result (λ e. (e ≡ Form) × (length (contents_in others.now) < count)) }
{
    if (others.len() as u64) < count {
        return Err(Fault::Form);
    }
    Ok(others.split_at(count as usize))
}

fn head_of(opening: OpeningParts, folders: Vec<u64>, series: Vec<KeptSeries>) -> HeadParts
    ensures { head_in result ≡ record {
      values = opening.values;
      floor = opening.floor;
      folders = folders.items;
      head = series.items;
      events = [];
    } }
{
    HeadParts {
        values: opening.values,
        floor: opening.floor,
        folders,
        series,
    }
}

/// The head whose first content this is, and the contents behind those of its series.
fn head_after<'a>(
    alloc: Global,
    first: &[u8],
    others: &'a [Vec<u8>],
) -> Result<(HeadParts, &'a [Vec<u8>]), Fault>
    ensures { FindsHead (first.now ∷ contents_in others.now) result }
{
    let opening = read_opening(alloc, first)?;
    let (own, behind) = parted(opening.count, others)?;
    let series = each_series(alloc, own)?;
    let folders = folders_of(alloc, &opening.places)?;
    Ok((head_of(opening, folders, series), behind))
}

/// The head that contents begin with, and the contents behind it.
pub(crate) fn read_head(
    alloc: Global,
    contents: &[Vec<u8>],
) -> Result<(HeadParts, &[Vec<u8>]), Fault>
    ensures { FindsHead (contents_in contents.now) result }
{
    match contents.split_first() {
        Some((first, others)) => head_after(alloc, first, others),
        None => Err(Fault::Form),
    }
}
