//! Reading a head.

ghost use Rattle.std.specs.Prelude.{◌≡◌, ◌++◌, ◌∷◌, [], ℕ, List, false, Ok, IfOk, IfErr, OnOk};
ghost use Rattle.std.specs.Prelude.{length, nat_lt, take};
ghost use Rattle.wire.specs.Outcome.{Fails};
ghost use Rattle.head.specs.Heads.{HeadSeries};
ghost use Rattle.event_text.specs.Outcome.{Gives, is_memory};
ghost use Rattle.event_text.specs.Reading.{each_at};
ghost use Rattle.journal.specs.Contents.{contents_in};
ghost use Rattle.head_record.specs.Outcome.{Begins, Gives as GivesHead, GivesSaved};
ghost use Rattle.head_record.specs.Reading.{each_series, head_of, opening_at, opening_of};
ghost use Rattle.head_record.specs.Reading.{opening_whole, place_at, series_at, series_of};
ghost use Rattle.head_record.specs.Reading.{series_whole, with_series};
ghost use Rattle.head_record.specs.Saved.{Saved};
ghost use Rattle.head_record.specs.Spelling.{head_texts, IsSaved, SpellEach, SpellsOpening};
ghost use Rattle.head_record.specs.Spelling.{SpellsSeries};
ghost use Rattle.head_record.specs.Views.{opening_in};

use crate::error::RefusedHead;
use crate::parts::OpeningParts;
use crate::saved::{BlockPlace, HeadRecord};
use block_folder::Values;
use event_text::{TextError, labels_of, sample_of, samples_of};
use head::SavedSeries;
use labels::Sample;
use std::alloc::Global;
use wire::Cut;

#[tactic(auto, unfolding(crate::specs::Reading::place_at))]
fn place_of(bytes: &[u8]) -> Result<(u64, u64, &[u8]), TextError>
    ensures { Gives (λ x. ((x.0, x.1), x.2.now)) result (place_at bytes.now) }
{
    let mut cut = Cut::new(bytes);
    let folder = cut.uvarint().or(Err(TextError::Field))?;
    let tombstones = cut.uvarint().or(Err(TextError::Field))?;
    Ok((folder, tombstones, cut.rest()))
}

fn places_of(alloc: Global, bytes: &[u8], count: u64) -> Result<(Vec<BlockPlace>, &[u8]), TextError>
    ensures { Gives (λ x. (x.0.items, x.1.now)) result (each_at place_at count bytes.now) }
{
    let mut places = Vec::new(alloc);
    let mut rest = bytes;
    for counter in 0..count {
        let (folder, tombstones, after) = place_of(rest)?;
        places.push(BlockPlace::new(folder, tombstones))?;
        rest = after;
    }
    Ok((places, rest))
}

#[tactic(auto, unfolding(crate::specs::Reading::opening_at, event_text::specs::Reading::many_at))]
fn opening_at(
    alloc: Global,
    values: Values,
    bytes: &[u8],
) -> Result<(OpeningParts, &[u8]), TextError>
    ensures { Gives (λ x. (opening_in x.0, x.1.now)) result (opening_at values bytes.now) }
{
    let mut cut = Cut::new(bytes);
    let floor = cut.varint().or(Err(TextError::Field))?;
    let count = cut.uvarint().or(Err(TextError::Field))?;
    let (places, rest) = places_of(alloc, cut.rest(), count)?;
    let mut cut = Cut::new(rest);
    let count = cut.uvarint().or(Err(TextError::Field))?;
    let opening = OpeningParts {
        values,
        floor,
        places,
        count,
    };
    Ok((opening, cut.rest()))
}

#[tactic(auto, unfolding(crate::specs::Reading::opening_whole))]
fn opening_whole(alloc: Global, values: Values, bytes: &[u8]) -> Result<OpeningParts, TextError>
    ensures { Gives opening_in result (opening_whole values bytes.now) }
{
    let (opening, rest) = opening_at(alloc, values, bytes)?;
    if rest.len() > 0 {
        return Err(TextError::Rest);
    }
    Ok(opening)
}

#[tactic(auto, unfolding(crate::specs::Reading::opening_of))]
fn opening_of(alloc: Global, content: &[u8]) -> Result<OpeningParts, TextError>
    ensures { Gives opening_in result (opening_of content.now) }
{
    let mut cut = Cut::new(content);
    let kind = cut.u8().or(Err(TextError::Kind))?;
    match kind {
        16 => opening_whole(alloc, Values::Whole, cut.rest()),
        18 => opening_whole(alloc, Values::Doubles, cut.rest()),
        _ => Err(TextError::Kind),
    }
}

fn read_opening(alloc: Global, content: &[u8]) -> Result<OpeningParts, TextError>
    ensures exact { Gives opening_in result (opening_of content.now) }
    ensures found { IfOk result (λ o. SpellsOpening content.now (opening_in o)) }
{
    opening_of(alloc, content)
}

#[tactic(auto, unfolding(crate::specs::Reading::series_at, event_text::specs::Reading::many_at))]
fn series_at(alloc: Global, bytes: &[u8]) -> Result<(SavedSeries, &[u8]), TextError>
    ensures { Gives (λ x. (x.0, x.1.now)) result (series_at bytes.now) }
{
    let (labels, rest) = labels_of(alloc, bytes)?;
    let (time, value, rest) = sample_of(rest)?;
    let mut cut = Cut::new(rest);
    let count = cut.uvarint().or(Err(TextError::Field))?;
    let (samples, rest) = samples_of(alloc, cut.rest(), count)?;
    let series = SavedSeries::new(labels, samples, Sample::new(time, value));
    Ok((series, rest))
}

#[tactic(auto, unfolding(crate::specs::Reading::series_whole))]
fn series_whole(alloc: Global, bytes: &[u8]) -> Result<SavedSeries, TextError>
    ensures { Gives (λ h. h) result (series_whole bytes.now) }
{
    let (series, rest) = series_at(alloc, bytes)?;
    if rest.len() > 0 {
        return Err(TextError::Rest);
    }
    Ok(series)
}

#[tactic(auto, unfolding(crate::specs::Reading::series_of))]
fn series_of(alloc: Global, content: &[u8]) -> Result<SavedSeries, TextError>
    ensures { Gives (λ h. h) result (series_of content.now) }
{
    let mut cut = Cut::new(content);
    let kind = cut.u8().or(Err(TextError::Kind))?;
    match kind {
        17 => series_whole(alloc, cut.rest()),
        _ => Err(TextError::Kind),
    }
}

fn read_series(alloc: Global, content: &[u8]) -> Result<SavedSeries, TextError>
    ensures exact { Gives (λ h. h) result (series_of content.now) }
    ensures found { IfOk result (λ h. SpellsSeries content.now h) }
{
    series_of(alloc, content)
}

/// Adds the series that a content spells.
fn push_series(
    alloc: Global,
    series: &mut Vec<SavedSeries>,
    content: &[u8],
) -> Result<(), TextError>
    ensures ok { OnOk result ((h : HeadSeries) × SpellsSeries content.now h
        × (series_of content.now ≡ Ok h) × (series.new.items ≡ series.old.items ++ h ∷ [])) }
    ensures failed { IfErr result (λ e. Fails is_memory e (series_of content.now)) }
{
    match read_series(alloc, content) {
        Ok(one) => match series.push(one) {
            Ok(()) => Ok(()),
            Err(_) => Err(TextError::Memory),
        },
        Err(error) => Err(error),
    }
}

/// The series that contents spell, of which the first has the number 1.
fn each_series(alloc: Global, contents: &[Vec<u8>]) -> Result<Vec<SavedSeries>, RefusedHead>
    ensures exact { GivesHead (λ v. v.items) result
        (each_series 1 (contents_in contents.now)) }
    ensures found { IfOk result (λ v. SpellEach (contents_in contents.now) v.items) }
{
    let mut series = Vec::new(alloc);
    for content in contents {
        let before = series.len();
        match push_series(alloc, &mut series, content) {
            Ok(()) => {}
            Err(error) => {
                return Err(RefusedHead {
                    at: before + 1,
                    error,
                });
            }
        }
    }
    Ok(series)
}

/// Whether fewer contents stand here than the opening says series.
fn are_few(opening: &OpeningParts, others: &[Vec<u8>]) -> bool
    ensures { result ≡ nat_lt (length (contents_in others.now)) opening.now.count }
{
    (others.len() as u64) < opening.count
}

/// The contents of the series that the opening says, which are there.
#[tactic(auto, using(crate::proofs::Loops::taken))]
fn own_contents<'a>(opening: &OpeningParts, others: &'a [Vec<u8>]) -> &'a [Vec<u8>]
    requires { nat_lt (length (contents_in others.now)) opening.now.count ≡ false }
    ensures { contents_in result.now ≡ take opening.now.count (contents_in others.now) }
{
    others.split_at(opening.count as usize).0
}

/// What an opening and the series after it save, and how many contents these are with it.
fn with_series(
    alloc: Global,
    opening: OpeningParts,
    others: &[Vec<u8>],
) -> Result<(HeadRecord, usize), RefusedHead>
    ensures found { (first : List ℕ) → SpellsOpening first (opening_in opening)
        → IfOk result (λ x. Begins (first ∷ contents_in others.now) x.0 x.1) }
    ensures exact { GivesHead (λ x. x) result
        (with_series (opening_in opening) (contents_in others.now)) }
{
    if are_few(&opening, others) {
        return Err(RefusedHead {
            at: others.len() + 1,
            error: TextError::Kind,
        });
    }
    let own = own_contents(&opening, others);
    match each_series(alloc, own) {
        Ok(series) => {
            let count = own.len() + 1;
            let head = HeadRecord::new(opening.values, opening.floor, opening.places, series);
            Ok((head, count))
        }
        Err(refused) => Err(refused),
    }
}

/// What the first content and those after it save, and how many they are.
fn head_after(
    alloc: Global,
    first: &[u8],
    others: &[Vec<u8>],
) -> Result<(HeadRecord, usize), RefusedHead>
    ensures found { IfOk result (λ x. Begins (first.now ∷ contents_in others.now) x.0 x.1) }
    ensures exact { GivesHead (λ x. x) result (head_of (first.now ∷ contents_in others.now)) }
{
    match read_opening(alloc, first) {
        Ok(opening) => with_series(alloc, opening, others),
        Err(error) => Err(RefusedHead { at: 0, error }),
    }
}

/// What the first contents save, and how many they are.
#[tactic(auto, unfolding(crate::specs::Reading::head_of))]
fn head_of(alloc: Global, contents: &[Vec<u8>]) -> Result<(HeadRecord, usize), RefusedHead>
    ensures found { IfOk result (λ x. Begins (contents_in contents.now) x.0 x.1) }
    ensures exact { GivesHead (λ x. x) result (head_of (contents_in contents.now)) }
{
    match contents.split_first() {
        Some((first, others)) => head_after(alloc, first, others),
        None => Err(RefusedHead {
            at: 0,
            error: TextError::Kind,
        }),
    }
}

/// What the first contents of a journal save, and how many they are; or the first of them that is
/// refused.
pub fn read_head(alloc: Global, contents: &[Vec<u8>]) -> Result<(HeadRecord, usize), RefusedHead>
    // What is read stands in front.
    ensures found { IfOk result (λ x. Begins (contents_in contents.now) x.0 x.1) }
    // What stands in front is read, unless memory runs out.
    ensures only { (saved : Saved) (rest : List (List ℕ)) → IsSaved saved
        → contents_in contents.now ≡ head_texts saved ++ rest → GivesSaved saved result }
    // Which fault it is, and where.
    ensures exact { GivesHead (λ x. x) result (head_of (contents_in contents.now)) }
{
    head_of(alloc, contents)
}
