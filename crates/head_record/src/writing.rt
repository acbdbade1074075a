//! Writing a head.

ghost use Rattle.std.specs.Prelude.{◌≡◌, ◌++◌, OnOk, IfOk};
ghost use Rattle.event_text.specs.Spelling.{many_text, AreMany};
ghost use Rattle.head_record.specs.Spelling.{head_texts, opening_content, opening_kind};
ghost use Rattle.head_record.specs.Spelling.{opening_of_saved};
ghost use Rattle.head_record.specs.Spelling.{place_text, series_content};
ghost use Rattle.head_record.specs.Spelling.{IsOpening, IsPlace, IsSaved, IsSeries};
ghost use Rattle.journal.specs.Contents.{contents_in};

use crate::saved::{BlockPlace, HeadRecord};
use block_folder::Values;
use event_text::{put_count, put_each_sample, put_labels, put_sample};
use head::SavedSeries;
use std::alloc::{AllocError, Global};
use wire::{put_u8, put_uvarint, put_varint};

fn put_place(out: &mut Vec<u8>, place: BlockPlace) -> Result<(), AllocError>
    ensures text { OnOk result (out.new.items ≡ out.old.items ++ place_text place) }
    ensures spelled { OnOk result (IsPlace place) }
{
    put_uvarint(out, place.folder())?;
    put_uvarint(out, place.tombstones())
}

fn put_places(out: &mut Vec<u8>, places: &[BlockPlace]) -> Result<(), AllocError>
    ensures text { OnOk result (out.new.items
        ≡ out.old.items ++ many_text place_text places.now) }
    ensures spelled { OnOk result (AreMany IsPlace places.now) }
{
    put_count(out, places.len())?;
    for place in places {
        put_place(out, *place)?;
    }
    Ok(())
}

/// The kind of the first content, by what the values mean.
fn opening_kind(values: Values) -> u8
    ensures { result ≡ opening_kind values }
{
    match values {
        Values::Whole => 16,
        Values::Doubles => 18,
    }
}

#[tactic(auto, unfolding(crate::specs::Spelling::opening_text))]
fn put_opening(out: &mut Vec<u8>, head: &HeadRecord) -> Result<(), AllocError>
    ensures text { OnOk result (out.new.items
        ≡ out.old.items ++ opening_content (opening_of_saved head.now)) }
    ensures spelled { OnOk result (IsOpening (opening_of_saved head.now)) }
{
    put_u8(out, opening_kind(head.values()))?;
    put_varint(out, head.floor())?;
    put_places(out, head.places())?;
    put_count(out, head.series().len())
}

#[tactic(auto, unfolding(crate::specs::Spelling::series_text))]
fn put_series(out: &mut Vec<u8>, series: &SavedSeries) -> Result<(), AllocError>
    ensures text { OnOk result (out.new.items ≡ out.old.items ++ series_content series.now) }
    ensures spelled { OnOk result (IsSeries series.now) }
{
    put_u8(out, 17)?;
    put_labels(out, series.labels())?;
    put_sample(out, series.newest())?;
    put_each_sample(out, series.samples())
}

/// The contents that a journal of this head begins with: one for the meaning of the values, the
/// floor and the blocks, and one for each series.
pub fn head_contents(alloc: Global, head: &HeadRecord) -> Result<Vec<Vec<u8>>, AllocError>
    ensures texts { IfOk result (λ contents. contents_in contents.items ≡ head_texts head.now) }
    ensures spelled { IfOk result (λ contents. IsSaved head.now) }
{
    let mut contents = Vec::new(alloc);
    let mut opening = Vec::new(alloc);
    put_opening(&mut opening, head)?;
    contents.push(opening)?;
    for series in head.series() {
        let mut content = Vec::new(alloc);
        put_series(&mut content, series)?;
        contents.push(content)?;
    }
    Ok(contents)
}
