//! The entries of the series: where they stand, their references, and the bytes between them.

ghost use Rattle.std.specs.List.{list_all};
ghost use Rattle.std.specs.Prelude.{◌≡◌, ◌<◌, ◌≤◌, ◌^◌, length, slice_get, Some, All, ◌==◌};
ghost use Rattle.index_reader.specs.Reading.Agreement.{entry_references};
ghost use Rattle.index_reader.specs.Reading.Entries.{zero_between, gaps_zero, entry_at};
ghost use Rattle.index_reader.specs.Reading.Entries.{entries_from};
ghost use Rattle.index_reader.specs.Outcome.{Gives};
ghost use Rattle.index_reader.specs.Seen.{entry_seen, entries_seen};

use crate::error::IndexError;
use crate::layout::{LIMIT, checked_of};
use std::alloc::Global;
use wire::Cut;

/// The fewest bytes that most entries take: room for one entry in so many mostly serves.
const USUAL_BYTES: usize = 32;

/// A series entry: where it stands, and its body.
#[derive(Clone, Copy, Debug)]
pub struct SeriesEntry<'a> {
    pub offset: usize,
    pub body: &'a [u8],
    pub end: usize,
}

#[tactic(auto, unfolding(crate::specs::Reading::Entries::entry_at))]
fn entry_of(bytes: &[u8]) -> Result<(&[u8], &[u8]), IndexError>
    ensures { Gives (λ x. (x.0.now, x.1.now)) result (entry_at bytes.now) }
{
    let mut cut = Cut::new(bytes);
    let len = cut.uvarint().or(Err(IndexError::SeriesCrc))?;
    checked_of(len, cut.rest(), IndexError::SeriesCrc)
}

/// The series entries from a place up to an end.
pub fn entries_of(
    alloc: Global,
    file: &[u8],
    start: usize,
    end: usize,
) -> Result<Vec<SeriesEntry<'_>>, IndexError>
    requires within { end ≤ length file.now }
    requires small { length file.now ≤ LIMIT }
    ensures { Gives (λ v. entries_seen v.items) result
        (entries_from (length file.now) file.now end start) }
{
    let mut entries = Vec::with_capacity(alloc, end.saturating_sub(start) / USUAL_BYTES)?;
    let mut at = start;
    while at < end {
        let (body, after) = entry_of(&file[at..end])?;
        let stop = end - after.len();
        entries.push(SeriesEntry {
            offset: at,
            body,
            end: stop,
        })?;
        at = (stop + 15) / 16 * 16;
    }
    Ok(entries)
}

/// The entry at a place.
pub fn entry_at<'a>(entries: &[SeriesEntry<'a>], i: usize) -> SeriesEntry<'a>
    requires { i < length entries.now }
    ensures seen { slice_get (entries_seen entries.now) i ≡ Some (entry_seen result) }
    ensures value { slice_get entries.now i ≡ Some result }
{
    entries[i]
}

/// The reference of the series at a place.
pub fn reference_at(entries: &[SeriesEntry<'_>], i: usize) -> u32
    requires i_in { i < length entries.now }
    requires small { All (λ e. e.offset < 2 ^ 32) entries.now }
    ensures { slice_get (entry_references (entries_seen entries.now)) i ≡ Some result }
{
    let entry = entry_at(entries, i);
    (entry.offset / 16) as u32
}

/// Whether all bytes are 0.
pub fn are_zero(bytes: &[u8]) -> bool
    ensures { result ≡ list_all (λ b. b == 0) bytes.now }
{
    bytes.iter().all(|b| *b == 0)
}

#[tactic(auto, using(crate::proofs::Gaps::nothing_between))]
fn zero_between(file: &[u8], from: usize, to: usize) -> bool
    requires { to ≤ length file.now }
    ensures { result ≡ zero_between file.now from to }
{
    if from >= to {
        return true;
    }
    are_zero(&file[from..to])
}

/// Whether each byte from `first` up to `end` that lies in no entry is 0.
pub fn gaps_are_zero(file: &[u8], first: usize, end: usize, entries: &[SeriesEntry<'_>]) -> bool
    requires within { end ≤ length file.now }
    requires inside { All (λ e. e.offset ≤ length file.now) entries.now }
    ensures { result ≡ gaps_zero file.now end first (entries_seen entries.now) }
{
    let mut from = first;
    for at in 0..entries.len() {
        let entry = entry_at(entries, at);
        if !zero_between(file, from, entry.offset) {
            return false;
        }
        from = entry.end;
    }
    zero_between(file, from, end)
}
