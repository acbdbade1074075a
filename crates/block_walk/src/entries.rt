//! The walk over the series entries of an index.

ghost use Rattle.std.specs.Prelude.{◌≡◌, ◌<◌, ◌≤◌, length, slice_get, Some};
ghost use Rattle.block_walk.specs.IndexFile.Outcome.{Gives};
ghost use Rattle.block_walk.specs.IndexFile.Reading.{entry_at, entries_from};
ghost use Rattle.block_walk.specs.IndexFile.Seen.{entry_seen, entries_seen};

use crate::error::WalkError;
use crate::framed::checked_of;
use std::alloc::Global;
use wire::Cut;

/// A series entry: where it stands, its body, and where it ends.
#[derive(Clone, Copy, Debug)]
pub struct Entry<'a> {
    pub offset: usize,
    pub body: &'a [u8],
    pub end: usize,
}

#[tactic(auto, unfolding(crate::specs::IndexFile::Reading::entry_at))]
fn entry_of(bytes: &[u8]) -> Result<(&[u8], &[u8]), WalkError>
    ensures { Gives (λ x. (x.0.now, x.1.now)) result (entry_at bytes.now) }
{
    let mut cut = Cut::new(bytes);
    let len = cut.uvarint().or(Err(WalkError::SeriesCrc))?;
    checked_of(len, cut.rest(), WalkError::SeriesCrc)
}

/// The entries from `start` on, each at the next multiple of 16, up to `end`.
///
/// `I8` where an entry's length is refused, it goes past the end, or its checksum is wrong.
pub(crate) fn entries_of(
    alloc: Global,
    file: &[u8],
    start: usize,
    end: usize,
) -> Result<Vec<Entry<'_>>, WalkError>
    requires within { end ≤ length file.now }
    requires small { length file.now ≤ 0x4000_0000 }
    ensures { Gives (λ v. entries_seen v.items) result
        (entries_from (length file.now) file.now end start) }
{
    let mut entries = Vec::new(alloc);
    let mut at = start;
    while at < end {
        let (body, after) = entry_of(&file[at..end])?;
        let stop = end - after.len();
        entries.push(Entry {
            offset: at,
            body,
            end: stop,
        })?;
        at = (stop + 15) / 16 * 16;
    }
    Ok(entries)
}

/// The entry at a place.
pub(crate) fn entry_in<'a>(entries: &[Entry<'a>], i: usize) -> Entry<'a>
    requires { i < length entries.now }
    ensures seen { slice_get (entries_seen entries.now) i ≡ Some (entry_seen result) }
    ensures value { slice_get entries.now i ≡ Some result }
{
    entries[i]
}
