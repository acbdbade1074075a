//! The deletions of a block's series.

ghost use Rattle.std.specs.Prelude.{◌≡◌, ℕ, ◌<◌, ◌≤◌, length, get_or, slice_get, Some, IfNone};
ghost use Rattle.std.specs.Prelude.{IfSome};
ghost use Rattle.std.specs.List.{Contains, list_all};
ghost use Rattle.std.specs.List.Sorted.{IsStrictlyIncreasing};
ghost use Rattle.block_walk.specs.IndexFile.Series.{references};
ghost use Rattle.block_walk.specs.BlockFiles.Outcome.{GivesAll};
ghost use Rattle.block_walk.specs.BlockFiles.Reading.{is_known, deleted_of};

use crate::error::WalkError;
use crate::series_entries::SeriesEntries;
use labels::SeriesRef;
use std::alloc::Global;
use tombstones::{Deletion, Tombstones};

// The place of the first series whose reference is not below the target, or the end.
fn place_from(entries: &SeriesEntries<'_>, target: SeriesRef) -> usize
    requires { IsStrictlyIncreasing (references entries.now) }
    ensures place { result ≤ length entries.now }
    ensures below { (k : ℕ) → k < result → get_or (references entries.now) k 0 < target }
    ensures above { result < length entries.now
        → target ≤ get_or (references entries.now) result 0 }
{
    let mut low = 0;
    let mut high = entries.len();
    while low < high {
        let middle = low + (high - low) / 2;
        let reference = entries.reference_at(middle);
        if reference.number() < target.number() {
            low = middle + 1;
        } else {
            high = middle;
        }
    }
    high
}

// The place of the series with this reference.
fn place_of(entries: &SeriesEntries<'_>, reference: SeriesRef) -> Option<usize>
    requires { IsStrictlyIncreasing (references entries.now) }
    ensures found { IfSome result (λ i. slice_get (references entries.now) i ≡ Some reference) }
    ensures none { IfNone result (Contains (references entries.now) reference → ⊥) }
{
    let at = place_from(entries, reference);
    if at < entries.len() && entries.reference_at(at).number() == reference.number() {
        return Some(at);
    }
    None
}

fn is_known(entries: &SeriesEntries<'_>, deletion: &Deletion) -> bool
    requires { IsStrictlyIncreasing (references entries.now) }
    ensures { result ≡ is_known entries.now deletion.now }
{
    place_of(entries, SeriesRef::new(deletion.reference)).is_some()
}

fn are_known(entries: &SeriesEntries<'_>, deletions: &[Deletion]) -> bool
    requires { IsStrictlyIncreasing (references entries.now) }
    ensures { result ≡ list_all (is_known entries.now) deletions.now }
{
    for deletion in deletions {
        if !is_known(entries, deletion) {
            return false;
        }
    }
    true
}

/// The deletions of a file, all of series of the index: `T1` to `T4` where the file is refused,
/// `T5` where a deletion is of a series that the index does not have.
#[tactic(auto, unfolding(crate::specs::BlockFiles::Reading::deleted_of))]
pub(crate) fn known_deletions(
    alloc: Global,
    entries: &SeriesEntries<'_>,
    file: &[u8],
) -> Result<Tombstones, WalkError>
    requires { IsStrictlyIncreasing (references entries.now) }
    ensures { GivesAll result (deleted_of file.now entries.now) }
{
    let tombstones = Tombstones::open(alloc, file)?;
    if !are_known(entries, tombstones.deletions()) {
        return Err(WalkError::UnknownSeries);
    }
    Ok(tombstones)
}
