//! Places of series among those of an index, found by their references.

ghost use Rattle.std.specs.Prelude.{◌≡◌, ℕ, ◌<◌, ◌≤◌, length, get_or, slice_get, Some, IfNone};
ghost use Rattle.std.specs.Prelude.{IfSome};
ghost use Rattle.std.specs.List.{Contains};
ghost use Rattle.std.specs.List.Sorted.{IsStrictlyIncreasing};
ghost use Rattle.index_reader.specs.Indexes.{references};

use index_reader::Index;
use labels::SeriesRef;

/// The place of the first series, from a place on, whose reference is not below the target, or the
/// end.
pub(crate) fn place_from(index: &Index, from: usize, target: SeriesRef) -> usize
    requires rising { IsStrictlyIncreasing (references index.now.series) }
    requires within { from ≤ length index.now.series }
    ensures place { (from ≤ result) × (result ≤ length index.now.series) }
    ensures below { (k : ℕ) → from ≤ k → k < result
        → get_or (references index.now.series) k 0 < target }
    ensures above { result < length index.now.series
        → target ≤ get_or (references index.now.series) result 0 }
{
    let mut low = from;
    let mut high = index.len();
    while low < high {
        let middle = low + (high - low) / 2;
        let reference = index.reference_at(middle);
        if reference.number() < target.number() {
            low = middle + 1;
        } else {
            high = middle;
        }
    }
    high
}

/// The place of the series with this reference.
pub(crate) fn place_of(index: &Index, reference: SeriesRef) -> Option<usize>
    requires { IsStrictlyIncreasing (references index.now.series) }
    ensures found { IfSome result (λ i.
        slice_get (references index.now.series) i ≡ Some reference) }
    ensures none { IfNone result (Contains (references index.now.series) reference → ⊥) }
{
    let at = place_from(index, 0, reference);
    if at < index.len() && index.reference_at(at).number() == reference.number() {
        return Some(at);
    }
    None
}
