//! Which parts of a snapshot a query searches.

ghost use Rattle.std.specs.Prelude.{◌≡◌, IfOk, OnOk};
ghost use Rattle.block_search.specs.Skipping.{is_skipped, LosesNothing};
ghost use Rattle.block_search.specs.Places.{searched_places};

use block::Range;
use head::Snapshot;
use matchers::Query;
use std::alloc::{AllocError, Global};

/// Whether a query skips a block of this range: its end is not above the first time of the query's,
/// or its first time is above the last of the query's.
pub fn is_skipped(range: Range, query: &Query) -> bool
    ensures { result ≡ is_skipped query.now range }
{
    range.max() <= query.from() || query.to() < range.min()
}

/// The places of the parts that are searched, ascending: the number of a block, and for the head
/// that of all blocks.
pub(crate) fn searched_places(
    alloc: Global,
    snapshot: &Snapshot,
    query: &Query,
) -> Result<Vec<usize>, AllocError>
    ensures places { IfOk result (λ places. places.items ≡ searched_places query.now snapshot.now) }
    ensures whole { OnOk result (LosesNothing query.now snapshot.now) }
{
    let mut places = Vec::new(alloc);
    let blocks = snapshot.blocks();
    for n in 0..blocks.len() {
        if !is_skipped(blocks[n].range(), query) {
            places.push(n)?;
        }
    }
    places.push(blocks.len())?;
    Ok(places)
}
