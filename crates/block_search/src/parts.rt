//! The answers of the parts of a snapshot.

ghost use Rattle.std.specs.Prelude.{◌≡◌, ◌<◌, IfOk, OnOk, Ok, length, map, slice_index};
ghost use Rattle.std.specs.List.{AllZip};
ghost use Rattle.block_search.specs.Skipping.{LosesNothing};
ghost use Rattle.block_search.specs.Places.{part_at};
ghost use Rattle.block_search.specs.Answers.{IsAnswerOf, AreAnswers};

use crate::gate::Gate;
use crate::many_rows::{search_block, search_head};
use crate::one_part::search_part;
use crate::skipping::searched_places;
use cover::PartAnswer;
use head::Snapshot;
use matchers::Query;
use postings::PartName;
use std::alloc::{AllocError, Global};
use std::thread;
use std::thread::Threads;

/// The answer of the part at this place.
pub(crate) fn search_place(
    alloc: Global,
    snapshot: &Snapshot,
    query: &Query,
    place: usize,
) -> Result<PartAnswer, AllocError>
    ensures { IfOk result (IsAnswerOf query.now (part_at query.now snapshot.now place)) }
{
    match snapshot.block(place) {
        Some(block) => search_part(alloc, PartName::Block(place), &block.view(), query),
        None => search_part(alloc, PartName::Head, &snapshot.head(), query),
    }
}

/// The same, the rows of many matches made by several threads.
fn search_place_by<R: Threads + Sync>(
    rt: &R,
    alloc: Global,
    snapshot: &Snapshot,
    query: &Query,
    place: usize,
) -> Result<PartAnswer, AllocError>
    ensures { IfOk result (IsAnswerOf query.now (part_at query.now snapshot.now place)) }
{
    match snapshot.block(place) {
        Some(block) => search_block(rt, alloc, PartName::Block(place), block, query),
        None => search_head(rt, alloc, PartName::Head, snapshot.head(), query),
    }
}

/// The answers of all parts that the query does not skip, one part after another: the blocks in
/// their order, and then the head, which is always searched.
pub fn search_one_by_one(
    alloc: Global,
    snapshot: &Snapshot,
    query: &Query,
) -> Result<Vec<PartAnswer>, AllocError>
    ensures each { IfOk result (λ answers. AreAnswers query.now snapshot.now answers.items) }
    ensures whole { OnOk result (LosesNothing query.now snapshot.now) }
{
    let places = searched_places(alloc, snapshot, query)?;
    let mut answers = Vec::with_capacity(alloc, places.len())?;
    for place in &places {
        answers.push(search_place(alloc, snapshot, query, *place)?)?;
    }
    Ok(answers)
}

/// The answers as [`search_one_by_one`] gives them but for the moves: one part after another, the
/// rows of a part's many matches made by several threads. Where a part has few, it starts none.
pub fn search_in_turn<R: Threads + Sync>(
    rt: &R,
    alloc: Global,
    snapshot: &Snapshot,
    query: &Query,
) -> Result<Vec<PartAnswer>, AllocError>
    ensures each { IfOk result (λ answers. AreAnswers query.now snapshot.now answers.items) }
    ensures whole { OnOk result (LosesNothing query.now snapshot.now) }
{
    let places = searched_places(alloc, snapshot, query)?;
    let mut answers = Vec::with_capacity(alloc, places.len())?;
    for place in &places {
        answers.push(search_place_by(rt, alloc, snapshot, query, *place)?)?;
    }
    Ok(answers)
}

/// The answer of the part at this place, of which the gate learns before the search.
fn search_through_gate<R: Threads + Sync, G: Gate>(
    rt: &R,
    alloc: Global,
    snapshot: &Snapshot,
    query: &Query,
    place: usize,
    gate: &G,
) -> Result<PartAnswer, AllocError>
    ensures { IfOk result (IsAnswerOf query.now (part_at query.now snapshot.now place)) }
{
    gate.reached(place);
    search_place_by(rt, alloc, snapshot, query, place)
}

/// What the worker of each of these places found, in their order.
fn search_by_workers<R: Threads + Sync, G: Gate>(
    rt: &R,
    alloc: Global,
    snapshot: &Snapshot,
    query: &Query,
    places: &[usize],
    gate: &G,
) -> Result<Vec<Result<PartAnswer, AllocError>>, AllocError>
    ensures { IfOk result (λ found. AllZip
        (λ place answer. IfOk answer
        (IsAnswerOf query.now (part_at query.now snapshot.now place)))
        places.now found.items) }
{
    thread::map_indices(
        rt,
        alloc,
        places.len(),
        &|n: usize| -> Result<PartAnswer, AllocError>
            requires { n < length places.now }
            ensures { IfOk result (IsAnswerOf query.entry.now
                (part_at query.entry.now snapshot.entry.now (slice_index places.entry.now n))) }
        { search_through_gate(rt, alloc, snapshot, query, places[n], gate) },
    )
}

/// All of the answers, unless one is missing.
fn all_of(
    alloc: Global,
    found: Vec<Result<PartAnswer, AllocError>>,
) -> Result<Vec<PartAnswer>, AllocError>
    ensures { IfOk result (λ answers. map Ok answers.items ≡ found.items) }
{
    let mut answers = Vec::with_capacity(alloc, found.len())?;
    for answer in found {
        answers.push(answer?)?;
    }
    Ok(answers)
}

/// The answers of all parts that the query does not skip, as [`search_one_by_one`] gives them but
/// for the moves, by one worker for each part that is searched.
///
/// The calling thread is one of the workers, so that a store without blocks starts none; where no
/// thread can be started, it searches that worker's part too. A worker whose part has many matches
/// shares out their rows over more threads. The gate learns of each part before it is searched, in
/// the thread that does so. It takes as long as the search of its longest part, where there are as
/// many processors as parts.
pub fn search<R: Threads + Sync, G: Gate>(
    rt: &R,
    alloc: Global,
    snapshot: &Snapshot,
    query: &Query,
    gate: &G,
) -> Result<Vec<PartAnswer>, AllocError>
    ensures each { IfOk result (λ answers. AreAnswers query.now snapshot.now answers.items) }
    ensures whole { OnOk result (LosesNothing query.now snapshot.now) }
{
    let places = searched_places(alloc, snapshot, query)?;
    let found = search_by_workers(rt, alloc, snapshot, query, places.as_slice(), gate)?;
    all_of(alloc, found)
}
