//! The certificate of a part, its separators, and how often its lists moved.

ghost use Rattle.std.specs.Prelude.{◌≡◌, ℕ, ◌+◌, ◌-◌, ◌^◌, min, ◌*◌, ◌≤◌, length, IfOk};
ghost use Rattle.cover.specs.Certificates.{IsLeftmost, begins_of};
ghost use Rattle.cover.specs.Asking.{asked};
ghost use Rattle.cover.specs.Walking.{AllFresh, AllMovedAtMost, matcher_lists, remaining_of_each};
ghost use Rattle.cover.specs.Covers.{IsCoverOf, MovesAtMost};

use crate::certificate::Interval;
use crate::walk::walk;
use labels::{Row, SeriesRef};
use matchers::{Matcher, Query};
use postings::{Chosen, Counted, PartName, Postings, Source, choose};
use std::alloc::{AllocError, Global};

/// The certificate of a part for a query.
#[derive(Drop)]
pub struct PartCover {
    /// The intervals, in the order of their references; none for a part without series.
    pub certificate: Vec<Interval>,
    /// The first references of the intervals, which show that no valid certificate has fewer.
    pub separators: Vec<SeriesRef>,
    /// How often a list went on, the list of all series and that of the live ones included.
    pub moves: u64,
}

/// What a part answers to a query.
#[derive(Drop)]
pub struct PartAnswer {
    pub part: PartName,
    /// The series of the part that answer, in label order, with their samples in the range.
    pub rows: Vec<Row>,
    pub cover: PartCover,
}

/// The lists of the matchers, none of them moved.
fn chosen_lists<S: Source>(
    alloc: Global,
    source: &S,
    matchers: &[Matcher],
) -> Result<Vec<Counted<Chosen<S::List>>>, AllocError>
    ensures lists { IfOk result (λ v.
        remaining_of_each ⟦<Chosen<S::List> as Postings>⟧.remaining v.items
        ≡ matcher_lists (S.part source.now) matchers.now) }
    ensures fresh { IfOk result (λ v. AllFresh v.items) }
{
    let mut lists = Vec::new(alloc);
    for matcher in matchers {
        let chosen = choose(alloc, source, matcher)?;
        lists.push(Counted::new(chosen))?;
    }
    Ok(lists)
}

/// The moves of all lists together, up to the greatest number.
fn sum_moves<P>(first: u64, lists: &[Counted<P>]) -> u64
    ensures { (n : ℕ) → AllMovedAtMost n lists.now → result ≤ first + n * length lists.now }
{
    let mut sum = first;
    for list in lists.iter() {
        sum = sum.saturating_add(list.moves());
    }
    sum
}

/// The first references of the intervals.
fn first_references(alloc: Global, certificate: &[Interval]) -> Result<Vec<SeriesRef>, AllocError>
    ensures { IfOk result (λ first. first.items ≡ begins_of certificate.now) }
{
    let mut first = Vec::with_capacity(alloc, certificate.len())?;
    for interval in certificate {
        first.push(interval.from)?;
    }
    Ok(first)
}

/// How many moves were made, up to the greatest number.
#[derive(Clone, Copy, Debug, PartialEq, Eq)]
pub struct Moves {
    /// Of the lists of the matchers and of the list of all series.
    pub of_lists: u64,
    /// Of the list of the series with an undeleted sample in the range.
    pub of_live: u64,
}

/// The leftmost certificate, and the moves that its lists made.
fn leftmost_with_moves<S: Source>(
    alloc: Global,
    source: &S,
    query: &Query,
) -> Result<(Vec<Interval>, Moves), AllocError>
    ensures leftmost { IfOk result (λ c.
        IsLeftmost (asked (S.part source.now) query.now) c.0.items) }
    ensures of_lists { IfOk result (λ c.
        c.1.of_lists ≤ (length query.now.matchers + 1) * length c.0.items) }
    ensures of_live { IfOk result (λ c. c.1.of_live ≤ length c.0.items) }
{
    let mut all = Counted::new(source.all());
    let mut lists = chosen_lists(alloc, source, query.matchers())?;
    let mut live = Counted::new(source.live(alloc, query.from(), query.to())?);
    let certificate = walk(alloc, &mut all, lists.as_mut_slice(), &mut live)?;
    let of_lists = sum_moves(all.moves(), lists.as_slice());
    let of_live = live.moves();
    Ok((certificate, Moves { of_lists, of_live }))
}

/// As [`cover`], with the moves of its lists apart.
pub fn cover_with_moves<S: Source>(
    alloc: Global,
    source: &S,
    query: &Query,
) -> Result<(PartCover, Moves), AllocError>
    ensures cover { IfOk result (λ c. IsCoverOf (S.part source.now) query.now c.0) }
    ensures sum { IfOk result (λ c. c.0.moves ≡ min (c.1.of_lists + c.1.of_live) (2 ^ 64 - 1)) }
    ensures of_lists { IfOk result (λ c. MovesAtMost (S.part source.now) query.now
        (length query.now.matchers + 1) c.1.of_lists) }
    ensures of_live { IfOk result (λ c. MovesAtMost (S.part source.now) query.now 1 c.1.of_live) }
{
    let (certificate, moves) = leftmost_with_moves(alloc, source, query)?;
    let separators = first_references(alloc, certificate.as_slice())?;
    let cover = PartCover {
        certificate,
        separators,
        moves: moves.of_lists.saturating_add(moves.of_live),
    };
    Ok((cover, moves))
}

/// The leftmost certificate of a part for a query, its separators, and how many moves its lists
/// made.
pub fn cover<S: Source>(alloc: Global, source: &S, query: &Query) -> Result<PartCover, AllocError>
    ensures { IfOk result (λ c. IsCoverOf (S.part source.now) query.now c) }
{
    let (cover, _) = cover_with_moves(alloc, source, query)?;
    Ok(cover)
}
