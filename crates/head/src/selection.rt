//! The series of a part that a deletion strikes.

ghost use Rattle.std.specs.Prelude.{◌≡◌, ℕ, List, IfOk, filter};
ghost use Rattle.std.specs.List.Sorted.{IsStrictlyIncreasing};
ghost use Rattle.labels.specs.Ascending.{not_below};
ghost use Rattle.labels.specs.Parts.{references_of, references_where};
ghost use Rattle.matchers.specs.Satisfies.{satisfies_all};
ghost use Rattle.block.specs.Fewer.{is_among};
ghost use Rattle.head.specs.Removing.{is_struck};

use labels::SeriesRef;
use matchers::Matcher;
use postings::{Postings, Source, choose};
use std::alloc::{AllocError, Global};

/// The references of a list.
pub(crate) fn collect_references<P: Postings + Drop>(
    alloc: Global,
    list: P,
) -> Result<Vec<SeriesRef>, AllocError>
    ensures { IfOk result (λ found. found.items ≡ P.remaining list) }
{
    let mut list = list;
    let mut found = Vec::new(alloc);
    while let Some(reference) = list.current() {
        found.push(reference)?;
        list.advance();
    }
    Ok(found)
}

/// Whether a reference stands in a list, which goes on to it.
fn reaches<P: Postings>(list: &mut P, reference: SeriesRef) -> bool
    ensures found { result ≡ is_among (P.remaining list.old) reference }
    ensures moved { P.remaining list.new ≡ not_below reference (P.remaining list.old) }
{
    list.seek(reference);
    let Some(next) = list.current() else {
        return false;
    };
    next.number() == reference.number()
}

/// The references that stand in both of two lists. Each is sought to where the other stands, so
/// that the moves follow the shorter list.
fn references_in_both<A: Postings + Drop, B: Postings + Drop>(
    alloc: Global,
    first: A,
    second: B,
) -> Result<Vec<SeriesRef>, AllocError>
    ensures { IfOk result (λ found. found.items
        ≡ filter (is_among (B.remaining second)) (A.remaining first)) }
{
    let mut first = first;
    let mut second = second;
    let mut found = Vec::new(alloc);
    while let Some(reference) = first.current() {
        second.seek(reference);
        let Some(next) = second.current() else {
            return Ok(found);
        };
        if next.number() == reference.number() {
            found.push(reference)?;
            first.advance();
        } else {
            first.seek(next);
        }
    }
    Ok(found)
}

/// Those of the references that stand in a list, by one seek for each.
pub(crate) fn common<P: Postings + Drop>(
    alloc: Global,
    references: &[SeriesRef],
    list: P,
) -> Result<Vec<SeriesRef>, AllocError>
    requires { IsStrictlyIncreasing references.now }
    ensures { IfOk result (λ found. found.items
        ≡ filter (is_among (P.remaining list)) references.now) }
{
    let mut list = list;
    let mut found = Vec::new(alloc);
    for reference in references {
        if reaches(&mut list, *reference) {
            found.push(*reference)?;
        }
    }
    Ok(found)
}

/// The references of the series that satisfy all matchers.
fn matching_references<S: Source>(
    alloc: Global,
    source: &S,
    matchers: &[Matcher],
) -> Result<Vec<SeriesRef>, AllocError>
    ensures { IfOk result (λ found. found.items
        ≡ references_where (satisfies_all matchers.now) (S.part source.now)) }
{
    match matchers {
        [] => collect_references(alloc, source.all()),
        [only] => collect_references(alloc, choose(alloc, source, only)?),
        [first, second, others @ ..] => {
            let first = choose(alloc, source, first)?;
            let mut found = references_in_both(alloc, first, choose(alloc, source, second)?)?;
            for matcher in others {
                found = common(alloc, found.as_slice(), choose(alloc, source, matcher)?)?;
            }
            Ok(found)
        }
    }
}

/// The references of the series that satisfy all matchers and have an undeleted sample in the
/// closed range, ascending.
///
/// The lists of the first two matchers are sought to each other's places, and what both have is
/// sought in the others.
pub(crate) fn struck_references<S: Source>(
    alloc: Global,
    source: &S,
    matchers: &[Matcher],
    from: i64,
    to: i64,
) -> Result<Vec<SeriesRef>, AllocError>
    ensures { IfOk result (λ found. found.items
        ≡ references_of (is_struck matchers.now from to) (S.part source.now)) }
{
    let found = matching_references(alloc, source, matchers)?;
    common(alloc, found.as_slice(), source.live(alloc, from, to)?)
}
