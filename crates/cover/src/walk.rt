//! The walk over the lists of a query, which goes to the farthest at each step.

ghost use Rattle.std.specs.Prelude.{◌≡◌, ◌+◌, ◌<◌, ◌≤◌, length, IfOk};
ghost use Rattle.labels.specs.Ascending.{or_end};
ghost use Rattle.cover.specs.Certificates.{IsAsked, IsLeftmost};
ghost use Rattle.cover.specs.Walking.{asked_in_walk, alive, AreAcceptedLists, AllFresh};
ghost use Rattle.cover.specs.Walking.{AllMovedAtMost, AllMovedAtMostOnce, AllMovedTo};
ghost use Rattle.cover.specs.Walking.{TellsFarthestIn, MovesOn};

use crate::certificate::{Interval, Verdict};
use labels::{END, SeriesRef};
use postings::{Counted, Postings};
use std::alloc::{AllocError, Global};

/// The number of a reference, or the end of all.
fn number_or_end(next: Option<SeriesRef>) -> u64
    ensures { result ≡ or_end next }
{
    match next {
        Some(reference) => u64::from(reference.number()),
        None => END,
    }
}

/// Moves each list to the reference.
fn seek_each<P: Postings>(lists: &mut [Counted<P>], from: SeriesRef)
    ensures moved { AllMovedTo P.remaining from lists.old lists.new }
    ensures counted { AllMovedAtMostOnce lists.old lists.new }
{
    for list in lists.iter_mut() {
        list.seek(from);
    }
}

/// Of two verdicts the one that goes farther, and how far; the first where neither does.
fn farther(verdict: Verdict, end: u64, other: Verdict, begins: u64) -> (Verdict, u64)
    ensures other { end < begins → result ≡ (other, begins) }
    ensures first { begins ≤ end → result ≡ (verdict, end) }
{
    if begins > end {
        (other, begins)
    } else {
        (verdict, end)
    }
}

/// Which list begins farthest past the reference, and where; the first of those that do, the live
/// list last.
fn farthest<P: Postings, L: Postings>(
    lists: &[Counted<P>],
    live: &Counted<L>,
    from: SeriesRef,
) -> (Verdict, u64)
    ensures { TellsFarthestIn P.remaining L.remaining lists.now live.now from result.0 result.1 }
{
    let mut verdict = Verdict::Match;
    let mut end = u64::from(from.number());
    for (number, list) in lists.iter().enumerate() {
        let begins = number_or_end(list.current());
        let told = farther(verdict, end, Verdict::Rejected(number), begins);
        verdict = told.0;
        end = told.1;
    }
    let begins = number_or_end(live.current());
    farther(verdict, end, Verdict::NoSample, begins)
}

/// Moves the list of all past what the verdict covers, and gives the reference that is next.
fn move_on<P: Postings>(all: &mut Counted<P>, verdict: Verdict, end: u64) -> Option<SeriesRef>
    ensures moved { MovesOn (P.remaining all.old.0) (P.remaining all.new.0) verdict end result }
    ensures counted { all.new.1 ≤ all.old.1 + 1 }
{
    match verdict {
        Verdict::Match => {
            all.advance();
            all.current()
        }
        Verdict::NoSample | Verdict::Rejected(_) => {
            if end >= END {
                return None;
            }
            all.seek(SeriesRef::new(end as u32));
            all.current()
        }
    }
}

/// The certificate that goes farthest at each step.
pub(crate) fn walk<P: Postings, Q: Postings, L: Postings>(
    alloc: Global,
    all: &mut Counted<P>,
    lists: &mut [Counted<Q>],
    live: &mut Counted<L>,
) -> Result<Vec<Interval>, AllocError>
    requires part { IsAsked
        (asked_in_walk P.remaining Q.remaining L.remaining all.old lists.old live.old) }
    requires accepted { AreAcceptedLists Q.remaining
        (asked_in_walk P.remaining Q.remaining L.remaining all.old lists.old live.old) lists.old }
    requires living { L.remaining live.old.0 ≡ alive
        (asked_in_walk P.remaining Q.remaining L.remaining all.old lists.old live.old) }
    requires fresh { all.old.1 ≡ 0 }
    requires each_fresh { AllFresh lists.old }
    requires live_fresh { live.old.1 ≡ 0 }
    ensures leftmost { IfOk result (λ c. IsLeftmost
        (asked_in_walk P.remaining Q.remaining L.remaining all.old lists.old live.old) c.items) }
    ensures moves { IfOk result (λ c. all.new.1 ≤ length c.items) }
    ensures each_moves { IfOk result (λ c. AllMovedAtMost (length c.items) lists.new) }
    ensures live_moves { IfOk result (λ c. live.new.1 ≤ length c.items) }
{
    let mut certificate = Vec::new(alloc);
    let mut next = number_or_end(all.current());
    while next < END {
        let from = SeriesRef::new(next as u32);
        seek_each(lists, from);
        live.seek(from);
        let (verdict, end) = farthest(lists, live, from);
        next = number_or_end(move_on(all, verdict, end));
        certificate.push(Interval {
            from,
            until: next,
            verdict,
        })?;
    }
    Ok(certificate)
}
