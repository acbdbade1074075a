//! Certificates of six series in a head, of a query without a matcher too: how often lists move.
//! Others are in `case_files`.

use crate::serving::counting::Counting;
use crate::serving::searches::six;
use cover::{Moves, PartCover, Verdict, cover_with_moves};
use head::HeadView;
use matchers::{Query, Selector};
use std::alloc::Global;

/// A query by a selector, or by no matcher if its text is empty.
fn query(alloc: Global, text: &str, from: i64, to: i64) -> Option<Query> {
    let matchers = if text.is_empty() {
        Vec::new(alloc)
    } else {
        Selector::parse(alloc, text).ok()?
    };
    Query::new(matchers, from, to).ok()
}

/// Selectors, ranges, how many intervals there are, and the verdict of the last.
const COUNTED: &[(&str, i64, i64, usize, Verdict)] = &[
    (r#"up{job="a"}"#, 0, 100, 4, Verdict::Match),
    (r#"down{job="b",zone="x"}"#, 0, 100, 3, Verdict::Rejected(0)),
    (r#"up{job="a"}"#, 30, 40, 1, Verdict::NoSample),
    ("", 10, 10, 6, Verdict::Match),
    ("", 11, 40, 1, Verdict::NoSample),
];

fn has(part: &PartCover, count: usize, last: Verdict) -> bool {
    match part.certificate.last() {
        Some(interval) => part.certificate.len() == count && interval.verdict == last,
        None => false,
    }
}

/// Whether the moves that are reported are those that were made. A seek to where a list is already
/// is reported, and moves no list.
fn are_all(moves: &Moves, counting: &Counting<&HeadView>) -> bool {
    counting.moves.get() <= moves.of_lists && moves.of_live == counting.live_moves.get()
}

/// Whether the certificate of this head has this length and this end, and all moves are reported.
fn tells_all_moves(
    alloc: Global,
    head: &HeadView,
    row: &(&str, i64, i64, usize, Verdict),
) -> Option<bool> {
    let query = query(alloc, row.0, row.1, row.2)?;
    let counting = Counting::new(head);
    let (part, moves) = cover_with_moves(alloc, &&counting, &query).ok()?;
    Some(
        has(&part, row.3, row.4)
            && are_all(&moves, &counting)
            && part.moves == moves.of_lists.saturating_add(moves.of_live),
    )
}

#[test]
fn no_list_moves_uncounted(rt: HostRuntime) {
    let six = six(rt.alloc()).expect(&rt, "there is memory");
    for row in COUNTED {
        assert!(rt;
            tells_all_moves(rt.alloc(), six.head(), row) == Some(true),
            "{} from {}",
            row.0,
            row.1
        );
    }
}
