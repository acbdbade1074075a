//! What commits to a head copy. Batches, deletions and cuts with what is then answered are in
//! `case_files`.

use crate::changes::rows::{Wanted, after, counted, with_samples};
use head::Snapshot;
use labels::SeriesRef;
use std::alloc::Global;

/// A snapshot with 1,000 samples of the series 1, and then as many of the series 2.
fn of_two_thousand(alloc: Global) -> Option<Snapshot> {
    let one = with_samples(alloc, 1_000)?;
    let samples = counted(alloc, 2, 0, 1_000)?;
    after(alloc, &one, &samples).ok()
}

/// Whether a series has this many samples at the times from 0 to 3,000.
fn has(alloc: Global, snapshot: &Snapshot, number: u32, count: usize) -> bool {
    let series = SeriesRef::new(number);
    match snapshot.head().samples_of(alloc, series, 0, 3_000) {
        Ok(found) => found.len() == count,
        Err(_) => false,
    }
}

/// Whether the two series have this many samples.
fn have(alloc: Global, snapshot: &Snapshot, one: usize, two: usize) -> bool {
    has(alloc, snapshot, 1, one) && has(alloc, snapshot, 2, two)
}

/// Batches to two series of 1,000 samples, each with two open chunks of 40, and how many samples
/// the batches copy and the two series then have.
const TO_BOTH: &[(&[Wanted], u64, usize, usize)] = &[
    (&[(1, 2_000, 1), (2, 2_000, 1)], 80, 1_001, 1_001),
    (
        &[(1, 2_000, 1), (2, 2_000, 1), (1, 2_001, 1)],
        80,
        1_002,
        1_001,
    ),
    (&[(2, 2_000, 1)], 40, 1_000, 1_001),
];

fn copies(alloc: Global, before: &Snapshot, row: &(&[Wanted], u64, usize, usize)) -> bool {
    match after(alloc, before, row.0) {
        Ok(next) => {
            next.head().copied() == row.1
                && have(alloc, &next, row.2, row.3)
                && have(alloc, before, 1_000, 1_000)
        }
        Err(_) => false,
    }
}

#[test]
fn a_commit_copies_the_open_chunks_of_its_series_alone(rt: HostRuntime) {
    let alloc = rt.alloc();
    let two = of_two_thousand(alloc).expect(&rt, "both batches are accepted");
    assert_eq!(rt; two.head().copied(), 0);
    for row in TO_BOTH {
        assert!(rt; copies(alloc, &two, row), "{}", row.1);
    }
}
