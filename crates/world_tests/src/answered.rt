//! Answers of the worked block's part.

use auditor::Table;
use cover::{Interval, PartAnswer, PartCover, Verdict};
use labels::{Row, SeriesRef};
use matchers::{Query, Selector};
use postings::PartName;
use std::alloc::Global;

/// A certificate: from, until and verdict of each interval.
type Intervals = &'static [(u32, u64, Verdict)];

/// What is said of the part: the intervals, the separators, and the references of the rows.
pub type Said = (Intervals, &'static [u32], &'static [u32]);

pub const FOUND: &[u32] = &[6, 7];

/// The answer to `up{job="a"}`, 0 to 100. The series 4 and 5 are rejected by their name, those from
/// 8 on by their job.
pub const SOUND: Said = (
    &[
        (4, 6, Verdict::Rejected(0)),
        (6, 7, Verdict::Match),
        (7, 8, Verdict::Match),
        (8, 4_294_967_296, Verdict::Rejected(1)),
    ],
    &[4, 6, 7, 8],
    FOUND,
);

/// The query `up{job="a"}` from a time to 100.
pub fn query(alloc: Global, from: i64) -> Option<Query> {
    let matchers = Selector::parse(alloc, "up{job=\"a\"}").ok()?;
    Query::new(matchers, from, 100).ok()
}

fn copy_of(alloc: Global, row: &Row) -> Option<Row> {
    let samples = row.samples().iter().copied().collect(alloc).ok()?;
    Some(Row::new(row.labels().try_clone().ok()?, samples))
}

fn row_at(alloc: Global, table: &Table, reference: u32) -> Option<Row> {
    for (number, row) in table.series() {
        if number.number() == reference {
            return copy_of(alloc, row);
        }
    }
    None
}

/// The rows of these references.
pub fn rows_at(alloc: Global, table: &Table, references: &[u32]) -> Option<Vec<Row>> {
    let mut rows = Vec::new(alloc);
    for reference in references {
        rows.push(row_at(alloc, table, *reference)?).ok()?;
    }
    Some(rows)
}

fn certificate_of(alloc: Global, intervals: Intervals) -> Option<Vec<Interval>> {
    let mut certificate = Vec::new(alloc);
    for (from, until, verdict) in intervals {
        let interval = Interval {
            from: SeriesRef::new(*from),
            until: *until,
            verdict: *verdict,
        };
        certificate.push(interval).ok()?;
    }
    Some(certificate)
}

fn separators_of(alloc: Global, references: &[u32]) -> Option<Vec<SeriesRef>> {
    let mut separators = Vec::new(alloc);
    for reference in references {
        separators.push(SeriesRef::new(*reference)).ok()?;
    }
    Some(separators)
}

fn cover_of(alloc: Global, intervals: Intervals, references: &[u32]) -> Option<PartCover> {
    let certificate = certificate_of(alloc, intervals);
    let (certificate, separators) = certificate.zip(separators_of(alloc, references))?;
    Some(PartCover {
        certificate,
        separators,
        moves: 0,
    })
}

/// The answer that says this of the part.
pub fn answer(alloc: Global, table: &Table, said: &Said) -> Option<PartAnswer> {
    let (intervals, separators, references) = *said;
    let rows = rows_at(alloc, table, references);
    let (rows, cover) = rows.zip(cover_of(alloc, intervals, separators))?;
    Some(PartAnswer {
        part: PartName::Block(0),
        rows,
        cover,
    })
}
