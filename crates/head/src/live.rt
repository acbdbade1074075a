//! The series with a sample in a range.

ghost use Rattle.std.specs.Prelude.{◌≡◌, ℕ, ◌<◌, ◌≤◌, ◌+◌, true, false, T, All, List, length};
ghost use Rattle.std.specs.Prelude.{max};
ghost use Rattle.std.specs.Ordering.{int_cmp};
ghost use Rattle.std.specs.FinMap.Entries.{is_sorted};
ghost use Rattle.labels.specs.Ascending.{first_of, rest_of, not_below};
ghost use Rattle.labels.specs.Parts.{references, live_references, IsPart};
ghost use Rattle.head.specs.Heads.{HeadSeries, head_part};
ghost use Rattle.head.specs.Pointers.{values_in};
ghost use Rattle.head.specs.HeadRows.{rows_from, has_sample_at};
ghost use Rattle.labels.proofs.PartProps.{IsPart-prop};

use crate::series::{Series, SeriesList};
use labels::SeriesRef;
use postings::Postings;
use std::sync::Arc;

/// How many series at the front of a leaf have no sample in the closed range.
fn passed_in(leaf: &[Arc<Series>], from: i64, to: i64) -> usize
    requires { All (λ h. T (is_sorted int_cmp h.samples)) (values_in leaf.now) }
    ensures inside { result ≤ length leaf.now }
    ensures passed { (k : ℕ) (d : HeadSeries) → k < result
        → has_sample_at from to (values_in leaf.now) k d ≡ false }
    ensures stopped { (d : HeadSeries) → result < length leaf.now
        → has_sample_at from to (values_in leaf.now) result d ≡ true }
{
    let mut passed = 0;
    while passed < leaf.len() && !leaf[passed].has_sample_in(from, to) {
        passed += 1;
    }
    passed
}

/// The place of the first series, from a place on, that has a sample in the closed range, or the
/// end.
fn next_live(series: &SeriesList, start: usize, from: i64, to: i64) -> usize
    requires { IsPart (head_part series.now) }
    ensures moved { live_references from to (rows_from result series.now)
        ≡ live_references from to (rows_from start series.now) }
    ensures settled { first_of (live_references from to (rows_from result series.now))
        ≡ first_of (references (rows_from result series.now)) }
{
    let mut place = start;
    while place < series.len() {
        let leaf = series.leaf_from(place);
        let passed = passed_in(leaf, from, to);
        place += passed;
        if passed < leaf.len() {
            return place;
        }
    }
    place
}

/// The list of the series that have a sample in a closed range. It stands at such a series, or at
/// the end, and looks at the series only as it goes on.
#[derive(Drop)]
pub struct LiveList<'a> {
    series: &'a SeriesList,
    place: usize,
    from: i64,
    to: i64,
    ghost few: { length series.now < 4294967296 },
    ghost is_part: { IsPart (head_part series.now) } by { IsPart-prop (head_part series.now) },
    ghost settled: { first_of (live_references from to (rows_from place series.now))
        ≡ first_of (references (rows_from place series.now)) },
}

impl<'a> LiveList<'a> {
    /// The list over these series, whose references begin at 1.
    pub(crate) fn new(series: &'a SeriesList, from: i64, to: i64) -> LiveList<'a>
        requires few { length series.now < 4294967296 }
        requires is_part { IsPart (head_part series.now) }
        ensures { ⟦<LiveList<'a> as Postings>⟧.remaining result
            ≡ live_references from to (head_part series.now) }
    {
        LiveList {
            series,
            place: next_live(series, 0, from, to),
            from,
            to,
        }
    }
}

impl<'a> Postings for LiveList<'a> {
    ghost use Rattle.labels.specs.Parts.{live_references, has_sample};
    ghost use Rattle.labels.proofs.Lists.{not_below-twice};
    ghost use Rattle.labels.proofs.PartRows.{kept_rises};
    ghost use Rattle.head.specs.HeadRows.{rows_from};
    ghost use Rattle.head.specs.HeadRowLaws.{rows_rise};

    ghost remaining = { λ live. live_references live.from live.to
        (rows_from live.place live.series.now) };

    fn current(&self) -> Option<SeriesRef> {
        if self.place < self.series.len() {
            return Some(SeriesRef::new(self.place as u32 + 1));
        }
        None
    }

    fn advance(&mut self) {
        if self.place < self.series.len() {
            self.place = next_live(self.series, self.place + 1, self.from, self.to);
        }
    }

    fn seek(&mut self, target: SeriesRef) {
        let start = (target.number() as usize).saturating_sub(1);
        if start > self.place {
            self.place = next_live(self.series, start, self.from, self.to);
        }
    }

    ghost ascending = { λ live. kept_rises (λ row. has_sample live.from live.to row.1.1)
        (rows_from live.place live.series.now) (rows_rise live.place live.series.now) };

    ghost two_seeks = { λ live a b. not_below-twice a b
        (live_references live.from live.to (rows_from live.place live.series.now)) };
}
