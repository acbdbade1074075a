//! What a page shows.

ghost use Rattle.std.specs.Prelude.{◌≡◌};
ghost use Rattle.page.specs.Pages.{state_of};
ghost use Rattle.page.specs.Places.{is_silent_at, is_said_skipped, is_skip_grade};

use crate::said::{grade_at, judgement_at};
use auditor::{BlockTable, Judgement, Line};
use labels::{LabelSet, Sample};
use matchers::{Matcher, Query};
use page_claims::{Claim, Told, is_found_silent};
use page_text::Values;
use postings::PartName;
use state_claims::StateSaid;
use std::alloc::Global;
use whole_audit::Grade;

/// What a page shows: a question, the reply to it, what the auditor knows and said of it, and
/// a label set that somebody asks about.
#[derive(Drop)]
pub struct Shown<'a> {
    /// The selector, as it was written.
    pub selector: &'a str,
    /// What it asks for.
    pub query: &'a Query,
    /// The reply.
    pub told: &'a Told,
    /// What is known of the blocks, block 0 first; nothing, if the auditor was not asked.
    pub tables: &'a [BlockTable],
    /// The auditor's lines; none, if it was not asked.
    pub lines: &'a [Line],
    /// What a judge said of the reply over a kept store, if one was asked: then there is no table
    /// and no line.
    pub state: Option<&'a StateSaid<'a>>,
    /// What the values of samples mean: a reply does not say it.
    pub values: Values,
    /// The label set that somebody asks about.
    pub about: Option<&'a LabelSet>,
    /// How many bytes the reply has, and the SHA-256 of them.
    pub length: u64,
    pub digest: [u8; 32],
}

/// What all sections of a page need.
#[derive(Drop)]
pub(crate) struct View<'a> {
    pub(crate) alloc: Global,
    pub(crate) shown: &'a Shown<'a>,
    pub(crate) claim: Claim,
    /// How many intervals all parts have.
    pub(crate) intervals: u64,
    /// How many samples the rows have.
    pub(crate) samples: u64,
    /// Whether at most eight parts were searched.
    pub(crate) few: bool,
    /// The times of all figures of time.
    pub(crate) axis: Option<(i64, i64)>,
}

fn is_said_skipped(judgement: Option<Judgement>) -> bool
    ensures { result ≡ is_said_skipped judgement }
{
    matches!(judgement, Some(Judgement::Skipped))
}

fn is_skip_grade(grade: Option<Grade>) -> bool
    ensures { result ≡ is_skip_grade grade }
{
    matches!(grade, Some(Grade::Skipped))
}

impl<'a> View<'a> {
    pub(crate) fn matchers(&self) -> &'a [Matcher] {
        self.shown.query.matchers()
    }

    /// Whether a judge was asked.
    pub(crate) fn is_audited(&self) -> bool {
        self.shown.state.is_some() || !self.shown.lines.is_empty()
    }

    /// Whether a judge found that the query selects nothing of a block that was skipped at a place
    /// of the reply.
    pub(crate) fn is_silent(&self, at: usize, number: usize) -> bool
        ensures { let shown = self.now.shown.now in result
            ≡ is_silent_at (state_of shown) shown.tables.now shown.lines.now at number }
    {
        let (shown, name) = (self.shown, PartName::Block(number));
        match shown.state {
            Some(state) => is_skip_grade(grade_at(state.lines, at, name)),
            None => {
                is_said_skipped(judgement_at(shown.lines, at, name))
                    && is_found_silent(shown.tables, shown.lines, number)
            }
        }
    }

    /// How many intervals have a verdict of a slot.
    pub(crate) fn count(&self, slot: usize) -> u64 {
        let mut count = 0u64;
        for answer in self.shown.told.answers.as_slice() {
            let intervals = answer.cover.certificate.as_slice();
            count = count.saturating_add(page_claims::count_in(intervals, slot) as u64);
        }
        count
    }
}

/// The first and the last time of samples.
fn ends_of(samples: &[Sample]) -> Option<(i64, i64)> {
    Some((samples.first()?.t(), samples.last()?.t()))
}

/// The first and the last time of both.
fn over(times: Option<(i64, i64)>, others: Option<(i64, i64)>) -> Option<(i64, i64)> {
    match (times, others) {
        (Some((from, to)), Some((first, last))) => Some((from.min(first), to.max(last))),
        (None, ends) | (ends, None) => ends,
    }
}

/// The first and the last time of all that rows have.
pub(crate) fn times_of(rows: &[labels::Row]) -> Option<(i64, i64)> {
    let mut times = None;
    for row in rows {
        times = over(times, ends_of(row.samples()));
    }
    times
}

/// How many samples rows have.
pub(crate) fn samples_in(rows: &[labels::Row]) -> u64 {
    let mut count = 0u64;
    for row in rows {
        count = count.saturating_add(row.samples().len() as u64);
    }
    count
}

/// The axis of all figures of time: the range of the query if it is at most sixteen times as long
/// as that of the samples, else that of the samples.
pub(crate) fn axis_of(query: &Query, told: &Told) -> Option<(i64, i64)> {
    let mut times = None;
    for answer in told.answers.as_slice() {
        times = over(times, times_of(answer.rows.as_slice()));
    }
    let (first, last) = times?;
    let (from, to) = (query.from(), query.to());
    let span = last.abs_diff(first).max(1);
    if to.abs_diff(from) <= span.saturating_mul(16) {
        Some((from, to))
    } else {
        Some((first, last))
    }
}
