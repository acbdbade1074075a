//! What a query says of series, one after another.

ghost use Rattle.std.specs.Prelude.{◌≡◌, true, length, IfOk};
ghost use Rattle.std.specs.List.{filter, list_any};
ghost use Rattle.labels.specs.Contents.{in_range};
ghost use Rattle.labels.specs.Parts.{has_sample};
ghost use Rattle.matchers.specs.Satisfies.{satisfies, satisfies_all};
ghost use Rattle.auditor.specs.Auditing.{names_known};
ghost use Rattle.auditor.specs.Looking.{answers, are_silent, rejects_each, share_verdict};
ghost use Rattle.whole_audit.specs.Taking.{fits_alone};

use cover::Verdict;
use labels::{LabelSet, Row, Sample, SeriesRef};
use matchers::{Matcher, Query, Tester};
use std::alloc::{AllocError, Global};
use std::marker::Model;

/// A matcher that is ready to look at many series, seen as the matcher.
#[derive(Drop)]
struct Judge<'a> {
    matcher: &'a Matcher,
    tester: Tester<'a>,
}

impl<'a> Model for Judge<'a> {
    ghost use Rattle.std.specs.Prelude.{◌≡◌};
    ghost use Rattle.matchers.specs.Views.{MatcherView};

    ghost Value = { MatcherView };

    ghost view = { λ j. j.matcher.now };

    ghost invariant = { λ j. j.tester ≡ j.matcher.now };
}

impl<'a> Judge<'a> {
    fn new(alloc: Global, matcher: &'a Matcher) -> Result<Judge<'a>, AllocError>
        ensures { IfOk result (λ j. j ≡ matcher.entry.now) }
    {
        let tester = matcher.tester(alloc)?;
        Ok(Judge { matcher, tester })
    }

    fn accepts(&mut self, labels: &LabelSet) -> bool
        ensures accepted { result ≡ satisfies self.old labels.now }
        ensures same { self.new ≡ self.old }
    {
        self.tester.accepts(labels.value(self.matcher.name()))
    }

    fn rejects_each(&mut self, series: &[(SeriesRef, Row)]) -> bool
        ensures rejected { result ≡ rejects_each self.old series.now }
        ensures same { self.new ≡ self.old }
    {
        for entry in series {
            if self.accepts(entry.1.labels()) {
                return false;
            }
        }
        true
    }
}

/// A query that is ready to look at many series, seen as the query: a pattern's search is made
/// once.
#[derive(Drop)]
pub(crate) struct Looks<'a> {
    judges: Vec<Judge<'a>>,
    from: i64,
    to: i64,
}

impl<'a> Model for Looks<'a> {
    ghost use Rattle.matchers.specs.Views.{QueryView};

    ghost Value = { QueryView };

    ghost view = { λ l. record { matchers = l.judges.items; from = l.from; to = l.to } };
}

fn judges_of<'a>(alloc: Global, matchers: &'a [Matcher]) -> Result<Vec<Judge<'a>>, AllocError>
    ensures { IfOk result (λ judges. judges.items ≡ matchers.entry.now) }
{
    let mut judges = Vec::new(alloc);
    for matcher in matchers {
        judges.push(Judge::new(alloc, matcher)?)?;
    }
    Ok(judges)
}

fn satisfy_all(judges: &mut [Judge<'_>], labels: &LabelSet) -> bool
    ensures satisfied { result ≡ satisfies_all judges.old labels.now }
    ensures same { judges.new ≡ judges.old }
{
    for judge in judges.iter_mut() {
        if !judge.accepts(labels) {
            return false;
        }
    }
    true
}

fn one_rejects_each(judges: &mut [Judge<'_>], series: &[(SeriesRef, Row)]) -> bool
    ensures rejected { result ≡ list_any (λ matcher. rejects_each matcher series.now) judges.old }
    ensures same { judges.new ≡ judges.old }
{
    for judge in judges.iter_mut() {
        if judge.rejects_each(series) {
            return true;
        }
    }
    false
}

/// Whether the time of a sample lies in the closed range.
pub(crate) fn is_in_range(sample: Sample, from: i64, to: i64) -> bool
    ensures { result ≡ in_range from to sample.0 }
{
    from <= sample.t() && sample.t() <= to
}

fn has_sample(row: &Row, from: i64, to: i64) -> bool
    ensures { result ≡ has_sample from to row.now.1 }
{
    row.samples()
        .iter()
        .any(|sample| is_in_range(*sample, from, to))
}

impl<'a> Looks<'a> {
    pub(crate) fn new(alloc: Global, query: &'a Query) -> Result<Looks<'a>, AllocError>
        ensures { IfOk result (λ l. l ≡ query.entry.now) }
    {
        Ok(Looks {
            judges: judges_of(alloc, query.matchers())?,
            from: query.from(),
            to: query.to(),
        })
    }

    /// The first time of the range.
    pub(crate) fn from(&self) -> i64
        ensures { result ≡ self.now.from }
    {
        self.from
    }

    /// The last time of the range.
    pub(crate) fn to(&self) -> i64
        ensures { result ≡ self.now.to }
    {
        self.to
    }

    /// Whether a label set satisfies every matcher.
    pub(crate) fn satisfies_all(&mut self, labels: &LabelSet) -> bool
        ensures satisfied { result ≡ satisfies_all self.old.matchers labels.now }
        ensures same { self.new ≡ self.old }
    {
        satisfy_all(&mut self.judges, labels)
    }

    /// How many samples of a row lie in the range.
    pub(crate) fn count_in_range(&self, row: &Row) -> usize
        ensures { result ≡ length (filter (λ s. in_range self.now.from self.now.to s.0) row.now.1) }
    {
        let from = self.from;
        let to = self.to;
        row.samples()
            .iter()
            .filter(|sample| is_in_range(**sample, from, to))
            .count()
    }

    /// Whether a series answers the query.
    pub(crate) fn answers(&mut self, entry: &(SeriesRef, Row)) -> bool
        ensures answers { result ≡ answers self.old entry.now }
        ensures same { self.new ≡ self.old }
    {
        satisfy_all(&mut self.judges, entry.1.labels()) && has_sample(&entry.1, self.from, self.to)
    }

    /// Whether no series has a sample in the range.
    fn are_silent(&self, series: &[(SeriesRef, Row)]) -> bool
        ensures { result ≡ are_silent self.now series.now }
    {
        let from = self.from;
        let to = self.to;
        series.iter().all(|entry| !has_sample(&entry.1, from, to))
    }

    /// Whether one and the same reason holds of all the series: a matcher that rejects each, or no
    /// sample in the range.
    pub(crate) fn share_verdict(&mut self, series: &[(SeriesRef, Row)]) -> bool
        ensures shared { result ≡ share_verdict self.old series.now }
        ensures same { self.new ≡ self.old }
    {
        one_rejects_each(&mut self.judges, series) || self.are_silent(series)
    }

    /// Whether one series by itself fits under a verdict, which names no missing matcher.
    pub(crate) fn fits_alone(&mut self, verdict: Verdict, entry: &(SeriesRef, Row)) -> bool
        requires { names_known (length self.old.matchers) verdict ≡ true }
        ensures fitting { result ≡ fits_alone self.old verdict entry.now }
        ensures same { self.new ≡ self.old }
    {
        match verdict {
            Verdict::Match => self.answers(entry),
            Verdict::NoSample => !has_sample(&entry.1, self.from, self.to),
            Verdict::Rejected(number) => !self.judges[number].accepts(entry.1.labels()),
        }
    }
}
