//! What a deletion takes.

ghost use Rattle.std.specs.Prelude.{◌≡◌, IfOk};
ghost use Rattle.labels.specs.Contents.{in_range};
ghost use Rattle.matchers.specs.Satisfies.{satisfies, satisfies_all};

use labels::{LabelSet, Sample};
use matchers::{Matcher, Tester};
use std::alloc::{AllocError, Global};
use std::marker::Model;

/// A matcher that is ready to look at many label sets, seen as the matcher.
#[derive(Drop)]
struct Judge<'a> {
    matcher: &'a Matcher,
    tester: Tester<'a>,
}

impl<'a> Model for Judge<'a> {
    ghost use Rattle.std.specs.Prelude.{◌≡◌};
    ghost use Rattle.matchers.specs.Views.{MatcherView};

    ghost Value = { MatcherView };

    ghost view = { λ j. j.matcher.now };

    ghost invariant = { λ j. j.tester ≡ j.matcher.now };
}

impl<'a> Judge<'a> {
    fn new(alloc: Global, matcher: &'a Matcher) -> Result<Judge<'a>, AllocError>
        ensures { IfOk result (λ j. j ≡ matcher.entry.now) }
    {
        let tester = matcher.tester(alloc)?;
        Ok(Judge { matcher, tester })
    }

    fn accepts(&mut self, labels: &LabelSet) -> bool
        ensures accepted { result ≡ satisfies self.old labels.now }
        ensures same { self.new ≡ self.old }
    {
        self.tester.accepts(labels.value(self.matcher.name()))
    }
}

fn judges_of<'a>(alloc: Global, matchers: &'a [Matcher]) -> Result<Vec<Judge<'a>>, AllocError>
    ensures { IfOk result (λ judges. judges.items ≡ matchers.entry.now) }
{
    let mut judges = Vec::new(alloc);
    for matcher in matchers {
        judges.push(Judge::new(alloc, matcher)?)?;
    }
    Ok(judges)
}

fn satisfy_all(judges: &mut [Judge<'_>], labels: &LabelSet) -> bool
    ensures satisfied { result ≡ satisfies_all judges.old labels.now }
    ensures same { judges.new ≡ judges.old }
{
    for judge in judges.iter_mut() {
        if !judge.accepts(labels) {
            return false;
        }
    }
    true
}

/// A closed range of times.
#[derive(Clone, Copy, Debug, Drop)]
pub(crate) struct Span {
    pub(crate) from: i64,
    pub(crate) to: i64,
}

impl Span {
    /// Whether a sample lies in it.
    pub(crate) fn has(&self, sample: &Sample) -> bool
        ensures { result ≡ in_range self.now.from self.now.to sample.now.0 }
    {
        self.from <= sample.t() && sample.t() <= self.to
    }
}

/// A deletion that is ready to look at many series: the search of a pattern is made once.
#[derive(Drop)]
pub(crate) struct Choice<'a> {
    judges: Vec<Judge<'a>>,
    span: Span,
}

impl<'a> Model for Choice<'a> {
    ghost use Rattle.matchers.specs.Views.{QueryView};

    ghost Value = { QueryView };

    ghost view = { λ c.
        record { matchers = c.judges.items; from = c.span.from; to = c.span.to } };
}

impl<'a> Choice<'a> {
    pub(crate) fn new(
        alloc: Global,
        matchers: &'a [Matcher],
        from: i64,
        to: i64,
    ) -> Result<Choice<'a>, AllocError>
        ensures { IfOk result (λ c.
            c ≡ record { matchers = matchers.entry.now; from = from; to = to }) }
    {
        let judges = judges_of(alloc, matchers)?;
        let span = Span { from, to };
        Ok(Choice { judges, span })
    }

    /// Whether a label set satisfies all matchers.
    pub(crate) fn has_labels(&mut self, labels: &LabelSet) -> bool
        ensures satisfied { result ≡ satisfies_all self.old.matchers labels.now }
        ensures same { self.new ≡ self.old }
    {
        satisfy_all(&mut self.judges, labels)
    }

    /// The range.
    pub(crate) fn span(&self) -> Span
        ensures { result ≡ record { from = self.now.from; to = self.now.to } }
    {
        self.span
    }
}
