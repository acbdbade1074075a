//! The series that somebody asks about.

ghost use Rattle.std.specs.Prelude.{◌≡◌, IfOk, IfErr};
ghost use Rattle.labels.specs.Pairs.{pairs_of};
ghost use Rattle.asked_series.specs.Series.{is_equal, are_equal, named_texts, IsSeries};
ghost use Rattle.asked_series.specs.Series.{AreLabels, IsLabelsFault, IsSeriesFault};
ghost use Rattle.asked_series.specs.Series.{labels_fault, selector_fault};
ghost use Rattle.matchers.specs.Selectors.{IsAccepted};

use crate::SeriesError;
use labels::{LabelError, LabelSet};
use matchers::{Matcher, Op, Selector, SelectorError};
use std::alloc::{AllocError, Global};

fn is_equal(op: Op) -> bool
    ensures { result ≡ is_equal op }
{
    match op {
        Op::Equal => true,
        Op::NotEqual | Op::Like | Op::NotLike => false,
    }
}

/// Whether each compares by `=`.
fn are_equal(matchers: &[Matcher]) -> bool
    ensures { result ≡ are_equal matchers.now }
{
    for matcher in matchers {
        if !is_equal(matcher.op()) {
            return false;
        }
    }
    true
}

/// The names and the texts of matchers.
fn named_texts(alloc: Global, matchers: &[Matcher]) -> Result<Vec<(String, String)>, AllocError>
    ensures { IfOk result (λ pairs. pairs_of pairs.items ≡ named_texts matchers.now) }
{
    let mut pairs = Vec::new(alloc);
    for matcher in matchers {
        let name = String::from_str(alloc, matcher.name())?;
        let value = String::from_str(alloc, matcher.text())?;
        pairs.push((name, value))?;
    }
    Ok(pairs)
}

fn labels_fault(error: LabelError) -> SeriesError
    ensures { result ≡ labels_fault error }
{
    match error {
        LabelError::Memory => SeriesError::Memory,
        LabelError::BadName | LabelError::Repeated | LabelError::Limit => SeriesError::NoSeries,
    }
}

/// The label set of some matchers that compare by `=`.
fn labels_of(alloc: Global, matchers: &[Matcher]) -> Result<LabelSet, SeriesError>
    ensures ok { IfOk result (λ labels. AreLabels matchers.now labels) }
    ensures err { IfErr result (λ fault. IsLabelsFault matchers.now fault) }
{
    let pairs = named_texts(alloc, matchers)?;
    match LabelSet::new(alloc, pairs) {
        Ok(labels) => Ok(labels),
        Err(error) => Err(labels_fault(error)),
    }
}

fn selector_fault(error: SelectorError) -> SeriesError
    ensures { result ≡ selector_fault error }
{
    match error {
        SelectorError::Memory => SeriesError::Memory,
        _ => SeriesError::NoSeries,
    }
}

fn matchers_in(alloc: Global, text: &str) -> Result<Vec<Matcher>, SeriesError>
    ensures ok { IfOk result (λ matchers. IsAccepted text.now matchers.items) }
    ensures err { IfErr result (λ fault. IsSeriesFault text.now fault) }
{
    match Selector::parse(alloc, text) {
        Ok(matchers) => Ok(matchers),
        Err(error) => Err(selector_fault(error)),
    }
}

/// The label set of a series that is written as a selector is, with `=` alone.
///
/// `NoSeries` for a text that is no selector, for another operator, and for a name that stands
/// twice. A value that is empty counts as an absent label.
pub fn series_of(alloc: Global, text: &str) -> Result<LabelSet, SeriesError>
    ensures ok { IfOk result (λ labels. IsSeries text.now labels) }
    ensures err { IfErr result (λ fault. IsSeriesFault text.now fault) }
{
    let matchers = matchers_in(alloc, text)?;
    if !are_equal(matchers.as_slice()) {
        return Err(SeriesError::NoSeries);
    }
    let labels = labels_of(alloc, matchers.as_slice())?;
    Ok(labels)
}
