//! What a page is asked to show.

ghost use Rattle.std.specs.Prelude.{◌≡◌, true, IfOk, IfErr};
ghost use Rattle.matchers.specs.Queries.{is_query_range};
ghost use Rattle.matchers.specs.Selectors.{IsAccepted};
ghost use Rattle.requests.specs.Selecting.{IsQueryAskedBy};
ghost use Rattle.page_requests.specs.declared.question.QuestionError.TheVariants.{Memory};
ghost use Rattle.page_requests.specs.Fields.{form_seen};
ghost use Rattle.page_requests.specs.Meaning.{IsAbout, IsAboutError, IsSelectorError};
ghost use Rattle.page_requests.specs.Meaning.{QuestionMeans, Told};

use crate::Refusal;
use crate::fields::query_pairs;
use crate::form::{Form, form_in};
use asked_series::{SeriesError, series_of};
use labels::LabelSet;
use matchers::{Matcher, Query, Selector, SelectorError};
use std::alloc::{AllocError, AllocFailed, Global};
use std::error::Error;
use std::fmt;

/// What a page is asked to show.
#[derive(Drop)]
pub struct Question {
    /// The selector, as it was written.
    pub selector: String,
    /// What it asks for, in the range.
    pub query: Query,
    /// The series that somebody asks about.
    pub about: Option<LabelSet>,
}

/// Why no question was read.
#[derive(Clone, Copy, Debug, PartialEq, Eq, Drop)]
pub enum QuestionError {
    /// There is no memory left.
    Memory,
    /// The query string is refused.
    Refused(Refusal),
}

impl fmt::Display for QuestionError {
    fn fmt<W: fmt::Write>(&self, f: &mut fmt::Formatter<W>) -> fmt::Result {
        match self {
            QuestionError::Memory => write!(f, "no memory"),
            QuestionError::Refused(refusal) => write!(f, "{refusal}"),
        }
    }
}

impl Error for QuestionError {}

impl From<AllocError> for QuestionError {
    ghost from_gives = { λ _ e. e ≡ Memory };

    fn from(_: AllocError) -> QuestionError {
        QuestionError::Memory
    }
}

impl<T: Drop> From<AllocFailed<T>> for QuestionError {
    ghost from_gives = { λ _ e. e ≡ Memory };

    fn from(_: AllocFailed<T>) -> QuestionError {
        QuestionError::Memory
    }
}

/// The matchers of a selector's text; `H6` where it is refused.
fn matchers_of(alloc: Global, text: &str) -> Result<Vec<Matcher>, QuestionError>
    ensures ok { IfOk result (λ v. IsAccepted text.now v.items) }
    ensures err { IfErr result (λ e. IsSelectorError text.now e) }
{
    match Selector::parse(alloc, text) {
        Ok(matchers) => Ok(matchers),
        Err(SelectorError::Memory) => Err(QuestionError::Memory),
        Err(error) => Err(QuestionError::Refused(Refusal::BadSelector(error))),
    }
}

/// The query that a form asks; `H6` where its selector is refused.
fn query_of(alloc: Global, form: &Form<'_>) -> Result<Query, QuestionError>
    requires { is_query_range form.now.from form.now.to ≡ true }
    ensures ok { IfOk result (λ query. IsQueryAskedBy (form_seen form.now).0 query) }
    ensures err { IfErr result (λ e. IsSelectorError form.now.selector.now e) }
{
    let matchers = matchers_of(alloc, form.selector)?;
    match Query::new(matchers, form.from, form.to) {
        Ok(query) => Ok(query),
        // The range is one, and a selector has at most 16 matchers.
        Err(_) => unreachable!(),
    }
}

/// The series that a text asks about; `G16` where it is none.
fn about_of(alloc: Global, text: &str) -> Result<Option<LabelSet>, QuestionError>
    ensures ok { IfOk result (λ about. IsAbout text.now about) }
    ensures err { IfErr result (λ e. IsAboutError text.now e) }
{
    if text.is_empty() {
        return Ok(None);
    }
    match series_of(alloc, text) {
        Ok(labels) => Ok(Some(labels)),
        Err(SeriesError::NoSeries) => Err(QuestionError::Refused(Refusal::NoSeries)),
        Err(SeriesError::Memory) => Err(QuestionError::Memory),
    }
}

/// What the query string of `/page` asks: `H5` where it is not of the form, then `H6`, then `G16`.
pub fn read_question(alloc: Global, query: &[u8]) -> Result<Question, QuestionError>
    ensures { Told (QuestionMeans query.now) result }
{
    let pairs = query_pairs(alloc, query)?;
    let Some(form) = form_in(pairs.as_slice()) else {
        return Err(QuestionError::Refused(Refusal::BadQuery));
    };
    let query = query_of(alloc, &form)?;
    let about = about_of(alloc, form.about)?;
    let selector = String::from_str(alloc, form.selector)?;
    Ok(Question {
        selector,
        query,
        about,
    })
}
