//! The audit of a part's answer.

ghost use Rattle.std.specs.Prelude.{◌≡◌, true, length, IfOk, OnOk, IfErr};
ghost use Rattle.labels.specs.Parts.{Part, IsPart};
ghost use Rattle.matchers.specs.Views.{QueryView};
ghost use Rattle.cover.specs.Certificates.{IsLeast};
ghost use Rattle.cover.specs.Asking.{asked};
ghost use Rattle.auditor.specs.Auditing.{IsSoundAnswer, IsFlaw, IsJudgement, IsAuditError};
ghost use Rattle.auditor.specs.Auditing.{misfit_flaw, all_known};
ghost use Rattle.auditor.specs.Looking.{cuts};

use crate::flaw::Flaw;
use crate::intervals::{all_known, are_cut, first_misfit};
use crate::looks::Looks;
use crate::rows::{same_rows, selected_rows};
use crate::separators::{are_counted, first_shared};
use block_walk::Table;
use cover::{PartAnswer, Verdict};
use labels::{Row, SeriesRef};
use matchers::Query;
use std::alloc::{AllocError, Global};

fn misfit_flaw(verdict: Verdict) -> Flaw
    ensures { result ≡ misfit_flaw verdict }
{
    match verdict {
        Verdict::Match => Flaw::NotMatching,
        Verdict::NoSample => Flaw::NotSilent,
        Verdict::Rejected(matcher) => Flaw::NotRejected { matcher },
    }
}

/// The first flaw of an answer whose intervals are a partition and name matchers that are there, if
/// it has one.
fn flaw_of_cut(
    alloc: Global,
    looks: &mut Looks<'_>,
    series: &[(SeriesRef, Row)],
    answer: &PartAnswer,
) -> Result<Option<Flaw>, AllocError>
    requires part { IsPart series.now }
    requires known { all_known (length looks.old.matchers) answer.now.cover.certificate.items
        ≡ true }
    requires cut { cuts answer.now.cover.certificate.items series.now ≡ true }
    ensures { IfOk result (λ flaw. IsJudgement series.now looks.old answer.now flaw) }
{
    let certificate = answer.cover.certificate.as_slice();
    let separators = answer.cover.separators.as_slice();
    if let Some(verdict) = first_misfit(looks, series, certificate) {
        return Ok(Some(misfit_flaw(verdict)));
    }
    if !are_counted(series, separators, certificate.len()) {
        return Ok(Some(Flaw::SeparatorCount));
    }
    if let Some(at) = first_shared(looks, series, separators) {
        return Ok(Some(Flaw::SeparatorsFit { at }));
    }
    let rows = selected_rows(alloc, looks, series)?;
    if !same_rows(rows.as_slice(), answer.rows.as_slice()) {
        return Ok(Some(Flaw::WrongRows));
    }
    Ok(None)
}

/// The first flaw of an answer, if it has one.
fn first_flaw(
    alloc: Global,
    table: &Table,
    query: &Query,
    answer: &PartAnswer,
) -> Result<Option<Flaw>, AllocError>
    ensures { IfOk result (λ flaw. IsJudgement table.now query.now answer.now flaw) }
{
    let series = table.series();
    let certificate = answer.cover.certificate.as_slice();
    if !all_known(certificate, query.matchers().len()) {
        return Ok(Some(Flaw::UnknownMatcher));
    }
    if !are_cut(series, certificate) {
        return Ok(Some(Flaw::NotAPartition));
    }
    let mut looks = Looks::new(alloc, query)?;
    flaw_of_cut(alloc, &mut looks, series, answer)
}

/// Audits what was answered of a part.
///
/// `Ok` exactly where no verdict names a missing matcher, the intervals are a valid certificate of
/// the part, the separators are strictly ascending references of it, as many as the intervals and
/// no two in one fitting run, and the rows are those that the query selects. Else the first flaw,
/// in this order: `F7`; `F1`; over the intervals in order `F2`, `F3` or `F8`; `F4`; `F5`, at the
/// least place; `F6`.
///
/// By design, and stated by no clause: with n series, m matchers and k intervals it makes at most
/// (m + 1)(3n + k) looks. A look holds one matcher against one value, or the samples of one series
/// against the range.
///
/// An audit takes memory for the searches of patterns, and for the selected rows, which it puts in
/// label order.
pub fn audit(alloc: Global, table: &Table, query: &Query, answer: &PartAnswer) -> Result<(), Flaw>
    ensures sound { OnOk result (IsSoundAnswer table.now query.now answer.now) }
    ensures flawed { IfErr result (λ e. IsAuditError table.now query.now answer.now e) }
{
    match first_flaw(alloc, table, query, answer)? {
        Some(flaw) => Err(flaw),
        None => Ok(()),
    }
}

/// The laws of audits: a sound answer has a least certificate, and no flaw.
pub fn audit_laws()
    ensures least { (part : Part) (query : QueryView) (answer : PartAnswer) → IsPart part
        → IsSoundAnswer part query answer
        → IsLeast (asked part query) answer.cover.certificate.items }
    ensures flawless { (part : Part) (query : QueryView) (answer : PartAnswer) (flaw : Flaw)
        → IsSoundAnswer part query answer → IsFlaw part query answer flaw → ⊥ }
{}
