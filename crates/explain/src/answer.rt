//! The page of a reply.

ghost use Rattle.std.specs.Prelude.{◌≡◌, Some, IfOk, IfErr};
ghost use Rattle.asked_series.specs.Series.{IsSeries};
ghost use Rattle.audit_command.specs.Auditing.{IsTextFault};
ghost use Rattle.explain.specs.Series.{IsSeriesFault};
ghost use Rattle.explain.specs.Showing.{IsAbout, IsAboutFault, IsAuditFault, IsToldIn};
ghost use Rattle.explain.specs.Showing.{IsBeside, IsOneAim, IsShownAs, HasRead};
ghost use Rattle.explain.specs.Showing.{IsPageOfFound, Shows, IsAnswer, IsAnswerFault, values_of};
ghost use Rattle.explain.specs.Showing.{IsNoMeaning};

use crate::command::Asked;
use crate::fault::Fault;
use crate::judging::{Judged, judge_reply};
use asked_series::{SeriesError, series_of};
use audit_command::{Fault as AuditFault, ReadFiles, all_of, query_of, reply_of};
use labels::LabelSet;
use matchers::Query;
use page::{Page, Shown, write_page, write_text};
use page_claims::Told;
use page_text::Values;
use sha2::{Digest, Sha256};
use state_claims::said_in;
use std::alloc::{AllocError, Global};
use std::io::Read;
use store_command::{Beside, check_names};

/// The label set of a series that is written as a selector is, with `=` alone.
fn series_in(alloc: Global, text: &str) -> Result<LabelSet, Fault>
    ensures ok { IfOk result (λ labels. IsSeries text.now labels) }
    ensures err { IfErr result (λ fault. IsSeriesFault text.now fault) }
{
    match series_of(alloc, text) {
        Ok(labels) => Ok(labels),
        Err(SeriesError::NoSeries) => Err(Fault::NoSeries),
        Err(SeriesError::Memory) => Err(Fault::Audit(AuditFault::Memory)),
    }
}

/// The series that somebody asks about, if there is one.
fn about_of(alloc: Global, asked: &Asked<'_>) -> Result<Option<LabelSet>, Fault>
    ensures ok { IfOk result (λ about. IsAbout asked.now about) }
    ensures err { IfErr result (λ fault. IsAboutFault asked.now fault) }
{
    match asked.about {
        Some(text) => Ok(Some(series_in(alloc, text)?)),
        None => Ok(None),
    }
}

/// What the values mean.
fn values_of(asked: &Asked<'_>) -> Result<Values, Fault>
    ensures ok { IfOk result (λ values. values_of asked.now ≡ Some values) }
    ensures err { IfErr result (λ fault. IsNoMeaning asked.now fault) }
{
    match asked.values {
        None => Ok(Values::Whole),
        Some(text) => {
            if text == "doubles" {
                Ok(Values::Doubles)
            } else {
                Err(Fault::NoMeaning)
            }
        }
    }
}

/// The reply that a text says, taken apart.
fn told_in(alloc: Global, text: &[u8]) -> Result<Told, Fault>
    ensures ok { IfOk result (λ told. IsToldIn text.now told) }
    ensures err { IfErr result (λ fault. IsAuditFault (IsTextFault text.now) fault) }
{
    let reply = reply_of(alloc, text)?;
    Ok(Told::of(alloc, reply)?)
}

/// Finds that directories are not given beside a store.
fn check_aim(asked: &Asked<'_>) -> Result<(), Fault>
    ensures ok { IfOk result (λ _. IsOneAim asked.now) }
    ensures err { IfErr result (λ fault. IsBeside asked.now fault) }
{
    match check_names(asked.store, &asked.audit) {
        Ok(()) => Ok(()),
        Err(Beside) => Err(Fault::Beside),
    }
}

/// The page, as HTML or as a text.
fn write_shown(alloc: Global, text: bool, shown: &Shown<'_>) -> Result<Page, AllocError>
    ensures { IfOk result (λ page. IsShownAs text shown.now page) }
{
    if text {
        write_text(alloc, shown)
    } else {
        write_page(alloc, shown)
    }
}

/// What was read: the query, the series that somebody asks about, what the values mean, the text of
/// the reply and what it says, and what a judge says of it.
#[derive(Drop)]
pub struct Found {
    pub query: Query,
    pub about: Option<LabelSet>,
    pub values: Values,
    pub text: Vec<u8>,
    pub told: Told,
    pub judged: Judged,
}

/// Reads what is asked, the reply, and the files in the directories or in the store's folder.
fn read_all<F: ReadFiles, R: Read>(
    alloc: Global,
    files: &F,
    asked: &Asked<'_>,
    input: &mut R,
) -> Result<Found, Fault>
    ensures ok { IfOk result
        (λ found. HasRead (F.may_read files.now) (R.remaining input.old) asked.now found) }
    ensures err { IfErr result
        (λ fault. IsAnswerFault (F.may_read files.now) (R.remaining input.old) asked.now fault) }
{
    check_aim(asked)?;
    let query = query_of(alloc, &asked.audit)?;
    let about = about_of(alloc, asked)?;
    let values = values_of(asked)?;
    let text = all_of(alloc, input)?;
    let told = told_in(alloc, text.as_slice())?;
    let judged = judge_reply(alloc, files, asked, &query, text.as_slice())?;
    Ok(Found {
        query,
        about,
        values,
        text,
        told,
        judged,
    })
}

/// The page of what is shown, which was read.
fn write_found(
    alloc: Global,
    asked: &Asked<'_>,
    _found: &Found,
    shown: &Shown<'_>,
) -> Result<Page, AllocError>
    requires { Shows asked.now _found.now shown.now }
    ensures { IfOk result (λ page. IsPageOfFound asked.now _found.now page) }
{
    write_shown(alloc, asked.text, shown)
}

/// The page of what was read, with the length and the SHA-256 of the reply.
fn page_of(alloc: Global, asked: &Asked<'_>, found: &Found) -> Result<Page, AllocError>
    ensures { IfOk result (λ page. IsPageOfFound asked.now found.now page) }
{
    let said = said_in(&found.judged.state);
    let shown = Shown {
        selector: asked.audit.selector,
        query: &found.query,
        told: &found.told,
        tables: found.judged.tables.as_slice(),
        lines: found.judged.lines.as_slice(),
        state: said.as_ref(),
        values: found.values,
        about: found.about.as_ref(),
        length: found.text.len() as u64,
        digest: Sha256::digest(found.text.as_slice()),
    };
    write_found(alloc, asked, found, &shown)
}

/// The page of the reply that a reader gives.
///
/// Directories beside a store are refused first. Then the selector is checked, then the range, then
/// the series that is asked about, then what is said of the values. Then the reply is read, to its
/// end, and then the files in each directory, in the order given, or the folder of the store. The
/// page shows what was read, and what the auditor says of it if a directory or a store was given.
pub fn answer<F: ReadFiles, R: Read>(
    alloc: Global,
    files: &F,
    asked: &Asked<'_>,
    input: &mut R,
) -> Result<Page, Fault>
    ensures ok { IfOk result
        (λ page. IsAnswer (F.may_read files.now) (R.remaining input.old) asked.now page) }
    ensures err { IfErr result
        (λ fault. IsAnswerFault (F.may_read files.now) (R.remaining input.old) asked.now fault) }
{
    let found = read_all(alloc, files, asked, input)?;
    Ok(page_of(alloc, asked, &found)?)
}
