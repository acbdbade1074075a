//! Judging a reply over the folder of a store.

ghost use Rattle.std.specs.Prelude.{◌≡◌, IfOk, IfErr, length};
ghost use Rattle.kept_folder.specs.Folders.{IsJournalAt, IsStoreAt};
ghost use Rattle.store_command.specs.Judging.{IsFolderFault, IsJournalFault, IsJudgingFault};
ghost use Rattle.store_command.specs.Judging.{IsMarkIn, IsNoMark, IsReport, IsReportOf};
ghost use Rattle.store_command.specs.Judging.{IsStoreAuditFault, IsToldAs, Tells, lost_mark};
ghost use Rattle.store_command.specs.Judging.{since_text};

use crate::command::Asked;
use crate::fault::{Earlier, Fault};
use crate::mark::{Mark, Since};
use crate::report::{Report, has_refused, is_right, refused_report, report_of, walked};
use audit_command::{OneThread, ReadFiles, Walker, query_of, reply_in};
use auditor::Reply;
use kept_folder::{FoundJournal, FoundStore, StoreFault, read_kept, read_store_by};
use matchers::Query;
use std::alloc::Global;
use std::io::Read;
use store_audit::{StateReport, StoreJudgement, judge_store};

/// The mark that is given to `--since`, if one is.
fn since_in(asked: &Asked<'_>) -> Result<Option<Mark>, Fault>
    ensures ok { IfOk result (IsMarkIn (since_text asked.now)) }
    ensures err { IfErr result (IsNoMark asked.now) }
{
    match asked.since {
        None => Ok(None),
        Some(text) => match Mark::read(text) {
            Some(mark) => Ok(Some(mark)),
            None => Err(Fault::NoMark),
        },
    }
}

/// Why a folder is not read, as it is told.
fn told_as(alloc: Global, folder: &str, fault: StoreFault) -> Fault
    ensures { IsToldAs folder.now fault result }
{
    match fault {
        StoreFault::Files(fault) => Fault::Audit(fault),
        StoreFault::Refused(error) => Fault::Journal(error),
        StoreFault::Changes => match String::from_str(alloc, folder) {
            Ok(folder) => Fault::Changes(folder),
            Err(error) => Fault::from(error),
        },
    }
}

/// Reads the folder of a store, and has its blocks walked.
fn read_folder_by<K: Walker, F: ReadFiles>(
    walker: &K,
    alloc: Global,
    files: &F,
    folder: &str,
) -> Result<FoundStore, Fault>
    requires ready { K.is_ready walker.now }
    ensures ok { IfOk result (λ found. IsStoreAt (F.may_read files.now) folder.now found) }
    ensures err { IfErr result (λ fault. IsFolderFault (F.may_read files.now) folder.now fault) }
{
    match read_store_by(walker, alloc, files, folder) {
        Ok(found) => Ok(found),
        Err(fault) => Err(told_as(alloc, folder, fault)),
    }
}

/// Reads the folder of a store, by the calling thread alone.
pub fn read_folder<F: ReadFiles>(
    alloc: Global,
    files: &F,
    folder: &str,
) -> Result<FoundStore, Fault>
    ensures ok { IfOk result (λ found. IsStoreAt (F.may_read files.now) folder.now found) }
    ensures err { IfErr result (λ fault. IsFolderFault (F.may_read files.now) folder.now fault) }
{
    read_folder_by(&OneThread, alloc, files, folder)
}

/// Reads the journal of the store in a folder alone.
pub fn read_journal<F: ReadFiles>(
    alloc: Global,
    files: &F,
    folder: &str,
) -> Result<FoundJournal, Fault>
    ensures ok { IfOk result (λ found. IsJournalAt (F.may_read files.now) folder.now found) }
    ensures err { IfErr result (λ fault. IsJournalFault (F.may_read files.now) folder.now fault) }
{
    match read_kept(alloc, files, folder) {
        Ok(found) => Ok(found),
        Err(fault) => Err(told_as(alloc, folder, fault)),
    }
}

/// The mark of a journal that is gone, if the reply is right of no state that is there.
fn lost_mark(since: Since, said: &StateReport) -> Option<Mark>
    ensures { result ≡ lost_mark since said.now }
{
    match since {
        Since::Anywhere | Since::Held(_) => None,
        Since::Rolled(mark) => { if is_right(said) { None } else { Some(mark) } }
    }
}

/// The report on a reply; none, if it may be right of a state that is gone, or is right of one
/// before the mark alone.
fn told(alloc: Global, since: Since, head: u32, said: &StateReport) -> Result<Report, Fault>
    ensures { Tells since head said.now result }
{
    match lost_mark(since, said) {
        Some(mark) => Err(Fault::Rolled(mark.text(alloc)?)),
        None => match said.earlier {
            Some(at) => {
                let mark = Mark::at(head, since.first()).text(alloc)?;
                let events = said.events;
                Err(Fault::Before(Earlier { at, events, mark }))
            }
            None => Ok(report_of(alloc, since, head, said)?),
        },
    }
}

/// The report on a reply over what is read of the folder.
fn report_over(
    alloc: Global,
    found: FoundStore,
    query: &Query,
    reply: Reply,
    mark: Option<Mark>,
) -> Result<Report, Fault>
    ensures ok { IfOk result (IsReportOf query.now reply mark found) }
    ensures err { IfErr result (IsJudgingFault query.now reply mark found) }
{
    let FoundStore { kept, head, tables } = found;
    if has_refused(tables.as_slice()) {
        return Ok(refused_report(alloc, tables.as_slice())?);
    }
    let parts = walked(alloc, tables)?;
    let since = Since::of(mark, head, kept.changes().len());
    match judge_store(alloc, kept, parts, query, reply, since.first())? {
        StoreJudgement::Told(said) => told(alloc, since, head, &said),
        StoreJudgement::BadHead => Err(Fault::Head),
        StoreJudgement::BadEvent(at) => Err(Fault::Event(at)),
    }
}

/// Judges the reply that a reader gives over the folder of a store.
///
/// The mark is looked at first, then the selector is checked, then the range; then the reply is
/// read, to its end, and then the folder.
pub fn audit<K: Walker, F: ReadFiles, R: Read>(
    walker: &K,
    alloc: Global,
    files: &F,
    asked: &Asked<'_>,
    input: &mut R,
) -> Result<Report, Fault>
    requires ready { K.is_ready walker.now }
    ensures ok { IfOk result
        (λ report. IsReport (F.may_read files.now) (R.remaining input.old) asked.now report) }
    ensures err { IfErr result (λ fault.
        IsStoreAuditFault (F.may_read files.now) (R.remaining input.old) asked.now fault) }
{
    let mark = since_in(asked)?;
    let query = query_of(alloc, &asked.audit)?;
    let reply = reply_in(alloc, input)?;
    let found = read_folder_by(walker, alloc, files, asked.store)?;
    report_over(alloc, found, &query, reply, mark)
}
