//! What is said of a reply over directories, or over the folder of a store.

ghost use Rattle.std.specs.Prelude.{◌≡◌, ◌⊎◌, None, IfOk, IfErr};
ghost use Rattle.audit_command.specs.Auditing.{IsTextFault};
ghost use Rattle.explain.specs.Showing.{AreLinesOf, IsAuditFault, IsJudgeFault, IsJudgedBy};
ghost use Rattle.explain.specs.Showing.{IsOfBlocks, IsOfFolder, IsOfStore, IsStateOf, IsStoreFault};
ghost use Rattle.explain.specs.Showing.{store_of};
ghost use Rattle.audit_command.specs.Asking.{directories_of};
ghost use Rattle.audit_command.specs.Walking.{IsFirstFault};
ghost use Rattle.store_command.specs.Judging.{IsJudgingFault};

use crate::command::Asked;
use crate::fault::Fault;
use audit_command::{ReadFiles, reply_of, tables_at};
use auditor::{BlockTable, Line, Reply, judge};
use kept_folder::FoundStore;
use matchers::Query;
use state_claims::FoundState;
use std::alloc::{AllocError, Global};
use store_audit::{StateReport, StoreJudgement, judge_store};
use store_command::{
    Fault as StoreFault, has_refused, mark_of, read_folder, refused_lines, walked,
};

/// What is said of a reply: over directories, what is known of the blocks and the auditor's lines;
/// over a store, the lines over a state, or those of the blocks whose files are refused.
#[derive(Drop)]
pub struct Judged {
    pub tables: Vec<BlockTable>,
    pub lines: Vec<Line>,
    pub state: Option<FoundState>,
}

/// What the auditor says of a reply over the blocks that are known; nothing, if there is none.
fn lines_of(
    alloc: Global,
    tables: &[BlockTable],
    query: &Query,
    text: &[u8],
) -> Result<Vec<Line>, Fault>
    ensures ok { IfOk result (λ lines. AreLinesOf tables.now query.now text.now lines.items) }
    ensures err { IfErr result (λ fault. IsAuditFault (IsTextFault text.now) fault) }
{
    if tables.is_empty() {
        return Ok(Vec::new(alloc));
    }
    let reply = reply_of(alloc, text)?;
    Ok(judge(alloc, tables, query, reply)?)
}

/// What is said over the directories.
fn judge_blocks<F: ReadFiles>(
    alloc: Global,
    files: &F,
    asked: &Asked<'_>,
    query: &Query,
    text: &[u8],
) -> Result<Judged, Fault>
    ensures ok { IfOk result (λ judged.
        IsOfBlocks (F.may_read files.now) asked.now query.now text.now judged) }
    ensures err { IfErr result (λ fault. IsAuditFault
        (IsFirstFault (F.may_read files.now) (directories_of asked.now.audit)) fault
        ⊎ IsAuditFault (IsTextFault text.now) fault) }
{
    let tables = tables_at(alloc, files, asked.audit.directories.as_slice())?;
    let lines = lines_of(alloc, tables.as_slice(), query, text)?;
    Ok(Judged {
        tables,
        lines,
        state: None,
    })
}

/// Which state of a store a report is of.
fn state_of(alloc: Global, head: u32, report: StateReport) -> Result<FoundState, AllocError>
    ensures { IfOk result (λ state. IsStateOf head report state) }
{
    let mark = mark_of(alloc, head, &report)?;
    Ok(FoundState {
        lines: report.lines,
        is_found: report.found.is_some(),
        told: report.told,
        events: report.events,
        mark,
    })
}

/// What is said of a reply over the store that is found.
fn judge_found(
    alloc: Global,
    store: FoundStore,
    query: &Query,
    reply: Reply,
) -> Result<Judged, StoreFault>
    ensures ok { IfOk result (λ judged. IsOfStore query.now reply store judged) }
    ensures err { IfErr result (λ fault. IsJudgingFault query.now reply None store fault) }
{
    let FoundStore { kept, head, tables } = store;
    if has_refused(tables.as_slice()) {
        let lines = refused_lines(alloc, tables.as_slice())?;
        return Ok(Judged {
            tables: Vec::new(alloc),
            lines,
            state: None,
        });
    }
    let parts = walked(alloc, tables)?;
    match judge_store(alloc, kept, parts, query, reply, 0)? {
        StoreJudgement::Told(report) => Ok(Judged {
            tables: Vec::new(alloc),
            lines: Vec::new(alloc),
            state: Some(state_of(alloc, head, report)?),
        }),
        StoreJudgement::BadHead => Err(StoreFault::Head),
        StoreJudgement::BadEvent(at) => Err(StoreFault::Event(at)),
    }
}

/// What is said over the folder of a store.
fn judge_folder<F: ReadFiles>(
    alloc: Global,
    files: &F,
    folder: &str,
    query: &Query,
    text: &[u8],
) -> Result<Judged, Fault>
    ensures ok { IfOk result (λ judged.
        IsOfFolder (F.may_read files.now) folder.now query.now text.now judged) }
    ensures err { IfErr result (λ fault.
        IsStoreFault (F.may_read files.now) folder.now query.now text.now fault
        ⊎ IsAuditFault (IsTextFault text.now) fault) }
{
    let reply = reply_of(alloc, text)?;
    let store = read_folder(alloc, files, folder)?;
    Ok(judge_found(alloc, store, query, reply)?)
}

/// What is said of the reply that a text says: over the store that is named, or else over the
/// directories.
pub fn judge_reply<F: ReadFiles>(
    alloc: Global,
    files: &F,
    asked: &Asked<'_>,
    query: &Query,
    text: &[u8],
) -> Result<Judged, Fault>
    ensures ok { IfOk result (λ judged. IsJudgedBy (store_of asked.now) (F.may_read files.now)
        asked.now query.now text.now judged) }
    ensures err { IfErr result (λ fault. IsJudgeFault (store_of asked.now) (F.may_read files.now)
        asked.now query.now text.now fault) }
{
    match asked.store {
        None => judge_blocks(alloc, files, asked, query, text),
        Some(folder) => judge_folder(alloc, files, folder, query, text),
    }
}
