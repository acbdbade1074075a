//! What is said of a reply.

ghost use Rattle.std.specs.Prelude.{◌≡◌, IfOk, IfErr};
ghost use Rattle.audit_command.specs.Auditing.{has_fault, outcome_of, IsQueryOf};
ghost use Rattle.audit_command.specs.Auditing.{IsSelectionFault, IsReport, IsAuditFault};

use crate::command::Asked;
use crate::fault::Fault;
use crate::files::ReadFiles;
use crate::input::reply_in;
use crate::tables::tables_by;
use crate::walking::Walker;
use auditor::{Line, judge, lines_text};
use matchers::{Query, Selector};
use std::alloc::Global;
use std::io::Read;

/// How an audit that is done ends.
#[derive(Clone, Copy, Debug, PartialEq, Eq, Drop)]
pub enum Outcome {
    /// Nothing is wrong.
    Done,
    /// A line names a flaw or a refusal.
    Flawed,
}

/// The lines of an audit, each ended by a line feed, and whether one names a flaw or a refusal.
#[derive(Debug, Drop)]
pub struct Report {
    pub text: String,
    pub outcome: Outcome,
}

/// The query that was asked: the selector is checked, and then the range. The faults are refusals,
/// `M2` to `M6` and `Q1`, and no memory.
pub fn query_of(alloc: Global, asked: &Asked<'_>) -> Result<Query, Fault>
    ensures ok { IfOk result (λ q. IsQueryOf asked.now q) }
    ensures err { IfErr result (λ fault. IsSelectionFault asked.now fault) }
{
    let matchers = Selector::parse(alloc, asked.selector)?;
    Ok(Query::new(matchers, asked.from, asked.to)?)
}

/// Whether a line names a flaw or a refusal.
fn has_fault(lines: &[Line]) -> bool
    ensures { result ≡ has_fault lines.now }
{
    for line in lines {
        if line.judgement.is_fault() {
            return true;
        }
    }
    false
}

fn outcome_of(lines: &[Line]) -> Outcome
    ensures { result ≡ outcome_of lines.now }
{
    if has_fault(lines) {
        Outcome::Flawed
    } else {
        Outcome::Done
    }
}

/// Audits the reply that a reader gives, over the blocks in the directories.
///
/// The selector is checked, then the range; then the reply is read, to its end, and then the files
/// in each directory, in the order given. All files and the reply are read before anything is
/// judged.
pub(crate) fn audit<K: Walker, F: ReadFiles, R: Read>(
    walker: &K,
    alloc: Global,
    files: &F,
    asked: &Asked<'_>,
    input: &mut R,
) -> Result<Report, Fault>
    requires ready { K.is_ready walker.now }
    ensures ok { IfOk result
        (λ report. IsReport (F.may_read files.now) (R.remaining input.old) asked.now report) }
    ensures err { IfErr result
        (λ fault. IsAuditFault (F.may_read files.now) (R.remaining input.old) asked.now fault) }
{
    let query = query_of(alloc, asked)?;
    let reply = reply_in(alloc, input)?;
    let tables = tables_by(walker, alloc, files, asked.directories.as_slice())?;
    let lines = judge(alloc, tables.as_slice(), &query, reply)?;
    let outcome = outcome_of(lines.as_slice());
    let text = lines_text(alloc, lines.as_slice())?;
    Ok(Report { text, outcome })
}
