//! The line of an answer.

ghost use Rattle.std.specs.Prelude.{◌≡◌, ◌++◌, IfOk, IfErr, OnOk, codes};
ghost use Rattle.answers.specs.Kept.{whole_of};
ghost use Rattle.commands.specs.Printed.{line_text};
ghost use Rattle.commands.specs.Selecting.{IsWritingFault, KeepsAt, WritesAnswer};

use crate::fault::Fault;
use crate::sending::send_answer;
use answers::{AnswerText, AuditedAnswer, Rooms, answer_by_workers, answer_text, body};
use head::Snapshot;
use matchers::Query;
use std::alloc::{AllocError, Global};
use std::io::Write;
use std::thread::Threads;

/// The text of an answer, and a line feed.
pub fn line_of(alloc: Global, answer: &AuditedAnswer) -> Result<Vec<u8>, AllocError>
    ensures { IfOk result (λ line. line.items ≡ line_text answer.now) }
{
    let mut line = body(alloc, answer.parts(), answer.rows())?;
    line.push(b'\n')?;
    Ok(line)
}

/// The text of an answer, as it is kept.
fn text_of<T: Threads + Sync>(
    rt: &T,
    alloc: Global,
    answer: &AuditedAnswer,
) -> Result<AnswerText, AllocError>
    ensures { IfOk result (λ text. whole_of text ++ codes "\n" ≡ line_text answer.now) }
{
    answer_text(rt, alloc, Rooms::none(alloc), answer)
}

/// Writes the audited answer to a query as one line, and nothing else. A worker of its own searches
/// each part, and up to four threads write a long text.
pub fn write_answer<T: Threads + Sync, W: Write>(
    rt: &T,
    alloc: Global,
    snapshot: &Snapshot,
    query: &Query,
    out: &mut W,
) -> Result<(), Fault>
    ensures ok { OnOk result
        (WritesAnswer query.now snapshot.now (W.contents out.old) (W.contents out.new)) }
    ensures faults { IfErr result (λ fault. IsWritingFault fault) }
    ensures kept { IfErr result (λ fault. KeepsAt fault (W.contents out.old) (W.contents out.new)) }
{
    let answer = answer_by_workers(rt, alloc, snapshot, query)?;
    let text = text_of(rt, alloc, &answer)?;
    send_answer(out, &text)?;
    Ok(())
}
