//! What a page shows of a store, and the reply that carries it.

ghost use Rattle.std.specs.Prelude.{◌≡◌, IfOk};
ghost use mathlib.Core.List.{IsPrefix};
ghost use Rattle.remote_http.specs.Paging.{IsAnswerReply, IsHomeReply, IsPageReply};
ghost use Rattle.remote_http.specs.Reply.{text_of};

use crate::reply::{Reply, html_reply, refusal_reply};
use answer_pages::{PageError, write_answer_page, write_form};
use answers::{AskError, AuditedAnswer, ask_by};
use page_requests::Question;
use remote_requests::Refusal;
use snapshots::{Naming, Pass};
use std::alloc::{AllocError, Global};
use std::thread::Threads;

/// The form that asks for a page.
pub(crate) fn home(alloc: Global) -> Result<Reply, AllocError>
    ensures { IfOk result (λ r. IsHomeReply r.status (text_of r)) }
{
    let bytes = write_form(alloc)?;
    html_reply(alloc, bytes)
}

/// The page of an answer.
fn page_of(alloc: Global, question: &Question, found: &AuditedAnswer) -> Result<Reply, AllocError>
    ensures { IfOk result (λ r. IsAnswerReply question.now found.now r.status (text_of r)) }
{
    match write_answer_page(alloc, question, found) {
        Ok(bytes) => html_reply(alloc, bytes),
        Err(PageError::Unread) => refusal_reply(alloc, &Refusal::Unavailable),
        Err(PageError::Memory) => Err(AllocError),
    }
}

/// The page of the pass's next snapshot. The answer is in memory, then its text, what that says,
/// and the page.
pub(crate) fn page<J: Naming, R: Threads + Sync>(
    rt: &R,
    alloc: Global,
    question: &Question,
    pass: &mut Pass<J>,
) -> Result<Reply, AllocError>
    ensures reply { IfOk result (λ r.
        IsPageReply J.opening question.now pass.old pass.new r.status (text_of r)) }
    ensures told { pass.new.told ≡ pass.old.told }
    ensures seen { IsPrefix pass.old.seen pass.new.seen }
{
    match ask_by(rt, alloc, pass, &question.query) {
        Ok(found) => page_of(alloc, question, &found),
        Err(AskError::Snapshot(_)) => refusal_reply(alloc, &Refusal::Unavailable),
        Err(AskError::Memory) => Err(AllocError),
    }
}
