//! The page of an answer.

ghost use Rattle.std.specs.Prelude.{◌≡◌, IfOk, IfErr};
ghost use Rattle.answer_pages.specs.Showing.{IsAnswerPage, IsNoPage, IsPageOfText, IsToldIn};
ghost use Rattle.answer_pages.specs.Showing.{IsUnread, Shows, text_of};

use crate::PageError;
use answers::{AuditedAnswer, body};
use page::{Page, Shown, write_page};
use page_claims::Told;
use page_requests::Question;
use page_text::Values;
use reply_reader::{Reply, ReplyError};
use sha2::{Digest, Sha256};
use std::alloc::{AllocError, Global};

/// The text of an answer.
fn text_of(alloc: Global, answer: &AuditedAnswer) -> Result<Vec<u8>, AllocError>
    ensures { IfOk result (λ text. text.items ≡ text_of answer.now) }
{
    body(alloc, answer.parts(), answer.rows())
}

/// The reply that a text says.
fn reply_in(alloc: Global, text: &[u8]) -> Result<Reply, PageError>
    ensures ok { IfOk result (λ reply. text_said text.now ≡ Some (told_of reply)) }
    ensures err { IfErr result (λ e. IsUnread text.now e) }
{
    match Reply::read(alloc, text) {
        Ok(reply) => Ok(reply),
        Err(ReplyError::BadReply) => Err(PageError::Unread),
        Err(ReplyError::Memory) => Err(PageError::Memory),
    }
}

ghost use Rattle.std.specs.Prelude.{Some};
ghost use Rattle.reply_reader.specs.Replies.{text_said, told_of};

/// The reply that a text says, taken apart.
fn told_in(alloc: Global, text: &[u8]) -> Result<Told, PageError>
    ensures ok { IfOk result (λ told. IsToldIn text.now told) }
    ensures err { IfErr result (λ e. IsUnread text.now e) }
{
    let reply = reply_in(alloc, text)?;
    Ok(Told::of(alloc, reply)?)
}

/// The page of what is shown.
fn write_shown(
    alloc: Global,
    _question: &Question,
    _text: &[u8],
    shown: &Shown<'_>,
) -> Result<Page, AllocError>
    requires { Shows _question.now _text.now shown.now }
    ensures { IfOk result (λ page. IsPageOfText _question.now _text.now page) }
{
    write_page(alloc, shown)
}

/// The page of what a text says, with the length and the SHA-256 of the text.
fn page_of<'a>(
    alloc: Global,
    question: &'a Question,
    text: &[u8],
    told: &'a Told,
) -> Result<Page, AllocError>
    requires { IsToldIn text.now told.now }
    ensures { IfOk result (λ page. IsPageOfText question.now text.now page) }
{
    let shown = Shown {
        selector: question.selector.as_str(),
        query: &question.query,
        told,
        tables: &[],
        lines: &[],
        state: None,
        values: Values::Doubles,
        about: question.about.as_ref(),
        length: text.len() as u64,
        digest: Sha256::digest(text),
    };
    write_shown(alloc, question, text, &shown)
}

/// The page of an answer to a question: that of `explain` for the answer's text, which is read back
/// and which nobody judged. It takes memory for the text, for what it says and for the page.
///
/// A page of more than 268,435,456 bytes is refused as if there were no memory for it. No law says
/// that the text of an answer is always read: `Unread` comes only where it says no reply.
pub fn write_answer_page(
    alloc: Global,
    question: &Question,
    answer: &AuditedAnswer,
) -> Result<Vec<u8>, PageError>
    ensures ok { IfOk result (λ bytes. IsAnswerPage question.now answer.now bytes.items) }
    ensures err { IfErr result (λ e. IsNoPage answer.now e) }
{
    let text = text_of(alloc, answer)?;
    let bytes = text.as_slice();
    let told = told_in(alloc, bytes)?;
    let page = page_of(alloc, question, bytes, &told)?;
    Ok(page.bytes)
}
