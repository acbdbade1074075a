//! The text of a reply.

ghost use Rattle.std.specs.Prelude.{◌≡◌, ◌++◌, IfOk, OnOk, decimal, string_bytes};
ghost use Rattle.serde_json.specs.View.{view};
ghost use Rattle.serde_json.specs.Written.{compact_text};
ghost use Rattle.requests.specs.Refusals.{told_cause, code_of, status_of, cause_of};
ghost use Rattle.requests.specs.Replies.{refusal_data, cause_data, done_data, head_text};
ghost use Rattle.requests.specs.Replies.{reply_text, success_head};
ghost use Rattle.requests.specs.Replies.{refusal_body, refusal_text, done_text};

use crate::{Cause, Refusal, Status};
use itoa::write_digits;
use serde_json::{Value, json};
use std::alloc::{AllocError, Global};

fn head(alloc: Global, number: u16, reason: &str, len: usize) -> Result<String, AllocError>
    ensures { IfOk result (λ text. string_bytes text ≡ head_text number reason.now len) }
{
    format!(in alloc;
        "HTTP/1.1 {number} {reason}\r\nContent-Type: application/json\r\n\
         Content-Length: {len}\r\nConnection: close\r\n\r\n"
    )
}

fn reply(alloc: Global, status: Status, body: &[u8]) -> Result<Vec<u8>, AllocError>
    ensures { IfOk result (λ text. text.items ≡ reply_text status body.now) }
{
    let mut text = head(alloc, status.number(), status.reason(), body.len())?.into_bytes();
    text.extend_from_slice(body)?;
    Ok(text)
}

fn append_number(out: &mut Vec<u8>, n: u64) -> Result<(), AllocError>
    ensures { OnOk result (out.new.items ≡ out.old.items ++ decimal n) }
{
    let mut buf = [0; 20];
    let start = write_digits(n, &mut buf, 20);
    out.extend_from_slice(&buf[start..])
}

/// Appends what a reply of success has before a body of so many bytes.
pub fn append_success_head(out: &mut Vec<u8>, len: usize) -> Result<(), AllocError>
    ensures { OnOk result (out.new.items ≡ out.old.items ++ success_head len) }
{
    out.extend_from_slice(
        b"HTTP/1.1 200 OK\r\nContent-Type: application/json\r\nContent-Length: ",
    )?;
    append_number(out, len as u64)?;
    out.extend_from_slice(b"\r\nConnection: close\r\n\r\n")?;
    Ok(())
}

/// The reply to a change that was made: the body is `{"ok":true}`.
pub fn done_reply(alloc: Global) -> Result<Vec<u8>, AllocError>
    ensures { IfOk result (λ text. text.items ≡ done_text) }
{
    let body = done_value(alloc)?.to_vec(alloc)?;
    reply(alloc, Status::Done, body.as_slice())
}

fn done_value(alloc: Global) -> Result<Value, AllocError>
    ensures { IfOk result (λ v. view v ≡ done_data) }
{
    json!(in alloc; {"ok": true})
}

fn caused_value(alloc: Global, code: &str, cause: Cause) -> Result<Value, AllocError>
    ensures { IfOk result (λ v. view v ≡ cause_data code.now (told_cause cause)) }
{
    let cause_code = cause.code;
    match cause.at {
        Some(at) => json!(in alloc; {"at": at, "cause": cause_code, "refused": code}),
        None => json!(in alloc; {"cause": cause_code, "refused": code}),
    }
}

fn refusal_value(alloc: Global, refusal: &Refusal) -> Result<Value, AllocError>
    ensures { IfOk result
        (λ v. view v ≡ refusal_data (code_of refusal.now) (cause_of refusal.now)) }
{
    let code = refusal.code();
    match refusal.cause() {
        Some(cause) => caused_value(alloc, code, cause),
        None => json!(in alloc; {"refused": code}),
    }
}

fn refusal_body(alloc: Global, refusal: &Refusal) -> Result<Vec<u8>, AllocError>
    ensures { IfOk result (λ body. body.items ≡ refusal_body refusal.now) }
{
    refusal_value(alloc, refusal)?.to_vec(alloc)
}

impl Refusal {
    /// The reply that answers the refused request: its body names the refusal, and the cause
    /// behind it.
    pub fn reply(&self, alloc: Global) -> Result<Vec<u8>, AllocError>
        ensures { IfOk result (λ text. text.items ≡ refusal_text self.now) }
    {
        let body = refusal_body(alloc, self)?;
        reply(alloc, self.status(), body.as_slice())
    }
}
