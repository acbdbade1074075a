//! A reply, as it is made.

ghost use Rattle.std.specs.Prelude.{◌≡◌, IfOk, string_bytes};
ghost use Rattle.serde_json.specs.View.{view};
ghost use Rattle.serde_json.specs.Written.{compact_text};
ghost use Rattle.remote_requests.specs.declared.status.Status.TheVariants.{Done};
ghost use Rattle.remote_http.specs.Reply.{text_of};
ghost use Rattle.remote_http.specs.Text.{build_data, build_text, done_data, head_text, json_lines};
ghost use Rattle.remote_http.specs.Text.{html_text, json_text, packed_text};
ghost use Rattle.remote_http.specs.Writing.{IsReplyOfRefusal};

use remote_requests::{Refusal, Status};
use serde_json::{Value, json};
use std::alloc::{AllocError, Global};

/// A reply: its status, its head, and the body behind it.
#[derive(Drop)]
pub struct Reply {
    pub(crate) status: Status,
    pub(crate) head: Vec<u8>,
    pub(crate) body: Vec<u8>,
}

impl Reply {
    /// The status.
    pub fn status(&self) -> Status
        ensures { result ≡ self.now.status }
    {
        self.status
    }

    /// The lines before the body, and the empty one.
    pub fn head(&self) -> &[u8]
        ensures { result.now ≡ self.now.head.items }
    {
        self.head.as_slice()
    }

    /// The body.
    pub fn body(&self) -> &[u8]
        ensures { result.now ≡ self.now.body.items }
    {
        self.body.as_slice()
    }

    /// Its head, and its body.
    pub fn into_parts(self) -> (Vec<u8>, Vec<u8>)
        ensures head { result.0.items ≡ self.head.items }
        ensures body { result.1.items ≡ self.body.items }
    {
        (self.head, self.body)
    }
}

const JSON: &str = "Content-Type: application/json\r\n";

const HTML: &str = "Content-Type: text/html; charset=utf-8\r\n";

const PACKED: &str = "Content-Type: application/x-protobuf\r\nContent-Encoding: snappy\r\n";

fn head_line(alloc: Global, status: Status, lines: &str, len: usize) -> Result<String, AllocError>
    ensures { IfOk result (λ head. string_bytes head ≡ head_text status lines.now len) }
{
    let number = status.number();
    let reason = status.reason();
    format!(in alloc;
        "HTTP/1.1 {number} {reason}\r\n{lines}Content-Length: {len}\r\nConnection: close\r\n\r\n"
    )
}

fn head_of(alloc: Global, status: Status, lines: &str, len: usize) -> Result<Vec<u8>, AllocError>
    ensures { IfOk result (λ head. head.items ≡ head_text status lines.now len) }
{
    Ok(head_line(alloc, status, lines, len)?.into_bytes())
}

/// The reply with this status and this line of JSON.
pub(crate) fn json_reply(alloc: Global, status: Status, body: Vec<u8>) -> Result<Reply, AllocError>
    ensures number { IfOk result (λ r. r.status ≡ status) }
    ensures spelled { IfOk result (λ r. text_of r ≡ json_text status body.items) }
{
    let head = head_of(alloc, status, JSON, body.len())?;
    Ok(Reply { status, head, body })
}

/// The reply of success with this message, compressed.
pub(crate) fn packed_reply(alloc: Global, body: Vec<u8>) -> Result<Reply, AllocError>
    ensures number { IfOk result (λ r. r.status ≡ Done) }
    ensures spelled { IfOk result (λ r. text_of r ≡ packed_text body.items) }
{
    let status = Status::Done;
    let head = head_of(alloc, status, PACKED, body.len())?;
    Ok(Reply { status, head, body })
}

/// The reply of success with this page.
pub(crate) fn html_reply(alloc: Global, body: Vec<u8>) -> Result<Reply, AllocError>
    ensures number { IfOk result (λ r. r.status ≡ Done) }
    ensures spelled { IfOk result (λ r. text_of r ≡ html_text body.items) }
{
    let status = Status::Done;
    let head = head_of(alloc, status, HTML, body.len())?;
    Ok(Reply { status, head, body })
}

/// The reply of a refusal.
pub(crate) fn refusal_reply(alloc: Global, refusal: &Refusal) -> Result<Reply, AllocError>
    ensures { IfOk result (λ r. IsReplyOfRefusal refusal.now r.status (text_of r)) }
{
    let line = refusal.line(alloc)?;
    json_reply(alloc, refusal.status(), line)
}

fn done_value(alloc: Global) -> Result<Value, AllocError>
    ensures { IfOk result (λ v. view v ≡ done_data) }
{
    json!(in alloc; {"ok": true})
}

fn done_line(alloc: Global) -> Result<Vec<u8>, AllocError>
    ensures { IfOk result (λ line. line.items ≡ compact_text done_data) }
{
    done_value(alloc)?.to_vec(alloc)
}

/// The reply if all was done: the body is `{"ok":true}`.
pub(crate) fn done_reply(alloc: Global) -> Result<Reply, AllocError>
    ensures number { IfOk result (λ r. r.status ≡ Done) }
    ensures spelled { IfOk result (λ r. text_of r ≡ json_text Done (compact_text done_data)) }
{
    let line = done_line(alloc)?;
    json_reply(alloc, Status::Done, line)
}

fn build_value(alloc: Global, version: &str) -> Result<Value, AllocError>
    ensures { IfOk result (λ v. view v ≡ build_data version.now) }
{
    json!(in alloc; {"data": {"version": version}, "status": "success"})
}

fn build_line(alloc: Global, version: &str) -> Result<Vec<u8>, AllocError>
    ensures { IfOk result (λ line. line.items ≡ compact_text (build_data version.now)) }
{
    build_value(alloc, version)?.to_vec(alloc)
}

/// The reply that reports the version.
pub(crate) fn build_reply(alloc: Global, version: &str) -> Result<Reply, AllocError>
    ensures number { IfOk result (λ r. r.status ≡ Done) }
    ensures spelled { IfOk result (λ r. text_of r ≡ build_text version.now) }
{
    let line = build_line(alloc, version)?;
    json_reply(alloc, Status::Done, line)
}
