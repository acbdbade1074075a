//! Requests and replies, as cases write them.

use crate::spelling::spell;
use std::alloc::{AllocError, Global};
use std::mem;

/// How the connections of a step go, which bring one text and are to get another.
#[derive(Clone, Copy, PartialEq, Eq)]
pub enum Way {
    /// The only connection gets the text.
    Replied,
    /// The only connection gets a reply of success, in which the text is.
    RepliedWith,
    /// The only connection is closed.
    Closed,
    /// Of connections that take a byte more each, each gets as many bytes of the text as it takes,
    /// and its writer fails.
    CutShort,
    /// Of connections that give a piece more each, each gets nothing, and its reader fails.
    Unread,
}

/// Connections to a store that bring one text and are to get another.
#[derive(Drop)]
pub struct Step<'a> {
    pub line: &'a str,
    pub input: Vec<u8>,
    pub way: Way,
    pub text: Vec<u8>,
}

fn put_query(out: &mut String, from: &str, to: &str, selector: &[u8]) -> Result<(), AllocError> {
    out.push_str("GET /select?selector=")?;
    for byte in selector {
        write!(out, "%{byte:02X}")?;
    }
    write!(out, "&from={from}&to={to} HTTP/1.1\r\n\r\n")
}

/// The request `select FROM TO SELECTOR`, without its first word.
fn query_of(alloc: Global, text: &str) -> Option<Vec<u8>> {
    let (from, text) = text.split_once(' ')?;
    let (to, selector) = text.split_once(' ')?;
    let selector = spell(alloc, selector)?;
    let mut out = String::new(alloc);
    put_query(&mut out, from, to, &selector).ok()?;
    Some(out.into_bytes())
}

/// A head with its length, and a body.
fn with_body(alloc: Global, head: &str, body: &[u8]) -> Option<Vec<u8>> {
    let head = spell(alloc, head)?;
    let mut bytes = Vec::new(alloc);
    bytes.extend_from_slice(&head).ok()?;
    bytes.extend_from_slice(body).ok()?;
    Some(bytes)
}

/// A request in short.
fn request_of(alloc: Global, text: &str) -> Option<Vec<u8>> {
    if let Some(query) = text.strip_prefix("select ") {
        return query_of(alloc, query);
    }
    if let Some(post) = text.strip_prefix("POST ") {
        let (path, body) = post.split_once(' ')?;
        let body = spell(alloc, body)?;
        let len = body.len();
        let head = format!(in alloc; "POST {path} HTTP/1.1\r\nContent-Length: {len}\r\n\r\n").ok()?;
        return with_body(alloc, head.as_str(), &body);
    }
    let head = format!(in alloc; "{text} HTTP/1.1\r\n\r\n").ok()?;
    spell(alloc, head.as_str())
}

/// A reply in short: its status line without the protocol, and its body.
fn reply_of(alloc: Global, text: &str) -> Option<Vec<u8>> {
    let (status, body) = text.split_once(" {")?;
    let body = spell(alloc, body)?;
    let len = body.len().saturating_add(1);
    let head = format!(in alloc;
        "HTTP/1.1 {status}\r\nContent-Type: application/json\r\nContent-Length: {len}\r\nConnection: close\r\n\r\n{{"
    ).ok()?;
    with_body(alloc, head.as_str(), &body)
}

/// How the connections that a line ends go, and what they are to get. There is nothing if the line
/// is no reply.
fn wanted_by(alloc: Global, line: &str) -> Option<(Way, Vec<u8>)> {
    if line == "<-" {
        return Some((Way::Closed, Vec::new(alloc)));
    }
    let (mark, text) = line.split_once(' ')?;
    match mark {
        "<" => Some((Way::Replied, reply_of(alloc, text)?)),
        "<<" => Some((Way::Replied, spell(alloc, text)?)),
        "<~" => Some((Way::RepliedWith, spell(alloc, text)?)),
        "x<" => Some((Way::CutShort, reply_of(alloc, text)?)),
        _ => None,
    }
}

/// The steps of a session.
pub fn steps_of<'a>(alloc: Global, lines: &[&'a str]) -> Option<Vec<Step<'a>>> {
    let mut steps = Vec::new(alloc);
    let mut asked: &'a str = "";
    let mut input = Vec::new(alloc);
    for line in lines.iter().skip(1) {
        let line: &'a str = line;
        if let Some(text) = line.strip_prefix("x> ") {
            steps
                .push(Step {
                    line,
                    input: request_of(alloc, text)?,
                    way: Way::Unread,
                    text: Vec::new(alloc),
                })
                .ok()?;
        } else if let Some(text) = line.strip_prefix(">> ") {
            asked = line;
            input = spell(alloc, text)?;
        } else if let Some(text) = line.strip_prefix("> ") {
            asked = line;
            input = request_of(alloc, text)?;
        } else {
            let (way, text) = wanted_by(alloc, line)?;
            let input = mem::replace(&mut input, Vec::new(alloc));
            steps
                .push(Step {
                    line: asked,
                    input,
                    way,
                    text,
                })
                .ok()?;
        }
    }
    Some(steps)
}
