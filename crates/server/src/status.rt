//! The status port: what the server says of itself.

ghost use Rattle.std.specs.Prelude.{◌≡◌, ◌==◌, ◌++◌, ℕ, Bool, List, Decides, MatchOption, IfOk};
ghost use Rattle.std.specs.Prelude.{IfSome, codes, position, string_bytes};
ghost use Rattle.std.specs.Io.KnownBytes.{Consumes};
ghost use Rattle.server.specs.Status.{Lacks, IsParted, HasEnd, IsLine, IsRequest, IsPath, AsksAt};
ghost use Rattle.server.specs.Status.{Asks, plain_line, plain_body, TellsCounts, IsPlain, IsAnswer};
ghost use Rattle.server.specs.Status.{allow_of, head_text, is_bare, IsReply, IsReplyTo};
ghost use Rattle.server.specs.Status.{IsHeadOfReply, IsReplied, AreAskedOnce};

use crate::ending::end;
use server_metrics::{Counts, State, metrics};
use std::alloc::{AllocError, Global};
use std::io::{self, Read, Write};
use std::net::{TcpListener, TcpStream};
use std::sync::atomic::{AtomicBool, Ordering};
use std::thread::sleep;
use std::time::{Clock, Duration, Instant};

/// How long the listener of the status port is left alone if nobody asks, in milliseconds.
const PAUSE: u64 = 20;

/// For how many milliseconds a client of the status port may give or take no byte.
const SILENCE: u64 = 300;

/// After how many milliseconds no read of a request begins. Reading it takes a second at most.
const LATEST: u64 = 700;

/// The most bytes of a request that are read.
const MOST: usize = 8192;

/// Who knows the state of a server.
pub trait Report {
    /// Whether the blocks are open.
    ghost ready: { Self → Bool };

    /// Whether the blocks are open.
    fn is_ready(&self) -> bool
        ensures { result ≡ ready self.now };

    /// What was counted until now.
    fn counts(&self) -> Counts;

    /// The state now, if that is known.
    fn state(&mut self) -> Option<State>;
}

/// What a client asks for.
#[derive(Clone, Copy, Debug, PartialEq, Eq)]
enum Asked {
    Metrics,
    Healthy,
    Ready,
    /// There is no such path.
    NoPath,
    /// A path is asked for by another method than `GET` and `HEAD`.
    NoMethod,
    /// What came begins with no line of a request, did not end in time, or is too long.
    NoRequest,
}

/// Whether the end of a head has come.
fn has_end(head: &[u8]) -> bool
    ensures { Decides result (HasEnd head.now) }
{
    let mut left = head;
    'tails: while let Some((_byte, rest)) = left.split_first() {
        if left.starts_with(b"\r\n\r\n") {
            return true;
        }
        left = rest;
    }
    false
}

/// The first place of a byte.
fn place_of(text: &[u8], byte: u8) -> Option<usize>
    ensures { result ≡ position (λ one. one == byte) text.now }
{
    text.iter().position(|one| *one == byte)
}

/// What comes before the first of these bytes, and what comes behind it.
fn parted(text: &[u8], byte: u8) -> Option<(&[u8], &[u8])>
    ensures { MatchOption result (Lacks byte text.now)
        (λ parts. IsParted byte text.now parts.0.now parts.1.now) }
{
    match place_of(text, byte) {
        Some(place) => Some((&text[..place], &text[place + 1..])),
        None => None,
    }
}

/// The path of a target: what comes before its query.
fn path_in(target: &[u8]) -> &[u8]
    ensures { IsPath target.now result.now }
{
    match parted(target, b'?') {
        Some((path, _query)) => path,
        None => target,
    }
}

/// What is asked for at this path, by a method that paths take.
fn asked_at(path: &[u8]) -> Asked
    ensures { (bytes : List ℕ) → AsksAt bytes path.now → Asks bytes result }
{
    if path == b"/metrics".as_slice() {
        Asked::Metrics
    } else if path == b"/healthy".as_slice() {
        Asked::Healthy
    } else if path == b"/ready".as_slice() {
        Asked::Ready
    } else {
        Asked::NoPath
    }
}

/// Whether the client wants no body: its method is `HEAD`.
fn is_bare(head: &[u8]) -> bool
    ensures { result ≡ is_bare head.now }
{
    head.starts_with(b"HEAD ")
}

/// The method and the target of a line, if it is the first line of a request.
fn words_of(line: &[u8]) -> Option<(&[u8], &[u8])>
    ensures { MatchOption result ((method target : List ℕ) → IsLine line.now method target → ⊥)
        (λ words. IsLine line.now words.0.now words.1.now) }
{
    let (method, rest) = parted(line, b' ')?;
    let (target, version) = parted(rest, b' ')?;
    if method.is_empty() || target.is_empty() || !version.starts_with(b"HTTP/1.") {
        return None;
    }
    Some((method, target))
}

/// What a request with this method and this target asks for.
fn asked_of(method: &[u8], target: &[u8]) -> Asked
    ensures { (bytes : List ℕ) → IsRequest bytes method.now target.now → Asks bytes result }
{
    if method == b"GET".as_slice() || method == b"HEAD".as_slice() {
        asked_at(path_in(target))
    } else {
        Asked::NoMethod
    }
}

/// What is asked for by what came.
fn asked_in(head: &[u8]) -> Asked
    ensures { Asks head.now result }
{
    if !has_end(head) {
        return Asked::NoRequest;
    }
    let Some((line, _fields)) = parted(head, b'\r') else {
        return Asked::NoRequest;
    };
    let Some((method, target)) = words_of(line) else {
        return Asked::NoRequest;
    };
    asked_of(method, target)
}

/// The status line and the body of a reply without counts.
fn plain_answer(asked: Asked, is_ready: bool) -> (&'static str, &'static str)
    ensures line { result.0.now ≡ plain_line asked is_ready }
    ensures body { result.1.now ≡ plain_body asked is_ready }
{
    match asked {
        Asked::Metrics => ("503 Service Unavailable", "not known\n"),
        Asked::Healthy => ("200 OK", "healthy\n"),
        Asked::Ready if is_ready => ("200 OK", "ready\n"),
        Asked::Ready => ("503 Service Unavailable", "not ready\n"),
        Asked::NoPath => ("404 Not Found", "no such path\n"),
        Asked::NoMethod => ("405 Method Not Allowed", "not this method\n"),
        Asked::NoRequest => ("400 Bad Request", "no request\n"),
    }
}

fn told_answer(
    alloc: Global,
    asked: Asked,
    is_ready: bool,
) -> Result<(&'static str, Vec<u8>), AllocError>
    ensures { IfOk result (λ told. IsPlain asked is_ready told.0.now told.1.items) }
{
    let (line, text) = plain_answer(asked, is_ready);
    Ok((line, Vec::from_slice(alloc, text.as_bytes())?))
}

/// The status line and the body of what was counted, if the state is known.
fn counts_answer<S: Report>(
    alloc: Global,
    report: &mut S,
) -> Result<Option<(&'static str, Vec<u8>)>, AllocError>
    ensures { IfOk result (λ found. IfSome found (λ told. TellsCounts told.0.now told.1.items)) }
{
    let Some(state) = report.state() else {
        return Ok(None);
    };
    let text = metrics(alloc, &report.counts(), &state)?;
    Ok(Some(("200 OK", text)))
}

/// The status line and the body of what is asked for.
#[tactic(auto, using(crate::proofs::Replies::plain_answered))]
fn answer_of<S: Report>(
    alloc: Global,
    asked: Asked,
    report: &mut S,
) -> Result<(&'static str, Vec<u8>), AllocError>
    ensures { IfOk result (λ told.
        IsAnswer asked (S.ready report.old) told.0.now told.1.items) }
{
    let is_ready = report.is_ready();
    if let Asked::Metrics = asked {
        if let Some(told) = counts_answer(alloc, report)? {
            return Ok(told);
        }
    }
    told_answer(alloc, asked, is_ready)
}

/// The field that says which methods there are, in the reply to another one.
fn allow_of(asked: Asked) -> &'static str
    ensures { result.now ≡ allow_of asked }
{
    match asked {
        Asked::NoMethod => "Allow: GET, HEAD\r\n",
        _ => "",
    }
}

/// The head of a reply with this status line and a body of this length.
fn head_of(alloc: Global, line: &str, allow: &str, length: usize) -> Result<String, AllocError>
    ensures { IfOk result (λ text. string_bytes text ≡ head_text line.now allow.now length) }
{
    format!(in alloc;
        "HTTP/1.1 {line}\r\nContent-Type: text/plain; version=0.0.4; charset=utf-8\r\n\
         Connection: close\r\n{allow}Content-Length: {length}\r\n\r\n"
    )
}

/// The whole reply, which has no body if the client wants none.
#[tactic(auto, using(crate::proofs::Replies::answer_replied))]
fn reply_of<S: Report>(
    alloc: Global,
    asked: Asked,
    is_bare: bool,
    report: &mut S,
) -> Result<Vec<u8>, AllocError>
    ensures { IfOk result (λ reply. IsReply asked is_bare (S.ready report.old) reply.items) }
{
    let (line, body) = answer_of(alloc, asked, report)?;
    let mut reply = head_of(alloc, line, allow_of(asked), body.len())?.into_bytes();
    if !is_bare {
        reply.extend_from_slice(body.as_slice())?;
    }
    Ok(reply)
}

/// The reply to what came.
fn reply_to<S: Report>(alloc: Global, head: &[u8], report: &mut S) -> Result<Vec<u8>, AllocError>
    ensures { IfOk result (λ reply. IsReplyTo head.now (S.ready report.old) reply.items) }
{
    reply_of(alloc, asked_in(head), is_bare(head), report)
}

/// The law of what is asked: bytes ask for one thing, so they get one reply.
pub fn asked_law()
    ensures { AreAskedOnce }
{}

/// The law of `HEAD`: its reply is the head of a reply that `GET` gets.
pub fn head_law()
    ensures { (rest reply : List ℕ) (ready : Bool) → IsReplyTo (codes "HEAD " ++ rest) ready reply
        → IsHeadOfReply (codes "GET " ++ rest) ready reply }
{}

/// Reads the head of a request. If it is long or slow or if all is over, it reads its first bytes.
fn read_head<R: Read>(
    rt: &impl Clock,
    alloc: Global,
    reader: &mut R,
    over: &AtomicBool,
) -> io::Result<Vec<u8>>
    ensures { IfOk result (λ head.
        Consumes (R.remaining reader.old) (R.remaining reader.new) head.items) }
{
    let mut head = Vec::new(alloc);
    let mut piece = [0u8; 512];
    let start = Instant::now(rt)?;
    for _ in 0..MOST {
        let Ok(count) = reader.read(&mut piece) else {
            break;
        };
        head.extend_from_slice(&piece[..count])?;
        let is_late = start.elapsed(rt)? > Duration::from_millis(LATEST);
        let is_ended = count == 0 || head.len() >= MOST || has_end(head.as_slice());
        if is_ended || is_late || over.load(Ordering::SeqCst) {
            break;
        }
    }
    Ok(head)
}

/// Reads what one client asks, writes the reply to it, and returns what was read. A read ends with
/// the head, or earlier if that is long or slow or all is over.
pub fn answer_client<R: Read, W: Write, S: Report>(
    rt: &impl Clock,
    alloc: Global,
    reader: &mut R,
    writer: &mut W,
    over: &AtomicBool,
    report: &mut S,
) -> io::Result<Vec<u8>>
    ensures asked { IfOk result (λ head.
        Consumes (R.remaining reader.old) (R.remaining reader.new) head.items) }
    ensures replied { IfOk result (λ head. IsReplied head.items (S.ready report.old)
        (W.contents writer.old) (W.contents writer.new)) }
{
    let head = read_head(rt, alloc, reader, over)?;
    let reply = reply_to(alloc, head.as_slice(), report)?;
    writer.write_all(reply.as_slice())?;
    Ok(head)
}

/// Answers one client of the system. If what came was no request in time, it is read no further.
fn answer<S: Report>(
    rt: &impl Clock,
    alloc: Global,
    stream: &TcpStream,
    over: &AtomicBool,
    report: &mut S,
) -> io::Result<()> {
    let limit = Some(Duration::from_millis(SILENCE));
    stream.set_nonblocking(false)?;
    stream.set_read_timeout(limit)?;
    stream.set_write_timeout(limit)?;
    let (mut reader, mut writer) = (stream, stream);
    let head = answer_client(rt, alloc, &mut reader, &mut writer, over, report)?;
    let asked = asked_in(head.as_slice());
    if asked != Asked::NoRequest {
        end(rt, stream, asked == Asked::NoMethod);
    }
    Ok(())
}

/// Answers the clients of a listener that does not block, one after another, until it is over.
pub(crate) fn answer_status<R: Clock, S: Report>(
    rt: &R,
    alloc: Global,
    listener: &TcpListener,
    over: &AtomicBool,
    report: &mut S,
) {
    for _ in 0..u64::MAX {
        if over.load(Ordering::SeqCst) {
            return;
        }
        match listener.accept() {
            Ok((stream, _peer)) => {
                let _ = answer(rt, alloc, &stream, over, report);
            }
            Err(_) => sleep(rt, Duration::from_millis(PAUSE)),
        }
    }
}
