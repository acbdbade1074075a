//! The head of a request.

ghost use Rattle.std.specs.Prelude.{◌≡◌, ◌<◌, ◌≤◌, length, IfOk, IfErr};
ghost use Rattle.httparse.specs.Grammar.{RequestHead, print_request};
ghost use Rattle.httparse.specs.Spans.{IsRequestOf, IsRequestWithin};
ghost use Rattle.remote_requests.specs.Heads.{IsHeadIn, IsNoHead, IsParsed};

use crate::fields::{form_of, length_asked};
use crate::path::{is_write, path_asked};
use crate::{Path, Refusal};
use guard::Claims;
use httparse::Status;
use httparse::spans::{EMPTY_HEADER_SPAN, HeaderSpan, RequestSpans, parse_request};
use requests::claims_among;

/// The most bytes of a head.
const MAX_HEAD: usize = 8192;

/// What a head tells, in the bytes that it was read from.
#[derive(Drop)]
pub struct Head<'b> {
    pub claims: Claims<'b>,
    /// What is asked for, with the query string.
    pub target: &'b [u8],
    /// The path, or why none is taken.
    pub path: Result<Path, Refusal>,
    /// The length of the body, or why none is told.
    pub length: Result<usize, Refusal>,
    /// Whether the body is packed and spelled as the path takes it, or why it is not.
    pub form: Result<(), Refusal>,
    /// Where the head ends.
    pub end: usize,
}

/// How bytes stand to a head.
#[derive(Drop)]
pub enum Parsed<'b> {
    Whole(Head<'b>),
    More,
    Never,
}

/// The head that was parsed.
fn head_of<'b>(buf: &'b [u8], spans: RequestSpans, headers: &[HeaderSpan; 64]) -> Head<'b>
    requires within { IsRequestWithin buf.now headers.now spans }
    requires parsed { IsRequestOf buf.now headers.now spans }
    ensures { (h : RequestHead) × IsHeadIn buf.now result h }
{
    let fields = &headers[..spans.headers];
    let target = spans.path.of(buf);
    let path = path_asked(spans.method.of(buf), target);
    Head {
        claims: claims_among(buf, is_write(target), fields),
        target,
        path,
        length: length_asked(buf, fields),
        form: form_of(path, buf, fields),
        end: spans.len,
    }
}

fn parse(buf: &[u8]) -> Parsed<'_>
    ensures { IsParsed buf.now result }
{
    let mut headers = [EMPTY_HEADER_SPAN; 64];
    match parse_request(buf, &mut headers) {
        Ok(Status::Complete(spans)) => Parsed::Whole(head_of(buf, spans, &headers)),
        Ok(Status::Partial) => Parsed::More,
        Err(_) => Parsed::Never,
    }
}

/// The head at the front of some bytes: `H1` or `H2` where there is none.
pub fn head_in(bytes: &[u8]) -> Result<Head<'_>, Refusal>
    requires { 0 < length bytes.now }
    ensures ok { IfOk result (λ head. (h : RequestHead) × IsHeadIn bytes.now head h
        × (length (print_request h) ≤ 8192)) }
    ensures err { IfErr result (IsNoHead bytes.now) }
{
    let most = bytes.len().min(MAX_HEAD);
    match parse(&bytes[..most]) {
        Parsed::Whole(head) => Ok(head),
        Parsed::Never => Err(Refusal::BadHead),
        Parsed::More => Err(if most < MAX_HEAD {
            Refusal::BadHead
        } else {
            Refusal::HeadTooLong
        }),
    }
}
