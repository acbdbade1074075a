//! The fields of a head, and the length that they tell.

ghost use Rattle.std.specs.Prelude.{◌≡◌, ◌≤◌, true, ℕ, List, map, length, drop, option_map, IfSome};
ghost use Rattle.std.specs.Prelude.{IsSome, All};
ghost use Rattle.httparse.specs.Grammar.{RequestHead, ReadsRequest};
ghost use Rattle.httparse.specs.Spans.{IsHeaderWithin, header_bytes};
ghost use Rattle.requests.specs.Fields.{is_named, field_values, has_field, is_decimal, length_in};
ghost use Rattle.requests.specs.Fields.{length_asked, IsHeadIn};
ghost use Rattle.requests.specs.Noting.{NamesPath, FindsPath};
ghost use Rattle.requests.specs.QueryStrings.{only};
ghost use Rattle.requests.specs.Heads.{BeginsWithHead};
ghost use Rattle.guard.specs.Hosts.{claimed};
ghost use Rattle.requests.specs.Admitting.{claims_among, AreClaimsIn};

use crate::Refusal;
use crate::target::{Path, path_named, path_text};
use crate::times::are_digits;
use guard::Claims;
use httparse::Status;
use httparse::spans::{EMPTY_HEADER_SPAN, HeaderSpan, parse_request};

/// The most bytes of a body.
const MAX_BODY: usize = 1_048_576;

fn is_named(buf: &[u8], header: HeaderSpan, name: &[u8]) -> bool
    requires { IsHeaderWithin (length buf.now) header }
    ensures { result ≡ is_named name.now (header_bytes buf.now header) }
{
    header.name.of(buf).eq_ignore_ascii_case(name)
}

/// The value of the only field of a name, in any case of its letters; none if there is no such
/// field or more than one. The spans are those of a parsed head.
pub fn only_field<'b>(buf: &'b [u8], headers: &[HeaderSpan], name: &[u8]) -> Option<&'b [u8]>
    requires { All (IsHeaderWithin (length buf.now)) headers.now }
    ensures { option_map (λ v. v.now) result
        ≡ only (field_values name.now (map (header_bytes buf.now) headers.now)) }
{
    let mut found: Option<&[u8]> = None;
    for header in headers {
        if is_named(buf, *header, name) {
            if found.is_some() {
                return None;
            }
            found = Some(header.value.of(buf));
        }
    }
    found
}

/// Whether there is a field of a name, in any case of its letters. The spans are those of a parsed
/// head.
pub fn has_field(buf: &[u8], headers: &[HeaderSpan], name: &[u8]) -> bool
    requires { All (IsHeaderWithin (length buf.now)) headers.now }
    ensures { result ≡ has_field name.now (map (header_bytes buf.now) headers.now) }
{
    for header in headers {
        if is_named(buf, *header, name) {
            return true;
        }
    }
    false
}

fn is_decimal(value: &[u8]) -> bool
    ensures { result ≡ is_decimal value.now }
{
    !value.is_empty() && are_digits(value)
}

fn length_in(value: &[u8]) -> Result<usize, Refusal>
    ensures { result ≡ length_in value.now }
{
    if !is_decimal(value) {
        return Err(Refusal::BadBody);
    }
    let Ok(text) = std::str::from_utf8(value) else {
        return Err(Refusal::BadBody);
    };
    match text.parse::<usize>() {
        Ok(length) => {
            if length > MAX_BODY {
                Err(Refusal::BodyTooLong)
            } else {
                Ok(length)
            }
        }
        Err(_) => Err(Refusal::BodyTooLong),
    }
}

/// What a head claims by its fields, and by whether it changes the store.
pub fn claims_among<'b>(buf: &'b [u8], changes: bool, headers: &[HeaderSpan]) -> Claims<'b>
    requires { All (IsHeaderWithin (length buf.now)) headers.now }
    ensures { claimed result
        ≡ claims_among changes (map (header_bytes buf.now) headers.now) }
{
    Claims {
        changes,
        has_origin: has_field(buf, headers, b"origin"),
        host: only_field(buf, headers, b"host"),
        authorization: only_field(buf, headers, b"authorization"),
    }
}

/// The claims of the head at the front of some bytes.
pub(crate) fn claims_in(buf: &[u8]) -> Option<Claims<'_>>
    ensures value { IfSome result (λ claims. AreClaimsIn buf.now (claimed claims)) }
    ensures found { BeginsWithHead buf.now → IsSome result }
{
    let mut headers = [EMPTY_HEADER_SPAN; 64];
    match parse_request(buf, &mut headers) {
        Ok(Status::Complete(spans)) => Some(claims_among(
            buf,
            spans.method.of(buf) == b"POST".as_slice(),
            &headers[..spans.headers],
        )),
        _ => None,
    }
}

/// The path that the head at the front of some bytes names, whatever its method; none if they begin
/// with no head of at most 64 fields, or it names none of the four.
#[tactic(auto, using(crate::proofs::PathTexts::parsed_path, crate::proofs::PathTexts::unparsed_path, crate::proofs::PathTexts::refused_path))]
pub fn path_in(buf: &[u8]) -> Option<Path>
    ensures value { IfSome result (NamesPath buf.now) }
    ensures found { FindsPath buf.now result }
{
    let mut headers = [EMPTY_HEADER_SPAN; 64];
    match parse_request(buf, &mut headers) {
        Ok(Status::Complete(spans)) => path_named(path_text(spans.path.of(buf))),
        _ => None,
    }
}

/// The length of the body: `H8`, then `H7`.
fn length_asked(buf: &[u8], headers: &[HeaderSpan]) -> Result<usize, Refusal>
    requires { All (IsHeaderWithin (length buf.now)) headers.now }
    ensures { result ≡ length_asked (map (header_bytes buf.now) headers.now) }
{
    let Some(value) = only_field(buf, headers, b"content-length") else {
        return Err(Refusal::BadBody);
    };
    match length_in(value) {
        Ok(length) => {
            if has_field(buf, headers, b"transfer-encoding") {
                Err(Refusal::BadBody)
            } else {
                Ok(length)
            }
        }
        Err(refusal) => Err(refusal),
    }
}

/// A request's head, in the bytes that it was read from.
#[derive(Drop)]
pub struct Head<'b> {
    pub method: &'b [u8],
    pub target: &'b [u8],
    /// The length of the body, or why none is told.
    pub length: Result<usize, Refusal>,
    /// Where the head ends.
    pub end: usize,
}

/// The head at the front of some bytes.
pub fn head_in(buf: &[u8]) -> Option<Head<'_>>
    ensures value { IfSome result (λ head. (h : RequestHead) × IsHeadIn buf.now head h) }
    ensures found { BeginsWithHead buf.now → IsSome result }
{
    let mut headers = [EMPTY_HEADER_SPAN; 64];
    match parse_request(buf, &mut headers) {
        Ok(Status::Complete(spans)) => Some(Head {
            method: spans.method.of(buf),
            target: spans.path.of(buf),
            length: length_asked(buf, &headers[..spans.headers]),
            end: spans.len,
        }),
        _ => None,
    }
}
