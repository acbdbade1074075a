//! Where a request ends, by its own head.

ghost use Rattle.std.specs.Prelude.{◌≡◌, ℕ, List, map, length, option_map, IfSome, IsSome, All};
ghost use Rattle.std.specs.List.{list_all};
ghost use Rattle.std.specs.Char.{is_ascii_digit};
ghost use Rattle.httparse.specs.Grammar.{RequestHead};
ghost use Rattle.httparse.specs.Spans.{IsHeaderWithin, header_bytes};
ghost use Rattle.waiting_room.specs.Fields.{is_named, field_values, has_field, is_decimal};
ghost use Rattle.waiting_room.specs.Fields.{length_in, only, length_asked, IsHeadIn};
ghost use Rattle.waiting_room.specs.Framing.{BeginsWithHead, Looks};

use httparse::Status;
use httparse::spans::{EMPTY_HEADER_SPAN, HeaderSpan, parse_request};

/// Why a head tells no length.
#[derive(Clone, Copy, Debug, PartialEq, Eq, Drop)]
pub enum LengthFault {
    /// Not one length, in digits.
    Bad,
    /// A length above what a body may have.
    TooLong,
}

/// How bytes stand to a head.
pub(crate) enum Look {
    Whole,
    More,
    Never,
}

pub(crate) fn look_at(buf: &[u8]) -> Look
    ensures { Looks buf.now result }
{
    let mut headers = [EMPTY_HEADER_SPAN; 64];
    match parse_request(buf, &mut headers) {
        Ok(Status::Complete(_)) => Look::Whole,
        Ok(Status::Partial) => Look::More,
        Err(_) => Look::Never,
    }
}

fn is_named(buf: &[u8], header: HeaderSpan, name: &[u8]) -> bool
    requires { IsHeaderWithin (length buf.now) header }
    ensures { result ≡ is_named name.now (header_bytes buf.now header) }
{
    header.name.of(buf).eq_ignore_ascii_case(name)
}

fn only_field<'b>(buf: &'b [u8], headers: &[HeaderSpan], name: &[u8]) -> Option<&'b [u8]>
    requires { All (IsHeaderWithin (length buf.now)) headers.now }
    ensures { option_map (λ v. v.now) result
        ≡ only (field_values name.now (map (header_bytes buf.now) headers.now)) }
{
    let mut found: Option<&[u8]> = None;
    for header in headers {
        if is_named(buf, *header, name) {
            if found.is_some() {
                return None;
            }
            found = Some(header.value.of(buf));
        }
    }
    found
}

fn has_field(buf: &[u8], headers: &[HeaderSpan], name: &[u8]) -> bool
    requires { All (IsHeaderWithin (length buf.now)) headers.now }
    ensures { result ≡ has_field name.now (map (header_bytes buf.now) headers.now) }
{
    for header in headers {
        if is_named(buf, *header, name) {
            return true;
        }
    }
    false
}

fn are_digits(text: &[u8]) -> bool
    ensures { result ≡ list_all is_ascii_digit text.now }
{
    text.iter().all(|byte| byte.is_ascii_digit())
}

fn is_decimal(value: &[u8]) -> bool
    ensures { result ≡ is_decimal value.now }
{
    !value.is_empty() && are_digits(value)
}

fn length_in(value: &[u8], most: u32) -> Result<u32, LengthFault>
    ensures { result ≡ length_in most value.now }
{
    if !is_decimal(value) {
        return Err(LengthFault::Bad);
    }
    let Ok(text) = std::str::from_utf8(value) else {
        return Err(LengthFault::Bad);
    };
    match text.parse::<u32>() {
        Ok(length) => {
            if length > most {
                Err(LengthFault::TooLong)
            } else {
                Ok(length)
            }
        }
        Err(_) => Err(LengthFault::TooLong),
    }
}

/// The length of the body, 0 if the head tells none.
fn length_asked(buf: &[u8], headers: &[HeaderSpan], most: u32) -> Result<u32, LengthFault>
    requires { All (IsHeaderWithin (length buf.now)) headers.now }
    ensures { result ≡ length_asked most (map (header_bytes buf.now) headers.now) }
{
    if has_field(buf, headers, b"transfer-encoding") {
        return Err(LengthFault::Bad);
    }
    if !has_field(buf, headers, b"content-length") {
        return Ok(0);
    }
    match only_field(buf, headers, b"content-length") {
        Some(value) => length_in(value, most),
        None => Err(LengthFault::Bad),
    }
}

/// A request's head, in the bytes that it was read from.
#[derive(Drop)]
pub struct Frame {
    /// The length of the body in bytes, or why none is told.
    pub length: Result<u32, LengthFault>,
    /// Where the head ends.
    pub end: usize,
}

/// The head at the front of some bytes, whose body has at most so many: none if no head of at most
/// 64 fields stands there.
pub fn frame_in(buf: &[u8], most: u32) -> Option<Frame>
    ensures value { IfSome result (λ head. (h : RequestHead) × IsHeadIn most buf.now head h) }
    ensures found { BeginsWithHead buf.now → IsSome result }
{
    let mut headers = [EMPTY_HEADER_SPAN; 64];
    match parse_request(buf, &mut headers) {
        Ok(Status::Complete(spans)) => Some(Frame {
            length: length_asked(buf, &headers[..spans.headers], most),
            end: spans.len,
        }),
        _ => None,
    }
}
