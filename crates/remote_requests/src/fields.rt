//! What the fields of a head say of the body.

ghost use Rattle.std.specs.Prelude.{◌≡◌, length, map, All};
ghost use Rattle.httparse.specs.Spans.{IsHeaderWithin, header_bytes};
ghost use Rattle.remote_requests.specs.Fields.{length_told, length_asked, is_packed, is_form_of};
ghost use Rattle.remote_requests.specs.Fields.{same_text, version_field, is_version, fits_version};
ghost use Rattle.remote_requests.specs.Fields.{has_form, form_asked, form_of, is_form_type};
ghost use Rattle.remote_requests.specs.Fields.{is_packed_for};
ghost use Rattle.requests.specs.Fields.{is_decimal};
ghost use Rattle.std.specs.Prelude.{◌==◌, position};
ghost use Rattle.std.specs.List.{before_first, list_all};
ghost use Rattle.std.specs.Char.{is_ascii_digit};

use crate::{Path, Refusal};
use httparse::spans::HeaderSpan;
use requests::{has_field, only_field};

/// The most bytes of a body.
const MAX_BODY: usize = 16_777_216;

fn are_digits(text: &[u8]) -> bool
    ensures { result ≡ list_all is_ascii_digit text.now }
{
    text.iter().all(|byte| byte.is_ascii_digit())
}

pub fn is_decimal(value: &[u8]) -> bool
    ensures { result ≡ is_decimal value.now }
{
    !value.is_empty() && are_digits(value)
}

/// The length that a value writes: `G1` if it writes none, then `G2`.
fn length_in(value: &[u8]) -> Result<usize, Refusal>
    ensures { result ≡ length_told (Some value.now) }
{
    if !is_decimal(value) {
        return Err(Refusal::NoLength);
    }
    let Ok(text) = std::str::from_utf8(value) else {
        return Err(Refusal::NoLength);
    };
    match text.parse::<usize>() {
        Ok(length) => {
            if length > MAX_BODY {
                Err(Refusal::BadLength)
            } else {
                Ok(length)
            }
        }
        Err(_) => Err(Refusal::BadLength),
    }
}

/// The length of the body: `G1`, then `G2`.
pub fn length_asked(buf: &[u8], headers: &[HeaderSpan]) -> Result<usize, Refusal>
    requires { All (IsHeaderWithin (length buf.now)) headers.now }
    ensures { result ≡ length_asked (map (header_bytes buf.now) headers.now) }
{
    if has_field(buf, headers, b"transfer-encoding") {
        return Err(Refusal::NoLength);
    }
    match only_field(buf, headers, b"content-length") {
        Some(value) => length_in(value),
        None => Err(Refusal::NoLength),
    }
}

fn same_text(a: &[u8], b: &[u8]) -> bool
    ensures { result ≡ same_text a.now b.now }
{
    a.eq_ignore_ascii_case(b)
}

fn is_packed(buf: &[u8], headers: &[HeaderSpan]) -> bool
    requires { All (IsHeaderWithin (length buf.now)) headers.now }
    ensures { result ≡ is_packed (map (header_bytes buf.now) headers.now) }
{
    match only_field(buf, headers, b"content-encoding") {
        Some(value) => same_text(value, b"snappy"),
        None => false,
    }
}

/// Whether the body is compressed as its path takes it: a form is not.
fn is_packed_for(path: Path, buf: &[u8], headers: &[HeaderSpan]) -> bool
    requires { All (IsHeaderWithin (length buf.now)) headers.now }
    ensures { result ≡ is_packed_for path (map (header_bytes buf.now) headers.now) }
{
    match path {
        Path::LabelsByForm | Path::SeriesByForm => !has_field(buf, headers, b"content-encoding"),
        Path::Write
        | Path::Read
        | Path::BuildInfo
        | Path::Labels
        | Path::Values
        | Path::Series
        | Path::Home
        | Path::Page => is_packed(buf, headers),
    }
}

fn semicolon_in(value: &[u8]) -> Option<usize>
    ensures { result ≡ position (λ byte. byte == 59) value.now }
{
    value.iter().position(|byte| *byte == b';')
}

/// The value up to its first `;`.
fn before_parameters(value: &[u8]) -> &[u8]
    ensures { result.now ≡ before_first (λ byte. byte == 59) value.now }
{
    match semicolon_in(value) {
        Some(at) => &value[..at],
        None => value,
    }
}

fn is_form_type(value: &[u8]) -> bool
    ensures { result ≡ is_form_type value.now }
{
    same_text(
        before_parameters(value),
        b"application/x-www-form-urlencoded",
    )
}

fn is_form_of(path: Path, value: &[u8]) -> bool
    ensures { result ≡ is_form_of path (Some value.now) }
{
    match path {
        Path::Write => {
            same_text(value, b"application/x-protobuf")
                || same_text(
                    value,
                    b"application/x-protobuf;proto=prometheus.WriteRequest",
                )
                || same_text(
                    value,
                    b"application/x-protobuf; proto=prometheus.WriteRequest",
                )
        }
        Path::Read => same_text(value, b"application/x-protobuf"),
        Path::LabelsByForm | Path::SeriesByForm => is_form_type(value),
        Path::BuildInfo | Path::Labels | Path::Values | Path::Series | Path::Home | Path::Page =>
            false,
    }
}

fn version_field(path: Path) -> &'static [u8]
    ensures { result.now ≡ version_field path }
{
    match path {
        Path::Write => b"x-prometheus-remote-write-version",
        Path::Read => b"x-prometheus-remote-read-version",
        Path::BuildInfo
        | Path::Labels
        | Path::LabelsByForm
        | Path::Values
        | Path::Series
        | Path::SeriesByForm
        | Path::Home
        | Path::Page => b"",
    }
}

/// Whether a version begins with `0.1.`.
fn is_version(value: &[u8]) -> bool
    ensures { result ≡ is_version (Some value.now) }
{
    let front = &value[..value.len().min(4)];
    front == b"0.1.".as_slice()
}

fn fits_version(buf: &[u8], headers: &[HeaderSpan], name: &[u8]) -> bool
    requires { All (IsHeaderWithin (length buf.now)) headers.now }
    ensures { result ≡ fits_version name.now (map (header_bytes buf.now) headers.now) }
{
    if !has_field(buf, headers, name) {
        return true;
    }
    match only_field(buf, headers, name) {
        Some(value) => is_version(value),
        None => false,
    }
}

fn has_form(path: Path, buf: &[u8], headers: &[HeaderSpan]) -> bool
    requires { All (IsHeaderWithin (length buf.now)) headers.now }
    ensures { result ≡ has_form path (map (header_bytes buf.now) headers.now) }
{
    match only_field(buf, headers, b"content-type") {
        Some(value) => is_form_of(path, value) && fits_version(buf, headers, version_field(path)),
        None => false,
    }
}

fn form_asked(path: Path, buf: &[u8], headers: &[HeaderSpan]) -> Result<(), Refusal>
    requires { All (IsHeaderWithin (length buf.now)) headers.now }
    ensures { result ≡ form_asked path (map (header_bytes buf.now) headers.now) }
{
    if !is_packed_for(path, buf, headers) {
        return Err(Refusal::Encoding);
    }
    if !has_form(path, buf, headers) {
        return Err(Refusal::Form);
    }
    Ok(())
}

/// Whether the body is packed and spelled as the path takes it, if there is a path: `G3`, then
/// `G4`.
pub fn form_of(
    path: Result<Path, Refusal>,
    buf: &[u8],
    headers: &[HeaderSpan],
) -> Result<(), Refusal>
    requires { All (IsHeaderWithin (length buf.now)) headers.now }
    ensures { result ≡ form_of path (map (header_bytes buf.now) headers.now) }
{
    match path {
        Ok(path) => form_asked(path, buf, headers),
        Err(_) => Ok(()),
    }
}
