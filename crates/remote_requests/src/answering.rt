//! What the bytes of a connection ask.

ghost use Rattle.std.specs.Prelude.{◌≡◌, ◌<◌, length};
ghost use Rattle.remote_requests.specs.Admitting.{refusal_of};
ghost use Rattle.remote_requests.specs.Meaning.{Answers, BodyMeans, FormMeans, MeansUnder};
ghost use Rattle.remote_requests.specs.Meaning.{PathMeans, PostMeans};
ghost use Rattle.remote_requests.specs.Writing.{Told};

use crate::body::write;
use crate::head::{Head, head_in};
use crate::listings::listing;
use crate::pages::page;
use crate::reads::read;
use crate::{Asked, Came, End, Path, ReadError, Refusal};
use guard::{Denial, Rules};
use std::alloc::Global;

/// The refusal of a request that is not admitted: `H12`, or `H3` as of a path that is none.
fn refusal_of(denial: Denial) -> Refusal
    ensures { result ≡ refusal_of denial }
{
    match denial {
        Denial::ReadOnly => Refusal::NoSuchPath,
        Denial::Guarded => Refusal::Guarded,
    }
}

fn body_asked(
    alloc: Global,
    now: i64,
    path: Path,
    target: &[u8],
    body: &[u8],
) -> Result<Asked, ReadError>
    ensures { Told (BodyMeans path target.now now body.now) result }
{
    match path {
        Path::Write => write(alloc, now, body),
        Path::Read => read(alloc, body),
        Path::BuildInfo => Ok(Asked::BuildInfo),
        Path::Labels => listing(alloc, Path::Labels, target, body),
        Path::LabelsByForm => listing(alloc, Path::LabelsByForm, target, body),
        Path::Values => listing(alloc, Path::Values, target, body),
        Path::Series => listing(alloc, Path::Series, target, body),
        Path::SeriesByForm => listing(alloc, Path::SeriesByForm, target, body),
        Path::Home => Ok(Asked::Home),
        Path::Page => page(alloc, target),
    }
}

/// What a body asks of a path that takes one: `G1` or `G2` of its length, `G2` if it ends early,
/// then `G3` or `G4` of its form.
fn post_asked(
    alloc: Global,
    now: i64,
    path: Path,
    head: &Head<'_>,
    rest: &[u8],
) -> Result<Asked, ReadError>
    ensures { Told (PostMeans path head.now.target.now head.now.length head.now.form now rest.now)
        result }
{
    let length = match head.length {
        Ok(length) => length,
        Err(refusal) => return Err(ReadError::Refused(refusal)),
    };
    if rest.len() < length {
        return Err(ReadError::Refused(Refusal::BadLength));
    }
    match head.form {
        Ok(()) => body_asked(alloc, now, path, head.target, &rest[..length]),
        Err(refusal) => Err(ReadError::Refused(refusal)),
    }
}

fn path_asked(alloc: Global, now: i64, head: &Head<'_>, rest: &[u8]) -> Result<Asked, ReadError>
    ensures { Told (PathMeans head.now.path head.now.target.now head.now.length head.now.form now
        rest.now) result }
{
    match head.path {
        Ok(Path::Write) => post_asked(alloc, now, Path::Write, head, rest),
        Ok(Path::Read) => post_asked(alloc, now, Path::Read, head, rest),
        Ok(Path::BuildInfo) => Ok(Asked::BuildInfo),
        Ok(Path::Labels) => listing(alloc, Path::Labels, head.target, &[]),
        Ok(Path::LabelsByForm) => post_asked(alloc, now, Path::LabelsByForm, head, rest),
        Ok(Path::Values) => listing(alloc, Path::Values, head.target, &[]),
        Ok(Path::Series) => listing(alloc, Path::Series, head.target, &[]),
        Ok(Path::SeriesByForm) => post_asked(alloc, now, Path::SeriesByForm, head, rest),
        Ok(Path::Home) => Ok(Asked::Home),
        Ok(Path::Page) => page(alloc, head.target),
        Err(refusal) => Err(ReadError::Refused(refusal)),
    }
}

/// What bytes ask, of which there is one.
fn asked(alloc: Global, rules: &Rules, now: i64, bytes: &[u8]) -> Result<Asked, ReadError>
    requires { 0 < length bytes.now }
    ensures { Told (MeansUnder rules.now now bytes.now) result }
{
    let head = match head_in(bytes) {
        Ok(head) => head,
        Err(refusal) => return Err(ReadError::Refused(refusal)),
    };
    match rules.judge(&head.claims) {
        Ok(()) => path_asked(alloc, now, &head, &bytes[head.end..]),
        Err(denial) => Err(ReadError::Refused(refusal_of(denial))),
    }
}

/// What the bytes of a connection ask under rules, at a time of the clock in milliseconds, or the
/// first refusal that they meet, in the order of [`Refusal`].
///
/// `Closed` only if no byte came, and `Lost` only if the client fell silent or a read failed. The
/// token is asked of writes alone, and where nothing changes the store, writes alone are refused.
/// It takes memory for the text of the body, at most 16,777,216 bytes, and for what is asked, and
/// time linear in both but for the patterns of a read.
pub fn answer(alloc: Global, rules: &Rules, now: i64, came: Came<'_>) -> Result<Asked, ReadError>
    ensures { Answers rules.now now came.entry result }
{
    match came.end {
        End::Silent | End::Failed => return Err(ReadError::Lost),
        End::Whole | End::Closed => {}
    }
    if came.bytes.is_empty() {
        return Err(ReadError::Closed);
    }
    asked(alloc, rules, now, came.bytes)
}
