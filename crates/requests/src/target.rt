//! The target of a request: a path, and the query string after it.

ghost use Rattle.std.specs.Prelude.{◌≡◌, IfErr};
ghost use Rattle.requests.specs.Ending.{IsOfBytes};
ghost use Rattle.requests.specs.Targets.{path_text, query_text, has_query, path_named, method_of};
ghost use Rattle.requests.specs.Targets.{takes_query, path_asked};

use crate::Refusal;

/// What is asked for.
#[derive(Clone, Copy, Debug, PartialEq, Eq, Drop)]
pub enum Path {
    /// `/select`, by `GET`.
    Select,
    /// `/write`, by `POST`.
    Write,
    /// `/delete`, by `POST`.
    Delete,
    /// `/cut`, by `POST`.
    Cut,
}

fn mark_in(target: &[u8]) -> Option<usize>
    ensures { result ≡ position (λ byte. byte == 63) target.now }
{
    target.iter().position(|byte| *byte == b'?')
}

ghost use Rattle.std.specs.Prelude.{◌==◌, position};

/// The target up to its first `?`.
pub fn path_text(target: &[u8]) -> &[u8]
    ensures { result.now ≡ path_text target.now }
{
    match mark_in(target) {
        Some(at) => &target[..at],
        None => target,
    }
}

/// What stands after the first `?` of a target, nothing where there is none.
pub fn query_text(target: &[u8]) -> &[u8]
    ensures { result.now ≡ query_text target.now }
{
    match mark_in(target) {
        Some(at) => &target[at + 1..],
        None => &[],
    }
}

pub(crate) fn path_named(text: &[u8]) -> Option<Path>
    ensures { result ≡ path_named text.now }
{
    if text == b"/select".as_slice() {
        Some(Path::Select)
    } else if text == b"/write".as_slice() {
        Some(Path::Write)
    } else if text == b"/delete".as_slice() {
        Some(Path::Delete)
    } else if text == b"/cut".as_slice() {
        Some(Path::Cut)
    } else {
        None
    }
}

fn method_of(path: Path) -> &'static [u8]
    ensures { result.now ≡ method_of path }
{
    match path {
        Path::Select => b"GET",
        Path::Write | Path::Delete | Path::Cut => b"POST",
    }
}

/// Whether a path has a query string.
pub fn takes_query(path: Path) -> bool
    ensures { result ≡ takes_query path }
{
    match path {
        Path::Select => true,
        Path::Write | Path::Delete | Path::Cut => false,
    }
}

/// The path that a method and a target ask for: `H3`, then `H4`, then `H5` for a `?` that no path
/// of `POST` has.
pub fn path_asked(method: &[u8], target: &[u8]) -> Result<Path, Refusal>
    ensures value { result ≡ path_asked method.now target.now }
    ensures refusal { IfErr result IsOfBytes }
{
    let Some(path) = path_named(path_text(target)) else {
        return Err(Refusal::NoSuchPath);
    };
    if method != method_of(path) {
        return Err(Refusal::Method);
    }
    if !takes_query(path) && mark_in(target).is_some() {
        return Err(Refusal::BadQuery);
    }
    Ok(path)
}
