//! The paths of the port.

ghost use Rattle.std.specs.Prelude.{◌≡◌};
ghost use Rattle.remote_requests.specs.Paths.{is_write, path_named, method_of, path_asked};
ghost use Rattle.remote_requests.specs.Paths.{by_form, form_taken, names_values};

use crate::Refusal;
use requests::path_text;

/// What is asked for.
#[derive(Clone, Copy, Debug, PartialEq, Eq, Drop)]
pub enum Path {
    /// `/api/v1/write`, by `POST`.
    Write,
    /// `/api/v1/read`, by `POST`.
    Read,
    /// `/api/v1/status/buildinfo`, by `GET`.
    BuildInfo,
    /// `/api/v1/labels`, by `GET`.
    Labels,
    /// `/api/v1/labels`, by `POST` of a form.
    LabelsByForm,
    /// `/api/v1/label/NAME/values`, by `GET`.
    Values,
    /// `/api/v1/series`, by `GET`.
    Series,
    /// `/api/v1/series`, by `POST` of a form.
    SeriesByForm,
    /// `/`, by `GET`.
    Home,
    /// `/page`, by `GET`.
    Page,
}

/// Whether a target is that of writes.
pub fn is_write(target: &[u8]) -> bool
    ensures { result ≡ is_write target.now }
{
    path_text(target) == b"/api/v1/write".as_slice()
}

/// Whether a path is that of the values of a label.
pub fn names_values(text: &[u8]) -> bool
    ensures { result ≡ names_values text.now }
{
    text.len() >= 21
        && &text[..14] == b"/api/v1/label/".as_slice()
        && &text[text.len() - 7..] == b"/values".as_slice()
}

fn path_named(text: &[u8]) -> Option<Path>
    ensures { result ≡ path_named text.now }
{
    if text == b"/api/v1/write".as_slice() {
        Some(Path::Write)
    } else if text == b"/api/v1/read".as_slice() {
        Some(Path::Read)
    } else if text == b"/api/v1/status/buildinfo".as_slice() {
        Some(Path::BuildInfo)
    } else if text == b"/api/v1/labels".as_slice() {
        Some(Path::Labels)
    } else if text == b"/api/v1/series".as_slice() {
        Some(Path::Series)
    } else if names_values(text) {
        Some(Path::Values)
    } else if text == b"/".as_slice() {
        Some(Path::Home)
    } else if text == b"/page".as_slice() {
        Some(Path::Page)
    } else {
        None
    }
}

fn method_of(path: Path) -> &'static [u8]
    ensures { result.now ≡ method_of path }
{
    match path {
        Path::Write | Path::Read | Path::LabelsByForm | Path::SeriesByForm => b"POST",
        Path::BuildInfo | Path::Labels | Path::Values | Path::Series | Path::Home | Path::Page =>
            b"GET",
    }
}

/// The path where a form is posted, if it takes one.
fn by_form(path: Path) -> Option<Path>
    ensures { result ≡ by_form path }
{
    match path {
        Path::Labels => Some(Path::LabelsByForm),
        Path::Series => Some(Path::SeriesByForm),
        Path::Write
        | Path::Read
        | Path::BuildInfo
        | Path::LabelsByForm
        | Path::Values
        | Path::SeriesByForm
        | Path::Home
        | Path::Page => None,
    }
}

/// The path of a form, if it takes this method.
fn form_taken(method: &[u8], path: Option<Path>) -> Result<Path, Refusal>
    ensures { result ≡ form_taken method.now path }
{
    match path {
        Some(path) => {
            if method == method_of(path) {
                Ok(path)
            } else {
                Err(Refusal::Method)
            }
        }
        None => Err(Refusal::Method),
    }
}

/// The path that a method and a target ask for: `H3`, then `H4`.
pub fn path_asked(method: &[u8], target: &[u8]) -> Result<Path, Refusal>
    ensures { result ≡ path_asked method.now target.now }
{
    let Some(path) = path_named(path_text(target)) else {
        return Err(Refusal::NoSuchPath);
    };
    if method == method_of(path) {
        return Ok(path);
    }
    form_taken(method, by_form(path))
}
