//! What the head of a request says that rules ask about.

ghost use Rattle.std.specs.Prelude.{◌≡◌};
ghost use Rattle.std.specs.Char.{is_ascii_digit};
ghost use Rattle.std.specs.List.{list_all};
ghost use Rattle.guard.specs.Hosts.{ends_as_port, is_host, is_own_host, is_local, claimed};

use crate::token::rest_after;

/// What the head of a request says of where it comes from.
#[derive(Clone, Copy, Debug, PartialEq, Eq, Drop)]
pub struct Claims<'a> {
    /// Whether it changes the store, as each `POST` of the first port does: what only reads, by
    /// whatever method, makes no such claim.
    pub changes: bool,
    /// Whether it has a field `Origin`: a page of a browser sent it.
    pub has_origin: bool,
    /// The value of its only field `Host`.
    pub host: Option<&'a [u8]>,
    /// The value of its only field `Authorization`.
    pub authorization: Option<&'a [u8]>,
}

fn are_digits(text: &[u8]) -> bool
    ensures { result ≡ list_all is_ascii_digit text.now }
{
    text.iter().all(|byte| byte.is_ascii_digit())
}

/// Whether a text is empty, or a colon and digits.
fn ends_as_port(text: &[u8]) -> bool
    ensures { result ≡ ends_as_port text.now }
{
    match text.split_first() {
        None => true,
        Some((first, digits)) => *first == b':' && are_digits(digits),
    }
}

fn is_host(name: &[u8], host: &[u8]) -> bool
    ensures { result ≡ is_host name.now host.now }
{
    match rest_after(name, host) {
        Some(rest) => ends_as_port(rest),
        None => false,
    }
}

/// Whether the value of `Host` names this machine, with a port or without.
fn is_own_host(host: &[u8]) -> bool
    ensures { result ≡ is_own_host host.now }
{
    is_host(b"127.0.0.1", host) || is_host(b"localhost", host) || is_host(b"[::1]", host)
}

/// Whether the request comes from no page, and names this machine.
pub(crate) fn is_local(claims: &Claims<'_>) -> bool
    ensures { result ≡ is_local (claimed claims.now) }
{
    match claims.host {
        Some(host) => !claims.has_origin && is_own_host(host),
        None => false,
    }
}
