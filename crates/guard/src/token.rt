//! The token of a guard, and how a request bears it.

ghost use Rattle.std.specs.Prelude.{◌≡◌, option_map, is_some, IfSome};
ghost use Rattle.std.specs.List.{list_all};
ghost use Rattle.guard.specs.Tokens.{is_token, is_visible, rest_after, bears};
ghost use Rattle.std.specs.Str.{bytes_eq};

/// A secret that a client has to name: one or more visible characters of ASCII.
#[derive(Drop)]
pub struct Token {
    pub(crate) bytes: Vec<u8>,
}

fn is_visible(byte: u8) -> bool
    ensures { result ≡ is_visible byte }
{
    (33 <= byte) & (byte <= 126)
}

fn are_visible(bytes: &[u8]) -> bool
    ensures { result ≡ list_all is_visible bytes.now }
{
    bytes.iter().all(|byte| is_visible(*byte))
}

impl Token {
    /// The token that these bytes spell; none where they are empty, or one is no visible character
    /// of ASCII: such bytes stand in no field of a head.
    pub fn new(bytes: Vec<u8>) -> Option<Token>
        ensures token { is_some result ≡ is_token bytes.items }
        ensures same { IfSome result (λ token. token.bytes.items ≡ bytes.items) }
    {
        if bytes.is_empty() || !are_visible(bytes.as_slice()) {
            return None;
        }
        Some(Token { bytes })
    }
}

/// Whether two texts are the same, in a time that depends on their lengths alone: wherever they
/// differ, each byte is compared.
fn is_same(one: &[u8], other: &[u8]) -> bool
    ensures { result ≡ bytes_eq one.now other.now }
{
    let mut same = true;
    let mut left = other;
    for byte in one {
        let Some((first, rest)) = left.split_first() else {
            return false;
        };
        same = same & (*byte == *first);
        left = rest;
    }
    same & left.is_empty()
}

/// What stands in a text after a name, in any case of its letters, that the text begins with.
pub(crate) fn rest_after<'t>(name: &[u8], text: &'t [u8]) -> Option<&'t [u8]>
    ensures { option_map (λ rest. rest.now) result ≡ rest_after name.now text.now }
{
    if text.len() < name.len() {
        return None;
    }
    let (front, rest) = text.split_at(name.len());
    if front.eq_ignore_ascii_case(name) {
        Some(rest)
    } else {
        None
    }
}

/// Whether the value of `Authorization` is the scheme `Bearer`, in any case, and the token.
pub(crate) fn bears(token: &Token, value: &[u8]) -> bool
    ensures { result ≡ bears token.now.bytes.items value.now }
{
    match rest_after(b"bearer ", value) {
        Some(rest) => is_same(rest, token.bytes.as_slice()),
        None => false,
    }
}
