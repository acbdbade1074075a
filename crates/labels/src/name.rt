//! Label names.

ghost use Rattle.std.specs.Prelude.{◌≡◌};
ghost use Rattle.std.specs.List.{list_all};
ghost use Rattle.labels.specs.Names.{starts_name, continues_name, is_name};

/// Whether a label name may begin with the byte: a letter or `_`.
pub fn starts_name(byte: u8) -> bool
    ensures { result ≡ starts_name byte }
{
    byte.is_ascii_alphabetic() || byte == b'_'
}

/// Whether a label name may go on with the byte: a letter, `_` or a digit.
pub fn continues_name(byte: u8) -> bool
    ensures { result ≡ continues_name byte }
{
    starts_name(byte) || byte.is_ascii_digit()
}

fn continue_name(bytes: &[u8]) -> bool
    ensures { result ≡ list_all continues_name bytes.now }
{
    bytes.iter().all(|byte| continues_name(*byte))
}

/// Whether the text is a label name: `[a-zA-Z_][a-zA-Z0-9_]*`.
pub fn is_name(text: &str) -> bool
    ensures { result ≡ is_name text.now }
{
    match text.as_bytes().split_first() {
        Some((first, rest)) => starts_name(*first) && continue_name(rest),
        None => false,
    }
}
