//! Patterns that are a choice of plain texts, as `a|b|c`.

ghost use Rattle.std.specs.Prelude.{◌≡◌, true, false, [], map, IfOk, IfNone, IfSome, OnErr};
ghost use Rattle.std.specs.List.{list_all, Contains};
ghost use Rattle.matchers.specs.Choices.{is_plain, is_plain_text, is_choice, AreFullMatches};

use std::alloc::{AllocError, Global};

/// Whether a byte is a character that stands for itself in a pattern, whatever is beside it.
fn is_plain(byte: u8) -> bool
    ensures { result ≡ is_plain byte }
{
    byte.is_ascii()
        && !matches!(
            byte,
            b'\\'
                | b'.'
                | b'+'
                | b'*'
                | b'?'
                | b'('
                | b')'
                | b'|'
                | b'['
                | b']'
                | b'{'
                | b'}'
                | b'^'
                | b'$'
        )
}

fn are_plain(bytes: &[u8]) -> bool
    ensures { result ≡ list_all is_plain bytes.now }
{
    bytes.iter().all(|byte| is_plain(*byte))
}

fn is_plain_text(text: &str) -> bool
    ensures { result ≡ is_plain_text text.now }
{
    !text.is_empty() && are_plain(text.as_bytes())
}

fn is_choice(pattern: &str) -> bool
    ensures { result ≡ is_choice pattern.now }
{
    pattern.split('|').all(|text| is_plain_text(text))
}

/// The texts of a choice of plain texts, `None` of another pattern.
pub(crate) fn choices(alloc: Global, pattern: &str) -> Result<Option<Vec<&str>>, AllocError>
    ensures told { IfOk result (λ found. IfSome found (λ texts.
        AreFullMatches pattern.now (map (λ text. text.now) texts.items))) }
    ensures filled { IfOk result (λ found. IfSome found (λ texts.
        Contains (map (λ text. text.now) texts.items) [] → ⊥)) }
    ensures some { IfOk result (λ found. IfSome found (λ _. is_choice pattern.now ≡ true)) }
    ensures none { IfOk result (λ found. IfNone found (is_choice pattern.now ≡ false)) }
    ensures memory { OnErr result (is_choice pattern.now ≡ true) }
{
    if !is_choice(pattern) {
        return Ok(None);
    }
    let texts: Vec<&str> = pattern.split('|').collect(alloc)?;
    Ok(Some(texts))
}
