//! The symbols of an index.

ghost use Rattle.std.specs.Prelude.{◌≡◌, ◌<◌, length, slice_get, Some, MatchOption, true, false};
ghost use Rattle.std.specs.Str.{is_utf8};
ghost use Rattle.block_walk.specs.IndexFile.Outcome.{Gives};
ghost use Rattle.block_walk.specs.IndexFile.Layout.{is_less, ascending};
ghost use Rattle.block_walk.specs.IndexFile.Reading.{symbol_at, symbols_from, symbols_of};
ghost use Rattle.block_walk.specs.IndexFile.Seen.{texts};

use crate::error::WalkError;
use std::alloc::Global;
use std::cmp::Ordering;
use wire::Cut;

fn as_text(bytes: &[u8]) -> Option<&str>
    ensures { MatchOption result (is_utf8 bytes.now ≡ false)
        (λ s. (is_utf8 bytes.now ≡ true) × (s.now ≡ bytes.now)) }
{
    str::from_utf8(bytes).ok()
}

#[tactic(auto, unfolding(crate::specs::IndexFile::Reading::symbol_at))]
fn symbol_of(bytes: &[u8]) -> Result<(&str, &[u8]), WalkError>
    ensures { Gives (λ x. (x.0.now, x.1.now)) result (symbol_at bytes.now) }
{
    let mut cut = Cut::new(bytes);
    let len = cut.uvarint().or(Err(WalkError::Symbols))?;
    let text = cut.bytes(len as usize).or(Err(WalkError::Symbols))?;
    let Some(text) = as_text(text) else {
        return Err(WalkError::Symbols);
    };
    Ok((text, cut.rest()))
}

fn symbols_from(alloc: Global, count: u32, bytes: &[u8]) -> Result<(Vec<&str>, &[u8]), WalkError>
    ensures { Gives (λ x. (texts x.0.items, x.1.now)) result (symbols_from count bytes.now) }
{
    let mut symbols = Vec::new(alloc);
    let mut rest = bytes;
    for _ in 0..count {
        let (symbol, after) = symbol_of(rest)?;
        symbols.push(symbol)?;
        rest = after;
    }
    Ok((symbols, rest))
}

fn is_less(a: &[u8], b: &[u8]) -> bool
    ensures { result ≡ is_less a.now b.now }
{
    matches!(a.cmp(b), Ordering::Less)
}

fn is_ascending(symbols: &[&str]) -> bool
    ensures { result ≡ ascending (texts symbols.now) }
{
    symbols.is_sorted_by(|a, b| is_less(a.as_bytes(), b.as_bytes()))
}

/// The symbols that the content of a symbol table counts and lists, in place.
///
/// `I7` where it does not list exactly as many as it counts, or they are no texts or do not ascend
/// strictly.
#[tactic(auto, unfolding(crate::specs::IndexFile::Reading::symbols_of))]
pub(crate) fn symbols_of(alloc: Global, content: &[u8]) -> Result<Vec<&str>, WalkError>
    ensures { Gives (λ v. texts v.items) result (symbols_of content.now) }
{
    let mut cut = Cut::new(content);
    let count = cut.be32().or(Err(WalkError::Symbols))?;
    let (symbols, rest) = symbols_from(alloc, count, cut.rest())?;
    let whole = rest.is_empty() & is_ascending(&symbols);
    if !whole {
        return Err(WalkError::Symbols);
    }
    Ok(symbols)
}
