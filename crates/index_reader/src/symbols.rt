//! The symbols of an index: the texts that its series and its pairs name by their numbers.

ghost use Rattle.std.specs.Prelude.{◌≡◌, ◌<◌, ◌^◌, length, slice_get, Some, IfOk, IfSome};
ghost use Rattle.std.specs.Prelude.{MatchOption, true, false, map, get_or, []};
ghost use Rattle.std.specs.Str.{is_utf8};
ghost use Rattle.index_reader.specs.Layout.{is_less, ascending};
ghost use Rattle.index_reader.specs.Lookups.{symbol_of};
ghost use Rattle.index_reader.specs.Outcome.{Gives};
ghost use Rattle.index_reader.specs.Roles.{role_of};
ghost use Rattle.index_reader.specs.Seen.{bytes_of, strings_of};
ghost use Rattle.index_reader.specs.Reading.Symbols.{symbol_at, symbols_from, symbols_of};

use crate::error::IndexError;
use labels::is_name;
use std::alloc::{AllocError, Global};
use std::cmp::Ordering;
use wire::Cut;

/// The symbols of an index: fewer than 2^32 texts, each below the next by its bytes.
#[derive(Drop)]
pub struct Symbols {
    pub texts: Vec<String>,
    ghost few: { length texts.items < 2 ^ 32 },
    ghost order: { ascending (strings_of texts.items) ≡ true },
}

/// What a symbol can be in a label.
#[derive(Clone, Copy, Debug)]
pub struct Role {
    pub is_name: bool,
    pub is_value: bool,
}

/// The symbols of an index, in place in the file, and what each can be in a label.
#[derive(Drop)]
pub struct SymbolTable<'a> {
    pub texts: Vec<&'a str>,
    pub roles: Vec<Role>,
    ghost few: { length texts.items < 2 ^ 32 },
    ghost order: { ascending (bytes_of texts.items) ≡ true },
    ghost judged: { roles.items ≡ map role_of (bytes_of texts.items) },
}

fn utf8_text(bytes: &[u8]) -> Option<&str>
    ensures { MatchOption result (is_utf8 bytes.now ≡ false)
        (λ s. (is_utf8 bytes.now ≡ true) × (s.now ≡ bytes.now)) }
{
    str::from_utf8(bytes).ok()
}

/// Whether both are the same texts.
pub fn are_same_texts(xs: &[String], ys: &[String]) -> bool
    ensures { result ≡ true → strings_of xs.now ≡ strings_of ys.now }
{
    xs == ys
}

#[tactic(auto, unfolding(crate::specs::Reading::Symbols::symbol_at))]
fn read_symbol<'a>(cut: &mut Cut<'a>) -> Result<&'a str, IndexError>
    ensures { Gives (λ x. (x.now, cut.new)) result (symbol_at cut.old) }
{
    let len = cut.uvarint().or(Err(IndexError::Symbols))?;
    let text = cut.bytes(len as usize).or(Err(IndexError::Symbols))?;
    utf8_text(text).ok_or(IndexError::Symbols)
}

fn symbols_from<'a>(
    alloc: Global,
    count: u32,
    cut: &mut Cut<'a>,
) -> Result<Vec<&'a str>, IndexError>
    ensures exact { Gives (λ v. (bytes_of v.items, cut.new)) result (symbols_from count cut.old) }
    ensures counted { IfOk result (λ v. length v.items ≡ count) }
{
    let mut symbols = Vec::new(alloc);
    for _ in 0..count {
        symbols.push(read_symbol(cut)?)?;
    }
    Ok(symbols)
}

fn is_less(a: &[u8], b: &[u8]) -> bool
    ensures { result ≡ is_less a.now b.now }
{
    matches!(a.cmp(b), Ordering::Less)
}

fn is_rising(symbols: &[&str]) -> bool
    ensures { result ≡ ascending (bytes_of symbols.now) }
{
    symbols.is_sorted_by(|a, b| is_less(a.as_bytes(), b.as_bytes()))
}

fn role_of(text: &str) -> Role
    ensures { result ≡ role_of text.now }
{
    Role {
        is_name: is_name(text),
        is_value: !text.is_empty(),
    }
}

fn roles_of(alloc: Global, texts: &[&str]) -> Result<Vec<Role>, AllocError>
    ensures { IfOk result (λ v. v.items ≡ map role_of (bytes_of texts.now)) }
{
    let mut roles = Vec::with_capacity(alloc, texts.len())?;
    for text in texts {
        roles.push(role_of(text))?;
    }
    Ok(roles)
}

/// What the symbol at a place can be in a label.
pub fn role_at(symbols: &SymbolTable<'_>, i: usize) -> Role
    requires { i < length symbols.now.texts.items }
    ensures { result ≡ role_of (get_or (bytes_of symbols.now.texts.items) i []) }
{
    symbols.roles[i]
}

/// The symbols of the content of a symbol table.
#[tactic(auto, unfolding(crate::specs::Reading::Symbols::symbols_of))]
pub fn symbols_of(alloc: Global, content: &[u8]) -> Result<SymbolTable<'_>, IndexError>
    ensures { Gives (λ t. bytes_of t.texts.items) result (symbols_of content.now) }
{
    let mut cut = Cut::new(content);
    let count = cut.be32().or(Err(IndexError::Symbols))?;
    let texts = symbols_from(alloc, count, &mut cut)?;
    let whole = cut.is_empty() & is_rising(&texts);
    if !whole {
        return Err(IndexError::Symbols);
    }
    let roles = roles_of(alloc, &texts)?;
    Ok(SymbolTable { texts, roles })
}

fn text_at<'a>(symbols: &[&'a str], i: usize) -> &'a str
    requires { i < length symbols.now }
    ensures { slice_get (bytes_of symbols.now) i ≡ Some result.now }
{
    symbols[i]
}

fn copy_texts(alloc: Global, symbols: &[&str]) -> Result<Vec<String>, AllocError>
    ensures texts { IfOk result (λ v. strings_of v.items ≡ bytes_of symbols.now) }
    ensures counted { IfOk result (λ v. length v.items ≡ length symbols.now) }
{
    let mut copy = Vec::with_capacity(alloc, symbols.len())?;
    for at in 0..symbols.len() {
        let symbol = text_at(symbols, at);
        let text = String::from_str(alloc, symbol)?;
        copy.push(text)?;
    }
    Ok(copy)
}

/// The symbols as texts of their own.
pub fn copy_symbols(alloc: Global, symbols: &SymbolTable<'_>) -> Result<Symbols, AllocError>
    ensures { IfOk result (λ v. strings_of v.texts.items ≡ bytes_of symbols.now.texts.items) }
{
    let texts = copy_texts(alloc, &symbols.texts)?;
    Ok(Symbols { texts })
}

fn bytes_at(symbols: &Symbols, i: usize) -> &[u8]
    requires { i < length symbols.now.texts.items }
    ensures { slice_get (strings_of symbols.now.texts.items) i ≡ Some result.now }
{
    symbols.texts[i].as_bytes()
}

/// The symbol at a place.
pub fn text_in(symbols: &Symbols, i: usize) -> &str
    requires { i < length symbols.now.texts.items }
    ensures { slice_get (strings_of symbols.now.texts.items) i ≡ Some result.now }
{
    symbols.texts[i].as_str()
}

/// The symbol of a text.
pub fn find_symbol(symbols: &Symbols, text: &[u8]) -> Option<usize>
    ensures exact { result ≡ symbol_of (strings_of symbols.now.texts.items) text.now }
    ensures within { IfSome result (λ i. i < length symbols.now.texts.items) }
{
    symbols
        .texts
        .binary_search_by(|symbol| symbol.as_bytes().cmp(text))
        .ok()
}

/// The same as [`find_symbol`], where the symbol at a place is looked at first.
pub fn find_symbol_near(symbols: &Symbols, guess: usize, text: &[u8]) -> Option<usize>
    ensures exact { result ≡ symbol_of (strings_of symbols.now.texts.items) text.now }
    ensures within { IfSome result (λ i. i < length symbols.now.texts.items) }
{
    if guess < symbols.texts.len()
        && matches!(bytes_at(symbols, guess).cmp(text), Ordering::Equal)
    {
        return Some(guess);
    }
    find_symbol(symbols, text)
}
