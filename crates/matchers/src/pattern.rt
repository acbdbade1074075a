//! Patterns that accept whole values, as Rust's `regex` reads them. A choice of texts with dots is
//! asked by its alternatives, and needs no `regex`.

ghost use Rattle.std.specs.Prelude.{◌≡◌, ◌<◌, ◌↔◌, ◌⊎◌, length, string_bytes, IfOk, OnOk, IsErrOf};
ghost use Rattle.std.specs.Prelude.{is_some, true, IsTrue};
ghost use Rattle.regex.specs.Strings.{regex_pattern};
ghost use Rattle.matchers.specs.Patterns.{anchored, IsPattern, IsRead, IsRefused, IsRefusedPattern};
ghost use Rattle.matchers.specs.Patterns.{IsBuiltOf, FindsFullMatches, tree_of};
ghost use Rattle.std.specs.Prelude.{ℕ, List};
ghost use Rattle.matchers.specs.Built.{IsBuiltFor, SearchesFor};
ghost use Rattle.matchers.specs.Limits.{IsPatternWithin, IsTooLong, IsRefusedWithin};
ghost use Rattle.matchers.specs.declared.limits.Limits.TheVariants as Limits;

use crate::{Limits, MatcherError};
use regex::Regex;
use regex_syntax::{Config, parse};
use std::alloc::{AllocError, Global};
use std::marker::Model;
use std::sync::Arc;
use text_choices::{Choice, read_choice};

/// The most bytes of a pattern.
pub const MAX_PATTERN_BYTES: usize = 256;

/// The most bytes of a long choice.
const MAX_CHOICE_BYTES: usize = 65_536;

/// What was built of a pattern.
#[derive(Drop)]
enum Built {
    Regex(Arc<Regex>),
    Choice(Arc<Choice>),
}

impl Built {
    fn try_clone(&self) -> Result<Built, AllocError>
        ensures { IfOk result (λ built. (text : List ℕ) → IsBuiltFor self.now text
            → IsBuiltFor built text) }
    {
        match self {
            Built::Regex(regex) => Ok(Built::Regex(Arc::try_clone(regex)?)),
            Built::Choice(choice) => Ok(Built::Choice(Arc::try_clone(choice)?)),
        }
    }
}

/// A search for the values that match a pattern.
#[derive(Drop)]
pub enum Search<'a> {
    Regex(regex::Matcher<'a>),
    Choice(&'a Choice),
}

/// A pattern, seen as its text. What was built of it does not change, and is shared.
#[derive(Drop)]
pub struct Pattern {
    text: String,
    built: Built,
}

impl Model for Pattern {
    ghost use Rattle.std.specs.Prelude.{ℕ, List, string_bytes};

    ghost Value = { List ℕ };

    ghost use Rattle.matchers.specs.Built.{IsBuiltFor};

    ghost view = { λ p. string_bytes p.text };

    ghost invariant = { λ p. IsBuiltFor p.built (string_bytes p.text) };
}

/// The pattern between its anchors.
fn anchor(alloc: Global, text: &str) -> Result<String, AllocError>
    ensures { IfOk result (λ s. string_bytes s ≡ anchored text.now) }
{
    let mut whole = String::from_str(alloc, "^(?s:")?;
    whole.push_str(text)?;
    whole.push_str(")$")?;
    Ok(whole)
}

fn build(alloc: Global, text: &str) -> Result<Regex, MatcherError>
    ensures ok { IfOk result (λ r. IsBuiltOf r text.now) }
    ensures refused { IsErrOf result MatcherError.PatternRefused → IsRefused text.now }
    ensures not_name { IsErrOf result MatcherError.BadName → ⊥ }
    ensures not_long { IsErrOf result MatcherError.PatternTooLong → ⊥ }
{
    match Regex::new(alloc, text) {
        Ok(regex) => Ok(regex),
        Err(regex::Error::OutOfMemory) => Err(MatcherError::Memory),
        Err(_) => Err(MatcherError::PatternRefused),
    }
}

/// Whether the grammar of `regex` reads the text alone. `false` may also be want of memory.
fn is_read(alloc: Global, text: &str) -> bool
    ensures { IsTrue result → is_some (tree_of text.now) ≡ true }
{
    parse(alloc, text, &Config::default()).is_ok()
}

/// Refuses a text that `regex` does not read alone. Only such a text is built.
fn check_alone(alloc: Global, text: &str) -> Result<(), MatcherError>
    ensures read { OnOk result (is_some (tree_of text.now) ≡ true) }
    ensures refused { IsErrOf result MatcherError.PatternRefused → IsRefused text.now }
    ensures not_name { IsErrOf result MatcherError.BadName → ⊥ }
    ensures not_long { IsErrOf result MatcherError.PatternTooLong → ⊥ }
{
    if is_read(alloc, text) {
        return Ok(());
    }
    let _alone = build(alloc, text)?;
    Ok(())
}

/// The pattern between its anchors, once it was read alone.
fn build_anchored(alloc: Global, text: &str) -> Result<Regex, MatcherError>
    ensures finds { IfOk result (λ r. FindsFullMatches (regex_pattern r) text.now) }
    ensures read { OnOk result (IsRead text.now) }
    ensures refused { IsErrOf result MatcherError.PatternRefused
        → IsRefused text.now ⊎ IsRefused (anchored text.now) }
    ensures not_name { IsErrOf result MatcherError.BadName → ⊥ }
    ensures not_long { IsErrOf result MatcherError.PatternTooLong → ⊥ }
{
    check_alone(alloc, text)?;
    let whole = anchor(alloc, text)?;
    let regex = build(alloc, whole.as_str())?;
    Ok(regex)
}

impl Pattern {
    /// The pattern of a text: `M3` above 256 bytes, then `M2` if `regex` does not read the text, or
    /// does not build `^(?s:text)$`.
    fn new(alloc: Global, text: String) -> Result<Pattern, MatcherError>
        ensures ok { IfOk result (λ p. p ≡ string_bytes text) }
        ensures read { OnOk result (IsPattern (string_bytes text)) }
        ensures not_name { IsErrOf result MatcherError.BadName → ⊥ }
        ensures too_long { IsErrOf result MatcherError.PatternTooLong
            ↔ (256 < length (string_bytes text)) }
        ensures refused { IsErrOf result MatcherError.PatternRefused
            → IsRefusedPattern (string_bytes text) }
    {
        if text.len() > MAX_PATTERN_BYTES {
            return Err(MatcherError::PatternTooLong);
        }
        let regex = build_anchored(alloc, text.as_str())?;
        let built = Built::Regex(Arc::new(alloc, regex)?);
        Ok(Pattern { text, built })
    }

    /// The same, and the pattern of a choice of at most 65,536 bytes; `M3` above these.
    fn long(alloc: Global, text: String) -> Result<Pattern, MatcherError>
        ensures ok { IfOk result (λ p. p ≡ string_bytes text) }
        ensures read { OnOk result (IsPatternWithin Limits.Long (string_bytes text)) }
        ensures not_name { IsErrOf result MatcherError.BadName → ⊥ }
        ensures too_long { IsErrOf result MatcherError.PatternTooLong
            → IsTooLong Limits.Long (string_bytes text) }
        ensures refused { IsErrOf result MatcherError.PatternRefused
            → IsRefusedWithin Limits.Long (string_bytes text) }
    {
        if text.len() > MAX_CHOICE_BYTES {
            return Err(MatcherError::PatternTooLong);
        }
        let Some(choice) = read_choice(alloc, text.as_str())? else {
            return Pattern::new(alloc, text);
        };
        let built = Built::Choice(Arc::new(alloc, choice)?);
        Ok(Pattern { text, built })
    }

    /// The pattern of a text within these limits.
    pub fn within(alloc: Global, limits: Limits, text: String) -> Result<Pattern, MatcherError>
        ensures ok { IfOk result (λ p. p ≡ string_bytes text) }
        ensures read { OnOk result (IsPatternWithin limits (string_bytes text)) }
        ensures not_name { IsErrOf result MatcherError.BadName → ⊥ }
        ensures too_long { IsErrOf result MatcherError.PatternTooLong
            → IsTooLong limits (string_bytes text) }
        ensures short { limits ≡ Limits.Short → 256 < length (string_bytes text)
            → IsErrOf result MatcherError.PatternTooLong }
        ensures refused { IsErrOf result MatcherError.PatternRefused
            → IsRefusedWithin limits (string_bytes text) }
    {
        match limits {
            Limits::Short => Pattern::new(alloc, text),
            Limits::Long => Pattern::long(alloc, text),
        }
    }

    /// An equal one, which shares what was built.
    pub fn try_clone(&self) -> Result<Pattern, AllocError>
        ensures { IfOk result (λ p. p ≡ self.now) }
    {
        let text = self.text.clone()?;
        let built = self.built.try_clone()?;
        Ok(Pattern { text, built })
    }

    /// The text that it was made of.
    pub fn text(&self) -> &str
        ensures { result.now ≡ self.now }
    {
        self.text.as_str()
    }

    /// A search for the whole values that it matches.
    pub fn search(&self, alloc: Global) -> Result<Search<'_>, AllocError>
        ensures { IfOk result (λ search. SearchesFor search self.now) }
    {
        match &self.built {
            Built::Regex(regex) => Ok(Search::Regex(regex.matcher(alloc)?)),
            Built::Choice(choice) => Ok(Search::Choice(choice)),
        }
    }
}
