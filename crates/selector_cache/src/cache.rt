//! The texts that were read last.

ghost use Rattle.std.specs.Prelude.{◌≡◌, ◌<◌, ◌≤◌, length, IfOk, IfErr, IfSome};
ghost use Rattle.matchers.specs.Grammar.{IsSelector};
ghost use Rattle.matchers.specs.Selectors.{AreMade, IsAccepted, RefusedBy};

use crate::answer::Kept;
use matchers::{Matcher, Selector, SelectorError};
use std::alloc::Global;

/// The most patterns of all texts that are kept.
pub const MAX_KEPT_PATTERNS: usize = 8;

/// The most bytes of a text that is kept.
pub const MAX_KEPT_BYTES: usize = 1024;

/// The texts of selectors that were asked for last, the last one at the end, and what they were
/// read as.
///
/// Kept are texts with patterns and at most [`MAX_KEPT_BYTES`] bytes: as many of the last ones as
/// have together at most [`MAX_KEPT_PATTERNS`] patterns. A pattern is counted for each `~` of a
/// text, and counts [`MAX_KEPT_PATTERNS`] times if the text may repeat something by its count, as
/// `a{100}`. What `regex` builds of such a pattern takes at most 25 MB, and of another some 10 KB
/// as a rule. A refused text counts once, since nothing is built of it.
#[derive(Drop)]
pub struct KeptSelectors {
    texts: Vec<Kept>,
}

/// How often a byte stands in a text.
fn count_of(byte: u8, text: &str) -> usize {
    let mut count = 0usize;
    for other in text.as_bytes() {
        if *other == byte {
            count = count.saturating_add(1);
        }
    }
    count
}

/// What a text counts among those that are kept: its patterns, each for as many as are kept at
/// most if the text has a `{` beside that of the selector.
fn weight_of(text: &str) -> usize {
    let patterns = count_of(b'~', text);
    if count_of(b'{', text) > 1 {
        return patterns.saturating_mul(MAX_KEPT_PATTERNS);
    }
    patterns
}

/// What a text that was read counts among those that are kept.
fn weight_of_kept(kept: &Kept) -> usize {
    if kept.is_refused() {
        1
    } else {
        weight_of(kept.text())
    }
}

/// Whether a text is worth to be kept, and may be if it is refused or has few patterns.
fn is_worth(text: &str) -> bool {
    text.len() <= MAX_KEPT_BYTES && count_of(b'~', text) > 0
}

/// Reads a text anew, and gives what is to be kept of it.
fn read(alloc: Global, text: &str) -> Result<Kept, SelectorError>
    ensures ok { IfOk result (λ kept. kept ≡ text.now) }
    ensures err { IfErr result (λ e. RefusedBy text.now e) }
{
    let copy = String::from_str(alloc, text)?;
    match Selector::parse(alloc, text) {
        Ok(matchers) => Ok(Kept::accepted(copy, matchers)),
        Err(SelectorError::PatternTooLong) => {
            Ok(Kept::refused(copy, SelectorError::PatternTooLong))
        }
        Err(SelectorError::PatternRefused) => {
            Ok(Kept::refused(copy, SelectorError::PatternRefused))
        }
        Err(error) => Err(error),
    }
}

impl KeptSelectors {
    /// None.
    pub fn new(alloc: Global) -> KeptSelectors {
        KeptSelectors {
            texts: Vec::new(alloc),
        }
    }

    /// Takes out what is kept of a text.
    fn take(&mut self, text: &str) -> Option<Kept>
        ensures { IfSome result (λ kept. kept ≡ text.now) }
    {
        for i in 0..self.texts.len() {
            if self.texts[i].text() == text {
                return Some(self.texts.remove(i));
            }
        }
        None
    }

    /// What the texts count together.
    fn weight(&self) -> usize {
        let mut weight = 0usize;
        for kept in &self.texts {
            weight = weight.saturating_add(weight_of_kept(kept));
        }
        weight
    }

    /// Lets go of the texts that were asked for longest ago, until there is room for a text, or
    /// none is left.
    fn make_room(&mut self, text: &str) {
        let more = weight_of(text);
        for _ in 0..MAX_KEPT_PATTERNS {
            if self.texts.is_empty() || self.weight().saturating_add(more) <= MAX_KEPT_PATTERNS {
                return;
            }
            let _oldest = self.texts.remove(0);
        }
    }

    /// What a text was read as, from what is kept or anew.
    fn kept_of(&mut self, alloc: Global, text: &str) -> Result<Kept, SelectorError>
        ensures ok { IfOk result (λ kept. kept ≡ text.now) }
        ensures err { IfErr result (λ e. RefusedBy text.now e) }
    {
        if let Some(kept) = self.take(text) {
            return Ok(kept);
        }
        self.make_room(text);
        read(alloc, text)
    }

    fn parse_kept(&mut self, alloc: Global, text: &str) -> Result<Vec<Matcher>, SelectorError>
        ensures ok { IfOk result (λ v. IsAccepted text.now v.items) }
        ensures err { IfErr result (λ e. RefusedBy text.now e) }
    {
        let kept = self.kept_of(alloc, text)?;
        let answer = kept.answer(alloc);
        if weight_of_kept(&kept) <= MAX_KEPT_PATTERNS {
            self.texts.push(kept)?;
        }
        answer
    }

    /// The matchers of a text, or its refusal, as [`Selector::parse`] answers. Of a text that is
    /// kept nothing is built; it takes time in the length of the texts.
    pub fn parse(&mut self, alloc: Global, text: &str) -> Result<Vec<Matcher>, SelectorError>
        ensures ok { IfOk result (λ v. IsSelector text.now v.items) }
        ensures some { IfOk result (λ v. 0 < length v.items) }
        ensures few { IfOk result (λ v. length v.items ≤ 16) }
        ensures made { IfOk result (λ v. AreMade v.items) }
        ensures err { IfErr result (λ e. RefusedBy text.now e) }
    {
        if is_worth(text) {
            self.parse_kept(alloc, text)
        } else {
            Selector::parse(alloc, text)
        }
    }
}
