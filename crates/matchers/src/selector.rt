//! The text of selectors.

ghost use Rattle.std.specs.Prelude.{◌≡◌, true, ◌<◌, ◌≤◌, [], length, encode_utf8, IfOk, IfErr};
ghost use Rattle.std.specs.Prelude.{OnOk};
ghost use Rattle.labels.specs.Names.{is_name};
ghost use Rattle.matchers.specs.Grammar.{IsSelector, HasOneReading};
ghost use Rattle.matchers.specs.Scanner.{nothing_read, closed, taken};
ghost use Rattle.matchers.specs.Limits.{IsMadeWithin, AreMadeWithin, IsFaultWithin, HasFaultWithin};
ghost use Rattle.matchers.specs.Limits.{IsAcceptedWithin, IsRefusalWithin, IsUnread};
ghost use Rattle.matchers.specs.Selectors.{AreNamed, AreMade, OrMemory, RefusedBy};

use crate::scanner::{Mark, State, end_mark, step};
use crate::{Limits, Matcher, MatcherError, Op, SelectorError};
use std::alloc::{AllocError, Global};
use std::marker::Model;
use std::mem;

/// What a matcher is made of.
#[derive(Drop)]
struct Part {
    name: String,
    op: Op,
    text: String,
}

impl Model for Part {
    ghost use Rattle.std.specs.Prelude.{string_bytes};
    ghost use Rattle.matchers.specs.Views.{MatcherView};

    ghost Value = { MatcherView };

    ghost view = { λ p.
        record { name = string_bytes p.name; op = p.op; text = string_bytes p.text } };
}

impl Part {
    fn into_matcher(self, alloc: Global, limits: Limits) -> Result<Matcher, SelectorError>
        requires { is_name self.name ≡ true }
        ensures ok { IfOk result (λ m. m ≡ self) }
        ensures made { OnOk result (IsMadeWithin limits self) }
        ensures err { IfErr result (OrMemory (IsFaultWithin limits self)) }
    {
        match Matcher::within(alloc, limits, self.name, self.op, self.text) {
            Ok(matcher) => Ok(matcher),
            Err(MatcherError::PatternTooLong) => Err(SelectorError::PatternTooLong),
            Err(MatcherError::PatternRefused) => Err(SelectorError::PatternRefused),
            Err(MatcherError::Memory) => Err(SelectorError::Memory),
            Err(MatcherError::BadName) => unreachable!(),
        }
    }
}

/// What was read so far: whole parts, and the name and the text of the next.
#[derive(Drop)]
struct Reading {
    parts: Vec<Part>,
    name: String,
    text: String,
}

impl Model for Reading {
    ghost use Rattle.std.specs.Prelude.{string_bytes};
    ghost use Rattle.matchers.specs.Scanner.{Progress};

    ghost Value = { Progress };

    ghost view = { λ r.
        record { done = r.parts.items; name = string_bytes r.name; text = string_bytes r.text } };
}

impl Reading {
    fn new(alloc: Global) -> Reading
        ensures { result ≡ nothing_read }
    {
        Reading {
            parts: Vec::new(alloc),
            name: String::new(alloc),
            text: String::new(alloc),
        }
    }

    fn close(&mut self, alloc: Global, op: Op) -> Result<(), AllocError>
        ensures { OnOk result (self.new ≡ closed op self.old) }
    {
        let name = mem::replace(&mut self.name, String::new(alloc));
        let text = mem::replace(&mut self.text, String::new(alloc));
        self.parts.push(Part { name, op, text })?;
        Ok(())
    }

    fn take(&mut self, alloc: Global, mark: Mark, c: char) -> Result<(), AllocError>
        ensures { OnOk result (self.new ≡ taken mark (encode_utf8 c) self.old) }
    {
        match mark {
            Mark::Skip => {}
            Mark::Name => self.name.push(c)?,
            Mark::Text => self.text.push(c)?,
            Mark::LineFeed => self.text.push('\n')?,
            Mark::Metric => {
                self.name.push_str("__name__")?;
                self.close(alloc, Op::Equal)?;
            }
            Mark::Matcher(op) => self.close(alloc, op)?,
        }
        Ok(())
    }

    fn into_parts(self) -> Vec<Part>
        ensures { result.items ≡ self.done }
    {
        self.parts
    }
}

fn read(alloc: Global, text: &str) -> Result<Vec<Part>, SelectorError>
    ensures ok { IfOk result (λ parts. IsSelector text.now parts.items) }
    ensures err { IfErr result (OrMemory (IsUnread text.now)) }
{
    let mut state = State::Start;
    let mut reading = Reading::new(alloc);
    let mut at = 0usize;
    let mut chars = text.chars();
    while let Some(c) = chars.next() {
        let Some((next, mark)) = step(state, c) else {
            return Err(SelectorError::Syntax { at });
        };
        reading.take(alloc, mark, c)?;
        state = next;
        at = text.len() - chars.as_str().len();
    }
    let Some(mark) = end_mark(state) else {
        return Err(SelectorError::Syntax { at: text.len() });
    };
    // What ends a text is no character; its mark asks for none.
    reading.take(alloc, mark, '\0')?;
    Ok(reading.into_parts())
}

fn matchers(alloc: Global, limits: Limits, parts: Vec<Part>) -> Result<Vec<Matcher>, SelectorError>
    requires { AreNamed parts.items }
    ensures ok { IfOk result (λ v. v.items ≡ parts.items) }
    ensures made { OnOk result (AreMadeWithin limits parts.items) }
    ensures err { IfErr result (OrMemory (HasFaultWithin limits parts.items)) }
{
    let mut made = Vec::with_capacity(alloc, parts.len())?;
    for part in parts {
        made.push(part.into_matcher(alloc, limits)?)?;
    }
    Ok(made)
}

/// The language of selectors, as `up{job=~"a|b"}`.
pub struct Selector;

impl Selector {
    /// The matchers of a text.
    ///
    /// Refusals, the first that holds: `M4` where the text is none of the language, with the
    /// length in bytes of its longest prefix that also begins one; `M6` where it has no matcher;
    /// `M5` where it has more than 16; then, by the first matcher at fault, `M3` or
    /// `M2` as of [`Matcher::new`]. The time is linear in the length of the text, beside what
    /// `regex` takes for at most 16 patterns.
    pub fn parse(alloc: Global, text: &str) -> Result<Vec<Matcher>, SelectorError>
        ensures ok { IfOk result (λ v. IsSelector text.now v.items) }
        ensures some { IfOk result (λ v. 0 < length v.items) }
        ensures few { IfOk result (λ v. length v.items ≤ 16) }
        ensures made { IfOk result (λ v. AreMade v.items) }
        ensures err { IfErr result (λ e. RefusedBy text.now e) }
    {
        Selector::parse_within(alloc, Limits::Short, text)
    }

    /// The same within these limits.
    pub fn parse_within(
        alloc: Global,
        limits: Limits,
        text: &str,
    ) -> Result<Vec<Matcher>, SelectorError>
        ensures ok { IfOk result (λ v. IsAcceptedWithin limits text.now v.items) }
        ensures err { IfErr result (OrMemory (IsRefusalWithin limits text.now)) }
    {
        let parts = read(alloc, text)?;
        if parts.is_empty() {
            return Err(SelectorError::Empty);
        }
        if parts.len() > limits.most_matchers() {
            return Err(SelectorError::TooMany);
        }
        matchers(alloc, limits, parts)
    }

    /// No text is read in two ways.
    pub fn one_reading()
        ensures { HasOneReading }
    {}
}
