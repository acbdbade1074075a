//! Matchers.

ghost use Rattle.std.specs.Prelude.{◌≡◌, ◌↔◌, ◌<◌, ◌≤◌, true, false, [], map, length, IfNone};
ghost use Rattle.std.specs.Prelude.{IfSome, IfOk, OnOk, OnErr, IsErrOf, string_bytes};
ghost use Rattle.std.specs.List.{Contains};
ghost use Rattle.labels.specs.Names.{is_name};
ghost use Rattle.matchers.specs.Limits.{IsPatternWithin, IsTooLong, IsRefusedWithin};
ghost use Rattle.matchers.specs.declared.limits.Limits.TheVariants as Limits;
ghost use Rattle.matchers.specs.Patterns.{IsPattern, IsRefusedPattern};
ghost use Rattle.matchers.specs.Satisfies.{accepts_text, takes_pattern};
ghost use Rattle.matchers.specs.Tests.{op_of, text_of};
ghost use Rattle.matchers.specs.Choices.{is_choice, AreFullMatches};

use crate::choices::choices;
use crate::pattern::Pattern;
use crate::{Limits, MatcherError, Tester};
use labels::is_name;
use std::alloc::{AllocError, Global};
use std::marker::Model;

/// How a matcher compares a value with its text.
#[derive(Clone, Copy, Debug, PartialEq, Eq)]
pub enum Op {
    /// `=`: the value is the text.
    Equal,
    /// `!=`: the value is another text.
    NotEqual,
    /// `=~`: the text is a pattern, and the whole value matches it.
    Like,
    /// `!~`: the text is a pattern, and the whole value does not match it.
    NotLike,
}

#[derive(Drop)]
enum Test {
    Equal(String),
    NotEqual(String),
    Like(Pattern),
    NotLike(Pattern),
}

impl Test {
    fn new(alloc: Global, limits: Limits, op: Op, text: String) -> Result<Test, MatcherError>
        ensures op { IfOk result (λ t. op_of t ≡ op) }
        ensures text { IfOk result (λ t. text_of t ≡ string_bytes text) }
        ensures read { OnOk result
            (takes_pattern op ≡ true → IsPatternWithin limits (string_bytes text)) }
        ensures not_name { IsErrOf result MatcherError.BadName → ⊥ }
        ensures too_long { IsErrOf result MatcherError.PatternTooLong
            → (takes_pattern op ≡ true) × IsTooLong limits (string_bytes text) }
        ensures short { limits ≡ Limits.Short → takes_pattern op ≡ true
            → 256 < length (string_bytes text) → IsErrOf result MatcherError.PatternTooLong }
        ensures refused { IsErrOf result MatcherError.PatternRefused
            → (takes_pattern op ≡ true) × IsRefusedWithin limits (string_bytes text) }
        ensures memory { IsErrOf result MatcherError.Memory → takes_pattern op ≡ true }
    {
        match op {
            Op::Equal => Ok(Test::Equal(text)),
            Op::NotEqual => Ok(Test::NotEqual(text)),
            Op::Like => Ok(Test::Like(Pattern::within(alloc, limits, text)?)),
            Op::NotLike => Ok(Test::NotLike(Pattern::within(alloc, limits, text)?)),
        }
    }

    fn pattern(&self) -> Option<&Pattern>
        ensures none { IfNone result (takes_pattern (op_of self.now) ≡ false) }
        ensures some { IfSome result (λ _. takes_pattern (op_of self.now) ≡ true) }
        ensures text { IfSome result (λ p. p.now ≡ text_of self.now) }
    {
        match self {
            Test::Equal(_) | Test::NotEqual(_) => None,
            Test::Like(pattern) | Test::NotLike(pattern) => Some(pattern),
        }
    }

    fn op(&self) -> Op
        ensures { result ≡ op_of self.now }
    {
        match self {
            Test::Equal(_) => Op::Equal,
            Test::NotEqual(_) => Op::NotEqual,
            Test::Like(_) => Op::Like,
            Test::NotLike(_) => Op::NotLike,
        }
    }

    fn try_clone(&self) -> Result<Test, AllocError>
        ensures op { IfOk result (λ t. op_of t ≡ op_of self.now) }
        ensures text { IfOk result (λ t. text_of t ≡ text_of self.now) }
    {
        match self {
            Test::Equal(text) => Ok(Test::Equal(text.clone()?)),
            Test::NotEqual(text) => Ok(Test::NotEqual(text.clone()?)),
            Test::Like(pattern) => Ok(Test::Like(pattern.try_clone()?)),
            Test::NotLike(pattern) => Ok(Test::NotLike(pattern.try_clone()?)),
        }
    }

    fn text(&self) -> &str
        ensures { result.now ≡ text_of self.now }
    {
        match self {
            Test::Equal(text) | Test::NotEqual(text) => text.as_str(),
            Test::Like(pattern) | Test::NotLike(pattern) => pattern.text(),
        }
    }
}

/// A test of the value of one label.
#[derive(Drop)]
pub struct Matcher {
    name: String,
    test: Test,
}

impl Model for Matcher {
    ghost use Rattle.std.specs.Prelude.{string_bytes};
    ghost use Rattle.matchers.specs.Views.{MatcherView};

    ghost Value = { MatcherView };

    ghost use Rattle.matchers.specs.Tests.{op_of, text_of};

    ghost view = { λ m.
        record { name = string_bytes m.name; op = op_of m.test; text = text_of m.test } };
}

/// An equal one, which shares what `regex` built of its pattern.
impl Clone for Matcher {
    ghost is_clone = { λ x y. y ≡ x };

    fn clone(&self) -> Result<Matcher, AllocError> {
        let name = self.name.clone()?;
        let test = self.test.try_clone()?;
        Ok(Matcher { name, test })
    }
}

impl Matcher {
    /// The matcher of these.
    ///
    /// `M1` where the name is not of the form `[a-zA-Z_][a-zA-Z0-9_]*`. For `=~` and `!~` then
    /// `M3` where the pattern has more than 256 bytes, and `M2` where `regex` refuses the pattern
    /// or `^(?s:pattern)$` for another cause than memory. Only `regex` says which pattern is too
    /// big for it, so no clause tells when a pattern is not refused.
    pub fn new(alloc: Global, name: String, op: Op, text: String) -> Result<Matcher, MatcherError>
        ensures ok { IfOk result (λ m.
            m ≡ record { name = string_bytes name; op = op; text = string_bytes text }) }
        ensures named { OnOk result (is_name (string_bytes name) ≡ true) }
        ensures read { OnOk result (takes_pattern op ≡ true → IsPattern (string_bytes text)) }
        ensures bad_name { IsErrOf result MatcherError.BadName
            ↔ (is_name (string_bytes name) ≡ false) }
        ensures too_long { IsErrOf result MatcherError.PatternTooLong
            ↔ ((is_name (string_bytes name) ≡ true) × (takes_pattern op ≡ true)
            × (256 < length (string_bytes text))) }
        ensures refused { IsErrOf result MatcherError.PatternRefused
            → (takes_pattern op ≡ true) × IsRefusedPattern (string_bytes text) }
        ensures memory { IsErrOf result MatcherError.Memory → takes_pattern op ≡ true }
    {
        Matcher::within(alloc, Limits::Short, name, op, text)
    }

    /// The same within these limits. In the longer ones a choice of plain characters, dots and
    /// marks behind a backslash, perhaps in one pair of parentheses, may have 65,536 bytes, and
    /// `regex` is not asked. There memory may fail before it is known that a pattern is too long.
    pub fn within(
        alloc: Global,
        limits: Limits,
        name: String,
        op: Op,
        text: String,
    ) -> Result<Matcher, MatcherError>
        ensures ok { IfOk result (λ m.
            m ≡ record { name = string_bytes name; op = op; text = string_bytes text }) }
        ensures named { OnOk result (is_name (string_bytes name) ≡ true) }
        ensures read { OnOk result
            (takes_pattern op ≡ true → IsPatternWithin limits (string_bytes text)) }
        ensures bad_name { IsErrOf result MatcherError.BadName
            ↔ (is_name (string_bytes name) ≡ false) }
        ensures too_long { IsErrOf result MatcherError.PatternTooLong
            → (is_name (string_bytes name) ≡ true) × (takes_pattern op ≡ true)
            × IsTooLong limits (string_bytes text) }
        ensures short { limits ≡ Limits.Short → is_name (string_bytes name) ≡ true
            → takes_pattern op ≡ true → 256 < length (string_bytes text)
            → IsErrOf result MatcherError.PatternTooLong }
        ensures refused { IsErrOf result MatcherError.PatternRefused
            → (takes_pattern op ≡ true) × IsRefusedWithin limits (string_bytes text) }
        ensures memory { IsErrOf result MatcherError.Memory → takes_pattern op ≡ true }
    {
        if !is_name(name.as_str()) {
            return Err(MatcherError::BadName);
        }
        let test = Test::new(alloc, limits, op, text)?;
        Ok(Matcher { name, test })
    }

    /// The name of the label.
    pub fn name(&self) -> &str
        ensures { result.now ≡ self.now.name }
    {
        self.name.as_str()
    }

    /// How it compares.
    pub fn op(&self) -> Op
        ensures { result ≡ self.now.op }
    {
        self.test.op()
    }

    /// What it compares with: a text, or a pattern.
    pub fn text(&self) -> &str
        ensures { result.now ≡ self.now.text }
    {
        self.test.text()
    }

    /// Whether it accepts a value; the empty text stands for an absent label. For many values
    /// take a [`Tester`]. Memory is taken only for a pattern.
    pub fn accepts(&self, alloc: Global, value: &str) -> Result<bool, AllocError>
        ensures meaning { IfOk result (λ yes. yes ≡ accepts_text self.now value.now) }
        ensures memory { OnErr result (takes_pattern self.now.op ≡ true) }
    {
        let mut tester = self.tester(alloc)?;
        Ok(tester.accepts(value))
    }

    /// The texts of a pattern that is a choice of plain texts, as `a|b|c`: no text is empty, and
    /// each of its bytes stands for itself. The values that match the pattern are these texts.
    /// `None` of any other pattern, and where it compares with a text.
    pub fn choices(&self, alloc: Global) -> Result<Option<Vec<&str>>, AllocError>
        ensures told { IfOk result (λ found. IfSome found (λ texts.
            AreFullMatches self.now.text (map (λ text. text.now) texts.items))) }
        ensures filled { IfOk result (λ found. IfSome found (λ texts.
            Contains (map (λ text. text.now) texts.items) [] → ⊥)) }
        ensures some { IfOk result (λ found. IfSome found (λ _.
            (takes_pattern self.now.op ≡ true) × (is_choice self.now.text ≡ true))) }
        ensures none { IfOk result (λ found. IfNone found (takes_pattern self.now.op ≡ true
            → is_choice self.now.text ≡ false)) }
        ensures memory { OnErr result (takes_pattern self.now.op ≡ true) }
    {
        match self.test.pattern() {
            None => Ok(None),
            Some(pattern) => choices(alloc, pattern.text()),
        }
    }

    /// The same test for many values: a pattern's search is made once. Memory is taken only for a
    /// pattern.
    pub fn tester(&self, alloc: Global) -> Result<Tester<'_>, AllocError>
        ensures same { IfOk result (λ t. t ≡ self.now) }
        ensures memory { OnErr result (takes_pattern self.now.op ≡ true) }
    {
        match self.test.pattern() {
            None => Ok(Tester::of_text(self)),
            Some(pattern) => Ok(Tester::of_pattern(self, pattern.search(alloc)?)),
        }
    }
}
