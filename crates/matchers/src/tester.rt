//! One matcher for many values.

ghost use Rattle.std.specs.Prelude.{◌≡◌, true, false, None, Some};
ghost use Rattle.matchers.specs.Built.{SearchesFor};
ghost use Rattle.matchers.specs.Satisfies.{accepts_text, takes_pattern};

use crate::pattern::Search;
use crate::{Matcher, Op};
use std::marker::Model;

/// A matcher that is ready to test many values, seen as the matcher.
#[derive(Drop)]
pub struct Tester<'a> {
    matcher: &'a Matcher,
    search: Option<Search<'a>>,
}

impl<'a> Model for Tester<'a> {
    ghost use Rattle.matchers.specs.Views.{MatcherView};

    ghost Value = { MatcherView };

    ghost use Rattle.matchers.specs.Tests.{IsTestedBy};

    ghost view = { λ t. t.matcher.now };

    ghost invariant = { λ t. IsTestedBy t.matcher.now t.search };
}

impl<'a> Tester<'a> {
    pub(crate) fn of_text(matcher: &'a Matcher) -> Tester<'a>
        requires { takes_pattern matcher.now.op ≡ false }
        ensures { result ≡ matcher.entry.now }
    {
        Tester {
            matcher,
            search: None,
        }
    }

    pub(crate) fn of_pattern(matcher: &'a Matcher, search: Search<'a>) -> Tester<'a>
        requires pattern { takes_pattern matcher.now.op ≡ true }
        requires finds { SearchesFor search matcher.now.text }
        ensures { result ≡ matcher.entry.now }
    {
        Tester {
            matcher,
            search: Some(search),
        }
    }

    /// Whether the matcher accepts a value.
    pub fn accepts(&mut self, value: &str) -> bool
        ensures accepted { result ≡ accepts_text self.old value.now }
        ensures same { self.new ≡ self.old }
    {
        let agrees = match &mut self.search {
            Some(Search::Regex(search)) => search.is_match(value),
            Some(Search::Choice(choice)) => choice.accepts(value),
            None => value == self.matcher.text(),
        };
        match self.matcher.op() {
            Op::Equal | Op::Like => agrees,
            Op::NotEqual | Op::NotLike => !agrees,
        }
    }
}
