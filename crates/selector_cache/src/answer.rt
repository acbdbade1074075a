//! A text and what it was read as.

ghost use Rattle.std.specs.Prelude.{◌≡◌, string_bytes, IfOk, IfErr};
ghost use Rattle.matchers.specs.Selectors.{IsAccepted, IsTextRefusal, RefusedBy};

use matchers::{Matcher, SelectorError};
use std::alloc::Global;
use std::marker::Model;

/// What a text was read as.
#[derive(Drop)]
enum Answer {
    Accepted(Vec<Matcher>),
    Refused(SelectorError),
}

/// A text and what it was read as, seen as the text.
#[derive(Drop)]
pub struct Kept {
    text: String,
    answer: Answer,
}

impl Model for Kept {
    ghost use Rattle.std.specs.Prelude.{ℕ, List, string_bytes};
    ghost use Rattle.selector_cache.specs.Answers.{IsAnswerOf};

    ghost Value = { List ℕ };

    ghost view = { λ k. string_bytes k.text };

    ghost invariant = { λ k. IsAnswerOf (string_bytes k.text) k.answer };
}

impl Kept {
    /// A text with its matchers.
    pub fn accepted(text: String, matchers: Vec<Matcher>) -> Kept
        requires { IsAccepted (string_bytes text) matchers.items }
        ensures { result ≡ string_bytes text }
    {
        Kept {
            text,
            answer: Answer::Accepted(matchers),
        }
    }

    /// A text that is refused.
    pub fn refused(text: String, error: SelectorError) -> Kept
        requires { IsTextRefusal (string_bytes text) error }
        ensures { result ≡ string_bytes text }
    {
        Kept {
            text,
            answer: Answer::Refused(error),
        }
    }

    /// The text.
    pub fn text(&self) -> &str
        ensures { result.now ≡ self.now }
    {
        self.text.as_str()
    }

    /// Whether the text is refused.
    pub fn is_refused(&self) -> bool {
        matches!(self.answer, Answer::Refused(_))
    }

    /// What the text was read as.
    pub fn answer(&self, alloc: Global) -> Result<Vec<Matcher>, SelectorError>
        ensures ok { IfOk result (λ v. IsAccepted self.now v.items) }
        ensures err { IfErr result (λ e. RefusedBy self.now e) }
    {
        match &self.answer {
            Answer::Accepted(matchers) => Ok(Vec::from_clones(alloc, matchers.as_slice())?),
            Answer::Refused(error) => Err(*error),
        }
    }
}
