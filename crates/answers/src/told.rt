//! The text of an answer, put together of pieces.

ghost use Rattle.std.specs.Prelude.{◌≡◌, ◌++◌, ◌∷◌, IfOk, codes};
ghost use Rattle.answers.specs.Joined.{joined};
ghost use Rattle.answers.specs.Kept.{whole_of};

use crate::text_pieces::{AnswerText, Spot};
use std::alloc::{AllocError, Global};

/// A text, with pieces behind it.
pub(crate) fn with_pieces(
    alloc: Global,
    text: Vec<u8>,
    pieces: Vec<Vec<u8>>,
) -> Result<Vec<Vec<u8>>, AllocError>
    ensures { IfOk result (λ all. all.items ≡ text ∷ pieces.items) }
{
    let mut pieces = pieces;
    let mut all = Vec::with_capacity(alloc, pieces.len().saturating_add(2))?;
    all.push(text)?;
    all.append(&mut pieces)?;
    Ok(all)
}

/// The text of an answer whose last rows come behind a text.
pub(crate) fn told_once(
    alloc: Global,
    text: Vec<u8>,
    rows: Vec<Vec<u8>>,
) -> Result<AnswerText, AllocError>
    ensures { IfOk result (λ answer.
        whole_of answer ≡ text.items ++ (joined rows.items ++ codes "}")) }
{
    let pieces = with_pieces(alloc, text, rows)?;
    let again = Spot { from: 0, until: 0 };
    Ok(AnswerText::new(pieces, again))
}

/// The text of an answer whose last rows come behind pieces.
pub(crate) fn told_behind(
    pieces: Vec<Vec<u8>>,
    rows: Vec<Vec<u8>>,
) -> Result<AnswerText, AllocError>
    ensures { IfOk result (λ answer.
        whole_of answer ≡ joined pieces.items ++ (joined rows.items ++ codes "}")) }
{
    let (mut pieces, mut rows) = (pieces, rows);
    pieces.append(&mut rows)?;
    let again = Spot { from: 0, until: 0 };
    Ok(AnswerText::new(pieces, again))
}

/// The text of an answer that has rows twice, with a text before them and one between.
pub(crate) fn told_twice(
    alloc: Global,
    text: Vec<u8>,
    rows: Vec<Vec<u8>>,
    between: Vec<u8>,
) -> Result<AnswerText, AllocError>
    ensures { IfOk result (λ answer. whole_of answer ≡ text.items
        ++ (joined rows.items ++ (between.items ++ (joined rows.items ++ codes "}")))) }
{
    let mut pieces = with_pieces(alloc, text, rows)?;
    let until = pieces.len();
    pieces.push(between)?;
    let again = Spot { from: 1, until };
    Ok(AnswerText::new(pieces, again))
}
