//! The text of an answer, kept in pieces, so that rows that it has twice are in memory once.

ghost use Rattle.std.specs.Prelude.{◌≡◌, ◌≤◌, length, slice_range};

/// From which piece of a text to which some of its pieces go.
#[derive(Clone, Copy)]
pub struct Spot {
    pub(crate) from: usize,
    pub(crate) until: usize,
}

/// The text of an answer: its first pieces, some of them once more, and a closing brace.
///
/// If only one part has rows, the answer has them twice: as the rows of that part and as those of
/// all parts. The pieces of their text are then among the first pieces, and they come once more.
#[derive(Drop)]
pub struct AnswerText {
    pub(crate) pieces: Vec<Vec<u8>>,
    pub(crate) again: Spot,
    ghost rises: { again.from ≤ again.until },
    ghost within: { again.until ≤ length pieces.items },
}

impl AnswerText {
    /// The text of these first pieces, of which some come once more.
    pub(crate) fn new(pieces: Vec<Vec<u8>>, again: Spot) -> AnswerText
        requires rises { again.from ≤ again.until }
        requires within { again.until ≤ length pieces.items }
        ensures pieces { result.pieces.items ≡ pieces.items }
        ensures again { result.again ≡ again }
    {
        AnswerText { pieces, again }
    }

    /// The first pieces.
    pub fn first(&self) -> &[Vec<u8>]
        ensures { result.now ≡ self.now.pieces.items }
    {
        self.pieces.as_slice()
    }

    /// Those of the first pieces that come once more.
    pub fn again(&self) -> &[Vec<u8>]
        ensures { result.now
            ≡ slice_range self.now.pieces.items self.now.again.from self.now.again.until }
    {
        let pieces = self.pieces.as_slice();
        &pieces[self.again.from..self.again.until]
    }

    /// The first pieces, for the room that they are in.
    pub fn into_pieces(self) -> Vec<Vec<u8>> {
        self.pieces
    }
}
