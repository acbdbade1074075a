//! Trees that grow.

ghost use Rattle.std.specs.Prelude.{◌≡◌, ◌+◌, ◌≤◌, ◌++◌, ◌∷◌, [], Some, codes, decimal, length};
ghost use Rattle.std.specs.Prelude.{reverse, IfOk, OnOk};
ghost use Rattle.std.specs.Fmt.{signed_decimal};
ghost use Rattle.page_escape.specs.Escaping.{word_text, leaf_text};
ghost use Rattle.page_text.specs.Printing.{counted, head_text, mark_text, piece_text};
ghost use Rattle.page_text.specs.Nesting.{left_open, KeepsOpen, IsContent};

use crate::attribute::Attribute;
use crate::mark::Mark;
use crate::piece::Piece;
use crate::tag::Tag;
use crate::value::ValueText;
use std::alloc::{AllocError, Global};

/// Most pieces of a tree: it asks for no more memory than these take.
pub const MOST_PIECES: usize = 4_000_000;

/// A tree that grows at its end: some of its elements are open still. What would make it more than
/// [`MOST_PIECES`] is refused as if there were no memory for it.
#[derive(Drop)]
pub struct Tree {
    alloc: Global,
    pieces: Vec<Piece>,
    begun: Vec<Tag>,
    ghost nested: { left_open pieces.items ≡ Some (reverse begun.items) },
    ghost few: { length pieces.items + length begun.items ≤ 4000000 },
}

impl Tree {
    ghost use Rattle.page_text.specs.Growing.{printed, open_tags, ending, outer};

    /// Nothing yet.
    pub fn new(alloc: Global) -> Tree {
        Tree {
            alloc,
            pieces: Vec::new(alloc),
            begun: Vec::new(alloc),
        }
    }

    /// The allocator that it grows by.
    pub fn alloc(&self) -> Global {
        self.alloc
    }

    /// Whether there is room for so many pieces more, each element that is open being closed.
    fn room_for(&self, more: usize) -> Result<(), AllocError>
        ensures { IfOk result (λ _.
            length self.now.pieces.items + length self.now.begun.items + more ≤ 4000000) }
    {
        let pieces = self.pieces.len() as u128 + self.begun.len() as u128 + more as u128;
        if pieces <= MOST_PIECES as u128 {
            Ok(())
        } else {
            Err(AllocError)
        }
    }

    /// Adds a piece that begins no element and ends none.
    #[tactic(auto, using(crate::proofs::Nested::more, crate::proofs::Growth::growth))]
    fn push(&mut self, piece: Piece) -> Result<(), AllocError>
        requires { KeepsOpen piece }
        ensures printed { OnOk result (printed self.new ≡ printed self.old
            ++ piece_text piece) }
        ensures inside { OnOk result (open_tags self.new ≡ open_tags self.old) }
    {
        self.room_for(1)?;
        Ok(self.pieces.push(piece)?)
    }

    /// Begins an element, which is open until it is closed. Without memory for it the tree is
    /// nothing again.
    #[tactic(auto, using(crate::proofs::Nested::more, crate::proofs::Growth::growth))]
    pub fn open(&mut self, tag: Tag, attributes: Vec<Attribute>) -> Result<(), AllocError>
        ensures printed { OnOk result (printed self.new ≡ printed self.old
            ++ head_text tag attributes.items (codes ">")) }
        ensures inside { OnOk result (open_tags self.new ≡ tag ∷ open_tags self.old) }
    {
        self.room_for(2)?;
        self.begun.push(tag)?;
        match self.pieces.push(Piece::Open(tag, attributes)) {
            Ok(()) => Ok(()),
            Err(_) => {
                self.pieces.clear();
                self.begun.clear();
                Err(AllocError)
            }
        }
    }

    /// Adds an element that holds nothing.
    #[tactic(auto, unfolding(crate::specs::Printing::piece_text))]
    pub fn leaf(&mut self, tag: Tag, attributes: Vec<Attribute>) -> Result<(), AllocError>
        ensures printed { OnOk result (printed self.new ≡ printed self.old
            ++ head_text tag attributes.items (codes "/>")) }
        ensures inside { OnOk result (open_tags self.new ≡ open_tags self.old) }
    {
        self.push(Piece::Leaf(tag, attributes))
    }

    /// Ends the element that was begun last; nothing if none is open. Without memory for it the
    /// tree is nothing again.
    #[tactic(auto, using(crate::proofs::Nested::more, crate::proofs::Growth::growth))]
    pub fn close(&mut self) -> Result<(), AllocError>
        ensures printed { OnOk result (printed self.new ≡ printed self.old
            ++ ending (open_tags self.old)) }
        ensures inside { OnOk result (open_tags self.new ≡ outer (open_tags self.old)) }
    {
        let Some(tag) = self.begun.pop() else {
            return Ok(());
        };
        match self.pieces.push(Piece::Close(tag)) {
            Ok(()) => Ok(()),
            Err(_) => {
                self.pieces.clear();
                self.begun.clear();
                Err(AllocError)
            }
        }
    }

    /// Adds a constant text.
    #[tactic(auto, unfolding(crate::specs::Printing::piece_text))]
    pub fn word(&mut self, word: &'static str) -> Result<(), AllocError>
        ensures printed { OnOk result (printed self.new ≡ printed self.old
            ++ word_text word.now) }
        ensures inside { OnOk result (open_tags self.new ≡ open_tags self.old) }
    {
        self.push(Piece::Word(word))
    }

    /// Adds a text from outside, as its characters.
    #[tactic(auto, unfolding(crate::specs::Printing::piece_text))]
    pub fn text(&mut self, chars: Vec<char>) -> Result<(), AllocError>
        ensures printed { OnOk result (printed self.new ≡ printed self.old
            ++ leaf_text chars.items) }
        ensures inside { OnOk result (open_tags self.new ≡ open_tags self.old) }
    {
        self.push(Piece::Text(chars))
    }

    /// Adds a number.
    #[tactic(auto, unfolding(crate::specs::Printing::piece_text))]
    pub fn number(&mut self, n: u64) -> Result<(), AllocError>
        ensures printed { OnOk result (printed self.new ≡ printed self.old
            ++ decimal n) }
        ensures inside { OnOk result (open_tags self.new ≡ open_tags self.old) }
    {
        self.push(Piece::Number(n))
    }

    /// Adds a number with a sign.
    #[tactic(auto, unfolding(crate::specs::Printing::piece_text))]
    pub fn integer(&mut self, n: i64) -> Result<(), AllocError>
        ensures printed { OnOk result (printed self.new ≡ printed self.old
            ++ signed_decimal n) }
        ensures inside { OnOk result (open_tags self.new ≡ open_tags self.old) }
    {
        self.push(Piece::Integer(n))
    }

    /// Adds a number with commas.
    #[tactic(auto, unfolding(crate::specs::Printing::piece_text))]
    pub fn counted(&mut self, n: u64) -> Result<(), AllocError>
        ensures printed { OnOk result (printed self.new ≡ printed self.old
            ++ counted n) }
        ensures inside { OnOk result (open_tags self.new ≡ open_tags self.old) }
    {
        self.push(Piece::Counted(n))
    }

    /// Adds a number or a rectangle that the tree tells of.
    #[tactic(auto, unfolding(crate::specs::Printing::piece_text))]
    pub fn mark(&mut self, mark: Mark) -> Result<(), AllocError>
        ensures printed { OnOk result (printed self.new ≡ printed self.old
            ++ mark_text mark) }
        ensures inside { OnOk result (open_tags self.new ≡ open_tags self.old) }
    {
        self.push(Piece::Mark(mark))
    }

    /// Adds a value of a sample.
    #[tactic(auto, unfolding(crate::specs::Printing::piece_text))]
    pub fn value(&mut self, value: ValueText) -> Result<(), AllocError>
        ensures printed { OnOk result (printed self.new ≡ printed self.old
            ++ value.text.items) }
        ensures inside { OnOk result (open_tags self.new ≡ open_tags self.old) }
    {
        self.push(Piece::Value(value))
    }

    /// Ends a line.
    #[tactic(auto, unfolding(crate::specs::Printing::piece_text))]
    pub fn line(&mut self) -> Result<(), AllocError>
        ensures printed { OnOk result (printed self.new ≡ printed self.old
            ++ codes "\n") }
        ensures inside { OnOk result (open_tags self.new ≡ open_tags self.old) }
    {
        self.push(Piece::Line)
    }

    /// Ends every element that is open, and gives the pieces.
    #[tactic(auto, using(crate::proofs::Nested::more))]
    pub fn finish(self) -> Result<Vec<Piece>, AllocError>
        ensures { IfOk result (λ pieces. IsContent pieces.items) }
    {
        let Tree {
            alloc: _,
            mut pieces,
            mut begun,
        } = self;
        while let Some(tag) = begun.pop() {
            pieces.push(Piece::Close(tag))?;
        }
        Ok(pieces)
    }
}
