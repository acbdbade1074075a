//! A pen, by which the sections of a page are written.

ghost use Rattle.std.specs.Prelude.{◌≡◌, ◌++◌, false, IfOk};
ghost use Rattle.page_text.specs.Growing.{printed};
ghost use Rattle.page_text.specs.Nesting.{IsContent};
ghost use Rattle.page.specs.Cells.{number_text, counted_text, bounds_text, IsValueCell};

use crate::cells;
use labels::SeriesRef;
use page_text::{Attribute, Key, Mark, Piece, Subject, Tag, Tree, Value};
use std::alloc::{AllocError, Global};
use std::mem;

/// A tree that grows. It notes if memory ran out, and only `finish` tells it: what is written after
/// that is lost.
///
/// Its calls say what a cell with a number of the reply prints, and that the pieces become a tree.
/// Nothing above needs what else a section prints, and a proof that carries no print is short.
#[derive(Drop)]
pub(crate) struct Pen {
    tree: Tree,
    /// The attributes of the element that begins next.
    attributes: Vec<Attribute>,
    failed: bool,
}

impl Pen {
    pub(crate) fn new(alloc: Global) -> Pen {
        Pen {
            tree: Tree::new(alloc),
            attributes: Vec::new(alloc),
            failed: false,
        }
    }

    pub(crate) fn alloc(&self) -> Global {
        self.tree.alloc()
    }

    /// Notes that memory ran out.
    pub(crate) fn fail(&mut self) {
        self.failed = true;
    }

    fn note(&mut self, done: Result<(), AllocError>) {
        if done.is_err() {
            self.failed = true;
        }
    }

    /// Gives an attribute to the element that begins next.
    pub(crate) fn with(&mut self, attribute: Attribute) {
        if self.attributes.push(attribute).is_err() {
            self.failed = true;
        }
    }

    fn take_attributes(&mut self) -> Vec<Attribute> {
        let none = Vec::new(self.tree.alloc());
        mem::replace(&mut self.attributes, none)
    }

    /// Begins an element.
    pub(crate) fn open(&mut self, tag: Tag) {
        let attributes = self.take_attributes();
        let done = self.tree.open(tag, attributes);
        self.note(done);
    }

    /// An element that holds nothing.
    pub(crate) fn leaf(&mut self, tag: Tag) {
        let attributes = self.take_attributes();
        let done = self.tree.leaf(tag, attributes);
        self.note(done);
    }

    /// Begins an element of a class.
    pub(crate) fn begin(&mut self, tag: Tag, class: &'static str) {
        self.with(Attribute::Word(Key::Class, class));
        self.open(tag);
    }

    /// Begins a cell of a class, with a label for tables that show no head.
    pub(crate) fn labelled(&mut self, class: &'static str, label: &'static str) {
        self.with(Attribute::Word(Key::Class, class));
        self.with(Attribute::Word(Key::DataLabel, label));
        self.open(Tag::Td);
    }

    pub(crate) fn close(&mut self) {
        let done = self.tree.close();
        self.note(done);
    }

    pub(crate) fn word(&mut self, word: &'static str) {
        let done = self.tree.word(word);
        self.note(done);
    }

    pub(crate) fn text(&mut self, chars: Vec<char>) {
        let done = self.tree.text(chars);
        self.note(done);
    }

    pub(crate) fn number(&mut self, n: u64) {
        let done = self.tree.number(n);
        self.note(done);
    }

    pub(crate) fn integer(&mut self, n: i64) {
        let done = self.tree.integer(n);
        self.note(done);
    }

    pub(crate) fn counted(&mut self, n: u64) {
        let done = self.tree.counted(n);
        self.note(done);
    }

    /// A count or a tile, of which the page tells.
    pub(crate) fn mark(&mut self, mark: Mark) {
        let done = self.tree.mark(mark);
        self.note(done);
    }

    /// A number with commas, and what it counts.
    pub(crate) fn count(&mut self, subject: Subject, n: u64) {
        self.mark(Mark::Count(subject, n));
    }

    pub(crate) fn line(&mut self) {
        let done = self.tree.line();
        self.note(done);
    }

    /// The cell of a table that holds a count.
    pub(crate) fn count_cell(&mut self, subject: Subject, n: u64)
        ensures { self.new.failed ≡ false
            → printed self.new.tree ≡ printed self.old.tree ++ counted_text n }
    {
        if cells::count_cell(&mut self.tree, subject, n).is_err() {
            self.failed = true;
        }
    }

    /// The cell of a table that holds a number of the reply.
    pub(crate) fn number_cell(&mut self, n: u64)
        ensures { self.new.failed ≡ false
            → printed self.new.tree ≡ printed self.old.tree ++ number_text n }
    {
        if cells::number_cell(&mut self.tree, n).is_err() {
            self.failed = true;
        }
    }

    /// A cell with a value of the reply.
    pub(crate) fn value(&mut self, label: &'static str, value: Value)
        ensures { self.new.failed ≡ false
            → IsValueCell label.now value (printed self.old.tree) (printed self.new.tree) }
    {
        if cells::value(&mut self.tree, label, value).is_err() {
            self.failed = true;
        }
    }

    /// An interval, as `[2, 4)`.
    pub(crate) fn bounds(&mut self, from: SeriesRef, until: u64)
        ensures { self.new.failed ≡ false
            → printed self.new.tree ≡ printed self.old.tree ++ bounds_text from until }
    {
        if cells::bounds(&mut self.tree, from, until).is_err() {
            self.failed = true;
        }
    }

    /// Ends every element that is open, and gives the pieces.
    pub(crate) fn finish(self) -> Result<Vec<Piece>, AllocError>
        ensures { IfOk result (λ pieces. IsContent pieces.items) }
    {
        if self.failed {
            return Err(AllocError);
        }
        self.tree.finish()
    }
}
