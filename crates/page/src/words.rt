//! Short ways to grow a tree.

use crate::pen::Pen;
use page_escape::is_invisible;
use page_text::{Attribute, Key, Subject, Tag};
use std::alloc::{AllocError, Global};

/// An element with no attribute that holds a constant.
pub(crate) fn word(pen: &mut Pen, tag: Tag, text: &'static str) {
    pen.open(tag);
    pen.word(text);
    pen.close();
}

/// An element of a class that holds a constant.
pub(crate) fn classed(pen: &mut Pen, tag: Tag, class: &'static str, text: &'static str) {
    pen.begin(tag, class);
    pen.word(text);
    pen.close();
}

/// Begins the head of a column or of a row (`scope`), of a class.
pub(crate) fn open_head(pen: &mut Pen, scope: &'static str, class: &'static str) {
    pen.with(Attribute::Word(Key::Scope, scope));
    pen.with(Attribute::Word(Key::Class, class));
    pen.open(Tag::Th);
}

/// Begins a section with a title.
pub(crate) fn open_section(pen: &mut Pen, id: &'static str, title: &'static str) {
    pen.with(Attribute::Word(Key::Id, id));
    pen.open(Tag::Section);
    word(pen, Tag::H2, title);
}

/// The head of a column.
pub(crate) fn head_cell(pen: &mut Pen, class: &'static str, text: &'static str) {
    open_head(pen, "col", class);
    pen.word(text);
    pen.close();
}

/// A number of things, with the word for one and for more.
pub(crate) fn plural(pen: &mut Pen, n: u64, one: &'static str, many: &'static str) {
    pen.counted(n);
    pen.word(if n == 1 { one } else { many });
}

/// How many there are of something that the page counts, with the word for one and for more.
pub(crate) fn plural_of(
    pen: &mut Pen,
    subject: Subject,
    n: u64,
    one: &'static str,
    many: &'static str,
) {
    pen.count(subject, n);
    pen.word(if n == 1 { one } else { many });
}

/// What is shown of a text from outside, and how many characters are left out.
#[derive(Drop)]
struct Cut {
    chars: Vec<char>,
    shown: u64,
    unseen: u64,
    left: u64,
}

/// Most characters of a name or a value that are shown.
const MOST_SHOWN: u64 = 120;

/// Most characters of it that cannot be seen.
const MOST_UNSEEN: u64 = 16;

impl Cut {
    // Whether another character is shown still.
    fn takes(&self, c: char) -> bool {
        let unseen = is_invisible(c) && self.unseen >= MOST_UNSEEN;
        self.left == 0 && self.shown < MOST_SHOWN && !unseen
    }

    fn push(&mut self, c: char, escaped: bool) -> Result<(), AllocError> {
        if !self.takes(c) {
            self.left = self.left.saturating_add(1);
            return Ok(());
        }
        self.shown = self.shown.saturating_add(1);
        if escaped && c == '\n' {
            self.chars.push('\\')?;
            self.chars.push('n')?;
            return Ok(());
        }
        if is_invisible(c) {
            self.unseen = self.unseen.saturating_add(1);
        }
        if escaped && (c == '"' || c == '\\') {
            self.chars.push('\\')?;
        }
        self.chars.push(c)?;
        Ok(())
    }
}

fn cut_of(alloc: Global, text: &str, escaped: bool) -> Result<Cut, AllocError> {
    let mut cut = Cut {
        chars: Vec::new(alloc),
        shown: 0,
        unseen: 0,
        left: 0,
    };
    for c in text.chars() {
        cut.push(c, escaped)?;
    }
    Ok(cut)
}

/// Tells how many of something are left out, in a box.
pub(crate) fn left_box(pen: &mut Pen, left: u64, one: &'static str, many: &'static str) {
    if left == 0 {
        return;
    }
    pen.begin(Tag::I, "u");
    pen.word("+");
    plural(pen, left, one, many);
    pen.close();
}

/// A name from outside.
pub(crate) fn name(pen: &mut Pen, text: &str) {
    let Ok(Cut { chars, left, .. }) = cut_of(pen.alloc(), text, false) else {
        return pen.fail();
    };
    pen.text(chars);
    left_box(pen, left, " character", " characters");
}

/// A value from outside in quotes, as selectors write it.
pub(crate) fn quoted(pen: &mut Pen, text: &str) {
    let Ok(Cut { chars, left, .. }) = cut_of(pen.alloc(), text, true) else {
        return pen.fail();
    };
    pen.word("\"");
    pen.open(Tag::Bdi);
    pen.text(chars);
    pen.close();
    pen.word("\"");
    left_box(pen, left, " character", " characters");
}

/// The first characters of a text, and how many more there are.
fn first_chars(alloc: Global, text: &str, most: u64) -> Result<(Vec<char>, u64), AllocError> {
    let mut chars = Vec::new(alloc);
    let (mut shown, mut left) = (0u64, 0u64);
    for c in text.chars() {
        if shown < most {
            shown += 1;
            chars.push(c)?;
        } else {
            left = left.saturating_add(1);
        }
    }
    Ok((chars, left))
}

/// The first characters of a text from outside, and how many more there are.
pub(crate) fn long_text(pen: &mut Pen, text: &str, most: u64) {
    let Ok((chars, left)) = first_chars(pen.alloc(), text, most) else {
        return pen.fail();
    };
    pen.text(chars);
    left_box(pen, left, " character", " characters");
}
