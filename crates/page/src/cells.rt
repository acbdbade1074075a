//! Elements and cells whose print is known.

ghost use Rattle.std.specs.Prelude.{◌≡◌, ◌++◌, ◌∷◌, [], codes, OnOk};
ghost use Rattle.page_text.specs.Growing.{printed, open_tags};
ghost use Rattle.page_text.specs.Printing.{head_text};
ghost use Rattle.page_text.specs.declared.tag.Tag.TheVariants.{Td};
ghost use Rattle.page.specs.Cells.{class_front, labelled_front, number_text, counted_text};
ghost use Rattle.page.specs.Cells.{value_text, bounds_text, IsValueCell};

use labels::SeriesRef;
use page_text::{Attribute, Key, Mark, Subject, Tag, Tree, Value, ValueText};
use std::alloc::AllocError;

/// Begins an element with no attribute.
pub(crate) fn plain(tree: &mut Tree, tag: Tag) -> Result<(), AllocError>
    ensures printed { OnOk result (printed tree.new ≡ printed tree.old
        ++ head_text tag [] (codes ">")) }
    ensures inside { OnOk result (open_tags tree.new ≡ tag ∷ open_tags tree.old) }
{
    let alloc = tree.alloc();
    tree.open(tag, Vec::new(alloc))
}

/// Begins an element of a class.
pub(crate) fn begin(tree: &mut Tree, tag: Tag, class: &'static str) -> Result<(), AllocError>
    ensures printed { OnOk result
        (printed tree.new ≡ printed tree.old ++ class_front tag class.now) }
    ensures inside { OnOk result (open_tags tree.new ≡ tag ∷ open_tags tree.old) }
{
    let alloc = tree.alloc();
    tree.open(tag, vec![in alloc; Attribute::Word(Key::Class, class)]?)
}

/// The cell of a table that holds a count.
#[tactic(auto, unfolding(crate::specs::Cells::counted_text))]
pub(crate) fn count_cell(tree: &mut Tree, subject: Subject, n: u64) -> Result<(), AllocError>
    ensures printed { OnOk result (printed tree.new ≡ printed tree.old ++ counted_text n) }
    ensures inside { OnOk result (open_tags tree.new ≡ open_tags tree.old) }
{
    begin(tree, Tag::Td, "n")?;
    tree.mark(Mark::Count(subject, n))?;
    tree.close()
}

/// The cell of a table that holds a number of the reply.
#[tactic(auto, unfolding(crate::specs::Cells::number_text))]
pub(crate) fn number_cell(tree: &mut Tree, n: u64) -> Result<(), AllocError>
    ensures printed { OnOk result (printed tree.new ≡ printed tree.old ++ number_text n) }
    ensures inside { OnOk result (open_tags tree.new ≡ open_tags tree.old) }
{
    begin(tree, Tag::Td, "n")?;
    tree.number(n)?;
    tree.close()
}

/// Begins a cell of a class, with a label for tables that show no head.
pub(crate) fn labelled(
    tree: &mut Tree,
    class: &'static str,
    label: &'static str,
) -> Result<(), AllocError>
    ensures printed { OnOk result
        (printed tree.new ≡ printed tree.old ++ labelled_front class.now label.now) }
    ensures inside { OnOk result (open_tags tree.new ≡ Td ∷ open_tags tree.old) }
{
    let alloc = tree.alloc();
    let attributes = vec![in alloc;
        Attribute::Word(Key::Class, class),
        Attribute::Word(Key::DataLabel, label),
    ]?;
    tree.open(Tag::Td, attributes)
}

/// A cell with the text of a value.
#[tactic(auto, unfolding(crate::specs::Cells::value_text))]
fn text_cell(tree: &mut Tree, label: &'static str, text: ValueText) -> Result<(), AllocError>
    ensures printed { OnOk result
        (printed tree.new ≡ printed tree.old ++ value_text label.now text.text.items) }
    ensures inside { OnOk result (open_tags tree.new ≡ open_tags tree.old) }
{
    labelled(tree, "n", label)?;
    tree.value(text)?;
    tree.close()
}

/// A cell with a value of the reply.
pub(crate) fn value(tree: &mut Tree, label: &'static str, value: Value) -> Result<(), AllocError>
    ensures { OnOk result (IsValueCell label.now value (printed tree.old) (printed tree.new)) }
{
    let text = ValueText::new(tree.alloc(), value)?;
    text_cell(tree, label, text)
}

/// An interval, as `[2, 4)`.
#[tactic(auto, unfolding(crate::specs::Cells::bounds_text))]
pub(crate) fn bounds(tree: &mut Tree, from: SeriesRef, until: u64) -> Result<(), AllocError>
    ensures printed { OnOk result (printed tree.new ≡ printed tree.old ++ bounds_text from until) }
    ensures inside { OnOk result (open_tags tree.new ≡ open_tags tree.old) }
{
    tree.word("[")?;
    tree.number(u64::from(from.number()))?;
    tree.word(", ")?;
    tree.number(until)?;
    tree.word(")")
}
