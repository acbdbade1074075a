//! The series of an index, as they are kept, and their label sets.

ghost use Rattle.std.specs.Prelude.{◌≡◌, ◌<◌, length, true, IfOk};
ghost use Rattle.labels.specs.LabelSets.{IsLabelSet};
ghost use Rattle.labels.specs.Pairs.{texts_of};
ghost use Rattle.index_reader.specs.CheckedFile.{symbol_texts};
ghost use Rattle.index_reader.specs.Indexes.{named_label, named};
ghost use Rattle.index_reader.specs.KeptIndex.{AreInTable};

use crate::keys::key_in;
use crate::symbols::{Symbols, text_in};
use labels::{LabelSet, SeriesRef};
use std::alloc::{AllocError, Global};

/// A series: its reference, and where its labels and its chunks stand among those of all series.
#[derive(Clone, Copy, Debug, PartialEq, Eq)]
pub struct Series {
    pub reference: SeriesRef,
    pub labels_start: usize,
    pub labels_end: usize,
    pub chunks_start: usize,
    pub chunks_end: usize,
}

/// Whether both are the same series.
pub fn are_same_series(xs: &[Series], ys: &[Series]) -> bool
    ensures { result ≡ true → xs.now ≡ ys.now }
{
    xs == ys
}

// The name and the value of a label.
fn pair_of(symbols: &Symbols, label: (u32, u32)) -> (&str, &str)
    requires { (label.0 < length symbols.now.texts.items)
        × (label.1 < length symbols.now.texts.items) }
    ensures { (result.0.now, result.1.now) ≡ named_label (symbol_texts symbols.now) label }
{
    (
        text_in(symbols, label.0 as usize),
        text_in(symbols, label.1 as usize),
    )
}

// The names and the values of labels.
fn pairs_of<'a>(
    alloc: Global,
    symbols: &'a Symbols,
    labels: &[(u32, u32)],
) -> Result<Vec<(&'a str, &'a str)>, AllocError>
    requires { AreInTable (symbol_texts symbols.now) labels.now }
    ensures { IfOk result
        (λ pairs. texts_of pairs.items ≡ named (symbol_texts symbols.now) labels.now) }
{
    let mut pairs = Vec::with_capacity(alloc, labels.len())?;
    for at in 0..labels.len() {
        let label = key_in(labels, at);
        pairs.push(pair_of(symbols, label))?;
    }
    Ok(pairs)
}

/// The label set of labels.
pub fn label_set_of(
    alloc: Global,
    symbols: &Symbols,
    labels: &[(u32, u32)],
) -> Result<LabelSet, AllocError>
    requires inside { AreInTable (symbol_texts symbols.now) labels.now }
    requires labelled { IsLabelSet (named (symbol_texts symbols.now) labels.now) }
    ensures { IfOk result (λ l. l ≡ named (symbol_texts symbols.now) labels.now) }
{
    let pairs = pairs_of(alloc, symbols, labels)?;
    LabelSet::of_sorted_texts(alloc, &pairs)
}
