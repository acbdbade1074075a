//! The series of an index: their references, their label sets, the chunks that they name.

ghost use Rattle.std.specs.Prelude.{◌≡◌, ◌<◌, ◌≤◌, List, length, slice_get, slice_range, Some, Ok};
ghost use Rattle.std.specs.Prelude.{IfOk};
ghost use Rattle.labels.specs.Pairs.{texts_of};
ghost use Rattle.labels.specs.LabelSets.{IsLabelSet};
ghost use Rattle.block_walk.specs.IndexFile.Outcome.{Gives};
ghost use Rattle.block_walk.specs.IndexFile.Seen.{texts};
ghost use Rattle.block_walk.specs.IndexFile.Series.{Series as SeriesValue, references, label_sets};
ghost use Rattle.block_walk.specs.IndexFile.Series.{chunk_lists, pair_of, named};
ghost use Rattle.block_walk.specs.IndexFile.Kept.{series_seen, AreInTable, IsCheckedIndex};
ghost use Rattle.block_walk.specs.IndexFile.Whole.{indexed_of};
ghost use Rattle.block_walk.specs.IndexFile.Spelled.{IsIndex};

use crate::bodies::{Span, row_at};
use crate::checked::{Checked, checked_of};
use crate::chunk::Chunk;
use crate::entries::entry_in;
use crate::error::WalkError;
use labels::{LabelSet, SeriesRef};
use std::alloc::{AllocError, Global};
use std::marker::Model;

/// The series of an index in file order, seen as their references, their label sets and the chunks
/// that they name. Texts stay in the file.
#[derive(Drop)]
pub struct SeriesEntries<'a> {
    checked: Checked<'a>,
}

impl<'a> Model for SeriesEntries<'a> {
    ghost use Rattle.std.specs.Prelude.{List};
    ghost use Rattle.block_walk.specs.IndexFile.Series.{Series as SeriesValue};

    ghost Value = { List SeriesValue };

    ghost use Rattle.block_walk.specs.IndexFile.Kept.{series_seen, IsCheckedIndex};

    ghost view = { λ e. series_seen e.checked };

    ghost invariant = { λ e. IsCheckedIndex e.checked };
}

fn label_at(labels: &[(u32, u32)], i: usize) -> (u32, u32)
    requires { i < length labels.now }
    ensures { slice_get labels.now i ≡ Some result }
{
    labels[i]
}

// The name and the value of a label.
fn pair_of<'a>(symbols: &[&'a str], label: (u32, u32)) -> (&'a str, &'a str)
    requires { (label.0 < length symbols.now) × (label.1 < length symbols.now) }
    ensures { (result.0.now, result.1.now) ≡ pair_of (texts symbols.now) label }
{
    (symbols[label.0 as usize], symbols[label.1 as usize])
}

fn pairs_of<'a>(
    alloc: Global,
    symbols: &[&'a str],
    labels: &[(u32, u32)],
) -> Result<Vec<(&'a str, &'a str)>, AllocError>
    requires { AreInTable (texts symbols.now) labels.now }
    ensures { IfOk result (λ pairs. texts_of pairs.items ≡ named (texts symbols.now) labels.now) }
{
    let mut pairs = Vec::with_capacity(alloc, labels.len())?;
    for at in 0..labels.len() {
        let label = label_at(labels, at);
        pairs.push(pair_of(symbols, label))?;
    }
    Ok(pairs)
}

fn labels_in(labels: &[(u32, u32)], row: Span) -> &[(u32, u32)]
    requires { (row.labels_start ≤ row.labels_end) × (row.labels_end ≤ length labels.now) }
    ensures { result.now ≡ slice_range labels.now row.labels_start row.labels_end }
{
    &labels[row.labels_start..row.labels_end]
}

fn chunks_in(chunks: &[Chunk], row: Span) -> &[Chunk]
    requires { (row.chunks_start ≤ row.chunks_end) × (row.chunks_end ≤ length chunks.now) }
    ensures { result.now ≡ slice_range chunks.now row.chunks_start row.chunks_end }
{
    &chunks[row.chunks_start..row.chunks_end]
}

// The checks, and what they leave.
fn entries_of(alloc: Global, file: &[u8]) -> Result<SeriesEntries<'_>, WalkError>
    ensures exact { Gives (λ s. s) result (indexed_of file.now) }
    ensures found { IfOk result (IsIndex file.now) }
{
    let checked = checked_of(alloc, file)?;
    Ok(SeriesEntries { checked })
}

impl<'a> SeriesEntries<'a> {
    /// The series of the bytes of an index, whatever its postings are, or the refusal of the first
    /// check that fails: `I15` (length), `I1` to `I10`, `I15` (counts), each over the whole file
    /// before the next.
    pub(crate) fn read(alloc: Global, file: &'a [u8]) -> Result<SeriesEntries<'a>, WalkError>
        // The first check that fails is answered; where none does, what was read is given.
        ensures exact { Gives (λ s. s) result (indexed_of file.now) }
        // What is given is what the bytes spell.
        ensures found { IfOk result (IsIndex file.now) }
        // Bytes that spell series give these, unless memory runs out.
        ensures only { (series : List SeriesValue) → IsIndex file.now series
            → Gives (λ s. s) result (Ok series) }
    {
        entries_of(alloc, file)
    }

    /// How many series there are.
    pub(crate) fn len(&self) -> usize
        ensures { result ≡ length self.now }
    {
        self.checked.bodies.rows.len()
    }

    /// The reference of the series at a place.
    pub(crate) fn reference_at(&self, i: usize) -> SeriesRef
        requires { i < length self.now }
        ensures { slice_get (references self.now) i ≡ Some result }
    {
        let entry = entry_in(&self.checked.layout.entries, i);
        SeriesRef::new((entry.offset / 16) as u32)
    }

    /// The chunks that the series at a place names.
    pub(crate) fn chunks_at(&self, i: usize) -> &[Chunk]
        requires { i < length self.now }
        ensures { slice_get (chunk_lists self.now) i ≡ Some result.now }
    {
        let row = row_at(&self.checked.bodies.rows, i);
        chunks_in(&self.checked.bodies.chunks, row)
    }

    /// The label set of the series at a place.
    pub(crate) fn labels_at(&self, alloc: Global, i: usize) -> Result<LabelSet, AllocError>
        requires { i < length self.now }
        ensures { IfOk result (λ labels. slice_get (label_sets self.now) i ≡ Some labels) }
    {
        let row = row_at(&self.checked.bodies.rows, i);
        let labels = labels_in(&self.checked.bodies.labels, row);
        let pairs = pairs_of(alloc, &self.checked.layout.symbols, labels)?;
        LabelSet::of_sorted_texts(alloc, &pairs)
    }
}
