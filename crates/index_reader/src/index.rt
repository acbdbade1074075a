//! An index that was checked.

ghost use Rattle.std.specs.Prelude.{◌≡◌, ◌<◌, ℕ, ◌==◌, [], length, slice_get, Some, Ok, IfOk};
ghost use Rattle.std.specs.Prelude.{IfErr, true};
ghost use Rattle.std.specs.Prelude.{IfSome, IfNone};
ghost use Rattle.index_reader.specs.Outcome.{Gives};
ghost use Rattle.index_reader.specs.Indexes.{Indexed, IsConsistent, references, label_sets};
ghost use Rattle.index_reader.specs.Indexes.{chunk_lists, references_with, values_of};
ghost use Rattle.index_reader.specs.Reading.Whole.{indexed_of};
ghost use Rattle.index_reader.specs.Spelled.{IsIndex};
ghost use Rattle.index_reader.specs.Checks.{IsRefused};

use crate::bodies::flat_parts;
use crate::checks::{Checked, check};
use crate::chunk::{Chunk, are_same_chunks};
use crate::error::IndexError;
use crate::keys::are_same_labels;
use crate::lists::{Lists, copy_lists};
use crate::pairs::Pairs;
use crate::postings::Entries;
use crate::series::{Series, are_same_series, label_set_of};
use crate::sharing::{OneThread, Readers, Workers};
use crate::symbols::are_same_texts;
use labels::{LabelSet, SeriesRef};
use std::alloc::{AllocError, Global};
use std::marker::Model;
use std::thread::Threads;

/// What an index holds, seen as its series in file order and the pairs that it lists. It keeps no
/// borrow of the file, and its lists of references as the bytes in which they were read.
#[derive(Drop)]
pub struct Index {
    pairs: Pairs,
    labels: Vec<(u32, u32)>,
    chunks: Vec<Chunk>,
    series: Vec<Series>,
    lists: Lists,
}

impl Model for Index {
    ghost use Rattle.index_reader.specs.Indexes.{Indexed};

    ghost Value = { Indexed };

    ghost use Rattle.index_reader.specs.Seen.{strings_of};
    ghost use Rattle.index_reader.specs.KeptIndex.{indexed_in, IsKeptIndex};

    ghost view = { λ x. indexed_in (strings_of x.pairs.symbols.texts.items)
        x.pairs.keys.pairs.items x.labels.items x.chunks.items x.series.items };

    ghost invariant = { λ x. IsKeptIndex (strings_of x.pairs.symbols.texts.items)
        x.pairs.keys.pairs.items x.labels.items x.chunks.items x.series.items x.lists };
}

// The checks, and what they leave.
fn index_of<B: Readers>(by: &B, alloc: Global, file: &[u8]) -> Result<Index, IndexError>
    requires { B.is_ready by.now }
    ensures exact { Gives (λ x. x) result (indexed_of file.now) }
    ensures found { IfOk result (IsIndex file.now) }
    ensures consistent { IfOk result IsConsistent }
{
    let Checked {
        layout: _layout,
        bodies,
        symbols,
        keys,
        lists,
    } = check(by, alloc, file)?;
    let lists = copy_lists(alloc, &lists)?;
    let (labels, chunks, series) = flat_parts(bodies);
    Ok(Index {
        pairs: Pairs { symbols, keys },
        labels,
        chunks,
        series,
        lists,
    })
}

impl Index {
    /// What the bytes of an index hold, or the refusal of the first check that fails, in this
    /// order: `I15` (length), `I1` to `I10`, `I13`, `I11`, `I12`, `I14`, `I15` (counts), each over
    /// the whole file before the next. Time in proportion to the file and to what its table of
    /// offsets lists; it copies the texts, the chunks' places and the lists, and keeps no borrow of
    /// the file.
    pub fn open(alloc: Global, file: &[u8]) -> Result<Index, IndexError>
        // The first check that fails is answered, unless memory runs out.
        ensures refused { IfErr result (IsRefused file.now) }
        // What is given is what the bytes spell: series, their chunks, and lists that are exactly
        // those of the series.
        ensures found { IfOk result (IsIndex file.now) }
        // Bytes that spell an index are opened, and give what they spell, unless memory runs out.
        ensures only { (x : Indexed) → IsIndex file.now x → Gives (λ i. i) result (Ok x) }
        // References and label sets ascend, and the lists are those of the series.
        ensures consistent { IfOk result IsConsistent }
    {
        index_of(&OneThread, alloc, file)
    }

    /// The same as [`Index::open`], by at most `threads` threads, the calling one among them: one
    /// reads the lists, the others share the bodies of the series. The answer does not depend on
    /// their number, nor on whether they can be started.
    pub fn open_by<R: Threads + Sync>(
        rt: &R,
        threads: usize,
        alloc: Global,
        file: &[u8],
    ) -> Result<Index, IndexError>
        ensures refused { IfErr result (IsRefused file.now) }
        ensures found { IfOk result (IsIndex file.now) }
        ensures only { (x : Indexed) → IsIndex file.now x → Gives (λ i. i) result (Ok x) }
        ensures consistent { IfOk result IsConsistent }
    {
        index_of(&Workers { rt, threads }, alloc, file)
    }

    /// Whether another index holds the same, as far as both are kept alike: then it does, and
    /// `false` may be said of one that was kept otherwise. It takes time in proportion to their
    /// sizes, and no memory.
    pub fn is_same(&self, other: &Index) -> bool
        ensures { result ≡ true → self.now ≡ other.now }
    {
        let (pairs, others) = (&self.pairs, &other.pairs);
        if !are_same_texts(&pairs.symbols.texts, &others.symbols.texts) {
            return false;
        }
        if !are_same_labels(&pairs.keys.pairs, &others.keys.pairs) {
            return false;
        }
        if !are_same_labels(&self.labels, &other.labels) {
            return false;
        }
        if !are_same_chunks(&self.chunks, &other.chunks) {
            return false;
        }
        are_same_series(&self.series, &other.series)
    }

    /// How many series there are, at most 1,048,576.
    pub fn len(&self) -> usize
        ensures { result ≡ length self.now.series }
    {
        self.series.len()
    }

    /// Whether there is no series.
    pub fn is_empty(&self) -> bool
        ensures { result ≡ (length self.now.series == 0) }
    {
        self.series.is_empty()
    }

    /// The reference of the series at a place. References ascend.
    pub fn reference_at(&self, i: usize) -> SeriesRef
        requires { i < length self.now.series }
        ensures { slice_get (references self.now.series) i ≡ Some result }
    {
        self.series[i].reference
    }

    /// The label set of the series at a place. Label sets ascend. It is made anew at each call.
    pub fn labels_at(&self, alloc: Global, i: usize) -> Result<LabelSet, AllocError>
        requires { i < length self.now.series }
        ensures { IfOk result (λ labels. slice_get (label_sets self.now.series) i ≡ Some labels) }
    {
        let series = self.series[i];
        label_set_of(
            alloc,
            &self.pairs.symbols,
            &self.labels[series.labels_start..series.labels_end],
        )
    }

    /// The chunks of the series at a place, in the order of their times, which are in milliseconds.
    pub fn chunks_at(&self, i: usize) -> &[Chunk]
        requires { i < length self.now.series }
        ensures { slice_get (chunk_lists self.now.series) i ≡ Some result.now }
    {
        let series = &self.series[i];
        &self.chunks[series.chunks_start..series.chunks_end]
    }

    /// The references of all series. None of it is read yet.
    pub fn all(&self) -> Entries<'_>
        ensures { result ≡ (references self.now.series, 0) }
    {
        self.lists.entries_at(0)
    }

    /// The references of the series with this value of a name, `None` where there is none. None of
    /// it is read yet. It takes time in proportion to the logarithms of the counts of symbols and
    /// of pairs, and no memory.
    pub fn entries(&self, name: &str, value: &str) -> Option<Entries<'_>>
        ensures none { IfNone result (references_with name.now value.now self.now.series ≡ []) }
        ensures listed { IfSome result
            (λ e. e ≡ (references_with name.now value.now self.now.series, 0)) }
        ensures some { IfSome result
            (λ e. references_with name.now value.now self.now.series ≡ [] → ⊥) }
    {
        let at = self.pairs.place_of(name, value)?;
        Some(self.lists.entries_at(at + 1))
    }

    /// How many values a name has.
    pub fn value_count(&self, name: &str) -> usize
        ensures { result ≡ length (values_of name.now self.now.pairs) }
    {
        self.pairs.value_count(name)
    }

    /// The value of a name at a place, in the order of their bytes.
    pub fn value_at(&self, name: &str, i: usize) -> &str
        requires { i < length (values_of name.now self.now.pairs) }
        ensures { slice_get (values_of name.now self.now.pairs) i ≡ Some result.now }
    {
        self.pairs.value_at(name, i)
    }
}
