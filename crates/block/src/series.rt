//! What a block tells of its series, and the lists that it lends.

ghost use Rattle.std.specs.Prelude.{◌≡◌, ℕ, ℤ, ◌<◌, ◌≤◌, [], List, length, get_or, slice_get, Some};
ghost use Rattle.std.specs.Prelude.{IfNone, IfSome, IfOk};
ghost use Rattle.labels.specs.Rows.{Row};
ghost use Rattle.labels.specs.Parts.{carries, has_sample, labels_in, references, references_where};
ghost use Rattle.labels.specs.Parts.{row_at, samples_within, within};
ghost use Rattle.index_reader.specs.Indexes.{values_of};

use crate::blocks::Block;
use crate::samples::{Times, Wanted, is_any_wanted, push_each};
use crate::series_places::{place_from, place_of};
use index_reader::Entries;
use labels::{LabelSet, Sample, SeriesRef};
use std::alloc::{AllocError, Global};

impl Block {
    /// The label set of a series, `None` for an unknown reference. It finds the series by halving,
    /// and makes the set of the texts of the index.
    pub fn labels_of(
        &self,
        alloc: Global,
        reference: SeriesRef,
    ) -> Result<Option<LabelSet>, AllocError>
        ensures { IfOk result (λ labels. labels ≡ labels_in (row_at reference self.now.part)) }
    {
        let index = &self.files.index;
        match place_of(index, reference) {
            Some(at) => {
                let labels = index.labels_at(alloc, at)?;
                Ok(Some(labels))
            }
            None => Ok(None),
        }
    }

    /// The undeleted samples of a series in a closed range of times, in milliseconds; none for an
    /// unknown reference.
    ///
    /// It finds the series, and those of its chunks whose times meet the range, by halving, and
    /// reads no other chunk.
    pub fn samples_of(
        &self,
        alloc: Global,
        reference: SeriesRef,
        from: i64,
        to: i64,
    ) -> Result<Vec<Sample>, AllocError>
        ensures { IfOk result (λ samples.
            samples.items ≡ samples_within from to (row_at reference self.now.part)) }
    {
        match place_of(&self.files.index, reference) {
            Some(at) => self.samples_at(alloc, at, Times { from, to }),
            None => Ok(Vec::new(alloc)),
        }
    }

    /// The undeleted samples of the series at a place in the closed range.
    pub(crate) fn samples_at(
        &self,
        alloc: Global,
        i: usize,
        times: Times,
    ) -> Result<Vec<Sample>, AllocError>
        requires { i < length self.now.part }
        ensures { IfOk result (λ samples. (row : ℕ × Row) → slice_get self.now.part i ≡ Some row
            → samples.items ≡ within times.from times.to row.1.1) }
    {
        let mut found = Vec::new(alloc);
        let files = &*self.files;
        let wanted = Wanted {
            tombstones: &self.tombstones,
            reference: files.index.reference_at(i),
            times,
        };
        push_each(
            &mut found,
            files,
            files.starts[i],
            files.index.chunks_at(i),
            &wanted,
        )?;
        Ok(found)
    }

    /// The label set of the series at a place, from 0.
    pub(crate) fn labels_at(&self, alloc: Global, i: usize) -> Result<LabelSet, AllocError>
        requires { i < length self.now.part }
        ensures { IfOk result (λ labels.
            (row : ℕ × Row) → slice_get self.now.part i ≡ Some row → labels ≡ row.1.0) }
    {
        self.files.index.labels_at(alloc, i)
    }

    /// The reference of the series at a place, from 0.
    pub(crate) fn reference_at(&self, i: usize) -> SeriesRef
        requires { i < length self.now.part }
        ensures { slice_get (references self.now.part) i ≡ Some result }
    {
        self.files.index.reference_at(i)
    }

    /// Whether the series at a place has an undeleted sample in the closed range.
    pub(crate) fn is_live_at(&self, i: usize, times: Times) -> bool
        requires { i < length self.now.part }
        ensures { (row : ℕ × Row) → slice_get self.now.part i ≡ Some row
            → result ≡ has_sample times.from times.to row.1.1 }
    {
        let files = &*self.files;
        let wanted = Wanted {
            tombstones: &self.tombstones,
            reference: files.index.reference_at(i),
            times,
        };
        is_any_wanted(files, files.starts[i], files.index.chunks_at(i), &wanted)
    }

    /// The place of the first series, from a place on, whose reference is not below the target, or
    /// the end.
    pub(crate) fn place_from(&self, from: usize, target: SeriesRef) -> usize
        requires { from ≤ length self.now.part }
        ensures place { (from ≤ result) × (result ≤ length self.now.part) }
        ensures below { (k : ℕ) → from ≤ k → k < result
            → get_or (references self.now.part) k 0 < target }
        ensures above { result < length self.now.part
            → target ≤ get_or (references self.now.part) result 0 }
    {
        place_from(&self.files.index, from, target)
    }

    /// The references of all series. None of it is read yet.
    pub(crate) fn all(&self) -> Entries<'_>
        ensures { result ≡ (references self.now.part, 0) }
    {
        self.files.index.all()
    }

    /// The references of the series with this value of a name, `None` where there is none. None of
    /// it is read yet.
    pub(crate) fn list(&self, name: &str, value: &str) -> Option<Entries<'_>>
        ensures none { IfNone result
            (references_where (carries name.now value.now) self.now.part ≡ []) }
        ensures listed { IfSome result (λ entries.
            entries ≡ (references_where (carries name.now value.now) self.now.part, 0)) }
        ensures some { IfSome result (λ entries.
            references_where (carries name.now value.now) self.now.part ≡ [] → ⊥) }
    {
        self.files.index.entries(name, value)
    }

    pub(crate) fn value_count(&self, name: &str) -> usize
        ensures { result ≡ length (values_of name.now self.now.pairs) }
    {
        self.files.index.value_count(name)
    }

    pub(crate) fn value_at(&self, name: &str, i: usize) -> &str
        requires { i < length (values_of name.now self.now.pairs) }
        ensures { slice_get (values_of name.now self.now.pairs) i ≡ Some result.now }
    {
        self.files.index.value_at(name, i)
    }
}
