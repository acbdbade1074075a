//! A block as a source of lists.

ghost use Rattle.std.specs.Prelude.{◌≡◌, ℕ, ◌<◌, List, [], length, slice_get, Some, IfNone, IfSome};
ghost use Rattle.std.specs.Prelude.{IfOk};
ghost use Rattle.labels.specs.Parts.{IsPart, labels_in, row_at, samples_within};
ghost use Rattle.labels.proofs.PartProps.{IsPart-prop};
ghost use Rattle.block.specs.CarriedPairs.{AreCarriedPairs};

use crate::blocks::Block;
use crate::live_list::LiveList;
use crate::raw_list::RawList;
use crate::samples::Times;
use labels::{LabelSet, Sample, SeriesRef};
use postings::Source;
use std::alloc::{AllocError, Global};

/// A block, seen as its part: it lends lists, and tells the label set and the samples of a series.
#[derive(Drop)]
pub struct BlockView<'a> {
    block: &'a Block,
    ghost is_part: { IsPart block.now.part } by { IsPart-prop block.now.part },
    ghost named: { AreCarriedPairs block.now.part block.now.pairs },
}

impl Block {
    ghost use Rattle.block.specs.Views.{part_of};

    /// The block as a source of lists.
    pub fn view(&self) -> BlockView<'_>
        ensures { part_of result ≡ self.now.part }
    {
        // What holds of a block is known where a field of it is named.
        let _ = &self.files;
        BlockView { block: self }
    }
}

impl<'a> BlockView<'a> {
    ghost use Rattle.block.specs.Views.{part_of};

    /// The label set of a series, `None` for an unknown reference.
    pub fn labels_of(
        &self,
        alloc: Global,
        reference: SeriesRef,
    ) -> Result<Option<LabelSet>, AllocError>
        ensures { IfOk result (λ labels. labels ≡ labels_in (row_at reference (part_of self.now))) }
    {
        self.block.labels_of(alloc, reference)
    }

    /// The undeleted samples of a series in a closed range of times, in milliseconds; none for an
    /// unknown reference.
    pub fn samples_of(
        &self,
        alloc: Global,
        reference: SeriesRef,
        from: i64,
        to: i64,
    ) -> Result<Vec<Sample>, AllocError>
        ensures { IfOk result (λ samples.
            samples.items ≡ samples_within from to (row_at reference (part_of self.now))) }
    {
        self.block.samples_of(alloc, reference, from, to)
    }
}

impl<'a> Source for BlockView<'a> {
    ghost use Rattle.index_reader.specs.Indexes.{values_of};
    ghost use Rattle.block.specs.PairLaws.{are_values_of};

    type List = RawList<'a>;

    type Live = LiveList<'a>;

    ghost part = { λ view. view.block.now.part };

    ghost values = { λ view name. values_of name view.block.now.pairs };

    fn all(&self) -> RawList<'a> {
        let block: &'a Block = self.block;
        RawList::new(block.all())
    }

    fn list(&self, name: &str, value: &str) -> Option<RawList<'a>> {
        let block: &'a Block = self.block;
        match block.list(name, value) {
            None => None,
            Some(entries) => Some(RawList::new(entries)),
        }
    }

    fn live(&self, _alloc: Global, from: i64, to: i64) -> Result<LiveList<'a>, AllocError> {
        let block: &'a Block = self.block;
        Ok(LiveList::new(block, Times { from, to }))
    }

    fn value_count(&self, name: &str) -> usize {
        self.block.value_count(name)
    }

    fn value_at(&self, name: &str, i: usize) -> &str {
        self.block.value_at(name, i)
    }

    ghost is_part = { λ view. view.is_part };

    ghost are_values = { λ view name.
        are_values_of view.block.now.part view.block.now.pairs name view.named };
}
