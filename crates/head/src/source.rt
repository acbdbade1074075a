//! A head as a source of lists.

ghost use Rattle.std.specs.Prelude.{◌≡◌, ℕ, ◌-◌, ◌<◌, ◌≤◌, List, [], length, map, slice_get, Some};
ghost use Rattle.std.specs.Prelude.{IfNone, IfSome, IfOk};
ghost use Rattle.labels.specs.Parts.{references, references_where, live_references, carries};

use crate::head::HeadView;
use crate::list::HeadList;
use crate::live::LiveList;
use crate::reference_list::ReferenceList;
use crate::span::Span;
use postings::Source;
use std::alloc::{AllocError, Global};

impl<'a> Source for &'a HeadView {
    ghost use Rattle.head.specs.Heads.{head_part};
    ghost use Rattle.head.specs.Index.{values_under};
    ghost use Rattle.head.specs.LendingLaws.{are_values_under};

    type List = HeadList<'a>;

    type Live = LiveList<'a>;

    ghost part = { λ view. head_part view.now.series };

    ghost values = { λ view name. values_under name view.now.index };

    fn all(&self) -> HeadList<'a> {
        let view: &'a HeadView = *self;
        HeadList::All(Span::new(1, view.series.len() as u32))
    }

    fn list(&self, name: &str, value: &str) -> Option<HeadList<'a>> {
        let view: &'a HeadView = *self;
        match view.index.list(name, value) {
            None => None,
            Some(list) => Some(HeadList::Listed(ReferenceList::new(list))),
        }
    }

    fn live(&self, _alloc: Global, from: i64, to: i64) -> Result<LiveList<'a>, AllocError> {
        let view: &'a HeadView = *self;
        Ok(LiveList::new(&view.series, from, to))
    }

    fn value_count(&self, name: &str) -> usize {
        self.index.value_count(name)
    }

    fn value_at(&self, name: &str, i: usize) -> &str {
        self.index.value_at(name, i)
    }

    fn value_after(&self, name: &str, i: usize, before: &str) -> &str {
        self.index.value_after(name, i, before)
    }

    ghost is_part = { λ view. view.now.is_part };

    ghost are_values = { λ view name. are_values_under view.now.index
        (head_part view.now.series) name view.now.indexed };
}
