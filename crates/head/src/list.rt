//! The lists that a head lends.

ghost use Rattle.std.specs.Prelude.{◌≡◌, ℕ, List, max};
ghost use Rattle.labels.specs.Ascending.{first_of, rest_of, not_below};

use crate::reference_list::ReferenceList;
use crate::span::Span;
use labels::SeriesRef;
use postings::Postings;

/// All series of a head, or those that carry a pair.
#[derive(Drop)]
pub enum HeadList<'a> {
    All(Span),
    Listed(ReferenceList<'a>),
}

impl<'a> Postings for HeadList<'a> {
    ghost use Rattle.std.specs.Prelude.{drop};
    ghost use Rattle.std.specs.List.{range_with_len};
    ghost use Rattle.labels.proofs.Lists.{not_below-twice, rising-drop};
    ghost use Rattle.head.specs.declared.list.HeadList.TheVariants.{All, Listed};
    ghost use Rattle.head.specs.SpanLaws.{span_rises};

    ghost remaining = { elim [
      | All span ↦ range_with_len span.next span.left
      | Listed list ↦ drop list.place list.references.now
    ] };

    fn current(&self) -> Option<SeriesRef> {
        match self {
            HeadList::All(span) => span.current(),
            HeadList::Listed(list) => list.current(),
        }
    }

    fn advance(&mut self) {
        match self {
            HeadList::All(span) => span.advance(),
            HeadList::Listed(list) => list.advance(),
        }
    }

    fn seek(&mut self, target: SeriesRef) {
        match self {
            HeadList::All(span) => span.seek(target),
            HeadList::Listed(list) => list.seek(target),
        }
    }

    ghost ascending = { elim [
      | All span ↦ span_rises span.next span.left
      | Listed list ↦ rising-drop list.references.now list.place list.increasing
    ] };

    ghost two_seeks = { elim [
      | All span ↦ λ a b. not_below-twice a b (range_with_len span.next span.left)
      | Listed list ↦ λ a b. not_below-twice a b (drop list.place list.references.now)
    ] };
}
