//! The list that a matcher chooses.

use crate::{Postings, Union, Without};
use labels::SeriesRef;

/// The series that a matcher accepts.
#[derive(Drop)]
pub enum Chosen<P: Postings>
where
    Union<P>: Postings,
{
    /// Those with one of some values, where the matcher refuses the empty text.
    Listed(Union<P>),
    /// All but those with one of some values, where it accepts the empty text.
    AllBut(Without<P, Union<P>>),
}

impl<P: Postings> Postings for Chosen<P>
where
    Union<P>: Postings,
{
    ghost use Rattle.labels.proofs.Lists.{not_below-twice};
    ghost use Rattle.labels.proofs.SetLemmas.{difference-rises};
    ghost use Rattle.labels.specs.Sets.{difference};
    ghost use Rattle.postings.specs.declared.chosen.Chosen.TheVariants.{Listed, AllBut};

    ghost remaining = { elim [
      | Listed u ↦ ⟦<Union<P> as Postings>⟧.remaining u
      | AllBut w ↦ difference (P.remaining w.list) (⟦<Union<P> as Postings>⟧.remaining w.out)
    ] };

    fn current(&self) -> Option<SeriesRef> {
        match self {
            Chosen::Listed(union) => union.current(),
            Chosen::AllBut(without) => without.current(),
        }
    }

    fn advance(&mut self) {
        match self {
            Chosen::Listed(union) => union.advance(),
            Chosen::AllBut(without) => without.advance(),
        }
    }

    fn seek(&mut self, target: SeriesRef) {
        match self {
            Chosen::Listed(union) => union.seek(target),
            Chosen::AllBut(without) => without.seek(target),
        }
    }

    ghost ascending = { elim [
      | Listed u ↦ bound-2.ascending u
      | AllBut w ↦
          difference-rises (P.remaining w.list) (bound-2.remaining w.out) (P.ascending w.list)
    ] };

    ghost two_seeks = { elim [
      | Listed u ↦ λ a b. not_below-twice a b (bound-2.remaining u)
      | AllBut w ↦ λ a b.
          not_below-twice a b (difference (P.remaining w.list) (bound-2.remaining w.out))
    ] };
}
