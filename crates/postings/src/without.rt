//! The difference of two lists.

ghost use Rattle.std.specs.Prelude.{◌≡◌, ℕ, ◌<◌, Some};
ghost use Rattle.std.specs.List.{Contains};
ghost use Rattle.labels.specs.Ascending.{first_of};
ghost use Rattle.labels.specs.Sets.{difference};
ghost use Rattle.labels.proofs.SetLemmas.{difference-rises};
ghost use Rattle.labels.proofs.Lists.{not_below-twice};

use crate::Postings;
use crate::union::number_or_end;
use labels::SeriesRef;

/// Moves both lists until the first begins outside the second.
fn settle<A: Postings, B: Postings>(list: &mut A, out: &mut B)
    ensures same { difference (A.remaining list.new) (B.remaining out.new)
        ≡ difference (A.remaining list.old) (B.remaining out.old) }
    ensures settled { (r : ℕ) → first_of (A.remaining list.new) ≡ Some r
        → Contains (B.remaining out.new) r → ⊥ }
{
    while let Some(next) = list.current() {
        out.seek(next);
        if number_or_end(out.current()) != u64::from(next.number()) {
            return;
        }
        list.advance();
    }
}

/// What stands in the first list and not in the second.
#[derive(Drop)]
pub struct Without<A: Postings, B: Postings> {
    list: A,
    out: B,
    ghost settled: { (r : ℕ) → first_of (A.remaining list) ≡ Some r
        → Contains (B.remaining out) r → ⊥ },
}

impl<A: Postings, B: Postings> Without<A, B> {
    /// The references of the first list that do not stand in the second.
    pub fn new(list: A, out: B) -> Without<A, B>
        ensures { ⟦<Without<A, B> as Postings>⟧.remaining result
            ≡ difference (A.remaining list) (B.remaining out) }
    {
        let mut list = list;
        let mut out = out;
        settle(&mut list, &mut out);
        Without { list, out }
    }
}

impl<A: Postings, B: Postings> Postings for Without<A, B> {
    ghost remaining = { λ w. difference (A.remaining w.list) (B.remaining w.out) };

    fn current(&self) -> Option<SeriesRef> {
        self.list.current()
    }

    fn advance(&mut self) {
        self.list.advance();
        settle(&mut self.list, &mut self.out);
    }

    fn seek(&mut self, target: SeriesRef) {
        self.list.seek(target);
        settle(&mut self.list, &mut self.out);
    }

    ghost ascending = { λ w.
        difference-rises (A.remaining w.list) (B.remaining w.out) (A.ascending w.list) };

    ghost two_seeks = { λ w a b.
        not_below-twice a b (difference (A.remaining w.list) (B.remaining w.out)) };
}
