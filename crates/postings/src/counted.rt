//! Lists that count their moves.

ghost use Rattle.std.specs.Prelude.{◌≡◌, ℕ, ◌+◌, ◌^◌, ◌-◌, min};
ghost use Rattle.labels.specs.Ascending.{rest_of, not_below};

use crate::Postings;
use labels::SeriesRef;
use std::marker::Model;

/// A list that counts its moves: one for each `advance` or `seek`. It is seen as the list below
/// and the count.
#[derive(Drop)]
pub struct Counted<P> {
    list: P,
    moves: u64,
}

impl<P> Model for Counted<P> {
    ghost use Rattle.std.specs.Prelude.{ℕ};
    ghost use Rattle.std.specs.Coded.{coded×, coded_ℕ};

    ghost Value = { P × ℕ };

    ghost coded = { coded× P.code coded_ℕ };

    ghost view = { λ c. (c.list, c.moves) };
}

impl<P> Counted<P> {
    /// The list, with no move made yet.
    pub fn new(list: P) -> Counted<P>
        ensures { result ≡ (list, 0) }
    {
        Counted { list, moves: 0 }
    }

    /// How many moves were made, up to the greatest `u64`.
    pub fn moves(&self) -> u64
        ensures { result ≡ self.now.1 }
    {
        self.moves
    }
}

impl<P: Postings> Postings for Counted<P> {
    ghost remaining = { λ c. P.remaining c.0 };

    fn current(&self) -> Option<SeriesRef> {
        self.list.current()
    }

    fn advance(&mut self)
        ensures moved { P.remaining self.new.0 ≡ rest_of (P.remaining self.old.0) }
        ensures counted { self.new.1 ≡ min (self.old.1 + 1) (2 ^ 64 - 1) }
    {
        self.moves = self.moves.saturating_add(1);
        self.list.advance();
    }

    fn seek(&mut self, target: SeriesRef)
        ensures moved { P.remaining self.new.0 ≡ not_below target (P.remaining self.old.0) }
        ensures counted { self.new.1 ≡ min (self.old.1 + 1) (2 ^ 64 - 1) }
    {
        self.moves = self.moves.saturating_add(1);
        self.list.seek(target);
    }

    ghost ascending = { λ c. P.ascending c.0 };

    ghost two_seeks = { λ c a b. P.two_seeks c.0 a b };
}
