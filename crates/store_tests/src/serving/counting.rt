//! A part whose lists count for themselves.

ghost use Rattle.std.specs.Prelude.{◌≡◌};

use block_search::SearchedPart;
use labels::{LabelSet, Sample, SeriesRef};
use postings::{Postings, Source};
use std::alloc::{AllocError, Global};
use std::cell::Cell;

fn add_one(count: &Cell<u64>) {
    count.set(count.get().saturating_add(1));
}

/// A list that adds its moves to a count that it shares with others.
#[derive(Drop)]
pub struct Tally<'a, P> {
    list: P,
    moves: &'a Cell<u64>,
}

impl<'a, P: Postings> Postings for Tally<'a, P> {
    ghost remaining = { λ t. P.remaining t.list };

    fn current(&self) -> Option<SeriesRef> {
        self.list.current()
    }

    fn advance(&mut self) {
        add_one(self.moves);
        self.list.advance();
    }

    fn seek(&mut self, target: SeriesRef) {
        add_one(self.moves);
        self.list.seek(target);
    }

    ghost ascending = { λ t. P.ascending t.list };

    ghost two_seeks = { λ t a b. P.two_seeks t.list a b };
}

/// A part that counts the lists of pairs that it lends, the values that it gives, and the moves of
/// its lists. It counts those of live series apart from the others.
#[derive(Drop)]
pub struct Counting<S> {
    pub source: S,
    pub lists: Cell<u64>,
    pub values: Cell<u64>,
    pub moves: Cell<u64>,
    pub live_moves: Cell<u64>,
}

impl<S> Counting<S> {
    pub fn new(source: S) -> Counting<S> {
        Counting {
            source,
            lists: Cell::new(0),
            values: Cell::new(0),
            moves: Cell::new(0),
            live_moves: Cell::new(0),
        }
    }
}

impl<'a, S: Source> Source for &'a Counting<S> {
    type List = Tally<'a, S::List>;

    type Live = Tally<'a, S::Live>;

    ghost part = { λ c. S.part c.now.source };

    ghost values = { λ c name. S.values c.now.source name };

    fn all(&self) -> Tally<'a, S::List> {
        let counting: &'a Counting<S> = *self;
        Tally {
            list: counting.source.all(),
            moves: &counting.moves,
        }
    }

    fn list(&self, name: &str, value: &str) -> Option<Tally<'a, S::List>> {
        let counting: &'a Counting<S> = *self;
        match counting.source.list(name, value) {
            None => None,
            Some(list) => {
                add_one(&counting.lists);
                Some(Tally {
                    list,
                    moves: &counting.moves,
                })
            }
        }
    }

    fn live(&self, alloc: Global, from: i64, to: i64) -> Result<Tally<'a, S::Live>, AllocError> {
        let counting: &'a Counting<S> = *self;
        let list = counting.source.live(alloc, from, to)?;
        Ok(Tally {
            list,
            moves: &counting.live_moves,
        })
    }

    fn value_count(&self, name: &str) -> usize {
        self.source.value_count(name)
    }

    fn value_at(&self, name: &str, i: usize) -> &str {
        add_one(&self.values);
        self.source.value_at(name, i)
    }

    ghost is_part = { λ c. S.is_part c.now.source };

    ghost are_values = { λ c name. S.are_values c.now.source name };
}

impl<'a, S: SearchedPart> SearchedPart for &'a Counting<S> {
    fn labels_of(
        &self,
        alloc: Global,
        reference: SeriesRef,
    ) -> Result<Option<LabelSet>, AllocError> {
        self.source.labels_of(alloc, reference)
    }

    fn samples_of(
        &self,
        alloc: Global,
        reference: SeriesRef,
        from: i64,
        to: i64,
    ) -> Result<Vec<Sample>, AllocError> {
        self.source.samples_of(alloc, reference, from, to)
    }
}
