//! References that follow one another.

ghost use Rattle.std.specs.Prelude.{◌≡◌, ℕ, ◌+◌, ◌-◌, ◌<◌, ◌≤◌, List, [], ◌∷◌, max};
ghost use Rattle.std.specs.List.{range_with_len};
ghost use Rattle.std.specs.List.Sorted.{IsStrictlyIncreasing};
ghost use Rattle.labels.specs.Ascending.{first_of, rest_of, not_below};

use labels::SeriesRef;
use postings::Postings;

/// The list of the references from one up to, not including, another.
#[derive(Drop)]
pub struct Span {
    next: u32,
    left: u32,
    ghost room: { next + left < 4294967296 },
}

impl Span {
    /// So many references from this one on.
    pub fn new(next: u32, left: u32) -> Span
        requires { next + left < 4294967296 }
        ensures { ⟦<Span as Postings>⟧.remaining result ≡ range_with_len next left }
    {
        Span { next, left }
    }
}

impl Postings for Span {
    ghost use Rattle.std.specs.Prelude.{ℕ, List};
    ghost use Rattle.std.specs.List.{range_with_len};
    ghost use Rattle.labels.proofs.Lists.{not_below-twice};
    ghost use Rattle.head.specs.SpanLaws.{span_rises};

    ghost remaining = { λ span. range_with_len span.next span.left };

    fn current(&self) -> Option<SeriesRef> {
        if self.left == 0 {
            return None;
        }
        Some(SeriesRef::new(self.next))
    }

    fn advance(&mut self) {
        if self.left > 0 {
            *self = Span {
                next: self.next + 1,
                left: self.left - 1,
            };
        }
    }

    fn seek(&mut self, target: SeriesRef) {
        let passed = target.number().saturating_sub(self.next);
        if passed < self.left {
            *self = Span {
                next: self.next + passed,
                left: self.left - passed,
            };
        } else {
            self.left = 0;
        }
    }

    ghost ascending = { λ span. span_rises span.next span.left };

    ghost two_seeks = { λ span a b. not_below-twice a b (range_with_len span.next span.left) };
}
