//! Lists of references that only go forward, the parts that lend them, and what a matcher chooses
//! from a part.
//!
//! A list ([`Postings`]) is seen as the ascending references that remain: `seek` leaves exactly
//! those not below its target. A part ([`Source`]) lends the list of all its series, of those
//! with a value of a name, and of those with a sample in a range. [`Union`], [`Without`] and
//! [`Chosen`] are lists made of lists, [`SliceList`] is one over a slice, and [`Counted`] counts
//! the moves of another. [`choose`] lists exactly the series that satisfy a matcher.
//!
//! ```
//! let odd = [SeriesRef::new(1), SeriesRef::new(5), SeriesRef::new(9)];
//! assert!(rt; SliceList::is_ascending(&odd));
//! let mut list = Counted::new(SliceList::new(&odd));
//! list.seek(SeriesRef::new(4));
//! assert_eq!(rt; list.current(), Some(SeriesRef::new(5)));
//! assert_eq!(rt; list.moves(), 1);
//! ```
//!
//! It stands on `labels` (what a part is, and the words for lists and sets) and on `matchers`
//! (what a matcher accepts). The names are those of Prometheus's tsdb. That the work of a query
//! is counted in moves of such lists follows Barbay and Kenyon, "Adaptive intersection and
//! t-threshold problems" (SODA 2002).
#![tactic(auto)]

mod choice;
mod chosen;
mod counted;
mod part_name;
mod slice_list;
mod union;
mod without;

ghost use Rattle.std.specs.Prelude.{◌≡◌, ℕ, ◌-◌, ◌<◌, List, [], length, max, slice_get, IfNone};
ghost use Rattle.std.specs.Prelude.{IfSome, IfOk, Some};
ghost use Rattle.std.specs.List.Sorted.{IsStrictlyIncreasing};
ghost use Rattle.labels.specs.Ascending.{first_of, rest_of, not_below};
ghost use Rattle.labels.specs.Parts.{Part, references, references_where, live_references, carries};
ghost use Rattle.labels.specs.Parts.{IsPart};
ghost use Rattle.postings.specs.Values.{AreValuesOf};

pub use choice::choose;
pub use chosen::Chosen;
pub use counted::Counted;
use labels::SeriesRef;
pub use part_name::PartName;
pub use slice_list::SliceList;
use std::alloc::{AllocError, Global};
pub use union::Union;
pub use without::Without;

/// A list of references, seen as the ascending references that remain. It only goes forward.
pub trait Postings {
    ghost remaining: { Self → List ℕ };

    /// The first reference that remains, if any.
    fn current(&self) -> Option<SeriesRef>
        ensures { result ≡ first_of (remaining self.now) };

    /// Goes on past the first reference; at the end it stays there.
    fn advance(&mut self)
        ensures { remaining self.new ≡ rest_of (remaining self.old) };

    /// Goes on to the first reference that is not below the target, and no farther. A target
    /// before the list's place moves nothing.
    fn seek(&mut self, target: SeriesRef)
        ensures { remaining self.new ≡ not_below target (remaining self.old) };

    // What remains ascends strictly.
    ghost ascending: { (list : Self) → IsStrictlyIncreasing (remaining list) };

    // Two seeks leave what one seek to the greater target leaves.
    ghost two_seeks: { (list : Self) (a b : ℕ)
        → not_below b (not_below a (remaining list)) ≡ not_below (max a b) (remaining list) };
}

/// A part, seen as its references with their label sets and their undeleted samples. It lends
/// lists of references.
pub trait Source {
    type List: Postings + Drop;

    type Live: Postings + Drop;

    // The part, and the values of each name in the order of their bytes.
    ghost part: { Self → Part };

    ghost values: { Self → List ℕ → List (List ℕ) };

    /// All references of the part. Takes no memory.
    fn all(&self) -> Self::List
        ensures { Self.List.remaining result ≡ references (part self.now) };

    /// The series with this value of a name, `None` where there is none. Takes no memory.
    fn list(&self, name: &str, value: &str) -> Option<Self::List>
        ensures none { IfNone result
            (references_where (carries name.now value.now) (part self.now) ≡ []) }
        ensures listed { IfSome result (λ list. Self.List.remaining list
            ≡ references_where (carries name.now value.now) (part self.now)) }
        ensures some { IfSome result (λ list.
            references_where (carries name.now value.now) (part self.now) ≡ [] → ⊥) };

    /// The series with an undeleted sample in the closed range of times, in milliseconds.
    fn live(&self, alloc: Global, from: i64, to: i64) -> Result<Self::Live, AllocError>
        ensures { IfOk result (λ list.
            Self.Live.remaining list ≡ live_references from to (part self.now)) };

    /// How many values a name has. Takes no memory.
    fn value_count(&self, name: &str) -> usize
        ensures { result ≡ length (values self.now name.now) };

    /// The value at a place, from 0, in the order of their bytes. Takes no memory.
    fn value_at(&self, name: &str, i: usize) -> &str
        requires { i < length (values self.now name.now) }
        ensures { slice_get (values self.now name.now) i ≡ Some result.now };

    /// The value at a place that is not the first, where the one before it is known. A source that
    /// finds values by halving need not count from the first one. Takes no memory.
    fn value_after(&self, name: &str, i: usize, before: &str) -> &str
        requires later { 0 < i }
        requires within { i < length (values self.now name.now) }
        requires before { slice_get (values self.now name.now) (i - 1) ≡ Some before.now }
        ensures { slice_get (values self.now name.now) i ≡ Some result.now }
    {
        self.value_at(name, i)
    }

    ghost is_part: { (source : Self) → IsPart (part source) };

    ghost are_values: { (source : Self) (name : List ℕ)
        → AreValuesOf (part source) name (values source name) };
}
