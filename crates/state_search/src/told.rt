//! A reply, as the search asks it.

ghost use Rattle.std.specs.Prelude.{◌↔◌, IsTrue, IfOk, List};
ghost use Rattle.labels.specs.Rows.{Row};
ghost use Rattle.labels.specs.Parts.{Part, IsPart};
ghost use Rattle.kept_world.specs.States.{numbered};
ghost use Rattle.kept_world.specs.Births.{IsPartOf};

use block_walk::Table;
use std::alloc::{AllocError, Global};

/// What a reader was told of the parts of a store.
pub trait Told {
    // The head has all that is shown of it.
    ghost shows: { Self → Part → Type 0 };

    // What is shown is sound of the head.
    ghost sound: { Self → Part → Type 0 };

    // The parts that are named are these blocks, in order, and a head, and what is said of each
    // block is right.
    ghost right: { Self → List Part → Type 0 };

    /// Whether a head has all that is shown of it.
    fn is_shown_by(&self, alloc: Global, head: &Table) -> Result<bool, AllocError>
        ensures { IfOk result (λ b. IsTrue b ↔ shows self.now head.now) };

    /// Whether what is shown is sound of a head.
    fn is_sound_of(&self, alloc: Global, head: &Table) -> Result<bool, AllocError>
        ensures { IfOk result (λ b. IsTrue b ↔ sound self.now head.now) };

    /// Whether the parts that are named are these blocks and a head, and what is said of each block
    /// is right.
    fn is_right_of(&self, alloc: Global, blocks: &[Table]) -> Result<bool, AllocError>
        ensures { IfOk result (λ b. IsTrue b ↔ right self.now blocks.now) };

    // What a head has, it has once it has grown.
    ghost later: { (a : Self) (p : List Row) (q : List Row) → IsPart (numbered 1 p)
        → IsPart (numbered 1 q) → IsPartOf p q → shows a (numbered 1 p)
        → shows a (numbered 1 q) };

    // A head of which it is sound has all that is shown.
    ghost shown: { (a : Self) (head : Part) → sound a head → shows a head };

    // A head that has all decides: what is sound of it once it has grown is sound of it.
    ghost first: { (a : Self) (p : List Row) (q : List Row) → IsPart (numbered 1 p)
        → IsPart (numbered 1 q) → IsPartOf p q → shows a (numbered 1 p)
        → sound a (numbered 1 q) → sound a (numbered 1 p) };
}
