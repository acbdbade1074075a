//! Laws of runs of batches.

ghost use Rattle.std.specs.Prelude.{◌≡◌, ◌≤◌, ◌+◌, Some, List, ℕ, length};
ghost use Rattle.labels.specs.Rows.{Row};
ghost use Rattle.kept_world.specs.States.{State, state_after};
ghost use Rattle.kept_world.specs.Births.{IsHeadAt, OnlyGrows, IsPartOf, AreBornBy, batches};
ghost use Rattle.kept_world.specs.Births.{came_by};

/// In a run of batches the head after the first p of them is what came by then.
pub fn heads_are_filters()
    ensures { (first : State) (bs : List (List Row)) (last : State) (p : ℕ)
        → IsHeadAt first bs last p }
{}

/// In a run of batches the head only grows, in order, and the blocks do not change.
pub fn heads_only_grow()
    ensures { (first : State) (early : List (List Row)) (late : List (List Row))
        → OnlyGrows first early late }
{}

/// In a run of batches a later place gives a head that has all that an earlier one gives.
pub fn places_grow()
    ensures { (first : State) (last : State) (bs : List (List Row)) (p : ℕ) (q : ℕ)
        → AreBornBy first.number first.head → state_after (batches bs) first ≡ Some last
        → p ≤ q → q ≤ length bs
        → IsPartOf (came_by (first.number + p) last.head) (came_by (first.number + q) last.head) }
{}
