//! The name of a store, in types.

use std::marker::{Brand, PhantomData};

/// Which store it is, the snapshot that it opened with, the events that were kept before, what its
/// callers have asked for, and what its keeper holds for good. The call that opens a store is
/// generic in it.
pub trait Naming {
    ghost use Rattle.std.specs.Prelude.{ℕ, List};
    ghost use Rattle.logbook.specs.Pages.{Book};
    ghost use Rattle.head.specs.Heads.{SnapshotParts};
    ghost use Rattle.head.specs.Worlds.{Event};
    ghost use Rattle.snapshots.specs.declared.entry.Entry.{Entry};

    ghost book: { Book };

    ghost opening: { SnapshotParts };

    ghost before: { List Event };

    /// The event was asked for, under this number of a seat, as the event behind this many of the
    /// seat.
    ghost asked: { Event → ℕ → ℕ → Type 0 };

    /// These entries are kept: a keeper of the store has come to hold them for good.
    ghost kept: { List Entry → Type 0 };
}

impl Naming for Brand {
    ghost use Rattle.std.specs.Prelude.{[]};
    ghost use Rattle.head.specs.Blocks.{opening_of};
    ghost use Rattle.head.specs.Joins.{IsNoJoin};

    ghost book = { record { number = 0; log_name = 0; cells_name = 0 } };

    ghost opening = { opening_of [] };

    ghost before = { [] };

    ghost asked = { λ event seat place. IsNoJoin event };

    ghost kept = { λ entries. Unit {0} };
}

/// The name of a store whose callers may ask for any event but a join, and for joins of blocks too
/// if it admits them. They count all of it as kept.
pub trait OpenNaming: Naming {
    ghost use Rattle.std.specs.Prelude.{◌≡◌, ℕ, Bool, true, List};
    ghost use Rattle.head.specs.Joins.{IsNoJoin};
    ghost use Rattle.head.specs.Worlds.{Event, joined};
    ghost use Rattle.snapshots.specs.declared.entry.Entry.{Entry};

    ghost admits_joins: { Bool };

    ghost any: { (event : Event) → IsNoJoin event → (seat place : ℕ)
        → Self.asked event seat place };

    ghost any_kept: { (entries : List Entry) → Self.kept entries };

    ghost any_join: { admits_joins ≡ true → (at count made seat place : ℕ)
        → Self.asked (joined at count made) seat place };
}

/// The name of a store that admits joins of blocks.
pub trait JoiningNaming: OpenNaming {
    ghost use Rattle.std.specs.Prelude.{◌≡◌, true};

    ghost joins: { Self.admits_joins ≡ true };
}

/// The same name, under which any event but a join may be asked for, and all counts as kept.
pub struct Open<J: Naming> {
    of: PhantomData<J>,
}

impl<J: Naming> Naming for Open<J> {
    ghost use Rattle.head.specs.Joins.{IsNoJoin};

    ghost book = { J.book };

    ghost opening = { J.opening };

    ghost before = { J.before };

    ghost asked = { λ event seat place. IsNoJoin event };

    ghost kept = { λ entries. Unit {0} };
}

impl<J: Naming> OpenNaming for Open<J> {
    ghost use Rattle.std.specs.Prelude.{false};
    ghost use Rattle.std.proofs.lemmas.Bool.{false≢true};

    ghost admits_joins = { false };

    ghost any = { λ event none seat place. none };

    ghost any_kept = { λ entries. tt };

    ghost any_join = { λ admitted at count made seat place. absurd (false≢true admitted) };
}

/// The same name, under which any event may be asked for, joins of blocks too, and all counts as
/// kept.
pub struct Joining<J: Naming> {
    of: PhantomData<J>,
}

impl<J: Naming> Naming for Joining<J> {
    ghost book = { J.book };

    ghost opening = { J.opening };

    ghost before = { J.before };

    ghost asked = { λ event seat place. Unit {0} };

    ghost kept = { λ entries. Unit {0} };
}

impl<J: Naming> OpenNaming for Joining<J> {
    ghost use Rattle.std.specs.Prelude.{true};

    ghost admits_joins = { true };

    ghost any = { λ event none seat place. tt };

    ghost any_kept = { λ entries. tt };

    ghost any_join = { λ admitted at count made seat place. tt };
}

impl<J: Naming> JoiningNaming for Joining<J> {
    ghost use Rattle.std.specs.Prelude.{refl};

    ghost joins = { refl };
}
