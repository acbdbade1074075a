//! The rule of the log of a store, and the steps that add to it.

ghost use Rattle.std.specs.Prelude.{◌≡◌};
ghost use Rattle.snapshots.specs.Rules.{end_of};

use crate::change::AsEvent;
use crate::entry::{Mark, Tried};
use crate::naming::Naming;
use logbook::{Gain, Opening, Plain, Play, Rule, Word};
use std::marker::PhantomData;

/// The rule of the log: its length stands in one word. The two other words of its book stay at 0:
/// they are the rights to show versions.
pub struct Law;

impl Rule<Mark, u64> for Law {
    ghost use Rattle.std.specs.Prelude.{[]};
    ghost use base.Fml.{ftrue};
    ghost use Rattle.snapshots.specs.Rules.{HoldLength};

    ghost holds = { λ cells log. HoldLength cells log };

    ghost first = { [] };

    ghost hinted = { λ n log. Unit {0} };

    ghost shows = { λ log. [] };

    ghost keeps = { λ names log. ftrue };

    ghost moves = { λ ask before after answer. Unit {0} };
}

/// A log begins with no mark.
pub struct Blank;

impl Opening<(), Mark> for Blank {
    ghost use Rattle.std.specs.Prelude.{[]};

    ghost log = { λ count about. [] };
}

/// Callers trade nothing.
pub struct Nothing;

impl Gain<Mark, u64> for Nothing {
    ghost use base.Fml.{ftrue};

    ghost after = { λ names about answer. ftrue };
}

/// A step that adds a mark.
pub struct Add;

impl Play<Mark, u64> for Add {
    ghost use Rattle.snapshots.specs.Rules.{Adds};

    ghost then = { Adds };
}

/// What a step asks for: the try of an entry.
pub struct Tries;

impl<'a, C: AsEvent> Plain<Tried<'a, C>, Mark, u64> for Tries {
    ghost use Rattle.std.specs.Prelude.{None};
    ghost use Rattle.snapshots.specs.Tries.{entry_of};
    ghost use Rattle.snapshots.specs.declared.entry.Mark.TheVariants.{Try};

    ghost ask = { λ t. Try (entry_of C.event t) };

    ghost state = { λ e. None };
}

/// What a step asks for: that what waits is sealed.
pub struct Seals;

impl Plain<(), Mark, u64> for Seals {
    ghost use Rattle.std.specs.Prelude.{None};
    ghost use Rattle.snapshots.specs.declared.entry.Mark.TheVariants.{Seal};

    ghost ask = { λ e. Seal };

    ghost state = { λ e. None };
}

/// What a step asks for: that what was sealed is done.
pub struct Ends;

impl Plain<(), Mark, u64> for Ends {
    ghost use Rattle.std.specs.Prelude.{None};
    ghost use Rattle.snapshots.specs.declared.entry.Mark.TheVariants.{Done};

    ghost ask = { λ e. Done };

    ghost state = { λ e. None };
}

/// What a step asks for: that what waits is given up.
pub struct Voids;

impl Plain<(), Mark, u64> for Voids {
    ghost use Rattle.std.specs.Prelude.{None};
    ghost use Rattle.snapshots.specs.declared.entry.Mark.TheVariants.{Void};

    ghost ask = { λ e. Void };

    ghost state = { λ e. None };
}

/// The length of the log of a store, in the first word that its book has.
#[derive(Drop)]
pub struct LogEnd<J: Naming> {
    pub word: Word<Mark, u64, Law>,
    pub of: PhantomData<J>,
    pub ghost is: { word ≡ end_of J.book },
}
