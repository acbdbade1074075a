//! Laws between a store and the auditor of its journal: the steps of `kept_world` are those of the
//! store.
//!
//! Of a state and a world of the store that are alike (`IsLike`: floor, newest samples, count of
//! blocks, and the value at each label set and time), an event makes a state and a world that are
//! alike again, or both refuse it, if the state is as a store keeps it (`IsKept`), which each event
//! keeps. Only the limits of the files of a cut's block are not looked at.
//!
//! The crate has no code that runs, and no program needs it.
#![tactic(auto)]

ghost use Rattle.std.specs.Prelude.{◌≡◌, Some, List, ℤ, Bool, map};
ghost use Rattle.labels.specs.Contents.{Content};
ghost use Rattle.labels.specs.Rows.{Row};
ghost use Rattle.matchers.specs.Views.{MatcherView};
ghost use Rattle.matchers.specs.Satisfies.{satisfies_all};
ghost use Rattle.head.specs.Worlds.{World, committed, deleted, cut_at, replayed};
ghost use Rattle.kept_walk.specs.Kept.{Event, batch, deletion, cut};
ghost use Rattle.kept_world.specs.States.{State, stepped, state_after, entries_of};
ghost use Rattle.kept_laws.specs.Likeness.{IsLike, IsKept, Agrees, AgreesOn};
ghost use Rattle.kept_laws.specs.Likeness.{AgreesButLimits, store_event};

/// A law: on a batch the steps agree, of a state as a store keeps it.
pub fn batches_agree()
    ensures { (s : State) (w : World) (runs : List Row) → IsLike s w → IsKept s
        → Agrees (committed w (entries_of runs)) (stepped s (batch runs)) }
{}

/// A law: on a deletion the steps agree.
pub fn deletions_agree()
    ensures { (s : State) (w : World) (ms : List MatcherView) (from : ℤ) (to : ℤ) → IsLike s w
        → AgreesOn (deleted w (satisfies_all ms) from to) (stepped s (deletion ms from to)) }
{}

/// A law: on a cut the steps agree, of a state as a store keeps it, whatever the limits of files
/// are.
pub fn cuts_agree()
    ensures { (fits : Content → Bool) (s : State) (w : World) (t : ℤ) → IsLike s w → IsKept s
        → AgreesButLimits (cut_at fits w t) (stepped s (cut t)) }
{}

/// A law: each event keeps what states of a store keep.
pub fn events_keep()
    ensures { (s : State) (u : State) (e : Event) → IsKept s → stepped s e ≡ Some u → IsKept u }
{}

/// A law: so the replay of a whole journal is the store's.
pub fn replays_agree()
    ensures { (s : State) (w : World) (events : List Event) → IsLike s w → IsKept s
        → AgreesButLimits (replayed w (map store_event events)) (state_after events s) }
{}
