//! A durable store over every schedule of events, crashes, rolls and restarts.

ghost use Rattle.std.specs.Prelude.{◌≡◌, List, [], ◌++◌};
ghost use Rattle.std.specs.List.{AllByRecursion};
ghost use Rattle.head.specs.Worlds.{World};
ghost use Rattle.store_laws.specs.Machine.{Begins, Keeps, Move, Runs, Store, history, left_by};
ghost use Rattle.store_laws.specs.Machine.{opened};

/// What every run of a store keeps.
pub fn every_run()
    ensures keeps { (opening : World) (moves : List Move) (s : Store)
        → Runs moves (opened opening) s → Keeps opening (history moves) s }
    ensures grows { (moves later : List Move)
        → Begins (history moves).seen (history (moves ++ later)).seen }
    ensures exact { (moves : List Move)
        → AllByRecursion (λ (m : Move). left_by m ≡ []) moves
        → (history moves).seen ≡ (history moves).told }
{}
