//! Events in a journal.

ghost use Rattle.std.specs.Prelude.{◌≡◌, ◌++◌, [], ℕ, List, true, false, Err, IfOk, OnOk, OnErr};
ghost use Rattle.std.specs.Prelude.{◌⊎◌, ◌<◌, ◌^◌, IsErrOf, MatchResult};
ghost use Rattle.head.specs.Worlds.{Event as Change};
ghost use Rattle.journal.specs.Media.{HasAll, LeavesOnly};
ghost use Rattle.journal.specs.Outcome.{IsOfKeeping};
ghost use Rattle.name_table.specs.Names.{Label};
ghost use Rattle.event_journal.specs.Holding.{HasEvents, Holds, Stands, StandsAndSome};
ghost use Rattle.event_journal.specs.Naming.{AreNext};

use journal::{Journal, JournalError, Medium, MediumError, cut_end};

/// Keeps events in a journal.
#[derive(Drop)]
pub struct EventJournal<M: Medium + Drop> {
    /// The journal.
    pub journal: Journal<M>,
}

impl<M: Medium + Drop> EventJournal<M> {
    /// A journal of no events, on a medium that has nothing.
    pub fn create(medium: M) -> Result<EventJournal<M>, (JournalError, M)>
        requires { HasAll M.shows M.kept M.sound [] medium }
        ensures holds { IfOk result (λ j. Holds M.shows M.kept M.sound M.moment M.left_since
            [] j.journal.medium j.journal.len j.journal.closed [] []) }
        ensures open { IfOk result (λ j. j.journal.closed ≡ false) }
    {
        match Journal::create(medium) {
            Ok(journal) => Ok(EventJournal { journal }),
            Err(failed) => Err(failed),
        }
    }

    /// Goes on with the journal of a file whose records end after `len` bytes, and which was synced
    /// before it was read. A torn end is cut off; an `Err` gives the medium back where that fails.
    pub fn resume(medium: M, len: usize) -> Result<EventJournal<M>, (MediumError, M)>
        requires { (front : List (List ℕ)) × (names : List Label) × (events : List Change)
            × HasEvents M.shows M.kept M.sound front medium len names events }
        ensures holds { IfOk result (λ j. (front : List (List ℕ)) (names : List Label)
            (events : List Change)
            → HasEvents M.shows M.kept M.sound front medium len names events
            → Holds M.shows M.kept M.sound M.moment M.left_since
            front j.journal.medium j.journal.len j.journal.closed names events) }
        ensures open { IfOk result (λ j. j.journal.closed ≡ false) }
        // A crash at any moment of the call leaves a file of the same events.
        ensures any_moment { (front : List (List ℕ)) (names : List Label) (events : List Change)
            → HasEvents M.shows M.kept M.sound front medium len names events
            → MatchResult result
            (λ j. LeavesOnly M.moment M.left_since medium j.journal.medium
            (λ left. Stands front left events))
            (λ e. LeavesOnly M.moment M.left_since medium e.1
            (λ left. Stands front left events)) }
        ensures beside { MatchResult result (λ j. M.beside medium j.journal.medium)
            (λ e. M.beside medium e.1) }
    {
        let mut medium = medium;
        match cut_end(&mut medium, len) {
            Ok(()) => Ok(EventJournal {
                journal: Journal {
                    medium,
                    len,
                    closed: false,
                },
            }),
            Err(error) => Err((error, medium)),
        }
    }

    /// Keeps several events, for good, by their records, which name series as they are named so
    /// far. It takes one write and one sync. `J5` to `J7` as `Journal::append_records` has them.
    pub fn append(&mut self, records: &[u8]) -> Result<(), JournalError>
        requires held { (front : List (List ℕ)) × (names : List Label) × (events : List Change)
            × Holds M.shows M.kept M.sound M.moment M.left_since front
            self.old.journal.medium self.old.journal.len self.old.journal.closed names events }
        requires spelled { (names : List Label) × (more : List Change) × (after : List Label)
            × AreNext names records.now more after }
        ensures ok { OnOk result ((front : List (List ℕ)) (names after : List Label)
            (events more : List Change)
            → Holds M.shows M.kept M.sound M.moment M.left_since front
            self.old.journal.medium self.old.journal.len self.old.journal.closed names events
            → AreNext names records.now more after
            → Holds M.shows M.kept M.sound M.moment M.left_since front
            self.new.journal.medium self.new.journal.len self.new.journal.closed after
            (events ++ more)) }
        ensures err { OnErr result ((front : List (List ℕ)) (names after : List Label)
            (events more : List Change)
            → Holds M.shows M.kept M.sound M.moment M.left_since front
            self.old.journal.medium self.old.journal.len self.old.journal.closed names events
            → AreNext names records.now more after
            → Holds M.shows M.kept M.sound M.moment M.left_since front
            self.new.journal.medium self.new.journal.len self.new.journal.closed names events) }
        // A crash at any moment of the call leaves a file of all that was kept, and of the first
        // few of these: so a start finds such a list, whatever is left.
        ensures any_moment { (front : List (List ℕ)) (names after : List Label)
            (events more : List Change)
            → Holds M.shows M.kept M.sound M.moment M.left_since front
            self.old.journal.medium self.old.journal.len self.old.journal.closed names events
            → AreNext names records.now more after → self.old.journal.closed ≡ false
            → LeavesOnly M.moment M.left_since self.old.journal.medium self.new.journal.medium
            (StandsAndSome front events more) }
        ensures open { OnOk result (self.new.journal.closed ≡ false) }
        ensures closed { self.old.journal.closed ≡ true → (result ≡ Err JournalError.Closed)
            × (self.new ≡ self.old) }
        ensures told { IsErrOf result JournalError.Closed → self.old.journal.closed ≡ true }
        // It refuses nothing without a cause, and closes only if the medium fails.
        ensures size { IsErrOf result JournalError.Size → 2 ^ 62 < self.old.journal.len }
        ensures medium { IsErrOf result JournalError.Medium
            → M.failed self.new.journal.medium ≡ true }
        ensures lost { self.new.journal.closed ≡ true → (self.old.journal.closed ≡ true)
            ⊎ (M.failed self.new.journal.medium ≡ true) }
        ensures other { IsOfKeeping result }
        // What is beside the journal stays.
        ensures beside { M.beside self.old.journal.medium self.new.journal.medium }
    {
        self.journal.append_records(records)
    }

    /// Gives up the events that were kept last, and takes nothing more: a start may find them or
    /// not.
    pub fn close(&mut self)
        requires { self.old.journal.closed ≡ false }
        ensures held { (front : List (List ℕ)) (names others : List Label)
            (events more : List Change)
            → Holds M.shows M.kept M.sound M.moment M.left_since front
            self.old.journal.medium self.old.journal.len self.old.journal.closed names
            (events ++ more)
            → Holds M.shows M.kept M.sound M.moment M.left_since front
            self.new.journal.medium self.new.journal.len self.new.journal.closed others events }
        ensures any_moment { (front : List (List ℕ)) (names : List Label)
            (events more : List Change)
            → Holds M.shows M.kept M.sound M.moment M.left_since front
            self.old.journal.medium self.old.journal.len self.old.journal.closed names
            (events ++ more)
            → LeavesOnly M.moment M.left_since self.old.journal.medium self.new.journal.medium
            (StandsAndSome front events more) }
        ensures closed { self.new.journal.closed ≡ true }
        ensures beside { M.beside self.old.journal.medium self.new.journal.medium }
    {
        self.journal.closed = true;
    }
}
