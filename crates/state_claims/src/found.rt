//! What a judge found of a reply over a kept store.

ghost use Rattle.state_claims.specs.Said.{IsSaidOf, ShowsState};

use crate::verdicts::StateSaid;
use whole_audit::StateLine;

/// The lines of a reply over a state of a store, and which state it is.
#[derive(Drop)]
pub struct FoundState {
    /// The lines of the reply over that state.
    pub lines: Vec<StateLine>,
    /// Whether all that the reply says of parts is right of that state.
    pub is_found: bool,
    /// After how many events behind the journal's head that state is.
    pub told: usize,
    /// How many events there are.
    pub events: usize,
    /// The mark of that state.
    pub mark: String,
}

impl FoundState {
    /// What is said over the state, lent.
    pub fn said(&self) -> StateSaid<'_>
        ensures { IsSaidOf self.now result }
    {
        StateSaid {
            lines: self.lines.as_slice(),
            is_found: self.is_found,
            told: self.told,
            events: self.events,
            mark: self.mark.as_str(),
        }
    }
}

/// What is said over the state, if one was found.
pub fn said_in(found: &Option<FoundState>) -> Option<StateSaid<'_>>
    ensures { ShowsState found.now result }
{
    match found {
        Some(state) => Some(state.said()),
        None => None,
    }
}
