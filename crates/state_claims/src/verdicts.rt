//! What a judge said of a reply over a kept store.

ghost use Rattle.std.specs.Prelude.{◌≡◌};
ghost use Rattle.state_claims.specs.Claiming.{grade_of, is_of};

use cover::PartName;
use page_claims::same_name;
use whole_audit::{Grade, StateLine, StateSubject};

/// What a judge said of a reply over a kept store.
#[derive(Drop)]
pub struct StateSaid<'a> {
    /// The lines of the reply over one state.
    pub lines: &'a [StateLine],
    /// Whether all that the reply says of parts is right of that state.
    pub is_found: bool,
    /// After how many events behind the journal's head that state is.
    pub told: usize,
    /// How many events there are.
    pub events: usize,
    /// The mark of that state.
    pub mark: &'a str,
}

/// Whether a line speaks of a part.
pub(crate) fn is_of(name: PartName, subject: StateSubject) -> bool
    ensures { result ≡ is_of name subject }
{
    match subject {
        StateSubject::Part(other) => same_name(name, other),
        StateSubject::Parts | StateSubject::Rows => false,
    }
}

/// What is said of a part, by the first line that speaks of it.
pub fn grade_of(lines: &[StateLine], name: PartName) -> Option<Grade>
    ensures { result ≡ grade_of lines.now name }
{
    for line in lines {
        if is_of(name, line.subject) {
            return Some(line.grade);
        }
    }
    None
}
