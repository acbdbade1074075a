//! What may be wrong with an answer.

ghost use Rattle.std.specs.Prelude.{◌≡◌};
ghost use Rattle.auditor.specs.declared.flaw.Flaw.TheVariants.{Memory};
ghost use Rattle.auditor.specs.Errors.{code_of};

use std::alloc::AllocError;
use std::error::Error;
use std::fmt;

/// Why an audit does not say yes: what is wrong with an answer, or that memory ran out.
#[derive(Clone, Copy, Debug, PartialEq, Eq, Drop)]
pub enum Flaw {
    /// `F1`: the intervals are not a partition of the part.
    NotAPartition,
    /// `F2`: a run under a match is not one series that satisfies every matcher and has a sample in
    /// the range.
    NotMatching,
    /// `F3`: the matcher of this number, from 0, accepts a series of a run that it is said to
    /// reject.
    NotRejected { matcher: usize },
    /// `F4`: the separators are not strictly ascending references of the part, or not as many as
    /// the intervals.
    SeparatorCount,
    /// `F5`: the separators at this place, from 0, and the next lie in one fitting run.
    SeparatorsFit { at: usize },
    /// `F6`: the rows are not those that the query selects of the part.
    WrongRows,
    /// `F7`: a verdict names a matcher that is not there.
    UnknownMatcher,
    /// `F8`: a series of a run that is said to have no sample in the range has one.
    NotSilent,
    /// `F9`: the query selects rows of a part that was skipped.
    Hidden,
    /// `F10`: the rows are not those of all that the answers list.
    WrongMerge,
    /// No memory: nothing is said of the answer.
    Memory,
}

impl Flaw {
    /// The number of the flaw, or `memory`.
    pub fn code(self) -> &'static str
        ensures { result.now ≡ code_of self }
    {
        match self {
            Flaw::NotAPartition => "F1",
            Flaw::NotMatching => "F2",
            Flaw::NotRejected { .. } => "F3",
            Flaw::SeparatorCount => "F4",
            Flaw::SeparatorsFit { .. } => "F5",
            Flaw::WrongRows => "F6",
            Flaw::UnknownMatcher => "F7",
            Flaw::NotSilent => "F8",
            Flaw::Hidden => "F9",
            Flaw::WrongMerge => "F10",
            Flaw::Memory => "memory",
        }
    }
}

impl fmt::Display for Flaw {
    ghost use Rattle.std.specs.Prelude.{Some};
    ghost use Rattle.auditor.specs.Errors.{flaw_text};

    ghost output = { λ flaw. Some (flaw_text flaw) };

    fn fmt<W: fmt::Write>(&self, f: &mut fmt::Formatter<W>) -> fmt::Result {
        match self {
            Flaw::NotAPartition => write!(f, "F1: the intervals are no partition of the part"),
            Flaw::NotMatching => write!(f, "F2: a match is not one series that answers"),
            Flaw::NotRejected { matcher } => write!(
                f,
                "F3: matcher {matcher} accepts a series that it is said to reject"
            ),
            Flaw::SeparatorCount => write!(
                f,
                "F4: the separators are not ascending references, one for each interval"
            ),
            Flaw::SeparatorsFit { at } => {
                write!(f, "F5: separator {at} and the next lie in one fitting run")
            }
            Flaw::WrongRows => write!(f, "F6: the rows are not those of the part"),
            Flaw::UnknownMatcher => write!(f, "F7: a verdict names a matcher that is not there"),
            Flaw::NotSilent => write!(
                f,
                "F8: a series that is said to have no sample in the range has one"
            ),
            Flaw::Hidden => write!(f, "F9: a skipped part has rows to show"),
            Flaw::WrongMerge => write!(f, "F10: the rows are not those that the parts list"),
            Flaw::Memory => write!(f, "no memory"),
        }
    }
}

impl Error for Flaw {}

impl From<AllocError> for Flaw {
    ghost from_gives = { λ _ flaw. flaw ≡ Memory };

    fn from(_error: AllocError) -> Flaw {
        Flaw::Memory
    }
}
