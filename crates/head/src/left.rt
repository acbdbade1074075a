//! What a sift leaves out, and why.

ghost use Rattle.std.specs.Prelude.{◌≡◌, ◌<◌, []};
ghost use Rattle.head.specs.Telling.{reason_code, told_of, total, with_last};
ghost use Rattle.head.specs.Meeting.{refusal_at};

use crate::error::CommitError;

/// Why a sample is left out.
#[derive(Clone, Copy, Debug, PartialEq, Eq, Drop)]
pub enum Reason {
    /// E1: its time is below the floor.
    OutOfBounds,
    /// E2: it is older than the newest one of its label set.
    OutOfOrder,
    /// E3: it has the newest time of its label set, and another value.
    Duplicate,
    /// E4: there would be too many series, or too many samples of one.
    Limit,
}

impl Reason {
    /// The number of the refusal.
    pub fn code(self) -> &'static str
        ensures { result.now ≡ reason_code self }
    {
        match self {
            Reason::OutOfBounds => "E1",
            Reason::OutOfOrder => "E2",
            Reason::Duplicate => "E3",
            Reason::Limit => "E4",
        }
    }

    /// The refusal of the sample that has the number `at` in its batch.
    pub(crate) fn refusal(self, at: usize) -> CommitError
        ensures { result ≡ refusal_at at self }
    {
        match self {
            Reason::OutOfBounds => CommitError::OutOfBounds { at },
            Reason::OutOfOrder => CommitError::OutOfOrder { at },
            Reason::Duplicate => CommitError::Duplicate { at },
            Reason::Limit => CommitError::Limit,
        }
    }
}

/// How many samples were left out for each reason, and why the first of them was.
#[derive(Clone, Copy, Debug, PartialEq, Eq, Drop)]
pub struct Left {
    /// How many for E1.
    pub out_of_bounds: usize,
    /// How many for E2.
    pub out_of_order: usize,
    /// How many for E3.
    pub duplicate: usize,
    /// How many for E4.
    pub limit: usize,
    /// Why the first was; `None` if nothing was left out.
    pub first: Option<Reason>,
}

impl Left {
    /// Nothing is left out.
    pub fn none() -> Left
        ensures { result ≡ told_of [] }
    {
        Left {
            out_of_bounds: 0,
            out_of_order: 0,
            duplicate: 0,
            limit: 0,
            first: None,
        }
    }

    /// One more is left out, behind all others.
    pub(crate) fn add(&mut self, reason: Reason)
        requires { total self.old < 4096 }
        ensures { self.new ≡ with_last reason self.old }
    {
        if let None = self.first {
            self.first = Some(reason);
        }
        match reason {
            Reason::OutOfBounds => self.out_of_bounds += 1,
            Reason::OutOfOrder => self.out_of_order += 1,
            Reason::Duplicate => self.duplicate += 1,
            Reason::Limit => self.limit += 1,
        }
    }
}
