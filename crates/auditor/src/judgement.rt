//! What an auditor says of a reply, line by line.

ghost use Rattle.std.specs.Prelude.{◌≡◌};

use crate::flaw::Flaw;
use block_walk::Table;
use postings::PartName;
use std::fmt;

/// What is known of a block.
#[derive(Drop)]
pub enum BlockTable {
    /// Its part.
    Walked(Table),
    /// Its files are those of no block. The code is that of the first check that failed.
    Refused(&'static str),
}

/// What is said of a part, or of the rows of all parts.
#[derive(Clone, Copy, Debug, PartialEq, Eq, Drop)]
pub enum Judgement {
    /// Nothing is wrong.
    Valid,
    /// Nothing is said of the part, or a part that was skipped has nothing to show.
    Skipped,
    /// It has this flaw, the first in the order of the checks.
    Flawed(Flaw),
    /// The files of the block are refused, with this code.
    Refused(&'static str),
}

impl Judgement {
    ghost use Rattle.auditor.specs.Judgements.{is_fault};

    /// Whether it names a flaw or a refusal.
    pub fn is_fault(&self) -> bool
        ensures { result ≡ is_fault self.now }
    {
        match self {
            Judgement::Valid | Judgement::Skipped => false,
            Judgement::Flawed(_) | Judgement::Refused(_) => true,
        }
    }
}

impl Flaw {
    ghost use Rattle.auditor.specs.Judgements.{place_of};

    /// The place of the first of two separators that lie in one fitting run, from 0.
    pub fn place(self) -> Option<usize>
        ensures { result ≡ place_of self }
    {
        match self {
            Flaw::SeparatorsFit { at } => Some(at),
            Flaw::NotAPartition => None,
            Flaw::NotMatching => None,
            Flaw::NotRejected { .. } => None,
            Flaw::SeparatorCount => None,
            Flaw::WrongRows => None,
            Flaw::UnknownMatcher => None,
            Flaw::NotSilent => None,
            Flaw::Hidden => None,
            Flaw::WrongMerge => None,
            Flaw::Memory => None,
        }
    }
}

/// As `valid`, `skipped`, `F4`, `F5 at 1` or `refused I9`.
impl fmt::Display for Judgement {
    ghost use Rattle.std.specs.Prelude.{Some};
    ghost use Rattle.auditor.specs.Judgements.{judgement_text};

    ghost output = { λ judgement. Some (judgement_text judgement) };

    fn fmt<W: fmt::Write>(&self, f: &mut fmt::Formatter<W>) -> fmt::Result {
        match self {
            Judgement::Valid => write!(f, "valid"),
            Judgement::Skipped => write!(f, "skipped"),
            Judgement::Flawed(flaw) => match flaw.place() {
                Some(at) => write!(f, "{} at {at}", flaw.code()),
                None => write!(f, "{}", flaw.code()),
            },
            Judgement::Refused(code) => write!(f, "refused {code}"),
        }
    }
}

/// What a line speaks of.
#[derive(Clone, Copy, Debug, PartialEq, Eq, Drop)]
pub enum Subject {
    /// A part.
    Part(PartName),
    /// The rows of all parts.
    Rows,
}

/// As `block 0`, `head` or `rows`.
impl fmt::Display for Subject {
    ghost use Rattle.std.specs.Prelude.{Some};
    ghost use Rattle.auditor.specs.Judgements.{subject_text};

    ghost output = { λ subject. Some (subject_text subject) };

    fn fmt<W: fmt::Write>(&self, f: &mut fmt::Formatter<W>) -> fmt::Result {
        match self {
            Subject::Part(PartName::Block(number)) => write!(f, "block {number}"),
            Subject::Part(PartName::Head) => write!(f, "head"),
            Subject::Rows => write!(f, "rows"),
        }
    }
}

/// A judgement and what it is of.
#[derive(Clone, Copy, Debug, PartialEq, Eq, Drop)]
pub struct Line {
    pub subject: Subject,
    pub judgement: Judgement,
}

/// As `block 0: F5 at 1`.
impl fmt::Display for Line {
    ghost use Rattle.std.specs.Prelude.{Some};
    ghost use Rattle.auditor.specs.Judgements.{line_text};

    ghost output = { λ line. Some (line_text line) };

    fn fmt<W: fmt::Write>(&self, f: &mut fmt::Formatter<W>) -> fmt::Result {
        write!(f, "{}: {}", self.subject, self.judgement)
    }
}
