//! What is said of a part of a reply that is held against a state.

ghost use Rattle.std.specs.Prelude.{◌≡◌, ◌↔◌, IsTrue, IfOk};
ghost use Rattle.auditor.specs.Auditing.{IsFlaw};
ghost use Rattle.whole_audit.specs.Grading.{IsExplainedUnder, IsGradeOfAnswer, IsGradeOfSkip};
ghost use Rattle.whole_audit.specs.Grading.{IsGradeOf};

use crate::explaining::is_explained;
use auditor::{Flaw, Table, ToldPart, audit, audit_skip};
use cover::{PartAnswer, PartName};
use matchers::Query;
use std::alloc::{AllocError, Global};
use std::fmt;

/// What is said of a part of a reply, of its rows, or of the names of its parts.
#[derive(Clone, Copy, Debug, PartialEq, Eq, Drop)]
pub enum Grade {
    /// The answer is sound.
    Valid,
    /// The answer of a block is right of the block's samples, under other references than the
    /// block's files have.
    NumberedOtherwise,
    /// The part was skipped, and the query selects nothing of it.
    Skipped,
    /// It has this flaw, the first in the order of the checks.
    Flawed(Flaw),
    /// `F11`: the reply does not say something of each part of the state, once, in order.
    Misnamed,
}

impl Grade {
    ghost use Rattle.whole_audit.specs.Grading.{is_right};

    /// Whether nothing is wrong.
    pub fn is_right(&self) -> bool
        ensures { result ≡ is_right self.now }
    {
        match self {
            Grade::Valid | Grade::NumberedOtherwise | Grade::Skipped => true,
            Grade::Flawed(_) | Grade::Misnamed => false,
        }
    }
}

/// As `valid`, `valid, numbered otherwise`, `skipped`, `F5 at 1` or `F11`.
impl fmt::Display for Grade {
    ghost use Rattle.std.specs.Prelude.{Some};
    ghost use Rattle.whole_audit.specs.Grading.{grade_text};

    ghost output = { λ grade. Some (grade_text grade) };

    fn fmt<W: fmt::Write>(&self, f: &mut fmt::Formatter<W>) -> fmt::Result {
        match self {
            Grade::Valid => write!(f, "valid"),
            Grade::NumberedOtherwise => write!(f, "valid, numbered otherwise"),
            Grade::Skipped => write!(f, "skipped"),
            Grade::Flawed(flaw) => match flaw.place() {
                Some(at) => write!(f, "{} at {at}", flaw.code()),
                None => write!(f, "{}", flaw.code()),
            },
            Grade::Misnamed => write!(f, "F11"),
        }
    }
}

/// Whether a part explains an answer under the name of a block.
fn is_explained_block(
    alloc: Global,
    table: &Table,
    query: &Query,
    answer: &PartAnswer,
) -> Result<bool, AllocError>
    ensures { IfOk result (λ b. IsTrue b
        ↔ IsExplainedUnder answer.now.part query.now table.now answer.now) }
{
    match answer.part {
        PartName::Block(_) => Ok(is_explained(alloc, table, query, answer)?),
        PartName::Head => Ok(false),
    }
}

/// What is said of an answer that has a flaw.
fn grade_of_flawed(
    alloc: Global,
    table: &Table,
    query: &Query,
    answer: &PartAnswer,
    flaw: Flaw,
) -> Result<Grade, AllocError>
    requires { IsFlaw table.now query.now answer.now flaw }
    ensures { IfOk result (λ g. IsGradeOfAnswer query.now table.now answer.now g) }
{
    if is_explained_block(alloc, table, query, answer)? {
        Ok(Grade::NumberedOtherwise)
    } else {
        Ok(Grade::Flawed(flaw))
    }
}

fn grade_of_answer(
    alloc: Global,
    table: &Table,
    query: &Query,
    answer: &PartAnswer,
) -> Result<Grade, AllocError>
    ensures { IfOk result (λ g. IsGradeOfAnswer query.now table.now answer.now g) }
{
    match audit(alloc, table, query, answer) {
        Ok(()) => Ok(Grade::Valid),
        Err(Flaw::Memory) => Err(AllocError),
        Err(flaw) => Ok(grade_of_flawed(alloc, table, query, answer, flaw)?),
    }
}

/// What is said of a part that is skipped.
pub(crate) fn grade_of_skip(
    alloc: Global,
    table: &Table,
    query: &Query,
) -> Result<Grade, AllocError>
    ensures { IfOk result (λ g. IsGradeOfSkip query.now table.now g) }
{
    match audit_skip(alloc, table, query) {
        Ok(()) => Ok(Grade::Skipped),
        Err(Flaw::Memory) => Err(AllocError),
        Err(flaw) => Ok(Grade::Flawed(flaw)),
    }
}

/// Holds what is said of a part against the part: a block's, or that of a head, whose series are
/// numbered from 1 in the order of their creation.
///
/// Of an answer it says `valid` where an audit finds no flaw. Else it says, of a block, `valid,
/// numbered otherwise` where the block explains the answer, and else the audit's flaw: the head has
/// always the references of its series. Of a block that is skipped it says `skipped` or `F9`. It
/// costs an audit, and where that finds a flaw of a block, a second look at all series.
pub fn grade_of(
    alloc: Global,
    table: &Table,
    query: &Query,
    told: &ToldPart,
) -> Result<Grade, AllocError>
    ensures { IfOk result (λ g. IsGradeOf query.now table.now told.now g) }
{
    match told {
        ToldPart::Searched(answer) => Ok(grade_of_answer(alloc, table, query, answer)?),
        ToldPart::Skipped(_) => Ok(grade_of_skip(alloc, table, query)?),
    }
}
