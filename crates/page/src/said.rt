//! What the lines of a judge say of the part at a place of a reply.
//!
//! A reply may name a part twice. Its lines stand in the order of its parts, so that each of the
//! two has the line at its own place.

ghost use Rattle.std.specs.Prelude.{◌≡◌, ℕ, List, Some, slice_get, IsSomeAnd};
ghost use Rattle.labels.specs.Parts.{Part as PartValue};
ghost use Rattle.matchers.specs.Views.{QueryView};
ghost use Rattle.reply_reader.specs.declared.reply.Reply.{Reply as ToldReply};
ghost use Rattle.reply_reader.specs.declared.reply.ToldPart.{ToldPart};
ghost use Rattle.auditor.specs.declared.judgement.BlockTable.{BlockTable};
ghost use Rattle.auditor.specs.declared.judgement.Line.{Line as LineValue};
ghost use Rattle.auditor.specs.Judgements.{AreLines, IsOfPart, name_of};
ghost use Rattle.whole_audit.specs.declared.lines.StateLine.{StateLine as StateLineValue};
ghost use Rattle.whole_audit.specs.StateLines.{AreStateLines, IsGradeIn, part_of};
ghost use Rattle.page_claims.specs.Judging.{is_of};
ghost use Rattle.state_claims.specs.Claiming.{is_of as is_of_state};
ghost use Rattle.page.specs.Places.{own_judgement, first_fault, judgement_at, grade_at};

use auditor::{Judgement, Line, Subject};
use page_claims::same_name;
use postings::PartName;
use whole_audit::{Grade, StateLine, StateSubject};

/// Whether a line speaks of a part.
pub(crate) fn is_of(name: PartName, subject: Subject) -> bool
    ensures { result ≡ is_of name subject }
{
    match subject {
        Subject::Part(other) => same_name(name, other),
        Subject::Rows => false,
    }
}

/// What the line at a place says of a part: nothing, if it speaks of something else.
fn own_judgement(lines: &[Line], at: usize, name: PartName) -> Option<Judgement>
    ensures { result ≡ own_judgement lines.now at name }
{
    match lines.get(at) {
        Some(line) => if is_of(name, line.subject) {
            Some(line.judgement)
        } else {
            None
        },
        None => None,
    }
}

/// The first fault of a part that a line names.
fn first_fault(lines: &[Line], name: PartName) -> Option<Judgement>
    ensures { result ≡ first_fault lines.now name }
{
    for line in lines {
        if is_of(name, line.subject) && line.judgement.is_fault() {
            return Some(line.judgement);
        }
    }
    None
}

/// What the auditor says of the part at a place. That is what the line at that place says. Where
/// lines are of refused files alone, no part has its place: there it is the fault that is named.
pub(crate) fn judgement_at(lines: &[Line], at: usize, name: PartName) -> Option<Judgement>
    ensures { result ≡ judgement_at lines.now at name }
{
    match own_judgement(lines, at, name) {
        Some(judgement) => Some(judgement),
        None => first_fault(lines, name),
    }
}

fn is_of_state(name: PartName, subject: StateSubject) -> bool
    ensures { result ≡ is_of_state name subject }
{
    match subject {
        StateSubject::Part(other) => same_name(name, other),
        StateSubject::Parts | StateSubject::Rows => false,
    }
}

/// What a judge says over a state of the part at a place: what the line at that place says of it.
pub(crate) fn grade_at(lines: &[StateLine], at: usize, name: PartName) -> Option<Grade>
    ensures { result ≡ grade_at lines.now at name }
{
    match lines.get(at) {
        Some(line) => if is_of_state(name, line.subject) {
            Some(line.grade)
        } else {
            None
        },
        None => None,
    }
}

/// The laws of places: of the lines of a reply, what is said of the part at a place is what the
/// auditor, or a judge over a state, says of that part, also if another part has its name.
pub fn places_laws()
    ensures blocks { (blocks : List BlockTable) (query : QueryView) (reply : ToldReply)
        (lines : List LineValue) (at : ℕ) (told : ToldPart) → AreLines blocks query reply lines
        → slice_get reply.parts.items at ≡ Some told
        → IsSomeAnd (judgement_at lines at (name_of told)) (IsOfPart blocks query told) }
    ensures state { (blocks : List PartValue) (head : PartValue) (query : QueryView)
        (reply : ToldReply) (lines : List StateLineValue) (at : ℕ) (told : ToldPart)
        → AreStateLines blocks head query reply lines
        → slice_get reply.parts.items at ≡ Some told
        → IsSomeAnd (grade_at lines at (name_of told))
        (IsGradeIn (part_of blocks head (name_of told)) query told) }
{}
