//! What is printed of a reply over a store.

ghost use Rattle.std.specs.Prelude.{◌≡◌, false, IfOk, map, string_bytes};
ghost use Rattle.whole_audit.specs.StateLines.{are_right_lines};
ghost use Rattle.store_command.specs.Marks.{first_of, mark_at, mark_text};
ghost use Rattle.store_command.specs.Printing.{IsRefusedReport, IsTold, ending_text, has_refused};
ghost use Rattle.store_command.specs.Printing.{is_right, lines_text, note_of, refused_lines};
ghost use Rattle.store_command.specs.Printing.{right_text, wrong_text};
ghost use Rattle.auditor.specs.declared.judgement.BlockTable.TheVariants.{Walked};

use crate::mark::{Mark, Since};
use auditor::{BlockTable, Judgement, Line, Subject, Table, lines_text as lines_of};
use cover::PartName;
use std::alloc::{AllocError, Global};
use store_audit::StateReport;
use whole_audit::StateLine;

/// What is printed, and whether the reply is right of a state.
#[derive(Debug, Drop)]
pub struct Report {
    pub text: String,
    pub is_right: bool,
}

fn are_right(lines: &[StateLine]) -> bool
    ensures { result ≡ are_right_lines lines.now }
{
    for line in lines {
        if !line.grade.is_right() {
            return false;
        }
    }
    true
}

/// Whether a state was found, and no line has a flaw.
pub fn is_right(said: &StateReport) -> bool
    ensures { result ≡ is_right said.now }
{
    said.found.is_some() && are_right(said.lines.as_slice())
}

/// The lines as a text, each ended by a line feed.
fn lines_text(alloc: Global, lines: &[StateLine]) -> Result<String, AllocError>
    ensures { IfOk result (λ text. string_bytes text ≡ lines_text lines.now) }
{
    let mut text = String::new(alloc);
    for line in lines {
        let line = format!(in alloc; "{line}\n")?;
        text.push_str(line.as_str())?;
    }
    Ok(text)
}

/// The text of the mark of the state that a report is of.
pub fn mark_of(alloc: Global, head: u32, said: &StateReport) -> Result<String, AllocError>
    ensures { IfOk result (λ text. string_bytes text ≡ mark_text (mark_at head said.now.told)) }
{
    Mark::at(head, said.told).text(alloc)
}

/// Of which state a reply is right.
fn right_text(alloc: Global, head: u32, said: &StateReport) -> Result<String, AllocError>
    ensures { IfOk result (λ text. string_bytes text ≡ right_text head said.now) }
{
    let mark = mark_of(alloc, head, said)?;
    let told = said.told;
    let events = said.events;
    format!(in alloc; "at event {told} of {events}, mark {mark}\n")
}

/// What else may be so of a reply that is right of no state.
fn note_of(since: Since) -> &'static str
    ensures { result.now ≡ note_of since }
{
    match since {
        Since::Anywhere => "or the reply is from before the head\n",
        Since::Held(_) | Since::Rolled(_) => "",
    }
}

/// That a reply is right of no state, and of which the lines are.
fn wrong_text(
    alloc: Global,
    since: Since,
    head: u32,
    said: &StateReport,
) -> Result<String, AllocError>
    ensures { IfOk result (λ text. string_bytes text ≡ wrong_text since head said.now) }
{
    let mark = mark_of(alloc, head, said)?;
    let from = since.first();
    let told = said.told;
    let events = said.events;
    let note = note_of(since);
    format!(in alloc;
        "at no event from {from} to {events}, told of event {told}, mark {mark}\n{note}"
    )
}

fn ending_text(
    alloc: Global,
    since: Since,
    head: u32,
    said: &StateReport,
) -> Result<String, AllocError>
    ensures { IfOk result (λ text. string_bytes text ≡ ending_text since head said.now) }
{
    if is_right(said) {
        right_text(alloc, head, said)
    } else {
        wrong_text(alloc, since, head, said)
    }
}

/// The lines of a reply over a state, and which state that is.
pub fn report_of(
    alloc: Global,
    since: Since,
    head: u32,
    said: &StateReport,
) -> Result<Report, AllocError>
    ensures { IfOk result (IsTold since head said.now) }
{
    let mut text = lines_text(alloc, said.lines.as_slice())?;
    let ending = ending_text(alloc, since, head, said)?;
    text.push_str(ending.as_str())?;
    let is_right = is_right(said);
    Ok(Report { text, is_right })
}

/// A line for each block whose files are refused, in their order.
pub fn refused_lines(alloc: Global, tables: &[BlockTable]) -> Result<Vec<Line>, AllocError>
    ensures { IfOk result (λ lines. lines.items ≡ refused_lines 0 tables.now) }
{
    let mut lines = Vec::new(alloc);
    for (number, table) in tables.iter().enumerate() {
        if let BlockTable::Refused(code) = table {
            lines.push(Line {
                subject: Subject::Part(PartName::Block(number)),
                judgement: Judgement::Refused(code),
            })?;
        }
    }
    Ok(lines)
}

/// What is printed over blocks some of whose files are refused.
pub fn refused_report(alloc: Global, tables: &[BlockTable]) -> Result<Report, AllocError>
    ensures { IfOk result (IsRefusedReport tables.now) }
{
    let lines = refused_lines(alloc, tables)?;
    let text = lines_of(alloc, lines.as_slice())?;
    Ok(Report {
        text,
        is_right: false,
    })
}

/// Whether the files of some block are refused.
pub fn has_refused(tables: &[BlockTable]) -> bool
    ensures { result ≡ has_refused tables.now }
{
    for table in tables {
        match table {
            BlockTable::Walked(_) => {}
            BlockTable::Refused(_) => return true,
        }
    }
    false
}

/// The parts of the blocks, up to the first whose files are refused.
pub fn walked(alloc: Global, tables: Vec<BlockTable>) -> Result<Vec<Table>, AllocError>
    requires { has_refused tables.items ≡ false }
    ensures { IfOk result (λ parts. tables.items ≡ map Walked parts.items) }
{
    let mut parts = Vec::new(alloc);
    for table in tables {
        match table {
            BlockTable::Walked(part) => parts.push(part)?,
            BlockTable::Refused(_) => return Ok(parts),
        }
    }
    Ok(parts)
}
