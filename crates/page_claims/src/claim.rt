//! The claim.

ghost use Rattle.std.specs.Prelude.{◌≡◌, ◌↔◌, ◌||◌, ◌==◌, not, length, IsTrue, IfOk};
ghost use Rattle.labels.specs.Rows.{AreRows};
ghost use Rattle.auditor.specs.Listing.{last_listed};
ghost use Rattle.postings.specs.declared.part_name.PartName.TheVariants.{Head};
ghost use Rattle.page_claims.specs.declared.claim.Completeness.TheVariants.{NotShown};
ghost use Rattle.page_claims.specs.Claiming.{are_checked, are_faultless, IsShown, is_judged};
ghost use Rattle.page_claims.specs.Claiming.{is_head_empty, is_head_alone, are_directories_judged};
ghost use Rattle.page_claims.specs.Claiming.{IsFarAs, IsClaimed};
ghost use Rattle.page_claims.specs.Judging.{same_name, unjudged_of};

use crate::checks::is_checked;
use crate::judged::{names_in_order, names_of, same_name, times_named, unjudged_of};
use crate::told::Told;
use auditor::{BlockTable, Flaw, Line, audit_merge};
use cover::PartAnswer;
use labels::Row;
use postings::PartName;
use std::alloc::{AllocError, Global};

/// How far a reply shows that no series is missing.
#[derive(Clone, Copy, Debug, PartialEq, Eq, Drop)]
pub enum Completeness {
    /// No series is missing: the reply names each block once, in order, and then the head, and a
    /// judge found no flaw in any.
    Judged,
    /// No series of the blocks with a directory is missing: the reply names each of them once, in
    /// order, and a judge found no flaw in any. It names one part more, last, the head. The head is
    /// told to have no series, and nobody judged that.
    DirectoriesJudged,
    /// No series is missing, by the certificates: neither of these holds.
    Certified,
    /// It is not shown that no series is missing.
    NotShown,
}

impl Completeness {
    ghost use Rattle.page_claims.specs.Claiming.{is_shown};

    /// Whether it is said that no series is missing.
    pub fn is_shown(self) -> bool
        ensures { result ≡ is_shown self }
    {
        match self {
            Completeness::Judged | Completeness::DirectoriesJudged => true,
            Completeness::Certified => true,
            Completeness::NotShown => false,
        }
    }
}

/// What is claimed.
#[derive(Debug, Drop)]
pub struct Claim {
    /// How far the reply shows that no series is missing.
    pub completeness: Completeness,
    /// The rows of all are the merged rows of the parts.
    pub is_merged: bool,
    /// The parts that the reply names and that no judge found right: nobody judged them, unless a
    /// line names a flaw of theirs.
    pub unjudged: Vec<PartName>,
}

fn are_checked(answers: &[PartAnswer], matchers: usize) -> bool
    ensures { result ≡ are_checked matchers answers.now }
{
    for answer in answers {
        if !is_checked(answer, matchers) {
            return false;
        }
    }
    true
}

fn are_faultless(lines: &[Line]) -> bool
    ensures { result ≡ are_faultless lines.now }
{
    for line in lines {
        if line.judgement.is_fault() {
            return false;
        }
    }
    true
}

fn is_merged(alloc: Global, answers: &[PartAnswer], rows: &[Row]) -> Result<bool, AllocError>
    ensures { IfOk result (λ yes. IsTrue yes ↔ AreRows rows.now (last_listed answers.now)) }
{
    match audit_merge(alloc, answers, rows) {
        Ok(()) => Ok(true),
        Err(Flaw::WrongMerge) => Ok(false),
        Err(_) => Err(AllocError),
    }
}

/// Whether a reply whose rows are the merged rows of the parts, or are not, passes all checks.
fn is_shown(is_merged: bool, matchers: usize, told: &Told, lines: &[Line]) -> bool
    requires { IsTrue is_merged ↔ AreRows told.now.rows.items (last_listed told.now.answers.items) }
    ensures { IsTrue result
        ↔ IsShown matchers told.now.answers.items told.now.rows.items lines.now }
{
    let are_checked = are_checked(told.answers.as_slice(), matchers);
    let are_faultless = are_faultless(lines);
    is_merged && are_checked && are_faultless
}

fn is_empty_unless_block(answer: &PartAnswer) -> bool
    ensures { result ≡ (not (same_name Head answer.now.part)
        || length answer.now.cover.certificate.items == 0) }
{
    !same_name(PartName::Head, answer.part) || answer.cover.certificate.is_empty()
}

/// Whether the head, if a part is the head, has no interval.
fn is_head_empty(answers: &[PartAnswer]) -> bool
    ensures { result ≡ is_head_empty answers.now }
{
    for answer in answers {
        if !is_empty_unless_block(answer) {
            return false;
        }
    }
    true
}

fn is_head_alone(names: &[PartName]) -> bool
    ensures { result ≡ is_head_alone names.now }
{
    names.len() == 1 && times_named(PartName::Head, names) == 1
}

/// Whether the parts that a reply names are blocks, each once, in order from block 0 on, those with
/// a directory among them, and then the head, and none of them is unjudged.
fn is_judged(directories: usize, names: &[PartName], unjudged: &[PartName]) -> bool
    ensures { result ≡ is_judged directories names.now unjudged.now }
{
    let blocks = names.len().saturating_sub(1);
    directories <= blocks && names_in_order(blocks, names) && unjudged.is_empty()
}

/// Whether there is a directory, the parts that a reply names are the block of each directory,
/// once, in order, and then the head, and the head alone is unjudged, which has no interval.
fn are_directories_judged(
    directories: usize,
    names: &[PartName],
    unjudged: &[PartName],
    answers: &[PartAnswer],
) -> bool
    ensures { result ≡ are_directories_judged directories names.now unjudged.now answers.now }
{
    directories > 0
        && names_in_order(directories, names)
        && is_head_alone(unjudged)
        && is_head_empty(answers)
}

/// How far a reply that passes all checks, or does not, shows that no series is missing.
fn completeness_of(
    is_shown: bool,
    directories: usize,
    names: &[PartName],
    unjudged: &[PartName],
    answers: &[PartAnswer],
) -> Completeness
    ensures not_shown { (IsTrue is_shown → ⊥) → result ≡ NotShown }
    ensures shown { IsTrue is_shown
        → IsFarAs directories names.now unjudged.now answers.now result }
{
    if !is_shown {
        Completeness::NotShown
    } else if is_judged(directories, names, unjudged) {
        Completeness::Judged
    } else if are_directories_judged(directories, names, unjudged, answers) {
        Completeness::DirectoriesJudged
    } else {
        Completeness::Certified
    }
}

/// What a reply to a selector of so many matchers allows to claim, with what is known of the blocks
/// in directories, and with what the auditor said of it: no table and no line, if it was not asked.
///
/// That no series is missing is claimed exactly where each part passes the checks that need no
/// series, the rows are the merged rows of the parts, and no line names a flaw or a refusal. A part
/// counts as judged if a line finds its answer valid, or if it was skipped, its block's table is
/// there, and its line names no flaw. It takes memory for a list of what is listed and for the
/// names of the parts, and time in proportion to the parts times the lines.
pub fn find_claim(
    alloc: Global,
    matchers: usize,
    told: &Told,
    tables: &[BlockTable],
    lines: &[Line],
) -> Result<Claim, AllocError>
    ensures claimed { IfOk result
        (λ claim. IsClaimed matchers told.now tables.now lines.now claim.completeness) }
    ensures merged { IfOk result (λ claim. IsTrue claim.is_merged
        ↔ AreRows told.now.rows.items (last_listed told.now.answers.items)) }
    ensures unjudged { IfOk result (λ claim. claim.unjudged.items
        ≡ unjudged_of tables.now lines.now told.now) }
{
    let answers = told.answers.as_slice();
    let is_merged = is_merged(alloc, answers, told.rows.as_slice())?;
    let names = names_of(alloc, told)?;
    let unjudged = unjudged_of(alloc, tables, lines, told)?;
    let completeness = completeness_of(
        is_shown(is_merged, matchers, told, lines),
        tables.len(),
        names.as_slice(),
        unjudged.as_slice(),
        answers,
    );
    Ok(Claim {
        completeness,
        is_merged,
        unjudged,
    })
}
