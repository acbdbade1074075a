//! The claim.

ghost use Rattle.std.specs.Prelude.{◌≡◌, ◌↔◌, ◌++◌, IsTrue, IfOk, OnOk};
ghost use Rattle.labels.specs.Rows.{AreRows};
ghost use Rattle.auditor.specs.Listing.{last_listed};
ghost use Rattle.whole_audit.specs.StateLines.{are_right_lines};
ghost use Rattle.page_claims.specs.Judging.{names_of};
ghost use Rattle.state_claims.specs.Claiming.{IsStateClaimed, completeness_over, is_found_right};
ghost use Rattle.state_claims.specs.Claiming.{is_otherwise, is_right_of_state, is_whole};
ghost use Rattle.state_claims.specs.Claiming.{otherwise_of, part_in, unjudged_in};

use crate::verdicts::{StateSaid, is_of};
use cover::PartName;
use page_claims::{Claim, Completeness, Told, find_claim, names_in_order, names_of};
use std::alloc::{AllocError, Global};
use whole_audit::{Grade, StateLine, StateSubject};

/// Whether a judge found what is said of a part right.
fn is_found_right(lines: &[StateLine], name: PartName) -> bool
    ensures { result ≡ is_found_right lines.now name }
{
    for line in lines {
        if is_of(name, line.subject) && line.grade.is_right() {
            return true;
        }
    }
    false
}

fn are_right_lines(lines: &[StateLine]) -> bool
    ensures { result ≡ are_right_lines lines.now }
{
    for line in lines {
        if !line.grade.is_right() {
            return false;
        }
    }
    true
}

/// Whether a state was found, and no line names a flaw.
pub fn is_right_of_state(said: &StateSaid<'_>) -> bool
    ensures { result ≡ is_right_of_state said.now }
{
    said.is_found && are_right_lines(said.lines)
}

/// The parts that no judge found right.
fn unjudged_in(
    alloc: Global,
    lines: &[StateLine],
    names: &[PartName],
) -> Result<Vec<PartName>, AllocError>
    ensures { IfOk result (λ unjudged. unjudged.items ≡ unjudged_in lines.now names.now) }
{
    let mut unjudged = Vec::new(alloc);
    for name in names {
        if !is_found_right(lines, *name) {
            unjudged.push(*name)?;
        }
    }
    Ok(unjudged)
}

fn is_otherwise(grade: Grade) -> bool
    ensures { result ≡ is_otherwise grade }
{
    match grade {
        Grade::NumberedOtherwise => true,
        Grade::Valid | Grade::Skipped | Grade::Flawed(_) | Grade::Misnamed => false,
    }
}

fn append_part(names: &mut Vec<PartName>, subject: StateSubject) -> Result<(), AllocError>
    ensures { OnOk result (names.new.items ≡ names.old.items ++ part_in subject) }
{
    match subject {
        StateSubject::Part(name) => Ok(names.push(name)?),
        StateSubject::Parts | StateSubject::Rows => Ok(()),
    }
}

/// The blocks that were judged for what is missing, and not for how few their intervals are.
pub fn otherwise_of(alloc: Global, lines: &[StateLine]) -> Result<Vec<PartName>, AllocError>
    ensures { IfOk result (λ names. names.items ≡ otherwise_of lines.now) }
{
    let mut names = Vec::new(alloc);
    for line in lines {
        if is_otherwise(line.grade) {
            append_part(&mut names, line.subject)?;
        }
    }
    Ok(names)
}

fn is_whole(names: &[PartName], unjudged: &[PartName]) -> bool
    ensures { result ≡ is_whole names.now unjudged.now }
{
    names_in_order(names.len().saturating_sub(1), names) && unjudged.is_empty()
}

/// How far a reply shows that no series is missing, of which something is claimed by itself.
fn completeness_over(
    alone: Completeness,
    said: &StateSaid<'_>,
    names: &[PartName],
    unjudged: &[PartName],
) -> Completeness
    requires { unjudged.now ≡ unjudged_in said.now.lines.now names.now }
    ensures { result ≡ completeness_over alone said.now names.now }
{
    if !(alone.is_shown() && is_right_of_state(said)) {
        Completeness::NotShown
    } else if is_whole(names, unjudged) {
        Completeness::Judged
    } else {
        Completeness::Certified
    }
}

/// What a reply to a selector of so many matchers allows to claim, with what a judge said of it
/// over a kept store.
///
/// That no series is missing is claimed only if the reply's own checks hold, and it is right of a
/// state of the store. It is claimed as judged if the reply names each block once, in order, and
/// then the head, and a line finds each right.
pub fn find_state_claim(
    alloc: Global,
    matchers: usize,
    told: &Told,
    said: &StateSaid<'_>,
) -> Result<Claim, AllocError>
    ensures claimed { IfOk result
        (λ claim. IsStateClaimed matchers told.now said.now claim.completeness) }
    ensures merged { IfOk result (λ claim. IsTrue claim.is_merged
        ↔ AreRows told.now.rows.items (last_listed told.now.answers.items)) }
    ensures unjudged { IfOk result (λ claim. claim.unjudged.items
        ≡ unjudged_in said.now.lines.now (names_of told.now)) }
{
    let alone = find_claim(alloc, matchers, told, &[], &[])?;
    let names = names_of(alloc, told)?;
    let unjudged = unjudged_in(alloc, said.lines, names.as_slice())?;
    let completeness = completeness_over(
        alone.completeness,
        said,
        names.as_slice(),
        unjudged.as_slice(),
    );
    Ok(Claim {
        completeness,
        is_merged: alone.is_merged,
        unjudged,
    })
}
