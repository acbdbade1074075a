//! How many intervals have each verdict.

ghost use Rattle.std.specs.Prelude.{◌≡◌, ◌+◌, ◌++◌, IfOk, OnOk};
ghost use Rattle.page_marks.specs.Gathering.{gather};
ghost use Rattle.page_marks.specs.Tallies.{tally_of, tallies, group_tally, count_all};

use cover::{Interval, PartAnswer};
use page_claims::{SLOTS, count_in};
use page_text::{Mark, Subject};
use std::alloc::{AllocError, Global};

/// Appends how many intervals have the verdict of a slot, if one has.
#[tactic(auto, unfolding(crate::specs::Tallies::tally_of))]
fn append_tally(
    marks: &mut Vec<Mark>,
    intervals: &[Interval],
    slot: usize,
) -> Result<(), AllocError>
    ensures { OnOk result (marks.new.items ≡ marks.old.items ++ tally_of intervals.now slot) }
{
    let count = count_in(intervals, slot);
    if count == 0 {
        return Ok(());
    }
    Ok(marks.push(Mark::Count(Subject::Verdict(slot), count as u64))?)
}

/// Appends how many intervals have each verdict that occurs.
#[tactic(auto, using(crate::proofs::Steps::steps))]
pub(crate) fn append_tallies(
    marks: &mut Vec<Mark>,
    intervals: &[Interval],
) -> Result<(), AllocError>
    ensures { OnOk result (marks.new.items ≡ marks.old.items ++ tallies intervals.now) }
{
    for slot in 0..SLOTS {
        append_tally(marks, intervals, slot)?;
    }
    Ok(())
}

/// How many intervals have each verdict that occurs, in the order of their slots.
pub fn tallies_of(alloc: Global, intervals: &[Interval]) -> Result<Vec<Mark>, AllocError>
    ensures { IfOk result (λ marks. marks.items ≡ tallies intervals.now) }
{
    let mut marks = Vec::new(alloc);
    append_tallies(&mut marks, intervals)?;
    Ok(marks)
}

/// Appends how many intervals of a group have the verdict of a slot, if one of all has.
#[tactic(auto, unfolding(crate::specs::Tallies::group_tally))]
fn append_group_tally(
    marks: &mut Vec<Mark>,
    all: &[Interval],
    group: &[Interval],
    slot: usize,
) -> Result<(), AllocError>
    ensures { OnOk result (marks.new.items
        ≡ marks.old.items ++ group_tally all.now group.now slot) }
{
    if count_in(all, slot) == 0 {
        return Ok(());
    }
    let count = count_in(group, slot);
    Ok(marks.push(Mark::Count(Subject::Verdict(slot), count as u64))?)
}

/// Appends how many intervals of a group have each verdict that occurs in all.
#[tactic(auto, using(crate::proofs::Steps::steps))]
pub(crate) fn append_group(
    marks: &mut Vec<Mark>,
    all: &[Interval],
    group: &[Interval],
) -> Result<(), AllocError>
    ensures { OnOk result (marks.new.items
        ≡ marks.old.items ++ gather (group_tally all.now group.now) 19) }
{
    for slot in 0..SLOTS {
        append_group_tally(marks, all, group, slot)?;
    }
    Ok(())
}

/// The sum of two numbers; what is above the greatest is refused as if there were no memory.
pub(crate) fn sum_of(a: u64, b: usize) -> Result<u64, AllocError>
    ensures { IfOk result (λ sum. sum ≡ a + b) }
{
    match a.checked_add(b as u64) {
        Some(sum) => Ok(sum),
        None => Err(AllocError),
    }
}

/// How many intervals of all parts have the verdict of a slot.
pub(crate) fn count_all(answers: &[PartAnswer], slot: usize) -> Result<u64, AllocError>
    ensures { IfOk result (λ count. count ≡ count_all slot answers.now) }
{
    let mut count = 0;
    for answer in answers {
        count = sum_of(count, count_in(answer.cover.certificate.as_slice(), slot))?;
    }
    Ok(count)
}
