//! Which counts and tiles a page has below its claim, and which counts a text has.

ghost use Rattle.std.specs.Prelude.{◌≡◌, ◌++◌, ◌∷◌, [], if◌then◌else◌, IfOk, OnOk};
ghost use Rattle.std.specs.List.{flat_map};
ghost use Rattle.page_text.specs.declared.mark.Mark.TheVariants.{Count};
ghost use Rattle.page_marks.specs.Gathering.{gather};
ghost use Rattle.page_marks.specs.Pages.{intervals_in, separators_in, number_marks, has_row};
ghost use Rattle.page_marks.specs.Pages.{key_mark};
ghost use Rattle.page_marks.specs.Pages.{figure_marks, body_marks, part_marks, sums, part_sums};
ghost use Rattle.page_marks.specs.Pages.{upper_marks, lower_marks, page_marks};
ghost use Rattle.page_marks.specs.Pages.{part_count, text_marks};

use crate::columns::{append_groups, append_strip, columns_of};
use crate::tables::{append_rows, append_table, samples_in};
use crate::tallies::{append_tallies, count_all, sum_of};
use cover::{Interval, PartAnswer};
use labels::Row;
use page_claims::SLOTS;
use page_text::{Mark, Subject};
use std::alloc::{AllocError, Global};

/// How many intervals all parts have.
fn intervals_in(answers: &[PartAnswer]) -> Result<u64, AllocError>
    ensures { IfOk result (λ count. count ≡ intervals_in answers.now) }
{
    let mut count = 0;
    for answer in answers {
        count = sum_of(count, answer.cover.certificate.len())?;
    }
    Ok(count)
}

/// How many separators all parts have.
fn separators_in(answers: &[PartAnswer]) -> Result<u64, AllocError>
    ensures { IfOk result (λ count. count ≡ separators_in answers.now) }
{
    let mut count = 0;
    for answer in answers {
        count = sum_of(count, answer.cover.separators.len())?;
    }
    Ok(count)
}

fn append_count(marks: &mut Vec<Mark>, subject: Subject, n: u64) -> Result<(), AllocError>
    ensures { OnOk result (marks.new.items ≡ marks.old.items ++ Count subject n ∷ []) }
{
    Ok(marks.push(Mark::Count(subject, n))?)
}

/// Appends the numbers of the answer.
#[tactic(auto, unfolding(crate::specs::Pages::number_marks))]
fn append_numbers(
    marks: &mut Vec<Mark>,
    answers: &[PartAnswer],
    rows: &[Row],
) -> Result<(), AllocError>
    ensures { OnOk result (marks.new.items
        ≡ marks.old.items ++ number_marks answers.now rows.now) }
{
    let samples = samples_in(rows)?;
    let intervals = intervals_in(answers)?;
    let separators = separators_in(answers)?;
    append_count(marks, Subject::Rows, rows.len() as u64)?;
    append_count(marks, Subject::Samples, samples)?;
    append_count(marks, Subject::Parts, answers.len() as u64)?;
    append_count(marks, Subject::Intervals, intervals)?;
    append_count(marks, Subject::Separators, separators)
}

/// Whether a slot has a row in the key.
fn has_row(matchers: usize, slot: usize, count: u64) -> bool
    ensures { result ≡ has_row matchers slot count }
{
    slot == 0 || slot == 18 || slot <= matchers || count > 0
}

/// Appends the row of a slot in the key, if it has one.
#[tactic(auto, unfolding(crate::specs::Pages::key_mark))]
fn append_key_mark(
    marks: &mut Vec<Mark>,
    matchers: usize,
    answers: &[PartAnswer],
    slot: usize,
) -> Result<(), AllocError>
    ensures { OnOk result (marks.new.items
        ≡ marks.old.items ++ key_mark matchers answers.now slot) }
{
    let count = count_all(answers, slot)?;
    if !has_row(matchers, slot, count) {
        return Ok(());
    }
    append_count(marks, Subject::Verdict(slot), count)
}

#[tactic(auto, using(crate::proofs::Steps::steps))]
fn append_key(
    marks: &mut Vec<Mark>,
    matchers: usize,
    answers: &[PartAnswer],
) -> Result<(), AllocError>
    ensures { OnOk result (marks.new.items
        ≡ marks.old.items ++ gather (key_mark matchers answers.now) 19) }
{
    for slot in 0..SLOTS {
        append_key_mark(marks, matchers, answers, slot)?;
    }
    Ok(())
}

/// Appends the figure of a part: how many intervals it has in all and of each verdict, and its
/// strip.
#[tactic(auto, unfolding(crate::specs::Pages::figure_marks))]
fn append_figure(marks: &mut Vec<Mark>, intervals: &[Interval], few: bool) -> Result<(), AllocError>
    ensures { OnOk result (marks.new.items ≡ marks.old.items ++ figure_marks few intervals.now) }
{
    append_count(marks, Subject::Intervals, intervals.len() as u64)?;
    append_tallies(marks, intervals)?;
    append_strip(marks, intervals, columns_of(intervals.len(), few), few)
}

/// Most parts that are few.
pub const FEW_PARTS: usize = 8;

/// Most intervals that the table of a part shows, of few parts or of many.
pub fn most_intervals(few: bool) -> usize
    ensures { result ≡ (if few then 100 else 20) }
{
    if few { 100 } else { 20 }
}

/// Appends the figure and the tables of a part that has series.
#[tactic(auto, unfolding(crate::specs::Pages::body_marks))]
fn append_body(marks: &mut Vec<Mark>, intervals: &[Interval], few: bool) -> Result<(), AllocError>
    ensures { OnOk result (marks.new.items ≡ marks.old.items ++ body_marks few intervals.now) }
{
    if intervals.is_empty() {
        return Ok(());
    }
    append_figure(marks, intervals, few)?;
    append_groups(marks, intervals)?;
    append_table(marks, intervals, most_intervals(few))
}

/// Appends a part.
#[tactic(auto, unfolding(crate::specs::Pages::part_marks))]
fn append_part(marks: &mut Vec<Mark>, answer: &PartAnswer, few: bool) -> Result<(), AllocError>
    ensures { OnOk result (marks.new.items ≡ marks.old.items ++ part_marks few answer.now) }
{
    let intervals = answer.cover.certificate.as_slice();
    append_tallies(marks, intervals)?;
    append_body(marks, intervals, few)
}

fn append_parts(marks: &mut Vec<Mark>, answers: &[PartAnswer], few: bool) -> Result<(), AllocError>
    ensures { OnOk result (marks.new.items
        ≡ marks.old.items ++ flat_map (part_marks few) answers.now) }
{
    for answer in answers {
        append_part(marks, answer, few)?;
    }
    Ok(())
}

/// Appends how many intervals, rows and samples there are.
#[tactic(auto, unfolding(crate::specs::Pages::sums))]
fn append_sums(marks: &mut Vec<Mark>, intervals: u64, rows: &[Row]) -> Result<(), AllocError>
    ensures { OnOk result (marks.new.items ≡ marks.old.items ++ sums intervals rows.now) }
{
    let samples = samples_in(rows)?;
    append_count(marks, Subject::Intervals, intervals)?;
    append_count(marks, Subject::Rows, rows.len() as u64)?;
    append_count(marks, Subject::Samples, samples)
}

#[tactic(auto, unfolding(crate::specs::Pages::part_sums))]
fn append_part_sums(marks: &mut Vec<Mark>, answer: &PartAnswer) -> Result<(), AllocError>
    ensures { OnOk result (marks.new.items ≡ marks.old.items ++ part_sums answer.now) }
{
    let intervals = answer.cover.certificate.len() as u64;
    append_sums(marks, intervals, answer.rows.as_slice())
}

fn append_all_sums(marks: &mut Vec<Mark>, answers: &[PartAnswer]) -> Result<(), AllocError>
    ensures { OnOk result (marks.new.items
        ≡ marks.old.items ++ flat_map part_sums answers.now) }
{
    for answer in answers {
        append_part_sums(marks, answer)?;
    }
    Ok(())
}

/// Appends the numbers, the key and the parts.
#[tactic(auto, unfolding(crate::specs::Pages::upper_marks))]
fn append_upper(
    marks: &mut Vec<Mark>,
    matchers: usize,
    answers: &[PartAnswer],
    rows: &[Row],
) -> Result<(), AllocError>
    ensures { OnOk result (marks.new.items
        ≡ marks.old.items ++ upper_marks matchers answers.now rows.now) }
{
    append_numbers(marks, answers, rows)?;
    append_key(marks, matchers, answers)?;
    append_parts(marks, answers, answers.len() <= FEW_PARTS)
}

/// Appends the table of times and that of the rows.
#[tactic(auto, unfolding(crate::specs::Pages::lower_marks))]
fn append_lower(
    marks: &mut Vec<Mark>,
    answers: &[PartAnswer],
    rows: &[Row],
) -> Result<(), AllocError>
    ensures { OnOk result (marks.new.items
        ≡ marks.old.items ++ lower_marks answers.now rows.now) }
{
    let intervals = intervals_in(answers)?;
    append_all_sums(marks, answers)?;
    append_sums(marks, intervals, rows)?;
    append_rows(marks, rows)
}

/// The counts and the tiles that a page of an answer has below its claim, in their order; of a
/// selector of so many matchers.
///
/// It takes time in proportion to the intervals, rows and samples, and memory for what is shown.
pub fn page_marks(
    alloc: Global,
    matchers: usize,
    answers: &[PartAnswer],
    rows: &[Row],
) -> Result<Vec<Mark>, AllocError>
    ensures { IfOk result (λ marks. marks.items ≡ page_marks matchers answers.now rows.now) }
{
    let mut marks = Vec::new(alloc);
    append_upper(&mut marks, matchers, answers, rows)?;
    append_lower(&mut marks, answers, rows)?;
    Ok(marks)
}

#[tactic(auto, unfolding(crate::specs::Pages::part_count))]
fn append_part_count(marks: &mut Vec<Mark>, answer: &PartAnswer) -> Result<(), AllocError>
    ensures { OnOk result (marks.new.items ≡ marks.old.items ++ part_count answer.now) }
{
    append_count(
        marks,
        Subject::Intervals,
        answer.cover.certificate.len() as u64,
    )
}

fn append_part_counts(marks: &mut Vec<Mark>, answers: &[PartAnswer]) -> Result<(), AllocError>
    ensures { OnOk result (marks.new.items
        ≡ marks.old.items ++ flat_map part_count answers.now) }
{
    for answer in answers {
        append_part_count(marks, answer)?;
    }
    Ok(())
}

/// The counts that a text for a terminal has of an answer: those of the key, and how many intervals
/// each part has; of a selector of so many matchers.
pub fn text_marks(
    alloc: Global,
    matchers: usize,
    answers: &[PartAnswer],
) -> Result<Vec<Mark>, AllocError>
    ensures { IfOk result (λ marks. marks.items ≡ text_marks matchers answers.now) }
{
    let mut marks = Vec::new(alloc);
    append_key(&mut marks, matchers, answers)?;
    append_part_counts(&mut marks, answers)?;
    Ok(marks)
}
