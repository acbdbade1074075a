//! Rows that one answer alone lists.

ghost use Rattle.std.specs.Prelude.{◌≡◌, [], true, IsTrue, IfSome};
ghost use Rattle.std.specs.List.{list_all};
ghost use Rattle.std.specs.FinMap.Entries.{is_sorted};
ghost use Rattle.std.specs.Ordering.{int_cmp, is_lt};
ghost use Rattle.labels.specs.Labels.{labels_cmp};
ghost use Rattle.labels.specs.Rows.{points_of};
ghost use Rattle.auditor.specs.Listing.{listed, last_listed};

use crate::rows::same_rows;
use cover::PartAnswer;
use labels::{Row, Sample};

/// Whether no answer has a row.
fn have_none(answers: &[PartAnswer]) -> bool
    ensures { IsTrue result → listed answers.now ≡ [] }
{
    for answer in answers {
        if !answer.rows.is_empty() {
            return false;
        }
    }
    true
}

/// The rows of the first answer, where no other has any.
fn rows_of_first(answers: &[PartAnswer]) -> Option<&[Row]>
    ensures { IfSome result (λ rows. listed answers.now ≡ points_of rows.now) }
{
    let (first, others) = answers.split_first()?;
    if have_none(others) {
        Some(first.rows.as_slice())
    } else {
        None
    }
}

/// The rows of the only answer that has any.
fn only_rows(answers: &[PartAnswer]) -> Option<&[Row]>
    ensures { IfSome result (λ rows. listed answers.now ≡ points_of rows.now) }
{
    for (at, answer) in answers.iter().enumerate() {
        if !answer.rows.is_empty() {
            return rows_of_first(&answers[at..]);
        }
    }
    None
}

fn is_earlier(a: &Sample, b: &Sample) -> bool
    ensures { result ≡ is_lt (int_cmp a.now.0 b.now.0) }
{
    a.t() < b.t()
}

/// Whether times ascend strictly.
fn is_rising(samples: &[Sample]) -> bool
    ensures { result ≡ is_sorted int_cmp samples.now }
{
    for i in 1..samples.len() {
        if !is_earlier(&samples[i - 1], &samples[i]) {
            return false;
        }
    }
    true
}

fn has_rising_times(row: &Row) -> bool
    ensures { result ≡ is_sorted int_cmp row.now.1 }
{
    is_rising(row.samples())
}

/// Whether the times of each row ascend strictly.
fn are_rising(rows: &[Row]) -> bool
    ensures { result ≡ list_all (λ row. is_sorted int_cmp row.1) rows.now }
{
    rows.iter().all(has_rising_times)
}

/// Whether rows in label order are those of the only answer that has any, and their times ascend
/// strictly. Then they list what all answers list, and nothing needs to be sorted.
pub(crate) fn are_alone(answers: &[PartAnswer], rows: &[Row]) -> bool
    requires { is_sorted labels_cmp rows.now ≡ true }
    ensures { IsTrue result → points_of rows.now ≡ last_listed answers.now }
{
    match only_rows(answers) {
        Some(listed) => same_rows(listed, rows) && are_rising(rows),
        None => false,
    }
}
